// Sections: the room for them, those that are made and go, and what is counted of them.
ghost use Rattle.std.specs.Prelude.{◌≡◌, ◌+◌, ◌*◌, ◌<◌, ◌≤◌, true, false, None, IfOk, OnErr, OnOk, Some, length, map, replicate};
ghost use Rattle.lpc_base.specs.Room.{grown_room};
ghost use Rattle.std.specs.List.{sum};
ghost use Rattle.lpc_base.specs.Rows.{has, which};
ghost use Rattle.lpc_base.specs.declared.limits.TheConstants.{LINES_LIMIT, VIEW_LIMIT};
ghost use Rattle.lpc_model.specs.Basics.{Frees};
ghost use Rattle.lpc_model.specs.Memory.{is_section_of, section_load};
ghost use Rattle.lpc_model.specs.Found.{holders, section_name, section_row};
ghost use Rattle.lpc_model.specs.declared.entry.ObjectKind.TheVariants as kind;
ghost use Rattle.lpc_rows.specs.Held.{has_handles, has_holders};
ghost use Rattle.lpc_rows.specs.Kept.{CanMake, GainsNoLives, Roomy, Same, grown_sections};
ghost use Rattle.lpc_rows.specs.Lawful.{drew};
ghost use Rattle.lpc_rows.specs.Names.{KeepsNames, KeepsOthers, name_of, stands};
ghost use Rattle.lpc_rows.specs.Shown.{shown_section};
ghost use Rattle.lpc_slots.specs.Table.{listed};
ghost use Rattle.lpc_rows.specs.Clauses.{IsBlank, after, and_section, section_at, with_section};
ghost use Rattle.lpc_sections.specs.Sections.{IsSectionSize};

use crate::world::World;
use lpc_base::{Birth, OutOfMemory};
use lpc_sections::Section;
use lpc_slots::{Key, Slots};

impl<'t> World<'t> {
    /// Makes room for so many further sections.
    ///
    /// OutOfMemory comes only where that room wasn't there; nothing has changed then but the room.
    pub fn sections_reserve(&mut self, more: usize) -> Result<(), OutOfMemory>
        ensures same { Same self.old self.new }
        ensures room { Roomy self.old.room self.new.room }
        ensures sections { OnOk result (more ≤ self.new.room.sections) }
        ensures wanting { OnErr result (self.old.room.sections < more) }
        ensures most { let rows = length self.old.rows.sections in
            self.new.room.sections ≤ grown_room self.old.room.sections more rows }
        ensures others { let new = self.new.room in
            new ≡ record self.old.room { sections = new.sections } }
        ensures capacity { let new = self.new.capacity in
            new ≡ record self.old.capacity { sections = new.sections } }
        ensures asked { let new = self.new.capacity in new.sections ≤ grown_sections self.old more }
        ensures enough { more ≤ self.old.room.sections → self.new.capacity ≡ self.old.capacity }
    {
        self.sections.reserve(more)
    }

    /// A section of zeros that stands in no table yet, whose bytes are the world's to keep. Its size is whole pages, from
    /// 4096 bytes to 4 MiB.
    ///
    /// OutOfMemory comes where memory for the bytes is wanting; no clause tells more of when it does.
    pub fn new_section(
        &self,
        size: u32,
        writable: bool,
        birth: Birth,
    ) -> Result<Section, OutOfMemory>
        requires { IsSectionSize size }
        ensures bytes { IfOk result (λ s. s.bytes ≡ replicate size 0) }
        ensures writable { IfOk result (λ s. s.writable ≡ writable) }
        ensures birth { IfOk result (λ s. s.birth ≡ birth) }
    {
        Section::new(self.alloc, size, writable, birth)
    }

    /// Adds a section, whose bytes are zeros, and answers its key. Its birth was drawn, and no section has it. It takes
    /// no memory: there is room that `sections_reserve` made.
    pub fn sections_insert_reserved(&mut self, section: Section) -> Key
        requires room { 0 < self.old.room.sections }
        requires budget { CanMake self.old }
        requires zeros { IsBlank section }
        requires fresh { section_row self.old.rows section.birth ≡ None }
        requires drawn { has (drew section.birth) self.old.rows.threads ≡ true }
        ensures rows { self.new.rows ≡ with_section self.old section }
        ensures name { name_of self.new.births.sections result ≡ section.birth }
        ensures stands { stands self.new.births.sections result ≡ true }
        ensures others { KeepsNames self.old.births.sections self.new.births.sections }
        ensures ports { self.new.births.ports ≡ self.old.births.ports }
        ensures tokens { self.new.births.tokens ≡ self.old.births.tokens }
        ensures calls { self.new.calls ≡ self.old.calls }
        ensures loose { self.new.loose ≡ self.old.loose }
        ensures made { self.new.made ≡ self.old.made + 1 }
        ensures room { Roomy self.old.room (and_section self.new.room) }
        ensures capacity { self.new.capacity ≡ self.old.capacity }
    {
        self.made += 1;
        self.sections.insert_reserved(section)
    }

    /// A section goes that no handle names, no view shows and no connect that isn't accepted offers. Its room is spare
    /// then.
    pub fn sections_free(&mut self, section: Key)
        requires stands { stands self.old.births.sections section ≡ true }
        requires handles { let birth = name_of self.old.births.sections section in
            has_handles self.old.rows (section_name birth) ≡ false }
        requires holders { let birth = name_of self.old.births.sections section in
            has_holders self.old.rows (section_name birth) ≡ false }
        ensures rows { let birth = name_of self.old.births.sections section in
            self.new.rows ≡ after self.old (Frees (section_name birth)) }
        ensures others { KeepsOthers section self.old.births.sections self.new.births.sections }
        ensures ports { self.new.births.ports ≡ self.old.births.ports }
        ensures tokens { self.new.births.tokens ≡ self.old.births.tokens }
        ensures calls { self.new.calls ≡ self.old.calls }
        ensures made { self.new.made ≡ self.old.made }
        ensures loose { self.new.loose ≡ true }
        ensures room { Roomy self.old.room self.new.room }
        ensures capacity { self.new.capacity ≡ self.old.capacity }
        ensures lives { GainsNoLives self.old self.new }
    {
        self.loose = true;
        self.sections.remove(section);
    }

    /// The section of a key.
    pub fn section(&self, section: Key) -> &Section
        requires { stands self.now.births.sections section ≡ true }
        ensures section { section_at self.now section ≡ Some (shown_section (section, result.now)) }
        ensures birth { let row = result.now in
            row.birth ≡ name_of self.now.births.sections section }
    {
        match self.sections.get(section) {
            Some(row) => row,
            None => unreachable!(),
        }
    }

    /// The bytes of the sections that a process made, together, whoever names them now.
    pub fn section_load(&self, pid: u32) -> u64
        ensures { result ≡ section_load self.now.rows pid }
    {
        bytes_made_by(&self.sections, pid)
    }

    /// A view of some process shows the section, or a connect offers it that isn't accepted.
    pub fn is_shown_or_offered(&self, section: Key) -> bool
        requires { stands self.now.births.sections section ≡ true }
        ensures { let birth = name_of self.now.births.sections section in
            result ≡ has_holders self.now.rows (section_name birth) }
    {
        self.parts.shows(section) || self.waits.is_section_offered(section)
    }

    /// How many views of all processes show a section, and how many connects offer it that aren't accepted.
    pub(crate) fn holders_of_section(&self, section: Key) -> usize
        requires { stands self.now.births.sections section ≡ true }
        ensures holders { let birth = name_of self.now.births.sections section in
            result ≡ holders self.now.rows kind.Section birth }
        ensures few { result ≤ (VIEW_LIMIT + 1) * self.now.made }
    {
        self.parts.views_to(section) + self.waits.offers(section)
    }
}

/// The bytes of the sections that a process made, together.
fn bytes_made_by(sections: &Slots<Section>, pid: u32) -> u64
    requires few { sections.now.made ≤ 16 * LINES_LIMIT }
    ensures { let rows = map shown_section (listed sections.now) in
        result ≡ sum (map (λ s. s.size) (which (is_section_of pid) rows)) }
{
    let mut bytes: u64 = 0;
    for place in 0..sections.count() {
        let (_, section) = sections.row(place);
        if section.birth().process == pid {
            bytes += section.size() as u64;
        }
    }
    bytes
}
