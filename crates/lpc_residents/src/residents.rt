// The servers on threads.
ghost use Rattle.std.specs.Prelude.{List, ◌≡◌, [], ◌++◌, ◌∷◌, position, map, true, false, IfOk, OnErr, OnOk};
ghost use Rattle.lpc_base.specs.Rows.{change, first, has};
ghost use Rattle.std.specs.Option.{option_and_then, option_copied, option_map};
ghost use Rattle.lpc_model.specs.World.{World};
ghost use Rattle.lpc_residents.specs.Turns.{bytes_wanted_on, gains_by, gains_on, may_want, own_call, replies_on, view_wanted};
ghost use Rattle.lpc_sid.specs.declared.sid.Sid.{Sid};
ghost use Rattle.lpc_model.specs.Residents as spec;
ghost use Rattle.lpc_model.specs.Residents.{begun, heard_by, is_on, new_resident, next_call};
ghost use Rattle.lpc_residents.specs.Kept.{heard_in, heard_one, kept};
ghost use Rattle.lpc_residents.specs.Shown.{entry_with, fields_with};

use crate::resident::{OwnCall, Resident};
use arrayvec::ArrayVec;
use lpc_base::{OutOfMemory, Status};
use lpc_model::{ClientView, Entries, Entry, Fields};
use std::alloc::Global;
use std::marker::Model;

/// The servers on threads, in order of coming.
#[derive(Drop)]
pub struct Residents {
    alloc: Global,
    list: Vec<Resident>,
}

impl Model for Residents {
    ghost use Rattle.std.specs.Prelude.{List, ◌≡◌, true};
    ghost use Rattle.lpc_base.specs.Rows.{differ_by};
    ghost use Rattle.lpc_model.specs.Residents as spec;
    ghost use Rattle.lpc_subsys.specs.Clients.{ClientRow};

    ghost Value = { List (spec.Resident (List ClientRow)) };

    ghost view = { λ r. r.list.items };

    ghost invariant = { λ r. differ_by (λ r. r.thread) r.list.items ≡ true };
}

impl Residents {
    /// No server. What is kept later takes memory from `alloc`.
    pub fn new(alloc: Global) -> Residents
        ensures { result ≡ [] }
    {
        Residents {
            alloc,
            list: Vec::new(alloc),
        }
    }

    /// A server comes to a thread that has none, for the port of a handle.
    ///
    /// After `OutOfMemory` nothing has changed; no clause tells when it comes.
    pub fn host(&mut self, thread: u32, handle: u32) -> Result<(), OutOfMemory>
        requires { has (is_on thread) self.old ≡ false }
        ensures hosted { OnOk result
            (self.new ≡ self.old ++ new_resident kept thread handle ∷ []) }
        ensures same { OnErr result (self.new ≡ self.old) }
    {
        let resident = Resident::new(self.alloc, thread, handle);
        self.list.push(resident).map_err(|_| OutOfMemory)?;
        Ok(())
    }

    /// The servers hear what a line told: each the wake of its own call, and in the line of a turn the answer too.
    ///
    /// OutOfMemory comes only where, behind some of its entries, a server hears by the next one of a connection that
    /// came of its own answer to a connect; no clause tells more of when it does, or of what is left then.
    pub fn hear(&mut self, out: &Entries, in_turn: bool) -> Result<(), OutOfMemory>
        ensures heard { OnOk result (self.new ≡ heard_in kept in_turn self.old (out.now).list) }
        ensures wanting { OnErr result (may_want in_turn self.old (out.now).list ≡ true) }
    {
        let entries = out.list();
        for entry in entries {
            self.hear_entry(entry, out.read_bytes(), in_turn)?;
        }
        Ok(())
    }

    /// There is a server on a thread.
    pub fn has(&self, thread: u32) -> bool
        ensures { result ≡ has (is_on thread) self.now }
    {
        for resident in &self.list {
            if resident.thread() == thread {
                return true;
            }
        }
        false
    }

    /// The view whose bytes the next call of the server on a thread may need, none where it needs none or there is no
    /// server.
    pub fn view_wanted(&self, thread: u32) -> Option<ClientView>
        ensures { result ≡ option_and_then view_wanted (first (is_on thread) self.now) }
    {
        match place_of(&self.list, thread) {
            Some(place) => self.list[place].view_wanted(),
            None => None,
        }
    }

    /// The server on a thread begins its next call, with the bytes of the view that it wants, and with the message that
    /// it sends in an empty buffer: the call, and the handle of the port that it serves; none where there is no server.
    ///
    /// OutOfMemory comes only where that server replies to a request, whose client may take memory; no clause tells more
    /// of when it does. The servers are as they were then; what the buffer holds no clause tells.
    pub fn begin(
        &mut self,
        thread: u32,
        bytes: Option<&[u8]>,
        buffer: &mut ArrayVec<u8, 256>,
    ) -> Result<Option<(OwnCall, u32)>, OutOfMemory>
        requires { buffer.old.items ≡ [] }
        ensures begun { (w : World) →
            option_copied bytes.entry ≡ bytes_wanted_on w thread self.old →
            OnOk result (self.new ≡ change (is_on thread) (begun kept w) self.old) }
        ensures call { (w : World) →
            option_copied bytes.entry ≡ bytes_wanted_on w thread self.old →
            IfOk result (λ own. option_map (λ c. own_call c.0 c.1 buffer.new.items) own
            ≡ option_map (next_call kept w) (first (is_on thread) self.old)) }
        ensures same { OnErr result (self.new ≡ self.old) }
        ensures wanting { OnErr result (replies_on thread self.old ≡ Some true) }
    {
        match place_of(&self.list, thread) {
            Some(place) => {
                let resident = &mut self.list[place];
                let handle = resident.handle();
                let call = resident.begin(bytes, buffer)?;
                Ok(Some((call, handle)))
            }
            None => Ok(None),
        }
    }

    // The servers hear what an entry tells, whose mark for a memory read stands for these bytes, and one for the groups of
    // a token for whatever groups.
    fn hear_entry(&mut self, entry: &Entry, read: &[u8], in_turn: bool) -> Result<(), OutOfMemory>
        ensures heard { (groups : List Sid) → OnOk result
            (self.new ≡ heard_one kept in_turn self.old (entry_with read.now groups entry.now)) }
        ensures wanting { OnErr result (gains_by in_turn self.old entry.now ≡ true) }
    {
        match entry {
            Entry::Answer {
                tid,
                status,
                fields,
                ..
            } => {
                if in_turn {
                    return self.resolve(*tid, *status, fields, read);
                }
                Ok(())
            }
            Entry::Wakes {
                tid,
                status,
                fields,
                ..
            } => self.resolve(*tid, *status, fields, read),
            _ => Ok(()),
        }
    }

    // The server on a thread takes the outcome of its call, where it awaits one.
    fn resolve(
        &mut self,
        thread: u32,
        status: Status,
        fields: &Fields,
        read: &[u8],
    ) -> Result<(), OutOfMemory>
        ensures heard { (groups : List Sid) →
            let shown = fields_with read.now groups fields.now in
            OnOk result
            (self.new ≡ change (is_on thread) (heard_by kept status shown) self.old) }
        ensures wanting { OnErr result (gains_on thread fields.now self.old ≡ true) }
    {
        match place_of(&self.list, thread) {
            Some(place) => self.list[place].hear(status, fields, read),
            None => Ok(()),
        }
    }
}

// Where the server on a thread stands, none where there is none.
fn place_of(residents: &[Resident], thread: u32) -> Option<usize>
    ensures { result ≡ position (is_on thread) residents.now }
{
    residents
        .iter()
        .position(|resident| resident.thread() == thread)
}
