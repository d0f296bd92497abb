// A script is run and printed line by line.
ghost use Rattle.std.specs.Prelude.{◌≡◌, ◌<◌, ◌≤◌, ◌+◌, ◌++◌, [], length, nat_le, option_map, true, Some, IfOk, IfSome, OnOk};
ghost use Rattle.lpc_base.specs.declared.limits.TheConstants.{LINES_LIMIT};
ghost use Rattle.lpc_machine.specs.Short.{has_short_name};
ghost use Rattle.lpc_model.specs.Grammar.{has_ids};
ghost use Rattle.lpc_model.specs.Lines.{line_of};
ghost use Rattle.lpc_model.specs.Text.{entries_text};
ghost use Rattle.lpc_model.specs.Found as found;
ghost use Rattle.lpc_model.specs.Run.{line_step, numbered_line, said_done, state_behind};
ghost use Rattle.lpc_residents.specs.Kept.{kept, state_of};
ghost use Rattle.lpc_replay.specs.declared.form.Form.TheVariants.{States};
ghost use Rattle.lpc_replay.specs.Forms.{line_told};
ghost use Rattle.lpc_replay.specs.Playing.{RunsLine, ShowsRows, begin, entries_told, last_text};

use crate::form::Form;
use crate::step::step;
use lpc_base::OutOfMemory;
use lpc_base::limits::LINES_LIMIT;
use lpc_machine::Machine;
use lpc_model::{Entries, Line, LineFault};
use lpc_residents::Residents;
use lpc_script::{Scratch, read_line};
use lpc_snapshot::print_rows;
use lpc_states::print_changes;
use lpc_tokens::TokenArena;
use lpc_transcript::{print, print_end, print_stop};
use std::alloc::Global;
use std::marker::Model;
use std::mem::swap;

/// The rows of the world, as the form of states prints them: as they stood last, and room for those behind the next line.
#[derive(Drop)]
struct Snapshots {
    rows: Vec<u8>,
    // The rows stand so still. Where they don't, what these hold is of no use.
    are_last: bool,
    next: Vec<u8>,
}

/// A script as far as it has run, and the text that is to be sent next.
#[derive(Drop)]
pub struct Playback<'t> {
    form: Form,
    machine: Machine<'t>,
    residents: Residents,
    out: Entries,
    snapshots: Snapshots,
    text: Vec<u8>,
    lines: u32,
    told: u128,
}

impl<'t> Model for Playback<'t> {
    ghost use Rattle.lpc_replay.specs.Playing.{AreCounted, Played, ShowsRows};

    ghost Value = { Played };

    ghost view = { λ p. record {
      form = p.form;
      at = record { rows = p.machine.rows; residents = p.residents; lines = p.lines; told = p.told };
      entries = p.out.list;
      text = p.text.items;
    } };

    ghost invariant = { λ p. AreCounted p.machine.calls p.lines p.told
        × ShowsRows p.snapshots.are_last p.snapshots.rows.items p.machine.rows };
}

impl<'t> Playback<'t> {
    /// Before the first line, of which this is to be sent. Tokens lie in this arena.
    ///
    /// OutOfMemory comes where memory for the entries' buffer is wanting; no clause tells more of when it does.
    pub fn new(
        alloc: Global,
        arena: &'t TokenArena,
        form: Form,
    ) -> Result<Playback<'t>, OutOfMemory>
        ensures { IfOk result
            (λ p. p ≡ record { form = form; at = begin; entries = []; text = [] }) }
    {
        let out = Entries::new(alloc)?;
        Ok(Playback {
            form,
            machine: Machine::new(alloc, arena),
            residents: Residents::new(alloc),
            out,
            snapshots: Snapshots {
                rows: Vec::new(alloc),
                are_last: false,
                next: Vec::new(alloc),
            },
            text: Vec::new(alloc),
            lines: 0,
            told: 0,
        })
    }

    /// As many lines were run as a script may have.
    pub fn is_full(&self) -> bool
        ensures { result ≡ nat_le LINES_LIMIT self.now.at.lines }
    {
        self.lines >= LINES_LIMIT
    }

    /// How many lines were run.
    pub fn lines(&self) -> u32
        ensures { result ≡ self.now.at.lines }
    {
        self.lines
    }

    /// How many entries they told.
    pub fn told(&self) -> u128
        ensures { result ≡ self.now.at.told }
    {
        self.told
    }

    /// How many object rows they left.
    pub fn objects(&self) -> usize
        ensures { result ≡ found.objects self.now.at.rows }
    {
        self.machine.objects()
    }

    /// What the line that was run last told.
    pub fn entries(&self) -> &Entries
        ensures { (result.now).list ≡ self.now.entries }
    {
        &self.out
    }

    /// What is to be sent next.
    pub fn text(&self) -> &[u8]
        ensures { result.now ≡ self.now.text }
    {
        &self.text
    }

    /// Runs the next line, and has the text of what it tells ready. Answers its fault where it is faulty, and then the
    /// script has run no further.
    ///
    /// OutOfMemory comes where memory for the line's step, its entries or their text is wanting, or for the rows of the
    /// world where they are printed; no clause tells more of when it does, or of what it leaves.
    pub fn run_line(
        &mut self,
        scratch: &mut Scratch,
        line: &[u8],
    ) -> Result<Option<LineFault>, OutOfMemory>
        ensures runs { IfOk result
            (λ f. RunsLine self.old.form line.now f self.old.at self.new.at self.new.text) }
        ensures form { self.new.form ≡ self.old.form }
        ensures entries { let read = numbered_line (self.old.at.lines + 1) line.now in
            OnOk result (self.new.entries ≡ entries_told self.old.at read) }
        ensures few { self.new.at.lines ≤ LINES_LIMIT }
        ensures more { self.old.at.lines ≤ self.new.at.lines }
    {
        self.text.clear();
        self.out.clear();
        if self.lines >= LINES_LIMIT {
            return Ok(Some(LineFault::Lines));
        }
        let said = match read_line(line, scratch) {
            Ok(said) => said,
            Err(fault) => return Ok(Some(fault)),
        };
        self.lines += 1;
        let told = tell_in(
            self.form,
            &mut self.machine,
            &mut self.residents,
            &mut self.out,
            self.lines,
            &said,
            &mut self.snapshots,
            &mut self.text,
        )?;
        self.told += told as u128;
        Ok(None)
    }

    /// Has the last line ready: of a script that was run to its end, or of one whose next line has this fault.
    ///
    /// OutOfMemory comes where memory for the text is wanting; no clause tells more of when it does. The script has run
    /// no further.
    #[tactic(auto, unfolding(crate::specs::Playing::last_text))]
    pub fn end(&mut self, fault: Option<LineFault>) -> Result<(), OutOfMemory>
        ensures text { OnOk result (self.new.text ≡ last_text self.old.at fault) }
        ensures form { self.new.form ≡ self.old.form }
        ensures at { self.new.at ≡ self.old.at }
    {
        self.text.clear();
        match fault {
            None => print_end(
                &mut self.text,
                self.lines,
                self.told,
                self.machine.objects(),
            ),
            Some(fault) => print_stop(&mut self.text, self.lines + 1, fault),
        }
    }
}

/// Takes the step of what a line of this number says, if it says anything, over the machine and the servers on threads,
/// and appends the text of its entries. Answers how many entries it told.
#[tactic(auto, unfolding(lpc_model::specs::Text::entries_text))]
fn tell(
    machine: &mut Machine,
    residents: &mut Residents,
    out: &mut Entries,
    number: u32,
    said: &Option<Line<'_>>,
    text: &mut Vec<u8>,
) -> Result<usize, OutOfMemory>
    requires few { machine.old.calls < LINES_LIMIT }
    requires ids { IfSome said.now (λ line. has_ids (line_of line) ≡ true) }
    requires named { IfSome said.now (λ line. has_short_name (line_of line) ≡ true) }
    ensures rows { let s = state_of machine.old.rows residents.old in
        OnOk result (machine.new.rows
        ≡ (state_behind kept s (option_map line_of said.now)).world) }
    ensures residents { let s = state_of machine.old.rows residents.old in
        OnOk result (residents.new
        ≡ (state_behind kept s (option_map line_of said.now)).residents) }
    ensures text { let s = state_of machine.old.rows residents.old in
        let step = line_step s.world (said_done kept s (option_map line_of said.now)) in
        OnOk result (text.new.items ≡ text.old.items ++ entries_text number step.entries) }
    ensures entries { let s = state_of machine.old.rows residents.old in
        let step = line_step s.world (said_done kept s (option_map line_of said.now)) in
        OnOk result (out.new.list ≡ step.entries) }
    ensures told { let s = state_of machine.old.rows residents.old in
        let step = line_step s.world (said_done kept s (option_map line_of said.now)) in
        IfOk result (λ told. told ≡ length step.entries) }
    ensures calls { machine.new.calls ≤ machine.old.calls + 1 }
{
    out.clear();
    let Some(said) = said else {
        return Ok(0);
    };
    let needed = machine.room_needed();
    if out.spare() < needed {
        // Twice as much, since it would have to grow with each thread that is made otherwise.
        out.reserve(needed.saturating_mul(2))?;
    }
    step(machine, residents, said, out)?;
    print(number, out, text)?;
    Ok(out.list().len())
}

/// The same, and behind that what became of the world's rows.
fn tell_states(
    machine: &mut Machine,
    residents: &mut Residents,
    out: &mut Entries,
    number: u32,
    said: &Option<Line<'_>>,
    snapshots: &mut Snapshots,
    text: &mut Vec<u8>,
) -> Result<usize, OutOfMemory>
    requires few { machine.old.calls < LINES_LIMIT }
    requires ids { IfSome said.now (λ line. has_ids (line_of line) ≡ true) }
    requires named { IfSome said.now (λ line. has_short_name (line_of line) ≡ true) }
    requires shown { ShowsRows snapshots.old.are_last
        snapshots.old.rows.items machine.old.rows }
    ensures shown { ShowsRows snapshots.new.are_last
        snapshots.new.rows.items machine.new.rows }
    ensures rows { let s = state_of machine.old.rows residents.old in
        OnOk result (machine.new.rows
        ≡ (state_behind kept s (option_map line_of said.now)).world) }
    ensures residents { let s = state_of machine.old.rows residents.old in
        OnOk result (residents.new
        ≡ (state_behind kept s (option_map line_of said.now)).residents) }
    ensures text { let s = state_of machine.old.rows residents.old in
        let step = line_step s.world (said_done kept s (option_map line_of said.now)) in
        OnOk result (text.new.items ≡ text.old.items ++ line_told States number s.world step) }
    ensures entries { let s = state_of machine.old.rows residents.old in
        let step = line_step s.world (said_done kept s (option_map line_of said.now)) in
        OnOk result (out.new.list ≡ step.entries) }
    ensures told { let s = state_of machine.old.rows residents.old in
        let step = line_step s.world (said_done kept s (option_map line_of said.now)) in
        IfOk result (λ told. told ≡ length step.entries) }
    ensures calls { machine.new.calls ≤ machine.old.calls + 1 }
{
    if !snapshots.are_last {
        snapshots.rows.clear();
        print_rows(machine.world(), &mut snapshots.rows)?;
    }
    snapshots.are_last = false;
    let told = tell(machine, residents, out, number, said, text)?;
    snapshots.next.clear();
    print_rows(machine.world(), &mut snapshots.next)?;
    print_changes(number, &snapshots.rows, &snapshots.next, text)?;
    swap(&mut snapshots.rows, &mut snapshots.next);
    snapshots.are_last = true;
    Ok(told)
}

/// Takes the step of what a line of this number says, if it says anything, and appends its text in this form. Answers how
/// many entries it told.
fn tell_in(
    form: Form,
    machine: &mut Machine,
    residents: &mut Residents,
    out: &mut Entries,
    number: u32,
    said: &Option<Line<'_>>,
    snapshots: &mut Snapshots,
    text: &mut Vec<u8>,
) -> Result<usize, OutOfMemory>
    requires few { machine.old.calls < LINES_LIMIT }
    requires ids { IfSome said.now (λ line. has_ids (line_of line) ≡ true) }
    requires named { IfSome said.now (λ line. has_short_name (line_of line) ≡ true) }
    requires shown { ShowsRows snapshots.old.are_last
        snapshots.old.rows.items machine.old.rows }
    ensures shown { ShowsRows snapshots.new.are_last
        snapshots.new.rows.items machine.new.rows }
    ensures rows { let s = state_of machine.old.rows residents.old in
        OnOk result (machine.new.rows
        ≡ (state_behind kept s (option_map line_of said.now)).world) }
    ensures residents { let s = state_of machine.old.rows residents.old in
        OnOk result (residents.new
        ≡ (state_behind kept s (option_map line_of said.now)).residents) }
    ensures text { let s = state_of machine.old.rows residents.old in
        let step = line_step s.world (said_done kept s (option_map line_of said.now)) in
        OnOk result (text.new.items ≡ text.old.items ++ line_told form number s.world step) }
    ensures entries { let s = state_of machine.old.rows residents.old in
        let step = line_step s.world (said_done kept s (option_map line_of said.now)) in
        OnOk result (out.new.list ≡ step.entries) }
    ensures told { let s = state_of machine.old.rows residents.old in
        let step = line_step s.world (said_done kept s (option_map line_of said.now)) in
        IfOk result (λ told. told ≡ length step.entries) }
    ensures calls { machine.new.calls ≤ machine.old.calls + 1 }
{
    match form {
        Form::Transcript => {
            snapshots.are_last = false;
            tell(machine, residents, out, number, said, text)
        }
        Form::States => tell_states(machine, residents, out, number, said, snapshots, text),
    }
}
