// The step of a script's line over the machine and the servers on threads.
ghost use Rattle.std.specs.Prelude.{◌≡◌, ◌<◌, ◌≤◌, ◌+◌, [], true, false, Some, OnOk};
ghost use Rattle.std.specs.Option.{option_copied};
ghost use Rattle.lpc_base.specs.declared.limits.TheConstants.{LINES_LIMIT};
ghost use Rattle.lpc_machine.specs.Short.{has_short_name};
ghost use Rattle.lpc_model.specs.Found as found;
ghost use Rattle.lpc_model.specs.Grammar.{has_ids};
ghost use Rattle.lpc_base.specs.Rows.{has};
ghost use Rattle.lpc_model.specs.Linked.{HasHeldRows};
ghost use Rattle.lpc_model.specs.Lines.{hosts, line_of, moves, of_resident};
ghost use Rattle.lpc_model.specs.Machine.{hosting_status};
ghost use Rattle.lpc_model.specs.Words.{is_id};
ghost use Rattle.lpc_model.specs.Residents.{can_call, is_on};
ghost use Rattle.lpc_model.specs.Settle.{IsSettled};
ghost use Rattle.lpc_model.specs.Run.{line_step, said_done, state_behind};
ghost use Rattle.lpc_residents.specs.Kept.{kept, state_of};
ghost use Rattle.lpc_residents.specs.Turns.{bytes_wanted_on};
ghost use Rattle.lpc_rows.specs.Ready.{HasRoom};

use arrayvec::ArrayVec;
use lpc_base::status::{INVALID_CID, OBJECT_NAME_COLLISION, SUCCESS};
use lpc_base::{OutOfMemory, Status};
use lpc_machine::{Condition, Machine, condition_of};
use lpc_model::{Entries, Entry, Kind, Line, Word};
use lpc_residents::Residents;
use lpc_world::World;

/// One line's step, over the machine and the servers: a turn is the call that the server on the thread makes, and every
/// other line but those about servers is the machine's own. Its entries are added to `out`, as [`Machine::step`] wants
/// it.
///
/// OutOfMemory comes where memory for the machine's step, or for what a server keeps, is wanting; no clause tells more
/// of when it does, or of what is left then.
pub(crate) fn step(
    machine: &mut Machine,
    residents: &mut Residents,
    line: &Line<'_>,
    out: &mut Entries,
) -> Result<(), OutOfMemory>
    requires empty { out.old.list ≡ [] }
    requires unread { out.old.reads ≡ false }
    requires room { HasRoom machine.old out.old }
    requires few { machine.old.calls < LINES_LIMIT }
    requires ids { has_ids (line_of line.now) ≡ true }
    requires named { has_short_name (line_of line.now) ≡ true }
    ensures rows { let s = state_of machine.old.rows residents.old in
        OnOk result (machine.new.rows ≡ (state_behind kept s (Some (line_of line.now))).world) }
    ensures residents { let s = state_of machine.old.rows residents.old in
        OnOk result (residents.new ≡ (state_behind kept s (Some (line_of line.now))).residents) }
    ensures told { let s = state_of machine.old.rows residents.old in
        OnOk result (out.new.list ≡
        (line_step s.world (said_done kept s (Some (line_of line.now)))).entries) }
    ensures calls { machine.new.calls ≤ machine.old.calls + 1 }
{
    match line {
        Line::Resident { tid, kind, handle } => {
            host(machine.world(), residents, *tid, *kind, *handle, out)
        }
        Line::Turn(tid) => turn(machine, residents, *tid, out),
        _ => {
            machine.step(line, out)?;
            residents.hear(out, false)?;
            Ok(())
        }
    }
}

/// How a server that is to come is answered, where the thread lives or doesn't, and has a server or none.
fn hosting(world: &World, tid: u32, had: bool) -> Status
    ensures { result ≡ hosting_status (found.live_thread world.now.rows tid) had }
{
    match world.live_thread(tid) {
        Some(_) => { if had { OBJECT_NAME_COLLISION } else { SUCCESS } }
        None => INVALID_CID,
    }
}

/// A server comes to a thread that lives and has none.
fn host(
    world: &World,
    residents: &mut Residents,
    tid: u32,
    kind: Kind,
    handle: u32,
    out: &mut Entries,
) -> Result<(), OutOfMemory>
    requires held { HasHeldRows world.now.rows }
    requires settled { IsSettled world.now.rows }
    requires empty { out.old.list ≡ [] }
    requires room { HasRoom world.now out.old }
    ensures rows { let s = state_of world.now.rows residents.old in
        let line = of_resident tid (hosts kind handle) false in
        (state_behind kept s (Some line)).world ≡ world.now.rows }
    ensures residents { let s = state_of world.now.rows residents.old in
        let line = of_resident tid (hosts kind handle) false in
        OnOk result (residents.new ≡ (state_behind kept s (Some line)).residents) }
    ensures told { let s = state_of world.now.rows residents.old in
        let line = of_resident tid (hosts kind handle) false in
        OnOk result (out.new.list ≡ (line_step s.world (said_done kept s (Some line))).entries) }
{
    let had = residents.has(tid);
    let status = hosting(world, tid, had);
    out.push(Entry::Directive {
        word: Word::Resident,
        status,
    });
    if status == SUCCESS {
        residents.host(tid, handle)?;
    }
    Ok(())
}

/// The turn of the server on a thread.
fn turn(
    machine: &mut Machine,
    residents: &mut Residents,
    tid: u32,
    out: &mut Entries,
) -> Result<(), OutOfMemory>
    requires empty { out.old.list ≡ [] }
    requires unread { out.old.reads ≡ false }
    requires room { HasRoom machine.old out.old }
    requires few { machine.old.calls < LINES_LIMIT }
    requires id { is_id tid ≡ true }
    ensures rows { let s = state_of machine.old.rows residents.old in
        let line = of_resident tid moves false in
        OnOk result (machine.new.rows ≡ (state_behind kept s (Some line)).world) }
    ensures residents { let s = state_of machine.old.rows residents.old in
        let line = of_resident tid moves false in
        OnOk result (residents.new ≡ (state_behind kept s (Some line)).residents) }
    ensures told { let s = state_of machine.old.rows residents.old in
        let line = of_resident tid moves false in
        OnOk result (out.new.list ≡ (line_step s.world (said_done kept s (Some line))).entries) }
    ensures calls { machine.new.calls ≤ machine.old.calls + 1 }
{
    let condition = condition_of(machine.world(), tid);
    if !residents.has(tid) {
        out.push(Entry::Directive {
            word: Word::Turn,
            status: INVALID_CID,
        });
        return Ok(());
    }
    match condition {
        Condition::Absent => out.push(Entry::Directive {
            word: Word::Turn,
            status: INVALID_CID,
        }),
        Condition::Waits => out.push(Entry::Busy { tid }),
        Condition::Ready => call(machine, residents, tid, out)?,
    }
    Ok(())
}

/// The call that the server on a thread makes next.
fn call(
    machine: &mut Machine,
    residents: &mut Residents,
    tid: u32,
    out: &mut Entries,
) -> Result<(), OutOfMemory>
    requires empty { out.old.list ≡ [] }
    requires unread { out.old.reads ≡ false }
    requires room { HasRoom machine.old out.old }
    requires few { machine.old.calls < LINES_LIMIT }
    requires id { is_id tid ≡ true }
    requires there { has (is_on tid) residents.old ≡ true }
    requires ready { can_call machine.old.rows tid ≡ true }
    ensures rows { let s = state_of machine.old.rows residents.old in
        let line = of_resident tid moves false in
        OnOk result (machine.new.rows ≡ (state_behind kept s (Some line)).world) }
    ensures residents { let s = state_of machine.old.rows residents.old in
        let line = of_resident tid moves false in
        OnOk result (residents.new ≡ (state_behind kept s (Some line)).residents) }
    ensures told { let s = state_of machine.old.rows residents.old in
        let line = of_resident tid moves false in
        OnOk result (out.new.list ≡ (line_step s.world (said_done kept s (Some line))).entries) }
    ensures calls { machine.new.calls ≤ machine.old.calls + 1 }
{
    let mut message = ArrayVec::new();
    let bytes = bytes_wanted(machine.world(), residents, tid);
    let Some((own, handle)) = residents.begin(tid, bytes, &mut message)? else {
        unreachable!()
    };
    let call = own.call(handle, message.as_slice());
    machine.step(&Line::Run { tid, call }, out)?;
    residents.hear(out, true)
}

/// The bytes of the view that the server on a thread wants for its next call, as its thread sees them.
fn bytes_wanted<'a>(world: &'a World, residents: &Residents, tid: u32) -> Option<&'a [u8]>
    ensures { option_copied result ≡ bytes_wanted_on world.now.rows tid residents.now }
{
    match residents.view_wanted(tid) {
        Some(view) => world.view_bytes(tid, view.base, view.size),
        None => None,
    }
}
