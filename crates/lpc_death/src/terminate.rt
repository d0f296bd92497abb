// The calls that end threads and processes.
ghost use Rattle.std.specs.Prelude.{◌≡◌, ◌+◌, ◌++◌, ◌≤◌, ◌<◌, ◌∷◌, [], Some, true, length};
ghost use Rattle.lpc_base.specs.Rows.{count, has};
ghost use Rattle.lpc_base.specs.declared.limits.TheConstants.{LINES_LIMIT};
ghost use Rattle.lpc_closing.specs.Closing.{CanCloseAll};
ghost use Rattle.lpc_death.specs.Dying.{ending_entries};
ghost use Rattle.lpc_death.specs.Ends.{CanEnd, doomed_turn, ended_outcome, told_unless, telling_ends};
ghost use Rattle.lpc_model.specs.Deaths.{HasSingleRegistrations};
ghost use Rattle.lpc_model.specs.Death as model;
ghost use Rattle.lpc_model.specs.Found.{is_table, live_thread, live_threads};
ghost use Rattle.lpc_model.specs.Lines.{terminate_process, terminate_thread};
ghost use Rattle.lpc_rows.specs.Called.{Served};
ghost use Rattle.lpc_rows.specs.Clauses.{has_process};
ghost use Rattle.lpc_rows.specs.Does.{Took};
ghost use Rattle.lpc_rows.specs.Capacity.{but_names};
ghost use Rattle.lpc_rows.specs.Kept.{CanMake, is_alive};
ghost use Rattle.lpc_rows.specs.Ready.{HasRoom, caller, is_ready};
ghost use Rattle.lpc_steps.specs.Settling.{CanSettle};

use crate::dying::{die, die_all};
use crate::targets::{living_process, living_thread};
use crate::tell::tell_all;
use lpc_base::Status;
use lpc_base::status::SUCCESS;
use lpc_closing::end_process;
use lpc_model::{CallName, Entries, Entry, Fields, Outcome, ProcArg, refuse};
use lpc_world::World;

/// Threads of a process have ended: the ports that they registered are told of it, and the process ends where none of
/// its threads lives. It takes no memory.
fn end_told(world: &mut World, pid: u32, out: &mut Entries)
    requires process { has_process world.old.rows pid ≡ true }
    requires table { has (is_table pid) world.old.rows.handles ≡ true }
    requires can { CanCloseAll world.old.rows }
    requires single { HasSingleRegistrations world.old.rows }
    requires spare { length world.old.rows.waits ≤ out.old.spare }
    requires budget { CanMake world.old }
    ensures took { Took (telling_ends pid world.old.rows) world.old world.new out.old out.new }
    ensures calls { world.new.calls ≡ world.old.calls }
    ensures capacity { but_names world.new.capacity ≡ but_names world.old.capacity }
    ensures made { world.new.made ≤ world.old.made }
    ensures lives { count is_alive world.new.rows.threads
        ≤ count is_alive world.old.rows.threads }
    ensures spare { out.new.spare + length world.old.rows.waits
        ≡ out.old.spare + length world.new.rows.waits }
{
    tell_all(world, pid, out);
    if !world.is_live(pid) {
        end_process(world, pid, out);
    }
}

/// A live thread ends: it dies, the ports that it registered are told of it, and its process ends with its last thread.
fn end_thread(world: &mut World, tid: u32, code: Status, out: &mut Entries)
    requires live { let t = caller world.old.rows tid in
        live_thread world.old.rows tid ≡ Some t }
    requires can { CanEnd world.old.rows }
    requires spare { ending_entries world.old.rows ≤ out.old.spare }
    requires budget { CanMake world.old }
    ensures took { let t = caller world.old.rows tid in
        let steps = model.end_threads t.process code (t ∷ []) world.old.rows in
        Took steps world.old world.new out.old out.new }
    ensures calls { world.new.calls ≡ world.old.calls }
    ensures capacity { but_names world.new.capacity ≡ but_names world.old.capacity }
    ensures made { world.new.made ≤ world.old.made }
    ensures spare { out.old.spare + ending_entries world.new.rows
        ≤ out.new.spare + ending_entries world.old.rows }
{
    let Some(thread) = world.live_thread(tid) else {
        unreachable!()
    };
    die(world, tid, code, out);
    end_told(world, thread.process, out);
}

/// The live threads of a process end, as `end_thread` ends one.
fn end_threads(world: &mut World, pid: u32, code: Status, out: &mut Entries)
    requires process { has_process world.old.rows pid ≡ true }
    requires table { has (is_table pid) world.old.rows.handles ≡ true }
    requires can { CanEnd world.old.rows }
    requires spare { ending_entries world.old.rows ≤ out.old.spare }
    requires budget { CanMake world.old }
    ensures took { let threads = live_threads world.old.rows pid in
        let steps = model.end_threads pid code threads world.old.rows in
        Took steps world.old world.new out.old out.new }
    ensures calls { world.new.calls ≡ world.old.calls }
    ensures capacity { but_names world.new.capacity ≡ but_names world.old.capacity }
    ensures made { world.new.made ≤ world.old.made }
    ensures spare { out.old.spare + ending_entries world.new.rows
        ≤ out.new.spare + ending_entries world.old.rows }
{
    die_all(world, pid, code, out);
    end_told(world, pid, out);
}

/// Of the live processes that are to end, the one of the least number ends with its code; where none is to end, nothing
/// happens. It takes no memory, and makes no row but the messages that were owed.
pub fn end_doomed(world: &mut World, out: &mut Entries)
    requires can { CanEnd world.old.rows }
    requires spare { ending_entries world.old.rows ≤ out.old.spare }
    requires budget { CanMake world.old }
    ensures took { Took (doomed_turn world.old.rows) world.old world.new out.old out.new }
    ensures calls { world.new.calls ≡ world.old.calls }
    ensures capacity { but_names world.new.capacity ≡ but_names world.old.capacity }
    ensures made { world.new.made ≤ world.old.made }
    ensures spare { out.old.spare + ending_entries world.new.rows
        ≤ out.new.spare + ending_entries world.old.rows }
{
    if let Some(doomed) = world.least_doomed() {
        end_threads(world, doomed.number, Status(doomed.code), out);
    }
}

/// A call that doesn't end its own thread is answered; one that does ends without an answer.
fn answer_unless(own: bool, tid: u32, call: CallName, out: &mut Entries) -> Outcome
    requires spare { 1 ≤ out.old.spare }
    ensures list { out.new.list ≡ out.old.list ++ told_unless own tid call }
    ensures spare { out.old.spare ≤ out.new.spare + 1 }
    ensures outcome { result ≡ ended_outcome own }
{
    if own {
        return Outcome::Gone;
    }
    out.push(Entry::Answer {
        tid,
        call,
        status: SUCCESS,
        fields: Fields::none(),
    });
    Outcome::Answered(SUCCESS)
}

/// `NtTerminateThread`: a thread ends, with its wait and the message that it waits with; the client port of its
/// accepted connect is cut off from its other end. The ports that it registered are told of it, and its process ends
/// with its last thread: the process's handles are closed. A call that ends its own thread has no answer.
///
/// Refusals, in this order: INVALID_HANDLE where no handle of the caller's process has the value; OBJECT_TYPE_MISMATCH
/// where it names no thread; ACCESS_DENIED where it lacks the right; INVALID_CID where the thread has ended. It takes
/// no memory.
pub fn nt_terminate_thread(
    world: &mut World,
    by: u32,
    thread: ProcArg,
    code: u32,
    out: &mut Entries,
) -> Outcome
    requires ready { is_ready world.old.rows by ≡ true }
    requires room { HasRoom world.old out.old }
    requires calls { world.old.calls < LINES_LIMIT }
    requires can { CanEnd world.old.rows }
    ensures served { let call = terminate_thread thread code in
        Served by call result world.old world.new out.old out.new }
    ensures spare { out.old.spare + ending_entries world.new.rows
        ≤ out.new.spare + ending_entries world.old.rows + 1 }
    ensures settles { CanSettle world.new out.new }
    ensures capacity { but_names world.new.capacity ≡ but_names world.old.capacity }
{
    let caller = world.caller(by);
    world.begin_call();
    match living_thread(world, by, thread) {
        Ok(thread) => {
            let own = thread == caller.number;
            let outcome = answer_unless(own, caller.number, CallName::NtTerminateThread, out);
            end_thread(world, thread, Status(code), out);
            outcome
        }
        Err(status) => refuse(caller.number, CallName::NtTerminateThread, status, out),
    }
}

/// `NtTerminateProcess`: the live threads of a process end, in the order of making, each as `NtTerminateThread` ends
/// one. The ports that they registered are told of it, and the process ends: its handles are closed. A call that ends
/// its own process has no answer.
///
/// Refusals, in this order: INVALID_HANDLE where no handle of the caller's process has the value; OBJECT_TYPE_MISMATCH
/// where it names no process; ACCESS_DENIED where it lacks the right; INVALID_CID where the process has ended. It takes
/// no memory.
pub fn nt_terminate_process(
    world: &mut World,
    by: u32,
    process: ProcArg,
    code: u32,
    out: &mut Entries,
) -> Outcome
    requires ready { is_ready world.old.rows by ≡ true }
    requires room { HasRoom world.old out.old }
    requires calls { world.old.calls < LINES_LIMIT }
    requires can { CanEnd world.old.rows }
    ensures served { let call = terminate_process process code in
        Served by call result world.old world.new out.old out.new }
    ensures spare { out.old.spare + ending_entries world.new.rows
        ≤ out.new.spare + ending_entries world.old.rows + 1 }
    ensures settles { CanSettle world.new out.new }
    ensures capacity { but_names world.new.capacity ≡ but_names world.old.capacity }
{
    let caller = world.caller(by);
    world.begin_call();
    match living_process(world, by, process) {
        Ok(pid) => {
            let own = pid == caller.process;
            let outcome = answer_unless(own, caller.number, CallName::NtTerminateProcess, out);
            end_threads(world, pid, Status(code), out);
            outcome
        }
        Err(status) => refuse(caller.number, CallName::NtTerminateProcess, status, out),
    }
}
