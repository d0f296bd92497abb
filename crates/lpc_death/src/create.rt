// The calls that make processes and threads.
ghost use Rattle.lpc_rows.specs.Capacity.{KeepsOtherPlaces, KeepsViewPlaces, handle_places};
ghost use Rattle.lpc_rows.specs.Kept.{grown_handles, grown_messages, grown_processes, grown_threads, grown_waits};
ghost use Rattle.std.specs.Prelude.{◌≡◌, ◌+◌, ◌<◌, ◌≤◌, false, true, Err, IfOk, IsErr, MatchResult, Ok, OnErr, OnOk};
ghost use Rattle.lpc_base.specs.Rows.{has};
ghost use Rattle.lpc_base.specs.declared.limits.TheConstants.{HANDLE_LIMIT};
ghost use Rattle.lpc_base.specs.declared.limits.TheConstants.{LINES_LIMIT};
ghost use Rattle.lpc_model.specs.Creation.{making_process, making_thread};
ghost use Rattle.lpc_death.specs.Room.{lacks_child_room, lacks_member_room};
ghost use Rattle.lpc_model.specs.Found.{is_process, is_table, was_process, was_thread};
ghost use Rattle.lpc_model.specs.Tests.{handle_load};
ghost use Rattle.lpc_rows.specs.Clauses.{HasSmallLoad};
ghost use Rattle.lpc_model.specs.Lines.{create_process, create_thread};
ghost use Rattle.lpc_procs.specs.Procs.{IsNumber};
ghost use Rattle.lpc_rows.specs.Called.{MayServe, service};
ghost use Rattle.lpc_rows.specs.Ready.{HasRoom, caller, is_ready};

use crate::targets::{LIFE_ACCESS, process_target};
use lpc_base::limits::CHILD_LIMIT;
use lpc_base::status::{OBJECT_NAME_COLLISION, QUOTA_EXCEEDED, SUCCESS};
use lpc_base::{OutOfMemory, Status};
use lpc_homes::Object;
use lpc_model::{CallName, Entries, Entry, Outcome, ProcArg, handle_field, process_fields, refuse};
use lpc_steps::{give_handle, handles_test, thread_reserve, thread_test};
use lpc_world::World;

/// Why a process can't be made: OBJECT_NAME_COLLISION where the number was ever used for a process, or the other for a
/// thread; QUOTA_EXCEEDED where the maker's process has 64 live children, or no place for two more handles.
#[tactic(auto, unfolding(lpc_model::specs::Creation::nt_create_process))]
fn process_test(world: &World, by: u32, pid: u32, tid: u32) -> Result<(), Status>
    requires { is_ready world.now.rows by ≡ true }
    ensures found { let found = service world.now.rows by (create_process pid tid) in
        let by = caller world.now.rows by in
        MatchResult result (λ u. found ≡ Ok (making_process world.now.rows by pid tid))
        (λ s. found ≡ Err s) }
    ensures process { OnOk result (was_process world.now.rows pid ≡ false) }
    ensures thread { OnOk result (was_thread world.now.rows tid ≡ false) }
    ensures few { let by = caller world.now.rows by in
        OnOk result (handle_load world.now.rows by.process + 2 ≤ HANDLE_LIMIT) }
{
    let maker = world.caller(by).process;
    if world.was_process(pid) || world.was_thread(tid) {
        return Err(OBJECT_NAME_COLLISION);
    }
    if world.live_children(maker) >= CHILD_LIMIT {
        return Err(QUOTA_EXCEEDED);
    }
    handles_test(world, maker, 2)
}

/// `NtCreateProcess`: the caller makes a process, which gets the token of the caller's process, and then its
/// first thread, and the caller's process gets a handle to each, in this order.
///
/// Refusals, in this order: OBJECT_NAME_COLLISION where a number was ever used; QUOTA_EXCEEDED where the caller's
/// process has 64 live children; QUOTA_EXCEEDED where two more handles, with those that its waiting connects are to
/// get, would be over 256. OutOfMemory comes only where it isn't refused and there is no room for what it makes;
/// nothing has changed then but the room.
pub fn nt_create_process(
    world: &mut World,
    by: u32,
    pid: u32,
    tid: u32,
    out: &mut Entries,
) -> Result<Outcome, OutOfMemory>
    requires ready { is_ready world.old.rows by ≡ true }
    requires room { HasRoom world.old out.old }
    requires calls { world.old.calls < LINES_LIMIT }
    requires process { IsNumber pid }
    requires thread { IsNumber tid }
    ensures serves { let call = create_process pid tid in
        MayServe by call result world.old world.new out.old out.new }
    ensures spare { OnOk result (out.new.spare + 1 ≡ out.old.spare) }
    ensures wanting { let by = caller world.old.rows by in
        OnErr result (lacks_child_room world.old by ≡ true) }
    ensures room_stays { let call = create_process pid tid in
        IsErr (service world.old.rows by call) → world.new.room ≡ world.old.room }
    ensures unasked { let call = create_process pid tid in
        IsErr (service world.old.rows by call) → world.new.capacity ≡ world.old.capacity }
    ensures capacity { let new = world.new.capacity in
        let old = world.old.capacity in
        new ≡ record old {
          processes = new.processes;
          threads = new.threads;
          waits = new.waits;
          messages = new.messages;
          handles = new.handles;
          views = new.views;
        } }
    ensures view_places { KeepsViewPlaces world.old.capacity world.new.capacity }
    ensures asked_processes { let new = world.new.capacity in
        new.processes ≤ grown_processes world.old 1 }
    ensures asked_threads { let new = world.new.capacity in
        new.threads ≤ grown_threads world.old 1 }
    ensures asked_waits { let new = world.new.capacity in new.waits ≤ grown_waits world.old 1 }
    ensures asked_messages { let new = world.new.capacity in
        new.messages ≤ grown_messages world.old 1 }
    ensures asked_handles { let by = caller world.old.rows by in
        handle_places world.new.capacity by.process ≤ grown_handles world.old by.process 2 }
    ensures other_places { let by = caller world.old.rows by in
        KeepsOtherPlaces by.process world.old.capacity world.new.capacity }
{
    let caller = world.caller(by);
    if let Err(status) = process_test(world, by, pid, tid) {
        world.begin_call();
        return Ok(refuse(caller.number, CallName::NtCreateProcess, status, out));
    }
    let token = world.process_token(caller.process).copy();
    thread_reserve(world)?;
    world.procs_reserve(1, 1)?;
    world.handles_reserve(caller.process, 2)?;
    world.begin_call();
    let process = world.procs_draw_birth(by);
    let thread = world.procs_draw_birth(by);
    world.procs_add_process(pid, Some(caller.process), process, &token);
    world.procs_add_thread(tid, pid, thread);
    let value = give_handle(world, caller.process, Object::Process(process), LIFE_ACCESS);
    let second = give_handle(world, caller.process, Object::Thread(thread), LIFE_ACCESS);
    out.push(Entry::Answer {
        tid: caller.number,
        call: CallName::NtCreateProcess,
        status: SUCCESS,
        fields: process_fields(value, second),
    });
    Ok(Outcome::Answered(SUCCESS))
}

/// Why a process gets no further thread by a call, or the process.
#[tactic(auto, unfolding(lpc_model::specs::Creation::nt_create_thread))]
fn member_test(world: &World, by: u32, target: ProcArg, tid: u32) -> Result<u32, Status>
    requires { is_ready world.now.rows by ≡ true }
    ensures found { let found = service world.now.rows by (create_thread target tid) in
        let by = caller world.now.rows by in
        MatchResult result (λ pid. found ≡ Ok (making_thread world.now.rows by tid pid))
        (λ s. found ≡ Err s) }
    ensures process { IfOk result (λ pid. has (is_process pid) world.now.rows.processes ≡ true) }
    ensures table { IfOk result (λ pid. has (is_table pid) world.now.rows.handles ≡ true) }
    ensures new { OnOk result (was_thread world.now.rows tid ≡ false) }
    ensures few { let by = caller world.now.rows by in
        OnOk result (HasSmallLoad world.now.rows by.process) }
{
    let pid = process_target(world, by, target)?;
    thread_test(world, tid, pid)?;
    handles_test(world, world.caller(by).process, 1)?;
    Ok(pid)
}

/// `NtCreateThread`: the caller makes a thread of its own process, or of the one that a handle names, and its process
/// gets a handle to it.
///
/// Refusals, in this order: INVALID_HANDLE where no handle of the caller's process has the value; OBJECT_TYPE_MISMATCH
/// where it names no process; ACCESS_DENIED where the handle lacks the right; INVALID_CID where the process has ended;
/// OBJECT_NAME_COLLISION where the number was ever used; QUOTA_EXCEEDED where the process has 64 live threads, or the
/// caller's process 256 handles, with those that its waiting connects are to get. OutOfMemory comes only where it isn't
/// refused and there is no room for what it makes; nothing has changed then but the room.
pub fn nt_create_thread(
    world: &mut World,
    by: u32,
    process: ProcArg,
    tid: u32,
    out: &mut Entries,
) -> Result<Outcome, OutOfMemory>
    requires ready { is_ready world.old.rows by ≡ true }
    requires room { HasRoom world.old out.old }
    requires calls { world.old.calls < LINES_LIMIT }
    requires thread { IsNumber tid }
    ensures serves { let call = create_thread process tid in
        MayServe by call result world.old world.new out.old out.new }
    ensures spare { OnOk result (out.new.spare + 1 ≡ out.old.spare) }
    ensures wanting { let by = caller world.old.rows by in
        OnErr result (lacks_member_room world.old by ≡ true) }
    ensures room_stays { let call = create_thread process tid in
        IsErr (service world.old.rows by call) → world.new.room ≡ world.old.room }
    ensures unasked { let call = create_thread process tid in
        IsErr (service world.old.rows by call) → world.new.capacity ≡ world.old.capacity }
    ensures capacity { let new = world.new.capacity in
        let old = world.old.capacity in
        new ≡ record old {
          threads = new.threads;
          waits = new.waits;
          messages = new.messages;
          handles = new.handles;
        } }
    ensures asked_threads { let new = world.new.capacity in
        new.threads ≤ grown_threads world.old 1 }
    ensures asked_waits { let new = world.new.capacity in new.waits ≤ grown_waits world.old 1 }
    ensures asked_messages { let new = world.new.capacity in
        new.messages ≤ grown_messages world.old 1 }
    ensures asked_handles { let by = caller world.old.rows by in
        handle_places world.new.capacity by.process ≤ grown_handles world.old by.process 1 }
    ensures other_places { let by = caller world.old.rows by in
        KeepsOtherPlaces by.process world.old.capacity world.new.capacity }
{
    let caller = world.caller(by);
    let pid = match member_test(world, by, process, tid) {
        Ok(pid) => pid,
        Err(status) => {
            world.begin_call();
            return Ok(refuse(caller.number, CallName::NtCreateThread, status, out));
        }
    };
    thread_reserve(world)?;
    world.procs_reserve(0, 1)?;
    world.handles_reserve(caller.process, 1)?;
    world.begin_call();
    let thread = world.procs_draw_birth(by);
    world.procs_add_thread(tid, pid, thread);
    let value = give_handle(world, caller.process, Object::Thread(thread), LIFE_ACCESS);
    out.push(Entry::Answer {
        tid: caller.number,
        call: CallName::NtCreateThread,
        status: SUCCESS,
        fields: handle_field(value),
    });
    Ok(Outcome::Answered(SUCCESS))
}
