// The call that registers a port with a thread.
ghost use Rattle.lpc_rows.specs.Kept.{grown_messages};
ghost use Rattle.std.specs.Prelude.{◌≡◌, ◌<◌, ◌+◌, ◌≤◌, Ok, Err, true, false, IfOk, MatchResult, OnErr, OnOk, IsErr, IsOk};
ghost use Rattle.lpc_base.specs.declared.limits.TheConstants.{LINES_LIMIT};
ghost use Rattle.lpc_model.specs.Lines.{register_thread_terminate_port};
ghost use Rattle.lpc_model.specs.Register as register;
ghost use Rattle.lpc_model.specs.Register.{is_registered, register_steps};
ghost use Rattle.lpc_request.specs.Called.{is_registered_at, was_registered};
ghost use Rattle.lpc_rows.specs.Called.{MayServe, service};
ghost use Rattle.lpc_rows.specs.Clauses.{birth_at};
ghost use Rattle.lpc_rows.specs.Names.{stands};
ghost use Rattle.lpc_rows.specs.Ready.{HasRoom, caller, is_ready};
ghost use Rattle.lpc_rows.specs.Registered.{HasFewRegistrations};

use lpc_base::limits::REGISTRATION_LIMIT;
use lpc_base::status::{QUOTA_EXCEEDED, SUCCESS};
use lpc_base::{OutOfMemory, Status};
use lpc_model::{CallName, Entries, Entry, Fields, Outcome, refuse};
use lpc_slots::Key;
use lpc_steps::port_at;
use lpc_world::World;

/// The thread, which can make a call, registered the port.
pub fn has_registered(world: &World, tid: u32, port: Key) -> bool
    requires ready { is_ready world.now.rows tid ≡ true }
    requires port { stands world.now.births.ports port ≡ true }
    ensures { let by = caller world.now.rows tid in
        result ≡ is_registered (birth_at world.now port) by }
{
    let by = world.caller(tid);
    let birth = world.port(port).birth;
    world.procs().is_registered(by.number, birth)
}

/// The thread has this port registered already, or may register a further one; QUOTA_EXCEEDED where it registered
/// 16 others.
pub fn registration_test(world: &World, tid: u32, port: Key) -> Result<(), Status>
    requires ready { is_ready world.now.rows tid ≡ true }
    requires port { stands world.now.births.ports port ≡ true }
    ensures test { let by = caller world.now.rows tid in
        result ≡ register.registration_test by (birth_at world.now port) }
    ensures few { OnOk result (is_registered_at world.now tid port ≡ false →
        HasFewRegistrations world.now.rows tid) }
{
    if has_registered(world, tid, port) {
        return Ok(());
    }
    let by = world.caller(tid);
    if world.procs().registration_count(by.number) >= REGISTRATION_LIMIT {
        return Err(QUOTA_EXCEEDED);
    }
    Ok(())
}

/// The port that a thread is to register: the refusals of its handle, and QUOTA_EXCEEDED where the thread registered 16
/// others.
#[tactic(auto, unfolding(lpc_model::specs::Register::nt_register_thread_terminate_port))]
fn register_test(world: &World, tid: u32, handle: u32) -> Result<Key, Status>
    requires { is_ready world.now.rows tid ≡ true }
    ensures found { let call = register_thread_terminate_port handle in
        let found = service world.now.rows tid call in
        MatchResult result
        (λ port. found ≡ Ok (register_steps (caller world.now.rows tid) (birth_at world.now port)))
        (λ s. found ≡ Err s) }
    ensures stands { IfOk result (λ port. stands world.now.births.ports port ≡ true) }
    ensures few { IfOk result (λ port. is_registered_at world.now tid port ≡ false →
        HasFewRegistrations world.now.rows tid) }
    ensures known { let known = was_registered world.now.rows tid handle in
        IfOk result (λ port. is_registered_at world.now tid port ≡ known) }
{
    let port = port_at(world, tid, handle)?;
    registration_test(world, tid, port)?;
    Ok(port)
}

/// `NtRegisterThreadTerminatePort`: the port of a handle is registered with the thread, behind those that it registered
/// before: when the thread ends, a message that tells so is posted on it. A port that is registered already changes
/// nothing.
///
/// Refusals in their order: INVALID_HANDLE where no handle of the caller's process has the value; OBJECT_TYPE_MISMATCH
/// where it names no port; ACCESS_DENIED where it lacks the right; QUOTA_EXCEEDED where the thread registered 16 other
/// ports, be they open or closed. OutOfMemory comes only where it isn't refused, the port isn't registered yet, and
/// there is no room for the message that is to tell of the thread's end; nothing has changed then but the room.
#[tactic(auto, unfolding(lpc_model::specs::Register::nt_register_thread_terminate_port))]
pub fn nt_register_thread_terminate_port(
    world: &mut World,
    by: u32,
    handle: u32,
    out: &mut Entries,
) -> Result<Outcome, OutOfMemory>
    requires ready { is_ready world.old.rows by ≡ true }
    requires room { HasRoom world.old out.old }
    requires calls { world.old.calls < LINES_LIMIT }
    ensures serves { let call = register_thread_terminate_port handle in
        MayServe by call result world.old world.new out.old out.new }
    ensures room_stays { let call = register_thread_terminate_port handle in
        IsErr (service world.old.rows by call) → world.new.room ≡ world.old.room }
    ensures unasked { let call = register_thread_terminate_port handle in
        IsErr (service world.old.rows by call) → world.new.capacity ≡ world.old.capacity }
    ensures spare { OnOk result (out.new.spare + 1 ≡ out.old.spare) }
    ensures answered { was_registered world.old.rows by handle ≡ true → IsOk result }
    ensures capacity_stays { was_registered world.old.rows by handle ≡ true →
        world.new.capacity ≡ world.old.capacity }
    ensures wanting { OnErr result (world.old.room.messages < 1) }
    ensures capacity { let new = world.new.capacity in
        let old = world.old.capacity in
        new ≡ record old { messages = new.messages } }
    ensures asked_messages { let new = world.new.capacity in
        new.messages ≤ grown_messages world.old 1 }
{
    let caller = world.caller(by);
    let port = match register_test(world, by, handle) {
        Ok(port) => port,
        Err(status) => {
            world.begin_call();
            return Ok(refuse(
                caller.number,
                CallName::NtRegisterThreadTerminatePort,
                status,
                out,
            ));
        }
    };
    let registered = has_registered(world, by, port);
    if !registered {
        world.messages_reserve(1)?;
    }
    world.begin_call();
    out.push(Entry::Answer {
        tid: caller.number,
        call: CallName::NtRegisterThreadTerminatePort,
        status: SUCCESS,
        fields: Fields::none(),
    });
    if !registered {
        world.procs_register(caller.number, port);
    }
    Ok(Outcome::Answered(SUCCESS))
}
