// The listen: a thread takes a connection request, or waits for one.
ghost use Rattle.std.specs.Prelude.{◌≡◌, ◌≤◌, ◌<◌, Ok, Err, true, false, IfOk, MatchResult, ◌+◌};
ghost use Rattle.lpc_base.specs.Rows.{has};
ghost use Rattle.lpc_base.specs.declared.limits.TheConstants.{LINES_LIMIT};
ghost use Rattle.lpc_rows.specs.Clauses.{birth_at};
ghost use Rattle.lpc_connect.specs.Calls.{listening, row_birth};
ghost use Rattle.lpc_model.specs.Basics.{outcome_of};
ghost use Rattle.lpc_model.specs.Found.{is_live_thread, waits_as};
ghost use Rattle.lpc_model.specs.Lines.{listen_port};
ghost use Rattle.lpc_rows.specs.Called.{Served, service};
ghost use Rattle.lpc_rows.specs.Does.{Does, Took};
ghost use Rattle.lpc_rows.specs.Kept.{HasWholeBudget};
ghost use Rattle.lpc_rows.specs.Names.{stands};
ghost use Rattle.lpc_rows.specs.Ready.{HasRoom, caller, is_ready};
ghost use Rattle.lpc_rows.specs.Callers.{as_caller, shown_caller};

use lpc_base::Status;
use lpc_base::status::{INVALID_PORT_HANDLE, SUCCESS};
use lpc_model::{CallName, Entries, Entry, Fields, Message, Outcome, message_field, refuse};
use lpc_procs::Caller;
use lpc_slots::Key;
use lpc_steps::{is_connection, port_at, wants_answer};
use lpc_waits::{Wait, WaitKind};
use lpc_world::World;

/// The connection port of a handle: the handle's fault, and INVALID_PORT_HANDLE for another kind of port.
#[tactic(auto, unfolding(lpc_model::specs::Connect::nt_listen_port))]
fn listen_test(world: &World, tid: u32, handle: u32) -> Result<Key, Status>
    requires { is_ready world.now.rows tid ≡ true }
    ensures found { let found = service world.now.rows tid (listen_port handle) in
        let by = caller world.now.rows tid in
        MatchResult result
        (λ key. found ≡ Ok (listening world.now.rows by (row_birth world.now key)))
        (λ s. found ≡ Err s) }
    ensures stands { IfOk result (λ key. stands world.now.births.ports key ≡ true) }
    ensures name { IfOk result (λ key. row_birth world.now key ≡ birth_at world.now key) }
{
    let port = port_at(world, tid, handle)?;
    if !is_connection(world, port) {
        return Err(INVALID_PORT_HANDLE);
    }
    Ok(port)
}

/// The oldest connection request of the port is taken, or the thread waits for one.
fn take_or_wait(world: &mut World, by: &Caller, port: Key, out: &mut Entries) -> Outcome
    requires spare { 1 ≤ out.old.spare }
    requires budget { HasWholeBudget world.old }
    requires live { has (is_live_thread by.now.number) world.old.rows.threads ≡ true }
    requires ready { has (waits_as by.now.number) world.old.rows.waits ≡ false }
    requires port { stands world.old.births.ports port ≡ true }
    ensures takes { let port = birth_at world.old port in
        let steps = listening world.old.rows (shown_caller by.now) port in
        Took steps world.old world.new out.old out.new }
    ensures outcome { let port = birth_at world.old port in
        result ≡ outcome_of (listening world.old.rows (shown_caller by.now) port) }
    ensures calls { world.new.calls ≡ world.old.calls }
    ensures capacity { world.new.capacity ≡ world.old.capacity }
    ensures spare { out.old.spare ≤ out.new.spare + 2 }
{
    match world.ports_pull_connect(port) {
        Some(taken) => {
            let message = Message::from_bytes(taken.bytes.as_slice());
            out.push(Entry::Answer {
                tid: by.number,
                call: CallName::NtListenPort,
                status: SUCCESS,
                fields: message_field(&message),
            });
            if wants_answer(&message) {
                world.waits_receive(message.header.client.thread, port);
            }
            Outcome::Answered(SUCCESS)
        }
        None => {
            out.push(Entry::Waits {
                tid: by.number,
                call: CallName::NtListenPort,
                fields: Fields::none(),
            });
            world.waits_add(
                by.number,
                Wait {
                    process: by.process,
                    kind: WaitKind::Listen,
                    port,
                    queue: port,
                    identifier: 0,
                    received: false,
                },
            );
            Outcome::Waits
        }
    }
}

fn listen(
    world: &mut World,
    tid: u32,
    by: &Caller,
    handle: u32,
    out: &mut Entries,
) -> Result<Outcome, Status>
    requires ready { is_ready world.old.rows tid ≡ true }
    requires row { by.now ≡ as_caller (caller world.old.rows tid) }
    requires number { by.now.number ≡ tid }
    requires live { has (is_live_thread tid) world.old.rows.threads ≡ true }
    requires still { has (waits_as tid) world.old.rows.waits ≡ false }
    requires spare { 2 ≤ out.old.spare }
    requires budget { HasWholeBudget world.old }
    ensures does { let does = service world.old.rows tid (listen_port handle) in
        Does result does world.old world.new out.old out.new }
    ensures calls { world.new.calls ≡ world.old.calls }
    ensures capacity { world.new.capacity ≡ world.old.capacity }
    ensures spare { out.old.spare ≤ out.new.spare + 2 }
{
    let port = listen_test(world, tid, handle)?;
    Ok(take_or_wait(world, by, port, out))
}

/// `NtListenPort`: takes the oldest connection request of the connection port of a handle, or waits for one.
///
/// Refusals in their order: INVALID_HANDLE where no handle of the caller's process has the value; OBJECT_TYPE_MISMATCH
/// where it names no port; ACCESS_DENIED where it lacks the right; INVALID_PORT_HANDLE where the port isn't a
/// connection port. It takes no memory.
pub fn nt_listen_port(world: &mut World, by: u32, handle: u32, out: &mut Entries) -> Outcome
    requires ready { is_ready world.old.rows by ≡ true }
    requires room { HasRoom world.old out.old }
    requires calls { world.old.calls < LINES_LIMIT }
    ensures served { let call = listen_port handle in
        Served by call result world.old world.new out.old out.new }
    ensures spare { out.old.spare ≤ out.new.spare + 2 }
    ensures capacity { world.new.capacity ≡ world.old.capacity }
{
    let caller = world.caller(by);
    world.begin_call();
    match listen(world, by, &caller, handle, out) {
        Ok(outcome) => outcome,
        Err(status) => refuse(caller.number, CallName::NtListenPort, status, out),
    }
}
