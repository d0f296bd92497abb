// The call that completes a connection.
ghost use Rattle.std.specs.Prelude.{◌≡◌, ◌≤◌, ◌<◌, Ok, Err, IfOk, MatchResult, true, false, ◌+◌};
ghost use Rattle.lpc_base.specs.Rows.{has};
ghost use Rattle.lpc_base.specs.declared.limits.TheConstants.{LINES_LIMIT};
ghost use Rattle.lpc_rows.specs.Clauses.{IsOwnWait};
ghost use Rattle.lpc_connect.specs.Calls.{completing, shown_connection};
ghost use Rattle.lpc_model.specs.Connect as connect;
ghost use Rattle.lpc_model.specs.Found.{is_accepted, waits_as};
ghost use Rattle.lpc_model.specs.Lines.{complete_connect_port};
ghost use Rattle.lpc_rows.specs.Called.{Served};
ghost use Rattle.lpc_rows.specs.Does.{Took};
ghost use Rattle.lpc_rows.specs.Kept.{CanMake, has_queued};
ghost use Rattle.lpc_rows.specs.Names.{stands};
ghost use Rattle.lpc_rows.specs.Ready.{HasRoom, caller, is_ready, waiter};
ghost use Rattle.lpc_rows.specs.Callers.{shown_caller};

use crate::create::PORT_ACCESS;
use lpc_base::Status;
use lpc_base::status::SUCCESS;
use lpc_model::{CallName, Entries, Entry, Fields, Outcome, completion_fields, refuse};
use lpc_procs::Caller;
use lpc_slots::Key;
use lpc_steps::{completion_test, port_at, waiting_call};
use lpc_world::{Object, World};

/// A connection that can be completed: its two ports, and the thread that waits in the connect.
#[derive(Clone, Copy)]
struct Connection {
    server: Key,
    client: Key,
    thread: u32,
}

/// The connection of the server port that a handle names.
fn complete_test(world: &World, tid: u32, handle: u32) -> Result<Connection, Status>
    requires { is_ready world.now.rows tid ≡ true }
    ensures test { let by = caller world.now.rows tid in
        let test = connect.complete_test world.now.rows by handle in
        MatchResult result (λ c. test ≡ Ok (shown_connection world.now c)) (λ s. test ≡ Err s) }
    ensures server { IfOk result (λ c. stands world.now.births.ports c.server ≡ true) }
    ensures client { IfOk result (λ c. stands world.now.births.ports c.client ≡ true) }
    ensures waits { IfOk result (λ c. has (waits_as c.thread) world.now.rows.waits ≡ true) }
    ensures thread { IfOk result (λ c. IsOwnWait world.now.rows c.thread) }
    ensures accepted { IfOk result (λ c. is_accepted (waiter world.now.rows c.thread) ≡ true) }
    ensures left { IfOk result (λ c. has_queued world.now.rows c.thread ≡ false) }
{
    let server = port_at(world, tid, handle)?;
    let found = completion_test(world, server)?;
    Ok(Connection {
        server,
        client: found.client,
        thread: found.thread,
    })
}

/// A connection is completed: the client gets its handle, and its thread is told, with what the accept told of views.
#[tactic(auto, unfolding(lpc_rows::specs::Ready::waiter))]
fn complete(world: &mut World, by: &Caller, connection: Connection, out: &mut Entries)
    requires spare { 2 ≤ out.old.spare }
    requires server { stands world.old.births.ports connection.server ≡ true }
    requires client { stands world.old.births.ports connection.client ≡ true }
    requires waits { has (waits_as connection.thread) world.old.rows.waits ≡ true }
    requires thread { IsOwnWait world.old.rows connection.thread }
    requires accepted { is_accepted (waiter world.old.rows connection.thread) ≡ true }
    requires left { has_queued world.old.rows connection.thread ≡ false }
    requires budget { CanMake world.old }
    ensures takes { let c = shown_connection world.old connection in
        let steps = completing world.old.rows (shown_caller by.now) c in
        Took steps world.old world.new out.old out.new }
    ensures calls { world.new.calls ≡ world.old.calls }
    ensures capacity { world.new.capacity ≡ world.old.capacity }
    ensures spare { out.old.spare ≤ out.new.spare + 2 }
{
    let call = waiting_call(world, connection.thread);
    let accepted = world.acceptance(connection.thread);
    out.push(Entry::Answer {
        tid: by.number,
        call: CallName::NtCompleteConnectPort,
        status: SUCCESS,
        fields: Fields::none(),
    });
    world.ports_set_completed(connection.server, true);
    world.ports_set_completed(connection.client, true);
    let value = world.connects_finish(
        connection.thread,
        Object::Port(connection.client),
        PORT_ACCESS,
    );
    out.push(Entry::Wakes {
        tid: connection.thread,
        call,
        status: SUCCESS,
        fields: completion_fields(
            value,
            accepted.reply,
            accepted.target,
            accepted.vbase,
            accepted.vsize,
        ),
    });
}

/// `NtCompleteConnectPort`: completes the connection of a server port. The client gets its handle, the least that is
/// free then, and its thread wakes.
///
/// Refusals in their order: INVALID_HANDLE where no handle of the caller's process has the value; OBJECT_TYPE_MISMATCH
/// where it names no port; ACCESS_DENIED where it lacks the right; INVALID_PORT_HANDLE where the port isn't a server
/// port; INVALID_PARAMETER where it was completed; PORT_DISCONNECTED where its pair is cut, or where no accepted
/// connect waits on its other end, which no line of a script meets. It takes no memory.
#[tactic(auto, unfolding(lpc_model::specs::Connect::nt_complete_connect_port))]
pub fn nt_complete_connect_port(
    world: &mut World,
    by: u32,
    handle: u32,
    out: &mut Entries,
) -> Outcome
    requires ready { is_ready world.old.rows by ≡ true }
    requires room { HasRoom world.old out.old }
    requires calls { world.old.calls < LINES_LIMIT }
    ensures served { let call = complete_connect_port handle in
        Served by call result world.old world.new out.old out.new }
    ensures spare { out.old.spare ≤ out.new.spare + 2 }
    ensures capacity { world.new.capacity ≡ world.old.capacity }
{
    let caller = world.caller(by);
    world.begin_call();
    match complete_test(world, by, handle) {
        Ok(connection) => {
            complete(world, &caller, connection, out);
            Outcome::Answered(SUCCESS)
        }
        Err(status) => refuse(caller.number, CallName::NtCompleteConnectPort, status, out),
    }
}
