// What the services of connections look up: the connect that an answer names, and the connection to be completed.
ghost use Rattle.std.specs.Prelude.{◌≡◌, Err, IfOk, IfSome, None, Ok, Some, false, true};
ghost use Rattle.lpc_base.specs.Rows.{has};
ghost use Rattle.lpc_model.specs.Connect.{completion_test};
ghost use Rattle.lpc_model.specs.Found.{is_accepted, is_connection_port, is_offered, is_table, waits_as};
ghost use Rattle.lpc_model.specs.declared.message.Message.{Message};
ghost use Rattle.lpc_steps.specs.Clauses.{FindsConnect, completion_at};
ghost use Rattle.lpc_steps.specs.Connecting.{is_answered};
ghost use Rattle.lpc_rows.specs.Clauses.{Answers, IsOwnWait, port_at};
ghost use Rattle.lpc_rows.specs.Kept.{has_queued, is_pending_in};
ghost use Rattle.lpc_rows.specs.Names.{stands};
ghost use Rattle.lpc_rows.specs.Ready.{caller, is_ready, waiter};

use lpc_base::status::{INVALID_PARAMETER, INVALID_PORT_HANDLE, PORT_DISCONNECTED};
use lpc_base::{PortKind, Status};
use lpc_message::ClientId;
use lpc_slots::Key;
use lpc_world::World;

/// A connection that can be completed.
#[derive(Clone, Copy)]
pub struct Completable {
    /// The client port.
    pub client: Key,
    /// The thread whose accepted connect waits on it.
    pub thread: u32,
}

/// The port is a connection port.
pub fn is_connection(world: &World, port: Key) -> bool
    requires { stands world.now.births.ports port ≡ true }
    ensures { result ≡ is_connection_port (port_at world.now port) }
{
    matches!(world.port(port).kind, PortKind::Connection)
}

/// The thread whose connect a caller's answer names by its client and its identifier: the connect was received, isn't
/// accepted, and the caller's process has a handle to its connection port. None exactly where there is none.
pub fn answered_connect(world: &World, by: u32, client: ClientId, identifier: u32) -> Option<u32>
    requires { is_ready world.now.rows by ≡ true }
    ensures found { (m : Message) → m.header.client ≡ client →
        m.header.message_id ≡ identifier → FindsConnect world.now by m result }
    ensures waits { IfSome result (λ tid. has (waits_as tid) world.now.rows.waits ≡ true) }
    ensures thread { IfSome result (λ tid. IsOwnWait world.now.rows tid) }
    ensures idle { IfSome result (λ tid. is_pending_in world.now.rows tid ≡ false) }
    ensures left { IfSome result (λ tid. has_queued world.now.rows tid ≡ false) }
    ensures offered { IfSome result (λ tid. is_offered (waiter world.now.rows tid) ≡ true) }
{
    let process = world.caller(by).process;
    if !world.is_waiting(client.thread) {
        return None;
    }
    if is_answered(world, process, client, identifier) {
        Some(client.thread)
    } else {
        None
    }
}

/// The client and the identifier name the wait of the client's thread, as an answer of the process names a connect.
fn is_answered(world: &World, pid: u32, client: ClientId, identifier: u32) -> bool
    requires waits { has (waits_as client.thread) world.now.rows.waits ≡ true }
    requires table { has (is_table pid) world.now.rows.handles ≡ true }
    ensures { result ≡ is_answered world.now.rows pid client identifier
        (waiter world.now.rows client.thread) }
{
    let wait = world.waiting(client.thread);
    if wait.process != client.process || wait.identifier != identifier {
        return false;
    }
    world.is_offered(client.thread) && wait.received && world.reaches(pid, wait.queue)
}

/// The connection of a server port, where it can be completed: INVALID_PORT_HANDLE for another kind of port,
/// INVALID_PARAMETER where it was completed, PORT_DISCONNECTED where its pair is cut or no accepted connect waits
/// there.
pub fn completion_test(world: &World, port: Key) -> Result<Completable, Status>
    requires { stands world.now.births.ports port ≡ true }
    ensures test { Answers result (completion_at world.now port)
        (completion_test world.now.rows (port_at world.now port)) }
    ensures stands { IfOk result (λ c. stands world.now.births.ports c.client ≡ true) }
    ensures waits { IfOk result (λ c. has (waits_as c.thread) world.now.rows.waits ≡ true) }
    ensures thread { IfOk result (λ c. IsOwnWait world.now.rows c.thread) }
    ensures accepted { IfOk result
        (λ c. is_accepted (waiter world.now.rows c.thread) ≡ true) }
    ensures idle { IfOk result (λ c. is_pending_in world.now.rows c.thread ≡ false) }
    ensures left { IfOk result (λ c. has_queued world.now.rows c.thread ≡ false) }
{
    let row = world.port(port);
    if !matches!(row.kind, PortKind::Server) {
        return Err(INVALID_PORT_HANDLE);
    }
    if row.completed {
        return Err(INVALID_PARAMETER);
    }
    let Some(client) = row.pair else {
        return Err(PORT_DISCONNECTED);
    };
    match world.accepted_on(client) {
        Some(thread) => Ok(Completable { client, thread }),
        None => Err(PORT_DISCONNECTED),
    }
}
