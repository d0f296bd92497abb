// Queues: the one that a message sent on a port enters, and the one on which a receive is made.
ghost use Rattle.std.specs.Prelude.{◌<◌, ◌≡◌, Err, IfOk, None, Ok, Some, false, true};
ghost use Rattle.lpc_model.specs.Found as found;
ghost use Rattle.lpc_model.specs.Found.{datagrams};
ghost use Rattle.lpc_model.specs.Request as request;
ghost use Rattle.lpc_steps.specs.Clauses.{queue_at, receive_at, route_at};
ghost use Rattle.lpc_rows.specs.Clauses.{Answers, birth_at, port_at, row_at, some_birth};
ghost use Rattle.lpc_rows.specs.Names.{some_stands, stands};

use lpc_base::limits::DATAGRAM_LIMIT;
use lpc_base::status::{PORT_DISCONNECTED, QUOTA_EXCEEDED};
use lpc_base::{PortKind, Status};
use lpc_slots::Key;
use lpc_world::World;

/// The port, where there is one and it is open.
pub(crate) fn if_open(world: &World, port: Option<Key>) -> Option<Key>
    requires { some_stands world.now.births.ports port ≡ true }
    ensures name { some_birth world.now result
        ≡ found.if_open world.now.rows (some_birth world.now port) }
    ensures stands { some_stands world.now.births.ports result ≡ true }
{
    match port {
        Some(key) => { if world.is_open(key) { Some(key) } else { None } }
        None => None,
    }
}

/// The queue that a message sent on a port enters: none where the port isn't open, or has no way.
pub fn route(world: &World, port: Key) -> Option<Key>
    requires { stands world.now.births.ports port ≡ true }
    ensures row { row_at world.now port ≡ Some (port_at world.now port) }
    ensures queue { some_birth world.now result ≡ route_at world.now port }
    ensures stands { some_stands world.now.births.ports result ≡ true }
{
    let row = world.port(port);
    if !world.is_open(port) {
        return None;
    }
    match row.kind {
        PortKind::Unnamed => Some(port),
        PortKind::Connection => Some(port),
        PortKind::Client => match row.pair {
            Some(_) => if_open(world, row.connection),
            None => None,
        },
        PortKind::Server => if_open(world, row.pair),
    }
}

/// The queue of a port's own: itself, or a server port's connection port; none where that port isn't open.
fn queue_of(world: &World, port: Key) -> Option<Key>
    requires { stands world.now.births.ports port ≡ true }
    ensures queue { some_birth world.now result ≡ queue_at world.now port }
    ensures stands { some_stands world.now.births.ports result ≡ true }
{
    let row = world.port(port);
    match row.kind {
        PortKind::Server => if_open(world, row.connection),
        _ => if_open(world, Some(port)),
    }
}

/// Nothing will ever come on the port: a client port whose pair is cut, and whose queue is empty.
fn is_spent(world: &World, port: Key, queue: Key) -> bool
    requires port { stands world.now.births.ports port ≡ true }
    requires queue { stands world.now.births.ports queue ≡ true }
    ensures { result ≡ request.is_spent world.now.rows (port_at world.now port)
        (birth_at world.now queue) }
{
    let row = world.port(port);
    match row.kind {
        PortKind::Client => match row.pair {
            Some(_) => false,
            None => world.is_empty(queue),
        },
        _ => false,
    }
}

/// The queue on which a receive on a port is made: PORT_DISCONNECTED where it isn't open, or where nothing will ever
/// come.
pub fn receive_test(world: &World, port: Key) -> Result<Key, Status>
    requires { stands world.now.births.ports port ≡ true }
    ensures queue { Answers result (birth_at world.now) (receive_at world.now port) }
    ensures stands { IfOk result (λ q. stands world.now.births.ports q ≡ true) }
{
    let Some(queue) = queue_of(world, port) else {
        return Err(PORT_DISCONNECTED);
    };
    if is_spent(world, port, queue) {
        return Err(PORT_DISCONNECTED);
    }
    Ok(queue)
}

/// The context that a message sent on a port keeps: that of the pair for a client port, else 0.
pub fn context(world: &World, port: Key) -> u32
    requires { stands world.now.births.ports port ≡ true }
    ensures { result ≡ found.context_of (port_at world.now port) }
{
    let row = world.port(port);
    match row.kind {
        PortKind::Client => match row.pair {
            Some(_) => row.context,
            None => 0,
        },
        _ => 0,
    }
}

/// A further datagram may be sent on the port; QUOTA_EXCEEDED where 32 that were sent on it stand in queues.
pub fn datagram_test(world: &World, port: Key) -> Result<(), Status>
    requires { stands world.now.births.ports port ≡ true }
    ensures { result ≡ request.datagram_test world.now.rows (port_at world.now port) }
{
    if world.datagrams(port) >= DATAGRAM_LIMIT {
        return Err(QUOTA_EXCEEDED);
    }
    Ok(())
}
