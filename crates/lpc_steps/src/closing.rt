// What is told of a port that is closed.
ghost use Rattle.std.specs.Prelude.{◌≡◌, IfSome, Some, true};
ghost use Rattle.lpc_steps.specs.Closing.{closed_row_of, server_at, told_at};
ghost use Rattle.lpc_rows.specs.Clauses.{Finds, port_at, row_at, some_birth};
ghost use Rattle.lpc_rows.specs.Names.{some_stands, stands};

use crate::queues::if_open;
use lpc_base::{Birth, PortKind};
use lpc_message::ClientId;
use lpc_slots::Key;
use lpc_world::World;

/// What is told of a port that is closed: to which queue, and what of the connect that made it.
#[derive(Clone, Copy)]
pub struct Closed {
    /// The connection port, whose queue the message enters.
    pub queue: Key,
    /// What the server gave the connection when it accepted it.
    pub context: u32,
    /// The process and the thread that connected.
    pub client: ClientId,
    /// The identifier of its connection request.
    pub message_id: u32,
    /// The name of the closed port.
    pub birth: Birth,
}

/// What is told of a port that is closed: None where it isn't a completed client port whose connection port is open.
pub fn closing_post(world: &World, port: Key) -> Option<Closed>
    requires { stands world.now.births.ports port ≡ true }
    ensures row { row_at world.now port ≡ Some (port_at world.now port) }
    ensures told { Finds result (closed_row_of world.now port) (told_at world.now port) }
    ensures queue { IfSome result (λ c. stands world.now.births.ports c.queue ≡ true) }
{
    let row = world.port(port);
    let queue = server_of(world, port)?;
    let by = row.creator?;
    Some(Closed {
        queue,
        context: row.context,
        client: by.client,
        message_id: by.message_id,
        birth: row.birth,
    })
}

/// The connection port of a completed client port, where it is open.
fn server_of(world: &World, port: Key) -> Option<Key>
    requires { stands world.now.births.ports port ≡ true }
    ensures queue { some_birth world.now result ≡ server_at world.now port }
    ensures stands { some_stands world.now.births.ports result ≡ true }
{
    let row = world.port(port);
    match row.kind {
        PortKind::Client => if row.completed {
            if_open(world, row.connection)
        } else {
            None
        },
        _ => None,
    }
}
