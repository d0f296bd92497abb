// The client whose request a message names, and what it allows its server.
ghost use Rattle.std.specs.Prelude.{◌≡◌, IfSome, None, Some, true};
ghost use Rattle.lpc_base.specs.Rows.{has};
ghost use Rattle.lpc_imperson.specs.Calls.{headed, served_at};
ghost use Rattle.lpc_model.specs.Found.{is_live_thread, is_the, waits_as};
ghost use Rattle.lpc_model.specs.Impersonation as impersonation;
ghost use Rattle.lpc_rows.specs.Clauses.{FindsWait, birth_at, port_at};
ghost use Rattle.lpc_rows.specs.Names.{stands};
ghost use Rattle.lpc_rows.specs.Ready.{caller, waiter};

use lpc_message::Header;
use lpc_slots::Key;
use lpc_tokens::{Impersonation, Security, Tracking, pass_on};
use lpc_waits::WaitKind;
use lpc_world::World;

/// A port is the other end of a server port.
fn is_pair(world: &World, port: Key, other: Key) -> bool
    requires port { stands world.now.births.ports port ≡ true }
    requires other { stands world.now.births.ports other ≡ true }
    ensures { let server = port_at world.now port in
        result ≡ is_the (birth_at world.now other) server.pair }
{
    match world.port(port).pair {
        Some(pair) => world.is_same(other, pair),
        None => false,
    }
}

/// The wait of a header's thread is the one that the header names: for the reply to a request that was sent on the other
/// end of a server port, and received.
fn is_served(world: &World, port: Key, header: Header) -> bool
    requires port { stands world.now.births.ports port ≡ true }
    requires waits { has (waits_as header.client.thread) world.now.rows.waits ≡ true }
    ensures { result ≡ served_at world.now port header
        (waiter world.now.rows header.client.thread) }
{
    let wait = world.waiting(header.client.thread);
    if wait.process != header.client.process || wait.identifier != header.message_id {
        return false;
    }
    matches!(wait.kind, WaitKind::Request) && wait.received && is_pair(world, port, wait.port)
}

/// The thread that waits for the reply to the request which a header names: one that was sent on the other end of a
/// server port, and received. None exactly where there is none.
pub(crate) fn served_client(world: &World, port: Key, header: Header) -> Option<u32>
    requires { stands world.now.births.ports port ≡ true }
    ensures found { FindsWait world.now (served_at world.now port header) result }
    ensures waits { IfSome result (λ tid. has (waits_as tid) world.now.rows.waits ≡ true) }
{
    if !world.is_waiting(header.client.thread) {
        return None;
    }
    if is_served(world, port, header) {
        Some(header.client.thread)
    } else {
        None
    }
}

/// What a port's security allows its server of a live thread that sent a request on it: nothing but on a client port;
/// there the client's token, by static tracking the one that was kept at the connect, by dynamic tracking the one with
/// which the thread acts now, each as far as the quality of service goes.
fn allowed<'t>(world: &World<'t>, security: &Security<'t>, thread: u32) -> Option<Impersonation<'t>>
    requires { has (is_live_thread thread) world.now.rows.threads ≡ true }
    ensures { result ≡ impersonation.allowed world.now.rows security.now
        (caller world.now.rows thread) }
{
    match security {
        Security::Allows { quality, kept } => match quality.tracking {
            Tracking::Static => Some(pass_on(quality, kept)),
            Tracking::Dynamic => Some(pass_on(quality, &world.acting_token(thread))),
        },
        Security::Unsecured | Security::Guarded(_) => None,
    }
}

/// What the request with which a thread waits allows its server.
pub(crate) fn allowed_by<'t>(world: &World<'t>, thread: u32) -> Option<Impersonation<'t>>
    requires { has (waits_as thread) world.now.rows.waits ≡ true }
    ensures { result ≡ impersonation.allowed_by world.now.rows (waiter world.now.rows thread) }
{
    let wait = world.waiting(thread);
    // A thread that waits lives.
    if let None = world.live_thread(thread) {
        return None;
    }
    let port = world.port(wait.port);
    allowed(world, &port.security, thread)
}
