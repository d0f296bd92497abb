// The walks over the waits when a port is closed: those end that end for one reason, in the order of waiting.
ghost use Rattle.std.specs.Prelude.{◌+◌, ◌≡◌, ◌≤◌, IfSome, length, true};
ghost use Rattle.lpc_base.specs.Rows.{has};
ghost use Rattle.lpc_model.specs.Close as close;
ghost use Rattle.lpc_model.specs.Found.{is_connect, waits_as};
ghost use Rattle.lpc_steps.specs.Closing.{IsOfItsKind, IsUnqueued, client_across_at, end_all, ending as ending_of, ends_at};
ghost use Rattle.lpc_rows.specs.Clauses.{FindsWait, birth_at, pair_at, some_birth};
ghost use Rattle.lpc_rows.specs.Closing.{HasMutualPairs};
ghost use Rattle.lpc_rows.specs.Does.{Took};
ghost use Rattle.lpc_rows.specs.Lawful.{are_single};
ghost use Rattle.lpc_rows.specs.Names.{some_stands, stands};
ghost use Rattle.lpc_rows.specs.Ready.{waiter};

use crate::waiting::{end_connect, wake};
use lpc_base::status::{LPC_REPLY_LOST, PORT_DISCONNECTED};
use lpc_base::{PortKind, Status};
use lpc_model::{Entries, Fields};
use lpc_slots::Key;
use lpc_world::World;

/// Why a wait ends when a port is closed.
#[derive(Clone, Copy)]
pub enum Ending {
    /// It is a receive or a listen that was made on the port, or waits on the queue that the port is.
    Receives,
    /// It is a request that was made on the port.
    Requests,
    /// It is a request in the port's queue, which isn't received.
    QueuedRequests,
    /// It is a connect to the port that isn't accepted.
    Offers,
    /// It is a request that was made on the port's other end.
    RequestsAcross,
    /// It is a receive that was made on the port's other end, which is a client port.
    ReceivesAcross,
    /// It is an accepted connect, whose client port is the port or its other end.
    AcceptedAcross,
}

/// The thread whose wait is the next to end for this reason when the port is closed: of those that end the one that
/// has waited longest.
fn next_to_end(world: &World, port: Key, ending: Ending) -> Option<u32>
    requires port { stands world.now.births.ports port ≡ true }
    requires pairs { HasMutualPairs world.now.rows }
    ensures found { FindsWait world.now (ends_at world.now port ending) result }
    ensures waits { IfSome result (λ tid. has (waits_as tid) world.now.rows.waits ≡ true) }
    ensures left { IfSome result (λ tid. IsUnqueued world.now.rows ending tid) }
    ensures connect { IfSome result (λ tid. IsOfItsKind world.now.rows ending tid) }
    ensures single { are_single world.now.rows.waits ≡ true }
{
    if world.waits().count() == 0 {
        return None;
    }
    first_to_end(world, port, ending)
}

/// Of the waits that end for this reason when the port is closed, the thread whose wait has waited longest.
fn first_to_end(world: &World, port: Key, ending: Ending) -> Option<u32>
    requires port { stands world.now.births.ports port ≡ true }
    requires pairs { HasMutualPairs world.now.rows }
    ensures found { FindsWait world.now (ends_at world.now port ending) result }
    ensures waits { IfSome result (λ tid. has (waits_as tid) world.now.rows.waits ≡ true) }
{
    let waits = world.waits();
    match ending {
        Ending::Receives => waits.receiver_at(port),
        Ending::Requests => waits.request_on(port),
        Ending::QueuedRequests => waits.unreceived_request_in(port),
        Ending::Offers => waits.offered_to(port),
        Ending::RequestsAcross => waits.request_on(across(world, port)?),
        Ending::ReceivesAcross => waits.receive_on(client_across(world, port)?),
        Ending::AcceptedAcross => waits.accepted_at(port, across(world, port)),
    }
}

/// A port's other end.
pub(crate) fn across(world: &World, port: Key) -> Option<Key>
    requires { stands world.now.births.ports port ≡ true }
    ensures pair { some_birth world.now result ≡ pair_at world.now port }
    ensures stands { some_stands world.now.births.ports result ≡ true }
{
    world.port(port).pair
}

/// A port's other end, where that is a client port.
fn client_across(world: &World, port: Key) -> Option<Key>
    requires { stands world.now.births.ports port ≡ true }
    ensures client { some_birth world.now result ≡ client_across_at world.now port }
    ensures stands { some_stands world.now.births.ports result ≡ true }
{
    let other = across(world, port)?;
    match world.port(other).kind {
        PortKind::Client => Some(other),
        _ => None,
    }
}

/// A thread's wait ends for this reason.
fn end_wait(world: &mut World, tid: u32, ending: Ending, out: &mut Entries)
    requires spare { 1 ≤ out.old.spare }
    requires waits { has (waits_as tid) world.old.rows.waits ≡ true }
    requires left { IsUnqueued world.old.rows ending tid }
    requires connect { IsOfItsKind world.old.rows ending tid }
    ensures took { let x = waiter world.old.rows tid in
        Took (ending_of ending x) world.old world.new out.old out.new }
    ensures births { world.new.births ≡ world.old.births }
    ensures calls { world.new.calls ≡ world.old.calls }
    ensures capacity { world.new.capacity ≡ world.old.capacity }
    ensures made { world.new.made ≤ world.old.made }
    ensures spare { out.new.spare + 1 ≡ out.old.spare }
{
    match ending {
        Ending::Receives | Ending::ReceivesAcross => {
            wake(world, tid, PORT_DISCONNECTED, Fields::none(), out);
        }
        Ending::Requests => end_request(world, tid, PORT_DISCONNECTED, out),
        Ending::QueuedRequests | Ending::RequestsAcross => {
            end_request(world, tid, LPC_REPLY_LOST, out);
        }
        Ending::Offers => end_offered(world, tid, out),
        Ending::AcceptedAcross => end_connect(world, tid, &[], out),
    }
}

/// A thread's request ends, and its message leaves its queue, where it still stands there.
fn end_request(world: &mut World, tid: u32, status: Status, out: &mut Entries)
    requires spare { 1 ≤ out.old.spare }
    requires waits { has (waits_as tid) world.old.rows.waits ≡ true }
    ensures took { let x = waiter world.old.rows tid in
        Took (close.end_request status x) world.old world.new out.old out.new }
    ensures births { world.new.births ≡ world.old.births }
    ensures calls { world.new.calls ≡ world.old.calls }
    ensures capacity { world.new.capacity ≡ world.old.capacity }
    ensures made { world.new.made ≤ world.old.made }
    ensures spare { out.new.spare + 1 ≡ out.old.spare }
{
    world.messages_withdraw(tid);
    wake(world, tid, status, Fields::none(), out);
}

/// A thread's connect that isn't accepted ends, and with it go the views that its client port owns; its connection
/// request leaves its queue, where it still stands there.
fn end_offered(world: &mut World, tid: u32, out: &mut Entries)
    requires spare { 1 ≤ out.old.spare }
    requires waits { has (waits_as tid) world.old.rows.waits ≡ true }
    requires connect { is_connect (waiter world.old.rows tid) ≡ true }
    ensures took { let x = waiter world.old.rows tid in
        Took (close.end_offered x) world.old world.new out.old out.new }
    ensures births { world.new.births ≡ world.old.births }
    ensures calls { world.new.calls ≡ world.old.calls }
    ensures capacity { world.new.capacity ≡ world.old.capacity }
    ensures made { world.new.made ≤ world.old.made }
    ensures spare { out.new.spare + 1 ≡ out.old.spare }
{
    world.messages_withdraw(tid);
    end_connect(world, tid, &[], out);
}

/// All waits end that end for this reason when the port is closed, in the order of waiting.
pub fn end_all(world: &mut World, port: Key, ending: Ending, out: &mut Entries)
    requires port { stands world.old.births.ports port ≡ true }
    requires pairs { HasMutualPairs world.old.rows }
    requires spare { length world.old.rows.waits ≤ out.old.spare }
    ensures took { let steps = end_all ending (birth_at world.old port) world.old.rows in
        Took steps world.old world.new out.old out.new }
    ensures ports { world.new.rows.ports ≡ world.old.rows.ports }
    ensures handles { world.new.rows.handles ≡ world.old.rows.handles }
    ensures births { world.new.births ≡ world.old.births }
    ensures calls { world.new.calls ≡ world.old.calls }
    ensures capacity { world.new.capacity ≡ world.old.capacity }
    ensures made { world.new.made ≤ world.old.made }
    ensures spare { out.new.spare + length world.old.rows.waits
        ≡ out.old.spare + length world.new.rows.waits }
{
    while let Some(tid) = next_to_end(world, port, ending) {
        end_wait(world, tid, ending, out);
    }
}
