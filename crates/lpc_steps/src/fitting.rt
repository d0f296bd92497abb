// The wait that a reply names, by its client and its identifier.
ghost use Rattle.std.specs.Prelude.{◌&&◌, ◌<◌, ◌≡◌, Err, IfOk, IfSome, None, Ok, OnOk, Some, false, true};
ghost use Rattle.lpc_base.specs.Rows.{has};
ghost use Rattle.lpc_model.specs.Found.{is_table, is_the, waits_as};
ghost use Rattle.lpc_model.specs.Tests as tests;
ghost use Rattle.lpc_steps.specs.Clauses.{IsUnderName, fits_at};
ghost use Rattle.lpc_steps.specs.Replies.{answered_by};
ghost use Rattle.lpc_waits.specs.Table.{is_asking};
ghost use Rattle.lpc_rows.specs.Clauses.{Answers, FindsWait, IsOwnWait, birth_at, pair_at};
ghost use Rattle.lpc_rows.specs.Kept.{has_queued, is_pending_in};
ghost use Rattle.lpc_rows.specs.Names.{stands};
ghost use Rattle.lpc_rows.specs.Ready.{waiter};

use lpc_base::Status;
use lpc_base::status::{INVALID_CID, REPLY_MESSAGE_MISMATCH};
use lpc_message::{ClientId, Header};
use lpc_slots::Key;
use lpc_waits::{Wait, WaitKind};
use lpc_world::World;

/// A live thread has the client's process and thread; INVALID_CID where none has.
pub fn client_test(world: &World, client: ClientId) -> Result<(), Status>
    ensures test { result ≡ tests.client_test world.now.rows client }
    ensures table { OnOk result (has (is_table client.process) world.now.rows.handles ≡ true) }
{
    match world.live_thread(client.thread) {
        Some(row) => {
            if row.process == client.process {
                Ok(())
            } else {
                Err(INVALID_CID)
            }
        }
        None => Err(INVALID_CID),
    }
}

/// The thread whose wait a message fits through a port, by the client and the identifier that it names: None exactly
/// where it fits none.
pub fn fitted(world: &World, port: Key, client: ClientId, identifier: u32) -> Option<u32>
    requires { stands world.now.births.ports port ≡ true }
    ensures found { FindsWait world.now (fits_at world.now port client identifier) result }
    ensures waits { IfSome result (λ tid. has (waits_as tid) world.now.rows.waits ≡ true) }
    ensures thread { IfSome result (λ tid. IsOwnWait world.now.rows tid) }
    ensures process { IfSome result (λ tid. let x = waiter world.now.rows tid in
        x.process ≡ client.process) }
    ensures idle { IfSome result (λ tid. is_pending_in world.now.rows tid ≡ false) }
    ensures left { IfSome result (λ tid. has_queued world.now.rows tid ≡ false) }
{
    if !world.is_waiting(client.thread) {
        return None;
    }
    if fits(world, port, client, identifier) {
        Some(client.thread)
    } else {
        None
    }
}

/// The thread whose wait a message with a header fits through a port: INVALID_CID where no live thread has the message's
/// process and thread, REPLY_MESSAGE_MISMATCH where the message fits no wait through the port.
pub fn reply_test(world: &World, port: Key, header: Header) -> Result<u32, Status>
    requires port { stands world.now.births.ports port ≡ true }
    requires name { IsUnderName world.now port }
    ensures found { Answers result (waiter world.now.rows) (answered_by world.now port header) }
    ensures waits { IfOk result (λ tid. has (waits_as tid) world.now.rows.waits ≡ true) }
    ensures table { IfOk result (λ tid. let x = waiter world.now.rows tid in
        has (is_table x.process) world.now.rows.handles ≡ true) }
    ensures left { IfOk result (λ tid. has_queued world.now.rows tid ≡ false) }
{
    client_test(world, header.client)?;
    match fitted(world, port, header.client, header.message_id) {
        Some(tid) => Ok(tid),
        None => Err(REPLY_MESSAGE_MISMATCH),
    }
}

/// The client and the identifier fit the wait of the client's thread through the port.
fn fits(world: &World, port: Key, client: ClientId, identifier: u32) -> bool
    requires port { stands world.now.births.ports port ≡ true }
    requires waits { has (waits_as client.thread) world.now.rows.waits ≡ true }
    ensures { result ≡ fits_at world.now port client identifier
        (waiter world.now.rows client.thread) }
{
    let wait = world.waiting(client.thread);
    if wait.process != client.process || wait.identifier != identifier {
        return false;
    }
    is_answerable(wait) && (world.is_same(wait.queue, port) || is_pair(world, wait.port, port))
}

/// The other port is the pair of the first.
fn is_pair(world: &World, port: Key, other: Key) -> bool
    requires port { stands world.now.births.ports port ≡ true }
    requires other { stands world.now.births.ports other ≡ true }
    ensures { result ≡ is_the (birth_at world.now other) (pair_at world.now port) }
{
    match world.port(port).pair {
        Some(pair) => world.is_same(other, pair),
        None => false,
    }
}

/// The wait is for the reply to a request or an event that was received.
fn is_answerable(wait: Wait) -> bool
    ensures { result ≡ (is_asking wait.kind && wait.received) }
{
    match wait.kind {
        WaitKind::Request | WaitKind::Event(_) => wait.received,
        WaitKind::Receive | WaitKind::Listen | WaitKind::Connect => false,
    }
}
