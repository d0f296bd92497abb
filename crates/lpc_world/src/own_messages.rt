// The messages of a thread's own that stand in queues.
ghost use Rattle.std.specs.Prelude.{◌≡◌, false};
ghost use Rattle.lpc_base.specs.Rows.{has};
ghost use Rattle.lpc_ports.specs.Table.{is_own_of, without_messages};
ghost use Rattle.lpc_world.specs.Unreceived.{HasOwnOnlyWaiting, has_unreceived, is_unreceived};

use lpc_ports::Ports;
use lpc_waits::{Wait, WaitKind, Waits};

// The wait is for an answer, and the message with which its thread waits wasn't received yet.
fn is_unreceived(wait: &Wait) -> bool
    ensures { result ≡ is_unreceived wait.now }
{
    match wait.kind {
        WaitKind::Request | WaitKind::Connect | WaitKind::Event(_) => !wait.received,
        WaitKind::Receive | WaitKind::Listen => false,
    }
}

// The thread waits so.
fn has_unreceived(waits: &Waits, tid: u32) -> bool
    ensures { result ≡ has_unreceived waits.now tid }
{
    match waits.of(tid) {
        Some(wait) => is_unreceived(wait),
        None => false,
    }
}

/// The thread's own messages leave their queues. Only a thread that waits for the answer to a message which wasn't
/// received has one there, so for any other thread no message is looked at. Answers whether there was one.
pub(crate) fn withdraw(ports: &mut Ports, waits: &Waits, tid: u32) -> bool
    requires own { HasOwnOnlyWaiting ports.old waits.now tid }
    ensures table { ports.new ≡ without_messages (is_own_of tid) ports.old }
    ensures went { result ≡ has (is_own_of tid) ports.old.messages }
{
    if !has_unreceived(waits, tid) {
        return false;
    }
    ports.withdraw(tid)
}
