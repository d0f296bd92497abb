//! The rows of ports, and how messages come on and off their chains.

ghost use Rattle.std.specs.Prelude.{IsSome};
ghost use Rattle.lpc_slots.specs.Table.{IsYoung, at};
ghost use Rattle.lpc_ports.specs.Layout.{ChangesLinks, DatagramsCounted, Enters, EntersDatagrams, HasDatagramPlaced, HasFewDatagrams, HasFewSent, HasPlaced, Keeps, Leaves, LeavesDatagrams, QueuesStand, SendersStand, SentCounted, SentStand};
ghost use Rattle.lpc_ports.specs.Lent.{queue_of, sender_of};

use crate::totals::{minus, plus};
use crate::{Block, Port};
use lpc_slots::{Chain, Key, Slots};

/// A row of the table of ports: the port, its queue, and the messages that stand in queues and were sent on it.
#[derive(Drop)]
pub(crate) struct PortRow<'t> {
    /// The port.
    pub port: Port<'t>,
    /// The messages in its queue.
    pub queued: Chain<0>,
    /// The messages that were sent on it.
    pub sent: Chain<1>,
    /// How many were sent on it.
    pub sent_count: usize,
    /// How many of these are datagrams.
    pub datagrams: usize,
    /// How many ports have this one as their other end. It is so as long as the numbers are whole.
    pub paired: usize,
    /// How many ports have this one as their connection port. It is so as long as the numbers are whole.
    pub connected: usize,
}

/// A message goes to the end of the chain of its queue, where the port has a row.
pub(crate) fn push_queued(
    ports: &mut Slots<PortRow>,
    blocks: &mut Slots<Block>,
    queue: Key,
    key: Key,
)
    requires present { IsSome (at blocks.old key) }
    ensures queues { Enters QueuesStand
        ports.old ports.new blocks.old blocks.new queue_of queue key }
    ensures senders { Keeps SendersStand ports.old ports.new blocks.old blocks.new }
    ensures counts { Keeps SentCounted ports.old ports.new blocks.old blocks.new }
    ensures datagrams { Keeps DatagramsCounted ports.old ports.new blocks.old blocks.new }
    ensures links { ChangesLinks ports.old ports.new blocks.old blocks.new }
{
    if let Some(row) = ports.get_mut(queue) {
        row.queued.push_back(blocks, key);
    }
}

/// A message goes to the end of the chain of its sender, where that port has a row.
pub(crate) fn push_sent(
    ports: &mut Slots<PortRow>,
    blocks: &mut Slots<Block>,
    sender: Key,
    key: Key,
    datagram: bool,
)
    requires present { IsSome (at blocks.old key) }
    requires few { HasFewSent ports.old sender }
    requires few_datagrams { HasFewDatagrams ports.old sender }
    ensures queues { Keeps QueuesStand ports.old ports.new blocks.old blocks.new }
    ensures senders { Enters SendersStand
        ports.old ports.new blocks.old blocks.new sender_of sender key }
    ensures counts { Enters SentCounted
        ports.old ports.new blocks.old blocks.new sender_of sender key }
    ensures datagrams { EntersDatagrams ports.old ports.new sender key datagram }
    ensures young { IsYoung ports.old sender }
    ensures links { ChangesLinks ports.old ports.new blocks.old blocks.new }
{
    if let Some(row) = ports.get_mut(sender) {
        row.sent_count += 1;
        row.datagrams = plus(row.datagrams, datagram);
        row.sent.push_back(blocks, key);
    }
}

/// A message leaves the chain of its queue, where the port has a row.
pub(crate) fn unlink_queued(
    ports: &mut Slots<PortRow>,
    blocks: &mut Slots<Block>,
    queue: Key,
    key: Key,
)
    requires placed { HasPlaced QueuesStand ports.old blocks.old queue_of queue key }
    ensures queues { Leaves QueuesStand
        ports.old ports.new blocks.old blocks.new queue_of queue key }
    ensures senders { Keeps SendersStand ports.old ports.new blocks.old blocks.new }
    ensures counts { Keeps SentCounted ports.old ports.new blocks.old blocks.new }
    ensures datagrams { Keeps DatagramsCounted ports.old ports.new blocks.old blocks.new }
    ensures links { ChangesLinks ports.old ports.new blocks.old blocks.new }
{
    if let Some(row) = ports.get_mut(queue) {
        row.queued.unlink(blocks, key);
    }
}

/// A message leaves the chain of its sender, where that port has a row.
pub(crate) fn unlink_sent(
    ports: &mut Slots<PortRow>,
    blocks: &mut Slots<Block>,
    sender: Key,
    key: Key,
    datagram: bool,
)
    requires placed { HasPlaced SentStand ports.old blocks.old sender_of sender key }
    requires counted { HasDatagramPlaced ports.old sender key datagram }
    ensures queues { Keeps QueuesStand ports.old ports.new blocks.old blocks.new }
    ensures senders { Leaves SendersStand
        ports.old ports.new blocks.old blocks.new sender_of sender key }
    ensures counts { Leaves SentCounted
        ports.old ports.new blocks.old blocks.new sender_of sender key }
    ensures datagrams { LeavesDatagrams ports.old ports.new sender key datagram }
    ensures links { ChangesLinks ports.old ports.new blocks.old blocks.new }
{
    if let Some(row) = ports.get_mut(sender) {
        row.sent_count -= 1;
        row.datagrams = minus(row.datagrams, datagram);
        row.sent.unlink(blocks, key);
    }
}
