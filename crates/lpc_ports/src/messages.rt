//! Messages as they stand in queues.

ghost use Rattle.std.specs.Prelude.{◌≡◌, ◌<◌, ◌==◌, ◌&&◌, ◌||◌, slice_index};
ghost use Rattle.lpc_base.specs.declared.limits.TheConstants.{MESSAGE_LIMIT};
ghost use Rattle.lpc_message.specs.Layout.{half_at};
ghost use Rattle.lpc_ports.specs.Table.{asks, client_thread, is_of_type, tells_event};

use arrayvec::ArrayVec;
use lpc_base::held;
use lpc_message::kind::{
    CONNECTION_REQUEST, DATAGRAM, DEBUG_EVENT, EXCEPTION, PORT_CLOSED, REQUEST,
};
use lpc_slots::{Key, Linked, Links};

// Where a message has its type: the low byte, and the high one behind it.
const KIND_OFFSET: usize = 4;

// Where a message has the thread of its client, in four bytes with the low one first.
const CLIENT_THREAD_OFFSET: usize = 12;

/// A message.
#[derive(Drop)]
pub struct Message {
    /// Its bytes, with its header.
    pub bytes: ArrayVec<u8, 256>,
    /// The port on which it was sent.
    pub sender: Key,
    /// The context that a receive shows with it.
    pub context: u32,
}

impl Message {
    /// A copy.
    pub(crate) fn copy(&self) -> Message
        ensures { result ≡ self.now }
    {
        Message {
            bytes: held(&self.bytes),
            sender: self.sender,
            context: self.context,
        }
    }

    /// Its type is that of a datagram.
    pub(crate) fn is_datagram(&self) -> bool
        ensures { result ≡ is_of_type DATAGRAM self.now }
    {
        self.kind() == DATAGRAM
    }

    /// Its type is that of a connection request.
    pub(crate) fn is_connect(&self) -> bool
        ensures { result ≡ is_of_type CONNECTION_REQUEST self.now }
    {
        self.kind() == CONNECTION_REQUEST
    }

    // It tells of an exception: its type is that of an exception or of a debug event.
    fn tells_event(&self) -> bool
        ensures { result ≡ tells_event self.now }
    {
        self.kind() == EXCEPTION || self.kind() == DEBUG_EVENT
    }

    /// It asks for an answer: its type is that of a request, a connection request or an event.
    pub(crate) fn asks(&self) -> bool
        ensures { result ≡ asks self.now }
    {
        self.kind() == REQUEST || self.is_connect() || self.tells_event()
    }

    /// It tells of the closing of the port on which it was sent: its type is that of a closed port.
    pub(crate) fn tells_closing(&self) -> bool
        ensures { result ≡ is_of_type PORT_CLOSED self.now }
    {
        self.kind() == PORT_CLOSED
    }

    /// It asks for an answer, and names this thread as its client.
    pub(crate) fn is_own_of(&self, thread: u32) -> bool
        ensures { result ≡ (asks self.now && (client_thread self.now == thread)) }
    {
        self.asks() && self.client_thread() == thread
    }

    // The thread of its client. What isn't there of the four bytes counts as 0.
    fn client_thread(&self) -> u32
        ensures { result ≡ client_thread self.now }
    {
        let low = half_at(&self.bytes, CLIENT_THREAD_OFFSET);
        let high = half_at(&self.bytes, CLIENT_THREAD_OFFSET + 2);
        u32::from(low) + 65_536 * u32::from(high)
    }

    // Its type. What isn't there of the two bytes counts as 0.
    fn kind(&self) -> u16
        ensures { result ≡ half_at self.now.bytes.items 4 }
    {
        half_at(&self.bytes, KIND_OFFSET)
    }
}

/// A row of the table: a message, the port in whose queue it stands, and its neighbours in two chains.
#[derive(Drop)]
pub struct Block {
    /// The port in whose queue it stands.
    pub queue: Key,
    /// The message.
    pub message: Message,
    /// Its neighbours in the queue.
    pub in_queue: Links,
    /// Its neighbours among the messages that were sent on one port.
    pub of_sender: Links,
}

impl Linked<0> for Block {
    ghost use Rattle.lpc_ports.specs.declared.messages.Block.{Block};
    ghost use Rattle.std.specs.Prelude.{refl};

    ghost links_of = { λ block. block.in_queue };

    ghost with_links = { λ block links. record block { in_queue = links } };

    fn links(&self) -> Links {
        self.in_queue
    }

    fn set_links(&mut self, links: Links) {
        self.in_queue = links;
    }

    ghost gives_back = { λ block links. refl };

    ghost overwrites = { λ block one two. refl };
}

impl Linked<1> for Block {
    ghost use Rattle.lpc_ports.specs.declared.messages.Block.{Block};
    ghost use Rattle.std.specs.Prelude.{refl};

    ghost links_of = { λ block. block.of_sender };

    ghost with_links = { λ block links. record block { of_sender = links } };

    fn links(&self) -> Links {
        self.of_sender
    }

    fn set_links(&mut self, links: Links) {
        self.of_sender = links;
    }

    ghost gives_back = { λ block links. refl };

    ghost overwrites = { λ block one two. refl };
}

// The number in the two bytes from a place on, the low one first. What isn't there of them counts as 0.
fn half_at(bytes: &[u8], place: usize) -> u16
    requires { place < MESSAGE_LIMIT }
    ensures { result ≡ half_at bytes.now place }
{
    let low = byte_at(bytes, place);
    let high = byte_at(bytes, place + 1);
    u16::from(low) + 256 * u16::from(high)
}

// The byte at a place, and 0 from the end on.
fn byte_at(bytes: &[u8], place: usize) -> u8
    ensures { result ≡ slice_index bytes.now place }
{
    if place < bytes.len() { bytes[place] } else { 0 }
}
