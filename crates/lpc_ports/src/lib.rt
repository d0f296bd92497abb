//! Ports, and the messages that stand in their queues.
#![tactic(auto)]

ghost use Rattle.std.specs.Prelude.{◌≡◌, ◌||◌, ◌<◌, ◌-◌, ◌≤◌, ◌^◌, ◌+◌, length, OnOk, OnErr, Some, None, IsSome, option_copied, option_map, slice_get};
ghost use Rattle.lpc_base.specs.Room.{grown_room};
ghost use Rattle.lpc_base.specs.Rows.{count, first, has};
ghost use Rattle.lpc_base.specs.declared.limits.TheConstants.{MESSAGE_LIMIT};
ghost use Rattle.lpc_slots.specs.Chain.{IsDistinct};
ghost use Rattle.lpc_slots.specs.Table.{at_key, keys_of};
ghost use Rattle.lpc_ports.specs.Lent.{IsQueue, IsSent, messages_of, queued_of};
ghost use Rattle.lpc_ports.specs.Table.{LeavesOthers, LosesFirst, PullsFirst, QueuedMessage, first_connect_in, first_in, first_of, first_own_of, has_none_in, is_asking, is_client, is_closing, is_connect_in, is_connected_to, is_datagram_of, is_in, is_joined_to, is_message_at, is_named, is_own_of, is_paired_to, is_sent_on, is_the, message_at, new_port, nothing, pair_of, paired, parted, queue_at, queued, row_at, unpaired, with_changed, with_completed, with_creator, with_joined, with_port, with_room, with_security, with_sent, without_message, without_messages, without_port};

mod messages;
mod names;
mod rows;
mod totals;

pub use lpc_base::PortKind;
use lpc_base::{Birth, OutOfMemory, held};
use lpc_message::ClientId;
use lpc_slots::{Chain, Key, Links, Slots};
use lpc_tokens::Security;
pub use messages::{Block, Message};
use names::{gain_connected, gain_paired, is_unnamed, lose_connected, lose_paired};
use rows::{PortRow, push_queued, push_sent, unlink_queued, unlink_sent};
use std::alloc::Global;
use std::marker::Model;
use totals::Totals;

/// The connect that made a client port.
#[derive(Clone, Copy)]
pub struct Creator {
    /// The process and the thread that connected.
    pub client: ClientId,
    /// The identifier of its connection request.
    pub message_id: u32,
}

/// A row of the table: a port.
#[derive(Drop)]
pub struct Port<'t> {
    /// The name that it was made under.
    pub birth: Birth,
    /// Which of the four kinds it is.
    pub kind: PortKind,
    /// The other end of a connection; none where it was never made or is cut.
    pub pair: Option<Key>,
    /// The connection port of a client or server port.
    pub connection: Option<Key>,
    /// What the server gave the connection when it accepted it; 0 until the port is joined.
    pub context: u32,
    /// The connect that made a client port; none until it is set.
    pub creator: Option<Creator>,
    /// The connection is completed; false until it is set.
    pub completed: bool,
    /// Who may use the port, and what it allows; unsecured until it is set.
    pub security: Security<'t>,
}

// There is a key, and it is this one.
fn is_the(key: Key, other: Option<Key>) -> bool
    ensures { result ≡ is_the key other }
{
    match other {
        Some(other) => other == key,
        None => false,
    }
}

/// All ports, and the messages in their queues, each in the order of making.
///
/// A port has a row from `add` to `free`. Here it counts as open while it has one: whether a handle names it isn't
/// known to this table. No call but `reserve` takes memory. This project's own.
#[derive(Drop)]
pub struct Ports<'t> {
    ports: Slots<PortRow<'t>>,
    blocks: Slots<Block>,
    totals: Totals,
    // The rows tell how many ports name each port. That ends where a port is named that has no row, and where one goes
    // that others name: from then on the ports are searched.
    whole: bool,
}

impl<'t> Model for Ports<'t> {
    ghost use Rattle.lpc_ports.specs.Table.{PortTable};

    ghost Value = { PortTable };

    ghost use Rattle.lpc_ports.specs.Layout.{seen};
    ghost use Rattle.lpc_ports.specs.Kept.{IsKept};

    ghost view = { λ s. seen s.ports s.blocks };

    ghost invariant = { λ s. IsKept s.ports s.blocks s.totals s.whole };
}

impl<'t> Ports<'t> {
    /// No ports and no messages, and no spare room.
    pub fn new(alloc: Global) -> Ports<'t>
        ensures { result ≡ nothing }
    {
        Ports {
            ports: Slots::new(alloc),
            blocks: Slots::new(alloc),
            totals: Totals {
                asking: 0,
                closings: 0,
                clients: 0,
            },
            whole: true,
        }
    }

    /// Makes room for this many more ports and messages. Room that is there already counts. Where it has to grow, it
    /// makes room for as many as there are, if those are more.
    ///
    /// OutOfMemory comes only where the room isn't there, and it isn't there afterwards; the rows stay as they are, and
    /// the room never shrinks.
    pub fn reserve(&mut self, ports: usize, blocks: usize) -> Result<(), OutOfMemory>
        ensures ports { OnOk result (ports ≤ self.new.port_room) }
        ensures messages { OnOk result (blocks ≤ self.new.message_room) }
        ensures wanting { OnErr result
            (ports ≤ self.old.port_room → self.old.message_room < blocks) }
        ensures lacking { OnErr result
            (ports ≤ self.new.port_room → self.new.message_room < blocks) }
        ensures err_ports { OnErr result
            (self.new.port_room < ports → self.new.port_room ≡ self.old.port_room) }
        ensures err_messages { OnErr result (self.new.message_room ≡ self.old.message_room) }
        ensures kept { self.new ≡ with_room self.old self.new.port_room self.new.message_room }
        ensures port_room { self.old.port_room ≤ self.new.port_room }
        ensures message_room { self.old.message_room ≤ self.new.message_room }
        ensures most_ports { let rows = length self.old.ports in
            self.new.port_room ≤ grown_room self.old.port_room ports rows }
        ensures most_messages { let rows = length self.old.messages in
            self.new.message_room ≤ grown_room self.old.message_room blocks rows }
        ensures grown_ports { let rows = length self.old.ports in
            self.old.port_room < self.new.port_room → rows ≤ self.new.port_room }
        ensures grown_messages { let rows = length self.old.messages in
            self.old.message_room < self.new.message_room → rows ≤ self.new.message_room }
        ensures enough_ports { ports ≤ self.old.port_room →
            self.new.port_room ≡ self.old.port_room }
        ensures enough_messages { blocks ≤ self.old.message_room →
            self.new.message_room ≡ self.old.message_room }
    {
        self.ports.reserve(ports)?;
        self.blocks.reserve(blocks)
    }

    /// Adds a port behind the others, and answers its key. It has no pair and no creator yet, its context is 0, and it
    /// isn't completed. It is unsecured.
    ///
    /// There is spare room, and fewer than 2^64 - 1 ports were made.
    pub fn add(&mut self, kind: PortKind, birth: Birth, connection: Option<Key>) -> Key
        requires room { 0 < self.old.port_room }
        requires few { self.old.ports_made < 2 ^ 64 - 1 }
        ensures generation { result.generation ≡ self.old.ports_made + 1 }
        ensures vacant { first (at_key result) self.old.ports ≡ None }
        ensures table { self.new ≡ with_port self.old result (new_port kind birth connection) }
    {
        // No more ports stand than were made, so one more can be counted.
        let _ = self.ports.count();
        self.totals.add_port(kind);
        let counted = gain_connected(&mut self.ports, connection);
        self.whole = self.whole && counted;
        self.ports.insert_reserved(PortRow {
            port: Port {
                birth,
                kind,
                pair: None,
                connection,
                context: 0,
                creator: None,
                completed: false,
                security: Security::Unsecured,
            },
            queued: Chain::empty(),
            sent: Chain::empty(),
            sent_count: 0,
            datagrams: 0,
            paired: 0,
            connected: 0,
        })
    }

    /// The port of a key: None exactly where the port has no row.
    pub fn get(&self, port: Key) -> Option<&Port<'t>>
        ensures { option_copied result ≡ row_at self.now.ports port }
    {
        let row = self.ports.get(port)?;
        Some(&row.port)
    }

    /// How many ports there are.
    pub fn count(&self) -> usize
        ensures { result ≡ length self.now.ports }
    {
        self.ports.count()
    }

    /// The key of the port at a place. Places go from 0 in the order of making.
    pub fn key_at(&self, place: usize) -> Key
        requires { place < length self.now.ports }
        ensures { option_map (λ row. row.0) (slice_get self.now.ports place) ≡ Some result }
    {
        let (key, _) = self.ports.row(place);
        key
    }

    /// The port at a place, and its key. Places go from 0 in the order of making.
    pub fn port_at(&self, place: usize) -> (Key, &Port<'t>)
        requires { place < length self.now.ports }
        ensures { slice_get self.now.ports place ≡ Some (result.0, result.1.now) }
    {
        let (key, row) = self.ports.row(place);
        (key, &row.port)
    }

    /// How many messages stand in queues.
    pub fn messages(&self) -> usize
        ensures { result ≡ length self.now.messages }
    {
        self.blocks.count()
    }

    /// The message at a place, and the key of the port in whose queue it stands. Places go from 0 in the order of
    /// sending.
    pub fn message_at(&self, place: usize) -> (Key, &Message)
        requires { place < length self.now.messages }
        ensures { let row : QueuedMessage = record { queue = result.0; message = result.1.now } in
            option_map (λ kept. kept.1) (slice_get self.now.messages place) ≡ Some row }
    {
        let (_, block) = self.blocks.row(place);
        (block.queue, &block.message)
    }

    /// The birth of a port that has a row.
    pub fn birth(&self, port: Key) -> Birth
        requires { IsSome (row_at self.now.ports port) }
        ensures { option_map (λ row. row.birth) (row_at self.now.ports port) ≡ Some result }
    {
        self.row(port).birth
    }

    /// The kind of a port that has a row.
    pub fn kind(&self, port: Key) -> PortKind
        requires { IsSome (row_at self.now.ports port) }
        ensures { option_map (λ row. row.kind) (row_at self.now.ports port) ≡ Some result }
    {
        self.row(port).kind
    }

    /// The other end of the connection of a port that has a row: None where it was never made or is cut.
    pub fn pair(&self, port: Key) -> Option<Key>
        requires { IsSome (row_at self.now.ports port) }
        ensures { option_map (λ row. row.pair) (row_at self.now.ports port) ≡ Some result }
    {
        self.row(port).pair
    }

    /// The connection port of a client or server port that has a row: what the port was added with.
    pub fn connection(&self, port: Key) -> Option<Key>
        requires { IsSome (row_at self.now.ports port) }
        ensures { option_map (λ row. row.connection) (row_at self.now.ports port) ≡ Some result }
    {
        self.row(port).connection
    }

    /// The context of a port that has a row: 0 until it is joined.
    pub fn context(&self, port: Key) -> u32
        requires { IsSome (row_at self.now.ports port) }
        ensures { option_map (λ row. row.context) (row_at self.now.ports port) ≡ Some result }
    {
        self.row(port).context
    }

    /// The connect that made a client port that has a row: None until it is set.
    pub fn creator(&self, port: Key) -> Option<Creator>
        requires { IsSome (row_at self.now.ports port) }
        ensures { option_map (λ row. row.creator) (row_at self.now.ports port) ≡ Some result }
    {
        self.row(port).creator
    }

    /// The connection of a port that has a row is completed: false until it is set.
    pub fn completed(&self, port: Key) -> bool
        requires { IsSome (row_at self.now.ports port) }
        ensures { option_map (λ row. row.completed) (row_at self.now.ports port) ≡ Some result }
    {
        self.row(port).completed
    }

    /// Who may use a port that has a row, and what it allows: unsecured until it is set.
    pub fn security(&self, port: Key) -> &Security<'t>
        requires { IsSome (row_at self.now.ports port) }
        ensures { option_map (λ row. row.security) (row_at self.now.ports port) ≡ Some result.now }
    {
        &self.row(port).security
    }

    /// Gives a port the connect that made it, or takes that away. What has no row gets none.
    pub fn set_creator(&mut self, port: Key, creator: Option<Creator>)
        ensures { self.new ≡ with_changed self.old port (with_creator creator) }
    {
        if let Some(row) = self.ports.get_mut(port) {
            row.port.creator = creator;
        }
    }

    /// Says of a port whether its connection is completed. What has no row gets none.
    pub fn set_completed(&mut self, port: Key, completed: bool)
        ensures { self.new ≡ with_changed self.old port (with_completed completed) }
    {
        if let Some(row) = self.ports.get_mut(port) {
            row.port.completed = completed;
        }
    }

    /// Says of a port who may use it, and what it allows. What has no row gets none.
    pub fn set_security(&mut self, port: Key, security: Security<'t>)
        ensures { self.new ≡ with_changed self.old port (with_security security.entry) }
    {
        if let Some(row) = self.ports.get_mut(port) {
            row.port.security = security;
        }
    }

    /// Takes away the row that a port has. Its room is spare then.
    ///
    /// No message stands in its queue.
    pub fn free(&mut self, port: Key)
        requires open { IsSome (row_at self.old.ports port) }
        requires empty { has_none_in self.old.messages port }
        ensures table { self.new ≡ without_port self.old port }
        ensures fewer { length self.new.ports + 1 ≡ length self.old.ports }
    {
        match self.ports.remove(port) {
            Some(row) => {
                self.totals.remove_port(row.port.kind);
                lose_paired(&mut self.ports, row.port.pair);
                lose_connected(&mut self.ports, row.port.connection);
                let unnamed = is_unnamed(&row);
                self.whole = self.whole && unnamed;
            }
            None => unreachable!(),
        }
    }

    /// Puts a message at the end of a queue, and answers its key.
    ///
    /// Both ports have rows. The bytes are no more than a message holds, there is spare room, and fewer than 2^64 - 1
    /// messages were made.
    pub fn send(&mut self, queue: Key, sender: Key, context: u32, bytes: &[u8]) -> Key
        requires queue { IsSome (row_at self.old.ports queue) }
        requires sender { IsSome (row_at self.old.ports sender) }
        requires room { 0 < self.old.message_room }
        requires few { self.old.messages_made < 2 ^ 64 - 1 }
        requires bound { length bytes.now ≤ MESSAGE_LIMIT }
        ensures generation { result.generation ≡ self.old.messages_made + 1 }
        ensures vacant { first (at_key result) self.old.messages ≡ None }
        ensures table { self.new
            ≡ with_sent self.old result (queued queue sender context bytes.now) }
    {
        // No more messages stand than were made, so one more can be counted.
        let _ = self.blocks.count();
        let message = Message {
            bytes: held(bytes),
            sender,
            context,
        };
        self.totals.add_message(&message);
        let datagram = message.is_datagram();
        let key = self.blocks.insert_reserved(Block {
            queue,
            message,
            in_queue: Links {
                before: None,
                after: None,
            },
            of_sender: Links {
                before: None,
                after: None,
            },
        });
        push_queued(&mut self.ports, &mut self.blocks, queue, key);
        push_sent(&mut self.ports, &mut self.blocks, sender, key, datagram);
        key
    }

    /// The oldest message of a queue, or its oldest connection request alone: None exactly where there is none.
    pub fn first(&self, queue: Key, connects_only: bool) -> Option<Key>
        ensures { result ≡ first_of connects_only self.now.messages queue }
    {
        if connects_only {
            self.first_connect(queue)
        } else {
            self.first_message(queue)
        }
    }

    /// How many of the messages that stand in queues were sent on this port, which has a row, and are datagrams.
    pub fn sent_datagrams(&self, sender: Key) -> usize
        requires { IsSome (row_at self.now.ports sender) }
        ensures { result ≡ count (is_datagram_of sender) self.now.messages }
    {
        match self.ports.get(sender) {
            Some(row) => row.datagrams,
            None => unreachable!(),
        }
    }

    /// How many of the messages that stand in queues ask for an answer: requests, connection requests and events.
    pub fn asking(&self) -> usize
        ensures { result ≡ count is_asking self.now.messages }
    {
        self.totals.asking
    }

    /// How many ports have this one as their other end.
    pub fn paired_to(&self, port: Key) -> usize
        ensures { result ≡ count (is_paired_to port) self.now.ports }
    {
        if !self.whole {
            return self.search_paired(port);
        }
        match self.ports.get(port) {
            Some(row) => row.paired,
            None => 0,
        }
    }

    /// How many ports have this one as their connection port.
    pub fn connected_to(&self, port: Key) -> usize
        ensures { result ≡ count (is_connected_to port) self.now.ports }
    {
        if !self.whole {
            return self.search_connected(port);
        }
        match self.ports.get(port) {
            Some(row) => row.connected,
            None => 0,
        }
    }

    /// How many of the messages that stand in queues were sent on this port, which has a row: no more than were ever made.
    pub fn sent_on(&self, sender: Key) -> usize
        requires { IsSome (row_at self.now.ports sender) }
        ensures number { result ≡ count (is_sent_on sender) self.now.messages }
        ensures most { result ≤ self.now.messages_made }
    {
        let _ = self.blocks.count();
        match self.ports.get(sender) {
            Some(row) => row.sent_count,
            None => unreachable!(),
        }
    }

    /// How many of the messages that stand in queues tell of the closing of the port on which they were sent.
    pub fn closings(&self) -> usize
        ensures { result ≡ count is_closing self.now.messages }
    {
        self.totals.closings
    }

    /// How many ports are client ports.
    pub fn clients(&self) -> usize
        ensures { result ≡ count is_client self.now.ports }
    {
        self.totals.clients
    }

    /// A row names this port, which has one: a port has it as its other end or its connection port, or a message was sent on it or
    /// stands in its queue.
    pub fn is_named(&self, port: Key) -> bool
        requires { IsSome (row_at self.now.ports port) }
        ensures { result ≡ is_named self.now port }
    {
        self.is_joined(port) || self.has_message(port)
    }

    /// The blocks in which messages stand, and over them two chains of a port that has a row: the messages in its queue,
    /// and those that were sent on it.
    pub fn lent(&self, port: Key) -> (&Slots<Block>, &Chain<0>, &Chain<1>)
        requires { IsSome (row_at self.now.ports port) }
        ensures blocks { messages_of result.0.now ≡ self.now.messages }
        ensures queued { IsQueue result.0.now result.1.now port self.now.messages }
        ensures sent { IsSent result.0.now result.2.now port self.now.messages }
    {
        match self.ports.get(port) {
            Some(row) => (&self.blocks, &row.queued, &row.sent),
            None => unreachable!(),
        }
    }

    /// A message that stands in a queue.
    pub fn message(&self, message: Key) -> &Message
        requires { IsSome (row_at self.now.messages message) }
        ensures { message_at self.now.messages message ≡ Some result.now }
    {
        &self.block(message).message
    }

    /// The port in whose queue a message stands.
    pub fn message_queue(&self, message: Key) -> Key
        requires { IsSome (row_at self.now.messages message) }
        ensures { queue_at self.now.messages message ≡ Some result }
    {
        self.block(message).queue
    }

    /// Takes a message from its queue, and answers it. Its room is spare then.
    pub fn pull(&mut self, message: Key) -> Message
        requires stands { IsSome (row_at self.old.messages message) }
        ensures value { message_at self.old.messages message ≡ Some result }
        ensures table { self.new ≡ without_message self.old message }
        ensures first { PullsFirst is_in self.old.messages message result }
        ensures oldest { LeavesOthers is_in self.old.messages message self.new.messages }
        ensures first_connect { PullsFirst is_connect_in self.old.messages message result }
        ensures oldest_connect { LeavesOthers is_connect_in
            self.old.messages message self.new.messages }
    {
        let pulled = self.message(message).copy();
        self.take(message);
        pulled
    }

    /// Takes the messages that ask for an answer and name this thread as their client from their queues, and answers
    /// whether there was one. The room of each is spare then.
    pub fn withdraw(&mut self, thread: u32) -> bool
        ensures table { self.new ≡ without_messages (is_own_of thread) self.old }
        ensures went { result ≡ has (is_own_of thread) self.old.messages }
    {
        let mut went = false;
        while let Some(message) = self.first_own_of(thread) {
            self.lose(message);
            went = true;
        }
        went
    }

    /// Takes all messages from a queue, and answers whether there was one. The room of each is spare then.
    pub fn empty(&mut self, queue: Key) -> bool
        ensures table { self.new ≡ without_messages (is_in queue) self.old }
        ensures went { result ≡ has (is_in queue) self.old.messages }
    {
        let mut went = false;
        while let Some(message) = self.first_message(queue) {
            self.lose(message);
            went = true;
        }
        went
    }

    /// Makes a client and a server port the two ends of a connection, and gives both its context. What has no row gets
    /// none.
    pub fn join(&mut self, client: Key, server: Key, context: u32)
        ensures { self.new ≡ with_joined self.old client server context }
    {
        self.pair_with(client, server, context);
        self.pair_with(server, client, context);
    }

    /// Takes a port and its pair apart. Both keep their contexts. What has no row gets none.
    pub fn cut(&mut self, port: Key)
        ensures { self.new ≡ record self.old { ports = parted self.old.ports port } }
    {
        if let Some(other) = self.pair_of(port) {
            self.forget_pair(other);
        }
        self.forget_pair(port);
    }

    // A port has this one as its other end or as its connection port.
    fn is_joined(&self, port: Key) -> bool
        ensures { result ≡ has (is_joined_to port) self.now.ports }
    {
        self.paired_to(port) != 0 || self.connected_to(port) != 0
    }

    // How many ports have this one as their other end, by a look at each.
    fn search_paired(&self, port: Key) -> usize
        ensures { result ≡ count (is_paired_to port) self.now.ports }
    {
        let mut paired = 0;
        for place in 0..self.ports.count() {
            let (_, row) = self.ports.row(place);
            if is_the(port, row.port.pair) {
                paired += 1;
            }
        }
        paired
    }

    // How many ports have this one as their connection port, by a look at each.
    fn search_connected(&self, port: Key) -> usize
        ensures { result ≡ count (is_connected_to port) self.now.ports }
    {
        let mut connected = 0;
        for place in 0..self.ports.count() {
            let (_, row) = self.ports.row(place);
            if is_the(port, row.port.connection) {
                connected += 1;
            }
        }
        connected
    }

    // A message was sent on the port, which has a row, or stands in its queue.
    fn has_message(&self, port: Key) -> bool
        requires { IsSome (row_at self.now.ports port) }
        ensures { result ≡ has (is_message_at port) self.now.messages }
    {
        match self.ports.get(port) {
            Some(row) => row.sent.front().is_some() || row.queued.front().is_some(),
            None => unreachable!(),
        }
    }

    // The row of an open port.
    fn row(&self, port: Key) -> &Port<'t>
        requires { IsSome (row_at self.now.ports port) }
        ensures { row_at self.now.ports port ≡ Some result.now }
    {
        match self.get(port) {
            Some(row) => row,
            None => unreachable!(),
        }
    }

    // The oldest message of a queue.
    fn first_message(&self, queue: Key) -> Option<Key>
        ensures { result ≡ first_in self.now.messages queue }
    {
        self.ports.get(queue)?.queued.front()
    }

    // The oldest connection request of a queue.
    fn first_connect(&self, queue: Key) -> Option<Key>
        ensures { result ≡ first_connect_in self.now.messages queue }
    {
        let mut next = self.ports.get(queue)?.queued.front();
        while let Some(key) = next {
            match self.blocks.get(key) {
                Some(block) => {
                    if block.message.is_connect() {
                        return Some(key);
                    }
                    next = block.in_queue.after;
                }
                None => unreachable!(),
            }
        }
        None
    }

    // The oldest message that asks for an answer and names this thread as its client.
    fn first_own_of(&self, thread: u32) -> Option<Key>
        ensures { result ≡ first_own_of self.now.messages thread }
    {
        if self.totals.asking == 0 {
            return None;
        }
        for place in 0..self.blocks.count() {
            let (key, row) = self.blocks.row(place);
            if row.message.is_own_of(thread) {
                return Some(key);
            }
        }
        None
    }

    // Takes a message from its queue, where it stands in one. Its room is spare then.
    fn lose(&mut self, message: Key)
        ensures { LosesFirst self.old message self.new }
    {
        self.take(message);
    }

    // Takes a message out of both its chains and away, where it stands in a queue. Its room is spare then.
    // It isn't answered, since its row is large: who wants it copies it before.
    fn take(&mut self, message: Key)
        ensures table { IsSome (row_at self.old.messages message) →
            self.new ≡ without_message self.old message }
        ensures apart { IsDistinct (keys_of self.old.messages) }
    {
        let Some(block) = self.blocks.get(message) else {
            return;
        };
        let queue = block.queue;
        let sender = block.message.sender;
        let datagram = block.message.is_datagram();
        self.totals.remove_message(&block.message);
        unlink_queued(&mut self.ports, &mut self.blocks, queue, message);
        unlink_sent(&mut self.ports, &mut self.blocks, sender, message, datagram);
        self.blocks.remove(message);
    }

    // The block of a message that stands in a queue.
    fn block(&self, message: Key) -> &Block
        requires { IsSome (row_at self.now.messages message) }
        ensures { row_at self.now.messages message ≡ Some (queued_of result.now) }
    {
        match self.blocks.get(message) {
            Some(block) => block,
            None => unreachable!(),
        }
    }

    // The other end of a port's connection, where the port is open.
    fn pair_of(&self, port: Key) -> Option<Key>
        ensures { result ≡ pair_of self.now.ports port }
    {
        self.get(port)?.pair
    }

    // Gives a port its other end and its context, where the port is open.
    fn pair_with(&mut self, port: Key, pair: Key, context: u32)
        ensures { self.new ≡ with_changed self.old port (paired pair context) }
    {
        if let Some(row) = self.ports.get_mut(port) {
            let parted = row.port.pair;
            row.port.pair = Some(pair);
            row.port.context = context;
            lose_paired(&mut self.ports, parted);
            let counted = gain_paired(&mut self.ports, Some(pair));
            self.whole = self.whole && counted;
        }
    }

    // Takes the pair from a port, where the port is open.
    fn forget_pair(&mut self, port: Key)
        ensures { self.new ≡ with_changed self.old port unpaired }
    {
        if let Some(row) = self.ports.get_mut(port) {
            let parted = row.port.pair;
            row.port.pair = None;
            lose_paired(&mut self.ports, parted);
        }
    }
}
