// The ports, call by call, with ample memory.
ghost use Rattle.std.specs.Prelude.{◌≡◌, ◌<◌, ◌+◌, IsSome};
ghost use Rattle.lpc_ports.specs.Table.{row_at};

use crate::common::guest;
use lpc_base::Birth;
use lpc_message::ClientId;
use lpc_message::kind::{
    CONNECTION_REQUEST, DATAGRAM, DEBUG_EVENT, EXCEPTION, PORT_CLOSED, REPLY, REQUEST,
};
use lpc_ports::{Creator, Message, PortKind, Ports};
use lpc_sid::{Dacl, Token};
use lpc_slots::Key;
use lpc_tokens::level::IMPERSONATION;
use lpc_tokens::{Effective, Qos, Security, TokenRef, Tracking};
use std::process::Abort;
use std::test::Fail;

fn birth(ordinal: u32) -> Birth {
    Birth {
        maker: 8,
        ordinal,
        process: 4,
    }
}

fn creator() -> Creator {
    Creator {
        client: ClientId {
            process: 4,
            thread: 8,
        },
        message_id: 7,
    }
}

// The header of a message without data. Its type is the number at bytes 4 and 5, low byte first.
fn header(kind: u16) -> [u8; 24] {
    let mut bytes = [0; 24];
    bytes[2] = 24;
    [bytes[4], bytes[5]] = kind.to_le_bytes();
    bytes
}

// The port has this birth, this other end and this context.
fn is_port(
    rt: &impl Abort,
    ports: &Ports,
    port: Key,
    birth: Birth,
    pair: Option<Key>,
    context: u32,
) {
    let Some(row) = ports.get(port) else {
        assert!(rt; false);
        return;
    };
    assert!(rt; row.birth == birth);
    assert!(rt; row.pair == pair);
    assert!(rt; row.context == context);
}

// A client and a server port become the ends of one connection, and are taken apart.
fn joins_and_cuts(rt: &impl Abort, ports: &mut Ports, client: Key, server: Key) {
    is_port(rt, ports, client, birth(3), None, 0);
    ports.join(client, server, 77);
    is_port(rt, ports, client, birth(3), Some(server), 77);
    is_port(rt, ports, server, birth(4), Some(client), 77);
    ports.cut(server);
    is_port(rt, ports, client, birth(3), None, 77);
    is_port(rt, ports, server, birth(4), None, 77);
}

#[test]
fn ports_are_joined_and_cut(rt: HostRuntime) -> Result<(), Fail> {
    let mut ports = Ports::new(rt.alloc());
    ports.reserve(3, 0)?;
    let connection = ports.add(PortKind::Connection, birth(2), None);
    let client = ports.add(PortKind::Client, birth(3), Some(connection));
    let server = ports.add(PortKind::Server, birth(4), Some(connection));
    joins_and_cuts(&rt, &mut ports, client, server);
    Ok(())
}

// What a port shows that was made and never changed.
fn is_new(rt: &impl Abort, ports: &Ports, port: Key)
    requires { IsSome (row_at ports.now.ports port) }
{
    assert!(rt; ports.birth(port) == birth(1));
    assert!(rt; matches!(ports.kind(port), PortKind::Unnamed));
    assert!(rt; ports.pair(port) == None);
    assert!(rt; ports.connection(port) == None);
    assert!(rt; ports.context(port) == 0);
}

// The port has a creator, and is completed, or neither.
fn is_set(rt: &impl Abort, ports: &Ports, port: Key, set: bool)
    requires { IsSome (row_at ports.now.ports port) }
{
    assert!(rt; ports.completed(port) == set);
    match ports.creator(port) {
        Some(creator) => {
            assert!(rt; set && creator.message_id == 7);
            assert!(rt; creator.client.process == 4 && creator.client.thread == 8);
        }
        None => assert!(rt; !set),
    }
}

#[test]
#[tactic(auto, using(lpc_slots::proofs::Keys::key_itself))]
fn port_is_read_and_freed(rt: HostRuntime) -> Result<(), Fail> {
    let mut ports = Ports::new(rt.alloc());
    ports.reserve(1, 0)?;
    let port = ports.add(PortKind::Unnamed, birth(1), None);
    is_new(&rt, &ports, port);
    is_set(&rt, &ports, port, false);
    ports.set_creator(port, Some(creator()));
    ports.set_completed(port, true);
    is_set(&rt, &ports, port, true);
    ports.free(port);
    assert!(rt; ports.get(port).is_none());
    Ok(())
}

// The port has the access list that lets nobody connect.
fn is_guarded(rt: &impl Abort, ports: &Ports, port: Key)
    requires { IsSome (row_at ports.now.ports port) }
{
    match ports.security(port).copy() {
        Security::Guarded(dacl) => assert!(rt; dacl == Dacl::default()),
        Security::Unsecured | Security::Allows { .. } => assert!(rt; false),
    }
}

// The port allows its server the guest's token.
fn allows(rt: &impl Abort, ports: &Ports, port: Key)
    requires { IsSome (row_at ports.now.ports port) }
{
    match ports.security(port) {
        Security::Allows { quality, kept } => {
            assert!(rt; quality.level == IMPERSONATION);
            assert!(rt; quality.tracking == Tracking::Dynamic);
            assert!(rt; *kept.token.get() == guest());
            assert!(rt; kept.level == None);
        }
        Security::Unsecured | Security::Guarded(_) => assert!(rt; false),
    }
}

// An access list that lets nobody connect.
fn guard<'t>() -> Security<'t> {
    Security::Guarded(Dacl::default())
}

// What a client allows that asked for the level of impersonation, with the token that it has when the server asks.
fn allowance(token: &Token) -> Security<'_> {
    Security::Allows {
        quality: Qos {
            level: IMPERSONATION,
            tracking: Tracking::Dynamic,
        },
        kept: Effective {
            token: TokenRef::new(token),
            level: None,
        },
    }
}

#[test]
#[tactic(auto, using(lpc_slots::proofs::Keys::key_itself))]
fn port_is_unsecured_until_it_is_secured(rt: HostRuntime) -> Result<(), Fail> {
    let guest = guest();
    let mut ports = Ports::new(rt.alloc());
    ports.reserve(1, 0)?;
    let port = ports.add(PortKind::Client, birth(1), None);
    assert!(rt; matches!(ports.security(port), Security::Unsecured));
    ports.set_security(port, guard());
    is_guarded(&rt, &ports, port);
    ports.set_security(port, allowance(&guest));
    allows(&rt, &ports, port);
    Ok(())
}

// The oldest message of a queue, or its oldest connection request.
fn is_first(rt: &impl Abort, ports: &Ports, queue: Key, connects_only: bool, message: Option<Key>) {
    assert!(rt; ports.first(queue, connects_only) == message);
}

// The message stands in this queue, with this context.
fn stands(rt: &impl Abort, ports: &Ports, message: Key, queue: Key, context: u32)
    requires { IsSome (row_at ports.now.messages message) }
{
    assert!(rt; ports.message_queue(message) == queue);
    assert!(rt; ports.message(message).context == context);
}

// The message has these bytes, and was sent on this port.
fn is_message(rt: &impl Abort, message: &Message, bytes: &[u8], sender: Key) {
    assert!(rt; message.bytes.as_slice() == bytes);
    assert!(rt; message.sender == sender);
}

// Over the lent blocks a port's queue is two messages, one behind the other, and this is the first that was sent on it.
fn lends(rt: &impl Abort, ports: &Ports, port: Key, queue: [Key; 2], sent: Key)
    requires { IsSome (row_at ports.now.ports port) }
{
    let (blocks, queued, sent_on) = ports.lent(port);
    assert!(rt; queued.first == Some(queue[0]) && queued.last == Some(queue[1]));
    assert!(rt; sent_on.front() == Some(sent));
    let Some(block) = blocks.get(queue[0]) else {
        assert!(rt; false);
        return;
    };
    assert!(rt; block.in_queue.after == Some(queue[1]));
}

#[test]
#[tactic(auto, using(lpc_slots::proofs::Keys::key_itself))]
fn messages_stand_in_their_queues_in_the_order_of_sending(rt: HostRuntime) -> Result<(), Fail> {
    let mut ports = Ports::new(rt.alloc());
    ports.reserve(2, 3)?;
    let one = ports.add(PortKind::Unnamed, birth(1), None);
    let two = ports.add(PortKind::Unnamed, birth(2), None);
    let first = ports.send(one, two, 7, b"a");
    let second = ports.send(one, one, 0, b"d");
    let other = ports.send(two, one, 6, b"bc");
    is_first(&rt, &ports, one, true, None);
    is_first(&rt, &ports, one, false, Some(first));
    is_first(&rt, &ports, two, false, Some(other));
    lends(&rt, &ports, one, [first, second], second);
    stands(&rt, &ports, first, one, 7);
    is_message(&rt, &ports.pull(first), b"a", two);
    is_first(&rt, &ports, one, false, Some(second));
    Ok(())
}

// A message of a type enters a queue.
fn sends(ports: &mut Ports, queue: Key, sender: Key, kind: u16)
    requires queue { IsSome (row_at ports.old.ports queue) }
    requires sender { IsSome (row_at ports.old.ports sender) }
    requires room { 0 < ports.old.message_room }
    requires few { ports.old.messages_made < 1000 }
    ensures ports { ports.new.ports ≡ ports.old.ports }
    ensures room { ports.new.message_room + 1 ≡ ports.old.message_room }
    ensures made { ports.new.messages_made ≡ ports.old.messages_made + 1 }
{
    ports.send(queue, sender, 0, &header(kind));
}

// Three datagrams and a request, sent on two ports.
fn counts_datagrams(rt: &impl Abort, ports: &mut Ports, one: Key, two: Key) -> Result<(), Fail>
    requires one { IsSome (row_at ports.old.ports one) }
    requires two { IsSome (row_at ports.old.ports two) }
    requires few { ports.old.messages_made < 100 }
{
    ports.reserve(0, 4)?;
    sends(ports, one, two, DATAGRAM);
    sends(ports, one, two, REQUEST);
    sends(ports, two, one, DATAGRAM);
    sends(ports, two, two, DATAGRAM);
    assert!(rt; ports.sent_datagrams(one) == 1 && ports.sent_on(one) == 1);
    assert!(rt; ports.sent_datagrams(two) == 2 && ports.sent_on(two) == 3);
    Ok(())
}

#[test]
#[tactic(auto, using(lpc_slots::proofs::Keys::key_itself))]
fn datagrams_are_counted_by_their_senders(rt: HostRuntime) -> Result<(), Fail> {
    let mut ports = Ports::new(rt.alloc());
    ports.reserve(2, 0)?;
    let one = ports.add(PortKind::Unnamed, birth(1), None);
    let two = ports.add(PortKind::Unnamed, birth(2), None);
    counts_datagrams(&rt, &mut ports, one, two)
}

// Six messages of as many types enter a queue, where none stood before: four of them ask.
fn counts_asking(rt: &impl Abort, ports: &mut Ports, port: Key) -> Result<(), Fail>
    requires port { IsSome (row_at ports.old.ports port) }
    requires few { ports.old.messages_made < 100 }
{
    assert!(rt; ports.asking() == 0);
    ports.reserve(0, 6)?;
    sends(ports, port, port, REQUEST);
    sends(ports, port, port, DATAGRAM);
    sends(ports, port, port, CONNECTION_REQUEST);
    sends(ports, port, port, REPLY);
    sends(ports, port, port, EXCEPTION);
    sends(ports, port, port, DEBUG_EVENT);
    assert!(rt; ports.asking() == 4);
    Ok(())
}

#[test]
#[tactic(auto, using(lpc_slots::proofs::Keys::key_itself))]
fn requests_connection_requests_and_events_ask(rt: HostRuntime) -> Result<(), Fail> {
    let mut ports = Ports::new(rt.alloc());
    ports.reserve(1, 0)?;
    let port = ports.add(PortKind::Connection, birth(1), None);
    counts_asking(&rt, &mut ports, port)
}

// Of two ports one is a client port, and of two messages one tells of a closing.
fn counts_closings(rt: &impl Abort, ports: &mut Ports, queue: Key, client: Key) -> Result<(), Fail>
    requires queue { IsSome (row_at ports.old.ports queue) }
    requires client { IsSome (row_at ports.old.ports client) }
    requires few { ports.old.messages_made < 100 }
{
    ports.reserve(0, 2)?;
    sends(ports, queue, client, PORT_CLOSED);
    sends(ports, queue, client, DATAGRAM);
    assert!(rt; ports.clients() == 1 && ports.closings() == 1);
    Ok(())
}

#[test]
#[tactic(auto, using(lpc_slots::proofs::Keys::key_itself))]
fn clients_and_closings_are_counted(rt: HostRuntime) -> Result<(), Fail> {
    let mut ports = Ports::new(rt.alloc());
    ports.reserve(2, 0)?;
    let connection = ports.add(PortKind::Connection, birth(1), None);
    let client = ports.add(PortKind::Client, birth(2), Some(connection));
    counts_closings(&rt, &mut ports, connection, client)
}

// A message of a type that names thread 520 as its client, whose number's low bytes are 8 and 2, enters a queue.
fn sends_for(ports: &mut Ports, queue: Key, kind: u16)
    requires queue { IsSome (row_at ports.old.ports queue) }
    requires room { 0 < ports.old.message_room }
    requires few { ports.old.messages_made < 1000 }
    ensures ports { ports.new.ports ≡ ports.old.ports }
    ensures room { ports.new.message_room + 1 ≡ ports.old.message_room }
    ensures made { ports.new.messages_made ≡ ports.old.messages_made + 1 }
{
    let mut bytes = header(kind);
    [bytes[12], bytes[13]] = [8, 2];
    ports.send(queue, queue, 0, &bytes);
}

// Of four messages the two go that ask and name thread 520.
fn withdraws(rt: &impl Abort, ports: &mut Ports, port: Key) -> Result<(), Fail>
    requires port { IsSome (row_at ports.old.ports port) }
    requires few { ports.old.messages_made < 100 }
{
    ports.reserve(0, 4)?;
    sends_for(ports, port, CONNECTION_REQUEST);
    sends_for(ports, port, DATAGRAM);
    sends_for(ports, port, REQUEST);
    sends(ports, port, port, REQUEST);
    assert!(rt; ports.withdraw(520));
    assert!(rt; ports.asking() == 1 && ports.sent_datagrams(port) == 1);
    assert!(rt; !ports.withdraw(520));
    Ok(())
}

#[test]
#[tactic(auto, using(lpc_slots::proofs::Keys::key_itself))]
fn own_messages_are_withdrawn(rt: HostRuntime) -> Result<(), Fail> {
    let mut ports = Ports::new(rt.alloc());
    ports.reserve(1, 0)?;
    let port = ports.add(PortKind::Connection, birth(1), None);
    withdraws(&rt, &mut ports, port)
}

// All messages of one queue go, and those of another stay.
fn empties(rt: &impl Abort, ports: &mut Ports, one: Key, two: Key) -> Result<(), Fail>
    requires one { IsSome (row_at ports.old.ports one) }
    requires two { IsSome (row_at ports.old.ports two) }
    requires few { ports.old.messages_made < 100 }
{
    ports.reserve(0, 3)?;
    sends(ports, one, two, DATAGRAM);
    sends(ports, two, one, REQUEST);
    sends(ports, one, one, REPLY);
    assert!(rt; ports.empty(one));
    assert!(rt; ports.sent_datagrams(two) == 0 && ports.asking() == 1);
    assert!(rt; !ports.empty(one));
    Ok(())
}

#[test]
#[tactic(auto, using(lpc_slots::proofs::Keys::key_itself))]
fn queues_are_emptied(rt: HostRuntime) -> Result<(), Fail> {
    let mut ports = Ports::new(rt.alloc());
    ports.reserve(2, 0)?;
    let one = ports.add(PortKind::Unnamed, birth(1), None);
    let two = ports.add(PortKind::Unnamed, birth(2), None);
    empties(&rt, &mut ports, one, two)
}

#[test]
#[tactic(auto, using(lpc_slots::proofs::Keys::key_itself))]
fn connection_requests_are_found_alone(rt: HostRuntime) -> Result<(), Fail> {
    let mut ports = Ports::new(rt.alloc());
    ports.reserve(2, 4)?;
    let one = ports.add(PortKind::Connection, birth(1), None);
    let two = ports.add(PortKind::Unnamed, birth(2), None);
    let datagram = ports.send(one, two, 0, &header(DATAGRAM));
    ports.send(two, two, 0, &header(CONNECTION_REQUEST));
    is_first(&rt, &ports, one, true, None);
    let older = ports.send(one, two, 0, &header(CONNECTION_REQUEST));
    let newer = ports.send(one, two, 0, &header(CONNECTION_REQUEST));
    is_first(&rt, &ports, one, false, Some(datagram));
    is_first(&rt, &ports, one, true, Some(older));
    ports.pull(older);
    is_first(&rt, &ports, one, true, Some(newer));
    is_first(&rt, &ports, one, false, Some(datagram));
    Ok(())
}

// The port has a row, and a row names it, or none does.
fn names(rt: &impl Abort, ports: &Ports, port: Key, named: bool) {
    let Some(_) = ports.get(port) else {
        assert!(rt; false);
        return;
    };
    assert!(rt; ports.is_named(port) == named);
}

// So many ports have the port as their other end, and so many as their connection port.
fn counts(rt: &impl Abort, ports: &Ports, port: Key, paired: usize, connected: usize) {
    assert!(rt; ports.paired_to(port) == paired);
    assert!(rt; ports.connected_to(port) == connected);
}

// Two ports name each other while they are joined.
fn ends_are_named(rt: &impl Abort, ports: &mut Ports, client: Key, server: Key) {
    names(rt, ports, client, false);
    ports.join(client, server, 77);
    names(rt, ports, client, true);
    counts(rt, ports, client, 1, 0);
    ports.cut(client);
    names(rt, ports, client, false);
}

#[test]
fn ports_name_ports(rt: HostRuntime) -> Result<(), Fail> {
    let mut ports = Ports::new(rt.alloc());
    ports.reserve(4, 0)?;
    let unnamed = ports.add(PortKind::Unnamed, birth(1), None);
    let connection = ports.add(PortKind::Connection, birth(2), None);
    let client = ports.add(PortKind::Client, birth(3), Some(connection));
    let server = ports.add(PortKind::Server, birth(4), Some(connection));
    counts(&rt, &ports, connection, 0, 2);
    names(&rt, &ports, unnamed, false);
    names(&rt, &ports, connection, true);
    ends_are_named(&rt, &mut ports, client, server);
    Ok(())
}

#[test]
#[tactic(auto, using(lpc_slots::proofs::Keys::key_itself))]
fn messages_name_ports(rt: HostRuntime) -> Result<(), Fail> {
    let mut ports = Ports::new(rt.alloc());
    ports.reserve(2, 1)?;
    let one = ports.add(PortKind::Unnamed, birth(1), None);
    let two = ports.add(PortKind::Client, birth(2), None);
    let message = ports.send(one, two, 0, &header(DATAGRAM));
    names(&rt, &ports, one, true);
    names(&rt, &ports, two, true);
    ports.pull(message);
    names(&rt, &ports, one, false);
    Ok(())
}
