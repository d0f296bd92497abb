// The world with ample memory: directives line by line, and a port that is made, found and sent on. The expected values
// are written out by hand.
ghost use Rattle.std.specs.Prelude.{◌≡◌, ◌≤◌, ◌<◌, ◌+◌, ◌*◌, false, true, IfOk, OnOk};
ghost use Rattle.lpc_model.specs.Message.{asks};
ghost use Rattle.lpc_waits.specs.declared.WaitKind.TheVariants as WaitKind;
ghost use Rattle.lpc_rows.specs.Names.{KeepsNames, stands};
ghost use Rattle.lpc_procs.specs.Procs.{IsNumber};
ghost use Rattle.lpc_rows.specs.Ready.{is_ready};
ghost use Rattle.lpc_base.specs.declared.limits.TheConstants.{LINES_LIMIT};

use crate::common::{boots, can_call, makes_a_port, threads};
use lpc_base::status::{
    ACCESS_DENIED, INVALID_CID, INVALID_HANDLE, OBJECT_NAME_COLLISION, OBJECT_PATH_SYNTAX_BAD,
    OBJECT_TYPE_MISMATCH, SUCCESS,
};
use lpc_base::{PortKind, Status};
use lpc_directives::{directory, link};
use lpc_machine::{Condition, condition_of, objects, room_needed};
use lpc_message::{ClientId, Header, kind};
use lpc_model::{Body, Entries, Message, ObjectKind, kept};
use lpc_names::{BindFault, Found};
use lpc_ports::Creator;
use lpc_slots::Key;
use lpc_steps::{
    client_test, context, datagram_test, deliver, handles_test, object_at, own_handle, port_at,
    read_message, receive_test, route, wait_with,
};
use lpc_tokens::TokenArena;
use lpc_waits::{Wait, WaitKind};
use lpc_world::{Object, World};
use std::process::Abort;
use std::test::Fail;

// Room is made without a row.
fn makes_room(world: &mut World) -> Result<(), Fail>
    ensures calls { world.new.calls ≡ world.old.calls }
{
    world.procs_reserve(2, 3)?;
    world.waits_reserve(2)?;
    Ok(())
}

// Six directives, on a new world.
fn makes_processes_and_threads(rt: &impl Abort, world: &mut World) -> Result<(), Fail>
    requires few { world.old.calls < 1000 }
{
    boots(rt, world, 20, 24, SUCCESS)?;
    boots(rt, world, 20, 28, OBJECT_NAME_COLLISION)?;
    boots(rt, world, 32, 24, OBJECT_NAME_COLLISION)?;
    threads(rt, world, 28, 20, SUCCESS)?;
    threads(rt, world, 28, 20, OBJECT_NAME_COLLISION)?;
    threads(rt, world, 28, 32, INVALID_CID)
}

// What those directives left, counted.
fn counts_processes_and_threads(rt: &impl Abort, world: &World) {
    assert!(rt; world.calls() == 6);
    assert!(rt; objects(world) == 3);
    assert!(rt; world.live_count(20) == 2);
    assert!(rt; room_needed(world) == 7);
}

// The numbers that those directives used.
fn shows_numbers(rt: &impl Abort, world: &World) {
    assert!(rt; world.is_live(20) && !world.is_live(32));
    assert!(rt; world.was_process(20) && !world.was_process(24));
    assert!(rt; world.was_thread(24) && !world.was_thread(20));
}

// Whether thread 28 is one of the process, as a message may name it.
fn is_client(world: &World, process: u32) -> bool {
    let client = ClientId {
        process,
        thread: 28,
    };
    client_test(world, client).is_ok()
}

// The threads that those directives made.
fn shows_threads(rt: &impl Abort, world: &World) {
    assert!(rt; condition_of(world, 28) == Condition::Ready);
    assert!(rt; condition_of(world, 20) == Condition::Absent);
    assert!(rt; is_client(world, 20) && !is_client(world, 32));
}

// Directives on a new world in which there is room, and what they left.
fn makes_and_shows_threads(rt: &impl Abort, world: &mut World) -> Result<(), Fail>
    requires few { world.old.calls < 1000 }
{
    makes_room(world)?;
    makes_processes_and_threads(rt, world)?;
    counts_processes_and_threads(rt, world);
    shows_numbers(rt, world);
    shows_threads(rt, world);
    Ok(())
}

#[test]
fn directives_make_processes_and_threads(rt: HostRuntime) -> Result<(), Fail> {
    let arena = TokenArena::new(rt.alloc());
    let mut world = World::empty(rt.alloc(), &arena);
    makes_and_shows_threads(&rt, &mut world)
}

// The process of thread 24 gets a handle of a port, with the right to use it alone: the first of its handles.
fn gets_a_handle(rt: &impl Abort, world: &mut World, port: Key) -> Result<(), Fail>
    requires few { world.old.calls < LINES_LIMIT }
    requires ready { is_ready world.old.rows 24 ≡ true }
    requires stands { stands world.old.births.ports port ≡ true }
    ensures births { world.new.births ≡ world.old.births }
    ensures calls { world.new.calls ≤ world.old.calls + 1 }
{
    let by = world.caller(24);
    world.handles_reserve(by.process, 1)?;
    let Ok(()) = handles_test(world, by.process, 1) else {
        return Ok(assert!(rt; false));
    };
    world.begin_call();
    let given = world.handles_add(by.process, Object::Port(port), 1);
    assert!(rt; given.ok() == Some(4));
    Ok(())
}

/// Process 20 begins, and its thread 24 makes a port, which gets a handle.
pub fn begins_with_a_port(rt: &impl Abort, world: &mut World) -> Result<Key, Fail>
    requires few { world.old.calls < 1000 }
    ensures calls { world.new.calls ≤ world.old.calls + 3 }
    ensures stands { IfOk result (λ port. stands world.new.births.ports port ≡ true) }
{
    boots(rt, world, 20, 24, SUCCESS)?;
    can_call(rt, world, 24);
    let port = makes_a_port(world, PortKind::Unnamed, None)?;
    can_call(rt, world, 24);
    gets_a_handle(rt, world, port)?;
    Ok(port)
}

// A handle is refused so.
fn refuses(rt: &impl Abort, world: &World, handle: u32, kind: ObjectKind, status: Status)
    requires ready { is_ready world.now.rows 24 ≡ true }
{
    assert!(rt; object_at(world, 24, handle, kind, 2).err() == Some(status));
}

// The handle of the port is found, by its value, then its kind, then its rights.
fn finds_the_port(rt: &impl Abort, world: &World, port: Key)
    requires ready { is_ready world.now.rows 24 ≡ true }
{
    assert!(rt; port_at(world, 24, 4).ok() == Some(port));
    refuses(rt, world, 8, ObjectKind::Process, INVALID_HANDLE);
    refuses(rt, world, 4, ObjectKind::Process, OBJECT_TYPE_MISMATCH);
    refuses(rt, world, 4, ObjectKind::Port, ACCESS_DENIED);
}

// What is sent on the port enters its own queue.
fn routes_to_itself(rt: &impl Abort, world: &World, port: Key)
    requires stands { stands world.now.births.ports port ≡ true }
{
    assert!(rt; route(world, port) == Some(port));
    assert!(rt; context(world, port) == 0);
    assert!(rt; receive_test(world, port).ok() == Some(port));
    assert!(rt; datagram_test(world, port).is_ok());
    assert!(rt; world.receiver(port, false).is_none());
}

// The port is made, and its handle found.
fn makes_and_finds_a_port(rt: &impl Abort, world: &mut World) -> Result<(), Fail>
    requires few { world.old.calls < 1000 }
{
    let port = begins_with_a_port(rt, world)?;
    can_call(rt, world, 24);
    finds_the_port(rt, world, port);
    routes_to_itself(rt, world, port);
    Ok(())
}

#[test]
fn port_is_found_by_its_handle(rt: HostRuntime) -> Result<(), Fail> {
    let arena = TokenArena::new(rt.alloc());
    let mut world = World::empty(rt.alloc(), &arena);
    makes_and_finds_a_port(&rt, &mut world)
}

// A binding of a name succeeds.
fn binds(rt: &impl Abort, bound: Result<(), BindFault>) {
    assert!(rt; bound.is_ok());
}

// The path leads to the port, or to a directory.
fn leads_to(rt: &impl Abort, world: &World, path: &[u8], found: Found<Key>) {
    assert!(rt; world.names().lookup(path) == Ok(found));
}

// The port gets a name, to which a link leads.
fn names_the_port(rt: &impl Abort, world: &mut World, port: Key) -> Result<(), Fail>
    requires stands { stands world.old.births.ports port ≡ true }
    ensures calls { world.new.calls ≡ world.old.calls }
    ensures births { world.new.births ≡ world.old.births }
{
    world.names_reserve(3)?;
    binds(rt, world.names_add_directory(b"\\Windows"));
    binds(rt, world.names_add_link(b"\\L", b"\\Windows\\P"));
    assert!(rt; world.name_test(b"\\L").is_ok());
    binds(rt, world.names_bind(b"\\L", port));
    assert!(rt; world.name_test(b"\\L") == Err(OBJECT_NAME_COLLISION));
    leads_to(rt, world, b"\\Windows\\P", Found::Item(port));
    Ok(())
}

// Directories and links, on a new world.
fn makes_directories_and_links(rt: &impl Abort, world: &mut World) -> Result<(), Fail>
    requires few { world.old.calls < 1000 }
{
    binds(rt, world.names_add_directory(b"\\A"));
    binds(rt, world.names_add_link(b"\\L", b"\\A"));
    assert!(rt; directory(world, b"\\L")? == OBJECT_NAME_COLLISION);
    assert!(rt; link(world, b"\\L\\M", b"A")? == OBJECT_PATH_SYNTAX_BAD);
    assert!(rt; link(world, b"\\L\\M", b"\\A")? == SUCCESS);
    leads_to(rt, world, b"\\A\\M", Found::Directory);
    Ok(())
}

#[test]
fn directories_and_links_are_made_where_nothing_stands(rt: HostRuntime) -> Result<(), Fail> {
    let arena = TokenArena::new(rt.alloc());
    let mut world = World::empty(rt.alloc(), &arena);
    makes_directories_and_links(&rt, &mut world)
}

// A datagram of two bytes of data, without a client and an identifier.
const DATAGRAM: [u8; 26] = [
    2, 0, 26, 0, 3, 0, 0, 0, 0, 0, 0, 0, 0, 0, 0, 0, 0, 0, 0, 0, 0, 0, 0, 0, 0x41, 0x42,
];

// A datagram enters the queue of the port on which it is sent.
fn delivers(
    rt: &impl Abort,
    world: &mut World,
    port: Key,
    message: &Message,
    out: &mut Entries,
) -> Result<(), Fail>
    requires few { world.old.calls < LINES_LIMIT }
    requires spare { 1 ≤ out.old.spare }
    requires stands { stands world.old.births.ports port ≡ true }
    ensures births { world.new.births ≡ world.old.births }
{
    assert!(rt; message.header.kind == kind::DATAGRAM);
    world.messages_reserve(1)?;
    world.begin_call();
    deliver(world, port, port, 7, message, out);
    assert!(rt; out.list().len() == 0);
    Ok(())
}

// The datagram is taken from the queue.
fn pulls_the_datagram(rt: &impl Abort, world: &mut World, port: Key)
    requires stands { stands world.old.births.ports port ≡ true }
{
    let Some(taken) = world.ports_pull(port) else {
        return assert!(rt; false);
    };
    assert!(rt; taken.bytes.as_slice() == DATAGRAM.as_slice());
    assert!(rt; taken.sender == port && taken.context == 7);
}

// The port has a name, and keeps a message until it is taken.
fn keeps_a_message(
    rt: &impl Abort,
    world: &mut World,
    port: Key,
    out: &mut Entries,
) -> Result<(), Fail>
    requires few { world.old.calls < LINES_LIMIT }
    requires stands { stands world.old.births.ports port ≡ true }
{
    names_the_port(rt, world, port)?;
    out.reserve(1)?;
    let Ok(given) = read_message(&DATAGRAM) else {
        return Ok(assert!(rt; false));
    };
    delivers(rt, world, port, &kept(&given), out)?;
    pulls_the_datagram(rt, world, port);
    Ok(())
}

// The port is made, named, and keeps a message.
fn makes_and_names_a_port(rt: &impl Abort, world: &mut World, out: &mut Entries) -> Result<(), Fail>
    requires few { world.old.calls < 1000 }
{
    let port = begins_with_a_port(rt, world)?;
    keeps_a_message(rt, world, port, out)
}

#[test]
fn named_port_keeps_a_message(rt: HostRuntime) -> Result<(), Fail> {
    let alloc = rt.alloc();
    let arena = TokenArena::new(alloc);
    let mut world = World::empty(alloc, &arena);
    let mut out = Entries::new(alloc)?;
    makes_and_names_a_port(&rt, &mut world, &mut out)
}

// So many handles name the port, and so many rows count for it.
fn counts(rt: &impl Abort, world: &World, port: Key, handles: usize, pointers: usize)
    requires stands { stands world.now.births.ports port ≡ true }
{
    assert!(rt; world.handles_to(Object::Port(port)) == handles);
    assert!(rt; world.pointers_to(Object::Port(port)) == pointers);
}

// The port's names and its messages go.
fn empties_the_port(rt: &impl Abort, world: &mut World, port: Key)
    requires stands { stands world.old.births.ports port ≡ true }
    ensures births { world.new.births ≡ world.old.births }
{
    counts(rt, world, port, 1, 2);
    world.names_unbind(port);
    assert!(rt; world.name_test(b"\\Windows\\P").is_ok());
    world.messages_empty(port);
    counts(rt, world, port, 1, 1);
}

// The handle of the port goes.
fn closes_the_handle(rt: &impl Abort, world: &mut World, port: Key)
    requires ready { is_ready world.old.rows 24 ≡ true }
    requires stands { stands world.old.births.ports port ≡ true }
{
    let by = world.caller(24);
    world.handles_close(by.process, 4);
    counts(rt, world, port, 0, 0);
    can_call(rt, world, 24);
    assert!(rt; own_handle(world, 24, 4).err() == Some(INVALID_HANDLE));
}

// The port is named, a datagram is sent on it, and then all goes.
fn sends_and_closes(
    rt: &impl Abort,
    world: &mut World,
    port: Key,
    out: &mut Entries,
) -> Result<(), Fail>
    requires few { world.old.calls < LINES_LIMIT }
    requires stands { stands world.old.births.ports port ≡ true }
{
    names_the_port(rt, world, port)?;
    out.reserve(1)?;
    let Ok(given) = read_message(&DATAGRAM) else {
        return Ok(assert!(rt; false));
    };
    delivers(rt, world, port, &kept(&given), out)?;
    empties_the_port(rt, world, port);
    can_call(rt, world, 24);
    closes_the_handle(rt, world, port);
    Ok(())
}

// The port is made, and closed.
fn makes_and_closes_a_port(
    rt: &impl Abort,
    world: &mut World,
    out: &mut Entries,
) -> Result<(), Fail>
    requires few { world.old.calls < 1000 }
{
    let port = begins_with_a_port(rt, world)?;
    sends_and_closes(rt, world, port, out)
}

#[test]
fn what_names_a_port_is_counted_and_goes(rt: HostRuntime) -> Result<(), Fail> {
    let alloc = rt.alloc();
    let arena = TokenArena::new(alloc);
    let mut world = World::empty(alloc, &arena);
    let mut out = Entries::new(alloc)?;
    makes_and_closes_a_port(&rt, &mut world, &mut out)
}

// A request of thread 24 of process 20, with identifier 1 and two bytes of data.
fn request() -> Message
    ensures asks { asks result ≡ true }
    ensures client { result.header.client.thread ≡ 24 }
{
    let header = Header {
        data_size: 2,
        message_size: 26,
        kind: kind::REQUEST,
        ranges_offset: 0,
        client: ClientId {
            process: 20,
            thread: 24,
        },
        message_id: 1,
        section_size: 0,
    };
    let body = Body::from_slice(&[0x41, 0x42]);
    Message { header, body }
}

// The wait for the answer to that request, on the port on which it is sent.
fn request_wait(port: Key) -> Wait
    ensures port { result.port ≡ port }
    ensures queue { result.queue ≡ port }
    ensures kind { result.kind ≡ WaitKind.Request }
    ensures received { result.received ≡ false }
{
    Wait {
        process: 20,
        kind: WaitKind::Request,
        port,
        queue: port,
        identifier: 1,
        received: false,
    }
}

// Thread 24 sends the request on a port, and waits for the answer.
fn asks(world: &mut World, port: Key, out: &mut Entries)
    requires few { world.old.calls < LINES_LIMIT }
    requires ready { is_ready world.old.rows 24 ≡ true }
    requires spare { 1 ≤ out.old.spare }
    requires stands { stands world.old.births.ports port ≡ true }
    ensures births { world.new.births ≡ world.old.births }
{
    let by = world.caller(24);
    let message = request();
    world.begin_call();
    wait_with(world, by.number, request_wait(port), &message);
    deliver(world, port, port, 0, &message, out);
}

// The request leaves the queue, so that its wait can end.
fn withdraws_the_request(rt: &impl Abort, world: &mut World, port: Key)
    requires stands { stands world.old.births.ports port ≡ true }
{
    assert!(rt; world.ports().asking() == 1);
    world.messages_withdraw(24);
    assert!(rt; world.ports().asking() == 0);
    assert!(rt; world.waits_end(24).is_some());
    assert!(rt; world.ports_pull(port).is_none());
}

// The thread's request is withdrawn before it is received.
fn asks_and_withdraws(rt: &impl Abort, world: &mut World, out: &mut Entries) -> Result<(), Fail>
    requires few { world.old.calls < 1000 }
{
    let port = begins_with_a_port(rt, world)?;
    can_call(rt, world, 24);
    out.reserve(1)?;
    asks(world, port, out);
    withdraws_the_request(rt, world, port);
    Ok(())
}

#[test]
fn request_is_withdrawn(rt: HostRuntime) -> Result<(), Fail> {
    let alloc = rt.alloc();
    let arena = TokenArena::new(alloc);
    let mut world = World::empty(alloc, &arena);
    let mut out = Entries::new(alloc)?;
    asks_and_withdraws(&rt, &mut world, &mut out)
}

// The connect that makes the client port.
fn creator() -> Creator {
    let client = ClientId {
        process: 20,
        thread: 24,
    };
    Creator {
        client,
        message_id: 1,
    }
}

// Two ports are joined, and the client port has the context.
fn joins(rt: &impl Abort, world: &mut World, client: Key, server: Key)
    requires client { stands world.old.births.ports client ≡ true }
    requires server { stands world.old.births.ports server ≡ true }
{
    assert!(rt; context(world, client) == 0);
    world.ports_join(client, server, 77);
    assert!(rt; context(world, client) == 77);
    assert!(rt; context(world, server) == 0);
    world.ports_set_completed(client, true);
}

// A client port and a server port are made, and joined.
fn makes_and_joins_ports(rt: &impl Abort, world: &mut World) -> Result<(), Fail>
    requires few { world.old.calls < 1000 }
{
    boots(rt, world, 20, 24, SUCCESS)?;
    can_call(rt, world, 24);
    let client = makes_a_port(world, PortKind::Client, Some(creator()))?;
    can_call(rt, world, 24);
    let server = makes_a_port(world, PortKind::Server, None)?;
    joins(rt, world, client, server);
    Ok(())
}

#[test]
fn connection_is_joined_and_completed(rt: HostRuntime) -> Result<(), Fail> {
    let arena = TokenArena::new(rt.alloc());
    let mut world = World::empty(rt.alloc(), &arena);
    makes_and_joins_ports(&rt, &mut world)
}
