// The rows that tables lend for reading, in the order in which contracts see them, with ample memory.
ghost use Rattle.std.specs.Prelude.{◌≤◌, length};
ghost use Rattle.lpc_tokens.specs.declared.names.TheConstants.{TOKEN_NAME_LIMIT};

use crate::common::guest;
use lpc_base::Birth;
use lpc_handles::Table;
use lpc_homes::Parts;
use lpc_names::{Found, Names, Node};
use lpc_ports::{PortKind, Ports};
use lpc_procs::Procs;
use lpc_sid::Token;
use lpc_slots::{Key, Slots};
use lpc_tokens::{TokenArena, TokenNames, TokenRef};
use lpc_waits::{Wait, WaitKind, WaitRow, Waits};
use std::process::Abort;
use std::test::Fail;

// The name of what a directive makes.
fn made(number: u32) -> Birth {
    Birth {
        maker: 0,
        ordinal: number,
        process: 0,
    }
}

// A receive on the first port.
fn receive(process: u32) -> Wait {
    let port = Key {
        index: 0,
        generation: 1,
    };
    Wait {
        process,
        kind: WaitKind::Receive,
        port,
        queue: port,
        identifier: 0,
        received: false,
    }
}

// A thread's row has this key. Answers the key of the row behind it on the chain of all waits.
fn behind(rt: &impl Abort, rows: &Slots<WaitRow>, key: Option<Key>, tid: u32) -> Option<Key> {
    let found = match key {
        Some(key) => rows.get(key),
        None => None,
    };
    match found {
        Some(row) => {
            assert!(rt; row.tid == tid);
            row.links.after
        }
        None => {
            assert!(rt; false);
            None
        }
    }
}

// Thread 8 waits longest, and then thread 4.
fn shows_waits(rt: &impl Abort, waits: &Waits) {
    let (rows, order) = waits.lent();
    let second = behind(rt, rows, order.front(), 8);
    assert!(rt; behind(rt, rows, second, 4).is_none());
}

#[test]
fn waits_are_lent_in_order(rt: HostRuntime) -> Result<(), Fail> {
    let mut waits = Waits::new(rt.alloc());
    waits.reserve(2)?;
    waits.add(8, receive(2));
    waits.add(4, receive(2));
    shows_waits(&rt, &waits);
    Ok(())
}

// The handles have the values 4 and 8, and name a and b.
fn shows_handles(rt: &impl Abort, table: &Table<u8>) {
    match table.rows() {
        [(first, one), (second, two)] => {
            assert!(rt; *first == 4 && *second == 8);
            assert!(rt; one.object == b'a' && two.object == b'b');
        }
        _ => assert!(rt; false),
    }
}

// An object gets a handle.
fn adds(table: &mut Table<u8>, object: u8) -> Result<(), Fail> {
    table.reserve(1)?;
    let _ = table.add(object, 1);
    Ok(())
}

#[test]
fn handles_are_lent_in_order(rt: HostRuntime) -> Result<(), Fail> {
    let mut table = Table::new(rt.alloc());
    adds(&mut table, b'a')?;
    adds(&mut table, b'b')?;
    shows_handles(&rt, &table);
    Ok(())
}

// The first part is of process 6, and has no handle and no view; the second is of process 2.
fn shows_parts(rt: &impl Abort, parts: &Parts) {
    match parts.items() {
        [one, two] => {
            assert!(rt; one.process == 6 && two.process == 2);
            assert!(rt; one.handles.rows().is_empty());
            assert!(rt; one.views.views().is_empty());
        }
        _ => assert!(rt; false),
    }
}

#[test]
fn parts_are_lent_in_order(rt: HostRuntime) -> Result<(), Fail> {
    let mut parts = Parts::new(rt.alloc());
    parts.reserve(2)?;
    parts.add(6);
    parts.add(2);
    shows_parts(&rt, &parts);
    Ok(())
}

// The name at a place is this, and is of this token.
fn shows_name(rt: &impl Abort, names: &TokenNames, place: usize, name: &[u8], token: &Token) {
    if place >= names.count() {
        assert!(rt; false);
        return;
    }
    let (found, of) = names.name_at(place);
    assert!(rt; found == name && *of == *token);
}

// A token gets a name, which no token has.
fn names_token(names: &mut TokenNames, name: &[u8], token: Token) -> Result<(), Fail>
    requires { length name.now ≤ TOKEN_NAME_LIMIT }
{
    names.reserve(1)?;
    if names.find(name).is_none() {
        names.add(name, token);
    }
    Ok(())
}

#[test]
fn token_names_are_read_in_order(rt: HostRuntime) -> Result<(), Fail> {
    let arena = TokenArena::new(rt.alloc());
    let mut names = TokenNames::new(rt.alloc(), &arena);
    names_token(&mut names, b"guest", guest())?;
    names_token(&mut names, b"admin", Token::system())?;
    shows_name(&rt, &names, 0, b"guest", &guest());
    shows_name(&rt, &names, 1, b"admin", &Token::system());
    Ok(())
}

// The path at a place is this.
fn shows_path(rt: &impl Abort, names: &Names<u32>, place: usize, path: &[u8]) {
    if place >= names.count() {
        assert!(rt; false);
        return;
    }
    let (found, _) = names.binding_at(place);
    assert!(rt; found == path);
}

// An item stands at the place.
fn shows_item(rt: &impl Abort, names: &Names<u32>, place: usize, item: u32) {
    if place >= names.count() {
        assert!(rt; false);
        return;
    }
    match names.binding_at(place).1 {
        Node::Stands(Found::Item(other)) => assert!(rt; *other == item),
        _ => assert!(rt; false),
    }
}

// A link to a path stands at the place.
fn shows_link(rt: &impl Abort, names: &Names<u32>, place: usize, path: &[u8]) {
    if place >= names.count() {
        assert!(rt; false);
        return;
    }
    match names.binding_at(place).1 {
        Node::Link(target) => assert!(rt; target.as_slice() == path),
        _ => assert!(rt; false),
    }
}

// An item and a link to it.
fn binds_two(rt: &impl Abort, names: &mut Names<u32>) {
    assert!(rt; names.bind(b"\\Port", 7).is_ok());
    assert!(rt; names.add_link(b"\\Link", b"\\Port").is_ok());
    shows_path(rt, names, 0, b"Port");
    shows_item(rt, names, 0, 7);
    shows_path(rt, names, 1, b"Link");
    shows_link(rt, names, 1, b"\\Port");
}

#[test]
fn bindings_are_read_in_order(rt: HostRuntime) -> Result<(), Fail> {
    let mut names = Names::new(rt.alloc());
    binds_two(&rt, &mut names);
    Ok(())
}

// Process 20 was made first, and its thread 24 behind thread 28.
fn shows_procs(rt: &impl Abort, procs: &Procs) {
    if procs.processes() != 1 || procs.threads() != 2 {
        assert!(rt; false);
        return;
    }
    assert!(rt; procs.process_at(0).number == 20);
    assert!(rt; procs.thread_at(0).number == 28);
    assert!(rt; procs.thread_at(1).number == 24);
}

#[test]
fn processes_and_threads_are_read_in_order(rt: HostRuntime) -> Result<(), Fail> {
    let guest = guest();
    let mut procs = Procs::new(rt.alloc());
    procs.reserve(1, 2)?;
    procs.add_process(20, None, made(20), &TokenRef::new(&guest));
    procs.add_thread(28, 20, made(28));
    procs.add_thread(24, 20, made(24));
    shows_procs(&rt, &procs);
    Ok(())
}

// The one port is this, and the one message stands in its queue with these bytes.
fn shows_ports(rt: &impl Abort, ports: &Ports, port: Key, bytes: &[u8]) {
    if ports.count() != 1 || ports.messages() != 1 {
        assert!(rt; false);
        return;
    }
    let (key, row) = ports.port_at(0);
    assert!(rt; key == port && row.birth == made(1));
    let (queue, message) = ports.message_at(0);
    assert!(rt; queue == port && message.bytes.as_slice() == bytes);
}

#[test]
#[tactic(auto, using(lpc_slots::proofs::Keys::key_itself))]
fn ports_and_messages_are_read_in_order(rt: HostRuntime) -> Result<(), Fail> {
    let mut ports = Ports::new(rt.alloc());
    ports.reserve(1, 1)?;
    let port = ports.add(PortKind::Unnamed, made(1), None);
    ports.send(port, port, 7, b"abc");
    shows_ports(&rt, &ports, port, b"abc");
    Ok(())
}
