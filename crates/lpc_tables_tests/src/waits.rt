// The waits, call by call, with ample memory.
ghost use Rattle.std.specs.Prelude.{IsSome};
ghost use Rattle.lpc_waits.specs.Table.{row_of};

use arrayvec::ArrayVec;
use lpc_slots::Key;
use lpc_waits::{Accepted, Chance, Raised, Wait, WaitKind, Waits};
use std::process::Abort;
use std::test::Fail;

fn key(generation: u64) -> Key {
    Key {
        index: 0,
        generation,
    }
}

fn wait(kind: WaitKind, identifier: u32) -> Wait {
    Wait {
        process: 2,
        kind,
        port: key(1),
        queue: key(2),
        identifier,
        received: false,
    }
}

// The wait is one of these, received or not.
fn is_wait(rt: &impl Abort, wait: Option<Wait>, kind: WaitKind, identifier: u32, received: bool) {
    let Some(wait) = wait else {
        assert!(rt; false);
        return;
    };
    assert!(rt; wait.process == 2 && wait.kind == kind);
    assert!(rt; wait.port == key(1) && wait.queue == key(2));
    assert!(rt; wait.identifier == identifier && wait.received == received);
}

// This thread takes what comes into queue 2.
fn takes(rt: &impl Abort, waits: &Waits, with_listens: bool, tid: Option<u32>) {
    assert!(rt; waits.first_on(key(2), with_listens) == tid);
}

// Thread 4 waits with this message.
fn keeps(rt: &impl Abort, waits: &Waits, message: &[u8])
    requires { IsSome (row_of waits.now 4) }
{
    assert!(rt; waits.message(4) == message);
}

#[test]
fn request_keeps_its_message_and_is_received(rt: HostRuntime) -> Result<(), Fail> {
    let mut waits = Waits::new(rt.alloc());
    waits.reserve(1)?;
    waits.add(4, wait(WaitKind::Request, 7));
    keeps(&rt, &waits, b"");
    waits.set_message(4, b"abc");
    keeps(&rt, &waits, b"abc");
    waits.receive(4);
    is_wait(&rt, waits.of(4).copied(), WaitKind::Request, 7, true);
    Ok(())
}

// Threads 4 and 6 wait on queue 2: a request and a receive, which ends.
fn receive_ends(rt: &impl Abort, waits: &mut Waits) {
    takes(rt, waits, false, Some(6));
    is_wait(rt, waits.of(4).copied(), WaitKind::Request, 7, false);
    assert!(rt; waits.of(7).is_none() && waits.count() == 2);
    is_wait(rt, waits.end(6), WaitKind::Receive, 0, false);
    assert!(rt; waits.end(6).is_none());
    takes(rt, waits, true, None);
}

#[test]
fn waits_begin_change_and_end(rt: HostRuntime) -> Result<(), Fail> {
    let mut waits = Waits::new(rt.alloc());
    waits.reserve(3)?;
    waits.add(4, wait(WaitKind::Request, 7));
    waits.add(5, wait(WaitKind::Receive, 0));
    waits.add(6, wait(WaitKind::Receive, 0));
    takes(&rt, &waits, false, Some(5));
    is_wait(&rt, waits.end(5), WaitKind::Receive, 0, false);
    receive_ends(&rt, &mut waits);
    Ok(())
}

// Thread 5 listens, and then thread 6 receives.
fn listen_ends(rt: &impl Abort, waits: &mut Waits) {
    takes(rt, waits, false, Some(6));
    takes(rt, waits, true, Some(5));
    assert!(rt; waits.receiver_at(key(2)) == Some(5) && waits.receive_on(key(1)) == Some(6));
    is_wait(rt, waits.end(5), WaitKind::Listen, 0, false);
    takes(rt, waits, true, Some(6));
}

#[test]
fn listens_take_where_they_count(rt: HostRuntime) -> Result<(), Fail> {
    let mut waits = Waits::new(rt.alloc());
    waits.reserve(3)?;
    waits.add(4, wait(WaitKind::Connect, 7));
    waits.add(5, wait(WaitKind::Listen, 0));
    takes(&rt, &waits, false, None);
    waits.add(6, wait(WaitKind::Receive, 0));
    listen_ends(&rt, &mut waits);
    Ok(())
}

// The connect of thread 4, on port 1, is the one that is found as accepted there, or none is.
fn accepted_is_found_by_port(rt: &impl Abort, waits: &Waits, accepted: bool) {
    assert!(rt; waits.accepted_on(key(1)).is_some() == accepted);
    assert!(rt; waits.accepted_on(key(1)).unwrap_or(4) == 4);
    assert!(rt; waits.accepted_on(key(2)).is_none());
    assert!(rt; waits.accepted_port(4) == if accepted { Some(key(1)) } else { None });
    assert!(rt; waits.accepted_port(5).is_none());
}

// The connect of thread 4 is found as accepted by both ends of its connection, ports 3 and 1, or none is. In queue 2
// the first connect is found that isn't accepted.
fn accepted_is_found_by_pair(rt: &impl Abort, waits: &Waits, accepted: bool) {
    assert!(rt; waits.accepted_at(key(3), Some(key(1))) == if accepted { Some(4) } else { None });
    assert!(rt; waits.accepted_at(key(3), None).is_none());
    assert!(rt; waits.offered_to(key(2)) == Some(if accepted { 5 } else { 4 }));
    assert!(rt; waits.offered_to(key(1)).is_none());
}

// What a connect is accepted with: one byte, and a place where the server sees what it offered.
fn accepted() -> Accepted {
    let mut reply = ArrayVec::new();
    reply.push(65);
    Accepted {
        reply,
        target: Some(0x10000),
        vbase: None,
        vsize: None,
    }
}

// The connect of thread 4 is accepted with one byte or isn't, and that of thread 5 isn't.
fn fourth_is_accepted(rt: &impl Abort, waits: &Waits, accepted: bool)
    requires fourth { IsSome (row_of waits.now 4) }
    requires fifth { IsSome (row_of waits.now 5) }
{
    match waits.accepted(4) {
        Some(with) => assert!(rt;
            accepted && with.reply.len() == 1 && with.target == Some(0x10000)
        ),
        None => assert!(rt; !accepted),
    }
    assert!(rt; waits.accepted(5).is_none());
    accepted_is_found_by_port(rt, waits, accepted);
    accepted_is_found_by_pair(rt, waits, accepted);
}

#[test]
fn connects_keep_what_they_are_accepted_with(rt: HostRuntime) -> Result<(), Fail> {
    let mut waits = Waits::new(rt.alloc());
    waits.reserve(2)?;
    waits.add(4, wait(WaitKind::Connect, 7));
    waits.add(5, wait(WaitKind::Connect, 1));
    fourth_is_accepted(&rt, &waits, false);
    waits.set_accepted(4, Some(accepted()));
    fourth_is_accepted(&rt, &waits, true);
    waits.set_accepted(4, None);
    fourth_is_accepted(&rt, &waits, false);
    Ok(())
}

// Which of the ports 1, 2 and 3 are named.
fn names(rt: &impl Abort, waits: &Waits, first: bool, second: bool, third: bool) {
    assert!(rt; waits.is_named(key(1)) == first);
    assert!(rt; waits.is_named(key(2)) == second);
    assert!(rt; waits.is_named(key(3)) == third);
}

#[test]
fn waits_name_their_ports(rt: HostRuntime) -> Result<(), Fail> {
    let mut waits = Waits::new(rt.alloc());
    waits.reserve(1)?;
    names(&rt, &waits, false, false, false);
    waits.add(4, wait(WaitKind::Request, 7));
    names(&rt, &waits, true, true, false);
    Ok(())
}

// Thread 5 receives on port 1, from queue 2.
fn receive_is_found(rt: &impl Abort, waits: &Waits) {
    assert!(rt; waits.receiver_at(key(1)) == Some(5) && waits.receiver_at(key(2)) == Some(5));
    assert!(rt; waits.receive_on(key(1)) == Some(5) && waits.receive_on(key(2)) == None);
    assert!(rt; waits.made_on(key(1)) == 2 && waits.made_on(key(2)) == 0);
}

// Thread 4 waits with a request that was sent on port 1 into queue 2, and is received or not.
fn request_is_found(rt: &impl Abort, waits: &Waits, unreceived: Option<u32>) {
    assert!(rt; waits.request_on(key(1)) == Some(4) && waits.request_on(key(2)) == None);
    assert!(rt; waits.unreceived_request_in(key(2)) == unreceived);
    assert!(rt; waits.unreceived_request_in(key(1)) == None);
}

// A request and a receive are found apart, and the request also when it is received.
fn waits_are_found(rt: &impl Abort, waits: &mut Waits)
    requires { IsSome (row_of waits.now 4) }
{
    receive_is_found(rt, waits);
    request_is_found(rt, waits, Some(4));
    waits.receive(4);
    request_is_found(rt, waits, None);
}

#[test]
fn waits_are_found_by_port_and_queue(rt: HostRuntime) -> Result<(), Fail> {
    let mut waits = Waits::new(rt.alloc());
    waits.reserve(2)?;
    waits.add(4, wait(WaitKind::Request, 7));
    waits.add(5, wait(WaitKind::Receive, 0));
    waits_are_found(&rt, &mut waits);
    Ok(())
}

// An exception at its first chance.
fn raised(code: u32) -> Raised {
    Raised {
        code,
        handled: false,
        chance: Chance::FirstDebug,
    }
}

// The first event that was sent on port 1, and the first in queue 2 that isn't received, but for the marked ones.
fn event_is_found(
    rt: &impl Abort,
    waits: &Waits,
    marks: &[u32],
    sent: Option<u32>,
    unreceived: Option<u32>,
) {
    assert!(rt; waits.event_on(key(1), marks) == sent && waits.event_on(key(2), marks) == None);
    assert!(rt; waits.unreceived_event_in(key(2), marks) == unreceived);
    assert!(rt; waits.unreceived_event_in(key(1), marks) == None);
}

// Threads 4 and 5 wait for what is made of their events, which were sent on port 1 into queue 2.
fn events_are_found(rt: &impl Abort, waits: &mut Waits)
    requires { IsSome (row_of waits.now 4) }
{
    event_is_found(rt, waits, &[], Some(4), Some(4));
    event_is_found(rt, waits, &[6, 4], Some(5), Some(5));
    event_is_found(rt, waits, &[5, 4], None, None);
    waits.receive(4);
    event_is_found(rt, waits, &[], Some(4), Some(5));
}

// They are no requests, and name their ports as these do. Thread 6 waits for none.
fn events_are_waits(rt: &impl Abort, waits: &Waits) {
    assert!(rt; waits.request_on(key(1)) == None && waits.unreceived_request_in(key(2)) == None);
    assert!(rt; waits.made_on(key(1)) == 3 && waits.is_named(key(2)));
    assert!(rt; waits.raised(5) == Some(raised(8)) && waits.raised(6) == None);
}

#[test]
fn events_are_found_until_they_are_marked(rt: HostRuntime) -> Result<(), Fail> {
    let mut waits = Waits::new(rt.alloc());
    waits.reserve(3)?;
    waits.add(4, wait(WaitKind::Event(raised(7)), 1));
    waits.add(5, wait(WaitKind::Event(raised(8)), 1));
    waits.add(6, wait(WaitKind::Receive, 0));
    events_are_waits(&rt, &waits);
    events_are_found(&rt, &mut waits);
    Ok(())
}
