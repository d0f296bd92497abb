// The ports that are told of a process's exceptions, an event and its mark, and a process that is to end. The expected
// values are written out by hand.
ghost use Rattle.std.specs.Prelude.{◌≡◌, ◌<◌, IfSome, true};
ghost use Rattle.lpc_rows.specs.Names.{stands};

use crate::common::{boots, can_call};
use crate::world::begins_with_a_port;
use lpc_base::status::SUCCESS;
use lpc_except::raise;
use lpc_machine::room_needed;
use lpc_model::{Entries, Outcome};
use lpc_slots::Key;
use lpc_tokens::TokenArena;
use lpc_waits::Chance;
use lpc_world::World;
use std::process::Abort;
use std::test::Fail;

// The ports that are told of exceptions of process 20.
fn hears(rt: &impl Abort, world: &World, debug: Option<Key>, exception: Option<Key>) {
    if !world.is_live(20) {
        return assert!(rt; false);
    }
    assert!(rt; world.event_port(20, Chance::FirstDebug) == debug);
    assert!(rt; world.event_port(20, Chance::LastDebug) == debug);
    assert!(rt; world.event_port(20, Chance::LastException) == exception);
}

// The port is the debug port of process 20.
fn gets_a_debug_port(rt: &impl Abort, world: &mut World, port: Key)
    requires stands { stands world.old.births.ports port ≡ true }
    ensures births { world.new.births ≡ world.old.births }
    ensures calls { world.new.calls ≡ world.old.calls }
{
    if !world.is_live(20) {
        return assert!(rt; false);
    }
    world.procs_set_debug_port(20, port);
}

// The port is the exception port of process 20.
fn gets_an_exception_port(rt: &impl Abort, world: &mut World, port: Key)
    requires stands { stands world.old.births.ports port ≡ true }
    ensures births { world.new.births ≡ world.old.births }
    ensures calls { world.new.calls ≡ world.old.calls }
{
    if !world.is_live(20) {
        return assert!(rt; false);
    }
    world.procs_set_exception_port(20, port);
}

// Process 20 lets both ports go.
fn lets_go(rt: &impl Abort, world: &mut World) {
    if !world.is_live(20) {
        return assert!(rt; false);
    }
    world.procs_let_go(20);
}

// Process 20 gets both ports, and lets them go.
fn hears_and_lets_go(rt: &impl Abort, world: &mut World) -> Result<(), Fail>
    requires few { world.old.calls < 1000 }
{
    let port = begins_with_a_port(rt, world)?;
    hears(rt, world, None, None);
    gets_a_debug_port(rt, world, port);
    hears(rt, world, Some(port), None);
    gets_an_exception_port(rt, world, port);
    hears(rt, world, Some(port), Some(port));
    lets_go(rt, world);
    hears(rt, world, None, None);
    Ok(())
}

#[test]
fn process_hears_exceptions_until_it_lets_both_ports_go(rt: HostRuntime) -> Result<(), Fail> {
    let arena = TokenArena::new(rt.alloc());
    let mut world = World::empty(rt.alloc(), &arena);
    hears_and_lets_go(&rt, &mut world)
}

// Thread 24 raises an exception of which an event is sent.
fn raises(rt: &impl Abort, world: &mut World, port: Key, out: &mut Entries) -> Result<(), Fail>
    requires few { world.old.calls < 1000 }
    requires stands { stands world.old.births.ports port ≡ true }
{
    gets_a_debug_port(rt, world, port);
    can_call(rt, world, 24);
    out.reserve(room_needed(world))?;
    assert!(rt; raise(world, 24, 5, false, out) == Outcome::Waits);
    Ok(())
}

// The port to which exceptions of process 20 are told first.
fn debug_port(world: &World) -> Option<Key>
    ensures stands { IfSome result (λ port. stands world.now.births.ports port ≡ true) }
{
    if world.is_live(20) {
        world.event_port(20, Chance::FirstDebug)
    } else {
        None
    }
}

// The event of thread 24 is found on the port and in its queue, and isn't marked.
fn finds_the_event(rt: &impl Abort, world: &World, port: Key)
    requires stands { stands world.now.births.ports port ≡ true }
{
    assert!(rt; world.event_on(port) == Some(24));
    assert!(rt; world.unreceived_event_in(port) == Some(24));
    assert!(rt; world.first_mark().is_none());
    let Some(raised) = world.raised(24) else {
        return assert!(rt; false);
    };
    assert!(rt; (raised.code, raised.handled) == (5, false));
    assert!(rt; matches!(raised.chance, Chance::FirstDebug));
}

// Its message leaves the queue, and it is marked.
fn marks_the_event(rt: &impl Abort, world: &mut World, port: Key)
    requires stands { stands world.old.births.ports port ≡ true }
    ensures births { world.new.births ≡ world.old.births }
{
    world.messages_withdraw(24);
    let Some(tid) = world.event_on(port) else {
        return assert!(rt; false);
    };
    if tid != 24 {
        return assert!(rt; false);
    }
    world.events_mark(24);
}

// Thread 24 raises, and its event is marked.
fn raises_and_marks(rt: &impl Abort, world: &mut World, out: &mut Entries) -> Result<(), Fail>
    requires few { world.old.calls < 100 }
{
    let port = begins_with_a_port(rt, world)?;
    raises(rt, world, port, out)?;
    let Some(port) = debug_port(world) else {
        return Ok(assert!(rt; false));
    };
    finds_the_event(rt, world, port);
    marks_the_event(rt, world, port);
    assert!(rt; world.first_mark() == Some(24));
    assert!(rt; world.event_on(port).is_none());
    assert!(rt; world.unreceived_event_in(port).is_none());
    Ok(())
}

#[test]
fn marked_event_is_on_no_port_and_in_no_queue(rt: HostRuntime) -> Result<(), Fail> {
    let alloc = rt.alloc();
    let arena = TokenArena::new(alloc);
    let mut world = World::empty(alloc, &arena);
    let mut out = Entries::new(alloc)?;
    raises_and_marks(&rt, &mut world, &mut out)
}

// Process 20 is to end with the code.
fn dooms(rt: &impl Abort, world: &mut World, code: u32) {
    if !world.is_live(20) {
        return assert!(rt; false);
    }
    world.procs_doom(20, code);
}

// Process 20 is to end with the first of two codes.
fn dooms_twice(rt: &impl Abort, world: &mut World) -> Result<(), Fail>
    requires few { world.old.calls < 1000 }
{
    boots(rt, world, 20, 24, SUCCESS)?;
    assert!(rt; world.least_doomed().is_none());
    dooms(rt, world, 7);
    dooms(rt, world, 8);
    let Some(doomed) = world.least_doomed() else {
        return Ok(assert!(rt; false));
    };
    assert!(rt; (doomed.number, doomed.code) == (20, 7));
    Ok(())
}

#[test]
fn process_is_to_end_with_its_first_code(rt: HostRuntime) -> Result<(), Fail> {
    let arena = TokenArena::new(rt.alloc());
    let mut world = World::empty(rt.alloc(), &arena);
    dooms_twice(&rt, &mut world)
}
