// A datagram, and a request with its receipt and its reply, with ample memory. The entries are written out by hand.
ghost use Rattle.std.specs.Prelude.{◌≡◌, ◌≤◌, ◌<◌, ◌+◌, true, OnOk};
ghost use Rattle.lpc_base.specs.declared.limits.TheConstants.{LINES_LIMIT};
ghost use Rattle.lpc_rows.specs.Names.{stands};
ghost use Rattle.lpc_rows.specs.Ready.{HasRoom, is_ready};

use crate::common::{GIVEN, boots, can_call, makes_a_port, one, threads};
use arrayvec::ArrayVec;
use lpc_base::PortKind;
use lpc_base::status::{REPLY_MESSAGE_MISMATCH, SUCCESS};
use lpc_machine::room_needed;
use lpc_model::{CallName, Entries, Entry, FieldName, Fields, Outcome, Value};
use lpc_request::{
    nt_reply_port, nt_reply_wait_receive_port, nt_request_port, nt_request_wait_reply_port,
};
use lpc_slots::Key;
use lpc_steps::{give_handle, handles_test};
use lpc_tokens::TokenArena;
use lpc_world::{Object, World};
use std::process::Abort;
use std::test::Fail;

// The message that is given, as a datagram of thread 24 of process 20, with identifier 1.
const DATAGRAM: [u8; 26] = [
    2, 0, 26, 0, 3, 0, 0, 0, 20, 0, 0, 0, 24, 0, 0, 0, 1, 0, 0, 0, 0, 0, 0, 0, 0x41, 0x42,
];

// The same as a request of that thread, with identifier 2.
const REQUEST: [u8; 26] = [
    2, 0, 26, 0, 1, 0, 0, 0, 20, 0, 0, 0, 24, 0, 0, 0, 2, 0, 0, 0, 0, 0, 0, 0, 0x41, 0x42,
];

// One byte of data in reply to that request.
const REPLY: [u8; 25] = [
    1, 0, 25, 0, 2, 0, 0, 0, 20, 0, 0, 0, 24, 0, 0, 0, 2, 0, 0, 0, 0, 0, 0, 0, 0x43,
];

// The fields of a message that is received without a context.
fn received(message: &[u8; 26]) -> Result<Fields, Fail> {
    let mut fields = one(FieldName::Ctx, Value::Hex(0));
    let bytes = ArrayVec::try_from(message.as_slice())?;
    fields.add(FieldName::Msg, Value::Bytes(bytes));
    Ok(fields)
}

// There is room for what one call tells, and nothing is told yet.
fn makes_room(world: &World, out: &mut Entries) -> Result<(), Fail>
    ensures { OnOk result (HasRoom world.now out.new) }
{
    out.clear();
    out.reserve(room_needed(world))?;
    Ok(())
}

// The call tells this entry at a place.
fn tells(rt: &impl Abort, out: &Entries, place: usize, entry: Entry) {
    let Some(told) = out.list().get(place) else {
        return assert!(rt; false);
    };
    assert!(rt; *told == entry);
}

// Process 20 begins, with threads 24 and 28.
fn begins_with_threads(rt: &impl Abort, world: &mut World) -> Result<(), Fail>
    requires few { world.old.calls < 1000 }
    ensures calls { world.new.calls ≤ world.old.calls + 2 }
{
    boots(rt, world, 20, 24, SUCCESS)?;
    threads(rt, world, 28, 20, SUCCESS)
}

// The process of thread 24 gets a handle of the port, its first.
fn gets_a_handle(rt: &impl Abort, world: &mut World, port: Key) -> Result<(), Fail>
    requires few { world.old.calls < LINES_LIMIT }
    requires ready { is_ready world.old.rows 24 ≡ true }
    requires stands { stands world.old.births.ports port ≡ true }
    ensures calls { world.new.calls ≤ world.old.calls + 1 }
{
    let by = world.caller(24);
    world.handles_reserve(by.process, 1)?;
    let Ok(()) = handles_test(world, by.process, 1) else {
        return Ok(assert!(rt; false));
    };
    world.begin_call();
    let value = give_handle(world, by.process, Object::Port(port), 1);
    assert!(rt; value == 4);
    Ok(())
}

// A process with two threads and a port.
fn begins(rt: &impl Abort, world: &mut World) -> Result<(), Fail>
    requires few { world.old.calls < 1000 }
    ensures calls { world.new.calls ≤ world.old.calls + 4 }
{
    begins_with_threads(rt, world)?;
    can_call(rt, world, 24);
    let port = makes_a_port(world, PortKind::Unnamed, None)?;
    can_call(rt, world, 24);
    gets_a_handle(rt, world, port)
}

// Thread 24 sends a datagram to its own port.
fn sends(rt: &impl Abort, world: &mut World, out: &mut Entries) -> Result<(), Fail>
    requires few { world.old.calls < LINES_LIMIT }
    ensures calls { world.new.calls ≤ world.old.calls + 1 }
{
    can_call(rt, world, 24);
    makes_room(world, out)?;
    let outcome = nt_request_port(world, 24, 4, &GIVEN, out)?;
    assert!(rt; outcome == Outcome::Answered(SUCCESS));
    let answer = Entry::Answer {
        tid: 24,
        call: CallName::NtRequestPort,
        status: SUCCESS,
        fields: one(FieldName::Id, Value::Number(1)),
    };
    tells(rt, out, 0, answer);
    Ok(())
}

// Thread 24 asks, as its second message, and waits.
fn asks(rt: &impl Abort, world: &mut World, out: &mut Entries) -> Result<(), Fail>
    requires few { world.old.calls < LINES_LIMIT }
    ensures calls { world.new.calls ≤ world.old.calls + 1 }
{
    can_call(rt, world, 24);
    makes_room(world, out)?;
    let outcome = nt_request_wait_reply_port(world, 24, 4, &GIVEN, out);
    assert!(rt; outcome == Outcome::Waits);
    let waits = Entry::Waits {
        tid: 24,
        call: CallName::NtRequestWaitReplyPort,
        fields: one(FieldName::Id, Value::Number(2)),
    };
    tells(rt, out, 0, waits);
    Ok(())
}

// Thread 28 takes the message.
fn receives(
    rt: &impl Abort,
    world: &mut World,
    out: &mut Entries,
    message: &[u8; 26],
) -> Result<(), Fail>
    requires few { world.old.calls < LINES_LIMIT }
    ensures calls { world.new.calls ≤ world.old.calls + 1 }
{
    can_call(rt, world, 28);
    makes_room(world, out)?;
    let outcome = nt_reply_wait_receive_port(world, 28, 4, None, out);
    assert!(rt; outcome == Outcome::Answered(SUCCESS));
    let answer = Entry::Answer {
        tid: 28,
        call: CallName::NtReplyWaitReceivePort,
        status: SUCCESS,
        fields: received(message)?,
    };
    tells(rt, out, 0, answer);
    Ok(())
}

// Thread 24 wakes with the reply.
fn wakes(rt: &impl Abort, out: &Entries) -> Result<(), Fail> {
    let bytes = ArrayVec::try_from(REPLY.as_slice())?;
    let wake = Entry::Wakes {
        tid: 24,
        call: CallName::NtRequestWaitReplyPort,
        status: SUCCESS,
        fields: one(FieldName::Msg, Value::Bytes(bytes)),
    };
    tells(rt, out, 1, wake);
    Ok(())
}

// Thread 28 replies, and thread 24 wakes.
fn replies(rt: &impl Abort, world: &mut World, out: &mut Entries) -> Result<(), Fail>
    requires few { world.old.calls < LINES_LIMIT }
    ensures calls { world.new.calls ≤ world.old.calls + 1 }
{
    can_call(rt, world, 28);
    makes_room(world, out)?;
    nt_reply_port(world, 28, 4, &REPLY, out);
    let answer = Entry::Answer {
        tid: 28,
        call: CallName::NtReplyPort,
        status: SUCCESS,
        fields: Fields::none(),
    };
    tells(rt, out, 0, answer);
    wakes(rt, out)
}

// The same reply fits nothing any more.
fn is_refused(rt: &impl Abort, world: &mut World, out: &mut Entries) -> Result<(), Fail>
    requires few { world.old.calls < LINES_LIMIT }
{
    can_call(rt, world, 28);
    makes_room(world, out)?;
    let again = nt_reply_wait_receive_port(world, 28, 4, Some(&REPLY), out);
    assert!(rt; again == Outcome::Answered(REPLY_MESSAGE_MISMATCH));
    Ok(())
}

// A datagram is sent and received.
fn sends_and_receives(rt: &impl Abort, world: &mut World, out: &mut Entries) -> Result<(), Fail>
    requires few { world.old.calls < 1000 }
    ensures calls { world.new.calls ≤ world.old.calls + 6 }
{
    begins(rt, world)?;
    sends(rt, world, out)?;
    receives(rt, world, out, &DATAGRAM)
}

#[test]
fn datagram_is_received(rt: HostRuntime) -> Result<(), Fail> {
    let alloc = rt.alloc();
    let arena = TokenArena::new(alloc);
    let mut world = World::empty(alloc, &arena);
    let mut out = Entries::new(alloc)?;
    sends_and_receives(&rt, &mut world, &mut out)
}

// A datagram is received, and then a request, which is replied to.
fn asks_and_replies(rt: &impl Abort, world: &mut World, out: &mut Entries) -> Result<(), Fail>
    requires few { world.old.calls < 1000 }
{
    sends_and_receives(rt, world, out)?;
    asks(rt, world, out)?;
    receives(rt, world, out, &REQUEST)?;
    replies(rt, world, out)?;
    is_refused(rt, world, out)
}

#[test]
fn request_returns_by_its_reply(rt: HostRuntime) -> Result<(), Fail> {
    let alloc = rt.alloc();
    let arena = TokenArena::new(alloc);
    let mut world = World::empty(alloc, &arena);
    let mut out = Entries::new(alloc)?;
    asks_and_replies(&rt, &mut world, &mut out)
}
