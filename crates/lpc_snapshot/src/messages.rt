// Messages in queues.
ghost use Rattle.std.specs.Prelude.{◌≡◌, ◌<◌, ◌≤◌, decimal, Some, length, slice_get, true, OnErr, vec_capacity};
ghost use Rattle.lpc_rows.specs.Names.{stands};
ghost use Rattle.lpc_rows.specs.Shown.{pulled_row};
ghost use Rattle.lpc_transcript.specs.Printing.{BeginsWith, LacksRoom, Puts};
ghost use Rattle.lpc_states.specs.Rows.{lines, message_name, message_row};

use crate::counts::put_name_of_under;
use lpc_base::OutOfMemory;
use lpc_ports::Message;
use lpc_slots::Key;
use lpc_states::{header_in, put_birth, put_decimal_under, put_hex_under, put_message_fields};
use lpc_transcript::{put, put_number};
use lpc_world::{Object, World};

// The type of a message.
fn put_type(into: &mut Vec<u8>, kind: u16) -> Result<(), OutOfMemory>
    ensures ok { Puts into.old.items into.new.items (decimal kind) result }
    ensures err { OnErr result (BeginsWith into.new.items into.old.items) }
    ensures capacity { vec_capacity into.old ≤ vec_capacity into.new }
    ensures wanting { OnErr result (LacksRoom into.old (decimal kind)) }
{
    put_number(into, u64::from(kind))
}

// The name of a message: its queue, the port on which it was sent, the thread and the identifier that it names, and its
// type.
fn put_message_name(
    into: &mut Vec<u8>,
    world: &World,
    queue: Key,
    message: &Message,
) -> Result<(), OutOfMemory>
    requires queue { stands world.now.births.ports queue ≡ true }
    requires sender { stands world.now.births.ports (message.now).sender ≡ true }
    ensures ok { Puts into.old.items into.new.items
        (message_name (pulled_row world.now.births queue message.now)) result }
    ensures err { OnErr result (BeginsWith into.new.items into.old.items) }
    ensures capacity { vec_capacity into.old ≤ vec_capacity into.new }
    ensures wanting { OnErr result (LacksRoom into.old
        (message_name (pulled_row world.now.births queue message.now))) }
{
    let header = header_in(message.bytes.as_slice());
    put(into, b"\"message ")?;
    put_birth(into, world.birth_of(Object::Port(queue)))?;
    put(into, b" ")?;
    put_birth(into, world.birth_of(Object::Port(message.sender)))?;
    put_decimal_under(into, b" ", header.client.thread)?;
    put_decimal_under(into, b".", header.message_id)?;
    put(into, b" ")?;
    put_type(into, header.kind)?;
    put(into, b"\"")
}

fn put_message(
    into: &mut Vec<u8>,
    world: &World,
    queue: Key,
    message: &Message,
) -> Result<(), OutOfMemory>
    requires queue { stands world.now.births.ports queue ≡ true }
    requires sender { stands world.now.births.ports (message.now).sender ≡ true }
    ensures ok { Puts into.old.items into.new.items
        (message_row (pulled_row world.now.births queue message.now)) result }
    ensures err { OnErr result (BeginsWith into.new.items into.old.items) }
    ensures capacity { vec_capacity into.old ≤ vec_capacity into.new }
    ensures wanting { OnErr result (LacksRoom into.old
        (message_row (pulled_row world.now.births queue message.now))) }
{
    put_message_name(into, world, queue, message)?;
    put_name_of_under(into, b",\"queue\":", world, Object::Port(queue))?;
    put_name_of_under(into, b",\"sender\":", world, Object::Port(message.sender))?;
    put_hex_under(into, b",\"context\":", message.context)?;
    put(into, b",")?;
    put_message_fields(into, message.bytes.as_slice())?;
    put(into, b"\n")
}

// The message at a place, in the order of sending, and its queue.
fn message_at<'a>(world: &'a World<'_>, place: usize) -> (Key, &'a Message)
    requires { place < length world.now.rows.messages }
    ensures row { slice_get world.now.rows.messages place
        ≡ Some (pulled_row world.now.births result.0 result.1.now) }
    ensures queue { stands world.now.births.ports result.0 ≡ true }
    ensures sender { stands world.now.births.ports (result.1.now).sender ≡ true }
{
    world.ports().message_at(place)
}

/// The messages, a line each.
pub(crate) fn put_messages(into: &mut Vec<u8>, world: &World) -> Result<(), OutOfMemory>
    ensures ok { Puts into.old.items into.new.items
        (lines message_row world.now.rows.messages) result }
    ensures err { OnErr result (BeginsWith into.new.items into.old.items) }
    ensures capacity { vec_capacity into.old ≤ vec_capacity into.new }
    ensures wanting { OnErr result (LacksRoom into.old
        (lines message_row world.now.rows.messages)) }
{
    for place in 0..world.ports().messages() {
        let (queue, message) = message_at(world, place);
        put_message(into, world, queue, message)?;
    }
    Ok(())
}
