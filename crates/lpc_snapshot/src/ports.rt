// Ports.
ghost use Rattle.std.specs.Prelude.{◌≡◌, ◌<◌, ◌≤◌, Some, length, option_map, slice_get, true, OnErr, vec_capacity};
ghost use Rattle.lpc_rows.specs.Names.{name_of, stands};
ghost use Rattle.lpc_rows.specs.Shown.{all_pass, birth_of, object_stands, port_refs, shown_creator, shown_port};
ghost use Rattle.lpc_transcript.specs.Printing.{BeginsWith, LacksRoom, Puts};
ghost use Rattle.lpc_states.specs.Rows.{lines, port_row};
ghost use Rattle.lpc_states.specs.Values.{creator_text, or_null};

use crate::counts::{port_birth, put_counts};
use lpc_base::OutOfMemory;
use lpc_model::ObjectKind;
use lpc_ports::{Creator, Port};
use lpc_slots::Key;
use lpc_states::{
    put_decimal_under, put_flag_under, put_hex_under, put_object, put_port_kind,
    put_port_or_null_under, put_security,
};
use lpc_transcript::put;
use lpc_world::{Object, World};

// The connect that made a client port.
fn put_creator(into: &mut Vec<u8>, creator: Creator) -> Result<(), OutOfMemory>
    ensures ok { Puts into.old.items into.new.items (creator_text (shown_creator creator)) result }
    ensures err { OnErr result (BeginsWith into.new.items into.old.items) }
    ensures capacity { vec_capacity into.old ≤ vec_capacity into.new }
    ensures wanting { OnErr result (LacksRoom into.old (creator_text (shown_creator creator))) }
{
    put_decimal_under(into, b"{\"process\":", creator.client.process)?;
    put_decimal_under(into, b",\"thread\":", creator.client.thread)?;
    put_decimal_under(into, b",\"identifier\":", creator.message_id)?;
    put(into, b"}")
}

fn put_creator_or_null(into: &mut Vec<u8>, creator: Option<Creator>) -> Result<(), OutOfMemory>
    ensures ok { Puts into.old.items into.new.items
        (or_null creator_text (option_map shown_creator creator)) result }
    ensures err { OnErr result (BeginsWith into.new.items into.old.items) }
    ensures capacity { vec_capacity into.old ≤ vec_capacity into.new }
    ensures wanting { OnErr result (LacksRoom into.old
        (or_null creator_text (option_map shown_creator creator))) }
{
    match creator {
        Some(creator) => put_creator(into, creator),
        None => put(into, b"null"),
    }
}

fn put_port(into: &mut Vec<u8>, world: &World, key: Key, port: &Port<'_>) -> Result<(), OutOfMemory>
    requires stands { stands world.now.births.ports key ≡ true }
    requires name { name_of world.now.births.ports key ≡ (port.now).birth }
    requires refs { all_pass port_refs (object_stands world.now.births) (key, port.now) ≡ true }
    ensures ok { Puts into.old.items into.new.items
        (port_row world.now.rows (shown_port (birth_of world.now.births) (key, port.now))) result }
    ensures err { OnErr result (BeginsWith into.new.items into.old.items) }
    ensures capacity { vec_capacity into.old ≤ vec_capacity into.new }
    ensures wanting { OnErr result (LacksRoom into.old
        (port_row world.now.rows (shown_port (birth_of world.now.births) (key, port.now)))) }
{
    put_object(into, ObjectKind::Port, port.birth)?;
    put(into, b",\"kind\":")?;
    put_port_kind(into, port.kind)?;
    put_port_or_null_under(
        into,
        b",\"connection\":",
        port_birth(world, port.connection),
    )?;
    put_port_or_null_under(into, b",\"pair\":", port_birth(world, port.pair))?;
    put_hex_under(into, b",\"context\":", port.context)?;
    put_flag_under(into, b",\"completed\":", port.completed)?;
    put(into, b",\"creator\":")?;
    put_creator_or_null(into, port.creator)?;
    put(into, b",\"security\":")?;
    put_security(into, &port.security)?;
    put_counts(into, world, Object::Port(key))?;
    put(into, b"\n")
}

// The port at a place, in the order of making.
fn port_at<'a, 't>(world: &'a World<'t>, place: usize) -> (Key, &'a Port<'t>)
    requires { place < length world.now.rows.ports }
    ensures row { slice_get world.now.rows.ports place
        ≡ Some (shown_port (birth_of world.now.births) (result.0, result.1.now)) }
    ensures stands { stands world.now.births.ports result.0 ≡ true }
    ensures name { name_of world.now.births.ports result.0 ≡ (result.1.now).birth }
    ensures refs { all_pass port_refs (object_stands world.now.births)
        (result.0, result.1.now) ≡ true }
{
    world.ports().port_at(place)
}

/// The ports, a line each.
pub(crate) fn put_ports(into: &mut Vec<u8>, world: &World) -> Result<(), OutOfMemory>
    ensures ok { Puts into.old.items into.new.items
        (lines (port_row world.now.rows) world.now.rows.ports) result }
    ensures err { OnErr result (BeginsWith into.new.items into.old.items) }
    ensures capacity { vec_capacity into.old ≤ vec_capacity into.new }
    ensures wanting { OnErr result (LacksRoom into.old
        (lines (port_row world.now.rows) world.now.rows.ports)) }
{
    for place in 0..world.ports().count() {
        let (key, port) = port_at(world, place);
        put_port(into, world, key, port)?;
    }
    Ok(())
}
