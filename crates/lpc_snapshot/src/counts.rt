// What rows show of objects: their names, and how many rows count for them.
ghost use Rattle.std.specs.Prelude.{◌≡◌, ◌≤◌, ◌++◌, true, OnErr, vec_capacity};
ghost use Rattle.lpc_base.specs.Rows.{every};
ghost use Rattle.lpc_rows.specs.Clauses.{name_at};
ghost use Rattle.lpc_rows.specs.Shown.{birth_in, birth_of, kind_of, object_stands, ports_in};
ghost use Rattle.lpc_transcript.specs.Printing.{BeginsWith, LacksRoom, Puts};
ghost use Rattle.lpc_states.specs.Rows.{counts};
ghost use Rattle.lpc_states.specs.Values.{object_text};

use lpc_base::{Birth, OutOfMemory};
use lpc_model::ObjectKind;
use lpc_slots::Key;
use lpc_states::put_object;
use lpc_transcript::{put, put_number};
use lpc_world::{Object, World};

/// How many handles name an object, and how many rows count for it.
pub(crate) fn put_counts(
    into: &mut Vec<u8>,
    world: &World,
    object: Object,
) -> Result<(), OutOfMemory>
    requires { object_stands world.now.births object ≡ true }
    ensures ok { Puts into.old.items into.new.items
        (counts world.now.rows (name_at world.now object)) result }
    ensures err { OnErr result (BeginsWith into.new.items into.old.items) }
    ensures capacity { vec_capacity into.old ≤ vec_capacity into.new }
    ensures wanting { OnErr result (LacksRoom into.old
        (counts world.now.rows (name_at world.now object))) }
{
    put(into, b",\"handles\":")?;
    put_number(into, world.handles_to(object) as u64)?;
    put(into, b",\"pointers\":")?;
    put_number(into, world.pointers_to(object) as u64)
}

/// The birth of an optional port.
pub(crate) fn port_birth(world: &World, port: Option<Key>) -> Option<Birth>
    requires { every (object_stands world.now.births) (ports_in port) ≡ true }
    ensures { result ≡ birth_in (birth_of world.now.births) port }
{
    match port {
        Some(port) => Some(world.birth_of(Object::Port(port))),
        None => None,
    }
}

fn kind_of(object: Object) -> ObjectKind
    ensures { result ≡ kind_of object }
{
    match object {
        Object::Port(_) => ObjectKind::Port,
        Object::Process(_) => ObjectKind::Process,
        Object::Thread(_) => ObjectKind::Thread,
        Object::Section(_) => ObjectKind::Section,
        Object::Token(_) => ObjectKind::Token,
    }
}

/// The name of an object.
pub(crate) fn put_name_of(
    into: &mut Vec<u8>,
    world: &World,
    object: Object,
) -> Result<(), OutOfMemory>
    requires { object_stands world.now.births object ≡ true }
    ensures ok { Puts into.old.items into.new.items
        (object_text (name_at world.now object)) result }
    ensures err { OnErr result (BeginsWith into.new.items into.old.items) }
    ensures capacity { vec_capacity into.old ≤ vec_capacity into.new }
    ensures wanting { OnErr result (LacksRoom into.old (object_text (name_at world.now object))) }
{
    put_object(into, kind_of(object), world.birth_of(object))
}

/// A key, and the name of an object behind it.
#[tactic(auto, using(std::proofs::Common::append_assoc, lpc_transcript::proofs::Begins::begins_before))]
pub(crate) fn put_name_of_under(
    into: &mut Vec<u8>,
    key: &[u8],
    world: &World,
    object: Object,
) -> Result<(), OutOfMemory>
    requires { object_stands world.now.births object ≡ true }
    ensures ok { Puts into.old.items into.new.items
        (key.now ++ object_text (name_at world.now object)) result }
    ensures err { OnErr result (BeginsWith into.new.items into.old.items) }
    ensures capacity { vec_capacity into.old ≤ vec_capacity into.new }
    ensures wanting { OnErr result (LacksRoom into.old
        (key.now ++ object_text (name_at world.now object))) }
{
    put(into, key)?;
    put_name_of(into, world, object)
}
