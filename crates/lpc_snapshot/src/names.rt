// What the name space binds.
ghost use Rattle.std.specs.Prelude.{◌≡◌, ◌<◌, ◌≤◌, Some, length, slice_get, true, OnErr, vec_capacity};
ghost use Rattle.lpc_base.specs.Rows.{every};
ghost use Rattle.lpc_names.specs.Kept.{path_of, shown_node};
ghost use Rattle.lpc_names.specs.Path.{parts_of};
ghost use Rattle.lpc_rows.specs.Shown.{birth_of, node_refs, object_stands, shown_binding, shown_node as with_births};
ghost use Rattle.lpc_transcript.specs.Printing.{BeginsWith, LacksRoom, Puts};
ghost use Rattle.lpc_states.specs.Rows.{lines, name_row, node_text};
ghost use Rattle.lpc_states.specs.Values.{path_text};

use crate::counts::put_name_of;
use lpc_base::OutOfMemory;
use lpc_names::{Found, Node};
use lpc_slots::Key;
use lpc_states::put_name;
use lpc_transcript::put;
use lpc_world::{Object, World};

// A path, of which this is the text behind its first backslash.
#[tactic(auto, using(std::proofs::Common::append_assoc, lpc_transcript::proofs::Begins::begins_before, crate::proofs::Paths::parts_text))]
fn put_path(into: &mut Vec<u8>, text: &[u8]) -> Result<(), OutOfMemory>
    ensures ok { Puts into.old.items into.new.items (path_text (parts_of text.now)) result }
    ensures err { OnErr result (BeginsWith into.new.items into.old.items) }
    ensures capacity { vec_capacity into.old ≤ vec_capacity into.new }
    ensures wanting { OnErr result (LacksRoom into.old (path_text (parts_of text.now))) }
{
    put(into, b"\\\\")?;
    put_name(into, text)
}

// A path, of which this is the whole text; that of the root may be empty.
fn put_whole_path(into: &mut Vec<u8>, text: &[u8]) -> Result<(), OutOfMemory>
    ensures ok { Puts into.old.items into.new.items (path_text (path_of text.now)) result }
    ensures err { OnErr result (BeginsWith into.new.items into.old.items) }
    ensures capacity { vec_capacity into.old ≤ vec_capacity into.new }
    ensures wanting { OnErr result (LacksRoom into.old (path_text (path_of text.now))) }
{
    match text {
        [] => put(into, b"\\\\"),
        [_, behind @ ..] => put_path(into, behind),
    }
}

// What a name leads to.
#[tactic(auto, using(std::proofs::Common::append_assoc, lpc_transcript::proofs::Begins::begins_before))]
fn put_node(into: &mut Vec<u8>, world: &World, node: &Node<Key>) -> Result<(), OutOfMemory>
    requires { every (object_stands world.now.births) (node_refs (shown_node node.now)) ≡ true }
    ensures ok { Puts into.old.items into.new.items
        (node_text (with_births (birth_of world.now.births) (shown_node node.now))) result }
    ensures err { OnErr result (BeginsWith into.new.items into.old.items) }
    ensures capacity { vec_capacity into.old ≤ vec_capacity into.new }
    ensures wanting { OnErr result (LacksRoom into.old
        (node_text (with_births (birth_of world.now.births) (shown_node node.now)))) }
{
    match node {
        Node::Stands(Found::Directory) => put(into, b",\"is\":\"directory\""),
        Node::Stands(Found::Item(port)) => {
            put(into, b",\"is\":\"port\",\"port\":")?;
            put_name_of(into, world, Object::Port(*port))
        }
        Node::Link(target) => {
            put(into, b",\"is\":\"link\",\"target\":\"")?;
            put_whole_path(into, target.as_slice())?;
            put(into, b"\"")
        }
    }
}

fn put_binding(
    into: &mut Vec<u8>,
    world: &World,
    path: &[u8],
    node: &Node<Key>,
) -> Result<(), OutOfMemory>
    requires { every (object_stands world.now.births) (node_refs (shown_node node.now)) ≡ true }
    ensures ok { Puts into.old.items into.new.items
        (name_row (shown_binding (birth_of world.now.births)
        (parts_of path.now, shown_node node.now))) result }
    ensures err { OnErr result (BeginsWith into.new.items into.old.items) }
    ensures capacity { vec_capacity into.old ≤ vec_capacity into.new }
    ensures wanting { OnErr result (LacksRoom into.old
        (name_row (shown_binding (birth_of world.now.births)
        (parts_of path.now, shown_node node.now)))) }
{
    put(into, b"\"name ")?;
    put_path(into, path)?;
    put(into, b"\"")?;
    put_node(into, world, node)?;
    put(into, b"\n")
}

// The name at a place, in the order of binding.
fn binding_at<'a>(world: &'a World<'_>, place: usize) -> (&'a [u8], &'a Node<Key>)
    requires { place < length world.now.rows.bindings }
    ensures row { slice_get world.now.rows.bindings place
        ≡ Some (shown_binding (birth_of world.now.births)
        (parts_of result.0.now, shown_node result.1.now)) }
    ensures refs { let refs = node_refs (shown_node result.1.now) in
        every (object_stands world.now.births) refs ≡ true }
{
    world.names().binding_at(place)
}

/// The names, a line each.
pub(crate) fn put_names(into: &mut Vec<u8>, world: &World) -> Result<(), OutOfMemory>
    ensures ok { Puts into.old.items into.new.items
        (lines name_row world.now.rows.bindings) result }
    ensures err { OnErr result (BeginsWith into.new.items into.old.items) }
    ensures capacity { vec_capacity into.old ≤ vec_capacity into.new }
    ensures wanting { OnErr result (LacksRoom into.old (lines name_row world.now.rows.bindings)) }
{
    for place in 0..world.names().count() {
        let (path, node) = binding_at(world, place);
        put_binding(into, world, path, node)?;
    }
    Ok(())
}
