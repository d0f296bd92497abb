// The views of all processes.
ghost use Rattle.std.specs.Prelude.{◌≡◌, ◌≤◌, true, OnErr, vec_capacity};
ghost use Rattle.std.specs.List.{flat_map};
ghost use Rattle.lpc_base.specs.Rows.{every};
ghost use Rattle.lpc_rows.specs.Shown.{all_pass, birth_of, object_stands, shown_space, shown_view, space_refs, view_refs};
ghost use Rattle.lpc_transcript.specs.Printing.{BeginsWith, LacksRoom, Puts};
ghost use Rattle.lpc_states.specs.Rows.{lines, view_row};

use crate::counts::{port_birth, put_name_of_under};
use lpc_base::OutOfMemory;
use lpc_homes::Part;
use lpc_slots::Key;
use lpc_states::{put_decimal_under, put_flag_under, put_hex_under, put_port_or_null_under};
use lpc_transcript::{put, put_digits};
use lpc_views::View;
use lpc_world::{Object, World};

fn put_view(
    into: &mut Vec<u8>,
    world: &World,
    pid: u32,
    view: &View<Key>,
) -> Result<(), OutOfMemory>
    requires { every (object_stands world.now.births) (view_refs view.now) ≡ true }
    ensures ok { Puts into.old.items into.new.items
        (view_row pid (shown_view (birth_of world.now.births) view.now)) result }
    ensures err { OnErr result (BeginsWith into.new.items into.old.items) }
    ensures capacity { vec_capacity into.old ≤ vec_capacity into.new }
    ensures wanting { OnErr result (LacksRoom into.old
        (view_row pid (shown_view (birth_of world.now.births) view.now))) }
{
    put_decimal_under(into, b"\"view ", pid)?;
    put(into, b"/")?;
    put_digits(into, view.base)?;
    put_decimal_under(into, b"\",\"process\":", pid)?;
    put_hex_under(into, b",\"base\":", view.base)?;
    put_decimal_under(into, b",\"size\":", view.size)?;
    put_name_of_under(into, b",\"section\":", world, Object::Section(view.section))?;
    put_decimal_under(into, b",\"offset\":", view.offset)?;
    put_flag_under(into, b",\"writable\":", view.writable)?;
    put_port_or_null_under(into, b",\"owner\":", port_birth(world, view.owner))?;
    put(into, b"\n")
}

// The views of a process, a line each.
fn put_views_of(into: &mut Vec<u8>, world: &World, part: &Part) -> Result<(), OutOfMemory>
    requires { all_pass space_refs (object_stands world.now.births) part.now ≡ true }
    ensures ok { let shown = shown_space (birth_of world.now.births) part.now in
        Puts into.old.items into.new.items
        (lines (view_row shown.process) shown.rows) result }
    ensures err { OnErr result (BeginsWith into.new.items into.old.items) }
    ensures capacity { vec_capacity into.old ≤ vec_capacity into.new }
    ensures wanting { let shown = shown_space (birth_of world.now.births) part.now in
        OnErr result (LacksRoom into.old
        (lines (view_row shown.process) shown.rows)) }
{
    let views = part.views.views();
    for view in views {
        put_view(into, world, part.process, view)?;
    }
    Ok(())
}

/// The views, a line each, process by process.
pub(crate) fn put_views(into: &mut Vec<u8>, world: &World) -> Result<(), OutOfMemory>
    ensures ok { Puts into.old.items into.new.items
        (flat_map (λ t. lines (view_row t.process) t.rows) world.now.rows.views) result }
    ensures err { OnErr result (BeginsWith into.new.items into.old.items) }
    ensures capacity { vec_capacity into.old ≤ vec_capacity into.new }
    ensures wanting { OnErr result (LacksRoom into.old
        (flat_map (λ t. lines (view_row t.process) t.rows) world.now.rows.views)) }
{
    let parts = world.parts();
    for part in parts {
        put_views_of(into, world, part)?;
    }
    Ok(())
}
