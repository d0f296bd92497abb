// The handles of all processes.
ghost use Rattle.std.specs.Prelude.{◌≡◌, ◌≤◌, true, OnErr, vec_capacity};
ghost use Rattle.std.specs.List.{flat_map};
ghost use Rattle.lpc_rows.specs.Shown.{all_pass, birth_of, object_stands, part_refs, shown_handle, shown_part};
ghost use Rattle.lpc_transcript.specs.Printing.{BeginsWith, LacksRoom, Puts};
ghost use Rattle.lpc_states.specs.Rows.{handle_row, lines};

use crate::counts::put_name_of_under;
use lpc_base::OutOfMemory;
use lpc_handles::Row;
use lpc_homes::Part;
use lpc_states::{put_decimal_under, put_hex_under};
use lpc_transcript::put;
use lpc_world::{Object, World};

fn put_handle(
    into: &mut Vec<u8>,
    world: &World,
    pid: u32,
    value: u32,
    row: Row<Object>,
) -> Result<(), OutOfMemory>
    requires { object_stands world.now.births row.object ≡ true }
    ensures ok { Puts into.old.items into.new.items
        (handle_row pid (shown_handle (birth_of world.now.births) (value, row))) result }
    ensures err { OnErr result (BeginsWith into.new.items into.old.items) }
    ensures capacity { vec_capacity into.old ≤ vec_capacity into.new }
    ensures wanting { OnErr result (LacksRoom into.old
        (handle_row pid (shown_handle (birth_of world.now.births) (value, row)))) }
{
    put_decimal_under(into, b"\"handle ", pid)?;
    put_decimal_under(into, b"/", value)?;
    put_decimal_under(into, b"\",\"process\":", pid)?;
    put_decimal_under(into, b",\"value\":", value)?;
    put_name_of_under(into, b",\"object\":", world, row.object)?;
    put_hex_under(into, b",\"access\":", row.access)?;
    put(into, b"\n")
}

// The handles of a process, a line each.
fn put_handles_of(into: &mut Vec<u8>, world: &World, part: &Part) -> Result<(), OutOfMemory>
    requires { all_pass part_refs (object_stands world.now.births) part.now ≡ true }
    ensures ok { let shown = shown_part (birth_of world.now.births) part.now in
        Puts into.old.items into.new.items
        (lines (handle_row shown.process) shown.rows) result }
    ensures err { OnErr result (BeginsWith into.new.items into.old.items) }
    ensures capacity { vec_capacity into.old ≤ vec_capacity into.new }
    ensures wanting { let shown = shown_part (birth_of world.now.births) part.now in
        OnErr result (LacksRoom into.old
        (lines (handle_row shown.process) shown.rows)) }
{
    let rows = part.handles.rows();
    for (value, row) in rows {
        put_handle(into, world, part.process, *value, *row)?;
    }
    Ok(())
}

/// The handles, a line each, process by process.
pub(crate) fn put_handles(into: &mut Vec<u8>, world: &World) -> Result<(), OutOfMemory>
    ensures ok { Puts into.old.items into.new.items
        (flat_map (λ t. lines (handle_row t.process) t.rows) world.now.rows.handles) result }
    ensures err { OnErr result (BeginsWith into.new.items into.old.items) }
    ensures capacity { vec_capacity into.old ≤ vec_capacity into.new }
    ensures wanting { OnErr result (LacksRoom into.old
        (flat_map (λ t. lines (handle_row t.process) t.rows) world.now.rows.handles)) }
{
    let parts = world.parts();
    for part in parts {
        put_handles_of(into, world, part)?;
    }
    Ok(())
}
