// A process that ends: its handles are closed, and its views go.
ghost use Rattle.std.specs.Prelude.{◌≡◌, ◌≤◌, ◌+◌, true, IfSome, length, slice_get};
ghost use Rattle.lpc_base.specs.Rows.{has};
ghost use Rattle.lpc_closing.specs.Closing.{CanCloseAll};
ghost use Rattle.lpc_closing.specs.Process.{row_of};
ghost use Rattle.lpc_model.specs.Death.{end_process};
ghost use Rattle.lpc_model.specs.Found.{handles_of, is_table};
ghost use Rattle.lpc_rows.specs.Clauses.{Finds, has_process};
ghost use Rattle.lpc_rows.specs.Does.{Took};
ghost use Rattle.lpc_rows.specs.Capacity.{but_names};
ghost use Rattle.lpc_rows.specs.Kept.{CanMake};
ghost use Rattle.lpc_rows.specs.Shown.{object_stands};

use crate::close::close_handle;
use lpc_handles::Row;
use lpc_homes::Object;
use lpc_model::Entries;
use lpc_world::World;

/// Of the handles of a process the one of least value, with what it names and grants: None exactly where there is none.
fn first_handle(world: &World, pid: u32) -> Option<(u32, Row<Object>)>
    requires { has (is_table pid) world.now.rows.handles ≡ true }
    ensures handle { Finds result (row_of world.now)
        (slice_get (handles_of world.now.rows pid) 0) }
    ensures stands { IfSome result
        (λ handle. object_stands world.now.births handle.1.object ≡ true) }
{
    let value = world.handles(pid).first_from(0)?;
    let row = world.handle(pid, value)?;
    Some((value, row))
}

/// The debug port and the exception port of a process are let go, its handles are closed by rising value, each as
/// `NtClose` does it, and then its views go. It takes no memory, and makes no row but the messages that the closings of
/// ports owed.
pub fn end_process(world: &mut World, pid: u32, out: &mut Entries)
    requires process { has_process world.old.rows pid ≡ true }
    requires table { has (is_table pid) world.old.rows.handles ≡ true }
    requires can { CanCloseAll world.old.rows }
    requires spare { length world.old.rows.waits ≤ out.old.spare }
    requires budget { CanMake world.old }
    ensures takes { let steps = end_process pid world.old.rows in
        Took steps world.old world.new out.old out.new }
    ensures calls { world.new.calls ≡ world.old.calls }
    ensures capacity { but_names world.new.capacity ≡ but_names world.old.capacity }
    ensures made { world.new.made ≤ world.old.made }
    ensures spare { out.new.spare + length world.old.rows.waits
        ≡ out.old.spare + length world.new.rows.waits }
{
    world.procs_let_go(pid);
    while let Some((value, row)) = first_handle(world, pid) {
        close_handle(world, pid, value, row, out);
    }
    world.views_drop(pid);
}
