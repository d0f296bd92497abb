// The world settles behind a line's directive or call.
ghost use Rattle.std.specs.Prelude.{◌≡◌, ◌≤◌, ◌+◌, IfNone, IfSome, None, Some};
ghost use Rattle.lpc_death.specs.Dying.{ending_entries};
ghost use Rattle.lpc_machine.specs.Turning.{IsTurning, MaySettle, steps_of};
ghost use Rattle.lpc_model.specs.Settle.{settle, turn};
ghost use Rattle.lpc_rows.specs.Capacity.{but_names};
ghost use Rattle.lpc_rows.specs.Does.{Took};
ghost use Rattle.lpc_rows.specs.Kept.{CanMake};

use lpc_death::end_doomed;
use lpc_except::next_chance;
use lpc_model::Entries;
use lpc_world::World;

/// What is to be done next so that the world settles.
#[derive(Clone, Copy)]
pub enum Turn {
    /// The exception whose event was marked first goes on.
    Goes,
    /// The process that is to end and has the least number ends.
    Ends,
}

/// What is to be done next: None where no event is marked, and no live process is to end.
fn next_turn(world: &World) -> Option<Turn>
    ensures none { IfNone result (turn world.now.rows ≡ None) }
    ensures due { IfSome result
        (λ it. turn world.now.rows ≡ Some (steps_of it world.now.rows)) }
{
    if world.first_mark().is_some() {
        return Some(Turn::Goes);
    }
    if world.least_doomed().is_some() {
        return Some(Turn::Ends);
    }
    None
}

/// One turn of settling.
fn take_turn(world: &mut World, turn: Turn, out: &mut Entries)
    requires turning { IsTurning world.old.rows }
    requires spare { ending_entries world.old.rows ≤ out.old.spare }
    requires budget { CanMake world.old }
    ensures took { let steps = steps_of turn world.old.rows in
        Took steps world.old world.new out.old out.new }
    ensures calls { world.new.calls ≡ world.old.calls }
    ensures capacity { but_names world.new.capacity ≡ but_names world.old.capacity }
    ensures made { world.new.made ≤ world.old.made }
    ensures spare { out.old.spare + ending_entries world.new.rows
        ≤ out.new.spare + ending_entries world.old.rows }
{
    match turn {
        Turn::Goes => next_chance(world, out),
        Turn::Ends => end_doomed(world, out),
    }
}

/// The world settles: marked events go on in the order of marking, and where none is marked, the processes that are to
/// end do, that of the least number first.
pub(crate) fn settle(world: &mut World, out: &mut Entries)
    requires turning { IsTurning world.old.rows }
    requires settles { MaySettle world.old out.old }
    ensures took { Took (settle world.old.rows) world.old world.new out.old out.new }
    ensures calls { world.new.calls ≡ world.old.calls }
    ensures capacity { but_names world.new.capacity ≡ but_names world.old.capacity }
{
    while let Some(turn) = next_turn(world) {
        take_turn(world, turn, out);
    }
}
