// The walks over the events when a port is closed: those are marked that are marked for one reason, in the order of
// sending.
ghost use Rattle.std.specs.Prelude.{◌≡◌, IfSome, false, true};
ghost use Rattle.lpc_base.specs.Rows.{has};
ghost use Rattle.lpc_model.specs.Close.{mark_event};
ghost use Rattle.lpc_model.specs.Found.{is_mark, waits_as};
ghost use Rattle.lpc_model.specs.Listed.{Listed};
ghost use Rattle.lpc_model.specs.Settle.{has_event};
ghost use Rattle.lpc_steps.specs.Marking.{mark_all, marks_at};
ghost use Rattle.lpc_rows.specs.Clauses.{FindsWait, birth_at};
ghost use Rattle.lpc_rows.specs.Closing.{HasMutualPairs};
ghost use Rattle.lpc_rows.specs.Does.{Took};
ghost use Rattle.lpc_rows.specs.Lawful.{are_single};
ghost use Rattle.lpc_rows.specs.Names.{stands};
ghost use Rattle.lpc_rows.specs.Ready.{waiter};

use crate::ending::across;
use lpc_slots::Key;
use lpc_world::World;

/// Why an event is marked as not handled when a port is closed.
#[derive(Clone, Copy)]
pub enum Marking {
    /// It was sent on the port.
    Sent,
    /// It is in the port's queue, and isn't received.
    Queued,
    /// It was sent on the port's other end.
    SentAcross,
}

/// The thread whose event is the next to be marked for this reason when the port is closed: of those that aren't marked
/// the one that was sent first.
fn next_to_mark(world: &World, port: Key, marking: Marking) -> Option<u32>
    requires port { stands world.now.births.ports port ≡ true }
    requires pairs { HasMutualPairs world.now.rows }
    ensures found { FindsWait world.now (marks_at world.now port marking) result }
    ensures waits { IfSome result (λ tid. has (waits_as tid) world.now.rows.waits ≡ true) }
    ensures event { IfSome result (λ tid. has_event world.now.rows tid ≡ true) }
    ensures unmarked { IfSome result (λ tid. has (is_mark tid) world.now.rows.marks ≡ false) }
    ensures single { are_single world.now.rows.waits ≡ true }
{
    if world.waits().count() == 0 {
        return None;
    }
    first_to_mark(world, port, marking)
}

/// Of the events that are marked for this reason when the port is closed, the thread whose event was sent first.
fn first_to_mark(world: &World, port: Key, marking: Marking) -> Option<u32>
    requires port { stands world.now.births.ports port ≡ true }
    requires pairs { HasMutualPairs world.now.rows }
    ensures found { FindsWait world.now (marks_at world.now port marking) result }
    ensures waits { IfSome result (λ tid. has (waits_as tid) world.now.rows.waits ≡ true) }
    ensures event { IfSome result (λ tid. has_event world.now.rows tid ≡ true) }
    ensures unmarked { IfSome result (λ tid. has (is_mark tid) world.now.rows.marks ≡ false) }
{
    match marking {
        Marking::Sent => world.event_on(port),
        Marking::Queued => world.unreceived_event_in(port),
        Marking::SentAcross => world.event_on(across(world, port)?),
    }
}

/// A thread's event is marked as not handled, and its message leaves its queue, where it still stands there.
fn mark(world: &mut World, tid: u32)
    requires waits { has (waits_as tid) world.old.rows.waits ≡ true }
    requires event { has_event world.old.rows tid ≡ true }
    requires unmarked { has (is_mark tid) world.old.rows.marks ≡ false }
    ensures took { let steps = mark_event (waiter world.old.rows tid) in
        (out : Listed) → Took steps world.old world.new out out }
    ensures births { world.new.births ≡ world.old.births }
    ensures calls { world.new.calls ≡ world.old.calls }
    ensures capacity { world.new.capacity ≡ world.old.capacity }
    ensures made { world.new.made ≡ world.old.made }
{
    world.messages_withdraw(tid);
    world.events_mark(tid);
}

/// All events are marked that are marked for this reason when the port is closed, in the order of sending.
pub fn mark_all(world: &mut World, port: Key, marking: Marking)
    requires port { stands world.old.births.ports port ≡ true }
    requires pairs { HasMutualPairs world.old.rows }
    ensures took { let steps = mark_all marking (birth_at world.old port) world.old.rows in
        (out : Listed) → Took steps world.old world.new out out }
    ensures ports { world.new.rows.ports ≡ world.old.rows.ports }
    ensures handles { world.new.rows.handles ≡ world.old.rows.handles }
    ensures waits { world.new.rows.waits ≡ world.old.rows.waits }
    ensures births { world.new.births ≡ world.old.births }
    ensures calls { world.new.calls ≡ world.old.calls }
    ensures capacity { world.new.capacity ≡ world.old.capacity }
    ensures made { world.new.made ≡ world.old.made }
{
    while let Some(tid) = next_to_mark(world, port, marking) {
        mark(world, tid);
    }
}
