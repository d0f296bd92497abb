// How an exception goes on whose event wasn't handled.
ghost use Rattle.std.specs.Prelude.{◌≡◌, ◌+◌, ◌*◌, ◌≤◌, Some, false, length, option_and_then, true};
ghost use Rattle.lpc_base.specs.Rows.{count, has};
ghost use Rattle.lpc_except.specs.Chances.{IsHeard, later_rows, shown_hearing};
ghost use Rattle.lpc_except.specs.Turns.{marked_turn};
ghost use Rattle.lpc_model.specs.Found.{is_live_thread, is_thread, wait_of, waits_as};
ghost use Rattle.lpc_model.specs.Listed.{Listed};
ghost use Rattle.lpc_model.specs.Raise as model;
ghost use Rattle.lpc_model.specs.SoundWaits.{IsSoundWorld};
ghost use Rattle.lpc_rows.specs.Callers.{shown_caller};
ghost use Rattle.lpc_rows.specs.Clauses.{has_process};
ghost use Rattle.lpc_rows.specs.Does.{Took};
ghost use Rattle.lpc_rows.specs.Kept.{CALL_BUDGET, has_queued, is_alive};
ghost use Rattle.lpc_rows.specs.Ready.{waiter};
ghost use Rattle.lpc_rows.specs.Shown.{shown_raised};

use crate::chances::{Hearing, Next, behind_chance};
use crate::events::send_event;
use lpc_base::status::SUCCESS;
use lpc_model::{Entries, Fields};
use lpc_procs::Caller;
use lpc_steps::wake;
use lpc_waits::Raised;
use lpc_world::World;

/// The event of a later chance is sent in place of the one with which a thread waits, of what that one owes.
fn send_next(world: &mut World, by: &Caller, raised: Raised, hearing: Hearing, out: &mut Entries)
    requires spare { 1 ≤ out.old.spare }
    requires thread { has (is_thread by.now.number) world.old.rows.threads ≡ true }
    requires live { has (is_live_thread by.now.number) world.old.rows.threads ≡ true }
    requires waits { has (waits_as by.now.number) world.old.rows.waits ≡ true }
    requires once { count (waits_as by.now.number) world.old.rows.waits ≤ 1 }
    requires left { has_queued world.old.rows by.now.number ≡ false }
    requires raised { option_and_then model.raised_in (wait_of world.old.rows by.now.number)
        ≡ Some (shown_raised raised) }
    requires heard { IsHeard world.old hearing }
    requires budget { world.old.made ≤ CALL_BUDGET * world.old.calls }
    requires later { later_rows hearing.chance + 3 ≤ later_rows raised.chance }
    ensures took { let x = waiter world.old.rows by.now.number in
        let steps = model.goes_on (shown_caller by.now) x (shown_raised raised)
        (model.Heard (shown_hearing world.old hearing)) world.old.rows in
        Took steps world.old world.new out.old out.new }
    ensures calls { world.new.calls ≡ world.old.calls }
    ensures capacity { world.new.capacity ≡ world.old.capacity }
    ensures made { world.new.made ≤ world.old.made }
    ensures entries { out.new.spare + length world.old.rows.waits
        ≡ out.old.spare + length world.new.rows.waits }
{
    world.waits_end(by.number);
    send_event(world, by, raised.code, raised.handled, hearing, out);
}

/// Nothing handles the exception of a thread: it waits no more, and its process is to end.
fn give_up(world: &mut World, by: &Caller, raised: Raised)
    requires process { has_process world.old.rows by.now.process ≡ true }
    requires waits { has (waits_as by.now.number) world.old.rows.waits ≡ true }
    requires once { count (waits_as by.now.number) world.old.rows.waits ≤ 1 }
    requires home { let x = waiter world.old.rows by.now.number in x.process ≡ by.now.process }
    requires left { has_queued world.old.rows by.now.number ≡ false }
    ensures took { let x = waiter world.old.rows by.now.number in
        let steps = model.goes_on (shown_caller by.now) x (shown_raised raised) model.Unhandled
        world.old.rows in
        (out : Listed) → Took steps world.old world.new out out }
    ensures calls { world.new.calls ≡ world.old.calls }
    ensures capacity { world.new.capacity ≡ world.old.capacity }
    ensures made { world.new.made ≤ world.old.made }
    ensures fewer { length world.new.rows.waits + 1 ≡ length world.old.rows.waits }
{
    world.waits_end(by.number);
    world.procs_doom(by.process, raised.code);
}

/// The exception of a thread whose event is marked goes on to its next chance.
fn go_on(world: &mut World, by: &Caller, raised: Raised, out: &mut Entries)
    requires spare { 1 ≤ out.old.spare }
    requires process { has_process world.old.rows by.now.process ≡ true }
    requires thread { has (is_thread by.now.number) world.old.rows.threads ≡ true }
    requires live { has (is_live_thread by.now.number) world.old.rows.threads ≡ true }
    requires waits { has (waits_as by.now.number) world.old.rows.waits ≡ true }
    requires once { count (waits_as by.now.number) world.old.rows.waits ≤ 1 }
    requires home { let x = waiter world.old.rows by.now.number in x.process ≡ by.now.process }
    requires left { has_queued world.old.rows by.now.number ≡ false }
    requires raised { option_and_then model.raised_in (wait_of world.old.rows by.now.number)
        ≡ Some (shown_raised raised) }
    requires budget { world.old.made ≤ CALL_BUDGET * world.old.calls }
    ensures took { let x = waiter world.old.rows by.now.number in
        let r = shown_raised raised in
        let next = model.behind_chance world.old.rows x.process r.handled r.chance in
        let steps = model.goes_on (shown_caller by.now) x r next world.old.rows in
        Took steps world.old world.new out.old out.new }
    ensures calls { world.new.calls ≡ world.old.calls }
    ensures capacity { world.new.capacity ≡ world.old.capacity }
    ensures made { world.new.made ≤ world.old.made }
    ensures spare { out.old.spare + length world.new.rows.waits
        ≤ out.new.spare + length world.old.rows.waits }
{
    match behind_chance(world, by.process, raised) {
        Next::Handled => wake(world, by.number, SUCCESS, Fields::none(), out),
        Next::Heard(hearing) => send_next(world, by, raised, hearing, out),
        Next::Unhandled => give_up(world, by, raised),
    }
}

/// The exception goes on whose event was marked first: to its frame handlers, which wake its thread where they handle
/// it, or to the next port, on which its event is sent. Where no chance is left, its thread waits no more, and the
/// process is to end. Nothing happens where no event is marked. It takes no memory.
pub fn next_chance(world: &mut World, out: &mut Entries)
    requires sound { IsSoundWorld world.old.rows }
    requires spare { length world.old.rows.waits ≤ out.old.spare }
    ensures took { Took (marked_turn world.old.rows) world.old world.new out.old out.new }
    ensures calls { world.new.calls ≡ world.old.calls }
    ensures capacity { world.new.capacity ≡ world.old.capacity }
    ensures made { world.new.made ≤ world.old.made }
    ensures lives { count is_alive world.new.rows.threads
        ≤ count is_alive world.old.rows.threads }
    ensures spare { out.old.spare + length world.new.rows.waits
        ≤ out.new.spare + length world.old.rows.waits }
{
    let Some(tid) = world.first_mark() else {
        return;
    };
    let Some(by) = world.live_thread(tid) else {
        return;
    };
    let Some(raised) = world.raised(tid) else {
        return;
    };
    go_on(world, &by, raised, out);
}
