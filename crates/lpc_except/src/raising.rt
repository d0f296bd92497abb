// The call that raises an exception.
ghost use Rattle.std.specs.Prelude.{◌≡◌, ◌+◌, ◌<◌, ◌≤◌, false, length, true};
ghost use Rattle.lpc_base.specs.Rows.{has};
ghost use Rattle.lpc_base.specs.declared.limits.TheConstants.{LINES_LIMIT};
ghost use Rattle.lpc_except.specs.Chances.{IsHeard, later_rows, shown_hearing};
ghost use Rattle.lpc_model.specs.Found.{is_live_thread, is_thread, waits_as};
ghost use Rattle.lpc_model.specs.Lines.{raise};
ghost use Rattle.lpc_model.specs.Raise as model;
ghost use Rattle.lpc_rows.specs.Called.{Served};
ghost use Rattle.lpc_rows.specs.Callers.{shown_caller};
ghost use Rattle.lpc_rows.specs.Does.{Took};
ghost use Rattle.lpc_rows.specs.Kept.{HasWholeBudget};
ghost use Rattle.lpc_rows.specs.Ready.{HasRoom, is_ready};
ghost use Rattle.lpc_steps.specs.Settling.{CanSettle};

use crate::chances::{Hearing, Next, from_first};
use crate::events::send_event;
use lpc_base::status::SUCCESS;
use lpc_model::{CallName, Entries, Entry, Fields, Outcome, identifier_field};
use lpc_procs::Caller;
use lpc_world::World;

/// The first event of an exception is sent, and its thread waits for what is made of it.
fn begin_event(
    world: &mut World,
    by: &Caller,
    code: u32,
    handled: bool,
    hearing: Hearing,
    out: &mut Entries,
)
    requires spare { 2 ≤ out.old.spare }
    requires heard { IsHeard world.old hearing }
    requires thread { has (is_thread by.now.number) world.old.rows.threads ≡ true }
    requires live { has (is_live_thread by.now.number) world.old.rows.threads ≡ true }
    requires ready { has (waits_as by.now.number) world.old.rows.waits ≡ false }
    requires budget { HasWholeBudget world.old }
    requires later { later_rows hearing.chance ≤ 6 }
    ensures took { let steps = model.raise_steps (shown_caller by.now) code handled
        (model.Heard (shown_hearing world.old hearing)) world.old.rows in
        Took steps world.old world.new out.old out.new }
    ensures calls { world.new.calls ≡ world.old.calls }
    ensures capacity { world.new.capacity ≡ world.old.capacity }
    ensures made { world.new.made ≤ world.old.made + 9 }
    ensures entries { out.new.spare + (length world.old.rows.waits + 2)
        ≡ out.old.spare + length world.new.rows.waits }
    ensures spare { out.old.spare ≤ out.new.spare + 2 }
{
    out.push(Entry::Waits {
        tid: by.number,
        call: CallName::Raise,
        fields: identifier_field(by.next_identifier),
    });
    send_event(world, by, code, handled, hearing, out);
}

/// `raise`: raises an exception. It has its chances in this order: at the debug port of the caller's process, at the
/// frame handlers, which handle it where `handled` says so, at the debug port again, and at the exception port. A port
/// is passed over where it isn't set or has no route; at the first that isn't, if it comes to that, an event is sent as
/// a request, and the thread waits for what is made of it. Where no chance is left, the process is to end with the
/// code, or, where it is already, with its first one.
///
/// It has no refusal, and takes no memory.
#[tactic(auto, unfolding(lpc_model::specs::Raise::raise_exception))]
pub fn raise(world: &mut World, by: u32, code: u32, handled: bool, out: &mut Entries) -> Outcome
    requires ready { is_ready world.old.rows by ≡ true }
    requires room { HasRoom world.old out.old }
    requires calls { world.old.calls < LINES_LIMIT }
    ensures served { let call = raise code handled in
        Served by call result world.old world.new out.old out.new }
    ensures settles { CanSettle world.new out.new }
    ensures spare { out.old.spare ≤ out.new.spare + 2 }
    ensures capacity { world.new.capacity ≡ world.old.capacity }
{
    let caller = world.caller(by);
    world.begin_call();
    match from_first(world, caller.process, handled) {
        Next::Handled => {
            out.push(Entry::Answer {
                tid: caller.number,
                call: CallName::Raise,
                status: SUCCESS,
                fields: Fields::none(),
            });
            Outcome::Answered(SUCCESS)
        }
        Next::Heard(hearing) => {
            begin_event(world, &caller, code, handled, hearing, out);
            Outcome::Waits
        }
        Next::Unhandled => {
            world.procs_doom(caller.process, code);
            Outcome::Gone
        }
    }
}
