// Ports are told of the ends of the threads that registered them.
ghost use Rattle.std.specs.Prelude.{◌≡◌, ◌≤◌, ◌<◌, ◌+◌, true, length};
ghost use Rattle.lpc_death.specs.Dying.{telling_all, telling_one, untold_message};
ghost use Rattle.lpc_model.specs.Deaths.{HasSingleRegistrations};
ghost use Rattle.lpc_rows.specs.Clauses.{birth_at};
ghost use Rattle.lpc_rows.specs.Does.{Took};
ghost use Rattle.lpc_rows.specs.Names.{stands};
ghost use Rattle.lpc_rows.specs.Registered.{death_shown, has_registered};

use lpc_closing::birth_message;
use lpc_message::kind;
use lpc_model::{Entries, Message};
use lpc_rows::Death;
use lpc_steps::{context, deliver, route};
use lpc_world::World;

/// The message that tells of a thread's end: it is in the thread's name, and names the thread by its birth.
fn died_message(death: &Death) -> Message
    ensures { result ≡ untold_message (death_shown death.now) }
{
    birth_message(kind::CLIENT_DIED, death.client, 0, death.birth)
}

/// That a thread has ended is posted on a port that it registered, where that is open and has a way. The registration
/// goes first, whose place for the message that is owed the message takes.
fn post_death(world: &mut World, death: &Death, out: &mut Entries)
    requires registered { let who = death.now.client.thread in
        has_registered world.old.rows who death.now.registered ≡ true }
    requires port { stands world.old.births.ports death.now.port ≡ true }
    requires name { birth_at world.old death.now.port ≡ death.now.registered }
    requires spare { 0 < length world.old.rows.waits → 1 ≤ out.old.spare }
    ensures took { let steps = telling_one (death_shown death.now) world.old.rows in
        Took steps world.old world.new out.old out.new }
    ensures births { world.new.births ≡ world.old.births }
    ensures calls { world.new.calls ≡ world.old.calls }
    ensures capacity { world.new.capacity ≡ world.old.capacity }
    ensures made { world.new.made ≤ world.old.made }
    ensures spare { out.new.spare + length world.old.rows.waits
        ≡ out.old.spare + length world.new.rows.waits }
{
    world.procs_unregister(death.client.thread, death.registered);
    if let Some(queue) = route(world, death.port) {
        let message = died_message(death);
        let context = context(world, death.port);
        deliver(world, queue, death.port, context, &message, out);
    }
}

/// Each port that a thread of the process registered, which has ended, is told of the end: thread by thread in the
/// order of making, and of each in the order of registration. It takes no memory, and makes no row but the messages
/// that the registrations owed.
pub(crate) fn tell_all(world: &mut World, pid: u32, out: &mut Entries)
    requires single { HasSingleRegistrations world.old.rows }
    requires spare { length world.old.rows.waits ≤ out.old.spare }
    ensures took { let steps = telling_all pid world.old.rows in
        Took steps world.old world.new out.old out.new }
    ensures births { world.new.births ≡ world.old.births }
    ensures calls { world.new.calls ≡ world.old.calls }
    ensures capacity { world.new.capacity ≡ world.old.capacity }
    ensures made { world.new.made ≤ world.old.made }
    ensures spare { out.new.spare + length world.old.rows.waits
        ≡ out.old.spare + length world.new.rows.waits }
{
    while let Some(death) = world.first_untold(pid) {
        post_death(world, &death, out);
    }
}
