// What is read of the world: whether a thread can make a call, the room for entries, and how many objects there are.
ghost use Rattle.std.specs.Prelude.{◌≡◌};
ghost use Rattle.lpc_machine.specs.Condition.{condition_of};
ghost use Rattle.lpc_model.specs.Found as found;
ghost use Rattle.lpc_rows.specs.Ready as ready;

use lpc_world::World;

/// Whether a thread can make a call.
#[derive(Clone, Copy, PartialEq, Eq)]
pub enum Condition {
    /// No live thread has the number.
    Absent,
    /// The thread can make a call.
    Ready,
    /// The thread waits.
    Waits,
}

/// Whether a thread can make a call: no live thread has the number, it can, or it waits.
pub fn condition_of(world: &World, tid: u32) -> Condition
    ensures { result ≡ condition_of world.now.rows tid }
{
    match world.live_thread(tid) {
        Some(_) => {
            if world.is_waiting(tid) {
                Condition::Waits
            } else {
                Condition::Ready
            }
        }
        None => Condition::Absent,
    }
}

/// The room for entries that one step asks for: three for each live thread, and one.
pub fn room_needed(world: &World) -> usize
    ensures { result ≡ ready.room_needed world.now.rows }
{
    3 * world.procs().alive() + 1
}

/// How many objects there are: tokens, sections, processes, threads and ports.
pub fn objects(world: &World) -> usize
    ensures { result ≡ found.objects world.now.rows }
{
    let procs = world.procs();
    world.tokens().count()
        + world.sections().count()
        + procs.processes()
        + procs.threads()
        + world.ports().count()
}
