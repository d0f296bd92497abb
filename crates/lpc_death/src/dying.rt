// Threads that end.
ghost use Rattle.std.specs.Prelude.{◌≡◌, ◌+◌, ◌≤◌, ◌∷◌, [], true, IfSome, None, Some};
ghost use Rattle.lpc_base.specs.Rows.{has};
ghost use Rattle.lpc_model.specs.Death.{dying};
ghost use Rattle.lpc_death.specs.Dying.{dying_all, ending_entries, offered_port};
ghost use Rattle.lpc_model.specs.Lawful.{HasThreadsOnce};
ghost use Rattle.lpc_model.specs.Basics.{Dies, Withdraws};
ghost use Rattle.lpc_model.specs.Found.{is_live_thread};
ghost use Rattle.lpc_rows.specs.Clauses.{Finds, birth_at};
ghost use Rattle.lpc_rows.specs.Closing.{HasMutualPairs};
ghost use Rattle.lpc_rows.specs.Does.{Took};
ghost use Rattle.lpc_rows.specs.Names.{stands};
ghost use Rattle.lpc_rows.specs.Registered.{accepted_port};

use lpc_base::Status;
use lpc_closing::cut_pair;
use lpc_model::{Entries, Entry};
use lpc_slots::Key;
use lpc_world::World;

/// A live thread ends with its wait, and its own message leaves its queue, where it still stands there.
fn end_thread(world: &mut World, tid: u32, code: Status, out: &mut Entries)
    requires live { has (is_live_thread tid) world.old.rows.threads ≡ true }
    requires spare { 1 ≤ out.old.spare }
    ensures took { let steps = Dies tid code ∷ Withdraws tid ∷ [] in
        Took steps world.old world.new out.old out.new }
    ensures births { world.new.births ≡ world.old.births }
    ensures calls { world.new.calls ≡ world.old.calls }
    ensures capacity { world.new.capacity ≡ world.old.capacity }
    ensures made { world.new.made ≤ world.old.made }
    ensures spare { out.new.spare + 1 ≡ out.old.spare }
{
    world.messages_withdraw(tid);
    world.waits_end(tid);
    world.procs_end_thread(tid);
    out.push(Entry::Died { tid, status: code });
}

/// The client port of a thread's connect that isn't accepted: None exactly where the thread doesn't wait with one.
fn offered_port(world: &World, tid: u32) -> Option<Key>
    ensures port { Finds result (birth_at world.now) (offered_port world.now.rows tid) }
    ensures stands { IfSome result (λ key. stands world.now.births.ports key ≡ true) }
{
    if !world.is_waiting(tid) {
        return None;
    }
    if !world.is_offered(tid) {
        return None;
    }
    Some(world.waiting(tid).port)
}

/// A live thread ends with its wait and its message. With its connect go the views that its client port owns, and where
/// the connect was accepted, the port is cut off from its other end before. It takes no memory, and makes no row.
pub(crate) fn die(world: &mut World, tid: u32, code: Status, out: &mut Entries)
    requires live { has (is_live_thread tid) world.old.rows.threads ≡ true }
    requires pairs { HasMutualPairs world.old.rows }
    requires spare { ending_entries world.old.rows ≤ out.old.spare }
    ensures took { Took (dying code tid world.old.rows) world.old world.new out.old out.new }
    ensures births { world.new.births ≡ world.old.births }
    ensures calls { world.new.calls ≡ world.old.calls }
    ensures capacity { world.new.capacity ≡ world.old.capacity }
    ensures made { world.new.made ≤ world.old.made }
    ensures spare { out.old.spare + ending_entries world.new.rows
        ≤ out.new.spare + ending_entries world.old.rows }
{
    match world.accepted_port(tid) {
        Some(port) => die_accepted(world, tid, port, code, out),
        None => die_unaccepted(world, tid, code, out),
    }
}

/// A live thread ends that waits in an accepted connect, on this client port.
fn die_accepted(world: &mut World, tid: u32, port: Key, code: Status, out: &mut Entries)
    requires live { has (is_live_thread tid) world.old.rows.threads ≡ true }
    requires pairs { HasMutualPairs world.old.rows }
    requires spare { ending_entries world.old.rows ≤ out.old.spare }
    requires port { stands world.old.births.ports port ≡ true }
    requires accepted { accepted_port world.old.rows tid ≡ Some (birth_at world.old port) }
    ensures took { Took (dying code tid world.old.rows) world.old world.new out.old out.new }
    ensures births { world.new.births ≡ world.old.births }
    ensures calls { world.new.calls ≡ world.old.calls }
    ensures capacity { world.new.capacity ≡ world.old.capacity }
    ensures made { world.new.made ≤ world.old.made }
    ensures spare { out.old.spare + ending_entries world.new.rows
        ≤ out.new.spare + ending_entries world.old.rows }
{
    end_thread(world, tid, code, out);
    cut_pair(world, port, out);
    world.views_drop_owned(port);
}

/// A live thread ends that doesn't wait in an accepted connect.
fn die_unaccepted(world: &mut World, tid: u32, code: Status, out: &mut Entries)
    requires live { has (is_live_thread tid) world.old.rows.threads ≡ true }
    requires spare { ending_entries world.old.rows ≤ out.old.spare }
    requires unaccepted { accepted_port world.old.rows tid ≡ None }
    ensures took { Took (dying code tid world.old.rows) world.old world.new out.old out.new }
    ensures births { world.new.births ≡ world.old.births }
    ensures calls { world.new.calls ≡ world.old.calls }
    ensures capacity { world.new.capacity ≡ world.old.capacity }
    ensures made { world.new.made ≤ world.old.made }
    ensures spare { out.old.spare + ending_entries world.new.rows
        ≤ out.new.spare + ending_entries world.old.rows }
{
    let offered = offered_port(world, tid);
    end_thread(world, tid, code, out);
    if let Some(port) = offered {
        world.views_drop_owned(port);
    }
}

/// The live threads of a process end, in the order of making.
pub(crate) fn die_all(world: &mut World, pid: u32, code: Status, out: &mut Entries)
    requires once { HasThreadsOnce world.old.rows }
    requires pairs { HasMutualPairs world.old.rows }
    requires spare { ending_entries world.old.rows ≤ out.old.spare }
    ensures took { Took (dying_all code pid world.old.rows) world.old world.new out.old out.new }
    ensures births { world.new.births ≡ world.old.births }
    ensures calls { world.new.calls ≡ world.old.calls }
    ensures capacity { world.new.capacity ≡ world.old.capacity }
    ensures made { world.new.made ≤ world.old.made }
    ensures spare { out.old.spare + ending_entries world.new.rows
        ≤ out.new.spare + ending_entries world.old.rows }
{
    while let Some(tid) = world.first_live(pid) {
        die(world, tid, code, out);
    }
}
