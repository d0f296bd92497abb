// Threads that are made: the test of a further one, and the room that one asks for.
ghost use Rattle.std.specs.Prelude.{◌≡◌, ◌≤◌, OnErr, OnOk, length, true, false};
ghost use Rattle.lpc_base.specs.Room.{grown_room};
ghost use Rattle.lpc_base.specs.Rows.{has};
ghost use Rattle.lpc_model.specs.Creation as model;
ghost use Rattle.lpc_model.specs.Found.{is_process, is_table, was_thread};
ghost use Rattle.lpc_rows.specs.Kept.{Roomy, Same, grown_messages, grown_waits, lacks_thread_parts};

use lpc_base::limits::THREAD_LIMIT;
use lpc_base::status::{INVALID_CID, OBJECT_NAME_COLLISION, QUOTA_EXCEEDED};
use lpc_base::{OutOfMemory, Status};
use lpc_world::World;

/// Why a process gets no further thread: INVALID_CID where it doesn't live, OBJECT_NAME_COLLISION where the number was
/// ever used for a thread, QUOTA_EXCEEDED where it has 64 live threads.
pub fn thread_test(world: &World, tid: u32, pid: u32) -> Result<(), Status>
    ensures test { result ≡ model.thread_test world.now.rows tid pid }
    ensures process { OnOk result (has (is_process pid) world.now.rows.processes ≡ true) }
    ensures table { OnOk result (has (is_table pid) world.now.rows.handles ≡ true) }
    ensures new { OnOk result (was_thread world.now.rows tid ≡ false) }
{
    if !world.is_live(pid) {
        return Err(INVALID_CID);
    }
    if world.was_thread(tid) {
        return Err(OBJECT_NAME_COLLISION);
    }
    if world.live_count(pid) >= THREAD_LIMIT {
        return Err(QUOTA_EXCEEDED);
    }
    Ok(())
}

/// Makes room for what a thread may keep: its wait, and the message that it asks with.
///
/// OutOfMemory comes only where the room for one of them wasn't there; nothing has changed then but the room.
pub fn thread_reserve(world: &mut World) -> Result<(), OutOfMemory>
    ensures same { Same world.old world.new }
    ensures waits { OnOk result (1 ≤ world.new.room.waits) }
    ensures messages { OnOk result (1 ≤ world.new.room.messages) }
    ensures room { Roomy world.old.room world.new.room }
    ensures wanting { OnErr result (lacks_thread_parts world.old ≡ true) }
    ensures most_waits { let rows = length world.old.rows.waits in
        world.new.room.waits ≤ grown_room world.old.room.waits 1 rows }
    ensures most_messages { let rows = length world.old.rows.messages in
        world.new.room.messages ≤ grown_room world.old.room.messages 1 rows }
    ensures others { let new = world.new.room in
        let old = world.old.room in
        new ≡ record old { waits = new.waits; messages = new.messages } }
    ensures capacity { let new = world.new.capacity in
        let old = world.old.capacity in
        new ≡ record old { waits = new.waits; messages = new.messages } }
    ensures asked_waits { let new = world.new.capacity in new.waits ≤ grown_waits world.old 1 }
    ensures asked_messages { let new = world.new.capacity in
        new.messages ≤ grown_messages world.old 1 }
{
    world.waits_reserve(1)?;
    world.messages_reserve(1)
}
