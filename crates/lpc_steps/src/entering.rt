// A message enters its queue, or a thread that waits there takes it at once.
ghost use Rattle.std.specs.Prelude.{◌+◌, ◌<◌, ◌≡◌, ◌≤◌, None, Some, false, length, true};
ghost use Rattle.lpc_base.specs.Rows.{first, has};
ghost use Rattle.lpc_base.specs.declared.limits.TheConstants.{HEADER_SIZE, MESSAGE_LIMIT};
ghost use Rattle.lpc_base.specs.declared.status.TheConstants.{SUCCESS};
ghost use Rattle.lpc_model.specs.Entering.{enter, takes};
ghost use Rattle.lpc_model.specs.Found.{waits_as};
ghost use Rattle.lpc_model.specs.Message.{message_of};
ghost use Rattle.lpc_steps.specs.Clauses.{passed};
ghost use Rattle.lpc_rows.specs.Clauses.{IsAwaited, TellsOnceOn, and_message, birth_at, has_message, has_taker, is_quiet_for, sent};
ghost use Rattle.lpc_rows.specs.Does.{Took};
ghost use Rattle.lpc_rows.specs.Kept.{CanMake, Roomy, StaysUnqueued, has_queued};
ghost use Rattle.lpc_rows.specs.Lawful.{are_single};
ghost use Rattle.lpc_rows.specs.Names.{stands};
ghost use Rattle.lpc_rows.specs.Ready.{waiter};
ghost use Rattle.lpc_rows.specs.Shown.{row_with};
ghost use Rattle.lpc_rows.specs.OwedClosings.{is_owed};

use crate::message::{asks_for_answer, asks_to_connect};
use crate::waiting::{taken_fields, tell_wake, waiting_call};
use lpc_base::status::SUCCESS;
use lpc_message::read_header;
use lpc_model::{Entries, Message};
use lpc_slots::Key;
use lpc_world::World;

/// A message enters the queue of a port, and where a thread waits there that takes it, the one that has waited longest
/// does so at once. A request, event or connection request has its place: its sender waits with it, and it stands in no
/// queue yet. So has one that tells that a client port is closed: it is sent on that port, and none in a queue tells so
/// yet. Every other message has the room that was made for it. The thread that takes the message is told, which wants
/// room for an entry where a thread waits.
// Inlined, so that the fields are written where the entry is to stand, and aren't moved there.
#[inline(always)]
pub fn deliver(
    world: &mut World,
    queue: Key,
    sender: Key,
    context: u32,
    message: &Message,
    out: &mut Entries,
)
    requires spare { 0 < length world.old.rows.waits → 1 ≤ out.old.spare }
    requires queue { stands world.old.births.ports queue ≡ true }
    requires sender { stands world.old.births.ports sender ≡ true }
    requires budget { CanMake world.old }
    requires request { IsAwaited world.old.rows message.now }
    requires closing { TellsOnceOn world.old sender message.now }
    requires other { is_owed message.now ≡ false → 0 < world.old.room.messages }
    ensures takes { let m = row_with world.old.births queue sender context message.now in
        Took (enter m world.old.rows) world.old world.new out.old out.new }
    ensures spare { out.old.spare ≤ out.new.spare + 1 }
    ensures entries { out.new.spare + length world.old.rows.waits
        ≡ out.old.spare + length world.new.rows.waits }
    ensures births { world.new.births ≡ world.old.births }
    ensures calls { world.new.calls ≡ world.old.calls }
    ensures capacity { world.new.capacity ≡ world.old.capacity }
    ensures made { world.new.made ≤ world.old.made + 1 }
{
    deliver_bytes(
        world,
        queue,
        sender,
        context,
        message.bytes().as_slice(),
        out,
    );
}

/// The same of a message that is given as its bytes.
pub fn deliver_bytes(
    world: &mut World,
    queue: Key,
    sender: Key,
    context: u32,
    bytes: &[u8],
    out: &mut Entries,
)
    requires spare { 0 < length world.old.rows.waits → 1 ≤ out.old.spare }
    requires queue { stands world.old.births.ports queue ≡ true }
    requires sender { stands world.old.births.ports sender ≡ true }
    requires long { HEADER_SIZE ≤ length bytes.now }
    requires bound { length bytes.now ≤ MESSAGE_LIMIT }
    requires budget { CanMake world.old }
    requires request { IsAwaited world.old.rows (message_of bytes.now) }
    requires closing { TellsOnceOn world.old sender (message_of bytes.now) }
    requires other { is_owed (message_of bytes.now) ≡ false → 0 < world.old.room.messages }
    ensures takes { let m = row_with world.old.births queue sender context (message_of bytes.now) in
        Took (enter m world.old.rows) world.old world.new out.old out.new }
    ensures spare { out.old.spare ≤ out.new.spare + 1 }
    ensures entries { out.new.spare + length world.old.rows.waits
        ≡ out.old.spare + length world.new.rows.waits }
    ensures births { world.new.births ≡ world.old.births }
    ensures calls { world.new.calls ≡ world.old.calls }
    ensures capacity { world.new.capacity ≡ world.old.capacity }
    ensures made { world.new.made ≤ world.old.made + 1 }
{
    match world.receiver(queue, asks_to_connect(bytes)) {
        Some(tid) => hand_over(world, tid, queue, sender, context, bytes, out),
        None => enter(world, queue, sender, context, bytes),
    }
}

/// A message enters a queue, and the thread that waits there takes it at once and is told.
// Apart, so that the fields of its entry aren't cleared where no thread waits.
fn hand_over(
    world: &mut World,
    tid: u32,
    queue: Key,
    sender: Key,
    context: u32,
    bytes: &[u8],
    out: &mut Entries,
)
    requires spare { 1 ≤ out.old.spare }
    requires queue { stands world.old.births.ports queue ≡ true }
    requires long { 24 ≤ length bytes.now }
    requires bound { length bytes.now ≤ 256 }
    requires request { IsAwaited world.old.rows (message_of bytes.now) }
    requires found { let m = row_with world.old.births
        queue sender context (message_of bytes.now) in
        first (takes m) world.old.rows.waits ≡ Some (waiter world.old.rows tid) }
    requires taker { let m = row_with world.old.births
        queue sender context (message_of bytes.now) in
        takes m (waiter world.old.rows tid) ≡ true }
    requires waits { has (waits_as tid) world.old.rows.waits ≡ true }
    requires left { has_queued world.old.rows tid ≡ false }
    requires quiet { is_quiet_for world.old.rows tid ≡ true }
    requires single { are_single world.old.rows.waits ≡ true }
    ensures takes { let m = row_with world.old.births queue sender context (message_of bytes.now) in
        Took (enter m world.old.rows) world.old world.new out.old out.new }
    ensures spare { out.new.spare + 1 ≡ out.old.spare }
    ensures entries { out.new.spare + length world.old.rows.waits
        ≡ out.old.spare + length world.new.rows.waits }
    ensures births { world.new.births ≡ world.old.births }
    ensures calls { world.new.calls ≡ world.old.calls }
    ensures capacity { world.new.capacity ≡ world.old.capacity }
    ensures made { world.new.made ≤ world.old.made }
{
    let call = waiting_call(world, tid);
    let fields = taken_fields(world, tid, context, bytes);
    pass(world, tid, queue, sender, context, bytes);
    tell_wake(world, tid, call, SUCCESS, fields, out);
}

/// A message enters its queue, on which no thread waits that takes it.
fn enter(world: &mut World, queue: Key, sender: Key, context: u32, bytes: &[u8])
    requires queue { stands world.old.births.ports queue ≡ true }
    requires sender { stands world.old.births.ports sender ≡ true }
    requires long { HEADER_SIZE ≤ length bytes.now }
    requires bound { length bytes.now ≤ MESSAGE_LIMIT }
    requires quiet { has_taker world.old queue sender context (message_of bytes.now) ≡ false }
    requires budget { CanMake world.old }
    requires request { IsAwaited world.old.rows (message_of bytes.now) }
    requires closing { TellsOnceOn world.old sender (message_of bytes.now) }
    requires other { is_owed (message_of bytes.now) ≡ false → 0 < world.old.room.messages }
    ensures rows { world.new.rows ≡ sent world.old queue sender context (message_of bytes.now) }
    ensures births { world.new.births ≡ world.old.births }
    ensures queued { has_message world.new.rows (birth_at world.old queue) ≡ true }
    ensures calls { world.new.calls ≡ world.old.calls }
    ensures capacity { world.new.capacity ≡ world.old.capacity }
    ensures loose { world.new.loose ≡ world.old.loose }
    ensures made { world.new.made ≡ world.old.made + 1 }
    ensures room { Roomy world.old.room (and_message world.new.room) }
{
    world.ports_send(queue, sender, context, bytes);
}

/// A message enters a queue, and the thread that waits there takes it at once, so that it needs no place there. Where
/// its sender waits for an answer, it is received.
fn pass(world: &mut World, tid: u32, queue: Key, sender: Key, context: u32, bytes: &[u8])
    requires queue { stands world.old.births.ports queue ≡ true }
    requires long { 24 ≤ length bytes.now }
    requires takes { takes (row_with world.old.births queue sender context (message_of bytes.now))
        (waiter world.old.rows tid) ≡ true }
    requires quiet { is_quiet_for world.old.rows tid ≡ true }
    requires request { IsAwaited world.old.rows (message_of bytes.now) }
    ensures rows { world.new.rows ≡ passed world.old.rows tid
        (row_with world.old.births queue sender context (message_of bytes.now)) }
    ensures births { world.new.births ≡ world.old.births }
    ensures unqueued { StaysUnqueued world.old.rows world.new.rows }
    ensures calls { world.new.calls ≡ world.old.calls }
    ensures capacity { world.new.capacity ≡ world.old.capacity }
    ensures made { world.new.made ≡ world.old.made }
    ensures loose { world.new.loose ≡ world.old.loose }
{
    let _ = (tid, sender, context);
    if asks_for_answer(bytes) {
        world.waits_receive(read_header(bytes).client.thread, queue);
    }
}
