// A wait that begins with a message, and one that ends.
ghost use Rattle.std.specs.Prelude.{◌++◌, ◌+◌, ◌∷◌, ◌≡◌, ◌≤◌, [], false, length, true};
ghost use Rattle.lpc_base.specs.Rows.{has};
ghost use Rattle.lpc_base.specs.declared.limits.TheConstants.{MESSAGE_LIMIT};
ghost use Rattle.lpc_model.specs.Basics.{Awaits, DropsOwned, Wakes, told};
ghost use Rattle.lpc_model.specs.Entering.{end_connect, shown as shown_to, takes};
ghost use Rattle.lpc_model.specs.Found.{is_connect, is_live_thread, waits_as};
ghost use Rattle.lpc_model.specs.Message.{message_of};
ghost use Rattle.lpc_waits.specs.Table.{is_event};
ghost use Rattle.lpc_steps.specs.Clauses.{has_no_read, waking};
ghost use Rattle.lpc_rows.specs.Clauses.{HasHandleRoom, HasSmallLoad, IsOwnWait, after, connects, has_table, new_wait, pends, without_wait};
ghost use Rattle.lpc_rows.specs.Does.{Took};
ghost use Rattle.lpc_rows.specs.Kept.{CanMake, IsEndingStep, IsMakingStep, StaysReady, StaysUnqueued, has_queued, is_unsent};
ghost use Rattle.lpc_rows.specs.Lawful.{is_quiet};
ghost use Rattle.lpc_rows.specs.Names.{stands};
ghost use Rattle.lpc_rows.specs.Ready.{waiter};
ghost use Rattle.lpc_rows.specs.Shown as shown;
ghost use Rattle.lpc_rows.specs.Shown.{Births, row_with, with_message};

use crate::message::{bytes_field, bytes_receipt};
use lpc_base::status::PORT_CONNECTION_REFUSED;
use lpc_base::{Status, held};
use lpc_model::{CallName, Entries, Entry, Fields, Message, info_field};
use lpc_slots::Key;
use lpc_waits::{Wait, WaitKind};
use lpc_world::World;

/// The call that a waiting thread made.
pub fn waiting_call(world: &World, tid: u32) -> CallName
    requires { has (waits_as tid) world.now.rows.waits ≡ true }
    ensures call { let x = waiter world.now.rows tid in result ≡ x.call }
    ensures thread { IsOwnWait world.now.rows tid }
{
    call_of_wait(world.waiting(tid).kind)
}

/// The call that a wait of a kind is made by.
fn call_of_wait(kind: WaitKind) -> CallName
    ensures { result ≡ shown.call_of_wait kind }
{
    match kind {
        WaitKind::Request => CallName::NtRequestWaitReplyPort,
        WaitKind::Receive => CallName::NtReplyWaitReceivePort,
        WaitKind::Listen => CallName::NtListenPort,
        WaitKind::Connect => CallName::NtConnectPort,
        WaitKind::Event(_) => CallName::Raise,
    }
}

/// What a waiting thread is shown of the message that it takes: a listen the message alone, a receive its context too.
pub fn taken_fields(world: &World, tid: u32, context: u32, bytes: &[u8]) -> Fields
    requires waits { has (waits_as tid) world.now.rows.waits ≡ true }
    requires long { 24 ≤ length bytes.now }
    requires bound { length bytes.now ≤ 256 }
    ensures plain { has_no_read result ≡ true }
    ensures fields { (n : Births) (queue sender : Key) → result ≡ shown_to
        (waiter world.now.rows tid) (row_with n queue sender context (message_of bytes.now)) }
{
    match world.waiting(tid).kind {
        WaitKind::Listen => bytes_field(held(bytes)),
        _ => bytes_receipt(context, held(bytes)),
    }
}

/// A live thread that doesn't wait begins to wait with a message, which its wait keeps; it waits for nothing made of an
/// event.
pub fn wait_with(world: &mut World, tid: u32, wait: Wait, message: &Message)
    requires live { has (is_live_thread tid) world.old.rows.threads ≡ true }
    requires ready { has (waits_as tid) world.old.rows.waits ≡ false }
    requires plain { is_event wait.kind ≡ false }
    requires budget { CanMake world.old }
    requires port { stands world.old.births.ports wait.port ≡ true }
    requires queue { stands world.old.births.ports wait.queue ≡ true }
    requires quiet { is_quiet world.old.rows.messages (new_wait world.old tid wait) ≡ true }
    requires table { connects wait ≡ true → has_table world.old.rows wait.process ≡ true }
    requires load { connects wait ≡ true → HasSmallLoad world.old.rows wait.process }
    requires handles { connects wait ≡ true → HasHandleRoom world.old wait.process }
    ensures step { let row = with_message message.now (new_wait world.old tid wait) in
        IsMakingStep (after world.old (Awaits row)) world.old world.new }
    ensures loose { world.new.loose ≡ world.old.loose }
    ensures unsent { pends world.old tid wait ≡ true → is_unsent world.new.rows tid ≡ true }
    ensures capacity { world.new.capacity ≡ world.old.capacity }
{
    wait_with_bytes(world, tid, wait, message.bytes().as_slice());
}

/// The same of a message that is given as its bytes.
pub fn wait_with_bytes(world: &mut World, tid: u32, wait: Wait, bytes: &[u8])
    requires live { has (is_live_thread tid) world.old.rows.threads ≡ true }
    requires ready { has (waits_as tid) world.old.rows.waits ≡ false }
    requires plain { is_event wait.kind ≡ false }
    requires bound { length bytes.now ≤ MESSAGE_LIMIT }
    requires budget { CanMake world.old }
    requires port { stands world.old.births.ports wait.port ≡ true }
    requires queue { stands world.old.births.ports wait.queue ≡ true }
    requires quiet { is_quiet world.old.rows.messages (new_wait world.old tid wait) ≡ true }
    requires table { connects wait ≡ true → has_table world.old.rows wait.process ≡ true }
    requires load { connects wait ≡ true → HasSmallLoad world.old.rows wait.process }
    requires handles { connects wait ≡ true → HasHandleRoom world.old wait.process }
    ensures step { let row = with_message (message_of bytes.now) (new_wait world.old tid wait) in
        IsMakingStep (after world.old (Awaits row)) world.old world.new }
    ensures loose { world.new.loose ≡ world.old.loose }
    ensures unsent { pends world.old tid wait ≡ true → is_unsent world.new.rows tid ≡ true }
    ensures capacity { world.new.capacity ≡ world.old.capacity }
{
    world.waits_add(tid, wait);
    world.waits_set_message(tid, bytes);
}

/// A thread's wait ends, and it is told so. No message of the thread's own stands in a queue.
// Inlined, so that the fields are written where the entry is to stand, and aren't moved there.
#[inline(always)]
pub fn wake(world: &mut World, tid: u32, status: Status, fields: Fields, out: &mut Entries)
    requires spare { 1 ≤ out.old.spare }
    requires waits { has (waits_as tid) world.old.rows.waits ≡ true }
    requires plain { has_no_read fields ≡ true }
    requires left { has_queued world.old.rows tid ≡ false }
    ensures step { let left = after world.old (waking world.old tid status fields) in
        IsEndingStep left world.old world.new }
    ensures loose { world.new.loose ≡ true }
    ensures list { out.new.list ≡ out.old.list ++ told (waking world.old tid status fields) }
    ensures spare { out.new.spare + 1 ≡ out.old.spare }
    ensures still { StaysReady world.old.rows world.new.rows }
    ensures unqueued { StaysUnqueued world.old.rows world.new.rows }
    ensures capacity { world.new.capacity ≡ world.old.capacity }
{
    let call = waiting_call(world, tid);
    tell_wake(world, tid, call, status, fields, out);
}

/// A thread's wait ends, and it is told that the call with which it waits ended so.
// Inlined, as `wake` is.
#[inline(always)]
pub(crate) fn tell_wake(
    world: &mut World,
    tid: u32,
    call: CallName,
    status: Status,
    fields: Fields,
    out: &mut Entries,
)
    requires spare { 1 ≤ out.old.spare }
    requires plain { has_no_read fields ≡ true }
    requires left { has_queued world.old.rows tid ≡ false }
    ensures step { let left = after world.old (Wakes tid call status fields) in
        IsEndingStep left world.old world.new }
    ensures loose { world.new.loose ≡ true }
    ensures list { out.new.list ≡ out.old.list ++ told (Wakes tid call status fields) }
    ensures spare { out.new.spare + 1 ≡ out.old.spare }
    ensures still { StaysReady world.old.rows world.new.rows }
    ensures unqueued { StaysUnqueued world.old.rows world.new.rows }
    ensures capacity { world.new.capacity ≡ world.old.capacity }
{
    world.waits_end(tid);
    out.push(Entry::Wakes {
        tid,
        call,
        status,
        fields,
    });
}

/// A thread's wait ends, and the call is answered that it made: it is left to be told. No message of the thread's own
/// stands in a queue.
pub fn end_waiting(world: &mut World, tid: u32) -> CallName
    requires waits { has (waits_as tid) world.old.rows.waits ≡ true }
    requires left { has_queued world.old.rows tid ≡ false }
    ensures call { let x = waiter world.old.rows tid in result ≡ x.call }
    ensures thread { IsOwnWait world.old.rows tid }
    ensures step { IsEndingStep (without_wait world.old.rows tid) world.old world.new }
    ensures loose { world.new.loose ≡ true }
    ensures still { StaysReady world.old.rows world.new.rows }
    ensures unqueued { StaysUnqueued world.old.rows world.new.rows }
    ensures capacity { world.new.capacity ≡ world.old.capacity }
{
    let call = waiting_call(world, tid);
    world.waits_end(tid);
    call
}

/// A waiting connect ends unsuccessfully, and with it go the views that its client port owns: its thread is told
/// PORT_CONNECTION_REFUSED, with the bytes of a refusal, at most 232. Its connection request stands in no queue.
pub fn end_connect(world: &mut World, tid: u32, info: &[u8], out: &mut Entries)
    requires spare { 1 ≤ out.old.spare }
    requires waits { has (waits_as tid) world.old.rows.waits ≡ true }
    requires connect { is_connect (waiter world.old.rows tid) ≡ true }
    requires left { has_queued world.old.rows tid ≡ false }
    requires info { length info.now ≤ 232 }
    ensures takes { let x = waiter world.old.rows tid in
        let steps = end_connect info.now x ∷ DropsOwned x.port ∷ [] in
        Took steps world.old world.new out.old out.new }
    ensures births { world.new.births ≡ world.old.births }
    ensures calls { world.new.calls ≡ world.old.calls }
    ensures capacity { world.new.capacity ≡ world.old.capacity }
    ensures made { world.new.made ≤ world.old.made }
    ensures spare { out.new.spare + 1 ≡ out.old.spare }
{
    let port = world.waiting(tid).port;
    wake(world, tid, PORT_CONNECTION_REFUSED, info_field(info), out);
    world.views_drop_owned(port);
}
