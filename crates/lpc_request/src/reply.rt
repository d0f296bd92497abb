// The reply to a request.
ghost use Rattle.std.specs.Prelude.{[], ◌∷◌, ◌≡◌, ◌≤◌, ◌<◌, length, take, true, false, ◌+◌};
ghost use Rattle.byteorder.specs.Endian.{little_bytes};
ghost use Rattle.lpc_base.specs.Rows.{has};
ghost use Rattle.lpc_base.specs.declared.limits.TheConstants.{LINES_LIMIT, MESSAGE_LIMIT};
ghost use Rattle.lpc_base.specs.declared.status.TheConstants.{DBG_CONTINUE};
ghost use Rattle.lpc_model.specs.Found.{is_mark, waits_as};
ghost use Rattle.lpc_model.specs.Request as request;
ghost use Rattle.lpc_model.specs.Settle.{has_event};
ghost use Rattle.lpc_model.specs.Lines.{reply_port};
ghost use Rattle.lpc_model.specs.Message as kept;
ghost use Rattle.lpc_model.specs.Message.{message_of};
ghost use Rattle.lpc_request.specs.Called.{Answered};
ghost use Rattle.lpc_request.specs.Replied.{KeepsButWaits, MakesWaits, Returns};
ghost use Rattle.lpc_rows.specs.Called.{Served};
ghost use Rattle.lpc_rows.specs.Does.{Took};
ghost use Rattle.lpc_rows.specs.Kept.{Roomy, StaysReady, has_queued};
ghost use Rattle.lpc_rows.specs.Callers.{as_caller};
ghost use Rattle.lpc_rows.specs.Ready.{HasRoom, caller, is_ready, waiter};
ghost use Rattle.lpc_steps.specs.Settling.{CanSettle};

use arrayvec::ArrayVec;
use byteorder::{ByteOrder, LittleEndian};
use lpc_base::Status;
use lpc_base::status::{DBG_CONTINUE, SUCCESS};
use lpc_message::{Header, MessageRef, kind};
use lpc_model::{CallName, Entries, Entry, Fields, Outcome, refuse};
use lpc_procs::Caller;
use lpc_steps::{bytes_field, end_waiting, port_at, read_message, reply_test, wake, written};
use lpc_world::World;

/// The bytes of a message as a reply returns it: type 2 and no section, all else as it is.
#[inline(always)]
fn as_reply(message: &MessageRef<'_>) -> ArrayVec<u8, 256>
    requires bound { length message.now.now ≤ MESSAGE_LIMIT }
    ensures message { message_of result.items ≡ kept.as_reply (message_of message.now.now) }
    ensures long { 24 ≤ length result.items }
{
    let header = Header {
        kind: kind::REPLY,
        section_size: 0,
        ..message.header()
    };
    written(header, message.body())
}

#[tactic(auto, unfolding(lpc_model::specs::Request::nt_reply_port))]
fn reply(
    world: &mut World,
    tid: u32,
    by: &Caller,
    handle: u32,
    message: &[u8],
    out: &mut Entries,
) -> Result<Outcome, Status>
    requires ready { is_ready world.old.rows tid ≡ true }
    requires row { by.now ≡ as_caller (caller world.old.rows tid) }
    requires spare { 2 ≤ out.old.spare }
    requires unmarked { world.old.rows.marks ≡ [] }
    ensures does { Answered result tid handle message.now world.old world.new out.old out.new }
    ensures keeps { MakesWaits 0 world.old world.new }
    ensures calls { world.new.calls ≡ world.old.calls }
    ensures capacity { world.new.capacity ≡ world.old.capacity }
    ensures spare { out.old.spare ≤ out.new.spare + 2 }
{
    let port = port_at(world, tid, handle)?;
    let message = read_message(message)?;
    let answered = reply_test(world, port, message.header())?;
    send_reply(world, tid, by, answered, &message, out);
    Ok(Outcome::Answered(SUCCESS))
}

/// As many of the first bytes as there are, at most so many.
fn front(bytes: &[u8], count: usize) -> &[u8]
    ensures { result.now ≡ take count bytes.now }
{
    &bytes[..count.min(bytes.len())]
}

/// The four bytes with which the data of a reply begin by which an exception is handled.
fn continue_bytes() -> [u8; 4]
    ensures { result ≡ little_bytes 4 DBG_CONTINUE.0 }
{
    let mut bytes = [0u8; 4];
    LittleEndian::write_u32(&mut bytes, DBG_CONTINUE.0);
    bytes
}

/// The data of a message begin with these four bytes.
fn handles_event(message: &MessageRef<'_>) -> bool
    ensures { result ≡ request.handles_event (message_of message.now.now) }
{
    let data = front(message.body(), usize::from(message.header().data_size));
    front(data, 4) == continue_bytes().as_slice()
}

/// A reply to an event wakes the thread of its exception, or marks the event as not handled.
fn reply_to_event(world: &mut World, answered: u32, message: &MessageRef<'_>, out: &mut Entries)
    requires spare { 1 ≤ out.old.spare }
    requires waits { has (waits_as answered) world.old.rows.waits ≡ true }
    requires event { has_event world.old.rows answered ≡ true }
    requires left { has_queued world.old.rows answered ≡ false }
    requires unmarked { has (is_mark answered) world.old.rows.marks ≡ false }
    ensures takes { let x = waiter world.old.rows answered in
        Took (request.reply_to_event x (message_of message.now.now) ∷ [])
        world.old world.new out.old out.new }
    ensures births { world.new.births ≡ world.old.births }
    ensures calls { world.new.calls ≡ world.old.calls }
    ensures capacity { world.new.capacity ≡ world.old.capacity }
    ensures keeps { MakesWaits 0 world.old world.new }
    ensures others { KeepsButWaits world.old.rows world.new.rows }
    ensures room { Roomy world.old.room world.new.room }
    ensures still { StaysReady world.old.rows world.new.rows }
    ensures spare { out.old.spare ≤ out.new.spare + 1 }
{
    if handles_event(message) {
        wake(world, answered, DBG_CONTINUE, Fields::none(), out);
    } else {
        world.events_mark(answered);
    }
}

/// A reply to a request wakes the thread that asked, with the reply's message; one to an event wakes the thread of its
/// exception, or marks the event as not handled.
// Inlined, so that the bytes are copied to the entry and no further.
#[inline(always)]
pub(crate) fn return_reply(
    world: &mut World,
    answered: u32,
    message: &MessageRef<'_>,
    out: &mut Entries,
)
    requires spare { 1 ≤ out.old.spare }
    requires waits { has (waits_as answered) world.old.rows.waits ≡ true }
    requires left { has_queued world.old.rows answered ≡ false }
    requires unmarked { has (is_mark answered) world.old.rows.marks ≡ false }
    requires bound { length message.now.now ≤ MESSAGE_LIMIT }
    ensures takes { let x = waiter world.old.rows answered in
        Took (request.reply x (message_of message.now.now) ∷ [])
        world.old world.new out.old out.new }
    ensures births { world.new.births ≡ world.old.births }
    ensures calls { world.new.calls ≡ world.old.calls }
    ensures capacity { world.new.capacity ≡ world.old.capacity }
    ensures keeps { MakesWaits 0 world.old world.new }
    ensures others { KeepsButWaits world.old.rows world.new.rows }
    ensures room { Roomy world.old.room world.new.room }
    ensures still { StaysReady world.old.rows world.new.rows }
    ensures spare { out.old.spare ≤ out.new.spare + 1 }
{
    match world.raised(answered) {
        Some(_) => reply_to_event(world, answered, message, out),
        None => {
            let call = end_waiting(world, answered);
            out.push(Entry::Wakes {
                tid: answered,
                call,
                status: SUCCESS,
                fields: bytes_field(as_reply(message)),
            });
        }
    }
}

/// A reply is answered, and made.
fn send_reply(
    world: &mut World,
    tid: u32,
    by: &Caller,
    answered: u32,
    message: &MessageRef<'_>,
    out: &mut Entries,
)
    requires spare { 2 ≤ out.old.spare }
    requires row { by.now ≡ as_caller (caller world.old.rows tid) }
    requires waits { has (waits_as answered) world.old.rows.waits ≡ true }
    requires left { has_queued world.old.rows answered ≡ false }
    requires unmarked { has (is_mark answered) world.old.rows.marks ≡ false }
    requires bound { length message.now.now ≤ MESSAGE_LIMIT }
    ensures takes { Returns tid answered (message_of message.now.now)
        world.old world.new out.old out.new }
    ensures keeps { MakesWaits 0 world.old world.new }
    ensures calls { world.new.calls ≡ world.old.calls }
    ensures capacity { world.new.capacity ≡ world.old.capacity }
    ensures spare { out.old.spare ≤ out.new.spare + 2 }
{
    // The contract alone speaks of it.
    let _ = tid;
    out.push(Entry::Answer {
        tid: by.number,
        call: CallName::NtReplyPort,
        status: SUCCESS,
        fields: Fields::none(),
    });
    return_reply(world, answered, message, out);
}

/// `NtReplyPort`: replies to a request, and wakes the thread that asked, or to an event: where the reply's data begin
/// with 02000100, that wakes the thread of the exception, and else the event is marked as not handled.
///
/// Refusals in their order: INVALID_HANDLE where no handle of the caller's process has the value; OBJECT_TYPE_MISMATCH
/// where it names no port; ACCESS_DENIED where it lacks the right; INVALID_PARAMETER where the message has no lawful
/// shape; PORT_MESSAGE_TOO_LONG where its MessageSize is above 256; INVALID_CID where no live thread has the message's
/// process and thread; REPLY_MESSAGE_MISMATCH where the message fits no wait through the port. It takes no memory.
pub fn nt_reply_port(
    world: &mut World,
    by: u32,
    handle: u32,
    message: &[u8],
    out: &mut Entries,
) -> Outcome
    requires ready { is_ready world.old.rows by ≡ true }
    requires room { HasRoom world.old out.old }
    requires calls { world.old.calls < LINES_LIMIT }
    requires unmarked { world.old.rows.marks ≡ [] }
    ensures served { let call = reply_port handle message.now in
        Served by call result world.old world.new out.old out.new }
    ensures settles { CanSettle world.new out.new }
    ensures spare { out.old.spare ≤ out.new.spare + 2 }
    ensures capacity { world.new.capacity ≡ world.old.capacity }
{
    let caller = world.caller(by);
    world.begin_call();
    match reply(world, by, &caller, handle, message, out) {
        Ok(outcome) => outcome,
        Err(status) => refuse(caller.number, CallName::NtReplyPort, status, out),
    }
}
