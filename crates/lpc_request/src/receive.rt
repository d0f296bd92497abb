// The receive, which may make a reply first.
ghost use Rattle.std.specs.Prelude.{[], option_copied, ◌≡◌, ◌≤◌, ◌<◌, Some, None, true, false, ◌+◌};
ghost use Rattle.lpc_base.specs.Rows.{first, has};
ghost use Rattle.lpc_base.specs.declared.limits.TheConstants.{LINES_LIMIT};
ghost use Rattle.lpc_model.specs.Basics.{outcome_of};
ghost use Rattle.lpc_model.specs.Found.{is_live_thread, is_queued, waits_as};
ghost use Rattle.lpc_model.specs.Lines.{reply_wait_receive_port};
ghost use Rattle.lpc_steps.specs.Clauses.{IsUnderName};
ghost use Rattle.lpc_request.specs.Called.{Received};
ghost use Rattle.lpc_request.specs.Replied.{KeepsButWaits, MakesWaits, RepliesFirst, TakesOrWaits, may_be_told, receive_by};
ghost use Rattle.lpc_rows.specs.Called.{Served};
ghost use Rattle.lpc_rows.specs.Clauses.{birth_at};
ghost use Rattle.lpc_rows.specs.Kept.{HasWholeBudget, Roomy, StaysReady};
ghost use Rattle.lpc_rows.specs.Names.{stands};
ghost use Rattle.lpc_rows.specs.Callers.{as_caller};
ghost use Rattle.lpc_rows.specs.Ready.{HasRoom, caller, is_ready};
ghost use Rattle.lpc_steps.specs.Settling.{CanSettle};

use crate::reply::return_reply;
use lpc_base::Status;
use lpc_base::status::SUCCESS;
use lpc_message::{MessageRef, read_header};
use lpc_model::{CallName, Entries, Entry, Fields, Outcome, refuse};
use lpc_procs::Caller;
use lpc_slots::Key;
use lpc_steps::{asks_for_answer, bytes_receipt, port_at, read_message, receive_test, reply_test};
use lpc_waits::{Wait, WaitKind};
use lpc_world::World;

/// A reply that a receive makes first: the thread that asked, and the message, where it lies.
#[derive(Drop)]
pub struct Replied<'a> {
    /// The number of the thread that asked.
    pub thread: u32,
    /// The message of the reply.
    pub message: MessageRef<'a>,
}

/// Makes the reply, where there is one.
fn make_reply(world: &mut World, replied: &Option<Replied<'_>>, out: &mut Entries)
    requires spare { 1 ≤ out.old.spare }
    requires told { may_be_told world.old.rows replied.now }
    ensures takes { RepliesFirst replied.now world.old world.new out.old out.new }
    ensures spare { out.old.spare ≤ out.new.spare + 1 }
    ensures births { world.new.births ≡ world.old.births }
    ensures calls { world.new.calls ≡ world.old.calls }
    ensures capacity { world.new.capacity ≡ world.old.capacity }
    ensures keeps { MakesWaits 0 world.old world.new }
    ensures room { Roomy world.old.room world.new.room }
    ensures still { StaysReady world.old.rows world.new.rows }
    ensures others { KeepsButWaits world.old.rows world.new.rows }
{
    if let Some(reply) = replied {
        return_reply(world, reply.thread, &reply.message, out);
    }
}

/// The thread waits for a message of a queue in which none stands; a reply is made before.
fn wait_for_message(
    world: &mut World,
    by: &Caller,
    port: Key,
    queue: Key,
    replied: &Option<Replied<'_>>,
    out: &mut Entries,
)
    requires spare { 2 ≤ out.old.spare }
    requires budget { HasWholeBudget world.old }
    requires live { has (is_live_thread by.now.number) world.old.rows.threads ≡ true }
    requires ready { has (waits_as by.now.number) world.old.rows.waits ≡ false }
    requires port { stands world.old.births.ports port ≡ true }
    requires queue { stands world.old.births.ports queue ≡ true }
    requires name { IsUnderName world.old port }
    requires empty { first (is_queued (birth_at world.old queue)) world.old.rows.messages ≡ None }
    requires told { may_be_told world.old.rows replied.now }
    ensures takes { TakesOrWaits by.now port queue replied.now world.old world.new out.old out.new }
    ensures keeps { MakesWaits 1 world.old world.new }
    ensures calls { world.new.calls ≡ world.old.calls }
    ensures capacity { world.new.capacity ≡ world.old.capacity }
    ensures spare { out.old.spare ≤ out.new.spare + 2 }
{
    out.push(Entry::Waits {
        tid: by.number,
        call: CallName::NtReplyWaitReceivePort,
        fields: Fields::none(),
    });
    make_reply(world, replied, out);
    world.waits_add(
        by.number,
        Wait {
            process: by.process,
            kind: WaitKind::Receive,
            port,
            queue,
            identifier: 0,
            received: false,
        },
    );
}

/// The oldest message of the queue is taken, or the thread waits for one; a reply is made before.
// Inlined, so that the message is copied to the entry and no further.
#[inline(always)]
fn take_or_wait(
    world: &mut World,
    by: &Caller,
    port: Key,
    queue: Key,
    replied: &Option<Replied<'_>>,
    out: &mut Entries,
) -> Outcome
    requires spare { 2 ≤ out.old.spare }
    requires budget { HasWholeBudget world.old }
    requires live { has (is_live_thread by.now.number) world.old.rows.threads ≡ true }
    requires ready { has (waits_as by.now.number) world.old.rows.waits ≡ false }
    requires port { stands world.old.births.ports port ≡ true }
    requires queue { stands world.old.births.ports queue ≡ true }
    requires name { IsUnderName world.old port }
    requires told { may_be_told world.old.rows replied.now }
    ensures takes { TakesOrWaits by.now port queue replied.now world.old world.new out.old out.new }
    ensures keeps { MakesWaits 1 world.old world.new }
    ensures outcome { let steps = receive_by by.now port queue replied.now world.old in
        result ≡ outcome_of steps }
    ensures calls { world.new.calls ≡ world.old.calls }
    ensures capacity { world.new.capacity ≡ world.old.capacity }
    ensures spare { out.old.spare ≤ out.new.spare + 2 }
{
    match world.ports_pull(queue) {
        Some(taken) => {
            let asked = asks_for_answer(taken.bytes.as_slice());
            let client = read_header(taken.bytes.as_slice()).client;
            out.push(Entry::Answer {
                tid: by.number,
                call: CallName::NtReplyWaitReceivePort,
                status: SUCCESS,
                fields: bytes_receipt(taken.context, taken.bytes),
            });
            make_reply(world, replied, out);
            if asked {
                world.waits_receive(client.thread, queue);
            }
            Outcome::Answered(SUCCESS)
        }
        None => {
            wait_for_message(world, by, port, queue, replied, out);
            Outcome::Waits
        }
    }
}

/// A receive without a message.
#[tactic(auto, unfolding(lpc_model::specs::Request::nt_reply_wait_receive_port))]
fn receive(
    world: &mut World,
    tid: u32,
    by: &Caller,
    handle: u32,
    out: &mut Entries,
) -> Result<Outcome, Status>
    requires ready { is_ready world.old.rows tid ≡ true }
    requires row { by.now ≡ as_caller (caller world.old.rows tid) }
    requires number { by.now.number ≡ tid }
    requires live { has (is_live_thread tid) world.old.rows.threads ≡ true }
    requires still { has (waits_as tid) world.old.rows.waits ≡ false }
    requires spare { 2 ≤ out.old.spare }
    requires budget { HasWholeBudget world.old }
    ensures does { Received result tid handle None world.old world.new out.old out.new }
    ensures keeps { MakesWaits 1 world.old world.new }
    ensures calls { world.new.calls ≡ world.old.calls }
    ensures capacity { world.new.capacity ≡ world.old.capacity }
    ensures spare { out.old.spare ≤ out.new.spare + 2 }
{
    let port = port_at(world, tid, handle)?;
    let queue = receive_test(world, port)?;
    Ok(take_or_wait(world, by, port, queue, &None, out))
}

/// A receive with a message, with which it replies first.
#[tactic(auto, unfolding(lpc_model::specs::Request::nt_reply_wait_receive_port))]
fn reply_and_receive(
    world: &mut World,
    tid: u32,
    by: &Caller,
    handle: u32,
    reply: &[u8],
    out: &mut Entries,
) -> Result<Outcome, Status>
    requires ready { is_ready world.old.rows tid ≡ true }
    requires row { by.now ≡ as_caller (caller world.old.rows tid) }
    requires number { by.now.number ≡ tid }
    requires live { has (is_live_thread tid) world.old.rows.threads ≡ true }
    requires still { has (waits_as tid) world.old.rows.waits ≡ false }
    requires spare { 2 ≤ out.old.spare }
    requires unmarked { world.old.rows.marks ≡ [] }
    requires budget { HasWholeBudget world.old }
    ensures does { Received result tid handle (Some reply.now) world.old world.new out.old out.new }
    ensures keeps { MakesWaits 1 world.old world.new }
    ensures calls { world.new.calls ≡ world.old.calls }
    ensures capacity { world.new.capacity ≡ world.old.capacity }
    ensures spare { out.old.spare ≤ out.new.spare + 2 }
{
    let port = port_at(world, tid, handle)?;
    let message = read_message(reply)?;
    let queue = receive_test(world, port)?;
    let thread = reply_test(world, port, message.header())?;
    let replied = Some(Replied { thread, message });
    Ok(take_or_wait(world, by, port, queue, &replied, out))
}

/// `NtReplyWaitReceivePort`: replies as `NtReplyPort` does, where it is given a message, and then takes the oldest message
/// of the port's queue or waits for one.
///
/// Refusals in their order: INVALID_HANDLE where no handle of the caller's process has the value; OBJECT_TYPE_MISMATCH
/// where it names no port; ACCESS_DENIED where it lacks the right; INVALID_PARAMETER where the message has no lawful
/// shape; PORT_MESSAGE_TOO_LONG where its MessageSize is above 256; PORT_DISCONNECTED where the queue isn't open, or
/// where nothing will ever come; INVALID_CID where no live thread has the message's process and thread;
/// REPLY_MESSAGE_MISMATCH where the message fits no wait through the port. The refusals of the message are those of a
/// message that is given. It takes no memory.
pub fn nt_reply_wait_receive_port(
    world: &mut World,
    by: u32,
    handle: u32,
    reply: Option<&[u8]>,
    out: &mut Entries,
) -> Outcome
    requires ready { is_ready world.old.rows by ≡ true }
    requires room { HasRoom world.old out.old }
    requires calls { world.old.calls < LINES_LIMIT }
    requires unmarked { world.old.rows.marks ≡ [] }
    ensures served { let call = reply_wait_receive_port handle (option_copied reply.entry) in
        Served by call result world.old world.new out.old out.new }
    ensures settles { CanSettle world.new out.new }
    ensures spare { out.old.spare ≤ out.new.spare + 2 }
    ensures capacity { world.new.capacity ≡ world.old.capacity }
{
    let caller = world.caller(by);
    world.begin_call();
    let ended = match reply {
        Some(message) => reply_and_receive(world, by, &caller, handle, message, out),
        None => receive(world, by, &caller, handle, out),
    };
    match ended {
        Ok(outcome) => outcome,
        Err(status) => refuse(caller.number, CallName::NtReplyWaitReceivePort, status, out),
    }
}
