// The calls that send.
ghost use Rattle.std.specs.Prelude.{◌≡◌, ◌≤◌, ◌<◌, true, false, IfOk, OnErr, ◌+◌, OnOk, IsErr, length};
ghost use Rattle.lpc_base.specs.Rows.{has};
ghost use Rattle.lpc_base.specs.declared.limits.TheConstants.{LINES_LIMIT, MESSAGE_LIMIT};
ghost use Rattle.lpc_model.specs.Found.{is_live_thread, is_thread, waits_as};
ghost use Rattle.lpc_model.specs.Lines.{request_port, request_wait_reply_port};
ghost use Rattle.lpc_model.specs.Message.{message_of};
ghost use Rattle.lpc_model.specs.Request as request;
ghost use Rattle.lpc_steps.specs.Clauses.{IsUnderName};
ghost use Rattle.lpc_request.specs.Called.{Asked};
ghost use Rattle.lpc_rows.specs.Clauses.{Answers};
ghost use Rattle.lpc_request.specs.Sent.{Requests, Sends, may_post, may_send, shown};
ghost use Rattle.lpc_rows.specs.Called.{MayServe, Served, service};
ghost use Rattle.lpc_rows.specs.Kept.{HasWholeBudget, grown_messages};
ghost use Rattle.lpc_rows.specs.Names.{stands};
ghost use Rattle.lpc_rows.specs.Ready.{HasRoom, caller, is_ready};
ghost use Rattle.lpc_rows.specs.Callers.{as_caller, shown_caller};

use arrayvec::ArrayVec;
use lpc_base::status::{PORT_DISCONNECTED, SUCCESS};
use lpc_base::{OutOfMemory, Status};
use lpc_message::{ClientId, Header, MessageRef, kind};
use lpc_model::{CallName, Entries, Entry, Outcome, identifier_field, refuse};
use lpc_procs::Caller;
use lpc_slots::Key;
use lpc_steps::{context, deliver_bytes, port_at, read_message, route, wait_with_bytes, written};
use lpc_waits::{Wait, WaitKind};
use lpc_world::World;

/// A message that may be sent on a port, where it lies, and the queue that it will enter.
#[derive(Drop)]
pub struct Sendable<'a> {
    /// The port on which it is sent.
    pub port: Key,
    /// The queue that it will enter.
    pub queue: Key,
    /// The message as the call was given it.
    pub message: MessageRef<'a>,
}

/// The tests of a message that is sent: the handle, the message, no route.
fn send_test<'a>(
    world: &World,
    tid: u32,
    handle: u32,
    bytes: &'a [u8],
) -> Result<Sendable<'a>, Status>
    requires { is_ready world.now.rows tid ≡ true }
    ensures found { Answers result (shown world.now) (may_send world.now tid handle bytes.now) }
    ensures port { IfOk result (λ s. stands world.now.births.ports s.port ≡ true) }
    ensures queue { IfOk result (λ s. stands world.now.births.ports s.queue ≡ true) }
    ensures name { IfOk result
        (λ s. IsUnderName world.now s.port) }
    ensures bound { IfOk result (λ s. length s.message.now ≤ MESSAGE_LIMIT) }
{
    let port = port_at(world, tid, handle)?;
    let message = read_message(bytes)?;
    let Some(queue) = route(world, port) else {
        return Err(PORT_DISCONNECTED);
    };
    Ok(Sendable {
        port,
        queue,
        message,
    })
}

/// The bytes of the message as its sender's call sends it: its type, its sender, the identifier that the sender draws
/// and no section are written over.
#[inline(always)]
fn sent_by(by: &Caller, kind: u16, message: &MessageRef<'_>) -> ArrayVec<u8, 256>
    requires bound { length message.now.now ≤ MESSAGE_LIMIT }
    ensures message { message_of result.items
        ≡ request.sent_by (shown_caller by.now) kind (message_of message.now.now) }
    ensures long { 24 ≤ length result.items }
{
    let header = Header {
        kind,
        client: ClientId {
            process: by.process,
            thread: by.number,
        },
        message_id: by.next_identifier,
        section_size: 0,
        ..message.header()
    };
    written(header, message.body())
}

// NtRequestPort

/// A datagram is sent: its sender draws the identifier, and the message enters the queue.
fn send_datagram(
    world: &mut World,
    by: &Caller,
    port: Key,
    queue: Key,
    message: &MessageRef<'_>,
    out: &mut Entries,
)
    requires bound { length message.now.now ≤ MESSAGE_LIMIT }
    requires spare { 2 ≤ out.old.spare }
    requires budget { HasWholeBudget world.old }
    requires thread { has (is_thread by.now.number) world.old.rows.threads ≡ true }
    requires port { stands world.old.births.ports port ≡ true }
    requires queue { stands world.old.births.ports queue ≡ true }
    requires name { IsUnderName world.old port }
    requires room { 0 < world.old.room.messages }
    ensures takes { Sends by.now port queue (message_of message.now.now)
        world.old world.new out.old out.new }
    ensures calls { world.new.calls ≡ world.old.calls }
    ensures capacity { world.new.capacity ≡ world.old.capacity }
    ensures spare { out.old.spare ≤ out.new.spare + 2 }
{
    let context = context(world, port);
    let sent = sent_by(by, kind::DATAGRAM, message);
    out.push(Entry::Answer {
        tid: by.number,
        call: CallName::NtRequestPort,
        status: SUCCESS,
        fields: identifier_field(by.next_identifier),
    });
    world.procs_draw_identifier(by.number);
    deliver_bytes(world, queue, port, context, sent.as_slice(), out);
}

/// The tests of a datagram: those of a message that is sent, and 32 datagrams that aren't received.
fn datagram_test<'a>(
    world: &World,
    tid: u32,
    handle: u32,
    bytes: &'a [u8],
) -> Result<Sendable<'a>, Status>
    requires { is_ready world.now.rows tid ≡ true }
    ensures found { Answers result (shown world.now) (may_post world.now tid handle bytes.now) }
    ensures port { IfOk result (λ s. stands world.now.births.ports s.port ≡ true) }
    ensures queue { IfOk result (λ s. stands world.now.births.ports s.queue ≡ true) }
    ensures name { IfOk result
        (λ s. IsUnderName world.now s.port) }
    ensures bound { IfOk result (λ s. length s.message.now ≤ MESSAGE_LIMIT) }
{
    let sent = send_test(world, tid, handle, bytes)?;
    lpc_steps::datagram_test(world, sent.port)?;
    Ok(sent)
}

/// `NtRequestPort`: sends a datagram on the port of a handle, and goes on.
///
/// Refusals in their order: INVALID_HANDLE where no handle of the caller's process has the value; OBJECT_TYPE_MISMATCH
/// where it names no port; ACCESS_DENIED where it lacks the right; INVALID_PARAMETER where the message has no lawful
/// shape; PORT_MESSAGE_TOO_LONG where its MessageSize is above 256; PORT_DISCONNECTED where the port has no route;
/// QUOTA_EXCEEDED where 32 datagrams of the port aren't received. OutOfMemory comes only where it isn't refused and
/// there is no room for its message; nothing has changed then but the room.
#[tactic(auto, unfolding(lpc_model::specs::Request::nt_request_port))]
pub fn nt_request_port(
    world: &mut World,
    by: u32,
    handle: u32,
    message: &[u8],
    out: &mut Entries,
) -> Result<Outcome, OutOfMemory>
    requires ready { is_ready world.old.rows by ≡ true }
    requires room { HasRoom world.old out.old }
    requires calls { world.old.calls < LINES_LIMIT }
    ensures serves { let call = request_port handle message.now in
        MayServe by call result world.old world.new out.old out.new }
    ensures room_stays { let call = request_port handle message.now in
        IsErr (service world.old.rows by call) → world.new.room ≡ world.old.room }
    ensures unasked { let call = request_port handle message.now in
        IsErr (service world.old.rows by call) → world.new.capacity ≡ world.old.capacity }
    ensures spare { OnOk result (out.old.spare ≤ out.new.spare + 2) }
    ensures wanting { OnErr result (world.old.room.messages < 1) }
    ensures capacity { let new = world.new.capacity in
        let old = world.old.capacity in
        new ≡ record old { messages = new.messages } }
    ensures asked_messages { let new = world.new.capacity in
        new.messages ≤ grown_messages world.old 1 }
{
    let caller = world.caller(by);
    let sent = match datagram_test(world, by, handle, message) {
        Ok(sent) => sent,
        Err(status) => {
            world.begin_call();
            return Ok(refuse(caller.number, CallName::NtRequestPort, status, out));
        }
    };
    world.messages_reserve(1)?;
    world.begin_call();
    send_datagram(world, &caller, sent.port, sent.queue, &sent.message, out);
    Ok(Outcome::Answered(SUCCESS))
}

// NtRequestWaitReplyPort

/// A request is sent: its sender draws the identifier and waits, and the message enters the queue.
fn send_request(
    world: &mut World,
    by: &Caller,
    port: Key,
    queue: Key,
    message: &MessageRef<'_>,
    out: &mut Entries,
)
    requires bound { length message.now.now ≤ MESSAGE_LIMIT }
    requires spare { 2 ≤ out.old.spare }
    requires budget { HasWholeBudget world.old }
    requires thread { has (is_thread by.now.number) world.old.rows.threads ≡ true }
    requires live { has (is_live_thread by.now.number) world.old.rows.threads ≡ true }
    requires ready { has (waits_as by.now.number) world.old.rows.waits ≡ false }
    requires port { stands world.old.births.ports port ≡ true }
    requires queue { stands world.old.births.ports queue ≡ true }
    requires name { IsUnderName world.old port }
    ensures takes { Requests by.now port queue (message_of message.now.now)
        world.old world.new out.old out.new }
    ensures calls { world.new.calls ≡ world.old.calls }
    ensures capacity { world.new.capacity ≡ world.old.capacity }
    ensures spare { out.old.spare ≤ out.new.spare + 2 }
{
    let context = context(world, port);
    let sent = sent_by(by, kind::REQUEST, message);
    out.push(Entry::Waits {
        tid: by.number,
        call: CallName::NtRequestWaitReplyPort,
        fields: identifier_field(by.next_identifier),
    });
    wait_with_bytes(
        world,
        by.number,
        Wait {
            process: by.process,
            kind: WaitKind::Request,
            port,
            queue,
            identifier: by.next_identifier,
            received: false,
        },
        sent.as_slice(),
    );
    world.procs_draw_identifier(by.number);
    deliver_bytes(world, queue, port, context, sent.as_slice(), out);
}

#[tactic(auto, unfolding(lpc_model::specs::Request::nt_request_wait_reply_port))]
fn request(
    world: &mut World,
    tid: u32,
    by: &Caller,
    handle: u32,
    message: &[u8],
    out: &mut Entries,
) -> Result<Outcome, Status>
    requires ready { is_ready world.old.rows tid ≡ true }
    requires row { by.now ≡ as_caller (caller world.old.rows tid) }
    requires number { by.now.number ≡ tid }
    requires thread { has (is_thread tid) world.old.rows.threads ≡ true }
    requires live { has (is_live_thread tid) world.old.rows.threads ≡ true }
    requires still { has (waits_as tid) world.old.rows.waits ≡ false }
    requires spare { 2 ≤ out.old.spare }
    requires budget { HasWholeBudget world.old }
    ensures does { Asked result tid handle message.now world.old world.new out.old out.new }
    ensures calls { world.new.calls ≡ world.old.calls }
    ensures capacity { world.new.capacity ≡ world.old.capacity }
    ensures spare { out.old.spare ≤ out.new.spare + 2 }
{
    let sent = send_test(world, tid, handle, message)?;
    send_request(world, by, sent.port, sent.queue, &sent.message, out);
    Ok(Outcome::Waits)
}

/// `NtRequestWaitReplyPort`: sends a request on the port of a handle, and waits for the reply.
///
/// Refusals in their order: INVALID_HANDLE where no handle of the caller's process has the value; OBJECT_TYPE_MISMATCH
/// where it names no port; ACCESS_DENIED where it lacks the right; INVALID_PARAMETER where the message has no lawful
/// shape; PORT_MESSAGE_TOO_LONG where its MessageSize is above 256; PORT_DISCONNECTED where the port has no route. It
/// takes no memory.
pub fn nt_request_wait_reply_port(
    world: &mut World,
    by: u32,
    handle: u32,
    message: &[u8],
    out: &mut Entries,
) -> Outcome
    requires ready { is_ready world.old.rows by ≡ true }
    requires room { HasRoom world.old out.old }
    requires calls { world.old.calls < LINES_LIMIT }
    ensures served { let call = request_wait_reply_port handle message.now in
        Served by call result world.old world.new out.old out.new }
    ensures spare { out.old.spare ≤ out.new.spare + 2 }
    ensures capacity { world.new.capacity ≡ world.old.capacity }
{
    let caller = world.caller(by);
    world.begin_call();
    match request(world, by, &caller, handle, message, out) {
        Ok(outcome) => outcome,
        Err(status) => refuse(caller.number, CallName::NtRequestWaitReplyPort, status, out),
    }
}
