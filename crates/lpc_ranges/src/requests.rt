// The calls that read and write the memory of a client, where its request describes it.
ghost use Rattle.std.specs.Prelude.{◌≡◌, ◌<◌, ◌≤◌, ◌+◌, Err, IfOk, MatchResult, Ok, false, length, true};
ghost use Rattle.lpc_base.specs.Rows.{has, passes};
ghost use Rattle.lpc_base.specs.declared.limits.TheConstants.{LINES_LIMIT, MEMORY_LIMIT};
ghost use Rattle.lpc_message.specs.Laws.{FitsWidths};
ghost use Rattle.lpc_model.specs.Found.{is_table, waits_as};
ghost use Rattle.lpc_model.specs.Lines.{read_request_data, write_request_data};
ghost use Rattle.lpc_model.specs.Message.{bytes_of, message_of};
ghost use Rattle.lpc_model.specs.Ranges as ranges;
ghost use Rattle.lpc_ranges.specs.Requests.{range_reading, range_writing, view_at};
ghost use Rattle.lpc_rows.specs.Called.{Served, service};
ghost use Rattle.lpc_rows.specs.Clauses.{Answers};
ghost use Rattle.lpc_rows.specs.Ready.{HasRoom, caller, is_ready, waiter};

use crate::memory::transfer_test;
use lpc_base::Status;
use lpc_base::limits::HEADER_SIZE;
use lpc_base::status::{ACCESS_VIOLATION, INVALID_PARAMETER, REPLY_MESSAGE_MISMATCH, SUCCESS};
use lpc_message::{Header, MessageRef, Range, law_written_header_is_read_back, read_header};
use lpc_model::{CallName, Entries, Entry, Fields, Outcome, refuse};
use lpc_steps::{port_at, read_message, reply_test};
use lpc_waits::WaitKind;
use lpc_world::World;

/// The thread whose request a message fits through the port of a handle: the handle's fault, then the message's, then
/// INVALID_CID where no live thread has the message's process and thread, and REPLY_MESSAGE_MISMATCH where the message
/// fits no wait through the port, or that of an event, which is no request.
fn asked_test(world: &World, tid: u32, handle: u32, message: &[u8]) -> Result<u32, Status>
    requires { is_ready world.now.rows tid ≡ true }
    ensures found { let by = caller world.now.rows tid in
        Answers result (waiter world.now.rows)
        (ranges.asked_test world.now.rows by handle message.now) }
    ensures waits { IfOk result (λ thread. has (waits_as thread) world.now.rows.waits ≡ true) }
    ensures table { IfOk result (λ thread. let x = waiter world.now.rows thread in
        has (is_table x.process) world.now.rows.handles ≡ true) }
{
    let port = port_at(world, tid, handle)?;
    let message = read_message(message)?;
    let thread = reply_test(world, port, message.header())?;
    request_test(world, thread)?;
    Ok(thread)
}

/// A waiting thread doesn't wait for what is made of an event, which is no request: REPLY_MESSAGE_MISMATCH where it does.
fn request_test(world: &World, thread: u32) -> Result<(), Status>
    requires { has (waits_as thread) world.now.rows.waits ≡ true }
    ensures test { result ≡ ranges.request_test (waiter world.now.rows thread) }
{
    match world.waiting(thread).kind {
        WaitKind::Event(_) => Err(REPLY_MESSAGE_MISMATCH),
        WaitKind::Request | WaitKind::Receive | WaitKind::Listen | WaitKind::Connect => Ok(()),
    }
}

/// The numbers of a header have their widths.
fn law_header_fits(header: Header)
    ensures { FitsWidths header }
{}

/// The range of a number in bytes that a wait keeps as its message.
fn range_in(bytes: &[u8], index: u32) -> Option<Range>
    ensures { result ≡ ranges.range_in (bytes_of (message_of bytes.now)) index }
{
    if bytes.len() < HEADER_SIZE {
        return None;
    }
    // So the header of the message that they are kept as is theirs, number by number.
    law_header_fits(read_header(bytes));
    law_written_header_is_read_back();
    match MessageRef::read(bytes) {
        Ok(message) => message.range(index),
        Err(_) => None,
    }
}

/// The range of a number that the request of a waiting thread describes.
fn range_of(world: &World, thread: u32, index: u32) -> Option<Range>
    requires { has (waits_as thread) world.now.rows.waits ≡ true }
    ensures { result ≡ ranges.range_of (waiter world.now.rows thread) index }
{
    match world.waiting(thread).kind {
        WaitKind::Request => range_in(world.waiting_message(thread), index),
        WaitKind::Receive | WaitKind::Listen | WaitKind::Connect | WaitKind::Event(_) => None,
    }
}

/// So many bytes from the beginning of a range that the request of a waiting thread describes: INVALID_PARAMETER where
/// it describes no such range, for no byte or more than 4096, and for more than the range has.
fn range_test(world: &World, thread: u32, index: u32, len: usize) -> Result<Range, Status>
    requires { has (waits_as thread) world.now.rows.waits ≡ true }
    ensures test { result ≡ ranges.range_test (waiter world.now.rows thread) index len }
    ensures few { IfOk result (λ range. len ≤ MEMORY_LIMIT) }
{
    let Some(range) = range_of(world, thread, index) else {
        return Err(INVALID_PARAMETER);
    };
    transfer_test(len)?;
    if len > range.size as usize {
        return Err(INVALID_PARAMETER);
    }
    Ok(range)
}

/// The bytes of a client that its request describes, in its view: the faults of the handle, the message and the range,
/// and ACCESS_VIOLATION where no one view of the client holds them.
#[tactic(auto, unfolding(lpc_model::specs::Ranges::nt_read_request_data))]
fn read_test<'a>(
    world: &'a World,
    tid: u32,
    handle: u32,
    message: &[u8],
    index: u32,
    len: u32,
) -> Result<&'a [u8], Status>
    requires { is_ready world.now.rows tid ≡ true }
    ensures found { let found = service world.now.rows tid
        (read_request_data handle message.now index len) in
        MatchResult result
        (λ bytes. found ≡ Ok (range_reading (caller world.now.rows tid) bytes.now))
        (λ s. found ≡ Err s) }
    ensures few { IfOk result (λ bytes. length bytes.now ≤ MEMORY_LIMIT) }
{
    let thread = asked_test(world, tid, handle, message)?;
    let range = range_test(world, thread, index, len as usize)?;
    match world.memory(world.waiting(thread).process, range.base, len) {
        Ok(bytes) => Ok(bytes),
        Err(_) => Err(ACCESS_VIOLATION),
    }
}

/// `NtReadRequestData`: reads bytes of the client's process, from the beginning of the range of a number that the
/// request describes which the message names. The table is that of the request as it was sent.
///
/// Refusals, in this order: INVALID_HANDLE where no handle of the caller's process has the value; OBJECT_TYPE_MISMATCH
/// where it names no port; ACCESS_DENIED where it lacks the right; INVALID_PARAMETER where the message has no lawful
/// shape; PORT_MESSAGE_TOO_LONG where its MessageSize is above 256; INVALID_CID where no live thread has the message's
/// process and thread; REPLY_MESSAGE_MISMATCH where the message fits no wait through the port; INVALID_PARAMETER where
/// the request describes no such range, for no byte or more than 4096, and for more than the range has;
/// ACCESS_VIOLATION where no one view of the client holds them. It takes no memory. No entry of `out` has the bytes of
/// another read.
pub fn nt_read_request_data(
    world: &mut World,
    by: u32,
    handle: u32,
    message: &[u8],
    index: u32,
    length: u32,
    out: &mut Entries,
) -> Outcome
    requires ready { is_ready world.old.rows by ≡ true }
    requires room { HasRoom world.old out.old }
    requires calls { world.old.calls < LINES_LIMIT }
    requires first { out.old.reads ≡ false }
    ensures served { let call = read_request_data handle message.now index length in
        Served by call result world.old world.new out.old out.new }
    ensures spare { out.new.spare + 1 ≡ out.old.spare }
    ensures capacity { world.new.capacity ≡ world.old.capacity }
{
    let caller = world.caller(by);
    world.begin_call();
    match read_test(world, by, handle, message, index, length) {
        Ok(bytes) => {
            out.push_read(caller.number, CallName::NtReadRequestData, bytes);
            Outcome::Answered(SUCCESS)
        }
        Err(status) => refuse(caller.number, CallName::NtReadRequestData, status, out),
    }
}

/// Bytes of a client that may be written: the process, and the address there.
#[derive(Clone, Copy)]
struct Place {
    process: u32,
    address: u32,
}

/// Where the bytes of a client are that its request describes: the faults of the handle, the message and the range, and
/// ACCESS_VIOLATION where no one view of the client holds them, or where the one that does may not be written.
#[tactic(auto, unfolding(lpc_model::specs::Ranges::nt_write_request_data))]
fn write_test(
    world: &World,
    tid: u32,
    handle: u32,
    message: &[u8],
    index: u32,
    bytes: &[u8],
) -> Result<Place, Status>
    requires { is_ready world.now.rows tid ≡ true }
    ensures found { let found = service world.now.rows tid
        (write_request_data handle message.now index bytes.now) in
        MatchResult result
        (λ it. found ≡ Ok (range_writing world.now.rows (caller world.now.rows tid) it bytes.now))
        (λ s. found ≡ Err s) }
    ensures writable { IfOk result (λ it.
        passes (view_at world.now.rows it bytes.now) (λ v. v.writable) ≡ true) }
    ensures few { IfOk result (λ it. length bytes.now ≤ MEMORY_LIMIT) }
    ensures table { IfOk result (λ it. has (is_table it.process) world.now.rows.handles
        ≡ true) }
{
    let thread = asked_test(world, tid, handle, message)?;
    let range = range_test(world, thread, index, bytes.len())?;
    let process = world.waiting(thread).process;
    if !world.is_writable(process, range.base, bytes.len() as u32) {
        return Err(ACCESS_VIOLATION);
    }
    Ok(Place {
        process,
        address: range.base,
    })
}

/// `NtWriteRequestData`: writes bytes of the client's process, from the beginning of the range of a number that the
/// request describes which the message names. Every view of that section shows them then.
///
/// Refusals: those of `NtReadRequestData`, with the number of the bytes, and ACCESS_VIOLATION too where the view that
/// holds them may not be written. It takes no memory.
pub fn nt_write_request_data(
    world: &mut World,
    by: u32,
    handle: u32,
    message: &[u8],
    index: u32,
    bytes: &[u8],
    out: &mut Entries,
) -> Outcome
    requires ready { is_ready world.old.rows by ≡ true }
    requires room { HasRoom world.old out.old }
    requires calls { world.old.calls < LINES_LIMIT }
    ensures served { let call = write_request_data handle message.now index bytes.now in
        Served by call result world.old world.new out.old out.new }
    ensures spare { out.new.spare + 1 ≡ out.old.spare }
    ensures capacity { world.new.capacity ≡ world.old.capacity }
{
    let caller = world.caller(by);
    world.begin_call();
    let place = match write_test(world, by, handle, message, index, bytes) {
        Ok(place) => place,
        Err(status) => return refuse(caller.number, CallName::NtWriteRequestData, status, out),
    };
    world.views_write(place.process, place.address, bytes);
    out.push(Entry::Answer {
        tid: caller.number,
        call: CallName::NtWriteRequestData,
        status: SUCCESS,
        fields: Fields::none(),
    });
    Outcome::Answered(SUCCESS)
}
