// Lines whose faults and messages were found by hand from the grammar.
use lpc_model::{Call, Line, ProcArg};
use lpc_script::{LineFault, Scratch, law_worked_lines, read_line};
use lpc_words::next_line;
use std::process::Abort;
use std::test::Fail;

// The line has this first fault, or none. It stands at this byte of others.
fn has_fault(
    rt: &impl Abort,
    scratch: &mut Scratch,
    line: &[u8],
    fault: Option<LineFault>,
    at: usize,
) {
    assert!(rt;
        read_line(line, scratch).err() == fault,
        "the line at byte {at}"
    );
}

// Each of these lines has this first fault, or none.
pub(crate) fn have_fault(
    rt: &impl Abort,
    scratch: &mut Scratch,
    lines: &[u8],
    fault: Option<LineFault>,
) {
    let mut rest = lines;
    for _ in 0..lines.len() {
        if rest.is_empty() {
            return;
        }
        let (line, more) = next_line(rest);
        has_fault(
            rt,
            scratch,
            line,
            fault,
            lines.len().saturating_sub(rest.len()),
        );
        rest = more;
    }
}

// The call of a line, and its thread.
pub(crate) fn run_of<'a>(
    rt: &impl Abort,
    scratch: &'a mut Scratch,
    line: &'a [u8],
) -> (u32, Call<'a>) {
    match read_line(line, scratch) {
        Ok(Some(Line::Run { tid, call })) => (tid, call),
        _ => panic!(rt; "no call"),
    }
}

// A fault of the whole line comes before those of its words. Only a line whose first byte is `#` is a comment.
fn has_faults_of_lines(rt: &impl Abort, scratch: &mut Scratch) {
    have_fault(
        rt,
        scratch,
        b"24\tNtReplyPort\nreboot \x7f\n  \t",
        Some(LineFault::Byte),
    );
    have_fault(rt, scratch, b"reboot 1 2\n # boot", Some(LineFault::Word));
    have_fault(rt, scratch, b"# \t reboot\n\n    ", None);
}

// The number of the thread comes before the call's name, the name before the count, the count before the words.
fn has_faults_of_words(rt: &impl Abort, scratch: &mut Scratch) {
    have_fault(
        rt,
        scratch,
        b"24 NtFoo\n24 NtFoo 1 2 3",
        Some(LineFault::Call),
    );
    let lines = b"24 NtReplyPort\n24\n24 NtReplyPort 08 x:41 4\n24 NtCreatePort - - -\nboot 20";
    have_fault(rt, scratch, lines, Some(LineFault::Count));
    let lines = b"24 NtReplyPort 08 d:\nboot 020 24\n0 NtFoo\n2x\nboot 0 024";
    have_fault(rt, scratch, lines, Some(LineFault::Number));
    have_fault(rt, scratch, b"24 NtReplyPort 4 d:4", Some(LineFault::Hex));
    have_fault(
        rt,
        scratch,
        b"24 NtReplyPort 4 x:41",
        Some(LineFault::Message),
    );
}

#[test]
fn the_first_fault_of_a_line_is_answered(rt: HostRuntime) -> Result<(), Fail> {
    let mut scratch = Scratch::new(rt.alloc())?;
    has_faults_of_lines(&rt, &mut scratch);
    has_faults_of_words(&rt, &mut scratch);
    Ok(())
}

// Numbers of processes, threads and handles.
const NUMBERS: &[u8] = b"boot 2147483647 0x7fffffff\n\
    24 NtReplyWaitReceivePort 0\n\
    24 NtReplyWaitReceivePort 0x0000000A\n\
    24 NtReplyWaitReceivePort 4294967295";

// Words that are too great, not in one of the two spellings, or no number.
const NO_NUMBERS: &[u8] = b"boot 2147483648 24\n\
    boot 20 0x0\n\
    24 NtReplyWaitReceivePort 4294967296\n\
    24 NtReplyWaitReceivePort 99999999999999999999\n\
    24 NtReplyWaitReceivePort 00\n\
    24 NtReplyWaitReceivePort 0x\n\
    24 NtReplyWaitReceivePort 0x000000001\n\
    24 NtReplyWaitReceivePort 0X1\n\
    24 NtReplyWaitReceivePort +1\n\
    24 NtReplyWaitReceivePort 1a";

#[test]
fn numbers_have_two_spellings(rt: HostRuntime) -> Result<(), Fail> {
    let mut scratch = Scratch::new(rt.alloc())?;
    have_fault(&rt, &mut scratch, NUMBERS, None);
    have_fault(&rt, &mut scratch, NO_NUMBERS, Some(LineFault::Number));
    Ok(())
}

// Messages as they stand, of data, and of replies.
const MESSAGES: &[u8] = b"24 NtReplyPort 4 m:\n\
    24 NtReplyPort 4 d:\n\
    24 NtReplyPort 4 r:0.0.0:\n\
    24 NtReplyPort 4 r:0x14.24.0x1:4a4B";

// Digits that are none.
const NO_DIGITS: &[u8] = b"24 NtReplyPort 4 m:41:42\n\
    24 NtReplyPort 4 d:41:42\n\
    24 NtReplyPort 4 r:1.2.3:41:42\n\
    24 NtReplyPort 4 m:4g";

// Words that are in none of the three forms.
const NO_MESSAGES: &[u8] = b"24 NtReplyPort 4 r:1.2.3\n\
    24 NtReplyPort 4 r:1.2:41\n\
    24 NtReplyPort 4 r:1.2.3.4:41\n\
    24 NtReplyPort 4 M:41\n\
    24 NtReplyPort 4 -";

// Messages of each form, and words that are none.
fn has_messages(rt: &impl Abort, scratch: &mut Scratch) {
    have_fault(rt, scratch, MESSAGES, None);
    have_fault(rt, scratch, NO_DIGITS, Some(LineFault::Hex));
    have_fault(rt, scratch, NO_MESSAGES, Some(LineFault::Message));
    let lines = b"24 NtReplyPort 4 r:a.b.c:zz\n24 NtReplyPort 4 r:1..3:41";
    have_fault(rt, scratch, lines, Some(LineFault::Number));
}

#[test]
fn messages_have_three_forms(rt: HostRuntime) -> Result<(), Fail> {
    let mut scratch = Scratch::new(rt.alloc())?;
    has_messages(&rt, &mut scratch);
    Ok(())
}

// It is this thread's reply through this handle, with these bytes.
fn is_reply(rt: &impl Abort, run: (u32, Call<'_>), thread: u32, through: u32, bytes: &[u8]) {
    let Call::ReplyPort { handle, message } = run.1 else {
        return assert!(rt; false, "no reply");
    };
    assert!(rt; run.0 == thread && handle == through);
    assert!(rt; message == bytes);
}

#[test]
fn a_reply_has_its_header_made(rt: HostRuntime) -> Result<(), Fail> {
    let mut scratch = Scratch::new(rt.alloc())?;
    let made = [
        2, 0, 26, 0, 0, 0, 0, 0, 20, 0, 0, 0, 24, 0, 0, 0, 1, 0, 0, 0, 0, 0, 0, 0, 0x43, 0xff,
    ];
    let run = run_of(&rt, &mut scratch, b"28 NtReplyPort 0x4 r:20.24.1:43fF");
    is_reply(&rt, run, 28, 4, &made);
    Ok(())
}

// Datagrams, and receives with and without a reply.
fn has_faults_of_datagrams(rt: &impl Abort, scratch: &mut Scratch) {
    have_fault(rt, scratch, b"24 NtRequestPort 4 d:41", None);
    let lines = b"24 NtRequestPort 4\n24 NtRequestPort 04 x: 1";
    have_fault(rt, scratch, lines, Some(LineFault::Count));
    have_fault(
        rt,
        scratch,
        b"24 NtRequestPort 04 x:",
        Some(LineFault::Number),
    );
    have_fault(
        rt,
        scratch,
        b"24 NtRequestPort 4 -",
        Some(LineFault::Message),
    );
}

fn has_faults_of_receives(rt: &impl Abort, scratch: &mut Scratch) {
    let lines = b"24 NtReplyWaitReceivePort\n24 NtReplyWaitReceivePort 4 d: d:";
    have_fault(rt, scratch, lines, Some(LineFault::Count));
    have_fault(
        rt,
        scratch,
        b"24 NtReplyWaitReceivePort 04 -",
        Some(LineFault::Number),
    );
    have_fault(
        rt,
        scratch,
        b"24 NtReplyWaitReceivePort 4 -",
        Some(LineFault::Message),
    );
    have_fault(
        rt,
        scratch,
        b"24 NtReplyWaitReceivePort 4 d:4",
        Some(LineFault::Hex),
    );
}

// It is a datagram through this handle, with these bytes.
fn is_datagram(rt: &impl Abort, run: (u32, Call<'_>), through: u32, bytes: &[u8]) {
    let Call::RequestPort { handle, message } = run.1 else {
        return assert!(rt; false, "no datagram");
    };
    assert!(rt; handle == through);
    assert!(rt; message == bytes);
}

// It is a receive through this handle, with a reply of these bytes.
fn is_receive(rt: &impl Abort, run: (u32, Call<'_>), through: u32, bytes: &[u8]) {
    let Call::ReplyWaitReceivePort { handle, reply } = run.1 else {
        return assert!(rt; false, "no receive");
    };
    assert!(rt; handle == through);
    assert!(rt; reply == Some(bytes));
}

#[test]
fn a_datagram_has_a_message_and_a_receive_may_have_one(rt: HostRuntime) -> Result<(), Fail> {
    let mut scratch = Scratch::new(rt.alloc())?;
    has_faults_of_datagrams(&rt, &mut scratch);
    has_faults_of_receives(&rt, &mut scratch);
    let run = run_of(&rt, &mut scratch, b"24 NtRequestPort 8 m:41fF");
    is_datagram(&rt, run, 8, b"\x41\xff");
    let run = run_of(&rt, &mut scratch, b"28 NtReplyWaitReceivePort 4 m:42");
    is_receive(&rt, run, 4, b"B");
    Ok(())
}

// Too few and too many words, and words that are no directive or no call.
fn has_faults_of_paths(rt: &impl Abort, scratch: &mut Scratch) {
    let lines =
        b"24 NtCreatePort\n24 NtCreatePort \\A \\B \\C\ndir\ndir \\A \\B\nlink \\A\nlink \\A \\B \\C";
    have_fault(rt, scratch, lines, Some(LineFault::Count));
    have_fault(rt, scratch, b"dirs \\A", Some(LineFault::Word));
    have_fault(rt, scratch, b"24 dir \\A", Some(LineFault::Call));
}

// It makes a port of this name.
fn creates(rt: &impl Abort, run: (u32, Call<'_>), named: Option<&[u8]>) {
    let Call::CreatePort { name, .. } = run.1 else {
        return assert!(rt; false, "no port");
    };
    assert!(rt; name == named);
}

// Three names.
fn reads_names(rt: &impl Abort, scratch: &mut Scratch) {
    creates(rt, run_of(rt, scratch, b"24 NtCreatePort -"), None);
    creates(
        rt,
        run_of(rt, scratch, b"24 NtCreatePort  \\A "),
        Some(b"\\A"),
    );
    creates(rt, run_of(rt, scratch, b"24 NtCreatePort x"), Some(b"x"));
}

// The line makes this directory.
fn makes_directory(rt: &impl Abort, scratch: &mut Scratch, line: &[u8], named: &[u8]) {
    match read_line(line, scratch) {
        Ok(Some(Line::Dir(path))) => assert!(rt; path == named),
        _ => assert!(rt; false, "no directory"),
    }
}

// The line makes this link.
fn makes_link(rt: &impl Abort, scratch: &mut Scratch, line: &[u8], from: &[u8], to: &[u8]) {
    match read_line(line, scratch) {
        Ok(Some(Line::Link { path, target })) => assert!(rt; path == from && target == to),
        _ => assert!(rt; false, "no link"),
    }
}

#[test]
fn names_and_paths_are_words_as_they_stand(rt: HostRuntime) -> Result<(), Fail> {
    let mut scratch = Scratch::new(rt.alloc())?;
    has_faults_of_paths(&rt, &mut scratch);
    reads_names(&rt, &mut scratch);
    makes_directory(&rt, &mut scratch, b"dir -", b"-");
    makes_link(&rt, &mut scratch, b"link \\L \\A\\B", b"\\L", b"\\A\\B");
    Ok(())
}

// Words that may not stand where a connect has none or `-`.
const NO_WORDS_OF_CONNECTS: &[u8] = b"36 NtConnectPort \\P q:2:x - -\n\
    36 NtConnectPort \\P -- - -\n\
    36 NtConnectPort \\P - w:4:0 x\n\
    36 NtConnectPort \\P - w:4:0:0:0 -\n\
    36 NtConnectPort \\P - 0 -";

// Bytes in a form that a connect has not.
const NO_BYTES_OF_CONNECTS: &[u8] = b"36 NtConnectPort \\P - - m:41\n\
    36 NtConnectPort \\P - - r:1.2.3:41\n\
    36 NtConnectPort \\P - - 41\n\
    36 NtConnectPort \\P - - --";

fn has_faults_of_connects(rt: &impl Abort, scratch: &mut Scratch) {
    let lines = b"36 NtConnectPort\n36 NtConnectPort \\P - -\n36 NtConnectPort \\P q - x -";
    have_fault(rt, scratch, lines, Some(LineFault::Count));
    have_fault(rt, scratch, NO_WORDS_OF_CONNECTS, Some(LineFault::Word));
    let lines = b"36 NtConnectPort \\P - - d:0\n36 NtConnectPort \\P - - d:-";
    have_fault(rt, scratch, lines, Some(LineFault::Hex));
    have_fault(rt, scratch, NO_BYTES_OF_CONNECTS, Some(LineFault::Message));
}

// It connects to this name, with these bytes.
fn connects(rt: &impl Abort, run: (u32, Call<'_>), given: &[u8], bytes: &[u8]) {
    let Call::ConnectPort {
        name,
        view,
        info,
        ..
    } = run.1
    else {
        return assert!(rt; false, "no connect");
    };
    assert!(rt; name == given);
    assert!(rt; view.is_none() && info == bytes);
}

// Three connects.
fn reads_connects(rt: &impl Abort, scratch: &mut Scratch) {
    connects(
        rt,
        run_of(rt, scratch, b"36 NtConnectPort \\P - - -"),
        b"\\P",
        b"",
    );
    connects(
        rt,
        run_of(rt, scratch, b"36 NtConnectPort - - - d:"),
        b"-",
        b"",
    );
    connects(
        rt,
        run_of(rt, scratch, b"36 NtConnectPort x - - d:4869fF"),
        b"x",
        b"Hi\xff",
    );
}

#[test]
fn a_connect_has_a_name_and_bytes(rt: HostRuntime) -> Result<(), Fail> {
    let mut scratch = Scratch::new(rt.alloc())?;
    has_faults_of_connects(&rt, &mut scratch);
    reads_connects(&rt, &mut scratch);
    Ok(())
}

// It is a connect with so many bytes.
fn connects_with(rt: &impl Abort, run: (u32, Call<'_>), count: usize) {
    let Call::ConnectPort { info, .. } = run.1 else {
        return assert!(rt; false, "no connect");
    };
    assert!(rt; info.len() == count);
}

#[test]
fn the_bytes_of_a_connect_may_be_too_many_for_the_call(rt: HostRuntime) -> Result<(), Fail> {
    let alloc = rt.alloc();
    let mut scratch = Scratch::new(alloc)?;
    let mut line = b"36 NtConnectPort \\P - - d:".to_vec(alloc)?;
    for _ in 0..233 {
        line.extend_from_slice(b"61")?;
    }
    let run = run_of(&rt, &mut scratch, &line);
    connects_with(&rt, run, 233);
    Ok(())
}

// Words that may not stand where an accept has one of two, or `-`.
const NO_WORDS_OF_ACCEPTS: &[u8] = b"24 NtAcceptConnectPort 7 d: Accept -\n\
    24 NtAcceptConnectPort 7 d: refused -\n\
    24 NtAcceptConnectPort 7 d: accept 0\n\
    24 NtAcceptConnectPort 7 d: refuse w:4:0";

fn has_faults_of_accepts(rt: &impl Abort, scratch: &mut Scratch) {
    let lines = b"24 NtAcceptConnectPort 7 d: accept\n24 NtAcceptConnectPort x x x x x";
    have_fault(rt, scratch, lines, Some(LineFault::Count));
    have_fault(
        rt,
        scratch,
        b"24 NtAcceptConnectPort - x x x",
        Some(LineFault::Number),
    );
    have_fault(
        rt,
        scratch,
        b"24 NtAcceptConnectPort 7 - x x",
        Some(LineFault::Message),
    );
    have_fault(
        rt,
        scratch,
        b"24 NtAcceptConnectPort 7 d:0 x x",
        Some(LineFault::Hex),
    );
    have_fault(rt, scratch, NO_WORDS_OF_ACCEPTS, Some(LineFault::Word));
}

// It accepts or refuses, with the context 16 and the bytes `AB`.
fn is_accept(rt: &impl Abort, run: (u32, Call<'_>), accepted: bool) {
    let Call::AcceptConnectPort {
        context,
        message,
        accept,
        view,
    } = run.1
    else {
        return assert!(rt; false, "no accept");
    };
    assert!(rt; context == 16 && accept == accepted && view.is_none());
    assert!(rt; message == b"AB".as_slice());
}

#[test]
fn an_accept_has_a_context_and_a_message(rt: HostRuntime) -> Result<(), Fail> {
    let mut scratch = Scratch::new(rt.alloc())?;
    has_faults_of_accepts(&rt, &mut scratch);
    let run = run_of(
        &rt,
        &mut scratch,
        b"24 NtAcceptConnectPort 0x10 m:4142 accept -",
    );
    is_accept(&rt, run, true);
    let run = run_of(
        &rt,
        &mut scratch,
        b"24 NtAcceptConnectPort 16 m:4142 refuse -",
    );
    is_accept(&rt, run, false);
    Ok(())
}

// It connects, or accepts, with this view.
fn offers(rt: &impl Abort, run: (u32, Call<'_>), handle: u32, offset: u32, size: u32) {
    let view = match run.1 {
        Call::ConnectPort { view, .. } | Call::AcceptConnectPort { view, .. } => view,
        _ => None,
    };
    let Some(view) = view else {
        return assert!(rt; false, "no view");
    };
    assert!(rt; view.handle == handle && view.offset == offset && view.size == size);
}

#[test]
fn a_connect_and_its_answer_may_offer_a_view(rt: HostRuntime) -> Result<(), Fail> {
    let mut scratch = Scratch::new(rt.alloc())?;
    let line = b"36 NtConnectPort \\P - w:8:0x1000:0 x";
    have_fault(&rt, &mut scratch, line, Some(LineFault::Message));
    let line = b"36 NtConnectPort \\P - w:::0 x";
    have_fault(&rt, &mut scratch, line, Some(LineFault::Number));
    let run = run_of(&rt, &mut scratch, b"36 NtConnectPort \\P - w:8:0x1000:0 -");
    offers(&rt, run, 8, 4096, 0);
    let run = run_of(
        &rt,
        &mut scratch,
        b"24 NtAcceptConnectPort 7 d: refuse w:4:0:1",
    );
    offers(&rt, run, 4, 0, 1);
    Ok(())
}

// Words that are no handle.
const NO_HANDLES: &[u8] = b"24 NtListenPort 04\n\
    24 NtListenPort -\n\
    24 NtCompleteConnectPort self";

fn has_faults_of_handles(rt: &impl Abort, scratch: &mut Scratch) {
    let lines = b"24 NtListenPort\n24 NtListenPort 04 4";
    have_fault(rt, scratch, lines, Some(LineFault::Count));
    let lines = b"24 NtCompleteConnectPort\n24 NtCompleteConnectPort 8 d:";
    have_fault(rt, scratch, lines, Some(LineFault::Count));
    have_fault(rt, scratch, NO_HANDLES, Some(LineFault::Number));
}

// It listens on a handle, or completes the connection of one.
fn has_handle(rt: &impl Abort, run: (u32, Call<'_>), completes: bool, given: u32) {
    match run.1 {
        Call::ListenPort { handle } => assert!(rt; !completes && handle == given),
        Call::CompleteConnectPort { handle } => assert!(rt; completes && handle == given),
        _ => assert!(rt; false, "no listen and no complete"),
    }
}

#[test]
fn a_listen_and_a_complete_have_a_handle(rt: HostRuntime) -> Result<(), Fail> {
    let mut scratch = Scratch::new(rt.alloc())?;
    has_faults_of_handles(&rt, &mut scratch);
    let run = run_of(&rt, &mut scratch, b"24 NtListenPort 4");
    has_handle(&rt, run, false, 4);
    let run = run_of(&rt, &mut scratch, b"24 NtCompleteConnectPort 0x8");
    has_handle(&rt, run, true, 8);
    Ok(())
}

// Words that are neither a handle nor `self`, and words that are no status.
const NO_TARGETS: &[u8] = b"24 NtTerminateThread Self 0\n\
    24 NtTerminateThread - 0\n\
    24 NtTerminateThread same 0\n\
    24 NtTerminateProcess 04 self\n\
    24 NtTerminateProcess self 00\n\
    24 NtTerminateProcess self self\n\
    24 NtRegisterThreadTerminatePort self";

fn has_faults_of_endings(rt: &impl Abort, scratch: &mut Scratch) {
    let lines = b"24 NtTerminateThread self\n24 NtTerminateProcess\n24 NtTerminateProcess - - -";
    have_fault(rt, scratch, lines, Some(LineFault::Count));
    let lines = b"24 NtRegisterThreadTerminatePort\n24 NtRegisterThreadTerminatePort 04 4";
    have_fault(rt, scratch, lines, Some(LineFault::Count));
    have_fault(rt, scratch, NO_TARGETS, Some(LineFault::Number));
}

// It ends its own thread or process where there is no handle, else the one of the handle.
fn is_target(rt: &impl Abort, target: ProcArg, given: Option<u32>) {
    match target {
        ProcArg::Current => assert!(rt; given.is_none()),
        ProcArg::By(handle) => assert!(rt; given == Some(handle)),
    }
}

// It ends a thread with this status.
fn ends_thread(rt: &impl Abort, run: (u32, Call<'_>), given: Option<u32>, status: u32) {
    let Call::TerminateThread { thread, code } = run.1 else {
        return assert!(rt; false, "no end of a thread");
    };
    is_target(rt, thread, given);
    assert!(rt; code == status);
}

// It ends a process with this status.
fn ends_process(rt: &impl Abort, run: (u32, Call<'_>), given: Option<u32>, status: u32) {
    let Call::TerminateProcess { process, code } = run.1 else {
        return assert!(rt; false, "no end of a process");
    };
    is_target(rt, process, given);
    assert!(rt; code == status);
}

// It registers the port of this handle.
fn registers(rt: &impl Abort, run: (u32, Call<'_>), given: u32) {
    let Call::RegisterThreadTerminatePort { handle } = run.1 else {
        return assert!(rt; false, "no registration");
    };
    assert!(rt; handle == given);
}

// Two ends of threads, and two of processes.
fn reads_endings(rt: &impl Abort, scratch: &mut Scratch) {
    let run = run_of(rt, scratch, b"24 NtTerminateThread self 0");
    ends_thread(rt, run, None, 0);
    let run = run_of(rt, scratch, b"24 NtTerminateThread 0x4 259");
    ends_thread(rt, run, Some(4), 259);
    let run = run_of(rt, scratch, b"24 NtTerminateProcess self 0xC0000005");
    ends_process(rt, run, None, 0xc0000005);
    let run = run_of(rt, scratch, b"24 NtTerminateProcess 8 1");
    ends_process(rt, run, Some(8), 1);
}

#[test]
fn an_end_has_a_target_and_a_status(rt: HostRuntime) -> Result<(), Fail> {
    let mut scratch = Scratch::new(rt.alloc())?;
    has_faults_of_endings(&rt, &mut scratch);
    reads_endings(&rt, &mut scratch);
    let run = run_of(&rt, &mut scratch, b"24 NtRegisterThreadTerminatePort 0xc");
    registers(&rt, run, 12);
    Ok(())
}

// It is a reply with a message of so many bytes.
fn is_reply_of(rt: &impl Abort, run: (u32, Call<'_>), count: usize) {
    let Call::ReplyPort { message, .. } = run.1 else {
        return assert!(rt; false, "no reply");
    };
    assert!(rt; message.len() == count);
}

// Zeros behind a line.
fn add_zeros(line: &mut Vec<u8>, count: usize) -> Result<(), Fail> {
    for _ in 0..count {
        line.push(b'0')?;
    }
    Ok(())
}

#[test]
fn a_line_has_at_most_16384_bytes(rt: HostRuntime) -> Result<(), Fail> {
    let alloc = rt.alloc();
    let mut scratch = Scratch::new(alloc)?;
    let mut line = b"24  NtReplyPort 4 m:0".to_vec(alloc)?;
    add_zeros(&mut line, 16_362)?;
    has_fault(&rt, &mut scratch, &line, Some(LineFault::Hex), 0);
    add_zeros(&mut line, 1)?;
    let run = run_of(&rt, &mut scratch, &line);
    is_reply_of(&rt, run, 8182);
    line.push(b'\t')?;
    has_fault(&rt, &mut scratch, &line, Some(LineFault::Long), 0);
    Ok(())
}

// The first line of a text is this, and something follows it or doesn't.
fn first_line<'a>(rt: &impl Abort, text: &'a [u8], line: &[u8], is_last: bool) -> &'a [u8] {
    assert!(rt; !text.is_empty());
    let (first, rest) = next_line(text);
    assert!(rt; first == line);
    assert!(rt; rest.is_empty() == is_last);
    rest
}

#[test]
fn a_script_falls_into_lines(rt: HostRuntime) {
    law_worked_lines();
    let rest = first_line(&rt, b"boot 20 24\n\n# end", b"boot 20 24", false);
    let rest = first_line(&rt, rest, b"", false);
    first_line(&rt, rest, b"# end", true);
}
