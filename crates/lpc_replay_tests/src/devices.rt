// Sources and sinks that fail, over the smallest script. Its text goes to the sink in seven pieces.
use crate::common::{runs, sink, sink_in_pieces, source};
use std::alloc::Global;
use std::process::Abort;
use std::test::Fail;

const SCRIPT: &str = "boot 20 24\n\
    thread 28 20\n\
    24 NtCreatePort -\n\
    24 NtRequestWaitReplyPort 4 d:4142\n\
    28 NtReplyWaitReceivePort 4\n\
    28 NtReplyPort 4 r:20.24.1:43\n";

// What each line tells, and the last line.
const PIECES: [&str; 7] = [
    "1 - boot 00000000\n",
    "2 - thread 00000000\n",
    "3 24 NtCreatePort 00000000 h=4\n",
    "4 24 NtRequestWaitReplyPort wait id=1\n",
    "5 28 NtReplyWaitReceivePort 00000000 ctx=00000000 msg=02001a0001000000140000001800000001000000000000004142\n",
    "6 28 NtReplyPort 00000000\n\
     6 *24 NtRequestWaitReplyPort 00000000 msg=01001900020000001400000018000000010000000000000043\n",
    "end 6 7 4\n",
];

// The script for a sink that takes all that it is given, and fails the call of this number.
fn failing_at(
    rt: &impl Abort,
    alloc: Global,
    call: u64,
    status: u8,
    text: &str,
) -> Result<(), Fail> {
    let mut source = source(alloc, SCRIPT.as_bytes(), 4096, &[])?;
    let mut sink = sink_in_pieces(alloc, 4096, 4096, &[call])?;
    runs(rt, alloc, &["replay"], &mut source, &mut sink, status, text)
}

#[test]
fn a_sink_that_fails_one_call_has_the_pieces_before(rt: HostRuntime) -> Result<(), Fail> {
    let alloc = rt.alloc();
    let mut text = String::new(alloc);
    let mut call = 0u64;
    for piece in PIECES {
        call = call.saturating_add(1);
        failing_at(&rt, alloc, call, 4, text.as_str())?;
        text.push_str(piece)?;
    }
    // It makes seven calls, so the failure of an eighth is never met.
    failing_at(&rt, alloc, 8, 0, text.as_str())
}

#[test]
fn a_sink_that_takes_five_bytes_a_call_has_the_whole(rt: HostRuntime) -> Result<(), Fail> {
    let alloc = rt.alloc();
    let mut text = String::new(alloc);
    for piece in PIECES {
        text.push_str(piece)?;
    }
    let mut source = source(alloc, SCRIPT.as_bytes(), 4096, &[])?;
    let mut sink = sink(alloc, 4096, &[])?;
    runs(
        &rt,
        alloc,
        &["replay"],
        &mut source,
        &mut sink,
        0,
        text.as_str(),
    )
}

#[test]
fn a_sink_with_room_for_twenty_bytes_has_twenty(rt: HostRuntime) -> Result<(), Fail> {
    let alloc = rt.alloc();
    let mut source = source(alloc, SCRIPT.as_bytes(), 4096, &[])?;
    let mut sink = sink(alloc, 20, &[])?;
    runs(
        &rt,
        alloc,
        &["replay"],
        &mut source,
        &mut sink,
        4,
        "1 - boot 00000000\n2 ",
    )
}

// The script from a source that gives a byte a call and fails the call of this number.
fn cut_short_at(rt: &impl Abort, alloc: Global, call: u64, text: &str) -> Result<(), Fail> {
    let mut source = source(alloc, SCRIPT.as_bytes(), 1, &[call])?;
    let mut sink = sink(alloc, 4096, &[])?;
    runs(rt, alloc, &["replay"], &mut source, &mut sink, 3, text)
}

#[test]
fn a_source_that_fails_loses_the_line_that_it_fails_in(rt: HostRuntime) -> Result<(), Fail> {
    let alloc = rt.alloc();
    cut_short_at(&rt, alloc, 12, "1 - boot 00000000\n")?;
    cut_short_at(&rt, alloc, 1, "")
}
