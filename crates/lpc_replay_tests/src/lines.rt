// Scripts that come in pieces: each line is run before the next one is read.
ghost use Rattle.std.specs.Prelude.{◌<◌};

use crate::common::{runs, sink, source};
use lpc_base::{MemSource, Source};
use std::alloc::Global;
use std::process::Abort;
use std::test::Fail;

// So many bytes are left in a source that gives one a call.
fn are_left(rt: &impl Abort, source: &mut MemSource, count: u64) {
    let mut room = [0u8; 1];
    let mut given: u64 = 0;
    for _ in 0..=count {
        match source.read(&mut room) {
            Ok(0) => break,
            Ok(_) => given = given.saturating_add(1),
            Err(_) => return assert!(rt; false, "the source failed"),
        }
    }
    assert!(rt; given == count);
}

#[test]
fn a_line_is_sent_before_a_later_one_is_read(rt: HostRuntime) -> Result<(), Fail> {
    let alloc = rt.alloc();
    let comments = "#\n".repeat(alloc, 10_000)?;
    let mut script = b"boot 20 24\n".to_vec(alloc)?;
    script.extend_from_slice(comments.as_str().as_bytes())?;
    let mut source = source(alloc, &script, 1, &[])?;
    let mut sink = sink(alloc, 4096, &[1])?;
    runs(&rt, alloc, &["replay"], &mut source, &mut sink, 4, "")?;
    are_left(&rt, &mut source, 20_000);
    Ok(())
}

// Two clients wait for replies, which come in the other order.
const SCRIPT: &str = "dir \\Windows\n\
     boot 20 24\n\
     boot 32 36\n\
     24 NtCreatePort \\Windows\\ApiPort\n\
     36 NtConnectPort \\Windows\\ApiPort - - -\n\
     24 NtListenPort 4\n\
     24 NtAcceptConnectPort 7 r:32.36.1: accept -\n\
     24 NtCompleteConnectPort 8\n\
     boot 40 44\n\
     44 NtConnectPort \\Windows\\ApiPort - - -\n\
     24 NtListenPort 4\n\
     24 NtAcceptConnectPort 9 r:40.44.1: accept -\n\
     24 NtCompleteConnectPort 12\n\
     36 NtRequestWaitReplyPort 4 d:61\n\
     44 NtRequestWaitReplyPort 4 d:62\n\
     24 NtReplyWaitReceivePort 4\n\
     24 NtReplyWaitReceivePort 4\n\
     24 NtReplyPort 4 r:40.44.2:42\n\
     24 NtReplyPort 4 r:32.36.2:41\n";

const TRANSCRIPT: &str = "1 - dir 00000000\n\
     2 - boot 00000000\n\
     3 - boot 00000000\n\
     4 24 NtCreatePort 00000000 h=4\n\
     5 36 NtConnectPort wait id=1\n\
     6 24 NtListenPort 00000000 msg=000018000a00000020000000240000000100000000000000\n\
     7 24 NtAcceptConnectPort 00000000 h=8\n\
     8 24 NtCompleteConnectPort 00000000\n\
     8 *36 NtConnectPort 00000000 h=4 max=256 info=\n\
     9 - boot 00000000\n\
     10 44 NtConnectPort wait id=1\n\
     11 24 NtListenPort 00000000 msg=000018000a000000280000002c0000000100000000000000\n\
     12 24 NtAcceptConnectPort 00000000 h=12\n\
     13 24 NtCompleteConnectPort 00000000\n\
     13 *44 NtConnectPort 00000000 h=4 max=256 info=\n\
     14 36 NtRequestWaitReplyPort wait id=2\n\
     15 44 NtRequestWaitReplyPort wait id=2\n\
     16 24 NtReplyWaitReceivePort 00000000 ctx=00000007 msg=01001900010000002000000024000000020000000000000061\n\
     17 24 NtReplyWaitReceivePort 00000000 ctx=00000009 msg=0100190001000000280000002c000000020000000000000062\n\
     18 24 NtReplyPort 00000000\n\
     18 *44 NtRequestWaitReplyPort 00000000 msg=0100190002000000280000002c000000020000000000000042\n\
     19 24 NtReplyPort 00000000\n\
     19 *36 NtRequestWaitReplyPort 00000000 msg=01001900020000002000000024000000020000000000000041\n\
     end 19 23 11\n";

// The script comes in pieces of so many bytes.
fn come(rt: &impl Abort, alloc: Global, piece: usize) -> Result<(), Fail>
    requires { 0 < piece }
{
    let mut source = source(alloc, SCRIPT.as_bytes(), piece, &[])?;
    let mut sink = sink(alloc, 4096, &[])?;
    runs(
        rt,
        alloc,
        &["replay"],
        &mut source,
        &mut sink,
        0,
        TRANSCRIPT,
    )
}

#[test]
fn pieces_of_any_size_make_the_same_lines(rt: HostRuntime) -> Result<(), Fail> {
    come(&rt, rt.alloc(), 1)?;
    come(&rt, rt.alloc(), 7)?;
    come(&rt, rt.alloc(), 4096)
}
