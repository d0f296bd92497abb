// Whole scripts, and what is sent for them: the transcripts are written out by hand.
use crate::common::{answered, replayed, replayed_with, runs, sink, source};
use std::alloc::Global;
use std::process::Abort;
use std::test::Fail;

#[test]
fn a_request_returns_with_its_reply(rt: HostRuntime) -> Result<(), Fail> {
    replayed(
        &rt,
        rt.alloc(),
        "boot 20 24\n\
         thread 28 20\n\
         24 NtCreatePort -\n\
         24 NtRequestWaitReplyPort 4 d:4142\n\
         28 NtReplyWaitReceivePort 4\n\
         28 NtReplyPort 4 r:20.24.1:43\n",
        0,
        "1 - boot 00000000\n\
         2 - thread 00000000\n\
         3 24 NtCreatePort 00000000 h=4\n\
         4 24 NtRequestWaitReplyPort wait id=1\n\
         5 28 NtReplyWaitReceivePort 00000000 ctx=00000000 msg=02001a0001000000140000001800000001000000000000004142\n\
         6 28 NtReplyPort 00000000\n\
         6 *24 NtRequestWaitReplyPort 00000000 msg=01001900020000001400000018000000010000000000000043\n\
         end 6 7 4\n",
    )
}

#[test]
fn a_mismatched_reply_is_refused_and_the_request_still_waits(rt: HostRuntime) -> Result<(), Fail> {
    replayed(
        &rt,
        rt.alloc(),
        "boot 20 24\n\
         thread 28 20\n\
         24 NtCreatePort -\n\
         24 NtRequestWaitReplyPort 4 d:4142\n\
         28 NtReplyWaitReceivePort 4\n\
         28 NtReplyPort 4 r:20.24.2:43\n\
         28 NtReplyPort 4 r:20.24.1:43\n",
        0,
        "1 - boot 00000000\n\
         2 - thread 00000000\n\
         3 24 NtCreatePort 00000000 h=4\n\
         4 24 NtRequestWaitReplyPort wait id=1\n\
         5 28 NtReplyWaitReceivePort 00000000 ctx=00000000 msg=02001a0001000000140000001800000001000000000000004142\n\
         6 28 NtReplyPort c000021f\n\
         7 28 NtReplyPort 00000000\n\
         7 *24 NtRequestWaitReplyPort 00000000 msg=01001900020000001400000018000000010000000000000043\n\
         end 7 8 4\n",
    )
}

#[test]
fn no_reply_fits_a_queued_request_or_no_thread(rt: HostRuntime) -> Result<(), Fail> {
    replayed(
        &rt,
        rt.alloc(),
        "boot 20 24\n\
         thread 28 20\n\
         24 NtCreatePort -\n\
         24 NtRequestWaitReplyPort 4 d:4142\n\
         28 NtReplyPort 4 r:20.24.1:43\n",
        0,
        "1 - boot 00000000\n\
         2 - thread 00000000\n\
         3 24 NtCreatePort 00000000 h=4\n\
         4 24 NtRequestWaitReplyPort wait id=1\n\
         5 28 NtReplyPort c000021f\n\
         end 5 5 4\n",
    )?;
    replayed(
        &rt,
        rt.alloc(),
        "boot 20 24\n\
         thread 28 20\n\
         24 NtCreatePort -\n\
         24 NtRequestWaitReplyPort 4 d:4142\n\
         28 NtReplyWaitReceivePort 4\n\
         28 NtReplyPort 4 r:20.99.1:43\n",
        0,
        "1 - boot 00000000\n\
         2 - thread 00000000\n\
         3 24 NtCreatePort 00000000 h=4\n\
         4 24 NtRequestWaitReplyPort wait id=1\n\
         5 28 NtReplyWaitReceivePort 00000000 ctx=00000000 msg=02001a0001000000140000001800000001000000000000004142\n\
         6 28 NtReplyPort c000000b\n\
         end 6 6 4\n",
    )
}

#[test]
fn a_message_is_refused_by_its_length_and_its_sizes(rt: HostRuntime) -> Result<(), Fail> {
    replayed_with(
        &rt,
        rt.alloc(),
        "61",
        232,
        "boot 20 24\n\
         thread 28 20\n\
         24 NtCreatePort -\n\
         24 NtRequestWaitReplyPort 4 d:61~\n\
         24 NtRequestWaitReplyPort 4 d:~\n",
        "1 - boot 00000000\n\
         2 - thread 00000000\n\
         3 24 NtCreatePort 00000000 h=4\n\
         4 24 NtRequestWaitReplyPort c000002f\n\
         5 24 NtRequestWaitReplyPort wait id=1\n\
         end 5 5 4\n",
    )?;
    replayed(
        &rt,
        rt.alloc(),
        "boot 20 24\n\
         thread 28 20\n\
         24 NtCreatePort -\n\
         24 NtRequestWaitReplyPort 4 m:05001c0000000000000000000000000000000000000000006162636465\n\
         24 NtRequestWaitReplyPort 4 m:0000\n\
         24 NtRequestWaitReplyPort 4 m:05001d0000000000000000000000000000000000000000006162636465\n",
        0,
        "1 - boot 00000000\n\
         2 - thread 00000000\n\
         3 24 NtCreatePort 00000000 h=4\n\
         4 24 NtRequestWaitReplyPort c000000d\n\
         5 24 NtRequestWaitReplyPort c000000d\n\
         6 24 NtRequestWaitReplyPort wait id=1\n\
         end 6 6 4\n",
    )
}

#[test]
fn a_datagram_is_queued_or_wakes_the_longest_wait(rt: HostRuntime) -> Result<(), Fail> {
    replayed(
        &rt,
        rt.alloc(),
        "boot 20 24\n\
         thread 28 20\n\
         24 NtCreatePort -\n\
         24 NtRequestPort 4 d:4142\n\
         24 NtRequestPort 4 m:01001c00070000006300000062000000050000000900000043\n\
         28 NtReplyWaitReceivePort 4\n\
         28 NtReplyWaitReceivePort 4\n\
         28 NtReplyPort 4 r:20.24.1:44\n\
         thread 32 20\n\
         32 NtReplyWaitReceivePort 4\n\
         28 NtReplyWaitReceivePort 4\n\
         24 NtRequestPort 4 d:45\n\
         24 NtRequestPort 4 d:\n\
         28 NtRequestPort 4 d:46\n",
        0,
        "1 - boot 00000000\n\
         2 - thread 00000000\n\
         3 24 NtCreatePort 00000000 h=4\n\
         4 24 NtRequestPort 00000000 id=1\n\
         5 24 NtRequestPort 00000000 id=2\n\
         6 28 NtReplyWaitReceivePort 00000000 ctx=00000000 msg=02001a0003000000140000001800000001000000000000004142\n\
         7 28 NtReplyWaitReceivePort 00000000 ctx=00000000 msg=01001c00030000001400000018000000020000000000000043\n\
         8 28 NtReplyPort c000021f\n\
         9 - thread 00000000\n\
         10 32 NtReplyWaitReceivePort wait\n\
         11 28 NtReplyWaitReceivePort wait\n\
         12 24 NtRequestPort 00000000 id=3\n\
         12 *32 NtReplyWaitReceivePort 00000000 ctx=00000000 msg=01001900030000001400000018000000030000000000000045\n\
         13 24 NtRequestPort 00000000 id=4\n\
         13 *28 NtReplyWaitReceivePort 00000000 ctx=00000000 msg=000018000300000014000000180000000400000000000000\n\
         14 28 NtRequestPort 00000000 id=1\n\
         end 14 16 5\n",
    )
}

#[test]
fn a_datagram_is_refused_by_its_handle_its_shape_and_its_length(
    rt: HostRuntime,
) -> Result<(), Fail> {
    replayed_with(
        &rt,
        rt.alloc(),
        "61",
        232,
        "boot 20 24\n\
         thread 28 20\n\
         24 NtCreatePort -\n\
         24 NtRequestPort 8 m:0000\n\
         24 NtRequestPort 4 m:0000\n\
         24 NtRequestPort 4 m:04001d0000000000000000000000000000000000000000006162636465\n\
         24 NtRequestPort 4 m:000018000000100000000000000000000000000000000000\n\
         24 NtRequestPort 4 d:61~\n\
         24 NtRequestPort 4 d:~\n\
         24 NtRequestPort 4 m:04001c00000018000000000000000000000000000000000000000000\n\
         28 NtReplyWaitReceivePort 4\n\
         28 NtReplyWaitReceivePort 4\n\
         36 NtRequestPort 4 d:\n",
        "1 - boot 00000000\n\
         2 - thread 00000000\n\
         3 24 NtCreatePort 00000000 h=4\n\
         4 24 NtRequestPort c0000008\n\
         5 24 NtRequestPort c000000d\n\
         6 24 NtRequestPort c000000d\n\
         7 24 NtRequestPort c000000d\n\
         8 24 NtRequestPort c000002f\n\
         9 24 NtRequestPort 00000000 id=1\n\
         10 24 NtRequestPort 00000000 id=2\n\
         11 28 NtReplyWaitReceivePort 00000000 ctx=00000000 msg=e80000010300000014000000180000000100000000000000~\n\
         12 28 NtReplyWaitReceivePort 00000000 ctx=00000000 msg=04001c00030018001400000018000000020000000000000000000000\n\
         13 36 nothread\n\
         end 13 13 4\n",
    )
}

// The port counts, not the thread; the message is looked at before; other ports and requests don't count.
#[test]
fn a_port_has_32_datagrams_in_queues_and_sends_on_after_a_receive(
    rt: HostRuntime,
) -> Result<(), Fail> {
    replayed_with(
        &rt,
        rt.alloc(),
        "24 NtRequestPort 4 d:61\n",
        32,
        "boot 20 24\n\
         thread 28 20\n\
         24 NtCreatePort -\n\
         ~\
         24 NtRequestPort 4 d:62\n\
         28 NtRequestPort 4 d:62\n\
         24 NtRequestPort 4 m:0000\n\
         24 NtCreatePort -\n\
         24 NtRequestPort 8 d:62\n\
         28 NtRequestWaitReplyPort 4 d:63\n\
         24 NtReplyWaitReceivePort 4\n\
         24 NtRequestPort 4 d:64\n\
         24 NtRequestPort 4 d:64\n",
        "1 - boot 00000000\n\
         2 - thread 00000000\n\
         3 24 NtCreatePort 00000000 h=4\n\
         4 24 NtRequestPort 00000000 id=1\n\
         5 24 NtRequestPort 00000000 id=2\n\
         6 24 NtRequestPort 00000000 id=3\n\
         7 24 NtRequestPort 00000000 id=4\n\
         8 24 NtRequestPort 00000000 id=5\n\
         9 24 NtRequestPort 00000000 id=6\n\
         10 24 NtRequestPort 00000000 id=7\n\
         11 24 NtRequestPort 00000000 id=8\n\
         12 24 NtRequestPort 00000000 id=9\n\
         13 24 NtRequestPort 00000000 id=10\n\
         14 24 NtRequestPort 00000000 id=11\n\
         15 24 NtRequestPort 00000000 id=12\n\
         16 24 NtRequestPort 00000000 id=13\n\
         17 24 NtRequestPort 00000000 id=14\n\
         18 24 NtRequestPort 00000000 id=15\n\
         19 24 NtRequestPort 00000000 id=16\n\
         20 24 NtRequestPort 00000000 id=17\n\
         21 24 NtRequestPort 00000000 id=18\n\
         22 24 NtRequestPort 00000000 id=19\n\
         23 24 NtRequestPort 00000000 id=20\n\
         24 24 NtRequestPort 00000000 id=21\n\
         25 24 NtRequestPort 00000000 id=22\n\
         26 24 NtRequestPort 00000000 id=23\n\
         27 24 NtRequestPort 00000000 id=24\n\
         28 24 NtRequestPort 00000000 id=25\n\
         29 24 NtRequestPort 00000000 id=26\n\
         30 24 NtRequestPort 00000000 id=27\n\
         31 24 NtRequestPort 00000000 id=28\n\
         32 24 NtRequestPort 00000000 id=29\n\
         33 24 NtRequestPort 00000000 id=30\n\
         34 24 NtRequestPort 00000000 id=31\n\
         35 24 NtRequestPort 00000000 id=32\n\
         36 24 NtRequestPort c0000044\n\
         37 28 NtRequestPort c0000044\n\
         38 24 NtRequestPort c000000d\n\
         39 24 NtCreatePort 00000000 h=8\n\
         40 24 NtRequestPort 00000000 id=33\n\
         41 28 NtRequestWaitReplyPort wait id=1\n\
         42 24 NtReplyWaitReceivePort 00000000 ctx=00000000 msg=01001900030000001400000018000000010000000000000061\n\
         43 24 NtRequestPort 00000000 id=34\n\
         44 24 NtRequestPort c0000044\n\
         end 44 44 5\n",
    )
}

// The reply comes before the receipt, so a request that is still queued can't be answered.
#[test]
fn a_receive_makes_its_reply_and_takes_the_oldest_message(rt: HostRuntime) -> Result<(), Fail> {
    replayed(
        &rt,
        rt.alloc(),
        "boot 20 24\n\
         thread 28 20\n\
         24 NtCreatePort -\n\
         24 NtRequestWaitReplyPort 4 d:4142\n\
         28 NtReplyWaitReceivePort 4\n\
         thread 32 20\n\
         32 NtRequestPort 4 d:44\n\
         32 NtRequestWaitReplyPort 4 d:45\n\
         28 NtReplyWaitReceivePort 4 r:20.32.2:46\n\
         28 NtReplyWaitReceivePort 4 r:20.24.1:46\n\
         28 NtReplyWaitReceivePort 4 r:20.24.1:46\n\
         28 NtReplyWaitReceivePort 4\n\
         28 NtReplyWaitReceivePort 4 r:20.32.2:47\n",
        0,
        "1 - boot 00000000\n\
         2 - thread 00000000\n\
         3 24 NtCreatePort 00000000 h=4\n\
         4 24 NtRequestWaitReplyPort wait id=1\n\
         5 28 NtReplyWaitReceivePort 00000000 ctx=00000000 msg=02001a0001000000140000001800000001000000000000004142\n\
         6 - thread 00000000\n\
         7 32 NtRequestPort 00000000 id=1\n\
         8 32 NtRequestWaitReplyPort wait id=2\n\
         9 28 NtReplyWaitReceivePort c000021f\n\
         10 28 NtReplyWaitReceivePort 00000000 ctx=00000000 msg=01001900030000001400000020000000010000000000000044\n\
         10 *24 NtRequestWaitReplyPort 00000000 msg=01001900020000001400000018000000010000000000000046\n\
         11 28 NtReplyWaitReceivePort c000021f\n\
         12 28 NtReplyWaitReceivePort 00000000 ctx=00000000 msg=01001900010000001400000020000000020000000000000045\n\
         13 28 NtReplyWaitReceivePort wait\n\
         13 *32 NtRequestWaitReplyPort 00000000 msg=01001900020000001400000020000000020000000000000047\n\
         end 13 15 5\n",
    )
}

#[test]
fn a_receive_makes_its_reply_and_waits_behind_the_others(rt: HostRuntime) -> Result<(), Fail> {
    replayed(
        &rt,
        rt.alloc(),
        "boot 20 24\n\
         thread 28 20\n\
         24 NtCreatePort -\n\
         24 NtRequestWaitReplyPort 4 d:4142\n\
         28 NtReplyWaitReceivePort 4\n\
         thread 32 20\n\
         32 NtReplyWaitReceivePort 4\n\
         28 NtReplyWaitReceivePort 4 r:20.24.1:43\n\
         24 NtRequestPort 4 d:44\n\
         24 NtRequestPort 4 d:45\n",
        0,
        "1 - boot 00000000\n\
         2 - thread 00000000\n\
         3 24 NtCreatePort 00000000 h=4\n\
         4 24 NtRequestWaitReplyPort wait id=1\n\
         5 28 NtReplyWaitReceivePort 00000000 ctx=00000000 msg=02001a0001000000140000001800000001000000000000004142\n\
         6 - thread 00000000\n\
         7 32 NtReplyWaitReceivePort wait\n\
         8 28 NtReplyWaitReceivePort wait\n\
         8 *24 NtRequestWaitReplyPort 00000000 msg=01001900020000001400000018000000010000000000000043\n\
         9 24 NtRequestPort 00000000 id=2\n\
         9 *32 NtReplyWaitReceivePort 00000000 ctx=00000000 msg=01001900030000001400000018000000020000000000000044\n\
         10 24 NtRequestPort 00000000 id=3\n\
         10 *28 NtReplyWaitReceivePort 00000000 ctx=00000000 msg=01001900030000001400000018000000030000000000000045\n\
         end 10 13 5\n",
    )
}

#[test]
fn a_receive_whose_reply_is_refused_takes_nothing_and_does_not_wait(
    rt: HostRuntime,
) -> Result<(), Fail> {
    replayed_with(
        &rt,
        rt.alloc(),
        "61",
        233,
        "boot 20 24\n\
         thread 28 20\n\
         24 NtCreatePort -\n\
         24 NtRequestWaitReplyPort 4 d:4142\n\
         28 NtReplyWaitReceivePort 4\n\
         28 NtReplyWaitReceivePort 8 m:0000\n\
         28 NtReplyWaitReceivePort 4 m:0000\n\
         28 NtReplyWaitReceivePort 4 r:20.24.1:~\n\
         28 NtReplyWaitReceivePort 4 r:20.99.1:43\n\
         28 NtReplyWaitReceivePort 4 d:43\n\
         28 NtReplyWaitReceivePort 4 r:20.24.2:43\n\
         24 NtReplyWaitReceivePort 4 r:20.24.1:43\n\
         28 NtReplyPort 4 r:20.24.1:43\n",
        "1 - boot 00000000\n\
         2 - thread 00000000\n\
         3 24 NtCreatePort 00000000 h=4\n\
         4 24 NtRequestWaitReplyPort wait id=1\n\
         5 28 NtReplyWaitReceivePort 00000000 ctx=00000000 msg=02001a0001000000140000001800000001000000000000004142\n\
         6 28 NtReplyWaitReceivePort c0000008\n\
         7 28 NtReplyWaitReceivePort c000000d\n\
         8 28 NtReplyWaitReceivePort c000002f\n\
         9 28 NtReplyWaitReceivePort c000000b\n\
         10 28 NtReplyWaitReceivePort c000000b\n\
         11 28 NtReplyWaitReceivePort c000021f\n\
         12 24 busy\n\
         13 28 NtReplyPort 00000000\n\
         13 *24 NtRequestWaitReplyPort 00000000 msg=01001900020000001400000018000000010000000000000043\n\
         end 13 14 4\n",
    )
}

#[test]
fn every_line_counts_also_an_empty_one_and_a_rest(rt: HostRuntime) -> Result<(), Fail> {
    let alloc = rt.alloc();
    replayed(&rt, alloc, "", 0, "end 0 0 0\n")?;
    replayed(
        &rt,
        alloc,
        "boot 20 24",
        0,
        "1 - boot 00000000\n\
         end 1 1 2\n",
    )?;
    replayed(&rt, alloc, "# boot 20 24\n\n  \n", 0, "end 3 0 0\n")
}

// Each of these lines alone stops a replay so.
fn stop(rt: &impl Abort, alloc: Global, lines: &[&str], text: &str) -> Result<(), Fail> {
    for line in lines {
        replayed(rt, alloc, line, 2, text)?;
    }
    Ok(())
}

// Faults of the words of a line, and of their count.
fn stop_at_words(rt: &impl Abort, alloc: Global) -> Result<(), Fail> {
    stop(rt, alloc, &["reboot 1 2"], "stop 1 2\n")?;
    stop(rt, alloc, &["24 NtFoo"], "stop 1 3\n")?;
    let lines = ["24 NtReplyPort", "24 NtReplyWaitReceivePort 4 d: d:"];
    stop(rt, alloc, &lines, "stop 1 4\n")
}

// Faults of numbers, of digits, of messages and of SIDs.
fn stop_at_forms(rt: &impl Abort, alloc: Global) -> Result<(), Fail> {
    let lines = ["24 NtReplyPort 08 d:", "boot 020 24"];
    stop(rt, alloc, &lines, "stop 1 5\n")?;
    let lines = ["24 NtReplyPort 4 d:4", "24 NtRequestPort 4 d:4"];
    stop(rt, alloc, &lines, "stop 1 6\n")?;
    let lines = [
        "24 NtReplyPort 4 x:41",
        "24 NtRequestPort 4 x:41",
        "24 NtReplyWaitReceivePort 4 x:41",
    ];
    stop(rt, alloc, &lines, "stop 1 7\n")?;
    stop(rt, alloc, &["token t S-1"], "stop 1 8\n")
}

// A line with a tabulator, and one of 16,385 bytes.
fn stop_at_bytes(rt: &impl Abort, alloc: Global) -> Result<(), Fail> {
    stop(rt, alloc, &["24\tNtReplyPort"], "stop 1 1\n")?;
    let long = "#".repeat(alloc, 16385)?;
    replayed(rt, alloc, long.as_str(), 2, "stop 1 9\n")
}

#[test]
fn a_faulty_line_stops_the_replay_by_its_fault(rt: HostRuntime) -> Result<(), Fail> {
    stop_at_words(&rt, rt.alloc())?;
    stop_at_forms(&rt, rt.alloc())?;
    stop_at_bytes(&rt, rt.alloc())?;
    replayed(
        &rt,
        rt.alloc(),
        "boot 20 24\n\
         thread 28 20\n\
         24 NtCreatePort -\n\
         24 NtReplyPort\n\
         24 NtRequestWaitReplyPort 4 d:4142\n",
        2,
        "1 - boot 00000000\n\
         2 - thread 00000000\n\
         3 24 NtCreatePort 00000000 h=4\n\
         stop 4 4\n",
    )
}

#[test]
fn other_words_are_told_the_usage(rt: HostRuntime) -> Result<(), Fail> {
    let usage = "usage: ntlpc COMMAND [WORDS]\n";
    answered(&rt, rt.alloc(), &[], b"boot 20 24\n", 64, usage)?;
    answered(&rt, rt.alloc(), &["--help"], b"boot 20 24\n", 64, usage)?;
    answered(
        &rt,
        rt.alloc(),
        &["replay", "now"],
        b"boot 20 24\n",
        64,
        usage,
    )?;
    answered(
        &rt,
        rt.alloc(),
        &["states", "now"],
        b"boot 20 24\n",
        64,
        usage,
    )
}

#[test]
fn a_refused_directive_changes_nothing(rt: HostRuntime) -> Result<(), Fail> {
    replayed(
        &rt,
        rt.alloc(),
        "dir x\n\
         link \\L L\n\
         link L \\\n\
         dir \\\n\
         link \\L \\A\n\
         link \\L \\B\n\
         dir \\L\n\
         dir \\A\n",
        0,
        "1 - dir c000003b\n\
         2 - link c000003b\n\
         3 - link c000003b\n\
         4 - dir c0000035\n\
         5 - link 00000000\n\
         6 - link 00000000\n\
         7 - dir 00000000\n\
         8 - dir c0000035\n\
         end 8 8 0\n",
    )
}

// The status and the text of a replay of a script, whose source gives a byte a call and fails the call of this number.
fn broken_off(
    rt: &impl Abort,
    alloc: Global,
    script: &str,
    fails: u64,
    status: u8,
    text: &str,
) -> Result<(), Fail> {
    let mut source = source(alloc, script.as_bytes(), 1, &[fails])?;
    let mut sink = sink(alloc, 4096, &[])?;
    runs(rt, alloc, &["replay"], &mut source, &mut sink, status, text)
}

// Two threads of a process, and a port.
const PORT: &str = "boot 20 24\nthread 28 20\n24 NtCreatePort -\n";

#[test]
fn whole_lines_read_before_a_failure_of_the_source_are_run(rt: HostRuntime) -> Result<(), Fail> {
    let alloc = rt.alloc();
    broken_off(&rt, alloc, PORT, 1, 3, "")?;
    broken_off(&rt, alloc, PORT, 11, 3, "")?;
    broken_off(&rt, alloc, PORT, 12, 3, "1 - boot 00000000\n")?;
    broken_off(
        &rt,
        alloc,
        PORT,
        30,
        3,
        "1 - boot 00000000\n2 - thread 00000000\n",
    )
}

#[test]
fn a_faulty_line_read_before_a_failure_of_the_source_stops_the_replay(
    rt: HostRuntime,
) -> Result<(), Fail> {
    let alloc = rt.alloc();
    broken_off(&rt, alloc, "24 NtFoo\nboot 20 24\n", 15, 2, "stop 1 3\n")?;
    broken_off(&rt, alloc, "24 NtFoo\n", 10, 2, "stop 1 3\n")
}

#[test]
fn a_faulty_rest_is_no_line_where_the_source_fails_in_it_or_at_its_end(
    rt: HostRuntime,
) -> Result<(), Fail> {
    let alloc = rt.alloc();
    broken_off(&rt, alloc, "24 NtFoo\n", 9, 3, "")?;
    broken_off(&rt, alloc, "24 NtFoo", 9, 3, "")?;
    broken_off(&rt, alloc, "24 NtFoo", 10, 2, "stop 1 3\n")
}

// No row comes, changes or goes, so nothing is told of rows.
#[test]
fn the_states_of_lines_that_change_no_row_are_the_transcript(rt: HostRuntime) -> Result<(), Fail> {
    let alloc = rt.alloc();
    let script = b"# a comment\n24 NtCreatePort -\n";
    answered(
        &rt,
        alloc,
        &["states"],
        script,
        0,
        "2 24 nothread\nend 2 1 0\n",
    )?;
    answered(&rt, alloc, &["states"], b"24 NtFoo\n", 2, "stop 1 3\n")
}

// One line for a sink of some room, whose calls of these numbers fail.
fn cut_off(
    rt: &impl Abort,
    alloc: Global,
    room: usize,
    fails: &[u64],
    text: &str,
) -> Result<(), Fail> {
    let mut source = source(alloc, b"boot 20 24\n", 7, &[])?;
    let mut sink = sink(alloc, room, fails)?;
    runs(rt, alloc, &["replay"], &mut source, &mut sink, 4, text)
}

#[test]
fn a_full_sink_has_its_status(rt: HostRuntime) -> Result<(), Fail> {
    cut_off(&rt, rt.alloc(), 20, &[], "1 - boot 00000000\nen")
}

#[test]
fn nothing_is_sent_behind_a_failed_write(rt: HostRuntime) -> Result<(), Fail> {
    cut_off(&rt, rt.alloc(), 4096, &[2], "1 - b")
}
