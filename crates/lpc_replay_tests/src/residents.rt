// A server on a thread through whole scripts. The transcripts are written out by hand.
use crate::common::{replayed, replayed_in_pieces};
use std::process::Abort;
use std::test::Fail;

// Process 32 connects to the server of process 20, asks for the atom of `OK`, and closes its port.
const ANSWERS: &str = "boot 20 24\n\
     boot 32 36\n\
     24 NtCreatePort \\P\n\
     resident 24 win32 4\n\
     turn 24\n\
     36 NtConnectPort \\P - - -\n\
     turn 24\n\
     turn 24\n\
     turn 24\n\
     36 NtRequestWaitReplyPort 4 d:010000004f4b\n\
     turn 24\n\
     36 NtClose 4\n\
     turn 24\n\
     turn 24\n";

const ANSWERS_TOLD: &str = "1 - boot 00000000\n\
     2 - boot 00000000\n\
     3 24 NtCreatePort 00000000 h=4\n\
     4 - resident 00000000\n\
     5 24 NtReplyWaitReceivePort wait\n\
     6 36 NtConnectPort wait id=1\n\
     6 *24 NtReplyWaitReceivePort 00000000 ctx=00000000 msg=000018000a00000020000000240000000100000000000000\n\
     7 24 NtAcceptConnectPort 00000000 h=8\n\
     8 24 NtCompleteConnectPort 00000000\n\
     8 *36 NtConnectPort 00000000 h=4 max=256 info=\n\
     9 24 NtReplyWaitReceivePort wait\n\
     10 36 NtRequestWaitReplyPort wait id=2\n\
     10 *24 NtReplyWaitReceivePort 00000000 ctx=00000020 msg=06001e000100000020000000240000000200000000000000010000004f4b\n\
     11 24 NtReplyWaitReceivePort wait\n\
     11 *36 NtRequestWaitReplyPort 00000000 msg=0800200002000000200000002400000002000000000000000000000000c00000\n\
     12 36 NtClose 00000000\n\
     12 *24 NtReplyWaitReceivePort 00000000 ctx=00000020 msg=0800200005000000200000002400000001000000000000002400000001000000\n\
     13 24 NtClose 00000000\n\
     14 24 NtReplyWaitReceivePort wait\n\
     end 14 19 5\n";

#[test]
fn a_server_answers_its_client_and_lets_it_go(rt: HostRuntime) -> Result<(), Fail> {
    replayed(&rt, rt.alloc(), ANSWERS, 0, ANSWERS_TOLD)
}

// A client with a view, of which 3,000 bytes go into its console, raises an exception that its frame handlers handle,
// and ends. Another one asks for the atom of `OK` and ends, and then the server does. `~` stands for the bytes.
const SERVES: &str = "dir \\Windows\n\
     token alice S-1-5-21-7 S-1-1-0\n\
     boot 20 24\n\
     24 NtCreatePort \\Windows\\ApiPort acl:A/1/S-1-1-0\n\
     resident 24 win32 4\n\
     turn 24\n\
     boot 32 36 alice\n\
     36 NtCreateSection 65536 4\n\
     36 NtConnectPort \\Windows\\ApiPort q:2:d w:4:0:65536 -\n\
     turn 24\n\
     turn 24\n\
     turn 24\n\
     36 NtWriteVirtualMemory 0x10000 ~\n\
     36 NtRequestWaitReplyPort 8 d:0400000000000000b80b0000\n\
     turn 24\n\
     36 raise 0xc0000094 handled\n\
     36 NtTerminateProcess self 0\n\
     turn 24\n\
     turn 24\n\
     boot 40 44\n\
     44 NtConnectPort \\Windows\\ApiPort - - -\n\
     turn 24\n\
     turn 24\n\
     44 NtRequestWaitReplyPort 4 d:010000004f4b\n\
     turn 24\n\
     turn 24\n\
     44 NtTerminateProcess self 0\n\
     24 NtTerminateProcess self 0\n";

const SERVES_TOLD: &str = "1 - dir 00000000\n\
     2 - token 00000000\n\
     3 - boot 00000000\n\
     4 24 NtCreatePort 00000000 h=4\n\
     5 - resident 00000000\n\
     6 24 NtReplyWaitReceivePort wait\n\
     7 - boot 00000000\n\
     8 36 NtCreateSection 00000000 h=4\n\
     9 36 NtConnectPort wait id=1 base=00010000\n\
     9 *24 NtReplyWaitReceivePort 00000000 ctx=00000000 msg=000018000a00000020000000240000000100000000000100\n\
     10 24 NtAcceptConnectPort 00000000 h=8 vbase=00010000 vsize=65536\n\
     11 24 NtCompleteConnectPort 00000000\n\
     11 *36 NtConnectPort 00000000 h=8 max=256 info= target=00010000\n\
     12 24 NtReplyWaitReceivePort wait\n\
     13 36 NtWriteVirtualMemory 00000000\n\
     14 36 NtRequestWaitReplyPort wait id=2\n\
     14 *24 NtReplyWaitReceivePort 00000000 ctx=00000020 msg=0c00240001000000200000002400000002000000000000000400000000000000b80b0000\n\
     15 24 NtReplyWaitReceivePort wait\n\
     15 *36 NtRequestWaitReplyPort 00000000 msg=08002000020000002000000024000000020000000000000000000000b80b0000\n\
     16 36 raise 00000000\n\
     17 ~36 died 00000000\n\
     17 *24 NtReplyWaitReceivePort 00000000 ctx=00000020 msg=0800200005000000200000002400000001000000000000002400000002000000\n\
     18 24 NtClose 00000000\n\
     19 24 NtReplyWaitReceivePort wait\n\
     20 - boot 00000000\n\
     21 44 NtConnectPort wait id=1\n\
     21 *24 NtReplyWaitReceivePort 00000000 ctx=00000000 msg=000018000a000000280000002c0000000100000000000000\n\
     22 24 NtAcceptConnectPort 00000000 h=8\n\
     23 24 NtCompleteConnectPort 00000000\n\
     23 *44 NtConnectPort 00000000 h=4 max=256 info=\n\
     24 44 NtRequestWaitReplyPort wait id=2\n\
     25 24 NtReplyWaitReceivePort 00000000 ctx=00000028 msg=06001e0001000000280000002c0000000200000000000000010000004f4b\n\
     26 24 NtReplyWaitReceivePort wait\n\
     26 *44 NtRequestWaitReplyPort 00000000 msg=0800200002000000280000002c00000002000000000000000000000000c00000\n\
     27 ~44 died 00000000\n\
     27 *24 NtReplyWaitReceivePort 00000000 ctx=00000028 msg=0800200005000000280000002c00000001000000000000002c00000001000000\n\
     28 ~24 died 00000000\n\
     end 28 37 0\n";

#[test]
fn a_server_lets_two_clients_go_that_end(rt: HostRuntime) -> Result<(), Fail> {
    let alloc = rt.alloc();
    let bytes = "61".repeat(alloc, 3000)?;
    let script = SERVES.replace(alloc, '~', bytes.as_str())?;
    replayed_in_pieces(&rt, alloc, script.as_str(), SERVES_TOLD)
}

// Thread 28 isn't there, thread 24 has a server already, and thread 36 has none. A server that waits is busy.
const IDLE: &str = "boot 20 24\n\
     boot 32 36\n\
     resident 28 win32 4\n\
     turn 28\n\
     turn 36\n\
     resident 24 win32 4\n\
     resident 24 win32 8\n\
     turn 24\n\
     24 NtCreatePort -\n\
     turn 24\n\
     turn 24\n";

const IDLE_TOLD: &str = "1 - boot 00000000\n\
     2 - boot 00000000\n\
     3 - resident c000000b\n\
     4 - turn c000000b\n\
     5 - turn c000000b\n\
     6 - resident 00000000\n\
     7 - resident c0000035\n\
     8 24 NtReplyWaitReceivePort c0000008\n\
     9 24 NtCreatePort 00000000 h=4\n\
     10 24 NtReplyWaitReceivePort wait\n\
     11 24 busy\n\
     end 11 11 5\n";

#[test]
fn a_turn_is_made_where_a_server_can_call(rt: HostRuntime) -> Result<(), Fail> {
    replayed(&rt, rt.alloc(), IDLE, 0, IDLE_TOLD)
}

#[test]
fn another_kind_of_server_stops_the_script(rt: HostRuntime) -> Result<(), Fail> {
    replayed(
        &rt,
        rt.alloc(),
        "boot 20 24\nresident 24 posix 4\nturn 24\n",
        2,
        "1 - boot 00000000\nstop 2 2\n",
    )
}
