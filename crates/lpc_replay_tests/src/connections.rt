// Connections through whole scripts: from a named port to requests on two pairs. The transcripts are written out by
// hand.
use crate::common::{replayed, replayed_in_pieces, replayed_with};
use std::test::Fail;

// Two clients connect, ask, and are answered in the other order.
#[test]
fn two_connections_carry_their_own_requests(rt: HostRuntime) -> Result<(), Fail> {
    replayed_in_pieces(
        &rt,
        rt.alloc(),
        "dir \\Windows\n\
         boot 20 24\n\
         boot 32 36\n\
         24 NtCreatePort \\Windows\\ApiPort\n\
         36 NtConnectPort \\Windows\\ApiPort - - -\n\
         24 NtListenPort 4\n\
         24 NtAcceptConnectPort 7 r:32.36.1: accept -\n\
         24 NtCompleteConnectPort 8\n\
         boot 40 44\n\
         44 NtConnectPort \\Windows\\ApiPort - - -\n\
         24 NtListenPort 4\n\
         24 NtAcceptConnectPort 9 r:40.44.1: accept -\n\
         24 NtCompleteConnectPort 12\n\
         36 NtRequestWaitReplyPort 4 d:61\n\
         44 NtRequestWaitReplyPort 4 d:62\n\
         24 NtReplyWaitReceivePort 4\n\
         24 NtReplyWaitReceivePort 4\n\
         24 NtReplyPort 4 r:40.44.2:42\n\
         24 NtReplyPort 4 r:32.36.2:41\n",
        "1 - dir 00000000\n\
         2 - boot 00000000\n\
         3 - boot 00000000\n\
         4 24 NtCreatePort 00000000 h=4\n\
         5 36 NtConnectPort wait id=1\n\
         6 24 NtListenPort 00000000 msg=000018000a00000020000000240000000100000000000000\n\
         7 24 NtAcceptConnectPort 00000000 h=8\n\
         8 24 NtCompleteConnectPort 00000000\n\
         8 *36 NtConnectPort 00000000 h=4 max=256 info=\n\
         9 - boot 00000000\n\
         10 44 NtConnectPort wait id=1\n\
         11 24 NtListenPort 00000000 msg=000018000a000000280000002c0000000100000000000000\n\
         12 24 NtAcceptConnectPort 00000000 h=12\n\
         13 24 NtCompleteConnectPort 00000000\n\
         13 *44 NtConnectPort 00000000 h=4 max=256 info=\n\
         14 36 NtRequestWaitReplyPort wait id=2\n\
         15 44 NtRequestWaitReplyPort wait id=2\n\
         16 24 NtReplyWaitReceivePort 00000000 ctx=00000007 msg=01001900010000002000000024000000020000000000000061\n\
         17 24 NtReplyWaitReceivePort 00000000 ctx=00000009 msg=0100190001000000280000002c000000020000000000000062\n\
         18 24 NtReplyPort 00000000\n\
         18 *44 NtRequestWaitReplyPort 00000000 msg=0100190002000000280000002c000000020000000000000042\n\
         19 24 NtReplyPort 00000000\n\
         19 *36 NtRequestWaitReplyPort 00000000 msg=01001900020000002000000024000000020000000000000041\n\
         end 19 23 11\n",
    )
}

// The server port of another client carries no reply.
#[test]
fn a_reply_through_another_connection_fits_nothing(rt: HostRuntime) -> Result<(), Fail> {
    replayed(
        &rt,
        rt.alloc(),
        "dir \\Windows\n\
         boot 20 24\n\
         boot 32 36\n\
         24 NtCreatePort \\Windows\\ApiPort\n\
         36 NtConnectPort \\Windows\\ApiPort - - -\n\
         24 NtListenPort 4\n\
         24 NtAcceptConnectPort 7 r:32.36.1: accept -\n\
         24 NtCompleteConnectPort 8\n\
         boot 40 44\n\
         44 NtConnectPort \\Windows\\ApiPort - - -\n\
         24 NtListenPort 4\n\
         24 NtAcceptConnectPort 9 r:40.44.1: accept -\n\
         24 NtCompleteConnectPort 12\n\
         36 NtRequestWaitReplyPort 4 d:61\n\
         24 NtReplyWaitReceivePort 4\n\
         24 NtReplyPort 12 r:32.36.2:43\n\
         24 NtReplyPort 8 r:32.36.2:43\n",
        0,
        "1 - dir 00000000\n\
         2 - boot 00000000\n\
         3 - boot 00000000\n\
         4 24 NtCreatePort 00000000 h=4\n\
         5 36 NtConnectPort wait id=1\n\
         6 24 NtListenPort 00000000 msg=000018000a00000020000000240000000100000000000000\n\
         7 24 NtAcceptConnectPort 00000000 h=8\n\
         8 24 NtCompleteConnectPort 00000000\n\
         8 *36 NtConnectPort 00000000 h=4 max=256 info=\n\
         9 - boot 00000000\n\
         10 44 NtConnectPort wait id=1\n\
         11 24 NtListenPort 00000000 msg=000018000a000000280000002c0000000100000000000000\n\
         12 24 NtAcceptConnectPort 00000000 h=12\n\
         13 24 NtCompleteConnectPort 00000000\n\
         13 *44 NtConnectPort 00000000 h=4 max=256 info=\n\
         14 36 NtRequestWaitReplyPort wait id=2\n\
         15 24 NtReplyWaitReceivePort 00000000 ctx=00000007 msg=01001900010000002000000024000000020000000000000061\n\
         16 24 NtReplyPort c000021f\n\
         17 24 NtReplyPort 00000000\n\
         17 *36 NtRequestWaitReplyPort 00000000 msg=01001900020000002000000024000000020000000000000043\n\
         end 17 20 11\n",
    )
}

// Each end maps what it offers and what the other offers. What goes with a port goes at its close, and what the other
// end maps stays.
#[test]
fn both_ends_of_a_connection_show_what_they_offer(rt: HostRuntime) -> Result<(), Fail> {
    replayed(
        &rt,
        rt.alloc(),
        "dir \\Windows\n\
         boot 20 24\n\
         boot 32 36\n\
         24 NtCreatePort \\Windows\\ApiPort\n\
         36 NtCreateSection 8192 4\n\
         24 NtCreateSection 4096 4\n\
         36 NtConnectPort \\Windows\\ApiPort - w:4:4096:0 -\n\
         24 NtListenPort 4\n\
         24 NtAcceptConnectPort 7 r:32.36.1: accept w:8:0:4096\n\
         24 NtCompleteConnectPort 12\n\
         36 NtWriteVirtualMemory 0x10000 6869\n\
         24 NtReadVirtualMemory 0x20000 2\n\
         24 NtClose 12\n\
         24 NtReadVirtualMemory 0x20000 1\n\
         36 NtReadVirtualMemory 0x20000 1\n",
        0,
        "1 - dir 00000000\n\
         2 - boot 00000000\n\
         3 - boot 00000000\n\
         4 24 NtCreatePort 00000000 h=4\n\
         5 36 NtCreateSection 00000000 h=4\n\
         6 24 NtCreateSection 00000000 h=8\n\
         7 36 NtConnectPort wait id=1 base=00010000\n\
         8 24 NtListenPort 00000000 msg=000018000a00000020000000240000000100000000100000\n\
         9 24 NtAcceptConnectPort 00000000 h=12 base=00010000 target=00020000 vbase=00020000 vsize=4096\n\
         10 24 NtCompleteConnectPort 00000000\n\
         10 *36 NtConnectPort 00000000 h=8 max=256 info= target=00020000 vbase=00020000 vsize=4096\n\
         11 36 NtWriteVirtualMemory 00000000\n\
         12 24 NtReadVirtualMemory 00000000 data=6869\n\
         13 24 NtClose 00000000\n\
         14 24 NtReadVirtualMemory c0000005\n\
         15 36 NtReadVirtualMemory 00000000 data=00\n\
         end 15 16 8\n",
    )
}

// The client is told the data of the refusal, and its port goes.
#[test]
fn a_refused_connect_shows_the_data_of_its_answer(rt: HostRuntime) -> Result<(), Fail> {
    replayed(
        &rt,
        rt.alloc(),
        "dir \\Windows\n\
         boot 20 24\n\
         boot 32 36\n\
         24 NtCreatePort \\Windows\\ApiPort\n\
         36 NtConnectPort \\Windows\\ApiPort - - d:4869\n\
         24 NtListenPort 4\n\
         24 NtAcceptConnectPort 0 r:32.36.1:4e6f refuse -\n",
        0,
        "1 - dir 00000000\n\
         2 - boot 00000000\n\
         3 - boot 00000000\n\
         4 24 NtCreatePort 00000000 h=4\n\
         5 36 NtConnectPort wait id=1\n\
         6 24 NtListenPort 00000000 msg=02001a000a000000200000002400000001000000000000004869\n\
         7 24 NtAcceptConnectPort 00000000\n\
         7 *36 NtConnectPort c0000041 info=4e6f\n\
         end 7 8 5\n",
    )
}

// Each fault of a name, at a port that is made and at a connect.
#[test]
fn a_name_leads_to_its_port_or_has_its_fault(rt: HostRuntime) -> Result<(), Fail> {
    replayed(
        &rt,
        rt.alloc(),
        "dir \\Windows\n\
         link \\L \\Windows\n\
         link \\Q \\Q\n\
         boot 20 24\n\
         24 NtCreatePort Windows\n\
         24 NtCreatePort \\Windows\\\n\
         24 NtCreatePort \\A\\B\n\
         24 NtCreatePort \\L\\P\n\
         24 NtCreatePort \\Windows\\P\n\
         24 NtCreatePort \\Q\\P\n\
         24 NtConnectPort \\Windows\\R - - -\n\
         24 NtConnectPort \\Windows - - -\n",
        0,
        "1 - dir 00000000\n\
         2 - link 00000000\n\
         3 - link 00000000\n\
         4 - boot 00000000\n\
         5 24 NtCreatePort c000003b\n\
         6 24 NtCreatePort c0000033\n\
         7 24 NtCreatePort c000003a\n\
         8 24 NtCreatePort 00000000 h=4\n\
         9 24 NtCreatePort c0000035\n\
         10 24 NtCreatePort c0000033\n\
         11 24 NtConnectPort c0000034\n\
         12 24 NtConnectPort c0000024\n\
         end 12 12 3\n",
    )
}

// The 33rd datagram of a client is refused while the request of the other is answered.
#[test]
fn datagrams_of_one_client_leave_the_others_request_alone(rt: HostRuntime) -> Result<(), Fail> {
    replayed_with(
        &rt,
        rt.alloc(),
        "44 NtRequestPort 4 d:62\n",
        33,
        "dir \\Windows\n\
         boot 20 24\n\
         boot 32 36\n\
         24 NtCreatePort \\Windows\\ApiPort\n\
         36 NtConnectPort \\Windows\\ApiPort - - -\n\
         24 NtListenPort 4\n\
         24 NtAcceptConnectPort 7 r:32.36.1: accept -\n\
         24 NtCompleteConnectPort 8\n\
         boot 40 44\n\
         44 NtConnectPort \\Windows\\ApiPort - - -\n\
         24 NtListenPort 4\n\
         24 NtAcceptConnectPort 9 r:40.44.1: accept -\n\
         24 NtCompleteConnectPort 12\n\
         36 NtRequestWaitReplyPort 4 d:61\n\
         24 NtReplyWaitReceivePort 4\n\
         ~\
         24 NtReplyPort 8 r:32.36.2:43\n\
         36 NtRequestPort 4 d:63\n",
        "1 - dir 00000000\n\
         2 - boot 00000000\n\
         3 - boot 00000000\n\
         4 24 NtCreatePort 00000000 h=4\n\
         5 36 NtConnectPort wait id=1\n\
         6 24 NtListenPort 00000000 msg=000018000a00000020000000240000000100000000000000\n\
         7 24 NtAcceptConnectPort 00000000 h=8\n\
         8 24 NtCompleteConnectPort 00000000\n\
         8 *36 NtConnectPort 00000000 h=4 max=256 info=\n\
         9 - boot 00000000\n\
         10 44 NtConnectPort wait id=1\n\
         11 24 NtListenPort 00000000 msg=000018000a000000280000002c0000000100000000000000\n\
         12 24 NtAcceptConnectPort 00000000 h=12\n\
         13 24 NtCompleteConnectPort 00000000\n\
         13 *44 NtConnectPort 00000000 h=4 max=256 info=\n\
         14 36 NtRequestWaitReplyPort wait id=2\n\
         15 24 NtReplyWaitReceivePort 00000000 ctx=00000007 msg=01001900010000002000000024000000020000000000000061\n\
         16 44 NtRequestPort 00000000 id=2\n\
         17 44 NtRequestPort 00000000 id=3\n\
         18 44 NtRequestPort 00000000 id=4\n\
         19 44 NtRequestPort 00000000 id=5\n\
         20 44 NtRequestPort 00000000 id=6\n\
         21 44 NtRequestPort 00000000 id=7\n\
         22 44 NtRequestPort 00000000 id=8\n\
         23 44 NtRequestPort 00000000 id=9\n\
         24 44 NtRequestPort 00000000 id=10\n\
         25 44 NtRequestPort 00000000 id=11\n\
         26 44 NtRequestPort 00000000 id=12\n\
         27 44 NtRequestPort 00000000 id=13\n\
         28 44 NtRequestPort 00000000 id=14\n\
         29 44 NtRequestPort 00000000 id=15\n\
         30 44 NtRequestPort 00000000 id=16\n\
         31 44 NtRequestPort 00000000 id=17\n\
         32 44 NtRequestPort 00000000 id=18\n\
         33 44 NtRequestPort 00000000 id=19\n\
         34 44 NtRequestPort 00000000 id=20\n\
         35 44 NtRequestPort 00000000 id=21\n\
         36 44 NtRequestPort 00000000 id=22\n\
         37 44 NtRequestPort 00000000 id=23\n\
         38 44 NtRequestPort 00000000 id=24\n\
         39 44 NtRequestPort 00000000 id=25\n\
         40 44 NtRequestPort 00000000 id=26\n\
         41 44 NtRequestPort 00000000 id=27\n\
         42 44 NtRequestPort 00000000 id=28\n\
         43 44 NtRequestPort 00000000 id=29\n\
         44 44 NtRequestPort 00000000 id=30\n\
         45 44 NtRequestPort 00000000 id=31\n\
         46 44 NtRequestPort 00000000 id=32\n\
         47 44 NtRequestPort 00000000 id=33\n\
         48 44 NtRequestPort c0000044\n\
         49 24 NtReplyPort 00000000\n\
         49 *36 NtRequestWaitReplyPort 00000000 msg=01001900020000002000000024000000020000000000000043\n\
         50 36 NtRequestPort 00000000 id=3\n\
         end 50 53 11\n",
    )
}
