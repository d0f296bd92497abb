// Endings through whole scripts. The transcripts are written out by hand.
use crate::common::replayed;
use std::test::Fail;

// A client's other thread ends the process while the server has its request. The server is told of the thread's end
// first, since that thread registered its port, and then of the port, which closes with the process. Its reply finds no
// client.
#[test]
fn a_client_dies_with_a_request_received(rt: HostRuntime) -> Result<(), Fail> {
    replayed(
        &rt,
        rt.alloc(),
        "dir \\Windows\n\
         boot 20 24\n\
         boot 32 36\n\
         24 NtCreatePort \\Windows\\ApiPort\n\
         36 NtConnectPort \\Windows\\ApiPort - - -\n\
         24 NtListenPort 4\n\
         24 NtAcceptConnectPort 7 r:32.36.1: accept -\n\
         24 NtCompleteConnectPort 8\n\
         36 NtRegisterThreadTerminatePort 4\n\
         36 NtRequestWaitReplyPort 4 d:61\n\
         24 NtReplyWaitReceivePort 4\n\
         thread 48 32\n\
         48 NtTerminateProcess self 1\n\
         24 NtReplyWaitReceivePort 4\n\
         24 NtReplyWaitReceivePort 4\n\
         24 NtReplyPort 4 r:32.36.2:43\n",
        0,
        "1 - dir 00000000\n\
         2 - boot 00000000\n\
         3 - boot 00000000\n\
         4 24 NtCreatePort 00000000 h=4\n\
         5 36 NtConnectPort wait id=1\n\
         6 24 NtListenPort 00000000 msg=000018000a00000020000000240000000100000000000000\n\
         7 24 NtAcceptConnectPort 00000000 h=8\n\
         8 24 NtCompleteConnectPort 00000000\n\
         8 *36 NtConnectPort 00000000 h=4 max=256 info=\n\
         9 36 NtRegisterThreadTerminatePort 00000000\n\
         10 36 NtRequestWaitReplyPort wait id=2\n\
         11 24 NtReplyWaitReceivePort 00000000 ctx=00000007 msg=01001900010000002000000024000000020000000000000061\n\
         12 - thread 00000000\n\
         13 ~36 died 00000001\n\
         13 ~48 died 00000001\n\
         14 24 NtReplyWaitReceivePort 00000000 ctx=00000007 msg=0800200006000000200000002400000000000000000000000000000024000000\n\
         15 24 NtReplyWaitReceivePort 00000000 ctx=00000007 msg=0800200005000000200000002400000001000000000000002400000001000000\n\
         16 24 NtReplyPort c000000b\n\
         end 16 18 4\n",
    )
}
