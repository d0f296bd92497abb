// Closings through whole scripts: of server ports, of the last of two handles, and under a receive across. The
// transcripts are written out by hand.
use crate::common::replayed;
use std::test::Fail;

// A connect is refused, and one is accepted and ends with its server port.
#[test]
fn a_server_port_that_closes_ends_its_accepted_connect(rt: HostRuntime) -> Result<(), Fail> {
    replayed(
        &rt,
        rt.alloc(),
        "dir \\Windows\n\
         boot 20 24\n\
         boot 32 36\n\
         24 NtCreatePort \\Windows\\ApiPort\n\
         36 NtConnectPort \\Windows\\ApiPort - - d:4869\n\
         24 NtListenPort 4\n\
         24 NtAcceptConnectPort 0 r:32.36.1:4e6f refuse -\n\
         36 NtConnectPort \\Windows\\ApiPort - - -\n\
         24 NtListenPort 4\n\
         24 NtAcceptConnectPort 0 r:32.36.2: accept -\n\
         24 NtClose 8\n\
         36 NtConnectPort \\Windows\\None - - -\n",
        0,
        "1 - dir 00000000\n\
         2 - boot 00000000\n\
         3 - boot 00000000\n\
         4 24 NtCreatePort 00000000 h=4\n\
         5 36 NtConnectPort wait id=1\n\
         6 24 NtListenPort 00000000 msg=02001a000a000000200000002400000001000000000000004869\n\
         7 24 NtAcceptConnectPort 00000000\n\
         7 *36 NtConnectPort c0000041 info=4e6f\n\
         8 36 NtConnectPort wait id=2\n\
         9 24 NtListenPort 00000000 msg=000018000a00000020000000240000000200000000000000\n\
         10 24 NtAcceptConnectPort 00000000 h=8\n\
         11 24 NtClose 00000000\n\
         11 *36 NtConnectPort c0000041 info=\n\
         12 36 NtConnectPort c0000034\n\
         end 12 14 5\n",
    )
}

// The first of two handles goes and nothing else; with the second the name, and what the client waits for.
#[test]
fn the_last_of_two_handles_closes_a_port(rt: HostRuntime) -> Result<(), Fail> {
    replayed(
        &rt,
        rt.alloc(),
        "dir \\Windows\n\
         boot 20 24\n\
         boot 32 36\n\
         24 NtCreatePort \\Windows\\ApiPort\n\
         36 NtConnectPort \\Windows\\ApiPort - - -\n\
         24 NtListenPort 4\n\
         24 NtAcceptConnectPort 7 r:32.36.1: accept -\n\
         24 NtCompleteConnectPort 8\n\
         24 NtDuplicateObject 4 same\n\
         36 NtRequestWaitReplyPort 4 d:61\n\
         24 NtClose 4\n\
         24 NtQueryObject 12\n\
         24 NtClose 12\n\
         36 NtRequestPort 4 d:61\n\
         36 NtConnectPort \\Windows\\ApiPort - - -\n",
        0,
        "1 - dir 00000000\n\
         2 - boot 00000000\n\
         3 - boot 00000000\n\
         4 24 NtCreatePort 00000000 h=4\n\
         5 36 NtConnectPort wait id=1\n\
         6 24 NtListenPort 00000000 msg=000018000a00000020000000240000000100000000000000\n\
         7 24 NtAcceptConnectPort 00000000 h=8\n\
         8 24 NtCompleteConnectPort 00000000\n\
         8 *36 NtConnectPort 00000000 h=4 max=256 info=\n\
         9 24 NtDuplicateObject 00000000 h=12\n\
         10 36 NtRequestWaitReplyPort wait id=2\n\
         11 24 NtClose 00000000\n\
         12 24 NtQueryObject 00000000 type=port access=001f0001 handles=1 pointers=3\n\
         13 24 NtClose 00000000\n\
         13 *36 NtRequestWaitReplyPort c0000253\n\
         14 36 NtRequestPort c0000037\n\
         15 36 NtConnectPort c0000034\n\
         end 15 17 7\n",
    )
}

// A server port closes while its client's thread waits in a receive, and is busy for a close of its own.
#[test]
fn a_server_port_closes_under_its_clients_receive(rt: HostRuntime) -> Result<(), Fail> {
    replayed(
        &rt,
        rt.alloc(),
        "dir \\Windows\n\
         boot 20 24\n\
         boot 32 36\n\
         24 NtCreatePort \\Windows\\ApiPort\n\
         36 NtConnectPort \\Windows\\ApiPort - - -\n\
         24 NtListenPort 4\n\
         24 NtAcceptConnectPort 7 r:32.36.1: accept -\n\
         24 NtCompleteConnectPort 8\n\
         thread 28 20\n\
         24 NtReplyWaitReceivePort 4\n\
         28 NtReplyWaitReceivePort 8\n\
         36 NtRequestPort 4 d:61\n\
         36 NtRequestPort 4 d:\n\
         24 NtRequestPort 8 d:62\n\
         36 NtReplyWaitReceivePort 4\n\
         36 NtReplyWaitReceivePort 4\n\
         36 NtClose 4\n\
         24 NtClose 8\n",
        0,
        "1 - dir 00000000\n\
         2 - boot 00000000\n\
         3 - boot 00000000\n\
         4 24 NtCreatePort 00000000 h=4\n\
         5 36 NtConnectPort wait id=1\n\
         6 24 NtListenPort 00000000 msg=000018000a00000020000000240000000100000000000000\n\
         7 24 NtAcceptConnectPort 00000000 h=8\n\
         8 24 NtCompleteConnectPort 00000000\n\
         8 *36 NtConnectPort 00000000 h=4 max=256 info=\n\
         9 - thread 00000000\n\
         10 24 NtReplyWaitReceivePort wait\n\
         11 28 NtReplyWaitReceivePort wait\n\
         12 36 NtRequestPort 00000000 id=2\n\
         12 *24 NtReplyWaitReceivePort 00000000 ctx=00000007 msg=01001900030000002000000024000000020000000000000061\n\
         13 36 NtRequestPort 00000000 id=3\n\
         13 *28 NtReplyWaitReceivePort 00000000 ctx=00000007 msg=000018000300000020000000240000000300000000000000\n\
         14 24 NtRequestPort 00000000 id=1\n\
         15 36 NtReplyWaitReceivePort 00000000 ctx=00000000 msg=01001900030000001400000018000000010000000000000062\n\
         16 36 NtReplyWaitReceivePort wait\n\
         17 36 busy\n\
         18 24 NtClose 00000000\n\
         18 *36 NtReplyWaitReceivePort c0000037\n\
         end 18 22 7\n",
    )
}
