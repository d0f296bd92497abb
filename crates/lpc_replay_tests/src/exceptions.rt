// Exceptions through whole scripts. The transcripts are written out by hand.
use crate::common::replayed;
use std::test::Fail;

// The event of a child stands received when its debugger ends. It is passed over to no other port, so the child ends in
// the same line, with the code of its exception, and its server is told behind that.
#[test]
fn a_debugger_ends_with_its_childs_exception_received(rt: HostRuntime) -> Result<(), Fail> {
    replayed(
        &rt,
        rt.alloc(),
        "boot 48 52\n\
         52 NtCreatePort \\S\n\
         boot 20 24\n\
         24 NtCreatePort -\n\
         24 NtCreateProcess 32 36\n\
         24 NtSetInformationProcess 8 7 4\n\
         36 NtConnectPort \\S - - -\n\
         52 NtListenPort 4\n\
         52 NtAcceptConnectPort 5 r:32.36.1: accept -\n\
         52 NtCompleteConnectPort 8\n\
         52 NtReplyWaitReceivePort 4\n\
         36 raise 0xc0000005 unhandled\n\
         24 NtReplyWaitReceivePort 4\n\
         24 NtTerminateProcess self 0\n",
        0,
        "1 - boot 00000000\n\
         2 52 NtCreatePort 00000000 h=4\n\
         3 - boot 00000000\n\
         4 24 NtCreatePort 00000000 h=4\n\
         5 24 NtCreateProcess 00000000 h=8 thread=12\n\
         6 24 NtSetInformationProcess 00000000\n\
         7 36 NtConnectPort wait id=1\n\
         8 52 NtListenPort 00000000 msg=000018000a00000020000000240000000100000000000000\n\
         9 52 NtAcceptConnectPort 00000000 h=8\n\
         10 52 NtCompleteConnectPort 00000000\n\
         10 *36 NtConnectPort 00000000 h=4 max=256 info=\n\
         11 52 NtReplyWaitReceivePort wait\n\
         12 36 raise wait id=2\n\
         13 24 NtReplyWaitReceivePort 00000000 ctx=00000000 msg=080020000800000020000000240000000200000000000000050000c001000000\n\
         14 ~24 died 00000000\n\
         14 ~36 died c0000005\n\
         14 *52 NtReplyWaitReceivePort 00000000 ctx=00000005 msg=0800200005000000200000002400000001000000000000002400000001000000\n\
         end 14 17 4\n",
    )
}

// A child that the debugger made has two threads that it made too. One ends, and the exception of the other goes past the
// frame handlers to the exception port, which alone is set. It is continued there, and the child ends by a call, which
// can end it once.
#[test]
fn a_debugger_continues_its_childs_thread(rt: HostRuntime) -> Result<(), Fail> {
    replayed(
        &rt,
        rt.alloc(),
        "boot 20 24\n\
         24 NtCreateProcess 32 36\n\
         24 NtCreateThread 4 36\n\
         24 NtCreateThread 4 40\n\
         24 NtTerminateThread 8 7\n\
         36 NtOpenProcessToken\n\
         24 NtTerminateThread 8 7\n\
         24 NtCreatePort -\n\
         24 NtSetInformationProcess 4 8 16\n\
         24 NtSetInformationProcess 4 8 16\n\
         40 raise 0xc0000005 unhandled\n\
         24 NtReplyWaitReceivePort 16\n\
         24 NtReplyPort 16 r:32.40.1:02000100\n\
         24 NtQueryObject 4\n\
         24 NtTerminateProcess 4 9\n\
         24 NtQueryObject 4\n\
         24 NtTerminateProcess 4 9\n\
         24 NtOpenProcessToken\n\
         24 NtQueryInformationToken 20 2\n\
         24 NtOpenThreadToken\n",
        0,
        "1 - boot 00000000\n\
         2 24 NtCreateProcess 00000000 h=4 thread=8\n\
         3 24 NtCreateThread c0000035\n\
         4 24 NtCreateThread 00000000 h=12\n\
         5 24 NtTerminateThread 00000000\n\
         5 ~36 died 00000007\n\
         6 36 nothread\n\
         7 24 NtTerminateThread c000000b\n\
         8 24 NtCreatePort 00000000 h=16\n\
         9 24 NtSetInformationProcess 00000000\n\
         10 24 NtSetInformationProcess c0000048\n\
         11 40 raise wait id=1\n\
         12 24 NtReplyWaitReceivePort 00000000 ctx=00000000 msg=080020000700000020000000280000000100000000000000050000c002000000\n\
         13 24 NtReplyPort 00000000\n\
         13 *40 raise 00010002\n\
         14 24 NtQueryObject 00000000 type=process access=00000001 handles=1 pointers=2\n\
         15 24 NtTerminateProcess 00000000\n\
         15 ~40 died 00000009\n\
         16 24 NtQueryObject 00000000 type=process access=00000001 handles=1 pointers=1\n\
         17 24 NtTerminateProcess c000000b\n\
         18 24 NtOpenProcessToken 00000000 h=20\n\
         19 24 NtQueryInformationToken 00000000 groups=S-1-5-32-544,S-1-1-0\n\
         20 24 NtOpenThreadToken c000007c\n\
         end 20 23 7\n",
    )
}
