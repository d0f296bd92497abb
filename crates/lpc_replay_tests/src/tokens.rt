// Tokens through whole scripts: those of clients as which a thread acts, and access lists. The transcripts are written
// out by hand.
use crate::common::replayed;
use std::alloc::Global;
use std::process::Abort;
use std::test::Fail;

// Process 32 has two connections to process 20, with static and with dynamic tracking, and a client of its own, process
// 40, which connects with the quality of service that stands for `~`. Thread 36 acts as that client then.
const ACTS: &str = "token xt S-1-5-21-1 S-1-1-0\n\
     token yt S-1-5-21-2 S-1-1-0\n\
     boot 20 24\n\
     boot 32 36 xt\n\
     boot 40 44 yt\n\
     24 NtCreatePort \\S\n\
     36 NtCreatePort \\X\n\
     36 NtConnectPort \\S q:2:s - -\n\
     24 NtListenPort 4\n\
     24 NtAcceptConnectPort 1 r:32.36.1: accept -\n\
     24 NtCompleteConnectPort 8\n\
     36 NtConnectPort \\S q:2:d - -\n\
     24 NtListenPort 4\n\
     24 NtAcceptConnectPort 2 r:32.36.2: accept -\n\
     24 NtCompleteConnectPort 12\n\
     44 NtConnectPort \\X ~ - -\n\
     36 NtListenPort 4\n\
     36 NtAcceptConnectPort 3 r:40.44.1: accept -\n\
     36 NtCompleteConnectPort 16\n\
     44 NtRequestWaitReplyPort 4 d:\n\
     36 NtReplyWaitReceivePort 4\n\
     36 NtImpersonateClientOfPort 16 r:40.44.2:\n";

const ACTS_TOLD: &str = "1 - token 00000000\n\
     2 - token 00000000\n\
     3 - boot 00000000\n\
     4 - boot 00000000\n\
     5 - boot 00000000\n\
     6 24 NtCreatePort 00000000 h=4\n\
     7 36 NtCreatePort 00000000 h=4\n\
     8 36 NtConnectPort wait id=1\n\
     9 24 NtListenPort 00000000 msg=000018000a00000020000000240000000100000000000000\n\
     10 24 NtAcceptConnectPort 00000000 h=8\n\
     11 24 NtCompleteConnectPort 00000000\n\
     11 *36 NtConnectPort 00000000 h=8 max=256 info=\n\
     12 36 NtConnectPort wait id=2\n\
     13 24 NtListenPort 00000000 msg=000018000a00000020000000240000000200000000000000\n\
     14 24 NtAcceptConnectPort 00000000 h=12\n\
     15 24 NtCompleteConnectPort 00000000\n\
     15 *36 NtConnectPort 00000000 h=12 max=256 info=\n\
     16 44 NtConnectPort wait id=1\n\
     17 36 NtListenPort 00000000 msg=000018000a000000280000002c0000000100000000000000\n\
     18 36 NtAcceptConnectPort 00000000 h=16\n\
     19 36 NtCompleteConnectPort 00000000\n\
     19 *44 NtConnectPort 00000000 h=4 max=256 info=\n\
     20 44 NtRequestWaitReplyPort wait id=2\n\
     21 36 NtReplyWaitReceivePort 00000000 ctx=00000003 msg=0000180001000000280000002c0000000200000000000000\n\
     22 36 NtImpersonateClientOfPort 00000000\n";

// That script with a quality of service, and lines behind it.
fn replays(
    rt: &impl Abort,
    alloc: Global,
    quality: &str,
    script: &str,
    text: &str,
) -> Result<(), Fail> {
    let mut lines = ACTS.replace(alloc, '~', quality)?;
    lines.push_str(script)?;
    let mut told = String::from_str(alloc, ACTS_TOLD)?;
    told.push_str(text)?;
    replayed(rt, alloc, lines.as_str(), 0, told.as_str())
}

// Through the connection with static tracking process 20 gets the token with which 32 connected, through that with
// dynamic tracking the one as which it acts now.
#[test]
fn static_tracking_gives_the_token_of_the_connect(rt: HostRuntime) -> Result<(), Fail> {
    replays(
        &rt,
        rt.alloc(),
        "q:2:d",
        "36 NtRequestWaitReplyPort 8 d:\n\
         24 NtReplyWaitReceivePort 4\n\
         24 NtImpersonateClientOfPort 8 r:32.36.3:\n\
         24 NtOpenThreadToken\n\
         24 NtQueryInformationToken 16 1\n\
         24 NtReplyPort 8 r:32.36.3:\n\
         36 NtRequestWaitReplyPort 12 d:\n\
         24 NtReplyWaitReceivePort 4\n\
         24 NtImpersonateClientOfPort 12 r:32.36.4:\n\
         24 NtOpenThreadToken\n\
         24 NtQueryInformationToken 20 1\n\
         24 NtQueryInformationToken 20 9\n",
        "23 36 NtRequestWaitReplyPort wait id=3\n\
         24 24 NtReplyWaitReceivePort 00000000 ctx=00000001 msg=000018000100000020000000240000000300000000000000\n\
         25 24 NtImpersonateClientOfPort 00000000\n\
         26 24 NtOpenThreadToken 00000000 h=16\n\
         27 24 NtQueryInformationToken 00000000 user=S-1-5-21-1\n\
         28 24 NtReplyPort 00000000\n\
         28 *36 NtRequestWaitReplyPort 00000000 msg=000018000200000020000000240000000300000000000000\n\
         29 36 NtRequestWaitReplyPort wait id=4\n\
         30 24 NtReplyWaitReceivePort 00000000 ctx=00000002 msg=000018000100000020000000240000000400000000000000\n\
         31 24 NtImpersonateClientOfPort 00000000\n\
         32 24 NtOpenThreadToken 00000000 h=20\n\
         33 24 NtQueryInformationToken 00000000 user=S-1-5-21-2\n\
         34 24 NtQueryInformationToken 00000000 level=2\n\
         end 34 38 16\n",
    )
}

// A token by which the client is only known connects nowhere, until the thread acts as itself again.
#[test]
fn token_below_impersonation_connects_nowhere(rt: HostRuntime) -> Result<(), Fail> {
    replays(
        &rt,
        rt.alloc(),
        "q:1:d",
        "36 NtConnectPort \\S - - -\n\
         36 NtSetInformationThread 5 null\n",
        "23 36 NtConnectPort c00000a5\n\
         24 36 NtSetInformationThread 00000000\n\
         end 24 27 14\n",
    )
}

// A token by which nobody may know the client isn't opened.
#[test]
fn anonymous_token_is_not_opened(rt: HostRuntime) -> Result<(), Fail> {
    replays(
        &rt,
        rt.alloc(),
        "q:0:d",
        "36 NtOpenThreadToken\n",
        "23 36 NtOpenThreadToken c00000a6\n\
         end 23 26 14\n",
    )
}

// No entry grants nothing, and of two that name a token's SIDs the first decides. A handle without the right, to another
// kind of port and to a section are no connection port's.
#[test]
fn access_list_is_read_in_order(rt: HostRuntime) -> Result<(), Fail> {
    replayed(
        &rt,
        rt.alloc(),
        "token guest S-1-5-21-9 S-1-1-0\n\
         boot 20 24\n\
         boot 32 36 guest\n\
         24 NtCreatePort \\A acl:\n\
         24 NtCreatePort \\B acl:D/1/S-1-5-21-9,A/1/S-1-1-0\n\
         24 NtCreatePort \\C acl:A/1/S-1-1-0,D/1/S-1-5-21-9\n\
         36 NtConnectPort \\A - - -\n\
         36 NtConnectPort \\B - - -\n\
         36 NtConnectPort \\C - - -\n\
         24 NtDuplicateObject 12 0\n\
         24 NtListenPort 16\n\
         24 NtDuplicateObject 16 same\n\
         24 NtCreatePort -\n\
         24 NtListenPort 24\n\
         24 NtCreateSection 4096 2\n\
         24 NtListenPort 28\n\
         24 NtMapViewOfSection 28 0 0 4\n\
         24 NtClose 28\n\
         24 NtClose 28\n\
         24 NtTerminateThread self 3\n",
        0,
        "1 - token 00000000\n\
         2 - boot 00000000\n\
         3 - boot 00000000\n\
         4 24 NtCreatePort 00000000 h=4\n\
         5 24 NtCreatePort 00000000 h=8\n\
         6 24 NtCreatePort 00000000 h=12\n\
         7 36 NtConnectPort c0000022\n\
         8 36 NtConnectPort c0000022\n\
         9 36 NtConnectPort wait id=1\n\
         10 24 NtDuplicateObject 00000000 h=16\n\
         11 24 NtListenPort c0000022\n\
         12 24 NtDuplicateObject 00000000 h=20\n\
         13 24 NtCreatePort 00000000 h=24\n\
         14 24 NtListenPort c0000042\n\
         15 24 NtCreateSection 00000000 h=28\n\
         16 24 NtListenPort c0000024\n\
         17 24 NtMapViewOfSection c000004e\n\
         18 24 NtClose 00000000\n\
         19 24 NtClose c0000008\n\
         20 ~24 died 00000003\n\
         20 *36 NtConnectPort c0000041 info=\n\
         end 20 21 2\n",
    )
}
