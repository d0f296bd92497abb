// Processes and threads that are made, through a whole script. The transcript is written out by hand.
use crate::common::replayed;
use std::test::Fail;

// A process is made with a thread, a further thread by the handle to the process; a number that was used is refused.
// Each of the two handles finds its object until that has ended: the thread, and then the process with its last thread.
#[test]
fn a_child_is_made_and_ended_by_its_handles(rt: HostRuntime) -> Result<(), Fail> {
    replayed(
        &rt,
        rt.alloc(),
        "boot 20 24\n\
         24 NtCreateProcess 32 36\n\
         24 NtCreateThread 4 36\n\
         24 NtCreateThread 4 40\n\
         24 NtTerminateThread 8 7\n\
         24 NtTerminateThread 8 7\n\
         24 NtQueryObject 4\n\
         24 NtTerminateProcess 4 9\n\
         24 NtTerminateProcess 4 9\n",
        0,
        "1 - boot 00000000\n\
         2 24 NtCreateProcess 00000000 h=4 thread=8\n\
         3 24 NtCreateThread c0000035\n\
         4 24 NtCreateThread 00000000 h=12\n\
         5 24 NtTerminateThread 00000000\n\
         5 ~36 died 00000007\n\
         6 24 NtTerminateThread c000000b\n\
         7 24 NtQueryObject 00000000 type=process access=00000001 handles=1 pointers=2\n\
         8 24 NtTerminateProcess 00000000\n\
         8 ~40 died 00000009\n\
         9 24 NtTerminateProcess c000000b\n\
         end 9 11 5\n",
    )
}
