// Lines about the servers on threads, and the entries that such a line tells, worked by hand.
ghost use Rattle.std.specs.Prelude.{◌≡◌, false};

use crate::script::have_fault;
use crate::transcript::printed;
use lpc_base::status;
use lpc_model::{Entry, Line, LineFault, Word};
use lpc_script::{Scratch, read_line};
use std::process::Abort;
use std::test::Fail;

// Numbers in both forms, and their greatest.
const LINES: &[u8] = b"resident 24 win32 4\n\
    resident 0x18 win32 0\n\
    resident 2147483647 win32 4294967295\n\
    turn 24\n\
    turn 0x7fffffff";

// Too few words, and too many, whatever the others are.
const NO_COUNTS: &[u8] = b"resident\n\
    resident 24\n\
    resident 24 win32\n\
    resident 0 posix 4 4\n\
    turn\n\
    turn 0 24";

// Threads that are none come before the kind, and the kind before the handle.
const NO_NUMBERS: &[u8] = b"resident 0 posix x\n\
    resident 2147483648 win32 4\n\
    resident 024 win32 4\n\
    resident 24 win32 self\n\
    resident 24 win32 4294967296\n\
    resident 24 win32 -\n\
    turn 0\n\
    turn 2147483648\n\
    turn self";

const NO_KINDS: &[u8] = b"resident 24 posix 4\n\
    resident 24 Win32 x\n\
    resident 24 win32k 4\n\
    resident 24 win3 4\n\
    Resident 24 win32 4\n\
    turns 24";

// What the two lines say.
fn reads(rt: &impl Abort, scratch: &mut Scratch) {
    match read_line(b"resident 24 win32 0x10", scratch) {
        Ok(Some(Line::Resident { tid, handle, .. })) => assert!(rt; tid == 24 && handle == 16),
        _ => assert!(rt; false, "no server"),
    }
    match read_line(b"  turn  24 ", scratch) {
        Ok(Some(Line::Turn(tid))) => assert!(rt; tid == 24),
        _ => assert!(rt; false, "no turn"),
    }
}

#[test]
fn a_server_has_a_thread_a_kind_and_a_handle(rt: HostRuntime) -> Result<(), Fail> {
    let mut scratch = Scratch::new(rt.alloc())?;
    have_fault(&rt, &mut scratch, LINES, None);
    have_fault(&rt, &mut scratch, NO_COUNTS, Some(LineFault::Count));
    have_fault(&rt, &mut scratch, NO_NUMBERS, Some(LineFault::Number));
    have_fault(&rt, &mut scratch, NO_KINDS, Some(LineFault::Word));
    reads(&rt, &mut scratch);
    Ok(())
}

#[test]
fn a_line_about_a_server_is_told_as_a_directive(rt: HostRuntime) -> Result<(), Fail> {
    let comes = Entry::Directive {
        word: Word::Resident,
        status: status::SUCCESS,
    };
    printed(&rt, rt.alloc(), 4, comes, "4 - resident 00000000\n")?;
    let idle = Entry::Directive {
        word: Word::Turn,
        status: status::INVALID_CID,
    };
    printed(&rt, rt.alloc(), 5, idle, "5 - turn c000000b\n")
}
