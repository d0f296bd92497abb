// Lines that raise exceptions and that set the ports which are told of them, and what their entries tell, worked by hand.
use crate::script::{have_fault, run_of};
use crate::transcript::{one, printed};
use arrayvec::ArrayVec;
use lpc_base::{Status, status};
use lpc_model::{Call, CallName, Entry, FieldName, Fields, LineFault, ProcArg, Value};
use lpc_script::Scratch;
use std::alloc::Global;
use std::process::Abort;
use std::test::Fail;

// Names that are close to those of the two calls.
const NO_CALLS: &[u8] = b"36 Raise 0 handled\n\
    36 raises 0 handled\n\
    36 rais 0 handled\n\
    36 NtRaise 0 handled\n\
    24 NtSetInformationprocess self 7 4";

// A word too many or too few, whatever the words are.
const NO_COUNTS: &[u8] = b"36 raise\n\
    36 raise 0\n\
    36 raise unhandled\n\
    36 raise x y handled\n\
    24 NtSetInformationProcess\n\
    24 NtSetInformationProcess self 7\n\
    24 NtSetInformationProcess x y z 4";

// Codes that are no numbers, also where the next word is faulty too.
const NO_CODES: &[u8] = b"36 raise c0000005 unhandled\n\
    36 raise 05 y\n\
    36 raise self handled\n\
    36 raise handled 0\n\
    36 raise 4294967296 handled\n\
    36 raise 0x0c0000005 handled";

// Processes, classes and ports that are no numbers, also where a further word is faulty too.
const NO_NUMBERS: &[u8] = b"24 NtSetInformationProcess Self 7 4\n\
    24 NtSetInformationProcess - x y\n\
    24 NtSetInformationProcess self self 4\n\
    24 NtSetInformationProcess 8 debug 04\n\
    24 NtSetInformationProcess 8 7 self\n\
    24 NtSetInformationProcess 8 7 -";

// Words that are neither `handled` nor `unhandled`.
const NO_ANSWERS: &[u8] = b"36 raise 0 Handled\n\
    36 raise 0 UNHANDLED\n\
    36 raise 0 unhandle\n\
    36 raise 0 handledd\n\
    36 raise 0 un\n\
    36 raise 0 1";

// The number of the thread comes before the name, the name before the count, the count before the words.
#[test]
fn an_exception_and_a_port_have_their_first_fault(rt: HostRuntime) -> Result<(), Fail> {
    let mut scratch = Scratch::new(rt.alloc())?;
    let lines = b"raise 0 handled\nraise\nNtSetInformationProcess self 7 4";
    have_fault(&rt, &mut scratch, lines, Some(LineFault::Word));
    let lines = b"0 raise 0 x\n036 raise\n2147483648 Raise 0 handled";
    have_fault(&rt, &mut scratch, lines, Some(LineFault::Number));
    have_fault(&rt, &mut scratch, NO_CALLS, Some(LineFault::Call));
    have_fault(&rt, &mut scratch, NO_COUNTS, Some(LineFault::Count));
    have_fault(&rt, &mut scratch, NO_CODES, Some(LineFault::Number));
    have_fault(&rt, &mut scratch, NO_NUMBERS, Some(LineFault::Number));
    have_fault(&rt, &mut scratch, NO_ANSWERS, Some(LineFault::Word));
    Ok(())
}

// The line raises an exception of this code, which the frame handlers handle or not.
fn raises(rt: &impl Abort, scratch: &mut Scratch, line: &[u8], number: u32, answer: bool) {
    match run_of(rt, scratch, line).1 {
        Call::Raise { code, handled } => assert!(rt; code == number && handled == answer),
        _ => assert!(rt; false, "no exception"),
    }
}

#[test]
fn an_exception_has_a_code_and_the_answer_of_the_frames(rt: HostRuntime) -> Result<(), Fail> {
    let mut scratch = Scratch::new(rt.alloc())?;
    let line = b"36 raise 0xc0000005 unhandled";
    raises(&rt, &mut scratch, line, 3221225477, false);
    let line = b" 36  raise 0xC0000094  handled ";
    raises(&rt, &mut scratch, line, 3221225620, true);
    raises(&rt, &mut scratch, b"36 raise 0 unhandled", 0, false);
    let line = b"36 raise 4294967295 handled";
    raises(&rt, &mut scratch, line, 4294967295, true);
    Ok(())
}

#[test]
fn a_process_is_given_a_port_by_its_handle_or_by_self(rt: HostRuntime) -> Result<(), Fail> {
    let mut scratch = Scratch::new(rt.alloc())?;
    let run = run_of(&rt, &mut scratch, b"24 NtSetInformationProcess 8 0x7 4");
    assert!(&rt;
        matches!(
            run.1,
            Call::SetInformationProcess {
                process: ProcArg::By(8),
                class: 7,
                port: 4
            }
        )
    );
    let run = run_of(&rt, &mut scratch, b"24 NtSetInformationProcess self 9 0");
    assert!(&rt;
        matches!(
            run.1,
            Call::SetInformationProcess {
                process: ProcArg::Current,
                class: 9,
                port: 0
            }
        )
    );
    Ok(())
}

// The answer without fields of a call has this text.
fn answers(
    rt: &impl Abort,
    alloc: Global,
    call: CallName,
    status: Status,
    text: &str,
) -> Result<(), Fail> {
    let entry = Entry::Answer {
        tid: 24,
        call,
        status,
        fields: Fields::none(),
    };
    printed(rt, alloc, 9, entry, text)
}

// The end with this status of the wait of a raise has this text.
fn wakes(rt: &impl Abort, alloc: Global, status: Status, text: &str) -> Result<(), Fail> {
    let entry = Entry::Wakes {
        tid: 36,
        call: CallName::Raise,
        status,
        fields: Fields::none(),
    };
    printed(rt, alloc, 10, entry, text)
}

#[test]
fn an_exception_that_goes_on_has_its_text(rt: HostRuntime) -> Result<(), Fail> {
    let alloc = rt.alloc();
    let text = "9 24 raise 00000000\n";
    answers(&rt, alloc, CallName::Raise, status::SUCCESS, text)?;
    let waits = Entry::Waits {
        tid: 36,
        call: CallName::Raise,
        fields: one(FieldName::Id, Value::Number(1)),
    };
    printed(&rt, alloc, 8, waits, "8 36 raise wait id=1\n")?;
    let text = "10 *36 raise 00010002\n";
    wakes(&rt, alloc, status::DBG_CONTINUE, text)?;
    wakes(&rt, alloc, status::SUCCESS, "10 *36 raise 00000000\n")
}

#[test]
fn a_port_that_is_set_has_its_text(rt: HostRuntime) -> Result<(), Fail> {
    let sets = CallName::NtSetInformationProcess;
    let text = "9 24 NtSetInformationProcess 00000000\n";
    answers(&rt, rt.alloc(), sets, status::SUCCESS, text)?;
    let text = "9 24 NtSetInformationProcess c0000048\n";
    answers(&rt, rt.alloc(), sets, status::PORT_ALREADY_SET, text)
}

// An event that thread 36 of process 32 sends is received, with these bytes: its header, the code and the chance.
fn receives(rt: &impl Abort, alloc: Global, event: &[u8; 32], text: &str) -> Result<(), Fail> {
    let mut bytes = ArrayVec::new();
    bytes.try_extend_from_slice(event).unwrap();
    let mut fields = one(FieldName::Ctx, Value::Hex(0));
    fields.add(FieldName::Msg, Value::Bytes(bytes));
    let entry = Entry::Wakes {
        tid: 24,
        call: CallName::NtReplyWaitReceivePort,
        status: status::SUCCESS,
        fields,
    };
    printed(rt, alloc, 8, entry, text)
}

#[test]
fn an_event_is_shown_as_it_is(rt: HostRuntime) -> Result<(), Fail> {
    let first = [
        8, 0, 32, 0, 8, 0, 0, 0, 32, 0, 0, 0, 36, 0, 0, 0, 1, 0, 0, 0, 0, 0, 0, 0, 5, 0, 0, 192, 1,
        0, 0, 0,
    ];
    let text = "8 *24 NtReplyWaitReceivePort 00000000 ctx=00000000 \
        msg=080020000800000020000000240000000100000000000000050000c001000000\n";
    receives(&rt, rt.alloc(), &first, text)?;
    let last = [
        8, 0, 32, 0, 7, 0, 0, 0, 32, 0, 0, 0, 36, 0, 0, 0, 3, 0, 0, 0, 0, 0, 0, 0, 5, 0, 0, 192, 2,
        0, 0, 0,
    ];
    let text = "8 *24 NtReplyWaitReceivePort 00000000 ctx=00000000 \
        msg=080020000700000020000000240000000300000000000000050000c002000000\n";
    receives(&rt, rt.alloc(), &last, text)
}
