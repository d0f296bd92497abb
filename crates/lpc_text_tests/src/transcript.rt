// The text, written out by hand.
ghost use Rattle.std.specs.Prelude.{◌≡◌, [], ◌∷◌, false};
ghost use Rattle.lpc_model.specs.Listed.{has_read, is_read};

use arrayvec::ArrayVec;
use lpc_base::{Status, status};
use lpc_model::{CallName, Entries, Entry, FieldName, Fields, LineFault, ObjectKind, Value, Word};
use lpc_transcript::{print, print_end, print_stop};
use std::alloc::Global;
use std::process::Abort;
use std::test::Fail;

// The text of one entry of a line.
pub(crate) fn printed(
    rt: &impl Abort,
    alloc: Global,
    line: u32,
    entry: Entry,
    text: &str,
) -> Result<(), Fail>
    requires { has_read entry ≡ false }
{
    let mut entries = Entries::new(alloc)?;
    entries.reserve(1)?;
    entries.push(entry);
    let mut into = Vec::new(alloc);
    print(line, &entries, &mut into)?;
    assert!(rt; into.as_slice() == text.as_bytes());
    Ok(())
}

pub(crate) fn one(name: FieldName, value: Value) -> Fields
    ensures { result ≡ (record { name = name; value = value }) ∷ [] }
{
    let mut fields = Fields::none();
    fields.add(name, value);
    fields
}

// The answers of a registration, and of ends that another thread or process meets.
fn prints_endings(rt: &impl Abort, alloc: Global) -> Result<(), Fail> {
    let registered = Entry::Answer {
        tid: 24,
        call: CallName::NtRegisterThreadTerminatePort,
        status: status::QUOTA_EXCEEDED,
        fields: Fields::none(),
    };
    let text = "7 24 NtRegisterThreadTerminatePort c0000044\n";
    printed(rt, alloc, 7, registered, text)?;
    let thread = Entry::Answer {
        tid: 24,
        call: CallName::NtTerminateThread,
        status: status::INVALID_CID,
        fields: Fields::none(),
    };
    printed(rt, alloc, 8, thread, "8 24 NtTerminateThread c000000b\n")?;
    let process = Entry::Answer {
        tid: 24,
        call: CallName::NtTerminateProcess,
        status: status::INVALID_HANDLE,
        fields: Fields::none(),
    };
    printed(rt, alloc, 9, process, "9 24 NtTerminateProcess c0000008\n")
}

// A call that is answered, one that waits and one that is woken.
fn prints_calls(rt: &impl Abort, alloc: Global) -> Result<(), Fail> {
    let answer = Entry::Answer {
        tid: 24,
        call: CallName::NtCreatePort,
        status: status::SUCCESS,
        fields: one(FieldName::H, Value::Number(4)),
    };
    printed(rt, alloc, 3, answer, "3 24 NtCreatePort 00000000 h=4\n")?;
    let waits = Entry::Waits {
        tid: 24,
        call: CallName::NtRequestWaitReplyPort,
        fields: one(FieldName::Id, Value::Number(1)),
    };
    printed(
        rt,
        alloc,
        4,
        waits,
        "4 24 NtRequestWaitReplyPort wait id=1\n",
    )?;
    let wakes = Entry::Wakes {
        tid: 24,
        call: CallName::NtReplyWaitReceivePort,
        status: status::LPC_REPLY_LOST,
        fields: Fields::none(),
    };
    printed(
        rt,
        alloc,
        13,
        wakes,
        "13 *24 NtReplyWaitReceivePort c0000253\n",
    )
}

// A thread that can't call, one that isn't there, and one that died.
fn prints_threads(rt: &impl Abort, alloc: Global) -> Result<(), Fail> {
    printed(rt, alloc, 5, Entry::Busy { tid: 24 }, "5 24 busy\n")?;
    let absent = Entry::NoThread { tid: 2147483647 };
    printed(rt, alloc, 6, absent, "6 2147483647 nothread\n")?;
    let died = Entry::Died {
        tid: 36,
        status: Status(1),
    };
    printed(rt, alloc, 1000000, died, "1000000 ~36 died 00000001\n")
}

// Two directives.
fn prints_directives(rt: &impl Abort, alloc: Global) -> Result<(), Fail> {
    let boot = Entry::Directive {
        word: Word::Boot,
        status: status::SUCCESS,
    };
    printed(rt, alloc, 1, boot, "1 - boot 00000000\n")?;
    let thread = Entry::Directive {
        word: Word::Thread,
        status: status::OBJECT_NAME_COLLISION,
    };
    printed(rt, alloc, 2, thread, "2 - thread c0000035\n")
}

#[test]
fn each_kind_of_entry_has_its_form(rt: HostRuntime) -> Result<(), Fail> {
    prints_calls(&rt, rt.alloc())?;
    prints_endings(&rt, rt.alloc())?;
    prints_threads(&rt, rt.alloc())?;
    prints_directives(&rt, rt.alloc())
}

// The text of an answer with one field.
fn shown(
    rt: &impl Abort,
    alloc: Global,
    name: FieldName,
    value: Value,
    text: &str,
) -> Result<(), Fail>
    requires { is_read value ≡ false }
{
    let entry = Entry::Answer {
        tid: 1,
        call: CallName::NtReplyPort,
        status: status::SUCCESS,
        fields: one(name, value),
    };
    printed(rt, alloc, 9, entry, text)
}

// The text of a handle to an object of this kind.
fn shows_kind(rt: &impl Abort, alloc: Global, kind: ObjectKind, text: &str) -> Result<(), Fail> {
    shown(rt, alloc, FieldName::H, Value::Kind(kind), text)
}

// Numbers in both forms.
fn prints_numbers(rt: &impl Abort, alloc: Global) -> Result<(), Fail> {
    shown(
        rt,
        alloc,
        FieldName::Id,
        Value::Number(0),
        "9 1 NtReplyPort 00000000 id=0\n",
    )?;
    let greatest = Value::Number(18446744073709551615);
    let text = "9 1 NtReplyPort 00000000 id=18446744073709551615\n";
    shown(rt, alloc, FieldName::Id, greatest, text)?;
    let context = Value::Hex(0x00AB_CDEF);
    shown(
        rt,
        alloc,
        FieldName::Ctx,
        context,
        "9 1 NtReplyPort 00000000 ctx=00abcdef\n",
    )
}

// Three bytes, and none.
fn prints_bytes(rt: &impl Abort, alloc: Global) -> Result<(), Fail> {
    let mut bytes = ArrayVec::new();
    bytes.push(0);
    bytes.push(10);
    bytes.push(255);
    let message = Value::Bytes(bytes);
    shown(
        rt,
        alloc,
        FieldName::Msg,
        message,
        "9 1 NtReplyPort 00000000 msg=000aff\n",
    )?;
    let empty = Value::Bytes(ArrayVec::new());
    shown(
        rt,
        alloc,
        FieldName::Msg,
        empty,
        "9 1 NtReplyPort 00000000 msg=\n",
    )
}

// Each kind of object.
fn prints_kinds(rt: &impl Abort, alloc: Global) -> Result<(), Fail> {
    shows_kind(
        rt,
        alloc,
        ObjectKind::Port,
        "9 1 NtReplyPort 00000000 h=port\n",
    )?;
    shows_kind(
        rt,
        alloc,
        ObjectKind::Section,
        "9 1 NtReplyPort 00000000 h=section\n",
    )?;
    shows_kind(
        rt,
        alloc,
        ObjectKind::Token,
        "9 1 NtReplyPort 00000000 h=token\n",
    )?;
    shows_kind(
        rt,
        alloc,
        ObjectKind::Process,
        "9 1 NtReplyPort 00000000 h=process\n",
    )?;
    shows_kind(
        rt,
        alloc,
        ObjectKind::Thread,
        "9 1 NtReplyPort 00000000 h=thread\n",
    )
}

#[test]
fn each_kind_of_value_has_its_form(rt: HostRuntime) -> Result<(), Fail> {
    prints_numbers(&rt, rt.alloc())?;
    prints_bytes(&rt, rt.alloc())?;
    prints_kinds(&rt, rt.alloc())
}

// A connect that is completed.
fn prints_a_completed_connect(rt: &impl Abort, alloc: Global) -> Result<(), Fail> {
    let mut fields = Fields::none();
    fields.add(FieldName::H, Value::Number(4));
    fields.add(FieldName::Max, Value::Number(256));
    fields.add(FieldName::Info, Value::Bytes(ArrayVec::new()));
    let completed = Entry::Wakes {
        tid: 36,
        call: CallName::NtConnectPort,
        status: status::SUCCESS,
        fields,
    };
    printed(
        rt,
        alloc,
        8,
        completed,
        "8 *36 NtConnectPort 00000000 h=4 max=256 info=\n",
    )
}

// A connect that is completed, where both sides offered a view.
fn prints_views_of_a_connect(rt: &impl Abort, alloc: Global) -> Result<(), Fail> {
    let mut fields = one(FieldName::Target, Value::Hex(0x2_0000));
    fields.add(FieldName::ViewBase, Value::Hex(0x1_0000));
    fields.add(FieldName::ViewSize, Value::Number(8192));
    let completed = Entry::Wakes {
        tid: 36,
        call: CallName::NtConnectPort,
        status: status::SUCCESS,
        fields,
    };
    printed(
        rt,
        alloc,
        8,
        completed,
        "8 *36 NtConnectPort 00000000 target=00020000 vbase=00010000 vsize=8192\n",
    )
}

// A connect that is refused with two bytes.
fn prints_a_refused_connect(rt: &impl Abort, alloc: Global) -> Result<(), Fail> {
    let mut bytes = ArrayVec::new();
    bytes.push(0x4e);
    bytes.push(0x6f);
    let refused = Entry::Wakes {
        tid: 36,
        call: CallName::NtConnectPort,
        status: Status(0xC000_0041),
        fields: one(FieldName::Info, Value::Bytes(bytes)),
    };
    printed(
        rt,
        alloc,
        7,
        refused,
        "7 *36 NtConnectPort c0000041 info=4e6f\n",
    )
}

// A call that waits, and tells nothing.
fn prints_a_wait(rt: &impl Abort, alloc: Global, call: CallName, text: &str) -> Result<(), Fail> {
    let waits = Entry::Waits {
        tid: 24,
        call,
        fields: Fields::none(),
    };
    printed(rt, alloc, 6, waits, text)
}

// The calls that a server makes for a connect.
fn prints_waits(rt: &impl Abort, alloc: Global) -> Result<(), Fail> {
    prints_a_wait(
        rt,
        alloc,
        CallName::NtListenPort,
        "6 24 NtListenPort wait\n",
    )?;
    let accepts = CallName::NtAcceptConnectPort;
    prints_a_wait(rt, alloc, accepts, "6 24 NtAcceptConnectPort wait\n")?;
    let completes = CallName::NtCompleteConnectPort;
    prints_a_wait(rt, alloc, completes, "6 24 NtCompleteConnectPort wait\n")
}

#[test]
fn a_completed_connect_tells_its_limit_and_its_bytes(rt: HostRuntime) -> Result<(), Fail> {
    prints_a_completed_connect(&rt, rt.alloc())?;
    prints_views_of_a_connect(&rt, rt.alloc())?;
    prints_a_refused_connect(&rt, rt.alloc())?;
    prints_waits(&rt, rt.alloc())
}

#[test]
fn entries_follow_in_order_behind_what_stands(rt: HostRuntime) -> Result<(), Fail> {
    let alloc = rt.alloc();
    let mut fields = Fields::none();
    fields.add(FieldName::Ctx, Value::Hex(7));
    fields.add(FieldName::Id, Value::Number(2));
    let mut entries = Entries::new(alloc)?;
    entries.reserve(2)?;
    entries.push_read(20, CallName::NtReplyPort, b"hello");
    entries.push(Entry::Waits {
        tid: 24,
        call: CallName::NtReplyWaitReceivePort,
        fields,
    });
    let mut into = Vec::from_slice(alloc, b"4 20 busy\n")?;
    print(5, &entries, &mut into)?;
    let text =
        b"4 20 busy\n5 20 NtReplyPort 00000000 data=68656c6c6f\n5 24 NtReplyWaitReceivePort wait ctx=00000007 id=2\n";
    assert!(rt; into.as_slice() == text.as_slice());
    Ok(())
}

// The last line of a script with this fault.
fn stops(rt: &impl Abort, into: &mut Vec<u8>, fault: LineFault, text: &str) -> Result<(), Fail> {
    into.clear();
    print_stop(into, 1000001, fault)?;
    assert!(rt; into.as_slice() == text.as_bytes());
    Ok(())
}

// The faults of words.
fn stops_at_words(rt: &impl Abort, into: &mut Vec<u8>) -> Result<(), Fail> {
    stops(rt, into, LineFault::Word, "stop 1000001 2\n")?;
    stops(rt, into, LineFault::Call, "stop 1000001 3\n")?;
    stops(rt, into, LineFault::Count, "stop 1000001 4\n")?;
    stops(rt, into, LineFault::Number, "stop 1000001 5\n")?;
    stops(rt, into, LineFault::Hex, "stop 1000001 6\n")?;
    stops(rt, into, LineFault::Message, "stop 1000001 7\n")?;
    stops(rt, into, LineFault::Sid, "stop 1000001 8\n")
}

// The faults of a whole line, and of a script.
fn stops_at_lines(rt: &impl Abort, into: &mut Vec<u8>) -> Result<(), Fail> {
    stops(rt, into, LineFault::Byte, "stop 1000001 1\n")?;
    stops(rt, into, LineFault::Long, "stop 1000001 9\n")?;
    stops(rt, into, LineFault::Lines, "stop 1000001 10\n")
}

#[test]
fn the_last_line_has_one_of_two_forms(rt: HostRuntime) -> Result<(), Fail> {
    let mut into = Vec::new(rt.alloc());
    print_end(&mut into, 6, 7, 4)?;
    assert!(rt; into.as_slice() == b"end 6 7 4\n".as_slice());
    stops_at_words(&rt, &mut into)?;
    stops_at_lines(&rt, &mut into)
}
