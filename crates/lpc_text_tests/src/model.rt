// The calls of a list of entries, each once, and the texts of faults.
ghost use Rattle.std.specs.Prelude.{◌≡◌, [], false};

use lpc_base::status;
use lpc_model::{CallName, Entries, Entry, FieldName, Fields, Lent, LineFault, Value};
use std::alloc::Global;
use std::process::Abort;
use std::test::Fail;

// The fields have these names.
fn are(rt: &impl Abort, fields: &Fields, first: Option<FieldName>, second: Option<FieldName>) {
    assert!(rt; fields.name(0) == first);
    assert!(rt; fields.name(1) == second);
    assert!(rt; fields.name(2) == None);
}

#[test]
fn fields_stand_in_the_order_in_which_they_were_added(rt: HostRuntime) {
    let mut fields = Fields::none();
    assert!(rt; fields.count() == 0);
    fields.add(FieldName::Ctx, Value::Hex(7));
    fields.add(FieldName::Id, Value::Number(2));
    assert!(rt; fields.count() == 2);
    are(&rt, &fields, Some(FieldName::Ctx), Some(FieldName::Id));
    assert!(rt; matches!(fields.value(1), Some(Lent::Number(2))));
    assert!(rt; fields.value(2).is_none());
}

// So many entries, these bytes of a memory read, and room for so many more.
fn holds(rt: &impl Abort, entries: &Entries, count: usize, read: &[u8], room: usize) {
    assert!(rt; entries.list().len() == count);
    assert!(rt; entries.read_bytes() == read);
    assert!(rt; entries.spare() == room);
}

// The entry of a thread that can't call, and behind it the answer of a call that read bytes.
fn tells_the_two(rt: &impl Abort, entries: &Entries) {
    let mut fields = Fields::none();
    fields.add(FieldName::Data, Value::Read);
    let read = Entry::Answer {
        tid: 28,
        call: CallName::NtReplyPort,
        status: status::SUCCESS,
        fields,
    };
    assert!(rt; entries.list() == [Entry::Busy { tid: 24 }, read].as_slice());
}

// Two entries on a list without any, which is emptied then.
fn grows_and_is_emptied(rt: &impl Abort, entries: &mut Entries) -> Result<(), Fail>
    requires { entries.old.reads ≡ false }
{
    entries.reserve(2)?;
    let room = entries.spare();
    assert!(rt; room >= 2);
    entries.push(Entry::Busy { tid: 24 });
    entries.push_read(28, CallName::NtReplyPort, b"ABC");
    holds(rt, entries, 2, b"ABC", room - 2);
    tells_the_two(rt, entries);
    entries.clear();
    holds(rt, entries, 0, b"", room);
    Ok(())
}

#[test]
fn a_list_of_entries_grows_by_its_room_and_is_emptied(rt: HostRuntime) -> Result<(), Fail> {
    let mut entries = Entries::new(rt.alloc())?;
    grows_and_is_emptied(&rt, &mut entries)
}

// The text of a fault is this one.
fn tells(rt: &impl Abort, fault: LineFault, expected: &str, alloc: Global) -> Result<(), Fail> {
    let text = format!(in alloc; "{fault}")?;
    assert!(rt; text.as_str() == expected);
    Ok(())
}

#[test]
fn faults_of_lines_have_their_texts(rt: HostRuntime) -> Result<(), Fail> {
    let texts = [
        (LineFault::Byte, "a byte is no printable character"),
        (
            LineFault::Word,
            "a word is none of the words that may stand here",
        ),
        (LineFault::Call, "no call has this name"),
        (LineFault::Count, "there are too few or too many words"),
        (LineFault::Number, "a number is out of form or range"),
        (LineFault::Hex, "digits are no hexadecimal bytes"),
        (
            LineFault::Message,
            "a message, or the bytes of a connect, have none of their forms",
        ),
        (LineFault::Sid, "a SID is not spelled as one"),
        (LineFault::Long, "the line is too long"),
        (LineFault::Lines, "the script has too many lines"),
    ];
    for (fault, text) in texts {
        tells(&rt, fault, text, rt.alloc())?;
    }
    Ok(())
}
