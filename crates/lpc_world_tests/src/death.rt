// A port with two handles: it is closed with the second. The entries are written out by hand.
ghost use Rattle.std.specs.Prelude.{◌≤◌, ◌<◌, ◌+◌};

use crate::common::one;
use crate::machine::{begins, makes};
use lpc_base::Status;
use lpc_base::status::{INVALID_HANDLE, SUCCESS};
use lpc_machine::Machine;
use lpc_model::{Call, CallName, Entries, Entry, FieldName, Fields, Line, ObjectKind, Value};
use lpc_tokens::TokenArena;
use std::process::Abort;
use std::test::Fail;

// Thread 24 gets handle 8 to the port of handle 4, with the right of bit 0 alone.
fn duplicates(rt: &impl Abort, machine: &mut Machine, out: &mut Entries) -> Result<(), Fail>
    requires few { machine.old.calls < 1000000 }
    ensures calls { machine.new.calls ≤ machine.old.calls + 1 }
{
    let duplicate = Line::Run {
        tid: 24,
        call: Call::DuplicateObject {
            handle: 4,
            access: Some(1),
        },
    };
    let answer = Entry::Answer {
        tid: 24,
        call: CallName::NtDuplicateObject,
        status: SUCCESS,
        fields: one(FieldName::H, Value::Number(8)),
    };
    makes(rt, machine, out, &duplicate, answer)
}

// Two handles name the port, and nothing else counts for it.
fn queries(rt: &impl Abort, machine: &mut Machine, out: &mut Entries) -> Result<(), Fail>
    requires few { machine.old.calls < 1000000 }
    ensures calls { machine.new.calls ≤ machine.old.calls + 1 }
{
    let query = Line::Run {
        tid: 28,
        call: Call::QueryObject { handle: 8 },
    };
    let mut fields = one(FieldName::ObjectType, Value::Kind(ObjectKind::Port));
    fields.add(FieldName::Access, Value::Hex(1));
    fields.add(FieldName::Handles, Value::Number(2));
    fields.add(FieldName::Pointers, Value::Number(2));
    let answer = Entry::Answer {
        tid: 28,
        call: CallName::NtQueryObject,
        status: SUCCESS,
        fields,
    };
    makes(rt, machine, out, &query, answer)
}

/// A close of the handle by thread 24 ends so.
pub fn closes(
    rt: &impl Abort,
    machine: &mut Machine,
    out: &mut Entries,
    handle: u32,
    status: Status,
) -> Result<(), Fail>
    requires few { machine.old.calls < 1000000 }
    ensures calls { machine.new.calls ≤ machine.old.calls + 1 }
{
    let close = Line::Run {
        tid: 24,
        call: Call::Close { handle },
    };
    let answer = Entry::Answer {
        tid: 24,
        call: CallName::NtClose,
        status,
        fields: Fields::none(),
    };
    makes(rt, machine, out, &close, answer)
}

// The port stays with its second handle, and goes with it.
fn goes(rt: &impl Abort, machine: &mut Machine, out: &mut Entries) -> Result<(), Fail>
    requires few { machine.old.calls < 100000 }
{
    closes(rt, machine, out, 4, SUCCESS)?;
    assert!(rt; machine.objects() == 4);
    closes(rt, machine, out, 8, SUCCESS)?;
    assert!(rt; machine.objects() == 3);
    closes(rt, machine, out, 8, INVALID_HANDLE)
}

fn runs(rt: &impl Abort, machine: &mut Machine, out: &mut Entries) -> Result<(), Fail>
    requires few { machine.old.calls < 1000 }
{
    begins(rt, machine, out)?;
    duplicates(rt, machine, out)?;
    queries(rt, machine, out)?;
    goes(rt, machine, out)
}

#[test]
fn a_port_goes_with_its_last_handle(rt: HostRuntime) -> Result<(), Fail> {
    let alloc = rt.alloc();
    let arena = TokenArena::new(alloc);
    let mut machine = Machine::new(alloc, &arena);
    let mut out = Entries::new(alloc)?;
    runs(&rt, &mut machine, &mut out)
}
