// A request and its receipt, line by line. The entries are written out by hand.
ghost use Rattle.std.specs.Prelude.{◌≡◌, ◌≤◌, ◌<◌, ◌+◌, true};
ghost use Rattle.lpc_machine.specs.Short.{has_short_name};
ghost use Rattle.lpc_model.specs.Grammar.{has_ids};
ghost use Rattle.lpc_model.specs.Lines.{line_of};

use crate::common::{GIVEN, one};
use arrayvec::ArrayVec;
use lpc_base::status::SUCCESS;
use lpc_machine::Machine;
use lpc_model::{Call, CallName, Entries, Entry, FieldName, Line, Value, Word};
use lpc_tokens::TokenArena;
use std::process::Abort;
use std::test::Fail;

/// The line makes this one entry.
pub fn makes(
    rt: &impl Abort,
    machine: &mut Machine,
    out: &mut Entries,
    line: &Line<'_>,
    entry: Entry,
) -> Result<(), Fail>
    requires few { machine.old.calls < 1000000 }
    requires ids { has_ids (line_of line.now) ≡ true }
    requires named { has_short_name (line_of line.now) ≡ true }
    ensures { machine.new.calls ≤ machine.old.calls + 1 }
{
    out.clear();
    out.reserve(machine.room_needed())?;
    machine.step(line, out)?;
    assert!(rt; out.list() == [entry].as_slice());
    Ok(())
}

fn directive(word: Word) -> Entry {
    Entry::Directive {
        word,
        status: SUCCESS,
    }
}

// The message that is given, as the server receives it from thread 24 of process 20.
const RECEIVED: [u8; 26] = [
    2, 0, 26, 0, 1, 0, 0, 0, 20, 0, 0, 0, 24, 0, 0, 0, 1, 0, 0, 0, 0, 0, 0, 0, 0x41, 0x42,
];

/// A process with two threads, the first of which makes a port.
pub fn begins(rt: &impl Abort, machine: &mut Machine, out: &mut Entries) -> Result<(), Fail>
    requires few { machine.old.calls < 1000 }
    ensures calls { machine.new.calls ≤ machine.old.calls + 3 }
{
    let boot = Line::Boot {
        pid: 20,
        tid: 24,
        token: None,
    };
    makes(rt, machine, out, &boot, directive(Word::Boot))?;
    let thread = Line::Thread { tid: 28, pid: 20 };
    makes(rt, machine, out, &thread, directive(Word::Thread))?;
    let create = Line::Run {
        tid: 24,
        call: Call::CreatePort {
            name: None,
            dacl: None,
        },
    };
    let answer = Entry::Answer {
        tid: 24,
        call: CallName::NtCreatePort,
        status: SUCCESS,
        fields: one(FieldName::H, Value::Number(4)),
    };
    makes(rt, machine, out, &create, answer)
}

// Thread 24 asks and waits.
fn asks(rt: &impl Abort, machine: &mut Machine, out: &mut Entries) -> Result<(), Fail>
    requires few { machine.old.calls < 1000000 }
    ensures calls { machine.new.calls ≤ machine.old.calls + 1 }
{
    let request = Line::Run {
        tid: 24,
        call: Call::RequestWaitReplyPort {
            handle: 4,
            message: &GIVEN,
        },
    };
    let waits = Entry::Waits {
        tid: 24,
        call: CallName::NtRequestWaitReplyPort,
        fields: one(FieldName::Id, Value::Number(1)),
    };
    makes(rt, machine, out, &request, waits)
}

// Thread 28 receives the request.
fn receives(rt: &impl Abort, machine: &mut Machine, out: &mut Entries) -> Result<(), Fail>
    requires few { machine.old.calls < 1000000 }
{
    let receive = Line::Run {
        tid: 28,
        call: Call::ReplyWaitReceivePort {
            handle: 4,
            reply: None,
        },
    };
    let mut received = one(FieldName::Ctx, Value::Hex(0));
    received.add(
        FieldName::Msg,
        Value::Bytes(ArrayVec::try_from(RECEIVED.as_slice())?),
    );
    let answer = Entry::Answer {
        tid: 28,
        call: CallName::NtReplyWaitReceivePort,
        status: SUCCESS,
        fields: received,
    };
    makes(rt, machine, out, &receive, answer)
}

// The lines of a new machine, and what it counts.
fn runs(rt: &impl Abort, machine: &mut Machine, out: &mut Entries) -> Result<(), Fail>
    requires few { machine.old.calls < 1000 }
{
    assert!(rt; machine.room_needed() == 1);
    assert!(rt; machine.objects() == 0);
    begins(rt, machine, out)?;
    asks(rt, machine, out)?;
    receives(rt, machine, out)?;
    assert!(rt; machine.room_needed() == 7);
    assert!(rt; machine.objects() == 4);
    assert!(rt; machine.world().calls() == 5);
    Ok(())
}

#[test]
fn a_request_is_received_by_another_thread(rt: HostRuntime) -> Result<(), Fail> {
    let alloc = rt.alloc();
    let arena = TokenArena::new(alloc);
    let mut machine = Machine::new(alloc, &arena);
    let mut out = Entries::new(alloc)?;
    runs(&rt, &mut machine, &mut out)
}
