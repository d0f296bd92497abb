// A process and a further thread of it that another process's thread makes, its handles to them, and their ends. The
// entries are written out by hand.
ghost use Rattle.std.specs.Prelude.{◌≡◌, ◌≤◌, ◌<◌, ◌+◌, true};
ghost use Rattle.lpc_model.specs.Grammar.{has_ids};
ghost use Rattle.lpc_model.specs.Lines.{close, run};

use crate::common::one;
use crate::death::closes;
use crate::ending::ends_a_thread;
use crate::machine::{begins, makes};
use lpc_base::status::SUCCESS;
use lpc_machine::Machine;
use lpc_model::{Call, CallName, Entries, Entry, FieldName, Line, ObjectKind, ProcArg, Value};
use lpc_tokens::TokenArena;
use std::process::Abort;
use std::test::Fail;

// Thread 24 makes process 32 with thread 36, by the handles 8 and 12.
fn makes_a_process(rt: &impl Abort, machine: &mut Machine, out: &mut Entries) -> Result<(), Fail>
    requires few { machine.old.calls < 1000000 }
    ensures calls { machine.new.calls ≤ machine.old.calls + 1 }
{
    let create = Line::Run {
        tid: 24,
        call: Call::CreateProcess { pid: 32, tid: 36 },
    };
    let mut fields = one(FieldName::H, Value::Number(8));
    fields.add(FieldName::FirstThread, Value::Number(12));
    let answer = Entry::Answer {
        tid: 24,
        call: CallName::NtCreateProcess,
        status: SUCCESS,
        fields,
    };
    makes(rt, machine, out, &create, answer)
}

// Thread 24 makes thread 40 of that process, by the handle 16.
fn makes_a_thread(rt: &impl Abort, machine: &mut Machine, out: &mut Entries) -> Result<(), Fail>
    requires few { machine.old.calls < 1000000 }
    ensures calls { machine.new.calls ≤ machine.old.calls + 1 }
{
    let create = Line::Run {
        tid: 24,
        call: Call::CreateThread {
            process: ProcArg::By(8),
            tid: 40,
        },
    };
    let answer = Entry::Answer {
        tid: 24,
        call: CallName::NtCreateThread,
        status: SUCCESS,
        fields: one(FieldName::H, Value::Number(16)),
    };
    makes(rt, machine, out, &create, answer)
}

// A handle to an object of that kind, which so many rows count for.
fn queries(
    rt: &impl Abort,
    machine: &mut Machine,
    out: &mut Entries,
    handle: u32,
    kind: ObjectKind,
    pointers: u64,
) -> Result<(), Fail>
    requires few { machine.old.calls < 1000000 }
    ensures calls { machine.new.calls ≤ machine.old.calls + 1 }
{
    let query = Line::Run {
        tid: 28,
        call: Call::QueryObject { handle },
    };
    let mut fields = one(FieldName::ObjectType, Value::Kind(kind));
    fields.add(FieldName::Access, Value::Hex(1));
    fields.add(FieldName::Handles, Value::Number(1));
    fields.add(FieldName::Pointers, Value::Number(pointers));
    let answer = Entry::Answer {
        tid: 28,
        call: CallName::NtQueryObject,
        status: SUCCESS,
        fields,
    };
    makes(rt, machine, out, &query, answer)
}

// Thread 24 closes the handle, after which so many objects stand.
fn leaves(
    rt: &impl Abort,
    machine: &mut Machine,
    out: &mut Entries,
    handle: u32,
    objects: usize,
) -> Result<(), Fail>
    requires few { machine.old.calls < 1000000 }
    ensures calls { machine.new.calls ≤ machine.old.calls + 1 }
{
    closes(rt, machine, out, handle, SUCCESS)?;
    assert!(rt; machine.objects() == objects);
    Ok(())
}

// The thread ends itself, after which so many objects stand.
fn ends(
    rt: &impl Abort,
    machine: &mut Machine,
    out: &mut Entries,
    tid: u32,
    objects: usize,
) -> Result<(), Fail>
    requires thread { has_ids (run tid (close 0)) ≡ true }
    requires few { machine.old.calls < 1000000 }
    ensures calls { machine.new.calls ≤ machine.old.calls + 1 }
{
    ends_a_thread(rt, machine, out, tid)?;
    assert!(rt; machine.objects() == objects);
    Ok(())
}

// A thread goes with its end where no handle names it; the process stays behind its last one, until its handle goes.
fn stays_by_its_handle(
    rt: &impl Abort,
    machine: &mut Machine,
    out: &mut Entries,
) -> Result<(), Fail>
    requires few { machine.old.calls < 100000 }
{
    leaves(rt, machine, out, 12, 7)?;
    ends(rt, machine, out, 36, 6)?;
    leaves(rt, machine, out, 16, 6)?;
    ends(rt, machine, out, 40, 5)?;
    leaves(rt, machine, out, 8, 4)
}

fn runs(rt: &impl Abort, machine: &mut Machine, out: &mut Entries) -> Result<(), Fail>
    requires few { machine.old.calls < 1000 }
{
    begins(rt, machine, out)?;
    makes_a_process(rt, machine, out)?;
    makes_a_thread(rt, machine, out)?;
    queries(rt, machine, out, 8, ObjectKind::Process, 3)?;
    queries(rt, machine, out, 16, ObjectKind::Thread, 2)?;
    stays_by_its_handle(rt, machine, out)
}

#[test]
fn a_process_stays_by_a_handle(rt: HostRuntime) -> Result<(), Fail> {
    let alloc = rt.alloc();
    let arena = TokenArena::new(alloc);
    let mut machine = Machine::new(alloc, &arena);
    let mut out = Entries::new(alloc)?;
    runs(&rt, &mut machine, &mut out)
}
