// A server reads and writes what its client's request describes, line by line. The entries are written out by hand.
ghost use Rattle.std.specs.Prelude.{◌≤◌, ◌<◌, ◌+◌};

use crate::common::one;
use crate::machine::{begins, makes};
use lpc_base::status::SUCCESS;
use lpc_machine::Machine;
use lpc_model::{
    Call, CallName, Entries, Entry, FieldName, Fields, Line, Value, handle_field, view_fields,
};
use lpc_tokens::TokenArena;
use std::process::Abort;
use std::test::Fail;

// A request that describes one range: 3 bytes at 00010ffd.
const DESCRIBING: [u8; 36] = [
    12, 0, 36, 0, 0, 0, 24, 0, 0, 0, 0, 0, 0, 0, 0, 0, 0, 0, 0, 0, 0, 0, 0, 0, 1, 0, 0, 0, 0xfd,
    0x0f, 1, 0, 3, 0, 0, 0,
];

// A message that names the first request of thread 24 of process 20.
const NAMING: [u8; 24] = [
    0, 0, 24, 0, 0, 0, 0, 0, 20, 0, 0, 0, 24, 0, 0, 0, 1, 0, 0, 0, 0, 0, 0, 0,
];

fn success(tid: u32, call: CallName, fields: Fields) -> Entry {
    Entry::Answer {
        tid,
        call,
        status: SUCCESS,
        fields,
    }
}

// Thread 24 makes a section, and its process shows it.
fn shows(rt: &impl Abort, machine: &mut Machine, out: &mut Entries) -> Result<(), Fail>
    requires few { machine.old.calls < 2000 }
    ensures calls { machine.new.calls ≤ machine.old.calls + 2 }
{
    let create = Line::Run {
        tid: 24,
        call: Call::CreateSection {
            size: 4096,
            protection: 4,
        },
    };
    let made = success(24, CallName::NtCreateSection, handle_field(8));
    makes(rt, machine, out, &create, made)?;
    let map = Line::Run {
        tid: 24,
        call: Call::MapViewOfSection {
            handle: 8,
            offset: 0,
            size: 0,
            protection: 4,
        },
    };
    let fields = view_fields(0x0001_0000, 4096);
    let mapped = success(24, CallName::NtMapViewOfSection, fields);
    makes(rt, machine, out, &map, mapped)
}

// Thread 24 asks and waits.
fn asks(rt: &impl Abort, machine: &mut Machine, out: &mut Entries) -> Result<(), Fail>
    requires few { machine.old.calls < 2000 }
    ensures calls { machine.new.calls ≤ machine.old.calls + 1 }
{
    let request = Line::Run {
        tid: 24,
        call: Call::RequestWaitReplyPort {
            handle: 4,
            message: &DESCRIBING,
        },
    };
    let waits = Entry::Waits {
        tid: 24,
        call: CallName::NtRequestWaitReplyPort,
        fields: one(FieldName::Id, Value::Number(1)),
    };
    makes(rt, machine, out, &request, waits)
}

// Thread 28 receives the request.
fn receives(machine: &mut Machine, out: &mut Entries) -> Result<(), Fail>
    requires few { machine.old.calls < 2000 }
    ensures calls { machine.new.calls ≤ machine.old.calls + 1 }
{
    let receive = Line::Run {
        tid: 28,
        call: Call::ReplyWaitReceivePort {
            handle: 4,
            reply: None,
        },
    };
    out.clear();
    out.reserve(machine.room_needed())?;
    machine.step(&receive, out)?;
    Ok(())
}

// Thread 28 writes two bytes of the range.
fn writes(rt: &impl Abort, machine: &mut Machine, out: &mut Entries) -> Result<(), Fail>
    requires few { machine.old.calls < 2000 }
    ensures calls { machine.new.calls ≤ machine.old.calls + 1 }
{
    let write = Line::Run {
        tid: 28,
        call: Call::WriteRequestData {
            handle: 4,
            message: &NAMING,
            index: 0,
            bytes: b"AB",
        },
    };
    let answer = success(28, CallName::NtWriteRequestData, Fields::none());
    makes(rt, machine, out, &write, answer)
}

// Thread 28 reads all of it.
fn reads(rt: &impl Abort, machine: &mut Machine, out: &mut Entries) -> Result<(), Fail>
    requires few { machine.old.calls < 2000 }
{
    let read = Line::Run {
        tid: 28,
        call: Call::ReadRequestData {
            handle: 4,
            message: &NAMING,
            index: 0,
            length: 3,
        },
    };
    let answer = success(
        28,
        CallName::NtReadRequestData,
        one(FieldName::Data, Value::Read),
    );
    makes(rt, machine, out, &read, answer)?;
    assert!(rt; out.read_bytes() == b"AB\0".as_slice());
    Ok(())
}

fn runs(rt: &impl Abort, machine: &mut Machine, out: &mut Entries) -> Result<(), Fail>
    requires few { machine.old.calls < 1000 }
{
    begins(rt, machine, out)?;
    shows(rt, machine, out)?;
    asks(rt, machine, out)?;
    receives(machine, out)?;
    writes(rt, machine, out)?;
    reads(rt, machine, out)
}

#[test]
fn a_server_reads_and_writes_a_clients_range(rt: HostRuntime) -> Result<(), Fail> {
    let alloc = rt.alloc();
    let arena = TokenArena::new(alloc);
    let mut machine = Machine::new(alloc, &arena);
    let mut out = Entries::new(alloc)?;
    runs(&rt, &mut machine, &mut out)
}
