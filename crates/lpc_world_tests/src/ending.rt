// A port that a thread registers, and a thread and a process that end, with ample memory. The entries are written out
// by hand.
ghost use Rattle.std.specs.Prelude.{◌≡◌, ◌≤◌, ◌<◌, ◌+◌, true};
ghost use Rattle.lpc_base.specs.declared.limits.TheConstants.{LINES_LIMIT};
ghost use Rattle.lpc_model.specs.Grammar.{has_ids};
ghost use Rattle.lpc_model.specs.Lines.{close, run};
ghost use Rattle.lpc_rows.specs.Names.{stands};
ghost use Rattle.lpc_rows.specs.Ready.{is_ready};

use crate::common::{boots, can_call, makes_a_port};
use crate::machine::{begins, makes};
use lpc_base::status::SUCCESS;
use lpc_base::{PortKind, Status};
use lpc_machine::Machine;
use lpc_model::{Call, CallName, Entries, Entry, Fields, Line, ProcArg};
use lpc_request::{has_registered, registration_test};
use lpc_slots::Key;
use lpc_tokens::TokenArena;
use lpc_world::World;
use std::process::Abort;
use std::test::Fail;

// Thread 24 registers the port, where it may, and what is found of that is as it says.
fn registers(rt: &impl Abort, world: &mut World, port: Key) -> Result<(), Fail>
    requires few { world.old.calls < LINES_LIMIT }
    requires ready { is_ready world.old.rows 24 ≡ true }
    requires stands { stands world.old.births.ports port ≡ true }
    ensures calls { world.new.calls ≤ world.old.calls + 1 }
{
    let caller = world.caller(24);
    assert!(rt; !has_registered(world, 24, port));
    world.messages_reserve(1)?;
    let Ok(()) = registration_test(world, 24, port) else {
        return Ok(assert!(rt; false));
    };
    if has_registered(world, 24, port) {
        return Ok(assert!(rt; false));
    }
    world.begin_call();
    world.procs_register(caller.number, port);
    Ok(())
}

// Nothing is to be told of process 20, whose first live thread is 24 or none, and no connect of 24 is accepted.
fn has_nothing_to_tell(rt: &impl Abort, world: &World, live: Option<u32>) {
    assert!(rt; world.first_live(20) == live);
    assert!(rt; world.first_untold(20).is_none());
    assert!(rt; world.accepted_port(24).is_none());
}

#[test]
fn a_thread_registers_a_port(rt: HostRuntime) -> Result<(), Fail> {
    let arena = TokenArena::new(rt.alloc());
    let mut world = World::empty(rt.alloc(), &arena);
    boots(&rt, &mut world, 20, 24, SUCCESS)?;
    can_call(&rt, &world, 24);
    let port = makes_a_port(&mut world, PortKind::Unnamed, None)?;
    can_call(&rt, &world, 24);
    registers(&rt, &mut world, port)?;
    has_nothing_to_tell(&rt, &world, Some(24));
    Ok(())
}

// Thread 28 registers the port of handle 4.
fn registers_by_a_line(
    rt: &impl Abort,
    machine: &mut Machine,
    out: &mut Entries,
) -> Result<(), Fail>
    requires few { machine.old.calls < 1000000 }
    ensures calls { machine.new.calls ≤ machine.old.calls + 1 }
{
    let register = Line::Run {
        tid: 28,
        call: Call::RegisterThreadTerminatePort { handle: 4 },
    };
    let answer = Entry::Answer {
        tid: 28,
        call: CallName::NtRegisterThreadTerminatePort,
        status: SUCCESS,
        fields: Fields::none(),
    };
    makes(rt, machine, out, &register, answer)
}

/// The thread ends itself with status 7.
pub fn ends_a_thread(
    rt: &impl Abort,
    machine: &mut Machine,
    out: &mut Entries,
    tid: u32,
) -> Result<(), Fail>
    requires thread { has_ids (run tid (close 0)) ≡ true }
    requires few { machine.old.calls < 1000000 }
    ensures calls { machine.new.calls ≤ machine.old.calls + 1 }
{
    let end = Line::Run {
        tid,
        call: Call::TerminateThread {
            thread: ProcArg::Current,
            code: 7,
        },
    };
    let died = Entry::Died {
        tid,
        status: Status(7),
    };
    makes(rt, machine, out, &end, died)
}

// Thread 24 ends its process with status 1.
fn ends_the_process(rt: &impl Abort, machine: &mut Machine, out: &mut Entries) -> Result<(), Fail>
    requires few { machine.old.calls < 1000000 }
    ensures calls { machine.new.calls ≤ machine.old.calls + 1 }
{
    let end = Line::Run {
        tid: 24,
        call: Call::TerminateProcess {
            process: ProcArg::Current,
            code: 1,
        },
    };
    let died = Entry::Died {
        tid: 24,
        status: Status(1),
    };
    makes(rt, machine, out, &end, died)
}

// A thread goes with its end, and the process, its other thread and its port with the process's end.
fn ends(rt: &impl Abort, machine: &mut Machine, out: &mut Entries) -> Result<(), Fail>
    requires few { machine.old.calls < 1000 }
{
    begins(rt, machine, out)?;
    registers_by_a_line(rt, machine, out)?;
    assert!(rt; machine.objects() == 4);
    ends_a_thread(rt, machine, out, 28)?;
    assert!(rt; machine.objects() == 3);
    ends_the_process(rt, machine, out)?;
    assert!(rt; machine.objects() == 0);
    Ok(())
}

#[test]
fn nothing_is_left_of_a_process_that_ends(rt: HostRuntime) -> Result<(), Fail> {
    let alloc = rt.alloc();
    let arena = TokenArena::new(alloc);
    let mut machine = Machine::new(alloc, &arena);
    let mut out = Entries::new(alloc)?;
    ends(&rt, &mut machine, &mut out)
}
