// What tests of several crates make and check.
ghost use Rattle.std.specs.Prelude.{◌≡◌, ◌≤◌, ◌<◌, ◌+◌, ◌∷◌, [], true, IfOk};
ghost use Rattle.lpc_base.specs.declared.limits.TheConstants.{LINES_LIMIT};
ghost use Rattle.lpc_procs.specs.Procs.{IsNumber};
ghost use Rattle.lpc_rows.specs.Names.{KeepsNames, stands};
ghost use Rattle.lpc_rows.specs.Ready.{is_ready};

use lpc_base::{PortKind, Status};
use lpc_directives::{boot, thread};
use lpc_machine::{Condition, condition_of};
use lpc_model::{FieldName, Fields, Value};
use lpc_ports::Creator;
use lpc_slots::Key;
use lpc_world::World;
use std::process::Abort;
use std::test::Fail;

/// Two bytes of data behind a header, as a thread gives them.
pub const GIVEN: [u8; 26] = [
    2, 0, 26, 0, 0, 0, 0, 0, 0, 0, 0, 0, 0, 0, 0, 0, 0, 0, 0, 0, 0, 0, 0, 0, 0x41, 0x42,
];

/// This field alone.
pub fn one(name: FieldName, value: Value) -> Fields
    ensures { result ≡ (record { name = name; value = value }) ∷ [] }
{
    let mut fields = Fields::none();
    fields.add(name, value);
    fields
}

/// The line `boot` ends so.
pub fn boots(
    rt: &impl Abort,
    world: &mut World,
    pid: u32,
    tid: u32,
    status: Status,
) -> Result<(), Fail>
    requires calls { world.old.calls < LINES_LIMIT }
    requires process { IsNumber pid }
    requires thread { IsNumber tid }
    ensures calls { world.new.calls ≤ world.old.calls + 1 }
{
    let answer = boot(world, pid, tid, None)?;
    assert!(rt; answer == status);
    Ok(())
}

/// The line `thread` ends so.
pub fn threads(
    rt: &impl Abort,
    world: &mut World,
    tid: u32,
    pid: u32,
    status: Status,
) -> Result<(), Fail>
    requires calls { world.old.calls < LINES_LIMIT }
    requires thread { IsNumber tid }
    ensures calls { world.new.calls ≤ world.old.calls + 1 }
{
    let answer = thread(world, tid, pid)?;
    assert!(rt; answer == status);
    Ok(())
}

/// The thread can make a call, and no event is marked.
pub fn can_call(rt: &impl Abort, world: &World, tid: u32)
    ensures ready { is_ready world.now.rows tid ≡ true }
    ensures unmarked { world.now.rows.marks ≡ [] }
{
    let Condition::Ready = condition_of(world, tid) else {
        panic!(rt; "the thread can't call");
    };
    let None = world.first_mark() else {
        panic!(rt; "an event is marked");
    };
}

/// Thread 24 makes a port that no handle names.
pub fn makes_a_port(
    world: &mut World,
    kind: PortKind,
    creator: Option<Creator>,
) -> Result<Key, Fail>
    requires few { world.old.calls < LINES_LIMIT }
    requires ready { is_ready world.old.rows 24 ≡ true }
    ensures calls { world.new.calls ≤ world.old.calls + 1 }
    ensures stands { IfOk result (λ port. stands world.new.births.ports port ≡ true) }
    ensures others { KeepsNames world.old.births.ports world.new.births.ports }
{
    let by = world.caller(24);
    world.ports_reserve(1)?;
    world.messages_reserve(1)?;
    world.begin_call();
    let birth = world.procs_draw_birth(by.number);
    Ok(world.ports_add(kind, birth, None, creator))
}
