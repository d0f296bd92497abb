// A port is made with ample memory. The entry is written out by hand.
ghost use Rattle.std.specs.Prelude.{◌≡◌, ◌≤◌, ◌<◌, ◌+◌, OnOk, true};
ghost use Rattle.lpc_rows.specs.Ready.{HasRoom, is_ready};

use crate::common::{boots, can_call, one};
use lpc_base::status::SUCCESS;
use lpc_connect::nt_create_port;
use lpc_directives::directory;
use lpc_machine::{objects, room_needed};
use lpc_model::{CallName, Entries, Entry, FieldName, Outcome, Value};
use lpc_names::Found;
use lpc_tokens::TokenArena;
use lpc_world::World;
use std::process::Abort;
use std::test::Fail;

// Process 20 begins, with thread 24, which can make a call then.
fn begins(rt: &impl Abort, world: &mut World, out: &mut Entries) -> Result<(), Fail>
    requires few { world.old.calls < 1000 }
    ensures ready { OnOk result (is_ready world.new.rows 24 ≡ true) }
    ensures room { OnOk result (HasRoom world.new out.new) }
    ensures calls { world.new.calls ≤ world.old.calls + 1 }
{
    boots(rt, world, 20, 24, SUCCESS)?;
    can_call(rt, world, 24);
    out.reserve(room_needed(world))?;
    Ok(())
}

// Its thread 24 makes a port, with or without a name.
fn makes_a_port(
    rt: &impl Abort,
    world: &mut World,
    name: Option<&[u8]>,
    out: &mut Entries,
) -> Result<(), Fail>
    requires few { world.old.calls < 1000 }
{
    begins(rt, world, out)?;
    let outcome = nt_create_port(world, 24, name, None, out)?;
    assert!(rt; outcome == Outcome::Answered(SUCCESS));
    Ok(())
}

// One entry was made, which answers thread 24 with handle 4.
fn answers_handle_4(rt: &impl Abort, out: &Entries) -> Result<(), Fail> {
    let answer = Entry::Answer {
        tid: 24,
        call: CallName::NtCreatePort,
        status: SUCCESS,
        fields: one(FieldName::H, Value::Number(4)),
    };
    let told = out.list();
    assert!(rt; told.len() == 1);
    assert!(rt; told[0] == answer);
    Ok(())
}

fn makes_the_first_port(rt: &impl Abort, world: &mut World, out: &mut Entries) -> Result<(), Fail>
    requires few { world.old.calls < 1000 }
{
    makes_a_port(rt, world, None, out)?;
    answers_handle_4(rt, out)?;
    assert!(rt; objects(world) == 3);
    Ok(())
}

#[test]
fn first_port_of_a_process_has_handle_4(rt: HostRuntime) -> Result<(), Fail> {
    let alloc = rt.alloc();
    let arena = TokenArena::new(alloc);
    let mut world = World::empty(alloc, &arena);
    let mut out = Entries::new(alloc)?;
    makes_the_first_port(&rt, &mut world, &mut out)
}

// A directory is made, and a port with a name there.
fn names_a_port(rt: &impl Abort, world: &mut World, out: &mut Entries) -> Result<(), Fail>
    requires few { world.old.calls < 100 }
{
    let made = directory(world, b"\\Windows")?;
    assert!(rt; made == SUCCESS);
    makes_a_port(rt, world, Some(b"\\Windows\\P"), out)?;
    let found = world.names().lookup(b"\\Windows\\P");
    assert!(rt; matches!(found, Ok(Found::Item(_))));
    Ok(())
}

#[test]
fn named_port_is_found_by_its_name(rt: HostRuntime) -> Result<(), Fail> {
    let alloc = rt.alloc();
    let arena = TokenArena::new(alloc);
    let mut world = World::empty(alloc, &arena);
    let mut out = Entries::new(alloc)?;
    names_a_port(&rt, &mut world, &mut out)
}
