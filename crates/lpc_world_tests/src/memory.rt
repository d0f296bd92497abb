// The services on sections, views and memory, each once with ample memory. The entries are written out by hand.
ghost use Rattle.std.specs.Prelude.{◌≡◌, ◌≤◌, ◌<◌, ◌+◌, OnOk, true, false};
ghost use Rattle.lpc_base.specs.declared.limits.TheConstants.{LINES_LIMIT};
ghost use Rattle.lpc_rows.specs.Ready.{HasRoom, is_ready};

use crate::common::{boots, can_call, one};
use lpc_base::status::SUCCESS;
use lpc_machine::room_needed;
use lpc_model::{CallName, Entries, Entry, FieldName, Fields, Outcome, Value};
use lpc_ranges::{
    nt_create_section, nt_map_view_of_section, nt_read_virtual_memory, nt_unmap_view_of_section,
    nt_write_virtual_memory,
};
use lpc_tokens::TokenArena;
use lpc_world::World;
use std::process::Abort;
use std::test::Fail;

/// Thread 24 can make a call, whose entries have room, and none has bytes that were read.
pub fn is_next(rt: &impl Abort, world: &World, out: &mut Entries) -> Result<(), Fail>
    ensures ready { is_ready world.now.rows 24 ≡ true }
    ensures room { OnOk result (HasRoom world.now out.new) }
    ensures reads { out.new.reads ≡ false }
{
    can_call(rt, world, 24);
    out.clear();
    out.reserve(room_needed(world))?;
    Ok(())
}

/// The call was answered, and its one entry has these fields.
pub fn answers(rt: &impl Abort, out: &Entries, outcome: Outcome, call: CallName, fields: Fields) {
    let answer = Entry::Answer {
        tid: 24,
        call,
        status: SUCCESS,
        fields,
    };
    assert!(rt; outcome == Outcome::Answered(SUCCESS));
    assert!(rt; out.list() == [answer].as_slice());
}

// A section of two pages gets handle 4.
fn creates(rt: &impl Abort, world: &mut World, out: &mut Entries) -> Result<(), Fail>
    requires few { world.old.calls < LINES_LIMIT }
    ensures calls { world.new.calls ≤ world.old.calls + 1 }
{
    is_next(rt, world, out)?;
    let outcome = nt_create_section(world, 24, 4097, 4, out)?;
    let fields = one(FieldName::H, Value::Number(4));
    answers(rt, out, outcome, CallName::NtCreateSection, fields);
    Ok(())
}

// Its last page is mapped at the lowest base.
fn maps(rt: &impl Abort, world: &mut World, out: &mut Entries) -> Result<(), Fail>
    requires few { world.old.calls < LINES_LIMIT }
    ensures calls { world.new.calls ≤ world.old.calls + 1 }
{
    is_next(rt, world, out)?;
    let outcome = nt_map_view_of_section(world, 24, 4, 4096, 1, 4, out)?;
    let mut fields = one(FieldName::Base, Value::Hex(0x10000));
    fields.add(FieldName::Size, Value::Number(4096));
    answers(rt, out, outcome, CallName::NtMapViewOfSection, fields);
    Ok(())
}

// Two bytes are written through the view.
fn writes(rt: &impl Abort, world: &mut World, out: &mut Entries) -> Result<(), Fail>
    requires few { world.old.calls < LINES_LIMIT }
    ensures calls { world.new.calls ≤ world.old.calls + 1 }
{
    is_next(rt, world, out)?;
    let outcome = nt_write_virtual_memory(world, 24, 0x10ffd, b"hi", out);
    answers(
        rt,
        out,
        outcome,
        CallName::NtWriteVirtualMemory,
        Fields::none(),
    );
    Ok(())
}

// They are read with the zero behind them.
fn reads(rt: &impl Abort, world: &mut World, out: &mut Entries) -> Result<(), Fail>
    requires few { world.old.calls < LINES_LIMIT }
    ensures calls { world.new.calls ≤ world.old.calls + 1 }
{
    is_next(rt, world, out)?;
    let outcome = nt_read_virtual_memory(world, 24, 0x10ffd, 3, out);
    let fields = one(FieldName::Data, Value::Read);
    answers(rt, out, outcome, CallName::NtReadVirtualMemory, fields);
    assert!(rt; out.read_bytes() == b"hi\0".as_slice());
    Ok(())
}

// The view goes.
fn unmaps(rt: &impl Abort, world: &mut World, out: &mut Entries) -> Result<(), Fail>
    requires few { world.old.calls < LINES_LIMIT }
{
    is_next(rt, world, out)?;
    let outcome = nt_unmap_view_of_section(world, 24, 0x10fff, out);
    answers(
        rt,
        out,
        outcome,
        CallName::NtUnmapViewOfSection,
        Fields::none(),
    );
    Ok(())
}

// The five calls, on a new world.
fn uses_a_section(rt: &impl Abort, world: &mut World, out: &mut Entries) -> Result<(), Fail>
    requires few { world.old.calls < 1000 }
{
    boots(rt, world, 20, 24, SUCCESS)?;
    creates(rt, world, out)?;
    maps(rt, world, out)?;
    writes(rt, world, out)?;
    reads(rt, world, out)?;
    unmaps(rt, world, out)
}

#[test]
fn section_is_mapped_written_and_read(rt: HostRuntime) -> Result<(), Fail> {
    let alloc = rt.alloc();
    let arena = TokenArena::new(alloc);
    let mut world = World::empty(alloc, &arena);
    let mut out = Entries::new(alloc)?;
    uses_a_section(&rt, &mut world, &mut out)
}
