// Sections and views of the world, with ample memory: a section is made, shown and let go. The expected values are
// written out by hand.
ghost use Rattle.std.specs.Prelude.{◌≡◌, ◌≤◌, ◌<◌, ◌+◌, true, IfOk};
ghost use Rattle.lpc_base.specs.declared.limits.TheConstants.{LINES_LIMIT};
ghost use Rattle.lpc_rows.specs.Names.{stands};
ghost use Rattle.lpc_rows.specs.Ready.{is_ready};
ghost use Rattle.lpc_sections.specs.Sections.{IsSectionSize};

use crate::common::{boots, can_call};
use lpc_base::status::SUCCESS;
use lpc_slots::Key;
use lpc_tokens::TokenArena;
use lpc_world::{Object, World};
use std::process::Abort;
use std::test::Fail;

// Thread 24 makes a section of so many bytes, which may be written and no handle names.
fn makes_a_section(world: &mut World, size: u32) -> Result<Key, Fail>
    requires pages { IsSectionSize size }
    requires few { world.old.calls < LINES_LIMIT }
    requires ready { is_ready world.old.rows 24 ≡ true }
    ensures calls { world.new.calls ≤ world.old.calls + 1 }
    ensures stands { IfOk result (λ key. stands world.new.births.sections key ≡ true) }
{
    let by = world.caller(24);
    world.sections_reserve(1)?;
    world.begin_call();
    let birth = world.procs_draw_birth(by.number);
    let section = world.new_section(size, true, birth)?;
    Ok(world.sections_insert_reserved(section))
}

// The section is as it was made, and counts for its maker alone.
fn shows_a_new_section(rt: &impl Abort, world: &World, key: Key)
    requires stands { stands world.now.births.sections key ≡ true }
{
    let section = world.section(key);
    assert!(rt; section.size() == 8192 && section.writable());
    assert!(rt; section.birth().maker == 24 && section.birth().ordinal == 1);
    assert!(rt; world.sections().count() == 1 && !world.is_shown_or_offered(key));
    assert!(rt; world.section_load(20) == 8192 && world.section_load(32) == 0);
}

// The process of thread 24 maps the section's last page. What it would map was told before.
fn maps_the_last_page(rt: &impl Abort, world: &mut World, key: Key) -> Result<(), Fail>
    requires ready { is_ready world.old.rows 24 ≡ true }
    requires stands { stands world.old.births.sections key ≡ true }
    ensures births { world.new.births ≡ world.old.births }
{
    let pid = world.caller(24).process;
    world.views_reserve(pid, 1)?;
    let told = world.view_for(pid, key, 4096, 0, true);
    let mapped = world.views_map(pid, key, 4096, 0, true, None);
    assert!(rt; mapped == told);
    let Ok(view) = mapped else {
        return Ok(assert!(rt; false));
    };
    assert!(rt; view.base == 0x10000 && view.size == 4096 && view.offset == 4096);
    Ok(())
}

// Two bytes are written at the end of the view.
fn writes_two_bytes(rt: &impl Abort, world: &mut World)
    requires ready { is_ready world.old.rows 24 ≡ true }
    ensures births { world.new.births ≡ world.old.births }
{
    let pid = world.caller(24).process;
    assert!(rt; !world.is_writable(pid, 0x10fff, 2));
    assert!(rt; world.is_writable(pid, 0x10ffe, 2));
    world.views_write(pid, 0x10ffe, b"AB");
}

// They are read through the view, and stand at the section's end.
fn reads_two_bytes(rt: &impl Abort, world: &World, key: Key)
    requires ready { is_ready world.now.rows 24 ≡ true }
    requires stands { stands world.now.births.sections key ≡ true }
{
    let pid = world.caller(24).process;
    assert!(rt; world.memory(pid, 0x10ffe, 2).ok() == Some(b"AB".as_slice()));
    assert!(rt; world.memory(pid, 0x10fff, 2).is_err());
    assert!(rt; world.section(key).bytes(8190, 2) == Some(b"AB".as_slice()));
    assert!(rt; world.is_shown_or_offered(key));
}

// They are lent to whoever names the thread; none are for a range that no view holds, for no byte, and for a thread that
// isn't there.
fn lends_two_bytes(rt: &impl Abort, world: &World, bytes: &[u8]) {
    assert!(rt; world.view_bytes(24, 0x10ffe, 2) == Some(bytes));
    assert!(rt; world.view_bytes(24, 0x10fff, 2).is_none());
    assert!(rt; world.view_bytes(24, 0x10ffe, 0).is_none());
    assert!(rt; world.view_bytes(28, 0x10ffe, 2).is_none());
}

// The last byte is written where it is lent.
fn writes_a_lent_byte(rt: &impl Abort, world: &mut World)
    requires ready { is_ready world.old.rows 24 ≡ true }
{
    let pid = world.caller(24).process;
    assert!(rt; world.is_writable(pid, 0x10fff, 1));
    world.memory_mut(pid, 0x10fff, 1).fill(b'C');
}

// The one before it is written where it may be lent.
fn writes_a_byte_that_may_be_lent(rt: &impl Abort, world: &mut World)
    requires ready { is_ready world.old.rows 24 ≡ true }
{
    let pid = world.caller(24).process;
    match world.views_slice_mut(pid, 0x10ffe, 1) {
        Ok(bytes) => bytes.fill(b'D'),
        Err(_) => assert!(rt; false),
    }
}

// No byte behind the view is lent.
fn is_lent_nothing_behind_the_view(rt: &impl Abort, world: &mut World)
    requires ready { is_ready world.old.rows 24 ≡ true }
{
    let pid = world.caller(24).process;
    assert!(rt; world.views_slice_mut(pid, 0x10fff, 2).is_err());
}

// The view is found by its addresses, and taken away.
fn unmaps_the_page(rt: &impl Abort, world: &mut World, key: Key)
    requires ready { is_ready world.old.rows 24 ≡ true }
    requires stands { stands world.old.births.sections key ≡ true }
    ensures births { world.new.births ≡ world.old.births }
{
    let pid = world.caller(24).process;
    assert!(rt; world.view_at(pid, 0x11000).is_none());
    assert!(rt; world.view_at(pid, 0x10fff).is_some());
    assert!(rt; world.views_unmap(pid, 0x10fff).is_some());
    assert!(rt; world.is_loose() && !world.is_shown_or_offered(key));
}

// All views of the process go.
fn drops_the_views(rt: &impl Abort, world: &mut World, key: Key)
    requires ready { is_ready world.old.rows 24 ≡ true }
    requires stands { stands world.old.births.sections key ≡ true }
    ensures births { world.new.births ≡ world.old.births }
{
    let pid = world.caller(24).process;
    world.views_drop(pid);
    assert!(rt; world.is_loose() && !world.is_shown_or_offered(key));
}

// The section goes, which no row names.
fn frees_the_section(rt: &impl Abort, world: &mut World, key: Key)
    requires stands { stands world.old.births.sections key ≡ true }
{
    assert!(rt; !world.has_handles(Object::Section(key)));
    assert!(rt; !world.is_shown_or_offered(key));
    world.sections_free(key);
    assert!(rt; world.sections().count() == 0 && world.section_load(20) == 0);
}

// Process 20 begins, and its thread 24 makes a section of two pages.
fn begins_with_a_section(rt: &impl Abort, world: &mut World) -> Result<Key, Fail>
    requires few { world.old.calls < 1000 }
    ensures stands { IfOk result (λ key. stands world.new.births.sections key ≡ true) }
{
    boots(rt, world, 20, 24, SUCCESS)?;
    can_call(rt, world, 24);
    let key = makes_a_section(world, 8192)?;
    shows_a_new_section(rt, world, key);
    Ok(key)
}

// The section's last page is mapped, written and read.
fn maps_writes_and_reads(rt: &impl Abort, world: &mut World, key: Key) -> Result<(), Fail>
    requires stands { stands world.old.births.sections key ≡ true }
    ensures births { world.new.births ≡ world.old.births }
{
    can_call(rt, world, 24);
    maps_the_last_page(rt, world, key)?;
    can_call(rt, world, 24);
    writes_two_bytes(rt, world);
    can_call(rt, world, 24);
    reads_two_bytes(rt, world, key);
    Ok(())
}

// A section is shown, and goes behind its view.
fn shows_and_frees_a_section(rt: &impl Abort, world: &mut World) -> Result<(), Fail>
    requires few { world.old.calls < 1000 }
{
    let key = begins_with_a_section(rt, world)?;
    maps_writes_and_reads(rt, world, key)?;
    can_call(rt, world, 24);
    unmaps_the_page(rt, world, key);
    frees_the_section(rt, world, key);
    Ok(())
}

#[test]
fn view_shows_its_section_and_goes(rt: HostRuntime) -> Result<(), Fail> {
    let arena = TokenArena::new(rt.alloc());
    let mut world = World::empty(rt.alloc(), &arena);
    shows_and_frees_a_section(&rt, &mut world)
}

// A section is shown, and its views go together.
fn shows_and_drops_a_view(rt: &impl Abort, world: &mut World) -> Result<(), Fail>
    requires few { world.old.calls < 1000 }
{
    let key = begins_with_a_section(rt, world)?;
    can_call(rt, world, 24);
    maps_the_last_page(rt, world, key)?;
    can_call(rt, world, 24);
    drops_the_views(rt, world, key);
    Ok(())
}

#[test]
fn views_of_a_process_go_together(rt: HostRuntime) -> Result<(), Fail> {
    let arena = TokenArena::new(rt.alloc());
    let mut world = World::empty(rt.alloc(), &arena);
    shows_and_drops_a_view(&rt, &mut world)
}

// The two ways to lend bytes to be written.
fn writes_by_loans(rt: &impl Abort, world: &mut World) {
    can_call(rt, world, 24);
    writes_a_lent_byte(rt, world);
    can_call(rt, world, 24);
    writes_a_byte_that_may_be_lent(rt, world);
    can_call(rt, world, 24);
    is_lent_nothing_behind_the_view(rt, world);
}

// A section is shown, and its bytes are written where they are lent.
fn shows_and_lends_bytes(rt: &impl Abort, world: &mut World) -> Result<(), Fail>
    requires few { world.old.calls < 1000 }
{
    let key = begins_with_a_section(rt, world)?;
    maps_writes_and_reads(rt, world, key)?;
    lends_two_bytes(rt, world, b"AB");
    writes_by_loans(rt, world);
    lends_two_bytes(rt, world, b"DC");
    Ok(())
}

#[test]
fn lent_bytes_are_the_sections_own(rt: HostRuntime) -> Result<(), Fail> {
    let arena = TokenArena::new(rt.alloc());
    let mut world = World::empty(rt.alloc(), &arena);
    shows_and_lends_bytes(&rt, &mut world)
}
