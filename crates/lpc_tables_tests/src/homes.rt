// The handles and views of each process, with ample memory.
ghost use Rattle.std.specs.Prelude.{◌≡◌, ◌<◌, ◌≤◌, ◌∷◌, [], true, length, IfOk};
ghost use Rattle.lpc_base.specs.Rows.{has};
ghost use Rattle.lpc_homes.specs.Parts.{HasFew, are_single_parts, is_part, new_part, spare_at};

use crate::common::table_of;
use lpc_base::Birth;
use lpc_homes::{Object, Parts};
use lpc_sections::Section;
use lpc_slots::Key;
use std::alloc::Global;
use std::process::Abort;
use std::test::Fail;

// A port.
fn port() -> Key {
    Key {
        index: 0,
        generation: 1,
    }
}

// The name of what thread 24 of process 20 makes first.
fn birth() -> Birth {
    Birth {
        maker: 24,
        ordinal: 1,
        process: 20,
    }
}

// The part of process 2 alone, without handles and views.
fn one_part(alloc: Global) -> Result<Parts, Fail>
    ensures { IfOk result (λ parts. parts.items ≡ new_part 2 ∷ []) }
{
    let mut parts = Parts::new(alloc);
    parts.reserve(1)?;
    parts.add(2);
    Ok(parts)
}

// Process 2, which has room for a handle and none yet, gets one to the object.
fn gives(rt: &impl Abort, parts: &mut Parts, object: Object)
    requires one { are_single_parts parts.old.items ≡ true }
    requires part { has (is_part 2) parts.old.items ≡ true }
    requires room { HasFew parts.old.items 2 → 0 < spare_at parts.old.items 2 }
    ensures len { length parts.new.items ≡ length parts.old.items }
{
    let value = parts.add_handle(2, object, 1);
    assert!(rt; value.ok() == Some(4));
}

// One handle names the process of the name; none names the thread of that name, or the port.
fn names_the_process_alone(rt: &impl Abort, parts: &Parts)
    requires { length parts.now.items ≤ 1 }
{
    let (process, thread) = (Object::Process(birth()), Object::Thread(birth()));
    assert!(rt; parts.handles_to(process) == 1);
    assert!(rt; parts.names(process) && !parts.names(thread));
    assert!(rt; !parts.names(Object::Port(port())));
}

#[test]
fn process_gets_a_handle_to_a_port(rt: HostRuntime) -> Result<(), Fail> {
    let mut parts = one_part(rt.alloc())?;
    parts.reserve_handles(2, 1)?;
    gives(&rt, &mut parts, Object::Port(port()));
    Ok(())
}

#[test]
fn process_gets_a_handle_to_a_process(rt: HostRuntime) -> Result<(), Fail> {
    let mut parts = one_part(rt.alloc())?;
    parts.reserve_handles(2, 1)?;
    gives(&rt, &mut parts, Object::Process(birth()));
    names_the_process_alone(&rt, &parts);
    Ok(())
}

#[test]
fn port_alone_has_a_key(rt: HostRuntime) -> Result<(), Fail> {
    assert!(&rt; Object::Port(port()).port() == Some(port()));
    assert!(&rt; Object::Process(birth()).port().is_none());
    assert!(&rt; Object::Thread(birth()).port().is_none());
    Ok(())
}

#[test]
fn process_gets_a_handle_to_a_section(rt: HostRuntime) -> Result<(), Fail> {
    let mut parts = one_part(rt.alloc())?;
    parts.reserve_handles(2, 1)?;
    gives(&rt, &mut parts, Object::Section(port()));
    assert!(&rt; parts.names(Object::Section(port())));
    assert!(&rt; !parts.names(Object::Port(port())));
    assert!(&rt; Object::Section(port()).port().is_none());
    Ok(())
}

#[test]
fn process_maps_and_unmaps_a_view(rt: HostRuntime) -> Result<(), Fail> {
    let section = Section::new(rt.alloc(), 8192, true, birth())?;
    let (sections, key) = table_of(&rt, rt.alloc(), section)?;
    let mut parts = one_part(rt.alloc())?;
    parts.reserve_views(2, 1)?;
    let mapped = parts.map_view(2, &sections, key, 4096, 0, true, None);
    assert!(&rt; matches!(&mapped, Ok(view) if view.base == 0x10000 && view.size == 4096));
    assert!(&rt; parts.shows(key) && parts.views_to(key) == 1);
    assert!(&rt; parts.views_of(2).view_at(0x10fff).is_some());
    assert!(&rt; parts.unmap_view(2, 0x11000).is_none());
    assert!(&rt; parts.held_sections() == Some(1));
    assert!(&rt; parts.unmap_view(2, 0x10fff).is_some());
    assert!(&rt; !parts.shows(key) && parts.held_sections() == Some(0));
    Ok(())
}

#[test]
fn process_drops_its_views(rt: HostRuntime) -> Result<(), Fail> {
    let section = Section::new(rt.alloc(), 4096, true, birth())?;
    let (sections, key) = table_of(&rt, rt.alloc(), section)?;
    let mut parts = one_part(rt.alloc())?;
    parts.reserve_views(2, 1)?;
    assert!(&rt; parts.map_view(2, &sections, key, 0, 0, true, None).is_ok());
    parts.drop_views(2);
    assert!(&rt; parts.views_to(key) == 0);
    Ok(())
}

#[test]
fn process_closes_a_handle_to_a_port(rt: HostRuntime) -> Result<(), Fail> {
    let mut parts = one_part(rt.alloc())?;
    parts.reserve_handles(2, 1)?;
    assert!(&rt; parts.add_handle(2, Object::Port(port()), 1).ok() == Some(4));
    assert!(&rt; parts.reaches_port(2, port()));
    assert!(&rt; parts.handles_of(2).get(4).is_some());
    parts.close_handle(2, 4);
    assert!(&rt; !parts.names(Object::Port(port())));
    Ok(())
}

#[test]
fn token_is_held_by_its_handle(rt: HostRuntime) -> Result<(), Fail> {
    let mut parts = one_part(rt.alloc())?;
    parts.reserve_handles(2, 1)?;
    assert!(&rt; parts.add_handle(2, Object::Token(port()), 1).ok() == Some(4));
    assert!(&rt; parts.held_tokens() == Some(1) && parts.held_sections() == Some(0));
    parts.close_handle(2, 4);
    assert!(&rt; parts.held_tokens() == Some(0));
    Ok(())
}
