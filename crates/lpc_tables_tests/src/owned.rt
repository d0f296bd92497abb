// The views that go with ports, in one space and in those of all processes, with ample memory.
ghost use Rattle.std.specs.Prelude.{◌≡◌, ◌+◌, ◌≤◌, ◌<◌, IfOk, IsSome, true, length};
ghost use Rattle.lpc_base.specs.Rows.{has};
ghost use Rattle.lpc_homes.specs.Parts.{are_single_parts, is_part};
ghost use Rattle.lpc_slots.specs.Table.{at};

use lpc_base::Birth;
use lpc_homes::Parts;
use lpc_sections::Section;
use lpc_slots::{Key, Slots};
use lpc_views::Space;
use std::alloc::Global;
use std::process::Abort;
use std::test::Fail;

fn port(generation: u64) -> Key {
    Key {
        index: 0,
        generation,
    }
}

// A section of one page, alone in its table, and its key.
fn one_section(rt: &impl Abort, alloc: Global) -> Result<(Slots<Section>, Key), Fail>
    ensures { IfOk result (λ made. IsSome (at made.0 made.1)) }
{
    let birth = Birth {
        maker: 24,
        ordinal: 1,
        process: 20,
    };
    let mut sections = Slots::new(alloc);
    sections.reserve(1)?;
    let key = sections.insert_reserved(Section::new(alloc, 4096, true, birth)?);
    assert!(rt; sections.get(key).is_some());
    Ok((sections, key))
}

// The section is mapped for this port, or for none.
fn maps(space: &mut Space<u8>, sections: &Slots<Section>, key: Key, owner: Option<u8>)
    requires present { IsSome (at sections.now key) }
    requires room { 0 < space.old.spare }
    ensures room { space.old.spare ≤ space.new.spare + 1 }
{
    let _ = space.map(sections, key, 0, 0, true, owner);
}

// So many views go with port 7, and none with port 8.
fn owns(rt: &impl Abort, space: &Space<u8>, count: usize) {
    assert!(rt; space.owned(7) == count && space.owns(7) == (count > 0));
    assert!(rt; space.owned(8) == 0 && !space.owns(8));
}

// The views of port 7 go, and the one between them stays.
fn views_go(rt: &impl Abort, space: &mut Space<u8>) {
    owns(rt, space, 2);
    space.drop_owned(8);
    owns(rt, space, 2);
    space.drop_owned(7);
    owns(rt, space, 0);
    assert!(rt; space.view_at(0x10000).is_none() && space.view_at(0x30000).is_none());
    assert!(rt; space.view_at(0x20000).is_some());
}

#[test]
fn views_go_with_their_port(rt: HostRuntime) -> Result<(), Fail> {
    let (sections, key) = one_section(&rt, rt.alloc())?;
    let mut space: Space<u8> = Space::new(rt.alloc());
    space.reserve(3)?;
    maps(&mut space, &sections, key, Some(7));
    maps(&mut space, &sections, key, None);
    maps(&mut space, &sections, key, Some(7));
    views_go(&rt, &mut space);
    Ok(())
}

// The part of process 2 alone, with one view, which goes with port 3.
fn one_part(rt: &impl Abort, alloc: Global) -> Result<Parts, Fail>
    ensures one { IfOk result (λ parts. are_single_parts parts.items ≡ true) }
    ensures part { IfOk result (λ parts. has (is_part 2) parts.items ≡ true) }
    ensures few { IfOk result (λ parts. length parts.items ≤ 1) }
{
    let (sections, key) = one_section(rt, alloc)?;
    let mut parts = Parts::new(alloc);
    parts.reserve(1)?;
    parts.add(2);
    parts.reserve_views(2, 1)?;
    let _ = parts.map_view(2, &sections, key, 0, 0, true, Some(port(3)));
    Ok(parts)
}

// So many views of all processes go with port 3, and none with port 4.
fn all_own(rt: &impl Abort, parts: &Parts, count: usize)
    requires { length parts.now.items ≤ 1 }
{
    assert!(rt; parts.owned_views(port(3)) == count);
    assert!(rt; parts.is_owner(port(3)) == (count > 0));
    assert!(rt; parts.owned_views(port(4)) == 0 && !parts.is_owner(port(4)));
}

#[test]
fn views_of_a_process_go_with_their_port(rt: HostRuntime) -> Result<(), Fail> {
    let mut parts = one_part(&rt, rt.alloc())?;
    all_own(&rt, &parts, 1);
    parts.drop_owned(2, port(3));
    all_own(&rt, &parts, 0);
    Ok(())
}

#[test]
fn views_of_all_processes_go_with_their_port(rt: HostRuntime) -> Result<(), Fail> {
    let mut parts = one_part(&rt, rt.alloc())?;
    parts.drop_owned_views(port(4));
    all_own(&rt, &parts, 1);
    parts.drop_owned_views(port(3));
    all_own(&rt, &parts, 0);
    Ok(())
}
