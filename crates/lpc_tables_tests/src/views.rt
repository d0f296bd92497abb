// The calls with ample memory, over values worked out by hand.
ghost use Rattle.std.specs.Prelude.{◌≡◌, ◌+◌, ◌%◌, ◌<◌, ◌≤◌, IfOk, IsSome, length, true};
ghost use Rattle.lpc_slots.specs.Table.{at};
ghost use Rattle.lpc_views.specs.Parts.{AreMapped};

use crate::common::table_of;
use lpc_base::Birth;
use lpc_sections::Section;
use lpc_slots::{Key, Slots};
use lpc_views::{Fault, MapFault, Space, View, part_mut};
use std::alloc::Global;
use std::process::Abort;
use std::test::Fail;

// The part of a section that is asked for.
#[derive(Clone, Copy)]
struct Asked {
    offset: u32,
    size: u32,
    writable: bool,
    owner: Option<u8>,
}

// A section is mapped: it gets this base and this size, or there is a fault.
fn maps(
    rt: &impl Abort,
    space: &mut Space<u8>,
    sections: &Slots<Section>,
    key: Key,
    asked: Asked,
    place: Result<(u32, u32), MapFault>,
)
    requires present { IsSome (at sections.now key) }
    requires aligned { asked.offset % 4096 ≡ 0 }
    requires room { 0 < space.old.spare }
    ensures room { space.old.spare ≤ space.new.spare + 1 }
    ensures mapped { AreMapped sections.now space.old.views
        → AreMapped sections.now space.new.views }
{
    let answer = space.map(
        sections,
        key,
        asked.offset,
        asked.size,
        asked.writable,
        asked.owner,
    );
    match (answer, place) {
        (Ok(view), Ok((base, size))) => {
            assert!(rt; view.base == base && view.size == size);
            assert!(rt; view.section == key && view.offset == asked.offset);
            assert!(rt; view.writable == asked.writable && view.owner == asked.owner);
        }
        (Err(fault), Err(other)) => assert!(rt; fault == other),
        _ => assert!(rt; false),
    }
}

// What a process itself asks for.
fn own(offset: u32, size: u32, writable: bool) -> Asked
    ensures { result.offset ≡ offset }
{
    Asked {
        offset,
        size,
        writable,
        owner: None,
    }
}

// Views of a section of 16 pages: the last page twice, and the first one.
fn maps_three_views(rt: &impl Abort, space: &mut Space<u8>, sections: &Slots<Section>, key: Key)
    requires present { IsSome (at sections.now key) }
    requires room { 8 ≤ space.old.spare }
    ensures room { space.old.spare ≤ space.new.spare + 5 }
{
    maps(
        rt,
        space,
        sections,
        key,
        own(61440, 4096, true),
        Ok((0x10000, 4096)),
    );
    maps(
        rt,
        space,
        sections,
        key,
        own(61440, 4097, true),
        Err(MapFault::InvalidViewSize),
    );
    maps(
        rt,
        space,
        sections,
        key,
        own(61440, 0, false),
        Ok((0x20000, 4096)),
    );
    maps(
        rt,
        space,
        sections,
        key,
        own(65536, 0, false),
        Err(MapFault::InvalidViewSize),
    );
    maps(
        rt,
        space,
        sections,
        key,
        own(0, 1, true),
        Ok((0x30000, 4096)),
    );
}

// The base of the view that holds an address.
fn lies(rt: &impl Abort, view: Option<View<u8>>, base: Option<u32>) {
    assert!(rt; view.map(|view| view.base) == base);
}

// A view that goes leaves its place, which is too small for two units of addresses.
fn places_are_taken_again(
    rt: &impl Abort,
    space: &mut Space<u8>,
    sections: &Slots<Section>,
    key: Key,
)
    requires present { IsSome (at sections.now key) }
    requires room { 2 ≤ space.old.spare }
{
    lies(rt, space.view_at(0x20fff), Some(0x20000));
    lies(rt, space.view_at(0x21000), None);
    lies(rt, space.unmap(0x20800), Some(0x20000));
    lies(rt, space.unmap(0x20800), None);
    maps(
        rt,
        space,
        sections,
        key,
        own(0, 65536, true),
        Ok((0x20000, 65536)),
    );
    lies(rt, space.view_at(0x2ffff), Some(0x20000));
}

// The bytes at a range of addresses are these, or no one view holds it.
fn reads(
    rt: &impl Abort,
    space: &Space<u8>,
    sections: &Slots<Section>,
    address: u32,
    len: u32,
    bytes: Result<&[u8], Fault>,
)
    requires mapped { AreMapped sections.now space.now.views }
{
    assert!(rt; space.slice(sections, address, len) == bytes);
}

// The section has these bytes.
fn holds(rt: &impl Abort, sections: &Slots<Section>, key: Key, at: u32, bytes: &[u8])
    requires few { length bytes.now ≤ 4096 }
{
    match sections.get(key) {
        Some(section) => assert!(rt; section.bytes(at, bytes.len() as u32) == Some(bytes)),
        None => assert!(rt; false),
    }
}

// What is written through one view of a page is read through another one of it.
fn pages_are_shared(rt: &impl Abort, space: &Space<u8>, sections: &mut Slots<Section>, key: Key)
    requires mapped { AreMapped sections.old space.now.views }
{
    assert!(rt; space.is_writable(0x10000, 3) && !space.is_writable(0x20000, 3));
    space.write(sections, 0x10000, b"ABC");
    reads(rt, space, sections, 0x20000, 4, Ok(b"ABC\0"));
    reads(rt, space, sections, 0x10fff, 2, Err(Fault));
    lends(rt, space, sections, 0x10fff, b"Z", true);
    holds(rt, sections, key, 65535, b"Z");
    holds(rt, sections, key, 61440, b"ABC");
}

// A part is lent to be written exactly where one view holds it that may be written.
fn lends(
    rt: &impl Abort,
    space: &Space<u8>,
    sections: &mut Slots<Section>,
    address: u32,
    bytes: &[u8],
    there: bool,
)
    requires mapped { AreMapped sections.old space.now.views }
    requires few { length bytes.now ≤ 4096 }
{
    match space.slice_mut(sections, address, bytes.len() as u32) {
        Ok(part) => {
            assert!(rt; there && part.len() == bytes.len());
            part.copy_from_slice(bytes);
        }
        Err(_) => assert!(rt; !there),
    }
}

// A part that is known to be there is lent without a test.
fn lends_what_is_there(rt: &impl Abort, space: &Space<u8>, sections: &mut Slots<Section>, key: Key)
    requires mapped { AreMapped sections.old space.now.views }
{
    assert!(rt; space.place(0x10010, 2).is_some());
    part_mut(sections, space, 0x10010, 2).copy_from_slice(b"xy");
    holds(rt, sections, key, 61455, b"\0xy\0");
}

#[test]
fn view_takes_the_least_place(rt: HostRuntime) -> Result<(), Fail> {
    let section = Section::new(rt.alloc(), 65536, true, Birth::default())?;
    let (sections, key) = table_of(&rt, rt.alloc(), section)?;
    let mut space = Space::new(rt.alloc());
    space.reserve(8)?;
    maps_three_views(&rt, &mut space, &sections, key);
    places_are_taken_again(&rt, &mut space, &sections, key);
    Ok(())
}

#[test]
fn views_show_their_sections_bytes(rt: HostRuntime) -> Result<(), Fail> {
    let section = Section::new(rt.alloc(), 65536, true, Birth::default())?;
    let (mut sections, key) = table_of(&rt, rt.alloc(), section)?;
    let mut space = Space::new(rt.alloc());
    space.reserve(2)?;
    maps(
        &rt,
        &mut space,
        &sections,
        key,
        own(61440, 4096, true),
        Ok((0x10000, 4096)),
    );
    maps(
        &rt,
        &mut space,
        &sections,
        key,
        own(61440, 0, false),
        Ok((0x20000, 4096)),
    );
    pages_are_shared(&rt, &space, &mut sections, key);
    Ok(())
}

#[test]
fn known_part_is_lent(rt: HostRuntime) -> Result<(), Fail> {
    let section = Section::new(rt.alloc(), 65536, true, Birth::default())?;
    let (mut sections, key) = table_of(&rt, rt.alloc(), section)?;
    let mut space = Space::new(rt.alloc());
    space.reserve(1)?;
    maps(
        &rt,
        &mut space,
        &sections,
        key,
        own(61440, 4096, true),
        Ok((0x10000, 4096)),
    );
    lends_what_is_there(&rt, &space, &mut sections, key);
    Ok(())
}

// A view that goes with a port, at this place of the section.
fn of_port(offset: u32, owner: u8) -> Asked
    ensures { result.offset ≡ offset }
{
    Asked {
        offset,
        size: 4096,
        writable: true,
        owner: Some(owner),
    }
}

// The views of one port go, by ascending base.
fn views_go_with_their_port(rt: &impl Abort, space: &mut Space<u8>) {
    lies(rt, space.take_owned(b'p'), Some(0x10000));
    lies(rt, space.take_owned(b'p'), Some(0x30000));
    lies(rt, space.take_owned(b'p'), None);
    lies(rt, space.view_at(0x20000), Some(0x20000));
}

#[test]
fn port_takes_its_views_along(rt: HostRuntime) -> Result<(), Fail> {
    let section = Section::new(rt.alloc(), 8192, true, Birth::default())?;
    let (sections, key) = table_of(&rt, rt.alloc(), section)?;
    let mut space = Space::new(rt.alloc());
    space.reserve(3)?;
    maps(
        &rt,
        &mut space,
        &sections,
        key,
        of_port(0, b'p'),
        Ok((0x10000, 4096)),
    );
    maps(
        &rt,
        &mut space,
        &sections,
        key,
        of_port(4096, b'q'),
        Ok((0x20000, 4096)),
    );
    maps(
        &rt,
        &mut space,
        &sections,
        key,
        of_port(4096, b'p'),
        Ok((0x30000, 4096)),
    );
    views_go_with_their_port(&rt, &mut space);
    Ok(())
}

#[test]
fn protection_is_tested_before_the_size(rt: HostRuntime) -> Result<(), Fail> {
    let section = Section::new(rt.alloc(), 4096, false, Birth::default())?;
    let (sections, key) = table_of(&rt, rt.alloc(), section)?;
    let mut space = Space::new(rt.alloc());
    space.reserve(2)?;
    let protected = Err(MapFault::SectionProtection);
    maps(
        &rt,
        &mut space,
        &sections,
        key,
        own(0, 4097, true),
        protected,
    );
    maps(
        &rt,
        &mut space,
        &sections,
        key,
        own(0, 4096, false),
        Ok((0x10000, 4096)),
    );
    Ok(())
}

// The view that would be mapped of a section is told, and none is mapped.
fn tells_the_next_view(
    rt: &impl Abort,
    space: &Space<u8>,
    sections: &Slots<Section>,
    key: Key,
    asked: Asked,
    place: (u32, u32),
)
    requires present { IsSome (at sections.now key) }
    requires aligned { asked.offset % 4096 ≡ 0 }
{
    let (offset, size, writable) = (asked.offset, asked.size, asked.writable);
    match space.view_for(sections, key, offset, size, writable, asked.owner) {
        Ok(view) => assert!(rt; (view.base, view.size) == place),
        Err(_) => assert!(rt; false),
    }
}

// So many views show the section.
fn counts(rt: &impl Abort, space: &Space<u8>, key: Key, views: usize) {
    assert!(rt; space.count_of(key) == views);
    assert!(rt; space.shows(key) == (views != 0));
}

// The views of a section of one page are counted, and go together.
fn views_are_counted_and_go(
    rt: &impl Abort,
    space: &mut Space<u8>,
    sections: &Slots<Section>,
    key: Key,
)
    requires present { IsSome (at sections.now key) }
    requires room { 2 ≤ space.old.spare }
{
    tells_the_next_view(rt, space, sections, key, own(0, 1, true), (0x10000, 4096));
    counts(rt, space, key, 0);
    maps(
        rt,
        space,
        sections,
        key,
        own(0, 0, true),
        Ok((0x10000, 4096)),
    );
    maps(
        rt,
        space,
        sections,
        key,
        own(0, 1, false),
        Ok((0x20000, 4096)),
    );
    counts(rt, space, key, 2);
    space.clear();
    counts(rt, space, key, 0);
    lies(rt, space.view_at(0x10000), None);
}

#[test]
fn views_of_a_section_are_counted(rt: HostRuntime) -> Result<(), Fail> {
    let section = Section::new(rt.alloc(), 4096, true, Birth::default())?;
    let (sections, key) = table_of(&rt, rt.alloc(), section)?;
    let mut space = Space::new(rt.alloc());
    space.reserve(2)?;
    views_are_counted_and_go(&rt, &mut space, &sections, key);
    Ok(())
}
