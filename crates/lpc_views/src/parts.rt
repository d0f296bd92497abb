// The bytes that views show, in the sections under their keys.
ghost use Rattle.std.specs.Prelude.{◌≡◌, ◌+◌, IsSome, Some, length, option_map};
ghost use Rattle.std.specs.Borrow.{sem};
ghost use Rattle.lpc_views.specs.Lends.{LendsTable, LendsView};
ghost use Rattle.lpc_views.specs.Parts.{HoldsPart, AreMapped, KeepsSizes, part_at, seen, with_bytes};
ghost use Rattle.lpc_views.specs.Views.{view_of};

use crate::Space;
use lpc_sections::Section;
use lpc_slots::{Key, Slots};

/// A range of a section's bytes.
pub(crate) fn part_of(sections: &Slots<Section>, key: Key, at: u32, len: u32) -> &[u8]
    requires { HoldsPart sections.now key (at + len) }
    ensures value { result.now ≡ part_at sections.now key at len }
    ensures len { length result.now ≡ len }
{
    match sections.get(key) {
        Some(section) => section.part(at, len),
        None => unreachable!(),
    }
}

/// A range of the bytes of the section under a key, to be written. Nothing else changes.
///
/// The section is present, and the range lies inside it.
pub fn part_of_mut(sections: &mut Slots<Section>, key: Key, at: u32, len: u32) -> &mut [u8]
    requires { HoldsPart sections.old key (at + len) }
    ensures* writes_back { sem 𝓛 (LendsTable sections.entry key at result) }
    ensures value { result.now ≡ part_at sections.old key at len }
    ensures len { length result.now ≡ len }
{
    match sections.get_mut(key) {
        Some(section) => section.part_mut(at, len),
        None => unreachable!(),
    }
}

/// Writes bytes over a range of a section.
pub(crate) fn write_in(sections: &mut Slots<Section>, key: Key, at: u32, bytes: &[u8])
    requires within { HoldsPart sections.old key (at + length bytes.now) }
    ensures sections { sections.new ≡ with_bytes sections.old key at bytes.now }
    ensures sizes { KeepsSizes sections.old sections.new }
{
    match sections.get_mut(key) {
        Some(section) => section.write(at, bytes),
        None => unreachable!(),
    }
}

/// The bytes at a range of addresses, which one view holds, to be written. Nothing else changes.
///
/// Each view's section is present, and has the bytes that the view shows.
pub fn part_mut<'a, P: Copy + Eq>(
    sections: &'a mut Slots<Section>,
    space: &Space<P>,
    address: u32,
    len: u32,
) -> &'a mut [u8]
    requires mapped { AreMapped sections.old space.now.views }
    requires held { IsSome (view_of space.now.views address len) }
    ensures* writes_back { let view = view_of space.now.views address len in
        sem 𝓛 (LendsView sections.entry address view result) }
    ensures value { let view = view_of space.now.views address len in
        option_map (seen sections.old address len) view ≡ Some result.now }
    ensures len { length result.now ≡ len }
{
    match space.place(address, len) {
        Some(place) => part_of_mut(sections, place.section, place.at, len),
        None => unreachable!(),
    }
}
