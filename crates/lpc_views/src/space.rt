// The views of one process, in the order of making.
ghost use Rattle.std.specs.Prelude.{◌≡◌, ◌+◌, ◌++◌, ◌∷◌, ◌%◌, ◌^◌, ◌<◌, ◌≤◌, ◌↔◌, [], true, None, Some, length, option_map, IfNone, IfOk, IfSome, IsErr, IsSome, OnErr, OnOk, OnSome, vec_capacity, vec_len};
ghost use Rattle.std.specs.Borrow.{sem};
ghost use Rattle.lpc_base.specs.Room.{grown_room};
ghost use Rattle.lpc_base.specs.Rows.{count, every, has, passes, without, without_first};
ghost use Rattle.lpc_base.specs.Views.{is_free_base};
ghost use Rattle.lpc_base.specs.declared.limits.TheConstants.{PAGE_SIZE, SECTION_LIMIT, VIEW_LIMIT};
ghost use Rattle.lpc_slots.specs.Table.{at as row_at};
ghost use Rattle.lpc_views.specs.Lends.{LendsViewIf};
ghost use Rattle.lpc_views.specs.Mapping.{mapped, mapped_size, new_base};
ghost use Rattle.lpc_views.specs.Parts.{AreMapped, KeepsSizes, is_mapped, lent_bytes, seen, writable_bytes, written};
ghost use Rattle.lpc_views.specs.Views.{holds, is_owned_by, is_placed, is_writable_at, lies_at, offset_of, lower_of, lowest_owned, place_of, ranges, shows, view_at, view_of};

use crate::bases::{free_base, free_base_beside};
use crate::parts::{part_mut, part_of, write_in};
use crate::{Fault, MapFault, Place, View};
use lpc_base::limits::{PAGE_SIZE, VIEW_LIMIT};
use lpc_base::{OutOfMemory, reserve_rows};
use lpc_sections::Section;
use lpc_slots::{Key, Slots};
use std::alloc::Global;
use std::marker::Model;

/// The views of one process: no more than 128, no two of which have one base.
///
/// Contracts see the views in the order of making, and how many more go in without memory.
#[derive(Drop)]
pub struct Space<P: Copy> {
    views: Vec<View<P>>,
}

impl<P: Copy> Model for Space<P> {
    ghost use Rattle.std.specs.Prelude.{◌-◌, vec_capacity, vec_len};
    ghost use Rattle.lpc_views.specs.Views.{IsSpace, Views, views_code};

    ghost Value = { Views P };

    ghost coded = { views_code P.code };

    ghost view = { λ s. record { views = s.views.items; spare = vec_capacity s.views - vec_len s.views } };

    ghost invariant = { λ s. IsSpace s.views.items };
}

impl<P: Copy + Eq> Space<P> {
    /// No views, and no room. It takes no memory, and keeps the allocator for `reserve`.
    pub fn new(alloc: Global) -> Space<P>
        ensures { result ≡ record { views = []; spare = 0 } }
    {
        Space {
            views: Vec::new(alloc),
        }
    }

    /// Makes room for so many further views. Room that is there already counts. Where it has to grow, it makes room for as
    /// many as there are, if those are more.
    ///
    /// OutOfMemory comes only where that room isn't there; nothing has changed then.
    pub fn reserve(&mut self, more: usize) -> Result<(), OutOfMemory>
        ensures room { OnOk result (more ≤ self.new.spare) }
        ensures wanting { OnErr result (self.old.spare < more) }
        ensures err { OnErr result (self.new.spare ≡ self.old.spare) }
        ensures views { self.new.views ≡ self.old.views }
        ensures spare { self.old.spare ≤ self.new.spare }
        ensures most { let views = length self.old.views in
            self.new.spare ≤ grown_room self.old.spare more views }
        ensures grown { OnOk result
            (self.old.spare < more → length self.old.views ≤ self.new.spare) }
        ensures enough { more ≤ self.old.spare → self.new.spare ≡ self.old.spare }
    {
        reserve_rows(&mut self.views, more)
    }

    /// How many further views there is room for.
    pub fn spare(&self) -> usize
        ensures { result ≡ self.now.spare }
    {
        self.views.capacity() - self.views.len()
    }

    /// The views. Places go from 0 in the order of making.
    pub fn views(&self) -> &[View<P>]
        ensures views { result.now ≡ self.now.views }
    {
        &self.views
    }

    /// The view that `map` would give a part of a section, or its fault; nothing is mapped. The section is present, and
    /// the offset is a multiple of 4096.
    pub fn view_for(
        &self,
        sections: &Slots<Section>,
        section: Key,
        offset: u32,
        size: u32,
        writable: bool,
        owner: Option<P>,
    ) -> Result<View<P>, MapFault>
        requires present { IsSome (row_at sections.now section) }
        requires aligned { offset % PAGE_SIZE ≡ 0 }
        ensures answer { let views = self.now.views in
            option_map (λ s. mapped views section offset writable owner s size)
            (row_at sections.now section) ≡ Some result }
        ensures few { OnOk result (length self.now.views < VIEW_LIMIT) }
        ensures most_views { length self.now.views ≤ VIEW_LIMIT }
        ensures free { let views = ranges self.now.views in
            IfOk result (λ view. is_free_base views view.size view.base ≡ true) }
        ensures sized { IfOk result (λ view. 0 < view.size) }
        ensures inside { IfOk result (λ view. is_mapped sections.now view ≡ true) }
        ensures most { IfOk result (λ view. view.offset + view.size ≤ SECTION_LIMIT) }
    {
        let count = self.views.len();
        let size = match sections.get(section) {
            Some(section) => mapped_size(section, offset, size, writable)?,
            None => unreachable!(),
        };
        if count == VIEW_LIMIT {
            return Err(MapFault::Quota);
        }
        let base = match free_base(&self.views, size) {
            Some(base) => base,
            None => return Err(MapFault::Quota),
        };
        Ok(View {
            base,
            size,
            section,
            offset,
            writable,
            owner,
        })
    }

    /// Gives a part of a section a place among the addresses: the least multiple of 65536, from 00010000, where the
    /// view meets no other and ends at or below 7FFF0000. Size 0 asks for all bytes from the offset on, and another
    /// size is rounded up to whole pages.
    ///
    /// The section is present, and the offset is a multiple of 4096. Unless 128 views stand, there is room that
    /// `reserve` made. SectionProtection comes exactly where a view that may be written is asked of a section that may
    /// not; else InvalidViewSize exactly where offset and size pass the section, or the size is 0 and the section ends
    /// at the offset or before; else Quota exactly where 128 views stand or no place is left. Nothing changes then.
    pub fn map(
        &mut self,
        sections: &Slots<Section>,
        section: Key,
        offset: u32,
        size: u32,
        writable: bool,
        owner: Option<P>,
    ) -> Result<View<P>, MapFault>
        requires present { IsSome (row_at sections.now section) }
        requires aligned { offset % PAGE_SIZE ≡ 0 }
        requires room { length self.old.views < VIEW_LIMIT → 0 < self.old.spare }
        ensures answer { let views = self.old.views in
            option_map (λ s. mapped views section offset writable owner s size)
            (row_at sections.now section) ≡ Some result }
        ensures views { IfOk result (λ view. self.new.views ≡ self.old.views ++ view ∷ []) }
        ensures inside { IfOk result (λ view. is_mapped sections.now view ≡ true) }
        ensures mapped { AreMapped sections.now self.old.views
            → AreMapped sections.now self.new.views }
        ensures spare { OnOk result (self.new.spare + 1 ≡ self.old.spare) }
        ensures same { OnErr result (self.new ≡ self.old) }
    {
        let view = self.view_for(sections, section, offset, size, writable, owner)?;
        self.views.push_reserved(view);
        Ok(view)
    }

    /// The base that a view of a size would get beside the views that stand and further ones, which aren't mapped: none
    /// where all of them are 128, or no place is left.
    pub fn base_beside(&self, others: &[View<P>], size: u32) -> Option<u32>
        requires sized { 0 < size }
        requires placed { every is_placed others.now ≡ true }
        requires within { length self.now.views + length others.now ≤ VIEW_LIMIT }
        ensures { result ≡ new_base (self.now.views ++ others.now) size }
    {
        if self.views.len() == VIEW_LIMIT - others.len() {
            return None;
        }
        free_base_beside(&self.views, others, size)
    }

    /// Adds a view at the base that it gets. It takes no memory: there is room that `reserve` made.
    pub fn add(&mut self, view: View<P>)
        requires room { 0 < self.old.spare }
        requires placed { is_placed view ≡ true }
        requires base { new_base self.old.views view.size ≡ Some view.base }
        ensures views { self.new.views ≡ self.old.views ++ view ∷ [] }
        ensures spare { self.new.spare + 1 ≡ self.old.spare }
    {
        self.views.push_reserved(view);
    }

    /// Takes the view that holds an address away, and answers it; None exactly where none does, and then nothing
    /// changes.
    pub fn unmap(&mut self, address: u32) -> Option<View<P>>
        ensures view { result ≡ view_at self.old.views address }
        ensures views { IfSome result (λ view.
            self.new.views ≡ without (lies_at view.base) self.old.views) }
        ensures one { self.new.views ≡ without_first (holds address 1) self.old.views }
        ensures spare { OnSome result (self.new.spare ≡ self.old.spare + 1) }
        ensures same { IfNone result (self.new ≡ self.old) }
    {
        let view = self.view_at(address)?;
        take_out(&mut self.views, view.base);
        Some(view)
    }

    /// The view that holds an address; None exactly where none does.
    pub fn view_at(&self, address: u32) -> Option<View<P>>
        ensures { result ≡ view_at self.now.views address }
    {
        self.view_of(address, 1)
    }

    /// Takes the view of least base among those that go with a port away, and answers it; None exactly where there is
    /// none, and then nothing changes.
    pub fn take_owned(&mut self, owner: P) -> Option<View<P>>
        ensures view { result ≡ lowest_owned P.eq owner self.old.views }
        ensures views { IfSome result (λ view.
            self.new.views ≡ without (lies_at view.base) self.old.views) }
        ensures spare { OnSome result (self.new.spare ≡ self.old.spare + 1) }
        ensures same { IfNone result (self.new ≡ self.old) }
    {
        let view = lowest_owned(&self.views, owner)?;
        take_out(&mut self.views, view.base);
        Some(view)
    }

    /// Takes all views that go with a port away; the others keep their order. Their places are room for others then.
    pub fn drop_owned(&mut self, owner: P)
        ensures views { self.new.views ≡ without (is_owned_by P.eq owner) self.old.views }
        ensures spare { let owned = count (is_owned_by P.eq owner) self.old.views in
            self.new.spare ≡ self.old.spare + owned }
    {
        self.views.retain(|view| !view.is_owned_by(owner));
    }

    /// Takes all views away. Their places are room for others then.
    pub fn clear(&mut self)
        ensures views { self.new.views ≡ [] }
        ensures spare { self.new.spare ≡ self.old.spare + length self.old.views }
    {
        self.views.clear();
    }

    /// How many views show the section.
    pub fn count_of(&self, section: Key) -> usize
        ensures count { result ≡ count (shows section) self.now.views }
        ensures few { result ≤ VIEW_LIMIT }
    {
        self.views
            .iter()
            .filter(|view| view.section == section)
            .count()
    }

    /// A view shows the section.
    pub fn shows(&self, section: Key) -> bool
        ensures { result ≡ has (shows section) self.now.views }
    {
        for view in &self.views {
            if view.section == section {
                return true;
            }
        }
        false
    }

    /// How many views go with the port.
    pub fn owned(&self, owner: P) -> usize
        ensures count { result ≡ count (is_owned_by P.eq owner) self.now.views }
        ensures few { result ≤ VIEW_LIMIT }
    {
        self.views
            .iter()
            .filter(|view| view.is_owned_by(owner))
            .count()
    }

    /// A view goes with the port.
    pub fn owns(&self, owner: P) -> bool
        ensures { result ≡ has (is_owned_by P.eq owner) self.now.views }
    {
        for view in &self.views {
            if view.is_owned_by(owner) {
                return true;
            }
        }
        false
    }

    /// Where a range of addresses lies, if one view holds it; None exactly where none does.
    pub fn place(&self, address: u32, len: u32) -> Option<Place>
        ensures { result ≡ option_map (place_of address) (view_of self.now.views address len) }
    {
        let view = self.view_of(address, len)?;
        Some(Place {
            section: view.section,
            at: view.offset + (address - view.base),
            writable: view.writable,
        })
    }

    /// The first view that holds the range of addresses may be written.
    pub fn is_writable(&self, address: u32, len: u32) -> bool
        ensures { result ≡ is_writable_at self.now.views address len }
    {
        match self.view_of(address, len) {
            Some(view) => view.writable,
            None => false,
        }
    }

    /// The bytes at a range of addresses: Fault exactly where no one view holds the whole range. They are the section's
    /// own.
    ///
    /// Each view's section is present, and has the bytes that the view shows.
    pub fn slice<'a>(
        &self,
        sections: &'a Slots<Section>,
        address: u32,
        len: u32,
    ) -> Result<&'a [u8], Fault>
        requires mapped { AreMapped sections.now self.now.views }
        ensures bytes { let view = view_of self.now.views address len in
            IfOk result
            (λ bytes. option_map (seen sections.now address len) view ≡ Some bytes.now) }
        ensures len { IfOk result (λ bytes. length bytes.now ≡ len) }
        ensures fault { IsErr result ↔ (view_of self.now.views address len ≡ None) }
    {
        match self.place(address, len) {
            Some(place) => Ok(part_of(sections, place.section, place.at, len)),
            None => Err(Fault),
        }
    }

    /// The bytes at a range of addresses, to be written: Fault exactly where no view holds the whole range, or the first
    /// that does may not be written. They are the section's own, and no other byte changes.
    ///
    /// Each view's section is present, and has the bytes that the view shows. Callers that know that a view holds the
    /// range use `part_mut` or `write`, whose contracts tell them what the sections become.
    pub fn slice_mut<'a>(
        &self,
        sections: &'a mut Slots<Section>,
        address: u32,
        len: u32,
    ) -> Result<&'a mut [u8], Fault>
        requires mapped { AreMapped sections.old self.now.views }
        ensures* writes_back { let view = view_of self.now.views address len in
            sem 𝓛 (LendsViewIf sections.entry address view result) }
        ensures bytes { lent_bytes result ≡ writable_bytes sections.old self.now.views address len }
    {
        if self.is_writable(address, len) {
            Ok(part_mut(sections, self, address, len))
        } else {
            Err(Fault)
        }
    }

    /// Writes bytes at a range of addresses, which one view holds that may be written. No other byte changes.
    ///
    /// Each view's section is present, and has the bytes that the view shows; so it is afterwards, also with views of
    /// other processes.
    pub fn write(&self, sections: &mut Slots<Section>, address: u32, bytes: &[u8])
        requires mapped { AreMapped sections.old self.now.views }
        requires few { length bytes.now < 2 ^ 32 }
        requires writable { is_writable_at self.now.views address (length bytes.now) ≡ true }
        ensures sections { let view = view_of self.now.views address (length bytes.now) in
            sections.new ≡ written sections.old address view bytes.now }
        ensures sizes { KeepsSizes sections.old sections.new }
        ensures mapped { AreMapped sections.new self.now.views }
    {
        match self.place(address, bytes.len() as u32) {
            Some(place) => write_in(sections, place.section, place.at, bytes),
            None => unreachable!(),
        }
    }

    // The view that holds a range of addresses.
    fn view_of(&self, address: u32, len: u32) -> Option<View<P>>
        ensures view { result ≡ view_of self.now.views address len }
        ensures low { IfSome result (λ view. view.base ≤ address) }
        ensures within { IfSome result (λ view.
            offset_of view address + len ≤ view.offset + view.size) }
        ensures placed { IfSome result (λ view. is_placed view ≡ true) }
    {
        self.views
            .iter()
            .copied()
            .find(|view| view.holds(address, len))
    }
}

// Takes the view at a base away.
fn take_out<P: Copy>(views: &mut Vec<View<P>>, base: u32)
    ensures views { views.new.items ≡ without (lies_at base) views.old.items }
    ensures len { vec_len views.new ≡ length (without (lies_at base) views.old.items) }
    ensures room { vec_capacity views.new ≡ vec_capacity views.old }
{
    views.retain(|view| view.base != base);
}

// The view of least base among those that go with a port.
fn lowest_owned<P: Copy + Eq>(views: &[View<P>], owner: P) -> Option<View<P>>
    ensures { result ≡ lowest_owned P.eq owner views.now }
{
    let mut lowest = None;
    for view in views {
        if view.is_owned_by(owner) {
            lowest = lower_of(lowest, *view);
        }
    }
    lowest
}

// The view of lesser base.
fn lower_of<P: Copy>(lowest: Option<View<P>>, view: View<P>) -> Option<View<P>>
    ensures { result ≡ lower_of lowest (Some view) }
{
    match lowest {
        Some(other) if other.base <= view.base => Some(other),
        _ => Some(view),
    }
}

/// The size of a view of a section from an offset on, which is a multiple of 4096, or why there is none:
/// SectionProtection where the view may be written and the section may not, else InvalidViewSize where it would pass the
/// section or begin at its end.
pub fn mapped_size(
    section: &Section,
    offset: u32,
    size: u32,
    writable: bool,
) -> Result<u32, MapFault>
    requires { offset % PAGE_SIZE ≡ 0 }
    ensures size { result ≡ mapped_size section.now offset size writable }
    ensures some { IfOk result (λ size. 0 < size) }
    ensures inside { IfOk result (λ size. offset + size ≤ length section.now.bytes) }
    ensures most { IfOk result (λ size. offset + size ≤ SECTION_LIMIT) }
{
    if writable && !section.writable() {
        return Err(MapFault::SectionProtection);
    }
    let bytes = section.size();
    if offset as u64 + size as u64 > bytes as u64 || (size == 0 && bytes <= offset) {
        return Err(MapFault::InvalidViewSize);
    }
    if size == 0 {
        Ok(bytes - offset)
    } else {
        Ok((size + (PAGE_SIZE - 1)) / PAGE_SIZE * PAGE_SIZE)
    }
}
