// The views of each process, and the bytes that they show.
ghost use Rattle.std.specs.Prelude.{◌≡◌, ◌+◌, ◌%◌, ◌^◌, ◌<◌, ◌≤◌, ◌↔◌, true, None, Some, IfOk, IfSome, IsErr, IsSome, OnErr, OnOk, length, option_and_then, option_map};
ghost use Rattle.std.specs.Borrow.{sem};
ghost use Rattle.std.specs.Option.{option_copied};
ghost use Rattle.lpc_base.specs.Room.{grown_room};
ghost use Rattle.lpc_base.specs.Rows.{every, has, passes};
ghost use Rattle.lpc_base.specs.declared.limits.TheConstants.{PAGE_SIZE, VIEW_LIMIT};
ghost use Rattle.lpc_homes.specs.Parts.{is_part, views_at};
ghost use Rattle.lpc_views.specs.Parts.{lent_bytes};
ghost use Rattle.lpc_views.specs.Views.{place_of, view_of};
ghost use Rattle.lpc_model.specs.Basics.{DropsOwned, DropsViewsOf, Maps};
ghost use Rattle.lpc_model.specs.Found.{is_table, view_holding, views_of};
ghost use Rattle.lpc_rows.specs.Capacity.{KeepsOtherViewPlaces, view_places};
ghost use Rattle.lpc_rows.specs.Kept.{IsStep, KeepsOtherViewRoom, Roomy, Same, grown_views, view_room};
ghost use Rattle.lpc_rows.specs.Names.{some_stands, stands};
ghost use Rattle.lpc_views.specs.Views.{is_placed};
ghost use Rattle.lpc_rows.specs.Clauses.{Finds, HasFewViews, MapsAs, after, base_beside, birth_at, bytes_through, is_of_section, new_base, unmapped_at, view_at, view_shown, written_through};
ghost use Rattle.lpc_world.specs.Lent.{view_of_thread, may_be_written, writable_memory};
ghost use Rattle.lpc_world.specs.Lends.{LendsMemory, LendsMemoryIf};

use crate::world::World;
use lpc_base::OutOfMemory;
use lpc_homes::Parts;
use lpc_slots::Key;
use lpc_views::{Fault, MapFault, Place, View, part_of_mut};

impl<'t> World<'t> {
    /// Makes room for so many further views of a process.
    ///
    /// OutOfMemory comes only where that room wasn't there; nothing has changed then but the room.
    pub fn views_reserve(&mut self, pid: u32, more: usize) -> Result<(), OutOfMemory>
        requires { has (is_table pid) self.old.rows.handles ≡ true }
        ensures same { Same self.old self.new }
        ensures room { Roomy self.old.room self.new.room }
        ensures views { OnOk result (more ≤ view_room self.new.room pid) }
        ensures wanting { OnErr result (view_room self.old.room pid < more) }
        ensures most { let rows = length (views_of self.old.rows pid) in
            view_room self.new.room pid ≤ grown_room (view_room self.old.room pid) more rows }
        ensures others { let new = self.new.room in
            new ≡ record self.old.room { views = new.views } }
        ensures other_views { KeepsOtherViewRoom pid self.old.room self.new.room }
        ensures capacity { let new = self.new.capacity in
            new ≡ record self.old.capacity { views = new.views } }
        ensures asked { view_places self.new.capacity pid ≤ grown_views self.old pid more }
        ensures enough { more ≤ view_room self.old.room pid →
            view_places self.new.capacity pid ≡ view_places self.old.capacity pid }
        ensures other_places { KeepsOtherViewPlaces pid self.old.capacity self.new.capacity }
    {
        self.parts.reserve_views(pid, more)
    }

    /// The view that `views_map` would map for a process by itself, or its fault; nothing is mapped. The offset is a
    /// multiple of 4096. A view that goes with a port would lie at the same place.
    pub fn view_for(
        &self,
        pid: u32,
        section: Key,
        offset: u32,
        size: u32,
        writable: bool,
    ) -> Result<View<Key>, MapFault>
        requires table { has (is_table pid) self.now.rows.handles ≡ true }
        requires section { stands self.now.births.sections section ≡ true }
        requires aligned { offset % PAGE_SIZE ≡ 0 }
        ensures few { length (views_of self.now.rows pid) ≤ VIEW_LIMIT }
        ensures answer { MapsAs self.now pid section offset size writable None result }
    {
        let views = self.parts.views_of(pid);
        views.view_for(&self.sections, section, offset, size, writable, None)
    }

    /// Maps a part of a section for a process, at the least free base: the view goes with a port that stands, or with
    /// none where the process maps it by itself. The offset is a multiple of 4096. Unless the process has 128 views,
    /// there is room that `views_reserve` made. The faults are those of [`Space::map`](lpc_views::Space::map); then
    /// nothing changes.
    pub fn views_map(
        &mut self,
        pid: u32,
        section: Key,
        offset: u32,
        size: u32,
        writable: bool,
        owner: Option<Key>,
    ) -> Result<View<Key>, MapFault>
        requires table { has (is_table pid) self.old.rows.handles ≡ true }
        requires section { stands self.old.births.sections section ≡ true }
        requires owner { some_stands self.old.births.ports owner ≡ true }
        requires aligned { offset % PAGE_SIZE ≡ 0 }
        requires room { HasFewViews self.old.rows pid → 0 < view_room self.old.room pid }
        ensures answer { MapsAs self.old pid section offset size writable owner result }
        ensures owner { IfOk result (λ view. view.owner ≡ owner) }
        ensures rows { IfOk result
            (λ view. self.new.rows ≡ after self.old (Maps pid (view_shown self.old view))) }
        ensures births { self.new.births ≡ self.old.births }
        ensures calls { self.new.calls ≡ self.old.calls }
        ensures loose { self.new.loose ≡ self.old.loose }
        ensures made { self.new.made ≡ self.old.made }
        ensures same { OnErr result (self.new ≡ self.old) }
        ensures places { view_room self.old.room pid ≤ view_room self.new.room pid + 1 }
        ensures others { let new = self.new.room in
            new ≡ record self.old.room { views = new.views } }
        ensures other_views { KeepsOtherViewRoom pid self.old.room self.new.room }
        ensures capacity { self.new.capacity ≡ self.old.capacity }
    {
        self.parts.map_view(pid, &self.sections, section, offset, size, writable, owner)
    }

    /// The base that a view of a size would get in a process, beside the views that stand and further ones, which aren't
    /// mapped: None where all of them are 128, or no place is left.
    pub fn base_beside(&self, pid: u32, others: &[View<Key>], size: u32) -> Option<u32>
        requires table { has (is_table pid) self.now.rows.handles ≡ true }
        requires sized { 0 < size }
        requires placed { every is_placed others.now ≡ true }
        requires within { length (views_of self.now.rows pid) + length others.now ≤ VIEW_LIMIT }
        ensures { result ≡ base_beside self.now pid others.now size }
    {
        self.parts.views_of(pid).base_beside(others, size)
    }

    /// Adds a view of a process at the base that it gets. It shows a part of a section that stands, and goes with a port
    /// that stands, or with none. There is room that `views_reserve` made.
    pub fn views_add(&mut self, pid: u32, view: View<Key>)
        requires table { has (is_table pid) self.old.rows.handles ≡ true }
        requires section { stands self.old.births.sections view.section ≡ true }
        requires part { is_of_section self.old view ≡ true }
        requires owner { some_stands self.old.births.ports view.owner ≡ true }
        requires placed { is_placed view ≡ true }
        requires base { new_base self.old.rows pid view.size ≡ Some view.base }
        requires room { 0 < view_room self.old.room pid }
        ensures rows { self.new.rows ≡ after self.old (Maps pid (view_shown self.old view)) }
        ensures births { self.new.births ≡ self.old.births }
        ensures calls { self.new.calls ≡ self.old.calls }
        ensures loose { self.new.loose ≡ self.old.loose }
        ensures made { self.new.made ≡ self.old.made }
        ensures places { view_room self.old.room pid ≤ view_room self.new.room pid + 1 }
        ensures others { let new = self.new.room in
            new ≡ record self.old.room { views = new.views } }
        ensures other_views { KeepsOtherViewRoom pid self.old.room self.new.room }
        ensures capacity { self.new.capacity ≡ self.old.capacity }
    {
        self.parts.add_view(pid, view);
    }

    /// Takes the view of a process that holds an address away, and answers it; None exactly where none does, and then
    /// nothing changes but that a sweep is due.
    pub fn views_unmap(&mut self, pid: u32, address: u32) -> Option<View<Key>>
        requires table { has (is_table pid) self.old.rows.handles ≡ true }
        ensures view { Finds result (view_shown self.old) (view_at self.old.rows pid address) }
        ensures step { let left =
            unmapped_at self.old.rows pid (view_at self.old.rows pid address) in
            IsStep left self.old self.new }
        ensures loose { self.new.loose ≡ true }
        ensures capacity { self.new.capacity ≡ self.old.capacity }
    {
        self.loose = true;
        let gone = self.parts.unmap_view(pid, address);
        self.suspects.add_some(owner_of(gone));
        gone
    }

    /// All views of a process go.
    pub fn views_drop(&mut self, pid: u32)
        requires table { has (is_table pid) self.old.rows.handles ≡ true }
        ensures step { IsStep (after self.old (DropsViewsOf pid)) self.old self.new }
        ensures loose { self.new.loose ≡ true }
        ensures capacity { self.new.capacity ≡ self.old.capacity }
    {
        self.loose = true;
        self.suspects.add_owners(self.parts.views_of(pid).views());
        self.parts.drop_views(pid);
    }

    /// All views that go with a port go, of whatever process they are.
    pub fn views_drop_owned(&mut self, port: Key)
        requires port { stands self.old.births.ports port ≡ true }
        ensures step { let left = after self.old (DropsOwned (birth_at self.old port)) in
            IsStep left self.old self.new }
        ensures loose { self.new.loose ≡ true }
        ensures capacity { self.new.capacity ≡ self.old.capacity }
    {
        self.loose = true;
        self.parts.drop_owned_views(port);
        self.suspects.add(port);
    }

    /// The view of a process that holds an address; None exactly where none does.
    pub fn view_at(&self, pid: u32, address: u32) -> Option<View<Key>>
        requires table { has (is_table pid) self.now.rows.handles ≡ true }
        ensures view { Finds result (view_shown self.now) (view_at self.now.rows pid address) }
    {
        self.parts.views_of(pid).view_at(address)
    }

    /// The bytes at a range of addresses of a process: Fault exactly where no one view holds the whole range. They are
    /// the section's own.
    pub fn memory(&self, pid: u32, address: u32, len: u32) -> Result<&[u8], Fault>
        requires table { has (is_table pid) self.now.rows.handles ≡ true }
        ensures bytes { let view = view_holding self.now.rows pid address len in
            IfOk result (λ bytes. option_map (bytes_through self.now.rows address len) view
            ≡ Some bytes.now) }
        ensures len { IfOk result (λ bytes. length bytes.now ≡ len) }
        ensures fault { IsErr result ↔ (view_holding self.now.rows pid address len ≡ None) }
    {
        self.parts.views_of(pid).slice(&self.sections, address, len)
    }

    /// The bytes at a range of addresses of a thread's process: None exactly where the thread isn't live, the size is 0,
    /// or no one view holds the whole range. They are the section's own.
    pub fn view_bytes(&self, tid: u32, base: u32, size: u32) -> Option<&[u8]>
        ensures bytes { let view = view_of_thread self.now.rows tid base size in
            option_copied result ≡ option_map (bytes_through self.now.rows base size) view }
        ensures len { IfSome result (λ bytes. length bytes.now ≡ size) }
    {
        if size == 0 {
            return None;
        }
        let thread = self.live_thread(tid)?;
        self.memory(thread.process, base, size).ok()
    }

    /// The first view of a process that holds the whole range of addresses may be written.
    pub fn is_writable(&self, pid: u32, address: u32, len: u32) -> bool
        requires table { has (is_table pid) self.now.rows.handles ≡ true }
        ensures writable { let view = view_holding self.now.rows pid address len in
            result ≡ passes view (λ v. v.writable) }
    {
        self.parts.views_of(pid).is_writable(address, len)
    }

    /// Writes bytes at a range of addresses of a process, which one view holds that may be written. No other byte
    /// changes.
    pub fn views_write(&mut self, pid: u32, address: u32, bytes: &[u8])
        requires table { has (is_table pid) self.old.rows.handles ≡ true }
        requires few { length bytes.now < 2 ^ 32 }
        requires writable { let view = view_holding self.old.rows pid address (length bytes.now) in
            passes view (λ v. v.writable) ≡ true }
        ensures step { let view = view_holding self.old.rows pid address (length bytes.now) in
            IsStep (written_through self.old.rows address bytes.now view) self.old self.new }
        ensures loose { self.new.loose ≡ self.old.loose }
        ensures capacity { self.new.capacity ≡ self.old.capacity }
    {
        self.parts
            .views_of(pid)
            .write(&mut self.sections, address, bytes);
    }

    /// The bytes at a range of addresses of a process, to be written: one view holds the whole range that may be written.
    /// They are the section's own, and nothing else changes.
    pub fn memory_mut(&mut self, pid: u32, address: u32, len: u32) -> &mut [u8]
        requires table { has (is_table pid) self.old.rows.handles ≡ true }
        requires writable { let view = view_holding self.old.rows pid address len in
            may_be_written view ≡ true }
        ensures* writes_back { let view = view_holding self.old.rows pid address len in
            sem 𝓛 (LendsMemory self.entry address view result) }
        ensures bytes { let view = view_holding self.old.rows pid address len in
            option_map (bytes_through self.old.rows address len) view ≡ Some result.now }
        ensures len { length result.now ≡ len }
    {
        let place = place_in(&self.parts, pid, address, len);
        part_of_mut(&mut self.sections, place.section, place.at, len)
    }

    // The same test as `is_writable`, of a world that is lent to it to be written, as it is lent afterwards to
    // `memory_mut`. The world stays as it is.
    fn tests_writable(&mut self, pid: u32, address: u32, len: u32) -> bool
        requires { has (is_table pid) self.old.rows.handles ≡ true }
        ensures same { self.new ≡ self.old }
        ensures writable { result ≡ may_be_written (view_holding self.old.rows pid address len) }
    {
        self.is_writable(pid, address, len)
    }

    /// The bytes at a range of addresses of a process, to be written: Fault exactly where no view holds the whole
    /// range, or the first that does may not be written. They are the section's own, and nothing else changes.
    ///
    /// Callers that know that a view holds the range use `memory_mut` or `views_write`, whose contracts tell them what
    /// the world becomes.
    pub fn views_slice_mut(&mut self, pid: u32, address: u32, len: u32) -> Result<&mut [u8], Fault>
        requires { has (is_table pid) self.old.rows.handles ≡ true }
        ensures* writes_back { let view = view_holding self.old.rows pid address len in
            sem 𝓛 (LendsMemoryIf self.entry address view result) }
        ensures bytes { lent_bytes result ≡ writable_memory self.old.rows pid address len }
    {
        let there = self.tests_writable(pid, address, len);
        if there {
            Ok(self.memory_mut(pid, address, len))
        } else {
            Err(Fault)
        }
    }
}

// Where a range of addresses of a process lies, which one view holds.
fn place_in(parts: &Parts, pid: u32, address: u32, len: u32) -> Place
    requires part { has (is_part pid) parts.now.items ≡ true }
    requires held { IsSome (view_of (views_at parts.now.items pid) address len) }
    ensures place { let view = view_of (views_at parts.now.items pid) address len in
        Some result ≡ option_map (place_of address) view }
{
    match parts.views_of(pid).place(address, len) {
        Some(place) => place,
        None => unreachable!(),
    }
}

// The key of the port with which a view goes: None where it goes with none, and where there is no view.
fn owner_of(view: Option<View<Key>>) -> Option<Key>
    ensures { result ≡ option_and_then (λ v. v.owner) view }
{
    view?.owner
}
