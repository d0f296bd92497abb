// The views of all processes, in their parts.
ghost use Rattle.std.specs.Prelude.{◌≡◌, ◌+◌, ◌*◌, ◌%◌, ◌<◌, ◌≤◌, true, Some, length, map, option_map, IfNone, IfOk, IfSome, IsSome, OnErr, OnOk};
ghost use Rattle.lpc_base.specs.Room.{grown_room};
ghost use Rattle.lpc_base.specs.Rows.{count, has, without};
ghost use Rattle.lpc_base.specs.declared.limits.TheConstants.{LINES_LIMIT, PAGE_SIZE, VIEW_LIMIT};
ghost use Rattle.lpc_homes.specs.Parts.{HasFewViews, all_views, are_single_parts, change_at, dropped, dropping, emptying, goes_with, has_view_of, has_view_with, is_part, mapping, unmapping, view_room_at, view_rooming, views_at};
ghost use Rattle.lpc_slots.specs.Table.{at as row_at};
ghost use Rattle.lpc_views.specs.Mapping.{mapped, new_base};
ghost use Rattle.lpc_views.specs.Parts.{is_mapped};
ghost use Rattle.lpc_views.specs.Views.{is_placed, lies_at, shows, view_at};

use crate::Object;
use crate::parts::{Part, Parts};
use lpc_base::OutOfMemory;
use lpc_sections::Section;
use lpc_slots::{Key, Slots};
use lpc_views::{MapFault, Space, View};

impl Parts {
    /// The views of a process.
    pub fn views_of(&self, pid: u32) -> &Space<Key>
        requires { has (is_part pid) self.now.items ≡ true }
        ensures views { result.now.views ≡ views_at self.now.items pid }
        ensures spare { result.now.spare ≡ view_room_at self.now.items pid }
    {
        &self.parts[self.place_of(pid)].views
    }

    /// Makes room for so many further views of a process. Room that is there already counts. Where it has to grow, it
    /// makes room for as many as there are, if those are more.
    ///
    /// OutOfMemory comes only where that room isn't there; the views and the room are as they were then.
    pub fn reserve_views(&mut self, pid: u32, more: usize) -> Result<(), OutOfMemory>
        requires one { are_single_parts self.old.items ≡ true }
        requires part { has (is_part pid) self.old.items ≡ true }
        ensures room { OnOk result (more ≤ view_room_at self.new.items pid) }
        ensures wanting { OnErr result (view_room_at self.old.items pid < more) }
        ensures err { let old = view_room_at self.old.items pid in
            OnErr result (view_room_at self.new.items pid ≡ old) }
        ensures parts { let room = view_room_at self.new.items pid in
            self.new.items ≡ view_rooming pid room self.old.items }
        ensures spare { view_room_at self.old.items pid ≤ view_room_at self.new.items pid }
        ensures most { let views = length (views_at self.old.items pid) in
            let old = view_room_at self.old.items pid in
            view_room_at self.new.items pid ≤ grown_room old more views }
        ensures grown { let views = length (views_at self.old.items pid) in
            let old = view_room_at self.old.items pid in
            OnOk result (old < more → views ≤ view_room_at self.new.items pid) }
        ensures enough { let old = view_room_at self.old.items pid in
            more ≤ old → view_room_at self.new.items pid ≡ old }
        ensures kept { self.new.room ≡ self.old.room }
    {
        let place = self.place_of(pid);
        let before = self.parts[place].views.spare();
        let made = self.parts[place].views.reserve(more);
        // What the counts find no memory for is counted by a walk.
        self.counts
            .promise_views(self.parts[place].views.spare() - before);
        made
    }

    /// Maps a part of a section for a process, at the least free base.
    ///
    /// The section is present, and the offset is a multiple of 4096. Unless the process has 128 views, there is room that
    /// `reserve_views` made. The faults are those of [`Space::map`]; then nothing changes.
    pub fn map_view(
        &mut self,
        pid: u32,
        sections: &Slots<Section>,
        section: Key,
        offset: u32,
        size: u32,
        writable: bool,
        owner: Option<Key>,
    ) -> Result<View<Key>, MapFault>
        requires one { are_single_parts self.old.items ≡ true }
        requires part { has (is_part pid) self.old.items ≡ true }
        requires present { IsSome (row_at sections.now section) }
        requires aligned { offset % PAGE_SIZE ≡ 0 }
        requires room { HasFewViews self.old.items pid → 0 < view_room_at self.old.items pid }
        ensures answer { let views = views_at self.old.items pid in
            option_map (λ s. mapped views section offset writable owner s size)
            (row_at sections.now section) ≡ Some result }
        ensures inside { IfOk result (λ view. is_mapped sections.now view ≡ true) }
        ensures parts { IfOk result (λ view. self.new.items ≡ mapping pid view self.old.items) }
        ensures place { OnOk result (0 < view_room_at self.old.items pid) }
        ensures same { OnErr result (self.new.items ≡ self.old.items) }
        ensures kept { self.new.room ≡ self.old.room }
    {
        let place = self.place_of(pid);
        let view = self.parts[place]
            .views
            .map(sections, section, offset, size, writable, owner)?;
        self.counts.add_view(view, place);
        Ok(view)
    }

    /// Adds a view of a process at the base that it gets. It takes no memory: there is room that `reserve_views` made.
    pub fn add_view(&mut self, pid: u32, view: View<Key>)
        requires one { are_single_parts self.old.items ≡ true }
        requires part { has (is_part pid) self.old.items ≡ true }
        requires room { 0 < view_room_at self.old.items pid }
        requires placed { is_placed view ≡ true }
        requires base { let views = views_at self.old.items pid in
            new_base views view.size ≡ Some view.base }
        ensures parts { self.new.items ≡ mapping pid view self.old.items }
        ensures kept { self.new.room ≡ self.old.room }
    {
        let place = self.place_of(pid);
        self.parts[place].views.add(view);
        self.counts.add_view(view, place);
    }

    /// Takes the view of a process that holds an address away, and answers it; None exactly where none does, and then
    /// nothing changes.
    pub fn unmap_view(&mut self, pid: u32, address: u32) -> Option<View<Key>>
        requires one { are_single_parts self.old.items ≡ true }
        requires part { has (is_part pid) self.old.items ≡ true }
        ensures view { result ≡ view_at (views_at self.old.items pid) address }
        ensures parts { IfSome result
            (λ view. self.new.items ≡ unmapping pid view.base self.old.items) }
        ensures fewer { let old = views_at self.old.items pid in
            IfSome result (λ view. length (without (lies_at view.base) old) + 1 ≡ length old) }
        ensures same { IfNone result (self.new.items ≡ self.old.items) }
        ensures kept { self.new.room ≡ self.old.room }
    {
        let place = self.place_of(pid);
        let view = self.parts[place].views.unmap(address)?;
        self.counts.take_view(view);
        Some(view)
    }

    /// Takes all views of a process away.
    pub fn drop_views(&mut self, pid: u32)
        requires one { are_single_parts self.old.items ≡ true }
        requires part { has (is_part pid) self.old.items ≡ true }
        ensures parts { self.new.items ≡ emptying pid self.old.items }
        ensures kept { self.new.room ≡ self.old.room }
    {
        let place = self.place_of(pid);
        let views = &mut self.parts[place].views;
        self.counts.take_all_views(views.views());
        views.clear();
    }

    /// Takes all views of a process that go with a port away; the others keep their order.
    pub fn drop_owned(&mut self, pid: u32, owner: Key)
        requires one { are_single_parts self.old.items ≡ true }
        requires part { has (is_part pid) self.old.items ≡ true }
        ensures parts { self.new.items ≡ dropping pid owner self.old.items }
        ensures kept { self.new.room ≡ self.old.room }
    {
        let place = self.place_of(pid);
        self.drop_owned_at(place, owner);
    }

    /// Takes all views of all processes that go with a port away; the others keep their order.
    ///
    /// They mostly lie in one process, which is looked at first. The others are looked at only as long as the counts
    /// tell of a view that is left.
    pub fn drop_owned_views(&mut self, owner: Key)
        ensures parts { self.new.items ≡ map (dropped owner) self.old.items }
        ensures kept { self.new.room ≡ self.old.room }
    {
        self.drop_owned_at_home(owner);
        for place in 0..self.items().len() {
            if self.owned_count(owner) == Some(0) {
                return;
            }
            self.drop_owned_at(place, owner);
        }
    }

    // Takes those away that the process has to which the last view was given that goes with the port.
    fn drop_owned_at_home(&mut self, owner: Key)
        ensures left { let all = map (dropped owner) in all self.new.items ≡ all self.old.items }
        ensures kept { self.new.room ≡ self.old.room }
    {
        let home = self.counts.home_of(owner);
        if home < self.items().len() {
            self.drop_owned_at(home, owner);
        }
    }

    // Takes all views that go with a port away from the process whose part stands at a place.
    fn drop_owned_at(&mut self, place: usize, owner: Key)
        requires { place < length self.old.items }
        ensures parts { self.new.items ≡ change_at place (dropped owner) self.old.items }
        ensures kept { self.new.room ≡ self.old.room }
    {
        let views = &mut self.parts[place].views;
        self.counts.take_owned_views(views.views(), owner);
        views.drop_owned(owner);
    }

    /// How many views of all processes show the section.
    pub fn views_to(&self, section: Key) -> usize
        requires few { length self.now.items ≤ 16 * LINES_LIMIT }
        ensures count { result ≡ count (shows section) (all_views self.now.items) }
        ensures bound { result ≤ VIEW_LIMIT * length self.now.items }
    {
        match self.shown_count(section) {
            Some(count) => count,
            None => views_in(&self.parts, section),
        }
    }

    /// A view of some process shows the section.
    pub fn shows(&self, section: Key) -> bool
        ensures { result ≡ has (has_view_of section) self.now.items }
    {
        match self.shown_count(section) {
            Some(count) => count > 0,
            None => is_shown(&self.parts, section),
        }
    }

    /// How many views of all processes go with the port.
    pub fn owned_views(&self, owner: Key) -> usize
        requires few { length self.now.items ≤ 16 * LINES_LIMIT }
        ensures count { result ≡ count (goes_with owner) (all_views self.now.items) }
        ensures bound { result ≤ VIEW_LIMIT * length self.now.items }
    {
        match self.owned_count(owner) {
            Some(count) => count,
            None => owned_in(&self.parts, owner),
        }
    }

    /// A view of some process goes with the port.
    pub fn is_owner(&self, owner: Key) -> bool
        ensures { result ≡ has (has_view_with owner) self.now.items }
    {
        match self.owned_count(owner) {
            Some(count) => count > 0,
            None => is_owner_in(&self.parts, owner),
        }
    }

    // How many views of all processes show the section; None where not each was counted.
    fn shown_count(&self, section: Key) -> Option<usize>
        ensures count { let views = all_views self.now.items in
            IfSome result (λ n. n ≡ count (shows section) views) }
        ensures bound { IfSome result (λ n. n ≤ VIEW_LIMIT * length self.now.items) }
    {
        self.counts.views_for(Object::Section(section))
    }

    // How many views of all processes go with the port; None where not each was counted.
    fn owned_count(&self, owner: Key) -> Option<usize>
        ensures count { let views = all_views self.now.items in
            IfSome result (λ n. n ≡ count (goes_with owner) views) }
        ensures bound { IfSome result (λ n. n ≤ VIEW_LIMIT * length self.now.items) }
    {
        self.counts.views_for(Object::Port(owner))
    }
}

/// How many views of all processes show the section, one by one.
fn views_in(parts: &[Part], section: Key) -> usize
    requires few { length parts.now ≤ 16 * LINES_LIMIT }
    ensures count { result ≡ count (shows section) (all_views parts.now) }
    ensures bound { result ≤ VIEW_LIMIT * length parts.now }
{
    let mut shown = 0;
    for part in parts {
        shown += part.views.count_of(section);
    }
    shown
}

/// A view of some process shows the section, which a walk finds.
fn is_shown(parts: &[Part], section: Key) -> bool
    ensures { result ≡ has (has_view_of section) parts.now }
{
    for part in parts {
        if part.views.shows(section) {
            return true;
        }
    }
    false
}

/// How many views of all processes go with the port, one by one.
fn owned_in(parts: &[Part], owner: Key) -> usize
    requires few { length parts.now ≤ 16 * LINES_LIMIT }
    ensures count { result ≡ count (goes_with owner) (all_views parts.now) }
    ensures bound { result ≤ VIEW_LIMIT * length parts.now }
{
    let mut owned = 0;
    for part in parts {
        owned += part.views.owned(owner);
    }
    owned
}

/// A view of some process goes with the port, which a walk finds.
fn is_owner_in(parts: &[Part], owner: Key) -> bool
    ensures { result ≡ has (has_view_with owner) parts.now }
{
    for part in parts {
        if part.views.owns(owner) {
            return true;
        }
    }
    false
}
