// The parts of all processes, of which contracts see the list.
ghost use Rattle.std.specs.Prelude.{◌≡◌, ◌+◌, ◌*◌, ◌-◌, ◌<◌, ◌≤◌, ◌↔◌, ◌++◌, ◌∷◌, [], true, false, Some, IsErr, IfOk, IfSome, OnOk, OnErr, length};
ghost use Rattle.std.specs.List.{position};
ghost use Rattle.lpc_base.specs.Places.{least_handle};
ghost use Rattle.lpc_base.specs.Room.{grown_room};
ghost use Rattle.lpc_base.specs.Rows.{count, has};
ghost use Rattle.lpc_handles.specs.Handles.{values};
ghost use Rattle.lpc_homes.specs.Held.{AreSoMany, is_held_section, is_held_token};
ghost use Rattle.lpc_homes.specs.Parts.{HasFew, all_rows, are_single_parts, closing, handing, has_name_of, is_part, names_it, new_part, rooming, rows_at, spare_at};
ghost use Rattle.lpc_base.specs.declared.limits.TheConstants.{HANDLE_LIMIT, LINES_LIMIT};

use crate::Object;
use crate::object_counts::ObjectCounts;
use lpc_base::{OutOfMemory, reserve_rows};
use lpc_handles::{Table, TableFault};
use lpc_numbers::Numbered;
use lpc_slots::Key;
use lpc_views::Space;
use std::alloc::Global;
use std::marker::Model;

/// The part of the world that is a process's own: its handles and its views.
#[derive(Drop)]
pub struct Part {
    /// The number of the process.
    pub process: u32,
    /// Its handles, with what each names and grants.
    pub handles: Table<Object>,
    /// Its views, each with the port that it goes with, if it goes with one.
    pub views: Space<Key>,
}

/// The parts of all processes, in the order in which they were made.
///
/// A part never goes. A number leads to its part, and an object to the counts of its handles and of its views, without a
/// walk. Contracts see the parts, and how many more go in without memory; they don't see the map of places nor the counts
/// that are kept.
pub struct Parts {
    pub(crate) parts: Vec<Part>,
    places: Numbered<()>,
    pub(crate) counts: ObjectCounts,
    alloc: Global,
}

impl Model for Parts {
    ghost use Rattle.std.specs.Prelude.{◌-◌, min, vec_len, vec_capacity};
    ghost use Rattle.lpc_homes.specs.Counts.{AreAllCounted};
    ghost use Rattle.lpc_homes.specs.Parts.{PartTable};
    ghost use Rattle.lpc_numbers.specs.Numbered.{numbers};

    ghost Value = { PartTable };

    ghost view = { λ s. record {
      items = s.parts.items;
      room = min (vec_capacity s.parts - vec_len s.parts) s.places.room;
    } };

    ghost invariant = { λ s.
        AreAllCounted s.parts.items (numbers s.places.entries) s.counts.handles s.counts.views };
}

// Written out, so that a proof about what holds the parts lets them go in one step, and not map by map.
impl Drop for Parts {
    fn drop(self) {
        let Parts {
            parts: _,
            places: _,
            counts: _,
            alloc: _,
        } = self;
    }
}

impl Parts {
    /// No part and no room. It takes no memory, and keeps the allocator for what it holds later.
    pub fn new(alloc: Global) -> Parts
        ensures { result ≡ record { items = []; room = 0 } }
    {
        Parts {
            parts: Vec::new(alloc),
            places: Numbered::new(alloc),
            counts: ObjectCounts::new(alloc),
            alloc,
        }
    }

    /// Makes room for so many further parts. Room that is there already counts.
    ///
    /// `OutOfMemory` comes only where that room wasn't there, nor is there then; the parts stay as they are, and the room
    /// never shrinks.
    pub fn reserve(&mut self, more: usize) -> Result<(), OutOfMemory>
        ensures room { OnOk result (more ≤ self.new.room) }
        ensures wanting { OnErr result (self.old.room < more) }
        ensures lacking { OnErr result (self.new.room < more) }
        ensures items { self.new.items ≡ self.old.items }
        ensures least { self.old.room ≤ self.new.room }
        ensures most { self.new.room ≤ grown_room self.old.room more (length self.old.items) }
        ensures enough { more ≤ self.old.room → self.new.room ≡ self.old.room }
    {
        reserve_rows(&mut self.parts, more)?;
        self.places.reserve(more)
    }

    /// Adds the part of a process that has none, without handles and views. There is room for it.
    pub fn add(&mut self, pid: u32)
        requires room { 0 < self.old.room }
        requires new { has (is_part pid) self.old.items ≡ false }
        ensures items { self.new.items ≡ self.old.items ++ new_part pid ∷ [] }
        ensures room { self.new.room ≡ self.old.room - 1 }
    {
        self.places.add(pid, ());
        self.parts.push_reserved(Part {
            process: pid,
            handles: Table::new(self.alloc),
            views: Space::new(self.alloc),
        });
    }

    /// The parts of all processes, each with its handles and its views. Places go from 0 in the order of making.
    pub fn items(&self) -> &[Part]
        ensures items { result.now ≡ self.now.items }
    {
        &self.parts
    }

    /// Where the part of a process stands.
    pub(crate) fn place_of(&self, pid: u32) -> usize
        requires { has (is_part pid) self.now.items ≡ true }
        ensures { position (is_part pid) self.now.items ≡ Some result }
    {
        match self.places.place(pid) {
            Some(place) => place,
            None => unreachable!(),
        }
    }

    /// The handles of a process.
    pub fn handles_of(&self, pid: u32) -> &Table<Object>
        requires { has (is_part pid) self.now.items ≡ true }
        ensures rows { result.now.rows ≡ rows_at self.now.items pid }
        ensures spare { result.now.spare ≡ spare_at self.now.items pid }
    {
        &self.parts[self.place_of(pid)].handles
    }

    /// Gives a process the least free handle, and answers its value.
    ///
    /// Quota comes exactly where the process has 256 handles, and then nothing changes. Otherwise there is room that
    /// `reserve_handles` made.
    pub fn add_handle(&mut self, pid: u32, object: Object, access: u32) -> Result<u32, TableFault>
        requires one { are_single_parts self.old.items ≡ true }
        requires part { has (is_part pid) self.old.items ≡ true }
        requires room { HasFew self.old.items pid → 0 < spare_at self.old.items pid }
        ensures quota { IsErr result ↔ (length (rows_at self.old.items pid) ≡ HANDLE_LIMIT) }
        ensures value { IfOk result (λ v. v ≡ least_handle (values (rows_at self.old.items pid))) }
        ensures parts { IfOk result
            (λ v. self.new.items ≡ handing pid v object access self.old.items) }
        ensures same { OnErr result (self.new.items ≡ self.old.items) }
        ensures kept { self.new.room ≡ self.old.room }
    {
        let place = self.place_of(pid);
        let value = self.parts[place].handles.add(object, access)?;
        self.counts.add_handle(object);
        Ok(value)
    }

    /// Makes room for so many further handles of a process. Room that is there already counts. Where it has to grow, it
    /// makes room for as many as there are, if those are more.
    ///
    /// OutOfMemory comes only where that room isn't there; the handles and the room are as they were then.
    pub fn reserve_handles(&mut self, pid: u32, more: usize) -> Result<(), OutOfMemory>
        requires one { are_single_parts self.old.items ≡ true }
        requires part { has (is_part pid) self.old.items ≡ true }
        ensures room { OnOk result (more ≤ spare_at self.new.items pid) }
        ensures wanting { OnErr result (spare_at self.old.items pid < more) }
        ensures err { OnErr result (spare_at self.new.items pid ≡ spare_at self.old.items pid) }
        ensures parts { self.new.items ≡ rooming pid (spare_at self.new.items pid) self.old.items }
        ensures spare { spare_at self.old.items pid ≤ spare_at self.new.items pid }
        ensures most { let rows = length (rows_at self.old.items pid) in
            spare_at self.new.items pid ≤ grown_room (spare_at self.old.items pid) more rows }
        ensures grown { let rows = length (rows_at self.old.items pid) in
            let old = spare_at self.old.items pid in
            OnOk result (old < more → rows ≤ spare_at self.new.items pid) }
        ensures enough { let old = spare_at self.old.items pid in
            more ≤ old → spare_at self.new.items pid ≡ old }
        ensures kept { self.new.room ≡ self.old.room }
    {
        let place = self.place_of(pid);
        let before = self.parts[place].handles.spare();
        let made = self.parts[place].handles.reserve(more);
        // What the counts find no memory for is counted by a walk.
        self.counts
            .promise_handles(self.parts[place].handles.spare() - before);
        made
    }

    /// Takes the handle of a process with a value away, where there is one.
    pub fn close_handle(&mut self, pid: u32, value: u32)
        requires one { are_single_parts self.old.items ≡ true }
        requires part { has (is_part pid) self.old.items ≡ true }
        ensures parts { self.new.items ≡ closing pid value self.old.items }
        ensures kept { self.new.room ≡ self.old.room }
    {
        let place = self.place_of(pid);
        if let Some(row) = self.parts[place].handles.close(value) {
            self.counts.take_handle(row.object);
        }
    }

    /// How many handles of all processes name the object.
    pub fn handles_to(&self, object: Object) -> usize
        requires few { length self.now.items ≤ 16 * LINES_LIMIT }
        ensures count { result ≡ count (names_it object) (all_rows self.now.items) }
        ensures bound { result ≤ HANDLE_LIMIT * length self.now.items }
    {
        match self.counts.handles_to(object) {
            Some(count) => count,
            None => handles_in(&self.parts, object),
        }
    }

    /// A handle of the process names the port.
    pub fn reaches_port(&self, pid: u32, port: Key) -> bool
        requires { has (is_part pid) self.now.items ≡ true }
        ensures { result ≡ has (names_it (Object.Port port)) (rows_at self.now.items pid) }
    {
        self.handles_of(pid).names(Object::Port(port))
    }

    /// A handle of some process names the object.
    pub fn names(&self, object: Object) -> bool
        ensures { result ≡ has (has_name_of object) self.now.items }
    {
        match self.counts.handles_to(object) {
            Some(count) => count > 0,
            None => is_named(&self.parts, object),
        }
    }

    /// How many sections some handle names or some view shows; None where not each handle and view was counted, for want
    /// of memory.
    pub fn held_sections(&self) -> Option<usize>
        ensures { IfSome result (AreSoMany (is_held_section self.now.items)) }
    {
        self.counts.held_sections()
    }

    /// How many tokens some handle names; None where not each handle and view was counted, for want of memory.
    pub fn held_tokens(&self) -> Option<usize>
        ensures { IfSome result (AreSoMany (is_held_token self.now.items)) }
    {
        self.counts.held_tokens()
    }
}

/// How many handles of all processes name the object, one by one.
#[inline(never)]
fn handles_in(parts: &[Part], object: Object) -> usize
    requires few { length parts.now ≤ 16 * LINES_LIMIT }
    ensures count { result ≡ count (names_it object) (all_rows parts.now) }
    ensures bound { result ≤ HANDLE_LIMIT * length parts.now }
{
    let mut named = 0;
    for part in parts {
        named += part.handles.count_of(object);
    }
    named
}

/// A handle of some process names the object, which a walk finds.
#[inline(never)]
fn is_named(parts: &[Part], object: Object) -> bool
    ensures { result ≡ has (has_name_of object) parts.now }
{
    for part in parts {
        if part.handles.names(object) {
            return true;
        }
    }
    false
}
