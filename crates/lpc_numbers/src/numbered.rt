// Values under numbers that differ.
ghost use Rattle.std.specs.Prelude.{◌≡◌, ◌-◌, ◌<◌, ◌≤◌, ◌++◌, ◌∷◌, [], false, length, option_map, slice_get, OnErr, OnOk};
ghost use Rattle.std.specs.List.{position};
ghost use Rattle.lpc_base.specs.Room.{grown_room};
ghost use Rattle.lpc_base.specs.Rows.{has};
ghost use Rattle.lpc_numbers.specs.Near.{far_spot};
ghost use Rattle.lpc_numbers.specs.Numbered.{is_at, value_at};

use crate::near::Near;
use crate::recent::{Recent, SPOTS};
use indexmap::IndexMap;
use lpc_base::OutOfMemory;
use std::alloc::Global;
use std::marker::Model;

// So far the list of small numbers reaches further each time that room is made, and by so many more for each number that
// may come: scripts mostly number by fours, and processes and threads in turn.
const SMALL_NUMBERS: usize = 1024;

const NUMBERS_EACH: usize = 8;

// Where a number stands among those that came last.
#[inline(always)]
fn spot(number: u32) -> usize
    ensures { result ≡ far_spot number }
{
    number as usize % SPOTS
}

/// Values under numbers that differ, in the order in which they came. A number leads to its value and to its place
/// without a search. So many further ones as there is room for go in without memory.
#[derive(Drop)]
pub struct Numbered<V: Copy> {
    map: IndexMap<u32, V>,
    near: Near,
    // Of numbers that came last one more than the place, and 0 for none.
    far: Recent<(u32, usize)>,
    room: usize,
}

impl<V: Copy> Model for Numbered<V> {
    ghost use Rattle.std.specs.Prelude.{◌≤◌};
    ghost use Rattle.indexmap.specs.IndexMap.{spare};
    ghost use Rattle.lpc_numbers.specs.Near.{AreFar, IsNear};
    ghost use Rattle.lpc_numbers.specs.Numbered.{Numbered};

    ghost Value = { Numbered V };

    ghost view = { λ s. record { entries = s.map.entries; room = s.room } };

    ghost invariant = { λ s. (s.room ≤ spare s.map) × IsNear s.map.entries s.near × AreFar s.map.entries s.far };
}

impl<V: Copy> Numbered<V> {
    /// No number and no room. It takes no memory, and keeps the allocator for `reserve`.
    pub fn new(alloc: Global) -> Numbered<V>
        ensures entries { result.entries ≡ [] }
        ensures room { result.room ≡ 0 }
    {
        Numbered {
            map: IndexMap::new(alloc),
            near: Near::new(alloc),
            far: Recent::new(alloc),
            room: 0,
        }
    }

    /// Makes room for so many further numbers. Where it has to grow, it makes room for as many as there are, if those
    /// are more. `OutOfMemory` comes only where the room isn't there; nothing has changed then.
    pub fn reserve(&mut self, more: usize) -> Result<(), OutOfMemory>
        ensures entries { self.new.entries ≡ self.old.entries }
        ensures room { OnOk result (more ≤ self.new.room) }
        ensures wanting { OnErr result (self.old.room < more) }
        ensures err { OnErr result (self.new.room ≡ self.old.room) }
        ensures least { self.old.room ≤ self.new.room }
        ensures most { self.new.room
            ≤ grown_room self.old.room more (length self.old.entries) }
        ensures grown { OnOk result
            (self.old.room < more → length self.old.entries ≤ self.new.room) }
        ensures enough { more ≤ self.old.room → self.new.room ≡ self.old.room }
    {
        if more <= self.room {
            return Ok(());
        }
        let wanted = more.max(self.map.len());
        match self.map.reserve(wanted) {
            Ok(()) => {
                self.room = wanted;
                self.near.widen(SMALL_NUMBERS.saturating_add(wanted.saturating_mul(NUMBERS_EACH)));
                if self.map.is_empty() {
                    self.far.open((0, 0));
                }
                Ok(())
            }
            Err(_) => Err(OutOfMemory),
        }
    }

    /// Puts a value under a number that has none, behind the others. There is room for it.
    pub fn add(&mut self, number: u32, value: V)
        requires room { 0 < self.old.room }
        requires new { has (is_at number) self.old.entries ≡ false }
        ensures entries { self.new.entries ≡ self.old.entries ++ (number, value) ∷ [] }
        ensures room { self.new.room ≡ self.old.room - 1 }
    {
        let place = self.map.len();
        self.near.note(number, place);
        self.far.note(spot(number), (number, place + 1));
        match self.map.insert(number, value) {
            Ok(_) => self.room -= 1,
            Err(_) => unreachable!(),
        }
    }

    /// How many numbers there are.
    pub fn len(&self) -> usize
        ensures { result ≡ length self.now.entries }
    {
        self.map.len()
    }

    /// How many further numbers go in without memory.
    pub fn room(&self) -> usize
        ensures { result ≡ self.now.room }
    {
        self.room
    }

    /// Where a number stands in the order in which they came.
    // Inlined with the look into the list, since each line asks for several rows by their numbers, mostly small ones.
    #[inline(always)]
    pub fn place(&self, number: u32) -> Option<usize>
        ensures { result ≡ position (is_at number) self.now.entries }
    {
        match self.near.rank(number) {
            Some(0) => None,
            Some(rank) => Some(rank as usize - 1),
            None => self.far_place(number),
        }
    }

    // The same of a number that is too large for the list: through those that came last, or through the map.
    #[inline(never)]
    fn far_place(&self, number: u32) -> Option<usize>
        ensures { result ≡ position (is_at number) self.now.entries }
    {
        if let Some((known, rank)) = self.far.at(spot(number)) {
            if known == number {
                return rank.checked_sub(1);
            }
        }
        self.searched(number)
    }

    // The same, through the map.
    #[inline(never)]
    fn searched(&self, number: u32) -> Option<usize>
        ensures { result ≡ position (is_at number) self.now.entries }
    {
        self.map.get_index_of(&number)
    }

    /// The value under a number.
    #[inline(always)]
    pub fn get(&self, number: u32) -> Option<V>
        ensures { result ≡ value_at self.now.entries number }
    {
        match self.place(number) {
            Some(place) => self.value(place),
            None => None,
        }
    }

    // The value at a place.
    #[inline(always)]
    fn value(&self, place: usize) -> Option<V>
        ensures { result ≡ option_map (λ e. e.1) (slice_get self.now.entries place) }
    {
        match self.map.get_index(place) {
            Some((_, value)) => Some(*value),
            None => None,
        }
    }

    /// The number has a value.
    pub fn has(&self, number: u32) -> bool
        ensures { result ≡ has (is_at number) self.now.entries }
    {
        self.place(number).is_some()
    }
}
