// The first number of each birth, found by the birth.
ghost use Rattle.std.specs.Prelude.{◌≡◌, ◌-◌, ◌+◌, ◌<◌, ◌≤◌, ◌&&◌, [], true, is_some, not, OnErr, OnOk};
ghost use Rattle.std.proofs.Common.{rules};
ghost use Rattle.std.specs.Cmp.Rules.{hashing};
ghost use Rattle.indexmap.specs.IndexMap.{index_map_len, spare, with_value_at};
ghost use Rattle.lpc_base.specs.Room.{grown_room};
ghost use Rattle.lpc_numbers.specs.Named.{Forgets, Takes, hashed, number_in, spot_of};

use crate::recent::{Recent, SPOTS};
use indexmap::IndexMap;
use lpc_base::{Birth, OutOfMemory};
use std::alloc::Global;
use std::hash::{Hash, Hasher};
use std::marker::Model;

/// A birth as the key of a map.
#[derive(Clone, Copy, PartialEq, Eq)]
pub struct Name {
    /// The birth.
    pub birth: Birth,
}

// Written out, since a birth has no hash of its own. Its maker and its ordinal tell it from each other birth of a run.
impl Hash for Name {
    ghost hash_input = { hashed };

    ghost respects_eq = { Prim.search (hashing, rules) };

    fn hash<H: Hasher>(&self, state: &mut H) {
        self.birth.maker.hash(state);
        self.birth.ordinal.hash(state);
    }
}

// Puts the number under the birth, where it has none yet, and says whether that is so. There is room for it.
fn note(names: &mut IndexMap<Name, u32>, birth: Birth, number: u32) -> bool
    requires { 0 < spare names.old }
    ensures new { result ≡ not (is_some (number_in names.old.entries birth)) }
    ensures names { Takes birth number names.old.entries names.new.entries }
    ensures room { spare names.old ≤ spare names.new + 1 }
{
    match names.insert_full(Name { birth }, number) {
        Ok((_, None)) => true,
        Ok((place, Some(first))) => {
            put_back(names, place, first);
            false
        }
        Err(_) => unreachable!(),
    }
}

// Gives the birth at a place its first number back.
#[inline(never)]
fn put_back(names: &mut IndexMap<Name, u32>, place: usize, first: u32)
    requires { place < index_map_len names.old }
    ensures { names.new ≡ with_value_at names.old place first }
{
    let (_, number) = names.pair_mut(place);
    *number = first;
}

// Where a birth stands among those that came or went last.
#[inline(always)]
fn spot(birth: Birth) -> usize
    ensures { result ≡ spot_of birth }
{
    birth.ordinal as usize % SPOTS
}

/// The first number of each birth, found without a search. It tells whether no birth came twice. So many further ones as
/// there is room for go in without memory.
#[derive(Drop)]
pub struct Named {
    names: IndexMap<Name, u32>,
    recent: Recent<(Birth, Option<u32>)>,
    room: usize,
    single: bool,
}

impl Model for Named {
    ghost use Rattle.std.specs.Prelude.{◌≤◌};
    ghost use Rattle.indexmap.specs.IndexMap.{spare};
    ghost use Rattle.lpc_numbers.specs.Named.{AreRecent, Named};

    ghost Value = { Named };

    ghost view = { λ s. record {
      firsts = s.names.entries;
      room = s.room;
      single = s.single;
    } };

    ghost invariant = { λ s. (s.room ≤ spare s.names) × AreRecent s.names.entries s.recent };
}

impl Named {
    /// No number and no room. It takes no memory, and keeps the allocator for `reserve`.
    pub fn new(alloc: Global) -> Named
        ensures firsts { result.firsts ≡ [] }
        ensures room { result.room ≡ 0 }
        ensures single { result.single ≡ true }
    {
        Named {
            names: IndexMap::new(alloc),
            recent: Recent::new(alloc),
            room: 0,
            single: true,
        }
    }

    /// Makes room for so many further numbers. Where it has to grow, it makes room for as many as there are rows, if
    /// those are more. `OutOfMemory` comes only where the room isn't there; nothing has changed then.
    pub fn reserve(&mut self, more: usize, rows: usize) -> Result<(), OutOfMemory>
        ensures kept { self.new ≡ record self.old { room = self.new.room } }
        ensures room { OnOk result (more ≤ self.new.room) }
        ensures wanting { OnErr result (self.old.room < more) }
        ensures err { OnErr result (self.new.room ≡ self.old.room) }
        ensures least { self.old.room ≤ self.new.room }
        ensures most { self.new.room ≤ grown_room self.old.room more rows }
        ensures grown { OnOk result (self.old.room < more → rows ≤ self.new.room) }
        ensures enough { more ≤ self.old.room → self.new.room ≡ self.old.room }
    {
        if more <= self.room {
            return Ok(());
        }
        let wanted = more.max(rows);
        match self.names.reserve(wanted) {
            Ok(()) => {
                self.room = wanted;
                if self.names.is_empty() {
                    self.recent.open((Birth::default(), None));
                }
                Ok(())
            }
            Err(_) => Err(OutOfMemory),
        }
    }

    /// A birth comes under a number: it is its first where the birth has none. There is room for it.
    pub fn add(&mut self, number: u32, birth: Birth)
        requires { 0 < self.old.room }
        ensures firsts { Takes birth number self.old.firsts self.new.firsts }
        ensures single { let known = is_some (number_in self.old.firsts birth) in
            self.new.single ≡ (self.old.single && not known) }
        ensures room { self.new.room ≡ self.old.room - 1 }
    {
        let is_new = note(&mut self.names, birth, number);
        self.room -= 1;
        self.single = self.single && is_new;
        if is_new {
            self.recent.note(spot(birth), (birth, Some(number)));
        }
    }

    /// The first number of a birth.
    pub fn number_named(&self, birth: Birth) -> Option<u32>
        ensures { result ≡ number_in self.now.firsts birth }
    {
        if let Some((known, number)) = self.recent.at(spot(birth)) {
            if known == birth {
                return number;
            }
        }
        self.searched(birth)
    }

    // The same, through the map.
    #[inline(never)]
    fn searched(&self, birth: Birth) -> Option<u32>
        ensures { result ≡ number_in self.now.firsts birth }
    {
        self.names.get(&Name { birth }).copied()
    }

    /// No birth ever came that had a number then.
    pub fn is_single(&self) -> bool
        ensures { result ≡ self.now.single }
    {
        self.single
    }

    /// Takes away the number of a birth.
    pub fn remove_name(&mut self, birth: Birth)
        ensures firsts { Forgets birth self.old.firsts self.new.firsts }
        ensures single { self.new.single ≡ self.old.single }
        ensures room { self.new.room ≡ self.old.room }
    {
        self.names.swap_remove(&Name { birth });
        self.recent.note(spot(birth), (birth, None));
    }
}
