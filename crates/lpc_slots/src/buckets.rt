// Chains of rows by a number of each row.
ghost use Rattle.std.specs.Prelude.{◌≡◌, ◌%◌, ◌<◌, ◌≤◌, [], IsSome, OnOk, length, vec_capacity};
ghost use Rattle.lpc_slots.specs.Chain.{IsAlone};
ghost use Rattle.lpc_slots.specs.Table.{at};
ghost use Rattle.lpc_slots.specs.Buckets.{Enters, HasPlaced, Leaves, AreEmpty, RelinksSome, first_under};

use crate::{Chain, Key, Linked, Slots};
use lpc_base::{OutOfMemory, reserve_rows};
use std::alloc::Global;

/// Chains of the rows of a table. Each row has a number: those whose numbers leave one remainder stand on one chain, in
/// the order in which they came. A row's number is told at each call: nothing but the caller keeps it.
///
/// Over given slots they stand for a sequence of different rows, each with its number. No call but `make_room` takes
/// memory. This project's own.
#[derive(Drop)]
pub struct Buckets<const LIST: usize> {
    /// The chains; the rows whose numbers leave a remainder stand on the one at that place.
    pub chains: Vec<Chain<LIST>>,
}

impl<const LIST: usize> Buckets<LIST> {
    /// No chains.
    pub fn new(alloc: Global) -> Buckets<LIST>
        ensures { result.chains.items ≡ [] }
    {
        Buckets {
            chains: Vec::new(alloc),
        }
    }

    /// How many chains there are.
    pub fn many(&self) -> usize
        ensures { result ≡ length self.now.chains.items }
    {
        self.chains.len()
    }

    /// Puts a row at the end of the chain of its number.
    ///
    /// There are chains, and the row is there.
    pub fn push<T: Linked<LIST>>(&mut self, slots: &mut Slots<T>, number: usize, key: Key)
        requires wide { 0 < length self.old.chains.items }
        requires present { IsSome (at slots.old key) }
        ensures enters { Enters T.links_of
            slots.old slots.new self.old.chains.items self.new.chains.items key number }
        ensures many { length self.new.chains.items ≡ length self.old.chains.items }
        ensures links { RelinksSome T.with_links slots.old slots.new }
    {
        let bucket = self.bucket(number);
        self.chains[bucket].push_back(slots, key);
    }

    /// Puts a row that stands next to none on this chain at the end of the chain of its number.
    ///
    /// There are chains.
    pub fn push_new<T: Linked<LIST>>(&mut self, slots: &mut Slots<T>, number: usize, key: Key)
        requires wide { 0 < length self.old.chains.items }
        requires alone { IsAlone T.links_of slots.old key }
        ensures enters { Enters T.links_of
            slots.old slots.new self.old.chains.items self.new.chains.items key number }
        ensures many { length self.new.chains.items ≡ length self.old.chains.items }
        ensures links { RelinksSome T.with_links slots.old slots.new }
    {
        let bucket = self.bucket(number);
        self.chains[bucket].push_new(slots, key);
    }

    /// Takes a row out of the chain of its number. Its own links stay as they are.
    ///
    /// There are chains, and the row stands on that one.
    pub fn unlink<T: Linked<LIST>>(&mut self, slots: &mut Slots<T>, number: usize, key: Key)
        requires wide { 0 < length self.old.chains.items }
        requires placed { HasPlaced T.links_of slots.old self.old.chains.items key number }
        ensures leaves { Leaves T.links_of
            slots.old slots.new self.old.chains.items self.new.chains.items key number }
        ensures many { length self.new.chains.items ≡ length self.old.chains.items }
        ensures links { RelinksSome T.with_links slots.old slots.new }
    {
        let bucket = self.bucket(number);
        self.chains[bucket].unlink(slots, key);
    }

    /// The first row on the chain of a number: None where the chain is empty, and where there are no chains.
    pub fn front(&self, number: usize) -> Option<Key>
        ensures { result ≡ first_under self.now.chains.items number }
    {
        if self.chains.is_empty() {
            return None;
        }
        self.chains[self.bucket(number)].front()
    }

    /// Makes room for so many chains in all.
    pub fn make_room(&mut self, many: usize) -> Result<(), OutOfMemory>
        ensures chains { self.new.chains.items ≡ self.old.chains.items }
        ensures room { OnOk result (many ≤ vec_capacity self.new.chains) }
    {
        let more = many.saturating_sub(self.chains.len());
        reserve_rows(&mut self.chains, more)
    }

    /// So many empty chains take the place of the others. There is room for them.
    pub fn refill(&mut self, many: usize)
        requires { many ≤ vec_capacity self.old.chains }
        ensures many { length self.new.chains.items ≡ many }
        ensures empty { AreEmpty self.new.chains.items }
    {
        self.chains.clear();
        match self.chains.resize(many, Chain::empty()) {
            Ok(()) => {}
            Err(_) => unreachable!(),
        }
    }

    // Where the chain of a number stands.
    fn bucket(&self, number: usize) -> usize
        requires { 0 < length self.now.chains.items }
        ensures place { result ≡ number % length self.now.chains.items }
        ensures within { result < length self.now.chains.items }
    {
        number % self.chains.len()
    }
}
