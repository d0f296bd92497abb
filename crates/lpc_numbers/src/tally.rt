// How many there are of each number.
ghost use Rattle.std.specs.Prelude.{◌≡◌, ◌<◌, ◌≤◌, ◌==◌, ◌&&◌, [], if◌then◌else◌, not, true, false, ℕ, IfNone, IfSome};
ghost use Rattle.lpc_numbers.specs.Tally.{Gains, Loses, LosesMany, count_in};

use indexmap::IndexMap;
use std::alloc::Global;
use std::marker::Model;

/// How many there are of each number, as long as each found room to be counted.
///
/// One that finds no room leaves the tally unfinished from then on, and nothing is answered from it.
#[derive(Drop)]
pub struct Tally {
    counts: IndexMap<u32, usize>,
    whole: bool,
}

impl Model for Tally {
    ghost use Rattle.lpc_numbers.specs.Tally.{Tally};

    ghost Value = { Tally };

    ghost view = { λ s. record { entries = s.counts.entries; whole = s.whole } };
}

impl Tally {
    /// There is none of any number.
    pub fn new(alloc: Global) -> Tally
        ensures whole { result.whole ≡ true }
        ensures none { result.entries ≡ [] }
    {
        Tally {
            counts: IndexMap::new(alloc),
            whole: true,
        }
    }

    /// Makes room for the counts of so many numbers in all, where there is memory.
    pub fn promise(&mut self, numbers: usize)
        ensures { self.new ≡ self.old }
    {
        let counted = self.counts.len();
        if numbers > self.counts.capacity() {
            self.promise_more(numbers - counted);
        }
    }

    /// Makes room for the counts of so many further numbers, where there is memory.
    pub fn promise_more(&mut self, numbers: usize)
        ensures { self.new ≡ self.old }
    {
        // A number that finds no room later leaves the tally unfinished.
        let _ = self.counts.reserve(numbers);
    }

    /// There is one more of the number. It takes no memory.
    pub fn add(&mut self, number: u32)
        ensures { self.new.whole ≡ true → Gains number self.old self.new }
    {
        match self.count_of(number).checked_add(1) {
            Some(count) => self.put(number, count),
            None => self.whole = false,
        }
    }

    /// There is one less of the number.
    pub fn take(&mut self, number: u32)
        ensures loses { self.new.whole ≡ true → Loses number self.old self.new }
        ensures kept { 0 < count_in self.old.entries number →
            self.new.whole ≡ self.old.whole }
    {
        self.take_many(number, 1);
    }

    /// There are so many less of the number.
    pub fn take_many(&mut self, number: u32, many: usize)
        ensures loses { self.new.whole ≡ true → LosesMany number many self.old self.new }
        ensures kept { many ≤ count_in self.old.entries number →
            self.new.whole ≡ self.old.whole }
    {
        match self.count_of(number).checked_sub(many) {
            None => self.whole = false,
            Some(0) => {
                self.counts.swap_remove(&number);
            }
            Some(count) => self.put(number, count),
        }
    }

    /// Nothing is answered from the tally any more where some were lost.
    pub fn give_up_if(&mut self, lost: bool)
        ensures entries { self.new.entries ≡ self.old.entries }
        ensures whole { self.new.whole ≡ (self.old.whole && not lost) }
    {
        self.whole = self.whole && !lost;
    }

    /// How many there are of the number; None where not each was counted.
    pub fn of(&self, number: u32) -> Option<usize>
        ensures whole { IfSome result (λ n. self.now.whole ≡ true) }
        ensures count { IfSome result (λ n. n ≡ count_in self.now.entries number) }
        ensures unfinished { IfNone result (self.now.whole ≡ false) }
    {
        if self.whole {
            Some(self.count_of(number))
        } else {
            None
        }
    }

    /// Each was counted, and there is none of the number.
    pub fn has_none(&self, number: u32) -> bool
        ensures { result ≡ (self.now.whole && count_in self.now.entries number == 0) }
    {
        self.whole && self.count_of(number) == 0
    }

    /// The count of a number, as it is kept.
    fn count_of(&self, number: u32) -> usize
        ensures { result ≡ count_in self.now.entries number }
    {
        self.counts.get(&number).copied().unwrap_or(0)
    }

    /// Writes the count of a number, where that takes no memory.
    fn put(&mut self, number: u32, count: usize)
        ensures whole { self.new.whole ≡ true → self.old.whole ≡ true }
        ensures kept { 0 < count_in self.old.entries number →
            self.new.whole ≡ self.old.whole }
        ensures counts { self.new.whole ≡ true → (n : ℕ) → count_in self.new.entries n
            ≡ (if n == number then count else count_in self.old.entries n) }
    {
        let has_room = self.counts.len() < self.counts.capacity();
        let fits = has_room || self.counts.contains_key(&number);
        self.whole = self.whole && fits && self.counts.insert(number, count).is_ok();
    }
}
