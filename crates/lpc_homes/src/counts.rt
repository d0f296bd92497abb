// How many handles, or views, count for each object.
ghost use Rattle.std.specs.Prelude.{◌≡◌, ◌<◌, [], false, true, IfNone, IfSome};
ghost use Rattle.lpc_homes.specs.Counts.{Gains, IsWritten, Loses, count_in, spot_of};

use crate::Object;
use indexmap::IndexMap;
use lpc_base::Birth;
use lpc_numbers::Recent;
use std::alloc::Global;
use std::marker::Model;

// How many spots there are for objects that are named by keys, and how many each for processes and for threads:
// together as many as `Recent` has.
const KEY_SPOTS: usize = 64;

const BIRTH_SPOTS: usize = 32;

// Where an object stands among those whose counts were changed last.
#[inline(always)]
fn spot(object: Object) -> usize
    ensures { result ≡ spot_of object }
{
    // Keys and births keep apart, and so do processes and threads, of which two may have one ordinal.
    match object {
        Object::Port(key) => key.index % KEY_SPOTS,
        Object::Process(birth) => KEY_SPOTS + birth.ordinal as usize % BIRTH_SPOTS,
        Object::Thread(birth) => KEY_SPOTS + BIRTH_SPOTS + birth.ordinal as usize % BIRTH_SPOTS,
        Object::Section(key) => key.index % KEY_SPOTS,
        Object::Token(key) => key.index % KEY_SPOTS,
    }
}

// Writes the count of an object, where that takes no memory, and says whether it did.
fn write(counts: &mut IndexMap<Object, usize>, object: Object, count: usize) -> bool
    ensures written { result ≡ true → IsWritten object count counts.old.entries counts.new.entries }
    ensures lost { result ≡ false → counts.new.entries ≡ counts.old.entries }
    ensures known { 0 < count_in counts.old.entries object → result ≡ true }
{
    if counts.len() >= counts.capacity() && !counts.contains_key(&object) {
        return false;
    }
    counts.insert(object, count).is_ok()
}

/// How many handles name each object, or how many views count for it, as long as each found room to be counted.
///
/// The kit's map promises no room for what comes in place of what was taken out. So a handle or view that finds none
/// leaves the counts unfinished from then on, and nothing is answered from them. Beside the map stand the counts of some
/// objects whose counts were changed last, which are found without it.
#[derive(Drop)]
pub struct Counts {
    counts: IndexMap<Object, usize>,
    recent: Recent<(Object, usize)>,
    promised: usize,
    whole: bool,
}

impl Model for Counts {
    ghost use Rattle.lpc_homes.specs.Counts.{AreRecent, Counted};

    ghost Value = { Counted };

    ghost view = { λ s. record { entries = s.counts.entries; whole = s.whole } };

    ghost invariant = { λ s. AreRecent s.counts.entries s.recent };
}

impl Counts {
    /// No object has a count, and none is promised.
    pub fn new(alloc: Global) -> Counts
        ensures whole { result.whole ≡ true }
        ensures none { result.entries ≡ [] }
    {
        Counts {
            counts: IndexMap::new(alloc),
            recent: Recent::new(alloc),
            promised: 0,
            whole: true,
        }
    }

    /// Promises so many further handles, or views, and makes room to count each that is promised, where there is memory.
    /// Where it has to grow, it makes room for as many objects as there are, if those are more.
    pub fn promise(&mut self, more: usize)
        ensures { self.new ≡ self.old }
    {
        self.promised = self.promised.saturating_add(more);
        let named = self.counts.len();
        if self.promised > self.counts.capacity() - named {
            // What finds no room later leaves the counts unfinished.
            let _ = self.counts.reserve(self.promised.max(named));
            if named == 0 {
                self.recent.open((Object::Process(Birth::default()), 0));
            }
        }
    }

    /// One more counts for the object. It was promised, and takes no memory.
    pub fn add(&mut self, object: Object)
        ensures { self.new.whole ≡ true → Gains object self.old self.new }
    {
        self.promised = self.promised.saturating_sub(1);
        match self.count_of(object).checked_add(1) {
            Some(count) => self.put(object, count),
            None => self.whole = false,
        }
    }

    /// One less counts for the object, and its place is promised anew.
    pub fn take(&mut self, object: Object)
        ensures loses { self.new.whole ≡ true → Loses object self.old self.new }
        ensures kept { 0 < count_in self.old.entries object → self.new.whole ≡ self.old.whole }
    {
        self.promised = self.promised.saturating_add(1);
        match self.count_of(object) {
            0 => self.whole = false,
            1 => {
                self.counts.swap_remove(&object);
                self.recent.note(spot(object), (object, 0));
            }
            count => self.put(object, count - 1),
        }
    }

    /// How many count for the object; None where not each was counted.
    #[inline(always)]
    pub fn of(&self, object: Object) -> Option<usize>
        ensures whole { IfSome result (λ n. self.now.whole ≡ true) }
        ensures count { IfSome result (λ n. n ≡ count_in self.now.entries object) }
        ensures unfinished { IfNone result (self.now.whole ≡ false) }
    {
        if self.whole {
            Some(self.count_of(object))
        } else {
            None
        }
    }

    /// Each was counted.
    pub fn is_whole(&self) -> bool
        ensures { result ≡ self.now.whole }
    {
        self.whole
    }

    /// The count of an object, as it is kept.
    // Inlined, since most lines ask for some: mostly of an object whose count was changed not long before.
    #[inline(always)]
    fn count_of(&self, object: Object) -> usize
        ensures { result ≡ count_in self.now.entries object }
    {
        if let Some((known, count)) = self.recent.at(spot(object)) {
            if known == object {
                return count;
            }
        }
        self.searched(object)
    }

    // The same, through the map.
    #[inline(never)]
    fn searched(&self, object: Object) -> usize
        ensures { result ≡ count_in self.now.entries object }
    {
        self.counts.get(&object).copied().unwrap_or(0)
    }

    /// Writes the count of an object, where that takes no memory.
    fn put(&mut self, object: Object, count: usize)
        ensures whole { self.new.whole ≡ true → self.old.whole ≡ true }
        ensures counts { self.new.whole ≡ true →
            IsWritten object count self.old.entries self.new.entries }
        ensures kept { 0 < count_in self.old.entries object → self.new.whole ≡ self.old.whole }
    {
        let written = write(&mut self.counts, object, count);
        self.whole = self.whole && written;
        if written {
            self.recent.note(spot(object), (object, count));
        }
    }
}
