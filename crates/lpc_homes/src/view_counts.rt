// How many views count for each section and for each port.
ghost use Rattle.std.specs.Prelude.{◌≡◌, ◌∷◌, [], false, true, IfNone, IfSome};
ghost use Rattle.lpc_homes.specs.Counts.{GainsViews, LosesViews, count_in};

use crate::Object;
use crate::counts::Counts;
use indexmap::IndexMap;
use lpc_slots::Key;
use lpc_views::View;
use std::alloc::Global;
use std::marker::Model;

/// How many views show each section and go with each port, as long as each found room to be counted.
///
/// Beside the counts stands the place of the process to which the last view was given that goes with a port. No answer
/// rests on it: mostly all views of a port lie in one process, and there they are looked for first.
#[derive(Drop)]
pub struct ViewCounts {
    counts: Counts,
    homes: IndexMap<Object, usize>,
}

impl Model for ViewCounts {
    ghost use Rattle.lpc_homes.specs.Counts.{Counted};

    ghost Value = { Counted };

    ghost view = { λ s. s.counts };
}

impl ViewCounts {
    /// No view is counted, and none is promised.
    pub fn new(alloc: Global) -> ViewCounts
        ensures whole { result.whole ≡ true }
        ensures none { result.entries ≡ [] }
    {
        ViewCounts {
            counts: Counts::new(alloc),
            homes: IndexMap::new(alloc),
        }
    }

    /// Promises so many further views, and makes room to count each that is promised, where there is memory.
    pub fn promise(&mut self, more: usize)
        ensures { self.new ≡ self.old }
    {
        // A view counts for its section, and for its port.
        self.counts.promise(more.saturating_mul(2));
        let ports = self.homes.len();
        if more > self.homes.capacity() - ports {
            // The views of a port that finds no room are looked for in each process.
            let _ = self.homes.reserve(more.max(ports));
        }
    }

    /// One view more, of the process whose part stands at a place. It was promised, and takes no memory.
    pub fn add(&mut self, view: View<Key>, place: usize)
        ensures { self.new.whole ≡ true → GainsViews (view ∷ []) self.old self.new }
    {
        self.counts.add(Object::Section(view.section));
        if let Some(owner) = view.owner {
            self.counts.add(Object::Port(owner));
            self.note_home(Object::Port(owner), place);
        }
    }

    /// One view less, whose place is promised anew.
    pub fn take(&mut self, view: View<Key>)
        ensures { self.new.whole ≡ true → LosesViews (view ∷ []) self.old self.new }
    {
        self.counts.take(Object::Section(view.section));
        if let Some(owner) = view.owner {
            self.counts.take(Object::Port(owner));
            self.forget_home(Object::Port(owner));
        }
    }

    /// How many views count for the object, a section or a port; None where not each was counted.
    pub fn of(&self, object: Object) -> Option<usize>
        ensures whole { IfSome result (λ n. self.now.whole ≡ true) }
        ensures count { IfSome result (λ n. n ≡ count_in self.now.entries object) }
        ensures unfinished { IfNone result (self.now.whole ≡ false) }
    {
        self.counts.of(object)
    }

    /// Each view was counted.
    pub fn is_whole(&self) -> bool
        ensures { result ≡ self.now.whole }
    {
        self.counts.is_whole()
    }

    /// The place of the process to which the last view was given that goes with a port. Where that isn't kept, it is any.
    pub fn home_of(&self, owner: Key) -> usize {
        self.homes.get(&Object::Port(owner)).copied().unwrap_or(0)
    }

    // Keeps the place of a port's last view, where that takes no memory.
    fn note_home(&mut self, port: Object, place: usize)
        ensures { self.new ≡ self.old }
    {
        let has_room = self.homes.len() < self.homes.capacity();
        if has_room || self.homes.contains_key(&port) {
            let _ = self.homes.insert(port, place);
        }
    }

    // Lets that place go once no view is left that goes with the port.
    fn forget_home(&mut self, port: Object)
        ensures { self.new ≡ self.old }
    {
        if self.counts.of(port) == Some(0) {
            self.homes.swap_remove(&port);
        }
    }
}
