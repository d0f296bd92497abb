// What was changed last, by the spot that its key gives.
ghost use Rattle.std.specs.Prelude.{◌≡◌, [], slice_get};
ghost use Rattle.lpc_numbers.specs.Recent.{Notes, Opens};

use std::alloc::Global;
use std::marker::Model;

// How many spots there are: few, since each map that has spots makes them, however short a script is.
pub(crate) const SPOTS: usize = 128;

/// A few answers of a map, those that were changed last, each at the spot that its key gives. What is asked of a map is
/// mostly asked of what was changed not long before, and is answered from here without a search. An answer that comes to
/// a spot takes the place of the one that stood there.
#[derive(Drop)]
pub struct Recent<E: Copy> {
    answers: Vec<E>,
}

impl<E: Copy> Model for Recent<E> {
    ghost use Rattle.std.specs.Prelude.{List};

    ghost Value = { List E };

    ghost view = { λ s. s.answers.items };
}

impl<E: Copy> Recent<E> {
    /// No spot. It takes no memory, and keeps the allocator for `open`.
    pub fn new(alloc: Global) -> Recent<E>
        ensures { result ≡ [] }
    {
        Recent {
            answers: Vec::new(alloc),
        }
    }

    /// Makes the spots, where there is none and there is memory, with this answer at each.
    pub fn open(&mut self, blank: E)
        ensures { Opens blank self.old self.new }
    {
        if self.answers.is_empty() {
            // Without memory each answer is looked for.
            let _ = self.answers.resize(SPOTS, blank);
        }
    }

    /// The answer at a spot, where there is such a spot.
    #[inline(always)]
    pub fn at(&self, spot: usize) -> Option<E>
        ensures { result ≡ slice_get self.now spot }
    {
        self.answers.get(spot).copied()
    }

    /// Puts an answer at a spot, where there is such a spot. It takes no memory.
    #[inline(always)]
    pub fn note(&mut self, spot: usize, answer: E)
        ensures { Notes spot answer self.old self.new }
    {
        if let Some(noted) = self.answers.get_mut(spot) {
            *noted = answer;
        }
    }
}
