// Where small numbers stand, by the number itself.
ghost use Rattle.std.specs.Prelude.{◌≡◌, [], false, true, slice_get};
ghost use Rattle.lpc_numbers.specs.Near.{Notes, Widens};

use std::alloc::Global;
use std::marker::Model;

/// The places of small numbers, each under its number: the fastest way to a row. Scripts mostly number by fours from
/// small numbers on, so that few are left out. A number past the last one here has to be looked for elsewhere.
#[derive(Drop)]
pub(crate) struct Near {
    // Under each number one more than its place, and 0 where it has none.
    ranks: Vec<u32>,
    // No number was left out.
    whole: bool,
}

impl Model for Near {
    ghost use Rattle.lpc_numbers.specs.Near.{Near};

    ghost Value = { Near };

    ghost view = { λ s. record { ranks = s.ranks.items; whole = s.whole } };
}

impl Near {
    /// No number, and none left out.
    pub fn new(alloc: Global) -> Near
        ensures ranks { result.ranks ≡ [] }
        ensures whole { result.whole ≡ true }
    {
        Near {
            ranks: Vec::new(alloc),
            whole: true,
        }
    }

    /// Reaches further, as a rule by so many numbers, where there is memory and none was left out.
    pub fn widen(&mut self, more: usize)
        ensures { Widens self.old self.new }
    {
        if self.whole {
            // Without memory a number that is past the last one is left out later.
            let _ = self.ranks.resize(self.ranks.len().saturating_add(more), 0);
        }
    }

    /// One more than the place of a number, and 0 where it has none; None where the number is past the last one here.
    #[inline(always)]
    pub fn rank(&self, number: u32) -> Option<u32>
        ensures { result ≡ slice_get self.now.ranks number }
    {
        self.ranks.get(number as usize).copied()
    }

    /// Notes where a number stands that had no place. One that is past the last one here is left out, and all are at a
    /// place that 32 bits don't hold. It takes no memory.
    pub fn note(&mut self, number: u32, place: usize)
        ensures { Notes number place self.old self.new }
    {
        if place >= u32::MAX as usize {
            self.ranks.clear();
        }
        match self.ranks.get_mut(number as usize) {
            Some(rank) => *rank = place as u32 + 1,
            None => self.whole = false,
        }
    }
}
