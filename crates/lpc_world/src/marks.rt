// The threads whose events are marked as not handled, in the order of marking.
ghost use Rattle.std.specs.Prelude.{◌≡◌, ◌*◌, ◌<◌, ◌≤◌, [], false, length, max, slice_get, OnOk, OnErr};
ghost use Rattle.std.specs.List.{position};
ghost use Rattle.lpc_base.specs.Rows.{has};
ghost use Rattle.lpc_waits.specs.Table.{is_mark};
ghost use Rattle.lpc_rows.specs.Shown.{with_mark, with_places, without_mark};

use lpc_base::{OutOfMemory, reserve_rows};
use std::alloc::Global;
use std::marker::Model;

/// The marked threads, none twice.
#[derive(Drop)]
pub(crate) struct Marks {
    rows: Vec<u32>,
}

impl Model for Marks {
    ghost use Rattle.std.specs.Prelude.{◌≡◌, true, vec_capacity};
    ghost use Rattle.lpc_base.specs.Rows.{differ_by};
    ghost use Rattle.lpc_rows.specs.Shown.{MarkTable};

    ghost Value = { MarkTable };

    ghost view = { λ m. record { rows = m.rows.items; places = vec_capacity m.rows } };

    ghost invariant = { λ m. differ_by (λ n. n) m.rows.items ≡ true };
}

impl Marks {
    /// No marks.
    pub(crate) fn new(alloc: Global) -> Marks
        ensures { result ≡ record { rows = []; places = 0 } }
    {
        Marks {
            rows: Vec::new(alloc),
        }
    }

    /// Makes room for so many marks, those that are there among them.
    pub(crate) fn reserve(&mut self, places: usize) -> Result<(), OutOfMemory>
        ensures room { OnOk result (places ≤ self.new.places) }
        ensures wanting { OnErr result (self.old.places < places) }
        ensures kept { self.new ≡ with_places self.new.places self.old }
        ensures least { self.old.places ≤ self.new.places }
        ensures most { let rows = length self.old.rows in
            self.new.places ≤ max self.old.places (max places (2 * rows)) }
        ensures enough { places ≤ self.old.places → self.new.places ≡ self.old.places }
    {
        let more = places.saturating_sub(self.rows.len());
        reserve_rows(&mut self.rows, more)
    }

    /// The marked threads.
    pub(crate) fn list(&self) -> &[u32]
        ensures { result.now ≡ self.now.rows }
    {
        self.rows.as_slice()
    }

    /// The thread that was marked first.
    pub(crate) fn first(&self) -> Option<u32>
        ensures { result ≡ slice_get self.now.rows 0 }
    {
        self.rows.first().copied()
    }

    /// Marks a thread that isn't marked.
    pub(crate) fn add(&mut self, tid: u32)
        requires room { length self.old.rows < self.old.places }
        requires unmarked { has (is_mark tid) self.old.rows ≡ false }
        ensures { self.new ≡ with_mark tid self.old }
    {
        self.rows.push_reserved(tid);
    }

    /// The mark of a thread goes.
    pub(crate) fn remove(&mut self, tid: u32)
        ensures { self.new ≡ without_mark tid self.old }
    {
        match self.position(tid) {
            Some(index) => {
                self.rows.remove(index);
            }
            None => {}
        }
    }

    fn position(&self, tid: u32) -> Option<usize>
        ensures { result ≡ position (is_mark tid) self.now.rows }
    {
        self.rows.iter().position(|mark| *mark == tid)
    }
}
