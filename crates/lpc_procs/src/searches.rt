// Searches of all rows, one after the other.
ghost use Rattle.std.specs.Prelude.{Bool, ◌≡◌, option_copied};
ghost use Rattle.lpc_base.specs.Rows.{count, first};
ghost use Rattle.lpc_procs.specs.Kept.{rows_in};

use crate::keys::row_at;
use lpc_slots::Slots;

/// What is asked of each row.
pub trait Test<T> {
    ghost test: { Self → T → Bool };

    /// The row is one of those that are asked for.
    fn passes(&self, row: &T) -> bool
        ensures { result ≡ test self.now row.now };
}

/// The first row that passes.
pub fn first_row<'a, T, Q: Test<T>>(rows: &'a Slots<T>, asked: &Q) -> Option<&'a T>
    ensures { option_copied result ≡ first (Q.test asked.now) (rows_in rows.now) }
{
    for place in 0..rows.count() {
        let row = row_at(rows, place);
        if asked.passes(row) {
            return Some(row);
        }
    }
    None
}

/// How many rows pass.
pub fn count_rows<T, Q: Test<T>>(rows: &Slots<T>, asked: &Q) -> usize
    ensures { result ≡ count (Q.test asked.now) (rows_in rows.now) }
{
    let mut counted = 0;
    for place in 0..rows.count() {
        if asked.passes(row_at(rows, place)) {
            counted += 1;
        }
    }
    counted
}
