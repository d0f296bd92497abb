// The keys of rows, as numbers lead to them.
ghost use Rattle.std.specs.Prelude.{◌≡◌, ◌<◌, ◌^◌, length, slice_get, None, Some};
ghost use Rattle.lpc_procs.specs.Kept as kept;
ghost use Rattle.lpc_procs.specs.Kept.{rank_of, rows_in};

use lpc_numbers::Numbered;
use lpc_slots::{Key, Slots};

/// What is kept of a thread number that was used: the process of that thread, and the key that its row has, or had.
#[derive(Clone, Copy)]
pub struct Use {
    /// The number of the process.
    pub process: u32,
    /// The key.
    pub key: Key,
}

/// The key that the process of a number has, or had; for a number that was never used the key that is never given.
#[inline(always)]
pub fn process_key(used: &Numbered<Key>, pid: u32) -> Key
    ensures { result ≡ kept.process_key used.now.entries pid }
{
    match used.get(pid) {
        Some(key) => key,
        None => no_key(),
    }
}

/// The rank of a process: how many numbers were used for processes before its own, which never changes. For a number
/// that was never used it is how many were used at all. These are fewer than 2^32.
pub fn process_rank(used: &Numbered<Key>, pid: u32) -> u32
    requires { length used.now.entries < 2 ^ 32 }
    ensures { result ≡ rank_of used.now.entries pid }
{
    let rank = used.place(pid).unwrap_or(used.len());
    rank as u32
}

/// The key that the thread of a number has, or had; for a number that was never used the key that is never given.
#[inline(always)]
pub fn thread_key(used: &Numbered<Use>, tid: u32) -> Key
    ensures { result ≡ kept.thread_key used.now.entries tid }
{
    match used.get(tid) {
        Some(used) => used.key,
        None => no_key(),
    }
}

// The key that is never given.
fn no_key() -> Key
    ensures { result ≡ kept.key_or None }
{
    Key {
        index: 0,
        generation: 0,
    }
}

/// The row at a place.
pub fn row_at<T>(rows: &Slots<T>, place: usize) -> &T
    requires { place < length (rows_in rows.now) }
    ensures { slice_get (rows_in rows.now) place ≡ Some result.now }
{
    let (_, row) = rows.row(place);
    row
}
