// The ports that threads registered: searches and changes of their rows.
ghost use Rattle.std.specs.Prelude.{◌≡◌, ◌*◌, ◌<◌, ◌≤◌, ◌^◌, length};
ghost use Rattle.lpc_base.specs.Rows.{count, has, without};
ghost use Rattle.lpc_base.specs.declared.limits.TheConstants.{REGISTRATION_LIMIT};
ghost use Rattle.lpc_procs.specs.Kept.{rows_in};
ghost use Rattle.lpc_procs.specs.Procs.{first_registered, first_registration, is_of_birth, is_untold, live_registrations, registered_live};

use crate::keys::row_at;
use crate::searches::Test;
use crate::{Registration, ThreadRow};
use arrayvec::ArrayVec;
use lpc_base::Birth;
use lpc_base::limits::REGISTRATION_LIMIT;
use lpc_slots::Slots;

// The registration that the thread made first.
fn first_registered(t: &ThreadRow) -> Option<Registration>
    ensures { result ≡ first_registered t.now }
{
    t.registered.first().copied()
}

/// The thread with the registration that it made first.
pub fn first_registration(t: &ThreadRow) -> Option<(u32, Registration)>
    ensures { result ≡ first_registration t.now }
{
    match first_registered(t) {
        Some(r) => Some((t.number, r)),
        None => None,
    }
}

// The thread is of the process, has ended, and has registrations still.
fn is_untold(t: &ThreadRow, pid: u32) -> bool
    ensures { result ≡ is_untold pid t.now }
{
    t.process == pid && !t.live && first_registered(t).is_some()
}

/// A thread of the process that has ended, and has registrations still.
#[derive(Clone, Copy)]
pub struct Untold {
    /// The number of the process.
    pub pid: u32,
}

impl<'t> Test<ThreadRow<'t>> for Untold {
    ghost use Rattle.lpc_procs.specs.Procs.{is_untold};

    ghost test = { λ asked t. is_untold asked.pid t };

    fn passes(&self, t: &ThreadRow<'t>) -> bool {
        is_untold(t, self.pid)
    }
}

/// One of the registrations is of the port with the birth.
pub fn has_birth(registered: &[Registration], birth: Birth) -> bool
    ensures { result ≡ has (is_of_birth birth) registered.now }
{
    for r in registered {
        if birth == r.birth {
            return true;
        }
    }
    false
}

/// Takes the registrations of the port with the birth away. The others keep their order.
pub fn forget(registered: &mut ArrayVec<Registration, REGISTRATION_LIMIT>, birth: Birth)
    ensures { registered.new.items ≡ without (is_of_birth birth) registered.old.items }
{
    registered.retain(|r| birth != r.birth);
}

// How many of the registrations are of the port with the birth.
fn count_of(registered: &[Registration], birth: Birth) -> usize
    ensures count { result ≡ count (is_of_birth birth) registered.now }
    ensures most { result ≤ length registered.now }
{
    registered.iter().filter(|r| birth == r.birth).count()
}

// How many registrations the thread has that are of the port with the birth, none where it has ended.
fn count_live(t: &ThreadRow, birth: Birth) -> usize
    ensures count { result ≡ count (is_of_birth birth) (registered_live t.now) }
    ensures most { result ≤ REGISTRATION_LIMIT }
{
    if t.live {
        count_of(&t.registered, birth)
    } else {
        0
    }
}

/// How many registrations of live threads are of the port with the birth. There are fewer than 2^32 threads.
pub fn of_birth(threads: &Slots<ThreadRow>, birth: Birth) -> usize
    requires few { length (rows_in threads.now) < 2 ^ 32 }
    ensures count { result ≡ count (is_of_birth birth)
        (live_registrations (rows_in threads.now)) }
    ensures bound { result ≤ REGISTRATION_LIMIT * length (rows_in threads.now) }
{
    let mut named = 0;
    for place in 0..threads.count() {
        named += count_live(row_at(threads, place), birth);
    }
    named
}

/// A thread that registered the port with the birth.
#[derive(Clone, Copy)]
pub struct Registers {
    /// The birth.
    pub birth: Birth,
}

impl<'t> Test<ThreadRow<'t>> for Registers {
    ghost use Rattle.lpc_procs.specs.Procs.{has_registered};

    ghost test = { λ asked t. has_registered asked.birth t };

    fn passes(&self, t: &ThreadRow<'t>) -> bool {
        has_birth(&t.registered, self.birth)
    }
}
