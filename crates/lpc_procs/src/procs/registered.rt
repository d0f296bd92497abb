// The ports that threads registered.
ghost use Rattle.std.specs.Prelude.{◌≡◌, ◌*◌, ◌<◌, ◌≤◌, true, false, length, is_some, option_map, Some, IsSomeAnd};
ghost use Rattle.lpc_base.specs.Rows.{count, has};
ghost use Rattle.lpc_base.specs.declared.limits.TheConstants.{REGISTRATION_LIMIT};
ghost use Rattle.lpc_procs.specs.Procs.{HasRegistrationLeft, all_registrations, first_untold, has_registered, is_of_birth, live_registrations, registered_by, registering, registration, thread_at, unregistering, with_thread};

use crate::keys::thread_key;
use crate::procs::Procs;
use crate::registrations::{Registers, Untold};
use crate::searches::first_row;
use crate::tags::tag_of;
use crate::{Registration, registrations};
use lpc_base::Birth;
use lpc_slots::Key;

impl<'t> Procs<'t> {
    /// Registers a port with the thread, which has a row and registered fewer than 16, behind those that it had.
    pub fn register(&mut self, tid: u32, port: Key, birth: Birth)
        requires left { IsSomeAnd (thread_at self.old tid) HasRegistrationLeft }
        ensures table { let r = registration port birth in
            self.new ≡ with_thread self.old tid (registering r) }
    {
        match self.threads.get_mut(thread_key(&self.used_threads, tid)) {
            Some(row) => {
                row.registered.push(Registration { port, birth });
                self.registered += 1;
                self.tags.add(tag_of(birth));
            }
            None => unreachable!(),
        }
    }

    /// Takes the registrations of the port with a birth from the thread, which has a row. The others keep their order.
    pub fn unregister(&mut self, tid: u32, birth: Birth)
        requires present { is_some (thread_at self.old tid) ≡ true }
        ensures table { self.new ≡ with_thread self.old tid (unregistering birth) }
    {
        match self.threads.get_mut(thread_key(&self.used_threads, tid)) {
            Some(row) => {
                let before = row.registered.len();
                registrations::forget(&mut row.registered, birth);
                let forgotten = before - row.registered.len();
                self.registered -= forgotten;
                self.tags.take_many(tag_of(birth), forgotten);
            }
            None => unreachable!(),
        }
    }

    /// The thread, which has a row, registered the port with a birth.
    pub fn is_registered(&self, tid: u32, birth: Birth) -> bool
        requires present { is_some (thread_at self.now tid) ≡ true }
        ensures registered { option_map (has_registered birth) (thread_at self.now tid)
            ≡ Some result }
    {
        registrations::has_birth(&self.thread(tid).registered, birth)
    }

    /// The registrations of the thread, which has a row, in the order in which it made them.
    pub fn registrations_of(&self, tid: u32) -> &[Registration]
        requires present { is_some (thread_at self.now tid) ≡ true }
        ensures rows { option_map registered_by (thread_at self.now tid) ≡ Some result.now }
    {
        &self.thread(tid).registered
    }

    /// How many registrations the thread has, which has a row.
    pub fn registration_count(&self, tid: u32) -> usize
        requires present { is_some (thread_at self.now tid) ≡ true }
        ensures count { option_map (λ t. length t.registered.items) (thread_at self.now tid)
            ≡ Some result }
        ensures bound { result ≤ REGISTRATION_LIMIT }
    {
        self.thread(tid).registered.len()
    }

    /// How many registrations all threads have, the ended ones too.
    pub fn registrations(&self) -> usize
        ensures count { result ≡ length (all_registrations self.now.threads) }
        ensures bound { result ≤ REGISTRATION_LIMIT * length self.now.threads }
    {
        self.registered
    }

    /// A thread registered the port with a birth, be it live or ended.
    pub fn names(&self, birth: Birth) -> bool
        ensures named { result ≡ has (has_registered birth) self.now.threads }
    {
        if self.is_unregistered(birth) {
            return false;
        }
        first_row(&self.threads, &Registers { birth }).is_some()
    }

    /// How many registrations of live threads are of the port with a birth.
    pub fn registered_to(&self, birth: Birth) -> usize
        ensures count { result ≡ count (is_of_birth birth) (live_registrations self.now.threads) }
        ensures bound { result ≤ REGISTRATION_LIMIT * length self.now.threads }
    {
        if self.is_unregistered(birth) {
            return 0;
        }
        registrations::of_birth(&self.threads, birth)
    }

    /// True where the counts rule out that a thread registered the port with a birth.
    ///
    /// False says nothing of this port, but that some port is registered: names may share a tag, and a tally in which
    /// not each registration was counted rules nothing out.
    fn is_unregistered(&self, birth: Birth) -> bool
        ensures none { result ≡ true →
            count (is_of_birth birth) (all_registrations self.now.threads) ≡ 0 }
        ensures some { result ≡ false → 0 < length (all_registrations self.now.threads) }
    {
        if self.registered == 0 {
            return true;
        }
        self.tags.has_none(tag_of(birth))
    }

    /// Of the threads of the process that have ended, the first that still has registrations: its number, and the
    /// registration that it made first. None exactly where there is no such thread.
    pub fn first_to_tell(&self, pid: u32) -> Option<(u32, Registration)>
        ensures registration { result ≡ first_untold self.now.threads pid }
    {
        if self.registered == 0 {
            return None;
        }
        match self.first_of(pid, &Untold { pid }) {
            Some(t) => registrations::first_registration(t),
            None => None,
        }
    }
}
