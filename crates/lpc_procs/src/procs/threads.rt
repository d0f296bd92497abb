// What is told of threads, and what they draw.
ghost use Rattle.std.specs.Prelude.{◌≡◌, ◌<◌, ◌≤◌, true, length, is_some, option_copied, option_map, slice_get, Some, IsSomeAnd};
ghost use Rattle.lpc_base.specs.Rows.{count, first, has};
ghost use Rattle.lpc_procs.specs.Callers.{caller_of};
ghost use Rattle.lpc_procs.specs.Kept.{PassesOnly, life_of_first, rows_of};
ghost use Rattle.lpc_procs.specs.Procs as procs;
ghost use Rattle.lpc_procs.specs.Procs.{HasIdentifierLeft, HasOrdinalLeft, acting, first_thread, is_life, is_live_client, is_live_thread, is_thread_born, lives_in, past_birth, past_identifier, thread_at, thread_born, thread_life, with_thread};

use crate::births::{LifeOf, ThreadNamed};
use crate::keys::{process_rank, row_at, thread_key};
use crate::lists::LivesIn;
use crate::members::Member;
use crate::procs::Procs;
use crate::searches::{Test, count_rows, first_row};
use crate::{BornThread, Caller, Life, ThreadRow, births, lists};
use lpc_base::Birth;
use lpc_message::ClientId;
use lpc_tokens::Impersonation;

impl<'t> Procs<'t> {
    /// The numbers are those of a live thread and of its process.
    pub fn live_thread(&self, client: ClientId) -> bool
        ensures live { result ≡ has (is_live_client client) self.now.threads }
    {
        match self
            .threads
            .get(thread_key(&self.used_threads, client.thread))
        {
            Some(t) => lists::is_client(t, client),
            None => false,
        }
    }

    /// The live thread that has the number, as a caller; None exactly where there is none.
    // Inlined, since each line asks for a caller several times, mostly for a part of it.
    #[inline(always)]
    pub fn live_row(&self, tid: u32) -> Option<Caller>
        ensures row { result
            ≡ option_map caller_of (first (is_live_thread tid) self.now.threads) }
    {
        match self.threads.get(thread_key(&self.used_threads, tid)) {
            Some(t) => lists::live_caller(t),
            None => None,
        }
    }

    /// How many threads are live, of all processes.
    pub fn alive(&self) -> usize
        ensures count { result ≡ count (λ t. t.live) self.now.threads }
        ensures bound { result ≤ length self.now.threads }
    {
        self.alive
    }

    /// How many threads have a row, the ended ones too.
    pub fn threads(&self) -> usize
        ensures count { result ≡ length self.now.threads }
    {
        self.threads.count()
    }

    /// The number of the first live thread of the process: None exactly where it has none.
    pub fn first_live(&self, pid: u32) -> Option<u32>
        ensures number { result ≡ first_thread (lives_in pid) self.now }
    {
        if !self.is_live(pid) {
            return None;
        }
        match self.first_of(pid, &LivesIn { pid }) {
            Some(t) => Some(t.number),
            None => None,
        }
    }

    /// The name of the thread at a place, and whether it is live. Places go from 0 in the order of making.
    pub fn thread_in(&self, place: usize) -> Life
        requires place { place < length self.now.threads }
        ensures life { option_map thread_life (slice_get self.now.threads place) ≡ Some result }
    {
        let t = row_at(&self.threads, place);
        Life {
            birth: t.birth,
            live: t.live,
        }
    }

    /// The thread at a place. Places go from 0 in the order of making.
    pub fn thread_at(&self, place: usize) -> &ThreadRow<'t>
        requires place { place < length self.now.threads }
        ensures thread { slice_get self.now.threads place ≡ Some result.now }
    {
        row_at(&self.threads, place)
    }

    /// The first thread that was made under the name, live or ended: None exactly where there is none.
    pub fn thread_born(&self, birth: Birth) -> Option<BornThread>
        ensures thread { result ≡ thread_born self.now birth }
    {
        match self.found_thread_born(birth) {
            Some(t) => Some(births::born_thread(t)),
            None => None,
        }
    }

    /// How many live threads were made under the name.
    pub fn lives_of_thread(&self, birth: Birth) -> usize
        ensures count { result ≡ count (is_life birth) self.now.threads }
        ensures bound { result ≤ length self.now.threads }
    {
        if self.thread_names.is_single() {
            return self.life_of_first(birth);
        }
        count_rows(&self.threads, &LifeOf { birth })
    }

    /// The thread, which has a row, has not ended.
    pub fn live(&self, tid: u32) -> bool
        requires present { is_some (thread_at self.now tid) ≡ true }
        ensures live { option_map (λ t. t.live) (thread_at self.now tid) ≡ Some result }
    {
        self.thread(tid).live
    }

    /// The token as which a thread, which has a row, acts for a client: None where it acts with that of its process.
    pub fn own(&self, tid: u32) -> Option<&Impersonation<'t>>
        requires present { is_some (thread_at self.now tid) ≡ true }
        ensures own { option_map (λ t. t.own) (thread_at self.now tid)
            ≡ Some (option_copied result) }
    {
        self.thread(tid).own.as_ref()
    }

    /// Gives a thread, which has a row, the token as which it acts for a client, or takes that away.
    pub fn set_own(&mut self, tid: u32, own: Option<Impersonation<'t>>)
        requires present { is_some (thread_at self.old tid) ≡ true }
        ensures table { self.new ≡ with_thread self.old tid (acting own.entry) }
    {
        match self.threads.get_mut(thread_key(&self.used_threads, tid)) {
            Some(row) => row.own = own,
            None => unreachable!(),
        }
    }

    /// The thread's next message identifier. The one that it draws after this is greater by one. The thread has a row,
    /// and has drawn fewer than 2^32 - 2 before.
    pub fn draw_identifier(&mut self, tid: u32) -> u32
        requires identifier_left { IsSomeAnd (thread_at self.old tid) HasIdentifierLeft }
        ensures identifier { option_map (λ t. t.next_identifier) (thread_at self.old tid)
            ≡ Some result }
        ensures table { self.new ≡ with_thread self.old tid past_identifier }
    {
        let drawer = thread_key(&self.used_threads, tid);
        match self.threads.get_mut(drawer) {
            Some(row) => {
                let identifier = row.next_identifier;
                row.next_identifier = identifier + 1;
                identifier
            }
            None => unreachable!(),
        }
    }

    /// The name of the object that the thread makes. The ordinal that it draws after this is greater by one. The thread
    /// has a row, and has drawn fewer than 2^32 - 2 before.
    pub fn draw_birth(&mut self, tid: u32) -> Birth
        requires ordinal_left { IsSomeAnd (thread_at self.old tid) HasOrdinalLeft }
        ensures birth { option_map procs.next_birth (thread_at self.old tid) ≡ Some result }
        ensures table { self.new ≡ with_thread self.old tid past_birth }
    {
        match self.threads.get_mut(thread_key(&self.used_threads, tid)) {
            Some(row) => {
                let birth = lists::next_birth(row);
                row.next_ordinal += 1;
                birth
            }
            None => unreachable!(),
        }
    }

    /// The birth that the thread's next `draw_birth` gives. The thread has a row.
    pub fn next_birth(&self, tid: u32) -> Birth
        requires present { is_some (thread_at self.now tid) ≡ true }
        ensures birth { option_map procs.next_birth (thread_at self.now tid) ≡ Some result }
    {
        lists::next_birth(self.thread(tid))
    }

    // How many live threads the first thread of the name is: 1 or 0.
    fn life_of_first(&self, birth: Birth) -> usize
        ensures { result ≡ life_of_first (first (is_thread_born birth) self.now.threads) }
    {
        match self.found_thread_born(birth) {
            Some(t) => births::life_count(t),
            None => 0,
        }
    }

    /// The row of a thread that is present.
    pub(crate) fn thread(&self, tid: u32) -> &ThreadRow<'t>
        requires { is_some (thread_at self.now tid) ≡ true }
        ensures { thread_at self.now tid ≡ Some result.now }
    {
        match self.found_thread(tid) {
            Some(row) => row,
            None => unreachable!(),
        }
    }

    /// The thread of a number.
    pub(crate) fn found_thread(&self, tid: u32) -> Option<&ThreadRow<'t>>
        ensures { option_copied result ≡ thread_at self.now tid }
    {
        self.threads.get(thread_key(&self.used_threads, tid))
    }

    /// The first thread that passes, where only threads of the process do.
    pub(crate) fn first_of<Q: Test<ThreadRow<'t>>>(
        &self,
        pid: u32,
        asked: &Q,
    ) -> Option<&ThreadRow<'t>>
        requires { PassesOnly pid (Q.test asked.now) }
        ensures { option_copied result ≡ first (Q.test asked.now) self.now.threads }
    {
        match self.members.of(process_rank(&self.used_processes, pid)) {
            Some(members) => self.first_among(members, asked),
            None => first_row(&self.threads, asked),
        }
    }

    // The first of these threads that passes.
    fn first_among<Q: Test<ThreadRow<'t>>>(
        &self,
        members: &[Member],
        asked: &Q,
    ) -> Option<&ThreadRow<'t>>
        ensures { let rows = rows_of self.now.threads members.now in
            option_copied result ≡ first (Q.test asked.now) rows }
    {
        for member in members {
            if let Some(row) = self.found_thread(member.thread) {
                if asked.passes(row) {
                    return Some(row);
                }
            }
        }
        None
    }

    /// The first thread of the name.
    pub(crate) fn found_thread_born(&self, birth: Birth) -> Option<&ThreadRow<'t>>
        ensures { option_copied result ≡ first (is_thread_born birth) self.now.threads }
    {
        if !self.thread_names.is_single() {
            return first_row(&self.threads, &ThreadNamed { birth });
        }
        match self.thread_names.number_named(birth) {
            Some(tid) => self.threads.get(thread_key(&self.used_threads, tid)),
            None => None,
        }
    }
}
