// Threads that end, and rows that go.
ghost use Rattle.std.specs.Prelude.{◌≡◌, ◌≤◌, ◌+◌, true, false, length, is_some};
ghost use Rattle.lpc_base.specs.Rows.{has, without_first};
ghost use Rattle.lpc_procs.specs.Procs.{ended, is_life, is_process_born, is_thread_born, thread_at, with_thread, without_process_born, without_thread_born};

use crate::keys::{process_key, process_rank, thread_key};
use crate::procs::Procs;
use crate::{births, exceptions, lists};
use lpc_base::Birth;

impl<'t> Procs<'t> {
    /// The thread, which has a row, is live no more.
    pub fn end_thread(&mut self, tid: u32)
        requires present { is_some (thread_at self.old tid) ≡ true }
        ensures table { self.new ≡ with_thread self.old tid ended }
    {
        let row = self.thread(tid);
        if !row.live {
            return;
        }
        let pid = row.process;
        let live = self.live_count(pid) - 1;
        self.dooms = lists::recount(
            &mut self.processes,
            process_key(&self.used_processes, pid),
            live,
            self.dooms,
            &mut self.children,
        );
        match self.threads.get_mut(thread_key(&self.used_threads, tid)) {
            Some(row) => row.live = false,
            None => unreachable!(),
        }
        self.alive -= 1;
    }

    /// Removes the rows of the processes that were made under the name. Their numbers stay used, so the room need not
    /// grow. It grows by as many rows at most.
    pub fn free_process_born(&mut self, birth: Birth)
        ensures table { self.new ≡ without_process_born self.old birth self.new.process_room }
        ensures room { self.old.process_room ≤ self.new.process_room }
        ensures most { let old = self.old in let new = self.new in
            new.process_room + length new.processes ≤ old.process_room + length old.processes }
    {
        while self.lose_process_born(birth) {}
    }

    /// Removes the rows of the threads that were made under the name, of which none is live. Their numbers stay used,
    /// so the room need not grow. It grows by as many rows at most.
    pub fn free_thread_born(&mut self, birth: Birth)
        requires ended { has (is_life birth) self.old.threads ≡ false }
        ensures table { self.new ≡ without_thread_born self.old birth self.new.thread_room }
        ensures room { self.old.thread_room ≤ self.new.thread_room }
        ensures most { let old = self.old in let new = self.new in
            new.thread_room + length new.threads ≤ old.thread_room + length old.threads }
    {
        while self.lose_thread_born(birth) {}
    }

    // Takes away the first process of the name, and answers whether there was one.
    fn lose_process_born(&mut self, birth: Birth) -> bool
        ensures went { result ≡ has (is_process_born birth) self.old.processes }
        ensures table { self.new ≡ record self.old {
          processes = without_first (is_process_born birth) self.old.processes;
          process_room = self.new.process_room;
        } }
        ensures room { self.old.process_room ≤ self.new.process_room }
        ensures most { let old = self.old in let new = self.new in
            new.process_room + length new.processes ≤ old.process_room + length old.processes }
    {
        let pid = match self.process_born(birth) {
            Some(pid) => pid,
            None => return false,
        };
        match self
            .processes
            .remove(process_key(&self.used_processes, pid))
        {
            Some(process) => {
                self.dooms -= exceptions::doomed_count(&process);
                self.watched -= exceptions::watched_count(&process);
                self.children.give_up_if(births::is_peopled(&process));
                self.told_tags.give_up_if(exceptions::is_watched(&process));
                self.process_names.remove_name(birth);
                true
            }
            None => unreachable!(),
        }
    }

    // Takes away the first thread of the name, and answers whether there was one. None of the name is live.
    fn lose_thread_born(&mut self, birth: Birth) -> bool
        requires ended { has (is_life birth) self.old.threads ≡ false }
        ensures went { result ≡ has (is_thread_born birth) self.old.threads }
        ensures table { self.new ≡ record self.old {
          threads = without_first (is_thread_born birth) self.old.threads;
          thread_room = self.new.thread_room;
        } }
        ensures room { self.old.thread_room ≤ self.new.thread_room }
        ensures most { let old = self.old in let new = self.new in
            new.thread_room + length new.threads ≤ old.thread_room + length old.threads }
    {
        let tid = match self.thread_born(birth) {
            Some(thread) => thread.number,
            None => return false,
        };
        match self.threads.remove(thread_key(&self.used_threads, tid)) {
            Some(thread) => {
                let forgotten = thread.registered.len();
                self.registered -= forgotten;
                self.tags.give_up_if(forgotten > 0);
                self.thread_names.remove_name(birth);
                let rank = process_rank(&self.used_processes, thread.process);
                self.members.remove(rank, thread.number);
                true
            }
            None => unreachable!(),
        }
    }
}
