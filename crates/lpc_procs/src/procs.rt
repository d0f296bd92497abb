// The table of processes and threads.
ghost use Rattle.std.specs.Prelude.{◌≡◌, ◌-◌, ◌<◌, ◌≤◌, ◌++◌, ◌∷◌, [], true, false, is_some, None, Some, OnOk, OnErr, IfSome};
ghost use Rattle.lpc_base.specs.Room.{grown_room};
ghost use Rattle.lpc_procs.specs.Procs as procs;
ghost use Rattle.lpc_procs.specs.Procs.{IsNumber, birth_of, most_rows, nothing, process_at, thread_at, used_process, with_room};

mod endings;
mod events;
mod processes;
mod registered;
mod threads;

use crate::keys::{Use, process_key, process_rank};
use crate::members::Members;
use crate::rows::Counted;
use crate::{Number, ProcessRow, ThreadRow, lists};
use arrayvec::ArrayVec;
use lpc_base::{Birth, OutOfMemory};
use lpc_numbers::{Named, Numbered, Tally};
use lpc_slots::{Key, Slots};
use lpc_tokens::TokenRef;
use std::alloc::Global;
use std::marker::Model;

// For so many tags of ports there is room beside one for each thread, and for each process: one thread may register
// several ports.
const SPARE_TAGS: usize = 64;

/// The processes and threads of a machine, and every number that was ever used for one.
///
/// A number is used once. It stays used when the row of its process or thread goes, so no number names two things in a
/// run. Contracts see the rows in order of making, the used numbers, and the room; they don't see the keys under which
/// rows stand, the maps by which a number or a name leads to its row, nor the counts that are kept: of live threads, of
/// those of each process, of registrations, of live processes that are to end, of processes of whose exceptions a port
/// is told, of registrations and of such ports by the tags of their names, and of the live processes that each made;
/// nor that the threads of each process stand together once more, so that those of one are found without a look at the
/// others.
pub struct Procs<'t> {
    processes: Slots<Counted<'t>>,
    threads: Slots<ThreadRow<'t>>,
    process_names: Named,
    thread_names: Named,
    used_processes: Numbered<Key>,
    used_threads: Numbered<Use>,
    alive: usize,
    registered: usize,
    dooms: usize,
    watched: usize,
    children: Tally,
    members: Members,
    tags: Tally,
    told_tags: Tally,
}

impl<'t> Model for Procs<'t> {
    ghost use Rattle.std.specs.Prelude.{min};
    ghost use Rattle.lpc_procs.specs.Procs.{Table};
    ghost use Rattle.lpc_procs.specs.Kept.{IsStored, process_rows, rows_in, used_rows};
    ghost use Rattle.lpc_numbers.specs.Numbered.{numbers};

    ghost Value = { Table };

    ghost view = { λ s. record {
      processes = process_rows (rows_in s.processes);
      threads = rows_in s.threads;
      used_processes = numbers s.used_processes.entries;
      used_threads = used_rows s.used_threads.entries;
      process_room = min s.processes.spare (min s.process_names.room s.used_processes.room);
      thread_room = min s.threads.spare (min s.thread_names.room s.used_threads.room);
    } };

    ghost invariant = { λ s. IsStored
        s.processes s.threads s.used_processes.entries s.used_threads.entries
        s.process_names s.thread_names s.alive s.registered s.dooms s.watched
        s.children s.members s.tags s.told_tags };
}

// Written out, so that a proof about what holds these tables lets them go in one step, and not map by map.
impl<'t> Drop for Procs<'t> {
    fn drop(self) {
        let Procs {
            processes: _,
            threads: _,
            process_names: _,
            thread_names: _,
            used_processes: _,
            used_threads: _,
            alive: _,
            registered: _,
            dooms: _,
            watched: _,
            children: _,
            members: _,
            tags: _,
            told_tags: _,
        } = self;
    }
}

impl<'t> Procs<'t> {
    /// No process, no thread, no number used and no room. It takes no memory, and keeps the allocator for `reserve`.
    pub fn new(alloc: Global) -> Procs<'t>
        ensures empty { result ≡ nothing }
    {
        Procs {
            processes: Slots::new(alloc),
            threads: Slots::new(alloc),
            process_names: Named::new(alloc),
            thread_names: Named::new(alloc),
            used_processes: Numbered::new(alloc),
            used_threads: Numbered::new(alloc),
            alive: 0,
            registered: 0,
            dooms: 0,
            watched: 0,
            children: Tally::new(alloc),
            members: Members::new(alloc),
            tags: Tally::new(alloc),
            told_tags: Tally::new(alloc),
        }
    }

    /// Makes room for so many further processes and threads, and for their numbers. Room that is there already counts.
    ///
    /// `OutOfMemory` comes where the memory for it is wanting; all but the room stays as it was, and the room never
    /// shrinks.
    pub fn reserve(&mut self, processes: usize, threads: usize) -> Result<(), OutOfMemory>
        ensures processes { OnOk result (processes ≤ self.new.process_room) }
        ensures threads { OnOk result (threads ≤ self.new.thread_room) }
        ensures wanting { OnErr result
            (processes ≤ self.old.process_room → self.old.thread_room < threads) }
        ensures lacking { OnErr result
            (processes ≤ self.new.process_room → self.new.thread_room < threads) }
        ensures same { self.new ≡ with_room self.old self.new.process_room self.new.thread_room }
        ensures process_room { self.old.process_room ≤ self.new.process_room }
        ensures thread_room { self.old.thread_room ≤ self.new.thread_room }
        ensures most_processes { let rows = most_rows self.old.processes self.old.used_processes in
            self.new.process_room ≤ grown_room self.old.process_room processes rows }
        ensures most_threads { let rows = most_rows self.old.threads self.old.used_threads in
            self.new.thread_room ≤ grown_room self.old.thread_room threads rows }
        ensures enough_processes { processes ≤ self.old.process_room →
            self.new.process_room ≡ self.old.process_room }
        ensures enough_threads { threads ≤ self.old.thread_room →
            self.new.thread_room ≡ self.old.thread_room }
    {
        self.processes.reserve(processes)?;
        self.process_names
            .reserve(processes, self.processes.count())?;
        self.used_processes.reserve(processes)?;
        let all_processes = self.processes.count().saturating_add(processes);
        let all_threads = self.threads.count().saturating_add(threads);
        self.children.promise(all_processes);
        self.told_tags
            .promise(all_processes.saturating_add(SPARE_TAGS));
        self.members.promise(threads);
        self.tags.promise(all_threads.saturating_add(SPARE_TAGS));
        self.threads.reserve(threads)?;
        self.thread_names.reserve(threads, self.threads.count())?;
        self.used_threads.reserve(threads)
    }

    /// Adds a process under a number that no process ever had, made by the process `maker` or by a directive, with this
    /// token. No port is told of its exceptions, and it isn't to end. There is spare room for it, and the number is from
    /// 1 to 2,147,483,647.
    pub fn add_process(&mut self, pid: u32, maker: Option<u32>, birth: Birth, token: &TokenRef<'t>)
        requires room { 0 < self.old.process_room }
        requires number { IsNumber pid }
        requires new { procs.was_used self.old (Number.Process pid) ≡ false }
        ensures table { self.new ≡ record self.old {
          processes = self.old.processes ++ (record {
            number = pid;
            maker = maker;
            birth = birth;
            token = token.now;
            debug_port = None;
            exception_port = None;
            doom = None;
          }) ∷ [];
          used_processes = self.old.used_processes ++ pid ∷ [];
          process_room = self.old.process_room - 1;
        } }
    {
        let row = ProcessRow {
            number: pid,
            maker,
            birth,
            token: token.copy(),
            debug_port: None,
            exception_port: None,
            doom: None,
        };
        let key = self.processes.insert_reserved(Counted { row, live: 0 });
        self.process_names.add(pid, birth);
        self.used_processes.add(pid, key);
    }

    /// Adds a live thread to a process that has a row, under a number that no thread ever had. Its identifiers and
    /// ordinals start from 1, it registered no port, and it acts with the token of its process. There is spare room for
    /// it, and the number is from 1 to 2,147,483,647.
    pub fn add_thread(&mut self, tid: u32, pid: u32, birth: Birth)
        requires room { 0 < self.old.thread_room }
        requires number { IsNumber tid }
        requires new { procs.was_used self.old (Number.Thread tid) ≡ false }
        requires process { is_some (process_at self.old pid) ≡ true }
        ensures table { self.new ≡ record self.old {
          threads = self.old.threads ++ (record {
            number = tid;
            process = pid;
            birth = birth;
            live = true;
            next_identifier = 1;
            next_ordinal = 1;
            registered = record { items = [] };
            own = None;
          }) ∷ [];
          used_threads = self.old.used_threads ++ (record { number = tid; process = pid }) ∷ [];
          thread_room = self.old.thread_room - 1;
        } }
    {
        let live = self.live_count(pid) + 1;
        self.dooms = lists::recount(
            &mut self.processes,
            process_key(&self.used_processes, pid),
            live,
            self.dooms,
            &mut self.children,
        );
        let key = self.threads.insert_reserved(ThreadRow {
            number: tid,
            process: pid,
            birth,
            live: true,
            next_identifier: 1,
            next_ordinal: 1,
            registered: ArrayVec::new(),
            own: None,
        });
        self.thread_names.add(tid, birth);
        self.used_threads.add(tid, Use { process: pid, key });
        self.members
            .add(process_rank(&self.used_processes, pid), tid);
        self.alive += 1;
    }

    /// The number was ever used for a process, or for a thread; its row may have gone.
    pub fn was_used(&self, number: Number) -> bool
        ensures used { result ≡ procs.was_used self.now number }
    {
        match number {
            Number::Process(pid) => self.used_processes.has(pid),
            Number::Thread(tid) => self.used_threads.has(tid),
        }
    }

    /// The process of a thread number that was ever used, also where the thread's row has gone; None exactly where the
    /// number was never used for a thread.
    pub fn process_of(&self, tid: u32) -> Option<u32>
        ensures process { result ≡ used_process self.now.used_threads tid }
        ensures row { IfSome (thread_at self.now tid) (λ t. result ≡ Some t.process) }
    {
        match self.used_threads.get(tid) {
            Some(used) => Some(used.process),
            None => None,
        }
    }

    /// The birth of a process or thread that has a row.
    pub fn birth(&self, number: Number) -> Birth
        requires present { is_some (birth_of self.now number) ≡ true }
        ensures birth { birth_of self.now number ≡ Some result }
    {
        match number {
            Number::Process(pid) => self.process(pid).birth,
            Number::Thread(tid) => self.thread(tid).birth,
        }
    }
}
