// The threads and the processes that may have lost the last row that counted for them.
ghost use Rattle.std.specs.Prelude.{◌≡◌, slice_get};
ghost use Rattle.lpc_base.specs.Rows.{without};
ghost use Rattle.lpc_base.specs.Births.{same_birth};
ghost use Rattle.lpc_rows.specs.Suspects.{no_lives, suspecting_named, suspecting_process, suspecting_thread};
ghost use Rattle.lpc_world.specs.Suspected.{first_life, process_suspect};

use arrayvec::ArrayVec;
use lpc_base::Birth;
use lpc_handles::Row;
use lpc_homes::Object;
use std::marker::Model;

/// Which thread or process a sweep is to look at.
#[derive(Clone, Copy)]
pub enum LifeSuspect {
    /// No thread and no process may have lost the last row that counted for it.
    Nobody,
    /// The thread with a birth may have, where its row stands there still.
    Thread(Birth),
    /// The process with a birth may have, where its row stands there still.
    Process(Birth),
    /// Any thread and any process may have.
    Anybody,
}

/// The threads and the processes that may have lost the last row that counted for them since the last sweep, by their
/// births, as long as there is a place for each; else any may have.
#[derive(Drop)]
pub(crate) struct SuspectedLives {
    threads: ArrayVec<Birth, 8>,
    processes: ArrayVec<Birth, 8>,
    any: bool,
}

impl Model for SuspectedLives {
    ghost use Rattle.lpc_rows.specs.Suspects.{LifeTable};

    ghost Value = { LifeTable };

    ghost view = { λ s. record { threads = s.threads.items; processes = s.processes.items; any = s.any } };
}

impl SuspectedLives {
    /// No thread and no process is suspected.
    pub(crate) fn nobody() -> SuspectedLives
        ensures { result ≡ no_lives }
    {
        SuspectedLives {
            threads: ArrayVec::new(),
            processes: ArrayVec::new(),
            any: false,
        }
    }

    /// No thread and no process is suspected any longer.
    pub(crate) fn clear(&mut self)
        ensures { self.new ≡ no_lives }
    {
        self.threads.clear();
        self.processes.clear();
        self.any = false;
    }

    /// A thread is suspected, and any thread and process where there is no place for it.
    pub(crate) fn suspect_thread(&mut self, birth: Birth)
        ensures { self.new ≡ suspecting_thread birth self.old }
    {
        if self.threads.len() < 8 {
            self.threads.push(birth);
        } else {
            self.any = true;
        }
    }

    /// A process is suspected, and any thread and process where there is no place for it.
    pub(crate) fn suspect_process(&mut self, birth: Birth)
        ensures { self.new ≡ suspecting_process birth self.old }
    {
        if self.processes.len() < 8 {
            self.processes.push(birth);
        } else {
            self.any = true;
        }
    }

    /// The thread or the process is suspected that a handle names, where there is such a handle and it names one.
    pub(crate) fn suspect_named(&mut self, handle: Option<Row<Object>>)
        ensures { self.new ≡ suspecting_named handle self.old }
    {
        if let Some(row) = handle {
            match row.object {
                Object::Thread(birth) => self.suspect_thread(birth),
                Object::Process(birth) => self.suspect_process(birth),
                Object::Port(_) | Object::Section(_) | Object::Token(_) => (),
            }
        }
    }

    /// A thread is suspected no longer.
    pub(crate) fn remove_thread(&mut self, birth: Birth)
        ensures { self.new ≡ record self.old {
          threads = without (same_birth birth) self.old.threads;
        } }
    {
        forget(&mut self.threads, birth);
    }

    /// A process is suspected no longer.
    pub(crate) fn remove_process(&mut self, birth: Birth)
        ensures { self.new ≡ record self.old {
          processes = without (same_birth birth) self.old.processes;
        } }
    {
        forget(&mut self.processes, birth);
    }

    /// Which is to be looked at next: the thread that is suspected longest, and behind the threads the process that is,
    /// where not any thread and process is.
    pub(crate) fn first(&self) -> LifeSuspect
        ensures { result ≡ first_life self.now }
    {
        if self.any {
            return LifeSuspect::Anybody;
        }
        match self.threads.first() {
            Some(birth) => LifeSuspect::Thread(*birth),
            None => first_process(&self.processes),
        }
    }
}

// The process that is suspected longest.
fn first_process(processes: &ArrayVec<Birth, 8>) -> LifeSuspect
    ensures { result ≡ process_suspect (slice_get processes.now.items 0) }
{
    match processes.first() {
        Some(birth) => LifeSuspect::Process(*birth),
        None => LifeSuspect::Nobody,
    }
}

// Takes a birth away; the others keep their order.
fn forget(births: &mut ArrayVec<Birth, 8>, birth: Birth)
    ensures { births.new.items ≡ without (same_birth birth) births.old.items }
{
    births.retain(|other| birth != *other);
}
