// Events of exceptions and their marks, the ports that are told of a process's exceptions, and processes that are to end.
ghost use Rattle.std.specs.Prelude.{◌≡◌, ◌*◌, ◌≤◌, ◌∷◌, [], false, true, IfNone, IfSome, drop, option_and_then, option_map};
ghost use Rattle.lpc_base.specs.Rows.{first, has};
ghost use Rattle.lpc_model.specs.Basics.{Dooms, LetsGo, Marks, SetsDebug, SetsException};
ghost use Rattle.lpc_model.specs.Close.{is_event_on, is_queued_event};
ghost use Rattle.lpc_model.specs.Found.{is_born_process, is_live_thread, is_mark, is_process, is_table, waits_as, wait_of};
ghost use Rattle.lpc_model.specs.Raise.{event_port_of, raised_in};
ghost use Rattle.lpc_model.specs.Settle.{doomed_processes, has_event, least};
ghost use Rattle.lpc_rows.specs.Clauses.{FindsWait, IsOwnWait, after, birth_at, has_process};
ghost use Rattle.lpc_rows.specs.Kept.{CALL_BUDGET, IsStep, has_queued};
ghost use Rattle.lpc_rows.specs.Names.{stands};
ghost use Rattle.lpc_rows.specs.Raised.{doomed_as};
ghost use Rattle.lpc_rows.specs.Shown.{shown_chance, shown_raised};
ghost use Rattle.lpc_world.specs.Suspected.{AreHearers};

use crate::world::World;
use lpc_base::Birth;
use lpc_procs::{Doomed, Registration};
use lpc_slots::Key;
use lpc_waits::{Chance, Raised};

// The key of a port that was registered.
fn key_of(port: Option<Registration>) -> Option<Key>
    ensures { result ≡ option_map (λ r. r.port) port }
{
    Some(port?.port)
}

impl<'t> World<'t> {
    // Events.

    /// The thread that waits with an event that was sent on a port, of those that aren't marked the one that has waited
    /// longest.
    pub fn event_on(&self, port: Key) -> Option<u32>
        requires { stands self.now.births.ports port ≡ true }
        ensures found { FindsWait self.now
            (is_event_on (birth_at self.now port) self.now.rows) result }
        ensures waits { IfSome result (λ tid. has (waits_as tid) self.now.rows.waits ≡ true) }
        ensures thread { IfSome result (λ tid. IsOwnWait self.now.rows tid) }
        ensures event { IfSome result (λ tid. has_event self.now.rows tid ≡ true) }
        ensures unmarked { IfSome result (λ tid. has (is_mark tid) self.now.rows.marks ≡ false) }
    {
        self.waits.event_on(port, self.marks.list())
    }

    /// The thread that waits with an event on a queue, of those that aren't received and aren't marked the one that has
    /// waited longest.
    pub fn unreceived_event_in(&self, queue: Key) -> Option<u32>
        requires { stands self.now.births.ports queue ≡ true }
        ensures found { FindsWait self.now
            (is_queued_event (birth_at self.now queue) self.now.rows) result }
        ensures waits { IfSome result (λ tid. has (waits_as tid) self.now.rows.waits ≡ true) }
        ensures thread { IfSome result (λ tid. IsOwnWait self.now.rows tid) }
        ensures event { IfSome result (λ tid. has_event self.now.rows tid ≡ true) }
        ensures unmarked { IfSome result (λ tid. has (is_mark tid) self.now.rows.marks ≡ false) }
    {
        self.waits.unreceived_event_in(queue, self.marks.list())
    }

    /// The exception of whose event a thread waits.
    pub fn raised(&self, tid: u32) -> Option<Raised>
        ensures raised { option_map shown_raised result
            ≡ option_and_then raised_in (wait_of self.now.rows tid) }
    {
        self.waits.raised(tid)
    }

    /// The thread whose event was marked first, of those that are marked.
    pub fn first_mark(&self) -> Option<u32>
        ensures none { IfNone result (self.now.rows.marks ≡ []) }
        ensures first { IfSome result
            (λ tid. self.now.rows.marks ≡ tid ∷ drop 1 self.now.rows.marks) }
        ensures event { IfSome result (λ tid. has_event self.now.rows tid ≡ true) }
        ensures waits { IfSome result (λ tid. has (waits_as tid) self.now.rows.waits ≡ true) }
        ensures live { IfSome result
            (λ tid. has (is_live_thread tid) self.now.rows.threads ≡ true) }
        ensures left { IfSome result (λ tid. has_queued self.now.rows tid ≡ false) }
        ensures budget { self.now.made ≤ CALL_BUDGET * self.now.calls }
    {
        self.marks.first()
    }

    /// The event of a thread is marked, which isn't marked yet, and of which no own message stands in a queue.
    pub fn events_mark(&mut self, tid: u32)
        requires event { has_event self.old.rows tid ≡ true }
        requires unmarked { has (is_mark tid) self.old.rows.marks ≡ false }
        requires left { has_queued self.old.rows tid ≡ false }
        ensures step { IsStep (after self.old (Marks tid)) self.old self.new }
        ensures loose { self.new.loose ≡ self.old.loose }
        ensures capacity { self.new.capacity ≡ self.old.capacity }
    {
        self.marks.add(tid);
    }

    // The ports that are told of a process's exceptions.

    /// The port that is told of the exceptions of a process at a chance.
    pub fn event_port(&self, pid: u32, chance: Chance) -> Option<Key>
        requires process { has_process self.now.rows pid ≡ true }
        ensures port { option_map (birth_at self.now) result
            ≡ event_port_of self.now.rows pid (shown_chance chance) }
        ensures stands { IfSome result (λ key. stands self.now.births.ports key ≡ true) }
    {
        match chance {
            Chance::FirstDebug => key_of(self.procs.debug_port(pid)),
            Chance::LastDebug => key_of(self.procs.debug_port(pid)),
            Chance::LastException => key_of(self.procs.exception_port(pid)),
        }
    }

    /// The ports that are told of the exceptions of a process: its debug port, and its exception port.
    pub(super) fn hearers(&self, pid: u32) -> (Option<Key>, Option<Key>)
        requires process { has_process self.now.rows pid ≡ true }
        ensures { let found = first (is_process pid) self.now.rows.processes in
            AreHearers self.now.births.ports found result.0 result.1 }
    {
        (
            self.event_port(pid, Chance::FirstDebug),
            self.event_port(pid, Chance::LastException),
        )
    }

    /// The same of the process with a birth: none where no process has it.
    pub(super) fn hearers_born(&self, birth: Birth) -> (Option<Key>, Option<Key>)
        ensures { let found = first (is_born_process birth) self.now.rows.processes in
            AreHearers self.now.births.ports found result.0 result.1 }
    {
        match self.procs.process_born(birth) {
            Some(pid) => self.hearers(pid),
            None => (None, None),
        }
    }

    /// A process gets its debug port.
    pub fn procs_set_debug_port(&mut self, pid: u32, port: Key)
        requires process { has_process self.old.rows pid ≡ true }
        requires port { stands self.old.births.ports port ≡ true }
        ensures step { let left = after self.old (SetsDebug pid (birth_at self.old port)) in
            IsStep left self.old self.new }
        ensures loose { self.new.loose ≡ true }
        ensures capacity { self.new.capacity ≡ self.old.capacity }
    {
        let birth = self.port(port).birth;
        let hearers = self.hearers(pid);
        self.loose = true;
        self.procs.set_debug_port(pid, port, birth);
        self.suspects.add_both(hearers);
    }

    /// A process gets its exception port.
    pub fn procs_set_exception_port(&mut self, pid: u32, port: Key)
        requires process { has_process self.old.rows pid ≡ true }
        requires port { stands self.old.births.ports port ≡ true }
        ensures step { let left = after self.old (SetsException pid (birth_at self.old port)) in
            IsStep left self.old self.new }
        ensures loose { self.new.loose ≡ true }
        ensures capacity { self.new.capacity ≡ self.old.capacity }
    {
        let birth = self.port(port).birth;
        let hearers = self.hearers(pid);
        self.loose = true;
        self.procs.set_exception_port(pid, port, birth);
        self.suspects.add_both(hearers);
    }

    /// A process lets both ports go.
    pub fn procs_let_go(&mut self, pid: u32)
        requires process { has_process self.old.rows pid ≡ true }
        ensures step { IsStep (after self.old (LetsGo pid)) self.old self.new }
        ensures loose { self.new.loose ≡ true }
        ensures capacity { self.new.capacity ≡ self.old.capacity }
    {
        let hearers = self.hearers(pid);
        self.loose = true;
        self.procs.let_go(pid);
        self.suspects.add_both(hearers);
    }

    // Processes that are to end.

    /// A process is to end with a code; one that is already keeps its first code.
    pub fn procs_doom(&mut self, pid: u32, code: u32)
        requires process { has_process self.old.rows pid ≡ true }
        ensures step { IsStep (after self.old (Dooms pid code)) self.old self.new }
        ensures loose { self.new.loose ≡ self.old.loose }
        ensures capacity { self.new.capacity ≡ self.old.capacity }
    {
        self.procs.set_doom(pid, code);
    }

    /// Of the live processes that are to end the one of the least number, with its code.
    pub fn least_doomed(&self) -> Option<Doomed>
        ensures found { result ≡ option_map doomed_as (least (doomed_processes self.now.rows)) }
        ensures process { IfSome result (λ p. has_process self.now.rows p.number ≡ true) }
        ensures table { IfSome result
            (λ p. has (is_table p.number) self.now.rows.handles ≡ true) }
    {
        self.procs.least_doomed()
    }
}
