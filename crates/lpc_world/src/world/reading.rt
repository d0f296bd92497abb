// What is found in the world, in the definitions' words. An object that is found by its key stands.
ghost use Rattle.std.specs.Prelude.{◌≡◌, ◌<◌, None, Some, true, false, is_none, IfSome, length, option_map};
ghost use Rattle.lpc_base.specs.Rows.{count, has};
ghost use Rattle.lpc_model.specs.Found as found;
ghost use Rattle.lpc_model.specs.Found.{datagrams, handle_at, is_live_thread, is_request, is_table, is_thread, live_count, same_birth, waits_as, waits_at, was_process, was_thread};
ghost use Rattle.lpc_model.specs.Message.{message_of};
ghost use Rattle.lpc_model.specs.World.{Request};
ghost use Rattle.lpc_rows.specs.Lawful.{are_single};
ghost use Rattle.lpc_rows.specs.Names.{are_apart, some_stands, stands};
ghost use Rattle.lpc_rows.specs.Callers.{as_caller};
ghost use Rattle.lpc_rows.specs.Shown.{birth_of, object_stands, shown_creator};
ghost use Rattle.lpc_rows.specs.Kept.{OwnPend, has_queued, is_alive, is_pending_in};
ghost use Rattle.lpc_rows.specs.Ready.{HasRow, IsWait, caller, is_ready, waiter};
ghost use Rattle.lpc_rows.specs.Clauses.{Finds, FindsWait, IsOwnWait, birth_at, has_process, has_table, is_quiet_for, oldest, port_at, row_at, row_shown, some_birth, takes_at, thread_row};

use crate::world::World;
use lpc_base::Birth;
use lpc_handles::Row;
use lpc_homes::Object;
use lpc_ports::Port;
use lpc_procs::{Caller, Number};
use lpc_slots::Key;
use lpc_waits::Wait;

impl<'t> World<'t> {
    // Threads and processes.

    /// A live thread, as a caller: None exactly where no live thread has the number.
    pub fn live_thread(&self, tid: u32) -> Option<Caller>
        ensures row { result ≡ option_map as_caller (found.live_thread self.now.rows tid) }
        ensures table { IfSome result (λ it. has (is_table it.process) self.now.rows.handles
            ≡ true) }
        ensures process { IfSome result (λ it. has_process self.now.rows it.process ≡ true) }
    {
        self.procs.live_row(tid)
    }

    /// A thread that can make a call, as a caller.
    // Inlined, since each call asks for it and mostly uses a part of it.
    #[inline(always)]
    pub fn caller(&self, tid: u32) -> Caller
        requires { is_ready self.now.rows tid ≡ true }
        ensures row { result ≡ as_caller (caller self.now.rows tid) }
        ensures number { result.number ≡ tid }
        ensures found { option_map as_caller (thread_row self.now.rows result.number)
            ≡ Some result }
        ensures whole { thread_row self.now.rows tid ≡ Some (caller self.now.rows tid) }
        ensures stands { has (is_thread tid) self.now.rows.threads ≡ true }
        ensures live { has (is_live_thread tid) self.now.rows.threads ≡ true }
        ensures ready { has (waits_as tid) self.now.rows.waits ≡ false }
        ensures process { has_process self.now.rows result.process ≡ true }
        ensures table { has (is_table result.process) self.now.rows.handles ≡ true }
        ensures few { length self.now.rows.waits < count is_alive self.now.rows.threads }
    {
        match self.procs.live_row(tid) {
            Some(row) => row,
            None => unreachable!(),
        }
    }

    /// The number was ever used for a process.
    pub fn was_process(&self, pid: u32) -> bool
        ensures { result ≡ was_process self.now.rows pid }
    {
        self.procs.was_used(Number::Process(pid))
    }

    /// The number was ever used for a thread.
    pub fn was_thread(&self, tid: u32) -> bool
        ensures { result ≡ was_thread self.now.rows tid }
    {
        self.procs.was_used(Number::Thread(tid))
    }

    /// The process has a live thread.
    pub fn is_live(&self, pid: u32) -> bool
        ensures live { result ≡ found.is_live self.now.rows pid }
        ensures process { result ≡ true → has_process self.now.rows pid ≡ true }
        ensures table { result ≡ true → has_table self.now.rows pid ≡ true }
    {
        self.procs.is_live(pid)
    }

    /// How many live threads a process has.
    pub fn live_count(&self, pid: u32) -> usize
        ensures { result ≡ live_count self.now.rows pid }
    {
        self.procs.live_count(pid)
    }

    // Handles.

    /// What the handle of a process with a value names and grants: None exactly where no handle has the value.
    pub fn handle(&self, pid: u32, value: u32) -> Option<Row<Object>>
        requires { has (is_table pid) self.now.rows.handles ≡ true }
        ensures row { Finds result (row_shown self.now value) (handle_at self.now.rows pid value) }
        ensures stands { IfSome result (λ row. object_stands self.now.births row.object ≡ true) }
        ensures object { IfSome result (λ row. HasRow self.now row.object) }
    {
        self.parts.handles_of(pid).get(value)
    }

    /// A handle names the port.
    pub fn is_open(&self, port: Key) -> bool
        requires { stands self.now.births.ports port ≡ true }
        ensures { result ≡ found.is_open self.now.rows (birth_at self.now port) }
    {
        self.parts.names(Object::Port(port))
    }

    // Ports and queues.

    /// The row of a port that stands.
    pub fn port(&self, port: Key) -> &Port<'t>
        requires { stands self.now.births.ports port ≡ true }
        ensures found { row_at self.now port ≡ Some (port_at self.now port) }
        ensures birth { let p = port_at self.now port in p.birth ≡ birth_at self.now port }
        ensures own { let p = port_at self.now port in let row = result.now in p.birth ≡ row.birth }
        ensures kind { let p = port_at self.now port in let row = result.now in p.kind ≡ row.kind }
        ensures pair { let p = port_at self.now port in let row = result.now in
            p.pair ≡ some_birth self.now row.pair }
        ensures connection { let p = port_at self.now port in let row = result.now in
            p.connection ≡ some_birth self.now row.connection }
        ensures context { let p = port_at self.now port in let row = result.now in
            p.context ≡ row.context }
        ensures completed { let p = port_at self.now port in let row = result.now in
            p.completed ≡ row.completed }
        ensures creator { let p = port_at self.now port in let row = result.now in
            p.creator ≡ option_map shown_creator row.creator }
        ensures security { let p = port_at self.now port in let row = result.now in
            p.security ≡ row.security }
        ensures apart { are_apart self.now.births.ports ≡ true }
        ensures pair_stands { let row = result.now in
            some_stands self.now.births.ports row.pair ≡ true }
        ensures connection_stands { let row = result.now in
            some_stands self.now.births.ports row.connection ≡ true }
    {
        match self.ports.get(port) {
            Some(row) => row,
            None => unreachable!(),
        }
    }

    /// The birth of an object that stands.
    pub fn birth_of(&self, object: Object) -> Birth
        requires { object_stands self.now.births object ≡ true }
        ensures { result ≡ birth_of self.now.births object }
    {
        match object {
            Object::Port(port) => self.port(port).birth,
            Object::Process(birth) => birth,
            Object::Thread(birth) => birth,
            Object::Section(section) => self.section(section).birth(),
            Object::Token(token) => self.token(token).birth,
        }
    }

    /// No message stands in the queue.
    pub fn is_empty(&self, queue: Key) -> bool
        requires { stands self.now.births.ports queue ≡ true }
        ensures { result ≡ is_none (oldest self.now queue) }
    {
        match self.ports.first(queue, false) {
            Some(_) => false,
            None => true,
        }
    }

    /// How many datagrams of a port stand in queues.
    pub fn datagrams(&self, port: Key) -> usize
        requires { stands self.now.births.ports port ≡ true }
        ensures { let p = port_at self.now port in result ≡ datagrams self.now.rows p.birth }
    {
        self.ports.sent_datagrams(port)
    }

    // Waits.

    /// The thread waits.
    pub fn is_waiting(&self, tid: u32) -> bool
        ensures waits { result ≡ has (waits_as tid) self.now.rows.waits }
        ensures single { are_single self.now.rows.waits ≡ true }
        ensures own { OwnPend self.now.rows }
    {
        match self.waits.of(tid) {
            Some(_) => true,
            None => false,
        }
    }

    /// The thread waits on the queue.
    pub(crate) fn waits_on(&self, tid: u32, queue: Key) -> bool
        requires { stands self.now.births.ports queue ≡ true }
        ensures { result ≡ has (waits_at tid (birth_at self.now queue)) self.now.rows.waits }
    {
        if !self.is_waiting(tid) {
            return false;
        }
        self.is_same(self.waiting(tid).queue, queue)
    }

    /// The wait of a thread that waits.
    pub fn waiting(&self, tid: u32) -> Wait
        requires { has (waits_as tid) self.now.rows.waits ≡ true }
        ensures wait { IsWait self.now tid result }
        ensures apart { are_apart self.now.births.ports ≡ true }
    {
        match self.waits.of(tid) {
            Some(wait) => *wait,
            None => unreachable!(),
        }
    }

    /// The bytes of the request with which a thread waits; of another wait's bytes no clause tells.
    pub fn waiting_message(&self, tid: u32) -> &[u8]
        requires { has (waits_as tid) self.now.rows.waits ≡ true }
        ensures request { let x = waiter self.now.rows tid in
            is_request x ≡ true → x.kind ≡ Request (message_of result.now) }
    {
        self.waits.message(tid)
    }

    /// The two ports are one.
    pub fn is_same(&self, one: Key, other: Key) -> bool
        requires apart { are_apart self.now.births.ports ≡ true }
        requires one { stands self.now.births.ports one ≡ true }
        requires other { stands self.now.births.ports other ≡ true }
        ensures { result ≡ same_birth (birth_at self.now one) (birth_at self.now other) }
    {
        one == other
    }

    /// The thread that takes a message which enters a queue: the one whose receive has waited longest there, or for a
    /// connection request whose receive or listen has. None exactly where none waits there.
    pub fn receiver(&self, queue: Key, is_connection_request: bool) -> Option<u32>
        requires { stands self.now.births.ports queue ≡ true }
        ensures found { FindsWait self.now (takes_at self.now queue is_connection_request) result }
        ensures waits { IfSome result (λ tid. has (waits_as tid) self.now.rows.waits ≡ true) }
        ensures thread { IfSome result (λ tid. IsOwnWait self.now.rows tid) }
        ensures idle { IfSome result (λ tid. is_pending_in self.now.rows tid ≡ false) }
        ensures left { IfSome result (λ tid. has_queued self.now.rows tid ≡ false) }
        ensures takes { IfSome result (λ tid.
            takes_at self.now queue is_connection_request (waiter self.now.rows tid) ≡ true) }
        ensures quiet { IfSome result (λ tid. is_quiet_for self.now.rows tid ≡ true) }
        ensures single { are_single self.now.rows.waits ≡ true }
    {
        self.waits.first_on(queue, is_connection_request)
    }
}
