// The tables together: reading calls find what the definitions find, a changing call is one basic step or a part of one
// and takes no memory, and a reserving call makes room and changes nothing else. The binding of a name where there is
// no spare room takes memory.
//
// Each call that adds a row or draws a number asks for the spare room, and that fewer than 16 rows and numbers were
// made for each call so far, with those that are owed: each open client port owes the message that tells that it is
// closed, each registration the one that tells of its thread's end, and each waiting event what it takes to go on.
ghost use Rattle.std.specs.Prelude.{◌≡◌, ◌∷◌, ◌++◌, ◌+◌, ◌<◌, ◌≤◌, ◌==◌, ◌↔◌, ◌||◌, [], None, Some, true, false, IfSome, IfNone, IfOk, IsErr, OnOk, OnErr, is_some, length, option_map};
ghost use Rattle.lpc_base.specs.Room.{grown_room};
ghost use Rattle.lpc_base.specs.Rows.{has};
ghost use Rattle.lpc_model.specs.World.{no_rows};
ghost use Rattle.lpc_model.specs.Found.{free_handle, handles_of, is_live_thread, is_process, is_table, is_thread, port_row, section_row, token_row, was_process, was_thread, waits_as, is_born_process, is_born_thread};
ghost use Rattle.lpc_model.specs.Basics.{AddsProcess, AddsThread, Awaits, DrawsIdentifier, DrawsOrdinal, Receives, Takes, Withdraws};
ghost use Rattle.lpc_model.specs.Machine.{new_process, new_thread};
ghost use Rattle.lpc_model.specs.Message.{message_of};
ghost use Rattle.lpc_procs.specs.Procs.{IsNumber, most_rows};
ghost use Rattle.lpc_waits.specs.Table.{is_event};
ghost use Rattle.lpc_rows.specs.Names.{KeepsNames, name_of, some_stands, stands};
ghost use Rattle.lpc_rows.specs.Shown.{object_stands};
ghost use Rattle.lpc_rows.specs.Lawful.{can_begin, drew, is_quiet};
ghost use Rattle.lpc_rows.specs.Capacity.{KeepsOtherPlaces, but_names, handle_places, no_capacity, no_places};
ghost use Rattle.lpc_rows.specs.Kept.{CanMake, HasWholeBudget, CanAwait, IsEndingStep, IsMakingStep, IsStep, KeepsOtherRoom, Roomy, Same, StaysReady, StaysUnqueued, grown_handles, grown_messages, grown_ports, grown_processes, grown_threads, grown_waits, handle_room, has_queued, is_unsent, owed_by, owed_handles, owed_messages, owed_rows, owed_waits, process_rows};
ghost use Rattle.lpc_rows.specs.Ready.{IsWait};
ghost use Rattle.lpc_rows.specs.OwedClosings.{closing_places, is_owed};
ghost use Rattle.lpc_base.specs.declared.limits.TheConstants.{HANDLE_LIMIT, HEADER_SIZE, LINES_LIMIT, MESSAGE_LIMIT};
ghost use Rattle.lpc_rows.specs.Clauses.{HasFewHandles, HasHandlePlaces, HasHandleRoom, HasLeft, HasSmallLoad, IsAwaited, TellsOnceOn, after, and_message, and_port, and_process, and_thread, birth_at, birth_next, connects, has_message, has_table, has_taker, identifier_next, new_wait, oldest, pends, pulled, sent, waiting_with, with_handle, with_port, without_wait};

mod closing;
mod completing;
mod connecting;
mod connections;
mod dying;
mod exceptions;
mod freeing;
mod lending;
mod lives;
mod names;
mod reading;
mod sections;
mod tokens;
mod views;

use crate::marks::Marks;
use crate::own_messages;
use crate::port_names::PortNames;
use crate::suspected_lives::SuspectedLives;
use crate::suspects::Suspects;
use lpc_base::{Birth, OutOfMemory, PortKind};
use lpc_handles::TableFault;
use lpc_homes::{Object, Parts};
use lpc_ports::{Creator, Message, Ports};
use lpc_procs::Procs;
use lpc_sections::Section;
use lpc_slots::{Key, Slots};
use lpc_tokens::{TokenArena, TokenNames, TokenRef, TokenRow};
use lpc_waits::{Wait, Waits};
use std::alloc::Global;
use std::marker::Model;

/// The world: processes and threads, the handles and views of each process, ports with the messages in their queues,
/// waits, sections, tokens with the names that some have, and the events that are marked as not handled.
///
/// Contracts see the rows of the definitions, in which an object is named by its birth, the births of keys, how many
/// directive and service calls were made, and how many more rows go in without memory.
pub struct World<'t> {
    procs: Procs<'t>,
    parts: Parts,
    ports: Ports<'t>,
    waits: Waits,
    names: PortNames,
    sections: Slots<Section>,
    tokens: Slots<TokenRow<'t>>,
    token_names: TokenNames<'t>,
    marks: Marks,
    suspects: Suspects,
    lives: SuspectedLives,
    calls: u32,
    made: u32,
    loose: bool,
    alloc: Global,
}

impl<'t> Model for World<'t> {
    ghost use Rattle.lpc_rows.specs.Kept.{Kept, kept_by};
    ghost use Rattle.lpc_rows.specs.Suspects.{IsWatched};
    ghost use Rattle.lpc_rows.specs.Shown.{tables_of};

    ghost Value = { Kept };

    ghost view = { λ w. kept_by (tables_of w.procs w.parts.items w.ports w.waits w.names w.sections w.tokens w.token_names w.marks) w.parts.room w.calls w.made w.loose };

    ghost invariant = { λ w. IsWatched (tables_of w.procs w.parts.items w.ports w.waits w.names w.sections w.tokens w.token_names w.marks) w.calls w.made w.suspects w.lives };
}

// Written out, so that a proof about what holds a world lets it go in one step, and not table by table.
impl<'t> Drop for World<'t> {
    fn drop(self) {
        let World {
            procs: _,
            parts: _,
            ports: _,
            waits: _,
            names: _,
            sections: _,
            tokens: _,
            token_names: _,
            marks: _,
            suspects: _,
            lives: _,
            calls: _,
            made: _,
            loose: _,
            alloc: _,
        } = self;
    }
}

impl<'t> World<'t> {
    /// A world without a row. What it keeps later takes memory from `alloc`, but for tokens that get names: they lie in
    /// `arena`.
    pub fn empty(alloc: Global, arena: &'t TokenArena) -> World<'t>
        ensures rows { result.rows ≡ no_rows }
        ensures births { result.births.ports ≡ [] }
        ensures sections { result.births.sections ≡ [] }
        ensures tokens { result.births.tokens ≡ [] }
        ensures calls { result.calls ≡ 0 }
        ensures made { result.made ≡ 0 }
        ensures loose { result.loose ≡ false }
        ensures capacity { but_names result.capacity ≡ no_capacity }
    {
        World {
            procs: Procs::new(alloc),
            parts: Parts::new(alloc),
            ports: Ports::new(alloc),
            waits: Waits::new(alloc),
            names: PortNames::new(alloc),
            sections: Slots::new(alloc),
            tokens: Slots::new(alloc),
            token_names: TokenNames::new(alloc, arena),
            marks: Marks::new(alloc),
            suspects: Suspects::none(),
            lives: SuspectedLives::nobody(),
            calls: 0,
            made: 0,
            loose: false,
            alloc,
        }
    }

    /// How many directive and service calls were made on this world, refused ones too.
    pub fn calls(&self) -> u32
        ensures { result ≡ self.now.calls }
    {
        self.calls
    }

    /// One more directive or service call, which may make up to 16 rows and numbers, those among them that it owes.
    pub fn begin_call(&mut self)
        requires { self.old.calls < LINES_LIMIT }
        ensures rows { self.new.rows ≡ self.old.rows }
        ensures births { self.new.births ≡ self.old.births }
        ensures calls { self.new.calls ≡ self.old.calls + 1 }
        ensures made { self.new.made ≡ self.old.made }
        ensures loose { self.new.loose ≡ self.old.loose }
        ensures room { self.new.room ≡ self.old.room }
        ensures budget { HasWholeBudget self.new }
        ensures capacity { self.new.capacity ≡ self.old.capacity }
    {
        self.calls += 1;
    }

    // Changes: one basic step each, or a part of one.

    /// A thread draws its next message identifier, which is answered.
    pub fn procs_draw_identifier(&mut self, tid: u32) -> u32
        requires stands { has (is_thread tid) self.old.rows.threads ≡ true }
        requires budget { CanMake self.old }
        ensures number { identifier_next self.old.rows tid ≡ Some result }
        ensures step { IsMakingStep (after self.old (DrawsIdentifier tid)) self.old self.new }
        ensures loose { self.new.loose ≡ self.old.loose }
        ensures capacity { self.new.capacity ≡ self.old.capacity }
    {
        self.made += 1;
        self.procs.draw_identifier(tid)
    }

    /// A thread draws the birth of what it makes next, which is answered.
    pub fn procs_draw_birth(&mut self, tid: u32) -> Birth
        requires stands { has (is_thread tid) self.old.rows.threads ≡ true }
        requires budget { CanMake self.old }
        ensures birth { birth_next self.old.rows tid ≡ Some result }
        ensures maker { (result.maker == 0) ≡ false }
        ensures fresh { port_row self.new.rows result ≡ None }
        ensures section { section_row self.new.rows result ≡ None }
        ensures token { token_row self.new.rows result ≡ None }
        ensures process { has (is_born_process result) self.new.rows.processes ≡ false }
        ensures thread { has (is_born_thread result) self.new.rows.threads ≡ false }
        ensures drawn { has (drew result) self.new.rows.threads ≡ true }
        ensures step { IsMakingStep (after self.old (DrawsOrdinal tid)) self.old self.new }
        ensures loose { self.new.loose ≡ self.old.loose }
        ensures capacity { self.new.capacity ≡ self.old.capacity }
    {
        self.made += 1;
        self.procs.draw_birth(tid)
    }

    /// Adds a process, without threads, handles and views, with this token. Its number is from 1 to 2,147,483,647 and was
    /// never used. Its birth is that of a directive with this number, or a thread has drawn it and no process has it.
    pub fn procs_add_process(
        &mut self,
        pid: u32,
        maker: Option<u32>,
        birth: Birth,
        token: &TokenRef<'t>,
    )
        requires room { 0 < self.old.room.processes }
        requires budget { CanMake self.old }
        requires number { IsNumber pid }
        requires new { was_process self.old.rows pid ≡ false }
        requires birth { can_begin self.old.rows.threads pid birth ≡ true }
        requires fresh { (birth.maker == 0) ≡ false
            → has (is_born_process birth) self.old.rows.processes ≡ false }
        ensures rows { self.new.rows
            ≡ after self.old (AddsProcess (new_process pid maker birth token.now)) }
        ensures births { self.new.births ≡ self.old.births }
        ensures calls { self.new.calls ≡ self.old.calls }
        ensures loose { self.new.loose ≡ self.old.loose }
        ensures made { self.new.made ≡ self.old.made + 1 }
        ensures room { Roomy self.old.room (and_process self.new.room) }
        ensures capacity { let old = self.old.capacity in
            self.new.capacity ≡ record old {
              handles = old.handles ++ no_places pid ∷ [];
              views = old.views ++ no_places pid ∷ [];
            } }
    {
        self.made += 1;
        self.lives.suspect_process(birth);
        self.procs.add_process(pid, maker, birth, token);
        self.parts.add(pid);
    }

    /// Adds a live thread to a process that stands; it has drawn nothing yet. Its number is from 1 to 2,147,483,647 and
    /// was never used. Its birth is that of a directive with this number, or a thread has drawn it and no thread has
    /// it.
    pub fn procs_add_thread(&mut self, tid: u32, pid: u32, birth: Birth)
        requires room { 0 < self.old.room.threads }
        requires wait_room { 0 < self.old.room.waits }
        requires message_room { 0 < self.old.room.messages }
        requires budget { CanMake self.old }
        requires number { IsNumber tid }
        requires new { was_thread self.old.rows tid ≡ false }
        requires process { has (is_process pid) self.old.rows.processes ≡ true }
        requires table { has (is_table pid) self.old.rows.handles ≡ true }
        requires birth { can_begin self.old.rows.threads tid birth ≡ true }
        requires fresh { (birth.maker == 0) ≡ false
            → has (is_born_thread birth) self.old.rows.threads ≡ false }
        ensures rows { self.new.rows ≡ after self.old (AddsThread (new_thread tid pid birth)) }
        ensures births { self.new.births ≡ self.old.births }
        ensures calls { self.new.calls ≡ self.old.calls }
        ensures loose { self.new.loose ≡ self.old.loose }
        ensures made { self.new.made ≡ self.old.made + 1 }
        ensures room { Roomy self.old.room (and_thread self.new.room) }
        ensures capacity { self.new.capacity ≡ self.old.capacity }
    {
        self.made += 1;
        self.procs.add_thread(tid, pid, birth);
    }

    /// Adds a port, and answers its key. It has no pair yet, and its context is 0. Its birth was drawn, and no port has
    /// it. `creator` is the connect that makes a client port. A client port takes a place for the message that is to
    /// tell that it is closed.
    pub fn ports_add(
        &mut self,
        kind: PortKind,
        birth: Birth,
        connection: Option<Key>,
        creator: Option<Creator>,
    ) -> Key
        requires room { 0 < self.old.room.ports }
        requires place { closing_places kind ≤ self.old.room.messages }
        requires budget { CanMake self.old }
        requires connection { some_stands self.old.births.ports connection ≡ true }
        requires fresh { port_row self.old.rows birth ≡ None }
        requires drawn { has (drew birth) self.old.rows.threads ≡ true }
        ensures rows { self.new.rows ≡ with_port self.old kind birth connection creator }
        ensures name { name_of self.new.births.ports result ≡ birth }
        ensures stands { stands self.new.births.ports result ≡ true }
        ensures others { KeepsNames self.old.births.ports self.new.births.ports }
        ensures sections { self.new.births.sections ≡ self.old.births.sections }
        ensures tokens { self.new.births.tokens ≡ self.old.births.tokens }
        ensures calls { self.new.calls ≡ self.old.calls }
        ensures loose { self.new.loose ≡ self.old.loose }
        ensures made { self.new.made ≡ self.old.made + 1 }
        ensures room { Roomy self.old.room (and_port kind self.new.room) }
        ensures capacity { self.new.capacity ≡ self.old.capacity }
    {
        self.made += 1;
        let port = self.ports.add(kind, birth, connection);
        self.ports.set_creator(port, creator);
        self.suspects.add(port);
        port
    }

    /// A message enters the queue of a port, on which no thread waits that takes it. A request, event or connection
    /// request has its place: its sender waits with it, and it stands in no queue yet. So has one that tells that a
    /// client port is closed: it is sent on that port, and none in a queue tells so yet. Every other message has the
    /// room that was made for it.
    pub fn ports_send(&mut self, queue: Key, sender: Key, context: u32, bytes: &[u8])
        requires queue { stands self.old.births.ports queue ≡ true }
        requires sender { stands self.old.births.ports sender ≡ true }
        requires long { HEADER_SIZE ≤ length bytes.now }
        requires bound { length bytes.now ≤ MESSAGE_LIMIT }
        requires quiet { has_taker self.old queue sender context (message_of bytes.now) ≡ false }
        requires budget { CanMake self.old }
        requires request { IsAwaited self.old.rows (message_of bytes.now) }
        requires closing { TellsOnceOn self.old sender (message_of bytes.now) }
        requires other { is_owed (message_of bytes.now) ≡ false → 0 < self.old.room.messages }
        ensures rows { self.new.rows ≡ sent self.old queue sender context (message_of bytes.now) }
        ensures births { self.new.births ≡ self.old.births }
        ensures queued { has_message self.new.rows (birth_at self.old queue) ≡ true }
        ensures calls { self.new.calls ≡ self.old.calls }
        ensures loose { self.new.loose ≡ self.old.loose }
        ensures made { self.new.made ≡ self.old.made + 1 }
        ensures room { Roomy self.old.room (and_message self.new.room) }
        ensures capacity { self.new.capacity ≡ self.old.capacity }
    {
        self.made += 1;
        self.ports.send(queue, sender, context, bytes);
    }

    /// Takes the oldest message of a queue: None exactly where the queue is empty.
    pub fn ports_pull(&mut self, queue: Key) -> Option<Message>
        requires { stands self.old.births.ports queue ≡ true }
        ensures message { pulled self.old queue result ≡ oldest self.old queue }
        ensures step { IsStep (after self.old (Takes (birth_at self.old queue))) self.old self.new }
        ensures none { IfNone result (self.new.rows ≡ self.old.rows) }
        ensures long { IfSome result (λ m. HEADER_SIZE ≤ length m.bytes.items) }
        ensures bound { IfSome result (λ m. length m.bytes.items ≤ MESSAGE_LIMIT) }
        ensures loose { self.new.loose ≡ (is_some result || self.old.loose) }
        ensures left { IfSome result (λ m. HasLeft self.new.rows (message_of m.bytes.items)) }
        ensures unqueued { StaysUnqueued self.old.rows self.new.rows }
        ensures capacity { self.new.capacity ≡ self.old.capacity }
    {
        let message = self.ports.first(queue, false)?;
        self.loose = true;
        let pulled = self.ports.pull(message);
        self.suspects.add(pulled.sender);
        Some(pulled)
    }

    /// The thread's own messages leave their queues: the request, event or connection request with which it waits,
    /// where it isn't received yet. Where there is none, no row changes; a sweep is due all the same.
    pub fn messages_withdraw(&mut self, tid: u32)
        ensures step { IsStep (after self.old (Withdraws tid)) self.old self.new }
        ensures loose { self.new.loose ≡ true }
        ensures left { has_queued self.new.rows tid ≡ false }
        ensures unqueued { StaysUnqueued self.old.rows self.new.rows }
        ensures capacity { self.new.capacity ≡ self.old.capacity }
    {
        self.loose = true;
        let went = own_messages::withdraw(&mut self.ports, &self.waits, tid);
        self.suspects.add_any_if(went);
    }

    /// A live thread that doesn't wait begins to wait for something but an event, and what it waits for doesn't stand
    /// in the queue. Its place was made with the thread. A connect of a process finds room for the handle that it is to
    /// get, within its number of handles.
    pub fn waits_add(&mut self, tid: u32, wait: Wait)
        requires plain { is_event wait.kind ≡ false }
        requires live { has (is_live_thread tid) self.old.rows.threads ≡ true }
        requires ready { has (waits_as tid) self.old.rows.waits ≡ false }
        requires budget { CanMake self.old }
        requires port { stands self.old.births.ports wait.port ≡ true }
        requires queue { stands self.old.births.ports wait.queue ≡ true }
        requires quiet { is_quiet self.old.rows.messages (new_wait self.old tid wait) ≡ true }
        requires table { connects wait ≡ true → has_table self.old.rows wait.process ≡ true }
        requires load { connects wait ≡ true → HasSmallLoad self.old.rows wait.process }
        requires handles { connects wait ≡ true → HasHandleRoom self.old wait.process }
        ensures step { let left = after self.old (Awaits (new_wait self.old tid wait)) in
            IsMakingStep left self.old self.new }
        ensures loose { self.new.loose ≡ self.old.loose }
        ensures unsent { pends self.old tid wait ≡ true → is_unsent self.new.rows tid ≡ true }
        ensures capacity { self.new.capacity ≡ self.old.capacity }
    {
        self.waits_begin(tid, wait);
    }

    /// A live thread that doesn't wait begins to wait for what is made of its event. Its place was made with the thread.
    pub fn events_add(&mut self, tid: u32, wait: Wait)
        requires event { is_event wait.kind ≡ true }
        requires live { has (is_live_thread tid) self.old.rows.threads ≡ true }
        requires ready { has (waits_as tid) self.old.rows.waits ≡ false }
        requires budget { CanAwait self.old (new_wait self.old tid wait) }
        requires port { stands self.old.births.ports wait.port ≡ true }
        requires queue { stands self.old.births.ports wait.queue ≡ true }
        ensures rows { self.new.rows ≡ after self.old (Awaits (new_wait self.old tid wait)) }
        ensures births { self.new.births ≡ self.old.births }
        ensures calls { self.new.calls ≡ self.old.calls }
        ensures made { self.new.made
            ≡ self.old.made + (1 + owed_by (new_wait self.old tid wait)) }
        ensures room { Roomy self.old.room self.new.room }
        ensures loose { self.new.loose ≡ self.old.loose }
        ensures unsent { wait.received ≡ false → is_unsent self.new.rows tid ≡ true }
        ensures capacity { self.new.capacity ≡ self.old.capacity }
    {
        self.waits_begin(tid, wait);
    }

    /// A live thread that doesn't wait begins to wait, with the rows that its wait owes.
    fn waits_begin(&mut self, tid: u32, wait: Wait)
        requires live { has (is_live_thread tid) self.old.rows.threads ≡ true }
        requires ready { has (waits_as tid) self.old.rows.waits ≡ false }
        requires budget { CanAwait self.old (new_wait self.old tid wait) }
        requires port { stands self.old.births.ports wait.port ≡ true }
        requires queue { stands self.old.births.ports wait.queue ≡ true }
        requires quiet { is_quiet self.old.rows.messages (new_wait self.old tid wait) ≡ true }
        requires table { connects wait ≡ true → has_table self.old.rows wait.process ≡ true }
        requires load { connects wait ≡ true → HasSmallLoad self.old.rows wait.process }
        requires handles { connects wait ≡ true → HasHandleRoom self.old wait.process }
        ensures rows { self.new.rows ≡ after self.old (Awaits (new_wait self.old tid wait)) }
        ensures births { self.new.births ≡ self.old.births }
        ensures calls { self.new.calls ≡ self.old.calls }
        ensures made { self.new.made
            ≡ self.old.made + (1 + owed_by (new_wait self.old tid wait)) }
        ensures room { Roomy self.old.room self.new.room }
        ensures loose { self.new.loose ≡ self.old.loose }
        ensures unsent { pends self.old tid wait ≡ true → is_unsent self.new.rows tid ≡ true }
        ensures capacity { self.new.capacity ≡ self.old.capacity }
    {
        self.made += 1;
        self.waits.add(tid, wait);
    }

    /// The wait of a thread's request or connect keeps the message with which it waits; where the thread waits for
    /// something else, the rows stay.
    pub fn waits_set_message(&mut self, tid: u32, bytes: &[u8])
        requires waits { has (waits_as tid) self.old.rows.waits ≡ true }
        requires bound { length bytes.now ≤ MESSAGE_LIMIT }
        ensures step { let left = waiting_with self.old.rows tid (message_of bytes.now) in
            IsStep left self.old self.new }
        ensures loose { self.new.loose ≡ self.old.loose }
        ensures capacity { self.new.capacity ≡ self.old.capacity }
    {
        self.waits.set_message(tid, bytes);
    }

    /// Ends the wait of a thread of which no own message stands in a queue, and answers it: None exactly where the
    /// thread doesn't wait. The mark of its event goes, and with the wait of an event what that owed.
    pub fn waits_end(&mut self, tid: u32) -> Option<Wait>
        requires { has_queued self.old.rows tid ≡ false }
        ensures some { is_some result ≡ has (waits_as tid) self.old.rows.waits }
        ensures wait { IfSome result (λ wait. IsWait self.old tid wait) }
        ensures step { IsEndingStep (without_wait self.old.rows tid) self.old self.new }
        ensures loose { self.new.loose ≡ true }
        ensures still { StaysReady self.old.rows self.new.rows }
        ensures unqueued { StaysUnqueued self.old.rows self.new.rows }
        ensures capacity { self.new.capacity ≡ self.old.capacity }
    {
        self.loose = true;
        self.marks.remove(tid);
        let ended = self.waits.end(tid);
        self.suspects.add_some(port_of(&ended));
        ended
    }

    /// The request, event or connect of a thread to a queue is received, where it waits there. Its message stands in no
    /// queue any more.
    pub fn waits_receive(&mut self, tid: u32, queue: Key)
        requires queue { stands self.old.births.ports queue ≡ true }
        requires left { has_queued self.old.rows tid ≡ false }
        ensures step { let left = after self.old (Receives tid (birth_at self.old queue)) in
            IsStep left self.old self.new }
        ensures loose { self.new.loose ≡ self.old.loose }
        ensures unqueued { StaysUnqueued self.old.rows self.new.rows }
        ensures capacity { self.new.capacity ≡ self.old.capacity }
    {
        if self.waits_on(tid, queue) {
            self.waits.receive(tid);
        }
    }

    /// Gives a process the least free handle, and answers its value; Quota exactly where the process has 256 handles,
    /// and then nothing changes. Where it has fewer, it has fewer than 256 with those that its waiting connects are to
    /// get too, and there is room for one more beside them. With its first handle a client port owes the message that
    /// is to tell that it is closed.
    pub fn handles_add(&mut self, pid: u32, object: Object, access: u32) -> Result<u32, TableFault>
        requires table { has (is_table pid) self.old.rows.handles ≡ true }
        requires load { HasFewHandles self.old.rows pid → HasSmallLoad self.old.rows pid }
        requires room { HasFewHandles self.old.rows pid → HasHandleRoom self.old pid }
        requires budget { CanMake self.old }
        requires object { object_stands self.old.births object ≡ true }
        ensures quota { IsErr result ↔ (length (handles_of self.old.rows pid) ≡ HANDLE_LIMIT) }
        ensures value { IfOk result (λ v. v ≡ free_handle self.old.rows pid) }
        ensures rows { IfOk result
            (λ v. self.new.rows ≡ with_handle self.old pid v object access) }
        ensures births { self.new.births ≡ self.old.births }
        ensures calls { self.new.calls ≡ self.old.calls }
        ensures loose { self.new.loose ≡ self.old.loose }
        ensures made { self.new.made ≤ self.old.made + 1 }
        ensures counted { self.new.made + owed_rows self.old.rows
            ≡ self.old.made + owed_rows self.new.rows }
        ensures same { OnErr result (self.new ≡ self.old) }
        ensures places { handle_room self.old.room pid ≤ handle_room self.new.room pid + 1 }
        ensures capacity { self.new.capacity ≡ self.old.capacity }
    {
        self.parts.add_handle(pid, object, access)
    }

    // Room.

    /// Makes room for so many further processes, with their tables of handles, and for so many further threads.
    ///
    /// OutOfMemory comes only where that room wasn't there; nothing has changed then but the room.
    pub fn procs_reserve(&mut self, processes: usize, threads: usize) -> Result<(), OutOfMemory>
        ensures same { Same self.old self.new }
        ensures room { Roomy self.old.room self.new.room }
        ensures processes { OnOk result (processes ≤ self.new.room.processes) }
        ensures threads { OnOk result (threads ≤ self.new.room.threads) }
        ensures wanting { OnErr result
            (processes ≤ self.old.room.processes → self.old.room.threads < threads) }
        ensures most_processes { let rows = process_rows self.old.rows in
            self.new.room.processes ≤ grown_room self.old.room.processes processes rows }
        ensures most_threads { let old = self.old.rows in
            let rows = most_rows old.threads old.used_threads in
            self.new.room.threads ≤ grown_room self.old.room.threads threads rows }
        ensures others { let new = self.new.room in
            new ≡ record self.old.room { processes = new.processes; threads = new.threads } }
        ensures capacity { let new = self.new.capacity in
            new ≡ record self.old.capacity { processes = new.processes; threads = new.threads } }
        ensures enough { let new = self.new.capacity in let old = self.old.capacity in
            processes ≤ self.old.room.processes → new.processes ≡ old.processes }
        ensures enough_threads { let new = self.new.capacity in let old = self.old.capacity in
            threads ≤ self.old.room.threads → new.threads ≡ old.threads }
        ensures asked_processes { let new = self.new.capacity in
            new.processes ≤ grown_processes self.old processes }
        ensures asked_threads { let new = self.new.capacity in
            new.threads ≤ grown_threads self.old threads }
    {
        self.procs.reserve(processes, threads)?;
        self.parts.reserve(processes)
    }

    /// Makes room for so many further ports.
    ///
    /// OutOfMemory comes only where that room wasn't there; nothing has changed then but the room.
    pub fn ports_reserve(&mut self, more: usize) -> Result<(), OutOfMemory>
        ensures same { Same self.old self.new }
        ensures room { Roomy self.old.room self.new.room }
        ensures ports { OnOk result (more ≤ self.new.room.ports) }
        ensures wanting { OnErr result (self.old.room.ports < more) }
        ensures most { let rows = length self.old.rows.ports in
            self.new.room.ports ≤ grown_room self.old.room.ports more rows }
        ensures others { let new = self.new.room in
            new ≡ record self.old.room { ports = new.ports } }
        ensures capacity { let new = self.new.capacity in
            new ≡ record self.old.capacity { ports = new.ports } }
        ensures asked { let new = self.new.capacity in new.ports ≤ grown_ports self.old more }
        ensures enough { more ≤ self.old.room.ports → self.new.capacity ≡ self.old.capacity }
    {
        self.ports.reserve(more, 0)
    }

    /// How many places for messages are owed.
    fn owed_messages(&self) -> usize
        ensures owed { result ≡ owed_messages self.now.rows }
        ensures few { result ≤ self.now.made }
    {
        let requests = self.procs.alive().saturating_sub(self.ports.asking());
        let closings = self.ports.clients().saturating_sub(self.ports.closings());
        requests + closings + self.procs.registrations()
    }

    /// How many places for waits are owed.
    fn owed_waits(&self) -> usize
        ensures owed { result ≡ owed_waits self.now.rows }
        ensures few { result ≤ self.now.made }
    {
        self.procs.alive().saturating_sub(self.waits.count())
    }

    /// Makes room for so many messages beyond those that are owed.
    ///
    /// OutOfMemory comes only where that room wasn't there; nothing has changed then but the room.
    pub fn messages_reserve(&mut self, more: u32) -> Result<(), OutOfMemory>
        ensures same { Same self.old self.new }
        ensures room { Roomy self.old.room self.new.room }
        ensures messages { OnOk result (more ≤ self.new.room.messages) }
        ensures wanting { OnErr result (self.old.room.messages < more) }
        ensures most { let rows = length self.old.rows.messages in
            self.new.room.messages ≤ grown_room self.old.room.messages more rows }
        ensures others { let new = self.new.room in
            new ≡ record self.old.room { messages = new.messages } }
        ensures capacity { let new = self.new.capacity in
            new ≡ record self.old.capacity { messages = new.messages } }
        ensures asked { let new = self.new.capacity in new.messages ≤ grown_messages self.old more }
        ensures enough { let places = self.old.room.messages in
            more ≤ places → self.new.capacity ≡ self.old.capacity }
    {
        let wanted = self.owed_messages() + more as usize;
        self.ports.reserve(0, wanted)
    }

    /// Makes room for so many waits beyond those that are owed, each with the place of a mark.
    ///
    /// OutOfMemory comes only where that room wasn't there; nothing has changed then but the room.
    pub fn waits_reserve(&mut self, more: u32) -> Result<(), OutOfMemory>
        ensures same { Same self.old self.new }
        ensures room { Roomy self.old.room self.new.room }
        ensures waits { OnOk result (more ≤ self.new.room.waits) }
        ensures wanting { OnErr result (self.old.room.waits < more) }
        ensures most { let rows = length self.old.rows.waits in
            self.new.room.waits ≤ grown_room self.old.room.waits more rows }
        ensures others { let new = self.new.room in
            new ≡ record self.old.room { waits = new.waits } }
        ensures capacity { let new = self.new.capacity in
            new ≡ record self.old.capacity { waits = new.waits } }
        ensures asked { let new = self.new.capacity in new.waits ≤ grown_waits self.old more }
        ensures enough { more ≤ self.old.room.waits → self.new.capacity ≡ self.old.capacity }
    {
        let wanted = self.owed_waits() + more as usize;
        self.waits.reserve(wanted)?;
        self.marks.reserve(self.procs.alive() + more as usize)
    }

    /// Makes room for so many further handles of a process, beside those that its waiting connects are to get.
    ///
    /// OutOfMemory comes only where that room wasn't there; nothing has changed then but the room.
    pub fn handles_reserve(&mut self, pid: u32, more: u32) -> Result<(), OutOfMemory>
        requires { has (is_table pid) self.old.rows.handles ≡ true }
        ensures same { Same self.old self.new }
        ensures room { Roomy self.old.room self.new.room }
        ensures handles { OnOk result (HasHandlePlaces self.new pid more) }
        ensures wanting { OnErr result
            (handle_room self.old.room pid < owed_handles self.old.rows pid + more) }
        ensures most { let places = owed_handles self.old.rows pid + more in
            let rows = length (handles_of self.old.rows pid) in
            handle_room self.new.room pid ≤ grown_room (handle_room self.old.room pid) places rows }
        ensures others { let new = self.new.room in
            new ≡ record self.old.room { handles = new.handles } }
        ensures other_handles { KeepsOtherRoom pid self.old.room self.new.room }
        ensures capacity { let new = self.new.capacity in
            new ≡ record self.old.capacity { handles = new.handles } }
        ensures asked { handle_places self.new.capacity pid ≤ grown_handles self.old pid more }
        ensures enough { HasHandlePlaces self.old pid more →
            handle_places self.new.capacity pid ≡ handle_places self.old.capacity pid }
        ensures other_places { KeepsOtherPlaces pid self.old.capacity self.new.capacity }
    {
        let places = self.waits.connects_of(pid) + more as usize;
        self.parts.reserve_handles(pid, places)
    }
}

// The port on which a wait was made, where there was one.
fn port_of(wait: &Option<Wait>) -> Option<Key>
    ensures { result ≡ option_map (λ w. w.port) wait.now }
{
    match wait {
        Some(wait) => Some(wait.port),
        None => None,
    }
}
