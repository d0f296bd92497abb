// The changes that a connection makes: its ports are joined and completed, a connect is accepted, and a connection
// request is taken from its queue.
ghost use Rattle.std.specs.Prelude.{◌≡◌, ◌≤◌, ◌<◌, ◌||◌, true, false, IfSome, IfNone, None, is_some, length};
ghost use Rattle.lpc_base.specs.Rows.{has};
ghost use Rattle.lpc_model.specs.Basics.{Accepts, TakesConnect};
ghost use Rattle.lpc_model.specs.Found.{is_accepted, offer_of, waits_as};
ghost use Rattle.lpc_model.specs.Message.{message_of};
ghost use Rattle.lpc_rows.specs.Kept.{IsStep, Roomy, StaysReady, StaysUnqueued};
ghost use Rattle.lpc_rows.specs.Names.{stands};
ghost use Rattle.lpc_rows.specs.Ready.{waiter};
ghost use Rattle.lpc_base.specs.declared.limits.TheConstants.{HEADER_SIZE, MESSAGE_LIMIT};
ghost use Rattle.lpc_rows.specs.Clauses.{HasLeft, after, birth_at, has_section, joined, offering_with, oldest_connect, pulled, with_completion};
ghost use Rattle.lpc_rows.specs.Shown.{shown_acceptance};

use crate::world::World;
use lpc_ports::Message;
use lpc_slots::Key;
use lpc_waits::{Accepted, Offer};

impl<'t> World<'t> {
    /// A client port and a server port become the two ends of a connection, and both get its context.
    pub fn ports_join(&mut self, client: Key, server: Key, context: u32)
        requires client { stands self.old.births.ports client ≡ true }
        requires server { stands self.old.births.ports server ≡ true }
        ensures step { IsStep (joined self.old client server context) self.old self.new }
        ensures loose { self.new.loose ≡ true }
        ensures capacity { self.new.capacity ≡ self.old.capacity }
    {
        let clients = self.port(client).pair;
        let servers = self.port(server).pair;
        self.loose = true;
        self.ports.join(client, server, context);
        self.suspects.add_some(clients);
        self.suspects.add_some(servers);
    }

    /// The connection of a port is completed, or isn't any more.
    pub fn ports_set_completed(&mut self, port: Key, completed: bool)
        requires { stands self.old.births.ports port ≡ true }
        ensures step { IsStep (with_completion self.old port completed) self.old self.new }
        ensures loose { self.new.loose ≡ self.old.loose }
        ensures capacity { self.new.capacity ≡ self.old.capacity }
    {
        self.ports.set_completed(port, completed);
    }

    /// A waiting thread's connect, which was received and isn't accepted yet, is accepted, and offers nothing from then
    /// on. With None, and where the thread waits for something else, nothing changes but that a sweep is due.
    pub fn waits_set_accepted(&mut self, tid: u32, accepted: Option<Accepted>)
        requires waits { has (waits_as tid) self.old.rows.waits ≡ true }
        requires offered { is_accepted (waiter self.old.rows tid) ≡ false }
        requires received { let x = waiter self.old.rows tid in x.received ≡ true }
        ensures some { IfSome accepted
            (λ a. self.new.rows ≡ after self.old (Accepts tid (shown_acceptance a))) }
        ensures none { IfNone accepted (self.new.rows ≡ self.old.rows) }
        ensures births { self.new.births ≡ self.old.births }
        ensures calls { self.new.calls ≡ self.old.calls }
        ensures loose { self.new.loose ≡ true }
        ensures made { self.new.made ≡ self.old.made }
        ensures room { Roomy self.old.room self.new.room }
        ensures unqueued { StaysUnqueued self.old.rows self.new.rows }
        ensures still { StaysReady self.old.rows self.new.rows }
        ensures capacity { self.new.capacity ≡ self.old.capacity }
    {
        self.loose = true;
        self.waits.set_accepted(tid, accepted);
    }

    /// A waiting thread's connect, which offers nothing yet, offers a part of a section that stands, or still nothing.
    /// Where it is accepted, and where the thread waits for something else, the rows stay.
    pub fn waits_set_offer(&mut self, tid: u32, offer: Option<Offer>)
        requires waits { has (waits_as tid) self.old.rows.waits ≡ true }
        requires first { offer_of (waiter self.old.rows tid) ≡ None }
        requires section { has_section self.old offer ≡ true }
        ensures step { IsStep (offering_with self.old tid offer) self.old self.new }
        ensures loose { self.new.loose ≡ self.old.loose }
        ensures capacity { self.new.capacity ≡ self.old.capacity }
    {
        self.waits.set_offer(tid, offer);
    }

    /// Takes the oldest connection request of a queue: None exactly where no connection request stands in it.
    pub fn ports_pull_connect(&mut self, queue: Key) -> Option<Message>
        requires { stands self.old.births.ports queue ≡ true }
        ensures message { pulled self.old queue result ≡ oldest_connect self.old queue }
        ensures step { let left = after self.old (TakesConnect (birth_at self.old queue)) in
            IsStep left self.old self.new }
        ensures none { IfNone result (self.new.rows ≡ self.old.rows) }
        ensures long { IfSome result (λ m. HEADER_SIZE ≤ length m.bytes.items) }
        ensures bound { IfSome result (λ m. length m.bytes.items ≤ MESSAGE_LIMIT) }
        ensures loose { self.new.loose ≡ (is_some result || self.old.loose) }
        ensures left { IfSome result (λ m. HasLeft self.new.rows (message_of m.bytes.items)) }
        ensures unqueued { StaysUnqueued self.old.rows self.new.rows }
        ensures capacity { self.new.capacity ≡ self.old.capacity }
    {
        let message = self.ports.first(queue, true)?;
        self.loose = true;
        let pulled = self.ports.pull(message);
        self.suspects.add(pulled.sender);
        Some(pulled)
    }
}
