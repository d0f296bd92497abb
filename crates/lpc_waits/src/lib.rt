//! The waits of threads, in the order of waiting.
#![tactic(auto)]

ghost use Rattle.std.specs.Prelude.{◌≡◌, ◌+◌, ◌<◌, ◌-◌, ◌≤◌, ◌^◌, ◌++◌, ◌∷◌, [], length, OnOk, OnErr, Some, None, IfSome, IsSome, option_copied, option_map, is_some, slice_get, if◌then◌else◌};
ghost use Rattle.std.specs.List.{position};
ghost use Rattle.lpc_base.specs.Room.{grown_room};
ghost use Rattle.lpc_base.specs.Rows.{count, without, has};
ghost use Rattle.lpc_base.specs.declared.limits.TheConstants.{MESSAGE_LIMIT};
ghost use Rattle.lpc_waits.specs.Layout.{NamesNone};
ghost use Rattle.lpc_waits.specs.Lent.{IsOrder, waiting_of, waits_of};
ghost use Rattle.lpc_waits.specs.Sought.{earlier, is_before, is_found_at, is_unmarked_in, is_unmarked_on};
ghost use Rattle.lpc_waits.specs.Table.{accepted_of, accepted_port, accepted_port_in, begun, begun_row, first_thread, is_accepted, is_accepted_at, is_accepted_on, is_connect, is_connect_of, is_event, is_event_on, is_made_at, is_made_on, is_mark, is_of, is_offered, is_offered_to, is_offering, is_receive, is_receive_on, is_receiver_at, is_request, is_request_on, is_taker_on, is_unreceived_event_in, is_unreceived_request_in, is_wait_at, message_of, offer_of, raised_by, raised_in, received, row_of, takes, with_accepted, with_message, with_offer, with_row};

mod chains;
mod linked;
mod numbers;
mod sought;

use crate::chains::Chains;
use crate::numbers::numbers_of;
use crate::sought::Sought;
use arrayvec::ArrayVec;
use lpc_base::{OutOfMemory, held};
use lpc_slots::{Chain, Key, Links, Slots};
use std::alloc::Global;
use std::marker::Model;

/// A chance that an exception has at a port. The frame handlers of its thread come between the first and the second.
#[derive(Clone, Copy, PartialEq, Eq)]
pub enum Chance {
    /// The first at the debug port.
    FirstDebug,
    /// The second at the debug port.
    LastDebug,
    /// The one at the exception port, behind which there is none.
    LastException,
}

/// An exception that a thread raised, as far as it has come.
#[derive(Clone, Copy, PartialEq, Eq)]
pub struct Raised {
    /// Its code.
    pub code: u32,
    /// The frame handlers of its thread handle it, where it comes to them.
    pub handled: bool,
    /// The chance that it has now, of which its event tells.
    pub chance: Chance,
}

/// What a thread waits for.
#[derive(Clone, Copy, PartialEq, Eq)]
pub enum WaitKind {
    /// The reply to a request.
    Request,
    /// A message.
    Receive,
    /// A connection request.
    Listen,
    /// The connection that it asked for.
    Connect,
    /// What is made of the event of the exception that it raised.
    Event(Raised),
}

impl WaitKind {
    // A wait of this kind takes what comes: a receive does, and a listen where listens count.
    fn takes(self, with_listens: bool) -> bool
        ensures { result ≡ takes with_listens self }
    {
        match self {
            WaitKind::Receive => true,
            WaitKind::Listen => with_listens,
            WaitKind::Request | WaitKind::Connect | WaitKind::Event(_) => false,
        }
    }

    // A wait of this kind is a request.
    fn is_request(self) -> bool
        ensures { result ≡ is_request self }
    {
        matches!(self, WaitKind::Request)
    }

    // A wait of this kind is a receive.
    fn is_receive(self) -> bool
        ensures { result ≡ is_receive self }
    {
        matches!(self, WaitKind::Receive)
    }

    // A wait of this kind is a connect.
    fn is_connect(self) -> bool
        ensures { result ≡ is_connect self }
    {
        matches!(self, WaitKind::Connect)
    }

    // A wait of this kind is for what is made of an event.
    fn is_event(self) -> bool
        ensures { result ≡ is_event self }
    {
        self.raised().is_some()
    }

    // How many waits for events a wait of this kind is: one or none.
    fn event_count(self) -> usize
        ensures count { result ≡ (if is_event self then 1 else 0) }
        ensures most { result ≤ 1 }
    {
        usize::from(self.is_event())
    }

    // The exception of whose event a wait of this kind is.
    fn raised(self) -> Option<Raised>
        ensures { result ≡ raised_in self }
    {
        match self {
            WaitKind::Event(raised) => Some(raised),
            WaitKind::Request | WaitKind::Receive | WaitKind::Listen | WaitKind::Connect => None,
        }
    }
}

/// The wait of a thread.
#[derive(Clone, Copy)]
pub struct Wait {
    /// The process of the waiting thread.
    pub process: u32,
    /// What it waits for.
    pub kind: WaitKind,
    /// The port on which the call was made; for a connect its client port.
    pub port: Key,
    /// The port whose queue the request, the event or the connection request entered, or on whose queue a receive or a
    /// listen waits.
    pub queue: Key,
    /// The identifier of the request, the event or the connection request; 0 for a receive and a listen.
    pub identifier: u32,
    /// A thread took the request, the event or the connection request from its queue.
    pub received: bool,
}

/// The part of a section that a connect offers to show to the server.
#[derive(Clone, Copy)]
pub struct Offer {
    /// The section.
    pub section: Key,
    /// Where in the section the part begins, in bytes.
    pub offset: u32,
    /// How many bytes it has.
    pub size: u32,
}

/// What a connect was accepted with.
#[derive(Drop)]
pub struct Accepted {
    /// The data of the accept's message.
    pub reply: ArrayVec<u8, 256>,
    /// Where the server sees what the client offered; none where it offered nothing.
    pub target: Option<u32>,
    /// Where the client sees what the server offered; none where it offered nothing.
    pub vbase: Option<u32>,
    /// How many bytes of what the server offered the client sees; none where it offered nothing.
    pub vsize: Option<u32>,
}

/// A row of the table: a thread that waits, and its neighbours on the chains on which it stands.
#[derive(Drop)]
pub struct WaitRow {
    /// The number of the thread.
    pub tid: u32,
    /// What it waits for, and where.
    pub wait: Wait,
    /// Its neighbours among all waits, in the order of waiting.
    pub links: Links,
    // The bytes of the message that was sent, with its header; none until they are set.
    message: ArrayVec<u8, 256>,
    // What a connect offers to show to the server; none until it is set.
    offer: Option<Offer>,
    // What a connect was accepted with; none until it is.
    accepted: Option<Accepted>,
    // Its neighbours on the chain by threads, on the one by ports on which waits were made, on the one by queues, and on
    // the one by processes.
    by_thread: Links,
    by_port: Links,
    by_queue: Links,
    by_process: Links,
}

impl WaitRow {
    // The row of a wait that begins: it stands on no chain yet.
    fn begun(tid: u32, wait: Wait) -> WaitRow
        ensures row { waiting_of result ≡ begun_row tid wait }
        ensures alone { NamesNone result }
    {
        WaitRow {
            tid,
            wait,
            links: Links::default(),
            message: ArrayVec::new(),
            offer: None,
            accepted: None,
            by_thread: Links::default(),
            by_port: Links::default(),
            by_queue: Links::default(),
            by_process: Links::default(),
        }
    }

    /// The bytes of the message that was sent, with its header; none until they are set.
    pub fn message(&self) -> &[u8]
        ensures value { result.now ≡ (waiting_of self.now).message.items }
        ensures bound { length result.now ≤ MESSAGE_LIMIT }
    {
        self.message.as_slice()
    }

    /// What a connect offers to show to the server; none until it is set.
    pub fn offer(&self) -> &Option<Offer>
        ensures { result.now ≡ (waiting_of self.now).offer }
    {
        &self.offer
    }

    /// What a connect was accepted with; none until it is.
    pub fn accepted(&self) -> &Option<Accepted>
        ensures { result.now ≡ (waiting_of self.now).accepted }
    {
        &self.accepted
    }
}

/// The waits of all threads, in the order of waiting. A thread has one at most.
///
/// No call but `reserve` takes memory. The wait of a thread is found by the thread's number, and the waits at a port by
/// its key, each on a chain of rows. Contracts see no chain but that of all waits, which is lent; nor do they see how many
/// waits are of events and how many have an offer, which is kept so that none of them is looked for where there is none.
/// This project's own.
#[derive(Drop)]
pub struct Waits {
    rows: Slots<WaitRow>,
    chains: Chains,
    events: usize,
    offering: usize,
}

impl Model for Waits {
    ghost use Rattle.lpc_waits.specs.Kept.{AreKept, seen};
    ghost use Rattle.lpc_waits.specs.Table.{WaitTable};

    ghost Value = { WaitTable };

    ghost view = { λ s. seen s.rows };

    ghost invariant = { λ s. AreKept s.rows s.chains s.events s.offering };
}

impl Waits {
    /// No waits, and no spare room.
    pub fn new(alloc: Global) -> Waits
        ensures { result ≡ record { rows = []; spare = 0; made = 0 } }
    {
        Waits {
            rows: Slots::new(alloc),
            chains: Chains::new(alloc),
            events: 0,
            offering: 0,
        }
    }

    /// Makes room for this many more waits. Room that is there already counts. Where it grows there is room for as many
    /// waits as there are at least.
    ///
    /// OutOfMemory comes only where that room wasn't there, and then it is as it was; the waits stay as they are, and
    /// the room never shrinks.
    pub fn reserve(&mut self, more: usize) -> Result<(), OutOfMemory>
        ensures room { OnOk result (more ≤ self.new.spare) }
        ensures wanting { OnErr result (self.old.spare < more) }
        ensures lacking { OnErr result (self.new.spare < more) }
        ensures err { OnErr result (self.new.spare ≡ self.old.spare) }
        ensures kept { self.new ≡ record self.old { spare = self.new.spare } }
        ensures spare { self.old.spare ≤ self.new.spare }
        ensures most { let rows = length self.old.rows in
            self.new.spare ≤ grown_room self.old.spare more rows }
        ensures grown { let rows = length self.old.rows in
            OnOk result (self.old.spare < more → rows ≤ self.new.spare) }
        ensures enough { more ≤ self.old.spare → self.new.spare ≡ self.old.spare }
    {
        self.chains.suit(&mut self.rows, more)?;
        self.rows.reserve(more)
    }

    /// Adds the wait of a thread behind the others. It has no message yet, offers nothing, and isn't accepted.
    ///
    /// The thread has no wait, there is spare room, and fewer than 2^64 - 1 waits were made.
    pub fn add(&mut self, tid: u32, wait: Wait)
        requires alone { row_of self.old tid ≡ None }
        requires room { 0 < self.old.spare }
        requires few { self.old.made < 2 ^ 64 - 1 }
        ensures table { self.new ≡ begun self.old tid wait }
    {
        // No more waits stand than were made, so one more can be counted.
        let _ = self.rows.count();
        self.events += wait.kind.event_count();
        let key = self.rows.insert_reserved(WaitRow::begun(tid, wait));
        self.chains
            .push_new(&mut self.rows, key, numbers_of(tid, &wait));
    }

    /// How many waits there are.
    pub fn count(&self) -> usize
        ensures { result ≡ length self.now.rows }
    {
        self.rows.count()
    }

    /// The rows of the waits, in the order of waiting.
    pub fn rows(&self) -> &Slots<WaitRow>
        ensures { waits_of result.now ≡ self.now.rows }
    {
        &self.rows
    }

    /// The rows of the waits, and over them the chain of all waits, in the order of waiting.
    pub fn lent(&self) -> (&Slots<WaitRow>, &Chain<0>)
        ensures rows { waits_of result.0.now ≡ self.now.rows }
        ensures order { IsOrder result.0.now result.1.now }
    {
        (&self.rows, &self.chains.order)
    }

    /// The wait of a thread: None exactly where it has none.
    pub fn of(&self, tid: u32) -> Option<&Wait>
        ensures value { option_copied result ≡ option_map (λ row. row.wait) (row_of self.now tid) }
        ensures one { count (is_of tid) self.now.rows ≤ 1 }
    {
        match self.find(tid) {
            Some(row) => Some(&row.wait),
            None => None,
        }
    }

    /// The port of a thread's connect that is accepted: None exactly where the thread doesn't wait with one.
    pub fn accepted_port(&self, tid: u32) -> Option<Key>
        ensures port { result ≡ accepted_port self.now tid }
    {
        accepted_port_in(self.find(tid)?)
    }

    /// Ends the wait of a thread, and answers it: None exactly where the thread has none. Its room is spare then.
    pub fn end(&mut self, tid: u32) -> Option<Wait>
        ensures value { result ≡ option_map (λ row. row.wait) (row_of self.old tid) }
        ensures rows { self.new.rows ≡ without (is_of tid) self.old.rows }
        ensures spare { self.new.spare
            ≡ (if is_some result then self.old.spare + 1 else self.old.spare) }
        ensures made { self.new.made ≡ self.old.made }
    {
        let key = self.chains.of_thread(&self.rows, tid)?;
        let standing = self.rows.get(key)?;
        let wait = standing.wait;
        self.events -= wait.kind.event_count();
        self.offering -= offer_count(standing.offer);
        self.chains
            .unlink(&mut self.rows, key, numbers_of(tid, &wait));
        self.rows.remove(key);
        Some(wait)
    }

    /// Notes that the request, the event or the connection request of a waiting thread is received.
    pub fn receive(&mut self, tid: u32)
        requires waits { IsSome (row_of self.old tid) }
        ensures table { self.new ≡ with_row self.old tid received }
    {
        if let Some(key) = self.chains.of_thread(&self.rows, tid) {
            if let Some(standing) = self.rows.get_mut(key) {
                standing.wait.received = true;
            }
        }
    }

    /// The thread that takes a message which enters the queue of a port: None exactly where there is none.
    ///
    /// Of the waits on that queue it is the oldest receive, or where listens count the oldest of the receives and
    /// listens together, in one order of waiting. A message goes to the oldest receive, a connection request to the
    /// oldest receive or listen: so listens count exactly where the message is a connection request.
    pub fn first_on(&self, queue: Key, with_listens: bool) -> Option<u32>
        ensures { result ≡ first_thread (is_taker_on queue with_listens) self.now }
    {
        self.thread_in(queue, Sought::Taker(with_listens), &[])
    }

    /// A row names this port: a wait was made on it, or is on its queue.
    pub fn is_named(&self, port: Key) -> bool
        ensures { result ≡ has (is_wait_at port) self.now.rows }
    {
        self.is_at(port, Sought::Taker(true)) || self.is_at(port, Sought::Sent)
    }

    /// The thread that waits on a port with an accepted connect, the one that has waited longest: None exactly where
    /// there is none.
    pub fn accepted_on(&self, port: Key) -> Option<u32>
        ensures { result ≡ first_thread (is_accepted_on port) self.now }
    {
        self.thread_on(port, Sought::Accepted, &[])
    }

    /// The thread that waits with an accepted connect made on a port, or on the other, where there is one, the one that
    /// has waited longest: None exactly where there is none.
    pub fn accepted_at(&self, port: Key, other: Option<Key>) -> Option<u32>
        ensures { result ≡ first_thread (is_accepted_at port other) self.now }
    {
        let here = self
            .chains
            .first_on(&self.rows, port, Sought::Accepted, &[]);
        match other {
            Some(other) => thread_of(earlier(
                here,
                self.chains
                    .first_on(&self.rows, other, Sought::Accepted, &[]),
            )),
            None => thread_of(here),
        }
    }

    /// The thread that waits with a receive or a listen made on a port, or on the queue that the port is, the one that
    /// has waited longest: None exactly where there is none.
    pub fn receiver_at(&self, port: Key) -> Option<u32>
        ensures { result ≡ first_thread (is_receiver_at port) self.now }
    {
        let made = self
            .chains
            .first_on(&self.rows, port, Sought::Taker(true), &[]);
        thread_of(earlier(
            made,
            self.chains
                .first_in(&self.rows, port, Sought::Taker(true), &[]),
        ))
    }

    /// The thread that waits with a receive made on a port, the one that has waited longest: None exactly where there
    /// is none.
    pub fn receive_on(&self, port: Key) -> Option<u32>
        ensures { result ≡ first_thread (is_receive_on port) self.now }
    {
        self.thread_on(port, Sought::Receive, &[])
    }

    /// The thread that waits with a request made on a port, received or not, the one that has waited longest: None
    /// exactly where there is none.
    pub fn request_on(&self, port: Key) -> Option<u32>
        ensures { result ≡ first_thread (is_request_on port) self.now }
    {
        self.thread_on(port, Sought::Request, &[])
    }

    /// The thread that waits with a request on a queue that isn't received, the one that has waited longest: None
    /// exactly where there is none.
    pub fn unreceived_request_in(&self, queue: Key) -> Option<u32>
        ensures { result ≡ first_thread (is_unreceived_request_in queue) self.now }
    {
        self.thread_in(queue, Sought::UnreceivedRequest, &[])
    }

    /// The thread that waits with an event sent on a port, received or not, and isn't among the marked ones, the one
    /// that has waited longest: None exactly where there is none.
    pub fn event_on(&self, port: Key, marks: &[u32]) -> Option<u32>
        ensures { result ≡ first_thread (is_event_on marks.now port) self.now }
    {
        if self.events == 0 {
            return None;
        }
        self.thread_on(port, Sought::Event, marks)
    }

    /// The thread that waits with an event on a queue that isn't received, and isn't among the marked ones, the one that
    /// has waited longest: None exactly where there is none.
    pub fn unreceived_event_in(&self, queue: Key, marks: &[u32]) -> Option<u32>
        ensures { result ≡ first_thread (is_unreceived_event_in marks.now queue) self.now }
    {
        if self.events == 0 {
            return None;
        }
        self.thread_in(queue, Sought::UnreceivedEvent, marks)
    }

    /// The exception of whose event a thread waits: None exactly where the thread doesn't wait for one.
    pub fn raised(&self, tid: u32) -> Option<Raised>
        ensures raised { result ≡ raised_by self.now tid }
    {
        self.find(tid)?.wait.kind.raised()
    }

    /// The thread that waits with a connect on a queue that isn't accepted, received or not, the one that has waited
    /// longest: None exactly where there is none.
    pub fn offered_to(&self, queue: Key) -> Option<u32>
        ensures { result ≡ first_thread (is_offered_to queue) self.now }
    {
        self.thread_in(queue, Sought::Offered, &[])
    }

    /// The bytes of the message with which a waiting thread waits; none until they are set.
    pub fn message(&self, tid: u32) -> &[u8]
        requires waits { IsSome (row_of self.now tid) }
        ensures value { message_of self.now tid ≡ Some result.now }
        ensures bound { length result.now ≤ MESSAGE_LIMIT }
    {
        self.get(tid).message.as_slice()
    }

    /// Gives a waiting thread's wait the bytes of a message: no more than a message holds.
    pub fn set_message(&mut self, tid: u32, bytes: &[u8])
        requires waits { IsSome (row_of self.old tid) }
        requires bound { length bytes.now ≤ MESSAGE_LIMIT }
        ensures table { self.new ≡ with_row self.old tid (with_message bytes.now) }
    {
        if let Some(key) = self.chains.of_thread(&self.rows, tid) {
            if let Some(standing) = self.rows.get_mut(key) {
                standing.message = held(bytes);
            }
        }
    }

    /// How many threads of a process wait in a connect.
    pub fn connects_of(&self, process: u32) -> usize
        ensures { result ≡ count (is_connect_of process) self.now.rows }
    {
        self.chains.connects_of(&self.rows, process)
    }

    /// How many waits were made on a port.
    pub fn made_on(&self, port: Key) -> usize
        ensures { result ≡ count (is_made_on port) self.now.rows }
    {
        self.chains.count_on(&self.rows, port)
    }

    /// What a waiting thread's connect offers to show to the server: None where it offers nothing, and until it is set.
    pub fn offer(&self, tid: u32) -> Option<&Offer>
        requires waits { IsSome (row_of self.now tid) }
        ensures value { offer_of self.now tid ≡ Some (option_copied result) }
    {
        self.get(tid).offer.as_ref()
    }

    /// Gives a waiting thread's wait what its connect offers, or takes that away.
    pub fn set_offer(&mut self, tid: u32, offer: Option<Offer>)
        requires waits { IsSome (row_of self.old tid) }
        ensures table { self.new ≡ with_row self.old tid (with_offer offer) }
    {
        // No more offers are counted than there are rows.
        let _ = self.rows.count();
        if let Some(key) = self.chains.of_thread(&self.rows, tid) {
            if let Some(standing) = self.rows.get_mut(key) {
                let others = self.offering - offer_count(standing.offer);
                standing.offer = offer;
                self.offering = others + offer_count(offer);
            }
        }
    }

    /// How many waiting connects offer a part of the section and aren't accepted. What an accepted connect offered is
    /// no offer any longer.
    pub fn offers(&self, section: Key) -> usize
        ensures { result ≡ count (is_offering section) self.now.rows }
    {
        if self.offering == 0 {
            return 0;
        }
        let mut offers = 0;
        for place in 0..self.rows.count() {
            let (_, standing) = self.rows.row(place);
            if is_offering(standing, section) {
                offers += 1;
            }
        }
        offers
    }

    /// A waiting connect that isn't accepted offers a part of the section.
    pub fn is_section_offered(&self, section: Key) -> bool
        ensures { result ≡ has (is_offering section) self.now.rows }
    {
        if self.offering == 0 {
            return false;
        }
        for place in 0..self.rows.count() {
            let (_, standing) = self.rows.row(place);
            if is_offering(standing, section) {
                return true;
            }
        }
        false
    }

    /// What a waiting thread's connect was accepted with: None until it is set.
    pub fn accepted(&self, tid: u32) -> Option<&Accepted>
        requires waits { IsSome (row_of self.now tid) }
        ensures value { accepted_of self.now tid ≡ Some (option_copied result) }
    {
        self.get(tid).accepted.as_ref()
    }

    /// Gives a waiting thread's wait what its connect was accepted with, or takes that away.
    pub fn set_accepted(&mut self, tid: u32, accepted: Option<Accepted>)
        requires waits { IsSome (row_of self.old tid) }
        ensures table { self.new ≡ with_row self.old tid (with_accepted accepted) }
    {
        if let Some(key) = self.chains.of_thread(&self.rows, tid) {
            if let Some(standing) = self.rows.get_mut(key) {
                standing.accepted = accepted;
            }
        }
    }

    // The row of a thread, if it waits.
    fn find(&self, tid: u32) -> Option<&WaitRow>
        ensures row { option_map waiting_of (option_copied result) ≡ row_of self.now tid }
        ensures one { count (is_of tid) self.now.rows ≤ 1 }
    {
        let key = self.chains.of_thread(&self.rows, tid)?;
        self.rows.get(key)
    }

    // The row of a thread that waits.
    fn get(&self, tid: u32) -> &WaitRow
        requires { IsSome (row_of self.now tid) }
        ensures { row_of self.now tid ≡ Some (waiting_of result.now) }
    {
        match self.find(tid) {
            Some(row) => row,
            None => unreachable!(),
        }
    }

    // The thread of the first wait that was made on a port, is such as is sought, and isn't of a marked thread.
    fn thread_on(&self, port: Key, sought: Sought, marks: &[u32]) -> Option<u32>
        ensures { result ≡ first_thread (is_unmarked_on port sought marks.now) self.now }
    {
        thread_of(self.chains.first_on(&self.rows, port, sought, marks))
    }

    // The thread of the first wait that is on a queue, is such as is sought, and isn't of a marked thread.
    fn thread_in(&self, queue: Key, sought: Sought, marks: &[u32]) -> Option<u32>
        ensures { result ≡ first_thread (is_unmarked_in queue sought marks.now) self.now }
    {
        thread_of(self.chains.first_in(&self.rows, queue, sought, marks))
    }

    // There is a wait that was made on a port, or is on its queue, and is such as is sought.
    fn is_at(&self, port: Key, sought: Sought) -> bool
        ensures { result ≡ has (is_found_at port sought) self.now.rows }
    {
        self.chains
            .first_on(&self.rows, port, sought, &[])
            .is_some()
            || self
                .chains
                .first_in(&self.rows, port, sought, &[])
                .is_some()
    }
}

// The thread of what was found.
fn thread_of(found: Option<(Key, u32)>) -> Option<u32>
    ensures { result ≡ option_map (λ row. row.1) found }
{
    match found {
        Some((_, thread)) => Some(thread),
        None => None,
    }
}

// What was made before the other; where one isn't there, the other.
fn earlier(one: Option<(Key, u32)>, two: Option<(Key, u32)>) -> Option<(Key, u32)>
    ensures { result ≡ earlier one two }
{
    match (one, two) {
        (Some(first), Some(second)) => Some(if is_before(first.0, second.0) {
            first
        } else {
            second
        }),
        (Some(first), None) => Some(first),
        (None, second) => second,
    }
}

// A key was made before another.
fn is_before(one: Key, two: Key) -> bool
    ensures { result ≡ is_before one two }
{
    one.generation < two.generation || one.generation == two.generation && one.index < two.index
}

// Where the thread stands among the marked ones; None exactly where it isn't among them. It is looked for first where it
// is expected: marks that were made in the order of waiting are passed over in step with the waits.
fn mark_place(marks: &[u32], expected: usize, tid: u32) -> Option<usize>
    ensures marked { is_some result ≡ has (is_mark tid) marks.now }
    ensures place { IfSome result (λ place. slice_get marks.now place ≡ Some tid) }
    ensures within { IfSome result (λ place. place < length marks.now) }
{
    if expected < marks.len() && marks[expected] == tid {
        return Some(expected);
    }
    first_mark(marks, tid)
}

// The first place of the thread among the marked ones.
fn first_mark(marks: &[u32], tid: u32) -> Option<usize>
    ensures place { result ≡ position (is_mark tid) marks.now }
    ensures within { IfSome result (λ place. place < length marks.now) }
{
    marks.iter().position(|mark| *mark == tid)
}

// The row is of a connect that was accepted.
fn is_accepted(row: &WaitRow) -> bool
    ensures { result ≡ is_accepted (waiting_of row.now) }
{
    row.wait.kind.is_connect() && row.accepted.is_some()
}

// The row is of a connect that isn't accepted.
fn is_offered(row: &WaitRow) -> bool
    ensures { result ≡ is_offered (waiting_of row.now) }
{
    row.wait.kind.is_connect() && row.accepted.is_none()
}

// How many offers there are: one or none.
fn offer_count(offer: Option<Offer>) -> usize
    ensures count { result ≡ (if is_some offer then 1 else 0) }
    ensures most { result ≤ 1 }
{
    usize::from(offer.is_some())
}

// The row is of a connect that isn't accepted and offers a part of the section.
fn is_offering(row: &WaitRow, section: Key) -> bool
    ensures { result ≡ is_offering section (waiting_of row.now) }
{
    match row.offer {
        Some(offer) => is_offered(row) && offer.section == section,
        None => false,
    }
}

// The port of an accepted connect.
fn accepted_port_in(row: &WaitRow) -> Option<Key>
    ensures { result ≡ accepted_port_in (waiting_of row.now) }
{
    if is_accepted(row) {
        Some(row.wait.port)
    } else {
        None
    }
}
