// The chains on which the rows of the table stand.
ghost use Rattle.std.specs.Prelude.{◌≡◌, ◌<◌, ◌+◌, [], None, IsSome, OnErr, OnOk, length};
ghost use Rattle.lpc_base.specs.Rows.{count};
ghost use Rattle.lpc_slots.specs.Table.{at, listed};
ghost use Rattle.lpc_waits.specs.Sought.{found, is_by, is_connect_by, is_found_in, is_found_on, is_made_by, key_of_first};

use crate::numbers::{Numbers, apart, numbers_of};
use crate::sought::Sought;
use crate::{WaitRow, mark_place};
use lpc_base::OutOfMemory;
use lpc_slots::{Buckets, Chain, Key, Slots};
use std::alloc::Global;

/// The chains on which the rows stand: one of all of them, and others by their threads, by the ports on which waits were
/// made, by the ports on whose queues they are, and by their processes.
#[derive(Drop)]
pub(crate) struct Chains {
    /// The chain of all rows, in the order of waiting.
    pub order: Chain<0>,
    threads: Buckets<1>,
    ports: Buckets<2>,
    queues: Buckets<3>,
    processes: Buckets<4>,
}

impl Chains {
    ghost use Rattle.lpc_waits.specs.Lent.{keyed};
    ghost use Rattle.lpc_waits.specs.Layout.{AreOn, AreWide, EntersAll, HasRow, KeepsRows, LeavesAll, Stand, StandsAlone};

    /// No chains but an empty one of all rows.
    pub fn new(alloc: Global) -> Chains
        ensures first { result.order.first ≡ None }
        ensures last { result.order.last ≡ None }
        ensures threads { result.threads.chains.items ≡ [] }
        ensures ports { result.ports.chains.items ≡ [] }
        ensures queues { result.queues.chains.items ≡ [] }
        ensures processes { result.processes.chains.items ≡ [] }
    {
        Chains {
            order: Chain::empty(),
            threads: Buckets::new(alloc),
            ports: Buckets::new(alloc),
            queues: Buckets::new(alloc),
            processes: Buckets::new(alloc),
        }
    }

    /// Puts a row at the ends of its chains.
    pub fn push(&mut self, rows: &mut Slots<WaitRow>, key: Key, numbers: Numbers)
        requires wide { AreWide self.old }
        requires present { IsSome (at rows.old key) }
        ensures enters { EntersAll rows.old rows.new self.old self.new key numbers }
        ensures wide { AreWide self.new }
        ensures rows { KeepsRows rows.old rows.new }
    {
        self.threads.push(rows, numbers.thread, key);
        self.ports.push(rows, numbers.port, key);
        self.queues.push(rows, numbers.queue, key);
        self.processes.push(rows, numbers.process, key);
        self.order.push_back(rows, key);
    }

    /// Puts a row that stands on no chain yet on the chains of its numbers, at their ends.
    #[inline(always)]
    pub fn push_new(&mut self, rows: &mut Slots<WaitRow>, key: Key, numbers: Numbers)
        requires wide { AreWide self.old }
        requires alone { StandsAlone rows.old key }
        ensures enters { EntersAll rows.old rows.new self.old self.new key numbers }
        ensures wide { AreWide self.new }
        ensures rows { KeepsRows rows.old rows.new }
    {
        self.threads.push_new(rows, numbers.thread, key);
        self.ports.push_new(rows, numbers.port, key);
        self.queues.push_new(rows, numbers.queue, key);
        self.processes.push_new(rows, numbers.process, key);
        self.order.push_new(rows, key);
    }

    /// Takes a row out of its chains.
    pub fn unlink(&mut self, rows: &mut Slots<WaitRow>, key: Key, numbers: Numbers)
        requires wide { AreWide self.old }
        requires stands { HasRow rows.old self.old key numbers }
        ensures leaves { LeavesAll rows.old rows.new self.old self.new key numbers }
        ensures wide { AreWide self.new }
        ensures rows { KeepsRows rows.old rows.new }
    {
        self.threads.unlink(rows, numbers.thread, key);
        self.ports.unlink(rows, numbers.port, key);
        self.queues.unlink(rows, numbers.queue, key);
        self.processes.unlink(rows, numbers.process, key);
        self.order.unlink(rows, key);
    }

    /// The wait of a thread.
    pub fn of_thread(&self, rows: &Slots<WaitRow>, thread: u32) -> Option<Key>
        requires { Stand rows.now self.now }
        ensures { result ≡ key_of_first (is_by thread) (keyed rows.now) }
    {
        let mut next = self.threads.front(thread as usize);
        while let Some(key) = next {
            match rows.get(key) {
                Some(standing) => {
                    if standing.tid == thread {
                        return Some(key);
                    }
                    next = standing.by_thread.after;
                }
                None => unreachable!(),
            }
        }
        None
    }

    /// The first wait that was made on a port, is such as is sought, and isn't of a marked thread: its key and its thread.
    pub fn first_on(
        &self,
        rows: &Slots<WaitRow>,
        port: Key,
        sought: Sought,
        marks: &[u32],
    ) -> Option<(Key, u32)>
        requires { Stand rows.now self.now }
        ensures { result ≡ found (is_found_on port sought marks.now) (keyed rows.now) }
    {
        let mut expected = 0;
        let mut next = self.ports.front(port.index);
        while let Some(key) = next {
            match rows.get(key) {
                Some(standing) => {
                    if standing.wait.port == port && sought.is_met(standing) {
                        match mark_place(marks, expected, standing.tid) {
                            Some(place) => expected = place + 1,
                            None => return Some((key, standing.tid)),
                        }
                    }
                    next = standing.by_port.after;
                }
                None => unreachable!(),
            }
        }
        None
    }

    /// The first wait that is on a queue, is such as is sought, and isn't of a marked thread: its key and its thread.
    pub fn first_in(
        &self,
        rows: &Slots<WaitRow>,
        queue: Key,
        sought: Sought,
        marks: &[u32],
    ) -> Option<(Key, u32)>
        requires { Stand rows.now self.now }
        ensures { result ≡ found (is_found_in queue sought marks.now) (keyed rows.now) }
    {
        let mut expected = 0;
        let mut next = self.queues.front(apart(queue.index, sought.is_taking()));
        while let Some(key) = next {
            match rows.get(key) {
                Some(standing) => {
                    if standing.wait.queue == queue && sought.is_met(standing) {
                        match mark_place(marks, expected, standing.tid) {
                            Some(place) => expected = place + 1,
                            None => return Some((key, standing.tid)),
                        }
                    }
                    next = standing.by_queue.after;
                }
                None => unreachable!(),
            }
        }
        None
    }

    /// How many waits were made on a port.
    pub fn count_on(&self, rows: &Slots<WaitRow>, port: Key) -> usize
        requires { Stand rows.now self.now }
        ensures { result ≡ count (is_made_by port) (keyed rows.now) }
    {
        // No more are counted than there are rows.
        let _ = rows.count();
        let mut made = 0;
        let mut next = self.ports.front(port.index);
        while let Some(key) = next {
            match rows.get(key) {
                Some(standing) => {
                    if standing.wait.port == port {
                        made += 1;
                    }
                    next = standing.by_port.after;
                }
                None => unreachable!(),
            }
        }
        made
    }

    /// How many threads of a process wait in a connect.
    pub fn connects_of(&self, rows: &Slots<WaitRow>, process: u32) -> usize
        requires { Stand rows.now self.now }
        ensures { result ≡ count (is_connect_by process) (keyed rows.now) }
    {
        // No more are counted than there are rows.
        let _ = rows.count();
        let mut connects = 0;
        let mut next = self.processes.front(apart(process as usize, true));
        while let Some(key) = next {
            match rows.get(key) {
                Some(standing) => {
                    let wait = &standing.wait;
                    if wait.kind.is_connect() && wait.process == process {
                        connects += 1;
                    }
                    next = standing.by_process.after;
                }
                None => unreachable!(),
            }
        }
        connects
    }

    /// Makes chains enough for so many more rows, where there is memory for them: of each kind half as many as rows may
    /// stand, or more. OutOfMemory comes only where there are none, and rows stand or are to come; nothing has changed
    /// then.
    pub fn suit(&mut self, rows: &mut Slots<WaitRow>, more: usize) -> Result<(), OutOfMemory>
        ensures on { AreOn rows.old self.old (keyed rows.old)
            → AreOn rows.new self.new (keyed rows.new) }
        ensures wide { OnOk result
            (0 < length (listed rows.old) + more → AreWide self.new) }
        ensures kept { AreWide self.old → AreWide self.new }
        ensures none { OnErr result (AreWide self.old → ⊥) }
        ensures some { OnErr result (0 < length (listed rows.old) + more) }
        ensures rows { KeepsRows rows.old rows.new }
    {
        let wanted = rows.count().saturating_add(more);
        if wanted <= self.least().saturating_mul(2) {
            return Ok(());
        }
        // An odd number, by which numbers of one parity leave all remainders.
        match self.widen(rows, wanted | 1) {
            Ok(()) => Ok(()),
            Err(_) => self.some(),
        }
    }

    // There are chains by each kind of number.
    fn some(&self) -> Result<(), OutOfMemory>
        ensures ok { OnOk result (AreWide self.now) }
        ensures err { OnErr result (AreWide self.now → ⊥) }
    {
        if self.least() > 0 {
            Ok(())
        } else {
            Err(OutOfMemory)
        }
    }

    // How many chains there are by each kind of number, at least.
    fn least(&self) -> usize
        ensures wide { 0 < result → AreWide self.now }
        ensures some { AreWide self.now → 0 < result }
    {
        let others = self.queues.many().min(self.processes.many());
        self.threads.many().min(self.ports.many()).min(others)
    }

    // Makes so many chains by each kind of number, and puts the rows on them. OutOfMemory comes where memory for them is
    // wanting; nothing has changed then.
    fn widen(&mut self, rows: &mut Slots<WaitRow>, many: usize) -> Result<(), OutOfMemory>
        requires some { 0 < many }
        ensures on { AreOn rows.old self.old (keyed rows.old)
            → AreOn rows.new self.new (keyed rows.new) }
        ensures wide { OnOk result (AreWide self.new) }
        ensures kept { AreWide self.old → AreWide self.new }
        ensures rows { KeepsRows rows.old rows.new }
    {
        self.threads.make_room(many)?;
        self.ports.make_room(many)?;
        self.queues.make_room(many)?;
        self.processes.make_room(many)?;
        self.order = Chain::empty();
        self.threads.refill(many);
        self.ports.refill(many);
        self.queues.refill(many);
        self.processes.refill(many);
        self.put_all(rows);
        Ok(())
    }

    // Puts all rows on chains that are empty.
    fn put_all(&mut self, rows: &mut Slots<WaitRow>)
        requires wide { AreWide self.old }
        requires empty { AreOn rows.old self.old [] }
        ensures on { AreOn rows.new self.new (keyed rows.new) }
        ensures wide { AreWide self.new }
        ensures rows { KeepsRows rows.old rows.new }
    {
        for place in 0..rows.count() {
            let (key, standing) = rows.row(place);
            let numbers = numbers_of(standing.tid, &standing.wait);
            self.push(rows, key, numbers);
        }
    }
}
