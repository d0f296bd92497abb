// Threads as they are told, and the counts beside their processes.
ghost use Rattle.std.specs.Prelude.{◌≡◌, ◌<◌, ◌^◌, None, Some, if◌then◌else◌};
ghost use Rattle.lpc_base.specs.Rows.{count};
ghost use Rattle.lpc_procs.specs.Callers as callers;
ghost use Rattle.lpc_procs.specs.Kept.{AreTallied, counting, is_doomed_row, rows_in};
ghost use Rattle.lpc_procs.specs.Procs as procs;
ghost use Rattle.lpc_procs.specs.Procs.{is_live_client};
ghost use Rattle.lpc_slots.specs.Chain.{changed};

use crate::rows::Counted;
use crate::searches::Test;
use crate::{Caller, ThreadRow, births, exceptions};
use lpc_base::Birth;
use lpc_message::ClientId;
use lpc_numbers::Tally;
use lpc_slots::{Key, Slots};

/// A live thread of the process.
#[derive(Clone, Copy)]
pub struct LivesIn {
    /// The number of the process.
    pub pid: u32,
}

impl<'t> Test<ThreadRow<'t>> for LivesIn {
    ghost use Rattle.lpc_procs.specs.Procs.{lives_in};

    ghost test = { λ asked t. lives_in asked.pid t };

    fn passes(&self, t: &ThreadRow<'t>) -> bool {
        t.process == self.pid && t.live
    }
}

// The thread as a caller.
fn caller_of(t: &ThreadRow) -> Caller
    ensures { result ≡ callers.caller_of t.now }
{
    Caller {
        number: t.number,
        process: t.process,
        birth: t.birth,
        next_identifier: t.next_identifier,
        next_ordinal: t.next_ordinal,
    }
}

/// The thread as a caller, if it is live.
pub fn live_caller(t: &ThreadRow) -> Option<Caller>
    ensures { result ≡ (if t.now.live then Some (callers.caller_of t.now) else None) }
{
    if t.live { Some(caller_of(t)) } else { None }
}

/// The thread is live and has the numbers of the client.
pub fn is_client(t: &ThreadRow, client: ClientId) -> bool
    ensures { result ≡ is_live_client client t.now }
{
    t.number == client.thread && t.process == client.process && t.live
}

/// Writes the count of live threads beside the process of the key, where it has a row. So many live processes are to
/// end, fewer than 2^32, and the result is how many are then. Where each live process is counted for its maker, it is so
/// then too.
pub fn recount(
    rows: &mut Slots<Counted>,
    key: Key,
    live: usize,
    dooms: usize,
    children: &mut Tally,
) -> usize
    requires dooms { dooms ≡ count is_doomed_row (rows_in rows.old) }
    requires few { dooms < 2 ^ 32 }
    requires children { AreTallied (rows_in rows.old) children.old }
    ensures rows { rows.new ≡ changed rows.old (Some key) (counting live) }
    ensures dooms { result ≡ count is_doomed_row (rows_in rows.new) }
    ensures children { AreTallied (rows_in rows.new) children.new }
{
    match rows.get_mut(key) {
        Some(process) => {
            births::retell(children, process, live);
            let others = dooms - exceptions::doomed_count(process);
            process.live = live;
            others + exceptions::doomed_count(process)
        }
        None => dooms,
    }
}

/// The name of the object that a thread makes next.
pub fn next_birth(row: &ThreadRow) -> Birth
    ensures { result ≡ procs.next_birth row.now }
{
    Birth {
        maker: row.number,
        ordinal: row.next_ordinal,
        process: row.process,
    }
}
