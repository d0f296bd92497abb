// The ports that are told of processes' exceptions, and the processes that are to end.
ghost use Rattle.std.specs.Prelude.{◌≡◌, ◌*◌, ◌<◌, ◌≤◌, ◌^◌, if◌then◌else◌, length, option_map};
ghost use Rattle.lpc_base.specs.Rows.{count, passes, which};
ghost use Rattle.lpc_procs.specs.Kept as kept;
ghost use Rattle.lpc_procs.specs.Kept.{is_doomed_row, is_watched, process_rows, rows_in};
ghost use Rattle.lpc_procs.specs.Procs as procs;
ghost use Rattle.lpc_procs.specs.Procs.{doomed_as, event_ports, event_ports_of, is_of_birth, least};

use crate::births::is_peopled;
use crate::keys::row_at;
use crate::rows::Counted;
use crate::searches::Test;
use crate::{Doomed, ProcessRow, Registration};
use lpc_base::Birth;
use lpc_slots::Slots;

// A port is set, and is the one with the birth.
fn is_port(port: Option<Registration>, birth: Birth) -> bool
    ensures { result ≡ passes port (is_of_birth birth) }
{
    match port {
        Some(r) => birth == r.birth,
        None => false,
    }
}

// The port with the birth is told of the process's exceptions.
#[tactic(auto, using(crate::proofs::Events::has_listed))]
fn has_event_port(p: &ProcessRow, birth: Birth) -> bool
    ensures { result ≡ procs.has_event_port birth p.now }
{
    is_port(p.debug_port, birth) || is_port(p.exception_port, birth)
}

// How many of the ports that are told of the process's exceptions are the one with the birth.
#[tactic(auto, using(crate::proofs::Events::count_listed))]
fn count_of(p: &ProcessRow, birth: Birth) -> usize
    ensures count { result ≡ count (is_of_birth birth) (event_ports_of p.now) }
    ensures most { result ≤ 2 }
{
    let debug = if is_port(p.debug_port, birth) { 1 } else { 0 };
    let exception = if is_port(p.exception_port, birth) {
        1
    } else {
        0
    };
    debug + exception
}

/// A process of whose exceptions the port with the birth is told.
#[derive(Clone, Copy)]
pub struct Told {
    /// The birth.
    pub birth: Birth,
}

impl<'t> Test<Counted<'t>> for Told {
    ghost use Rattle.lpc_procs.specs.Procs.{has_event_port};

    ghost test = { λ asked p. has_event_port asked.birth p.row };

    fn passes(&self, p: &Counted<'t>) -> bool {
        has_event_port(&p.row, self.birth)
    }
}

/// How many of the ports that are told of the exceptions of processes are the one with the birth. There are fewer than
/// 2^32 processes.
pub fn event_ports_to(rows: &Slots<Counted>, birth: Birth) -> usize
    requires few { length (rows_in rows.now) < 2 ^ 32 }
    ensures count { result ≡ count (is_of_birth birth)
        (event_ports (process_rows (rows_in rows.now))) }
    ensures bound { result ≤ 2 * length (rows_in rows.now) }
{
    let mut named = 0;
    for place in 0..rows.count() {
        named += count_of(&row_at(rows, place).row, birth);
    }
    named
}

/// A port is told of the process's exceptions.
pub fn is_watched(p: &Counted) -> bool
    ensures { result ≡ is_watched p.now }
{
    p.row.debug_port.is_some() || p.row.exception_port.is_some()
}

/// How many this process adds to those of whose exceptions a port is told: 1 or 0.
pub fn watched_count(p: &Counted) -> usize
    ensures { result ≡ (if is_watched p.now then 1 else 0) }
{
    usize::from(is_watched(p))
}

/// The code with which a process is to end: the first stays.
pub fn first_code(code: u32, doom: Option<u32>) -> u32
    ensures { result ≡ procs.first_code code doom }
{
    doom.unwrap_or(code)
}

// The process is to end and is live, as its count tells.
fn is_doomed(p: &Counted) -> bool
    ensures { result ≡ is_doomed_row p.now }
{
    p.row.doom.is_some() && is_peopled(p)
}

/// How many this process adds to those that are to end and are live: 1 or 0.
pub fn doomed_count(p: &Counted) -> usize
    ensures count { result ≡ (if is_doomed_row p.now then 1 else 0) }
    ensures most { result ≤ 1 }
{
    usize::from(is_doomed(p))
}

// The process with its code, where it is to end and is live, as its count tells.
fn doomed_in(p: &Counted) -> Option<Doomed>
    ensures { result ≡ kept.doomed_in p.now }
{
    let code = p.row.doom?;
    if is_peopled(p) {
        Some(Doomed {
            number: p.row.number,
            code,
        })
    } else {
        None
    }
}

// Of two processes that are to end the one of the lesser number.
fn lesser(one: Option<Doomed>, other: Option<Doomed>) -> Option<Doomed>
    ensures { result ≡ kept.lesser_doomed one other }
{
    match (one, other) {
        (Some(first), Some(second)) if second.number < first.number => Some(second),
        (Some(first), _) => Some(first),
        (None, second) => second,
    }
}

/// Of the processes that are to end and are live, as their counts tell, the one of the least number.
#[tactic(auto, using(crate::proofs::Events::doomed_first, crate::proofs::Events::doomed_last))]
pub fn least_doomed(rows: &Slots<Counted>) -> Option<Doomed>
    ensures { result
        ≡ option_map doomed_as (least (process_rows (which is_doomed_row (rows_in rows.now)))) }
{
    let mut least = None;
    for place in 0..rows.count() {
        least = lesser(least, doomed_in(row_at(rows, place)));
    }
    least
}
