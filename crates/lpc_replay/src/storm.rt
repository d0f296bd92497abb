// A storm is run: each line is written, read, stepped and printed as one of a script is, and the whole is summed up.
ghost use Rattle.std.specs.Prelude.{◌≡◌, ◌≤◌, ◌+◌, ◌%◌, ◌^◌, ◌∷◌, [], sum, count_by, IfOk, OnOk};
ghost use Rattle.std.specs.List.{flat_map};
ghost use Rattle.lpc_storm.specs.Generated as storm;
ghost use Rattle.lpc_storm.specs.Generated.{line_text};
ghost use Rattle.lpc_storm.specs.Summary as summary;
ghost use Rattle.lpc_replay.specs.Storming.{behind_storm, calm, tallied};

use crate::form::Form;
use crate::playback::Playback;
use lpc_base::OutOfMemory;
use lpc_base::status::{REPLY_MESSAGE_MISMATCH, SUCCESS};
use lpc_model::{CallName, Entry, LineFault};
use lpc_script::Scratch;
use lpc_storm::{CLIENTS, ROUNDS_LIMIT, Rounds, StormLine, Summary, connecting, ending, opening};
use lpc_tokens::TokenArena;
use std::alloc::Global;
use std::marker::Model;

/// The room for a line of a storm that is made at first.
const LINE_ROOM: usize = 80;

/// A storm as far as it has run.
#[derive(Drop)]
struct Storm<'t> {
    line: Vec<u8>,
    scratch: Scratch,
    fault: Option<LineFault>,
    replies: u128,
    mismatches: u128,
    total: u32,
    playback: Playback<'t>,
}

impl<'t> Model for Storm<'t> {
    ghost use Rattle.std.specs.Prelude.{◌≡◌, ◌≤◌, ◌*◌, ◌^◌};
    ghost use Rattle.lpc_base.specs.declared.limits.TheConstants.{LINES_LIMIT};
    ghost use Rattle.lpc_replay.specs.Storming.{Tally};
    ghost use Rattle.lpc_replay.specs.declared.form.Form.TheVariants.{Transcript};

    ghost Value = { Tally };

    ghost view = { λ s. record {
      at = s.playback.at;
      fault = s.fault;
      replies = s.replies;
      mismatches = s.mismatches;
      total = s.total;
    } };

    ghost invariant = { λ s. (s.playback.form ≡ Transcript)
        × (s.playback.at.lines ≤ LINES_LIMIT)
        × (s.replies ≤ s.playback.at.lines * 2 ^ 64)
        × (s.mismatches ≤ s.playback.at.lines * 2 ^ 64) };
}

/// The call is that of a request that waits for its reply.
fn is_request(call: CallName) -> bool
    ensures { result ≡ summary.is_request call }
{
    match call {
        CallName::NtRequestWaitReplyPort => true,
        _ => false,
    }
}

/// A request returned with its reply.
#[tactic(auto, unfolding(lpc_storm::specs::Summary::is_replied))]
fn is_replied(entry: &Entry) -> bool
    ensures { result ≡ summary.is_replied entry.now }
{
    match entry {
        Entry::Wakes { call, status, .. } => is_request(*call) && status.0 == SUCCESS.0,
        _ => false,
    }
}

/// A reply fitted no request.
#[tactic(auto, unfolding(lpc_storm::specs::Summary::is_mismatch))]
fn is_mismatch(entry: &Entry) -> bool
    ensures { result ≡ summary.is_mismatch entry.now }
{
    match entry {
        Entry::Answer { status, .. } => status.0 == REPLY_MESSAGE_MISMATCH.0,
        _ => false,
    }
}

/// How many requests returned with their reply.
fn replies_in(entries: &[Entry]) -> usize
    ensures { result ≡ count_by summary.is_replied entries.now }
{
    let mut count = 0;
    for entry in entries {
        count += usize::from(is_replied(entry));
    }
    count
}

/// How many replies fitted no request.
fn mismatches_in(entries: &[Entry]) -> usize
    ensures { result ≡ count_by summary.is_mismatch entries.now }
{
    let mut count = 0;
    for entry in entries {
        count += usize::from(is_mismatch(entry));
    }
    count
}

/// A sum of bytes, modulo 2^32, and more bytes.
fn summed(total: u32, bytes: &[u8]) -> u32
    ensures { result ≡ (total + sum bytes.now) % 2 ^ 32 }
{
    let mut total = total;
    for byte in bytes {
        total = total.wrapping_add(u32::from(*byte));
    }
    total
}

impl<'t> Storm<'t> {
    /// Before the first line. Tokens lie in this arena.
    fn new(alloc: Global, arena: &'t TokenArena) -> Result<Storm<'t>, OutOfMemory>
        ensures { IfOk result (λ s. s ≡ calm) }
    {
        let Ok(line) = Vec::with_capacity(alloc, LINE_ROOM) else {
            return Err(OutOfMemory);
        };
        let scratch = Scratch::new(alloc)?;
        let playback = Playback::new(alloc, arena, Form::Transcript)?;
        Ok(Storm {
            line,
            scratch,
            fault: None,
            replies: 0,
            mismatches: 0,
            total: 0,
            playback,
        })
    }

    /// Runs one line, unless an earlier one was faulty.
    fn run_line(&mut self, line: &StormLine) -> Result<(), OutOfMemory>
        ensures { OnOk result (self.new ≡ behind_storm self.old (line.now ∷ [])) }
    {
        if self.fault.is_some() {
            return Ok(());
        }
        line.write(&mut self.line)?;
        self.fault = self.playback.run_line(&mut self.scratch, &self.line)?;
        if self.fault.is_some() {
            return Ok(());
        }
        let entries = self.playback.entries().list();
        self.replies += replies_in(entries) as u128;
        self.mismatches += mismatches_in(entries) as u128;
        self.total = summed(self.total, self.playback.text());
        Ok(())
    }

    /// Runs lines in order.
    fn run_lines(&mut self, lines: &[StormLine]) -> Result<(), OutOfMemory>
        ensures { OnOk result (self.new ≡ behind_storm self.old lines.now) }
    {
        for line in lines {
            self.run_line(line)?;
        }
        Ok(())
    }

    /// Makes the connections of the clients.
    fn connect(&mut self, clients: &[u32]) -> Result<(), OutOfMemory>
        ensures { OnOk result (self.new
            ≡ behind_storm self.old (flat_map storm.connecting clients.now)) }
    {
        for client in clients {
            self.run_lines(&connecting(*client))?;
        }
        Ok(())
    }

    /// Runs so many rounds.
    fn run_rounds(&mut self, count: u32, seed: u32) -> Result<(), OutOfMemory>
        requires { count ≤ 200000 }
        ensures { OnOk result (self.new
            ≡ behind_storm self.old (storm.rounds count (storm.start seed))) }
    {
        let mut rounds = Rounds::new(seed);
        for _round in 0..count {
            self.run_lines(rounds.next_round().lines())?;
        }
        Ok(())
    }

    /// Prints the last line, and sums up.
    fn sum_up(&mut self) -> Result<Summary, OutOfMemory>
        ensures { IfOk result (λ s. s ≡ tallied self.old) }
    {
        self.playback.end(self.fault)?;
        Ok(Summary {
            lines: self.playback.lines(),
            entries: self.playback.told(),
            objects: self.playback.objects(),
            replies: self.replies,
            mismatches: self.mismatches,
            sum: summed(self.total, self.playback.text()),
        })
    }
}

/// Runs the script of so many rounds, at most 200,000, from a seed, and sums up what it came to. The script never stands
/// in memory as a whole: one line is made, run and counted after the other.
///
/// OutOfMemory comes where memory for a line, its step, its entries or their text is wanting; no clause tells more of
/// when it does.
pub fn run_storm(alloc: Global, count: u32, seed: u32) -> Result<Summary, OutOfMemory>
    requires { count ≤ 200000 }
    ensures { IfOk result (λ s. s ≡ summary.summary_of (storm.generated count seed)) }
{
    let arena = TokenArena::new(alloc);
    let mut storm = Storm::new(alloc, &arena)?;
    storm.run_lines(&opening())?;
    storm.connect(&CLIENTS)?;
    storm.run_rounds(count, seed)?;
    storm.run_lines(&ending())?;
    storm.sum_up()
}
