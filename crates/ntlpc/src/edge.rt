// The adapters over the standard streams, the trusted edge. What they hold or sent isn't told to the replay; their
// faults are counted. That no byte is lost or made between is said of every reader and writer that tells its bytes.
ghost use Rattle.std.specs.Prelude.{◌≡◌, ◌<◌, ◌≤◌, ◌-◌, ◌⊎◌, ◌∷◌, ◌++◌, [], min, length, drop, take, nat_lt, is_some, true, false, if◌then◌else◌, None, IfOk, IsOk, IsErr, OnOk, OnErr, vec_len, vec_capacity};
ghost use Rattle.std.specs.Io.KnownBytes.{Appends, Keeps, ReadConsumes, WriteAppends};
ghost use Rattle.lpc_base.specs.Streams.{HasCause, raised, taken};
ghost use Rattle.lpc_replay.specs.TopCall.{is_form, is_one_of, storm_of as storm_in};
ghost use Rattle.ntlpc.specs.Counted.{Counted};
ghost use Rattle.ntlpc.specs.Kept.{Kept, sent_to, text_before};

use lpc_base::{Failed, Sink, Source};
use lpc_replay::run_words;
use std::alloc::Global;
use std::io::{Read, Write};
use std::marker::Model;

#[cfg(test)]
mod tests;

/// The status of a program whose output failed.
const UNWRITTEN: u8 = 4;

/// A source over a reader.
#[derive(Drop)]
pub struct Input<R: Read> {
    reader: R,
    faults: u64,
}

impl<R: Read> Model for Input<R> {
    ghost Value = { Counted R };

    ghost view = { λ s. record { stream = s.reader; faults = s.faults } };
}

impl<R: Read> Input<R> {
    /// A source that has not failed yet.
    pub fn new(reader: R) -> Self
        ensures stream { result.stream ≡ reader }
        ensures faults { result.faults ≡ 0 }
    {
        Input { reader, faults: 0 }
    }
}

impl<R: Read> Source for Input<R> {
    ghost left = { λ _. None };

    ghost faults = { λ s. s.faults };

    /// The bytes are the reader's next ones, and 0 comes only at its end. A read that fails takes none. It is counted
    /// once, and not tried again.
    fn read(&mut self, into: &mut [u8]) -> Result<usize, Failed>
        requires { 0 < length into.old }
        ensures bound { IfOk result (λ n. n ≤ length into.new) }
        ensures rest { drop (taken result) into.new ≡ drop (taken result) into.old }
        ensures reader { ReadConsumes (R.remaining self.old.stream) (R.remaining self.new.stream)
            result into.new }
        ensures cause { HasCause self.old.faults self.new.faults result }
        ensures once { OnErr result (self.new.faults ≡ raised self.old.faults) }
        ensures still { IfOk result (λ _. self.new.faults ≡ self.old.faults) }
    {
        // A reader may write behind the bytes that it gives: it does so here, and not in what was lent.
        let mut piece = [0u8; 4096];
        let room = into.len().min(piece.len());
        match self.reader.read(&mut piece[..room]) {
            Ok(count) => {
                into[..count].copy_from_slice(&piece[..count]);
                Ok(count)
            }
            Err(_) => {
                self.faults = self.faults.saturating_add(1);
                Err(Failed)
            }
        }
    }
}

/// A sink over a writer, from which text may be kept back. It can't be let go before that is written, or a write failed.
pub struct Output<W: Write> {
    writer: W,
    text: Vec<u8>,
    room: usize,
    faults: u64,
}

impl<W: Write> Model for Output<W> {
    ghost Value = { Kept W };

    ghost view = { λ s. record {
      stream = s.writer;
      text = s.text.items;
      room = s.room;
      faults = s.faults;
    } };

    ghost invariant = { λ s. (vec_len s.text ≤ s.room) × (s.room ≤ vec_capacity s.text) };
}

impl<W: Write> Output<W> {
    /// A sink that has not failed yet, and keeps back so many bytes at most; none where memory for them is wanting.
    pub fn new(alloc: Global, writer: W, room: usize) -> Self
        ensures stream { result.stream ≡ writer }
        ensures text { result.text ≡ [] }
        ensures room { (result.room ≡ room) ⊎ (result.room ≡ 0) }
        ensures faults { result.faults ≡ 0 }
    {
        let (text, room) = match Vec::with_capacity(alloc, room) {
            Ok(text) => (text, room),
            Err(_) => (Vec::new(alloc), 0),
        };
        Output {
            writer,
            text,
            room,
            faults: 0,
        }
    }

    /// The status of a program that ends now, with this one where all is written: what is kept back is written first.
    /// Where a write failed, then or before, the status is 4.
    pub fn finish(&mut self, status: u8) -> u8
        ensures status { result ≡ (if nat_lt 0 self.new.faults then UNWRITTEN else status) }
        ensures written { self.new.faults ≡ 0 → self.new.text ≡ [] }
        ensures whole { self.new.faults ≡ 0 →
            Keeps (sent_to W.contents self.old) (W.contents self.new.stream) }
        ensures writer { Keeps (sent_to W.contents self.old) (sent_to W.contents self.new) }
        ensures behind { 0 < self.old.faults → self.new ≡ self.old }
        ensures once { self.old.faults ≡ 0 → self.new.faults ≤ 1 }
        ensures idle { self.old.text ≡ [] → self.new ≡ self.old }
    {
        if self.faults > 0 {
            return UNWRITTEN;
        }
        if self.flush().is_ok() {
            return status;
        }
        self.faults = 1;
        UNWRITTEN
    }

    /// The writer, which is given back only where nothing is kept back from it, or where it failed.
    pub fn into_writer(self) -> W
        requires { self.faults ≡ 0 → self.text ≡ [] }
        ensures { result ≡ self.stream }
    {
        let Output {
            writer,
            text: _,
            room: _,
            faults: _,
        } = self;
        writer
    }

    // Takes bytes of the front of a text, and counts no failure: those that have room, or where there is none at all
    // those that the writer takes.
    fn take(&mut self, from: &[u8]) -> Result<usize, Failed>
        requires { 0 < length from.now }
        ensures some { IfOk result (λ n. 1 ≤ n) }
        ensures bound { IfOk result (λ n. n ≤ length from.now) }
        ensures writer { WriteAppends (sent_to W.contents self.old) (sent_to W.contents self.new)
            result from.now }
        ensures most { length self.new.text ≤ self.new.room }
        ensures unwritten { length self.old.text < self.old.room → self.old.faults ≡ 0 →
            IsOk result × (self.new.stream ≡ self.old.stream) }
        ensures count { 0 < self.old.room → IfOk result (λ n.
            n ≡ min (length from.now) (self.old.room - length (text_before self.old))) }
        ensures kept { 0 < self.old.room → IfOk result (λ n.
            self.new.text ≡ text_before self.old ++ take n from.now) }
        ensures at_once { self.old.room ≡ 0 → (self.new.text ≡ []) ×
            WriteAppends (W.contents self.old.stream) (W.contents self.new.stream)
            result from.now }
        ensures behind { 0 < self.old.faults → IsErr result × (self.new ≡ self.old) }
        ensures room { self.new.room ≡ self.old.room }
        ensures faults { self.new.faults ≡ self.old.faults }
    {
        if self.faults > 0 {
            return Err(Failed);
        }
        if self.room == 0 {
            return write_some(&mut self.writer, from);
        }
        if self.text.len() == self.room {
            self.flush()?;
        }
        let count = from.len().min(self.room - self.text.len());
        self.text.extend_from_slice(&from[..count]).unwrap();
        Ok(count)
    }

    // Writes all that is kept back, and counts no failure. What a write that fails leaves is still kept.
    fn flush(&mut self) -> Result<(), Failed>
        ensures written { OnOk result (self.new.text ≡ []) }
        ensures writer { Keeps (sent_to W.contents self.old) (sent_to W.contents self.new) }
        ensures most { length self.new.text ≤ self.new.room }
        ensures idle { self.old.text ≡ [] → IsOk result × (self.new ≡ self.old) }
        ensures room { self.new.room ≡ self.old.room }
        ensures faults { self.new.faults ≡ self.old.faults }
    {
        if self.text.is_empty() {
            return Ok(());
        }
        let count = write_all(&mut self.writer, self.text.as_slice());
        remove_front(&mut self.text, count);
        if self.text.is_empty() {
            Ok(())
        } else {
            Err(Failed)
        }
    }
}

impl<W: Write> Sink for Output<W> {
    ghost sent = { λ _. None };

    ghost faults = { λ s. s.faults };

    ghost sure = { λ _. 0 };

    /// What the writer holds, and behind that what is kept back, grow by the bytes that are answered as sent. A write that
    /// fails adds none. It is counted once, and not tried again, and behind it the writer isn't asked.
    fn write(&mut self, from: &[u8]) -> Result<usize, Failed>
        requires { 0 < length from.now }
        ensures some { IfOk result (λ n. 1 ≤ n) }
        ensures bound { IfOk result (λ n. n ≤ length from.now) }
        ensures writer { WriteAppends (sent_to W.contents self.old) (sent_to W.contents self.new)
            result from.now }
        ensures most { length self.new.text ≤ self.new.room }
        ensures unwritten { length self.old.text < self.old.room → self.old.faults ≡ 0 →
            IsOk result × (self.new.stream ≡ self.old.stream) }
        ensures count { 0 < self.old.room → IfOk result (λ n.
            n ≡ min (length from.now) (self.old.room - length (text_before self.old))) }
        ensures kept { 0 < self.old.room → IfOk result (λ n.
            self.new.text ≡ text_before self.old ++ take n from.now) }
        ensures at_once { self.old.room ≡ 0 → (self.new.text ≡ []) ×
            WriteAppends (W.contents self.old.stream) (W.contents self.new.stream)
            result from.now }
        ensures behind { 0 < self.old.faults → IsErr result ×
            (self.new.stream ≡ self.old.stream) × (self.new.text ≡ self.old.text) }
        ensures room { self.new.room ≡ self.old.room }
        ensures cause { HasCause self.old.faults self.new.faults result }
        ensures once { OnErr result (self.new.faults ≡ raised self.old.faults) }
        ensures still { IfOk result (λ _. self.new.faults ≡ self.old.faults) }
    {
        match self.take(from) {
            Ok(count) => Ok(count),
            Err(_) => {
                self.faults = self.faults.saturating_add(1);
                Err(Failed)
            }
        }
    }
}

// Writes bytes of the front of a text, and answers how many. A writer that takes none has failed.
fn write_some<W: Write>(writer: &mut W, text: &[u8]) -> Result<usize, Failed>
    ensures some { IfOk result (λ n. 1 ≤ n) }
    ensures bound { IfOk result (λ n. n ≤ length text.now) }
    ensures writer { WriteAppends (W.contents writer.old) (W.contents writer.new)
        result text.now }
{
    match writer.write(text) {
        Ok(count) if count > 0 => Ok(count),
        _ => Err(Failed),
    }
}

// Writes a text up to its end or a failure, and answers how many bytes of it the writer took.
fn write_all<W: Write>(writer: &mut W, text: &[u8]) -> usize
    ensures bound { result ≤ length text.now }
    ensures writer { Appends (W.contents writer.old) (W.contents writer.new)
        (take result text.now) }
{
    let mut count = 0;
    while count < text.len() {
        match write_some(writer, &text[count..]) {
            Ok(more) => count += more,
            Err(_) => return count,
        }
    }
    count
}

// What is left behind the first bytes.
fn remove_front(text: &mut Vec<u8>, count: usize)
    requires { count ≤ vec_len text.old }
    ensures items { text.new.items ≡ drop count text.old.items }
    ensures len { vec_len text.new ≡ vec_len text.old - count }
    ensures capacity { vec_capacity text.new ≡ vec_capacity text.old }
{
    let len = text.len();
    text.as_mut_slice().copy_within(count..len, 0);
    text.truncate(len - count);
}

/// Runs the program's words over a reader and a writer, from which so much text may be kept back, and answers the status
/// that the program ends with.
pub fn run<R: Read + Drop, W: Write + Drop>(
    alloc: Global,
    words: &[String],
    reader: R,
    writer: W,
    room: usize,
) -> u8
    ensures statuses { is_one_of (0 ∷ 2 ∷ 3 ∷ 4 ∷ 5 ∷ 64 ∷ []) result ≡ true }
    ensures words { result ≡ 64 → is_form words.now ≡ false }
    ensures no_form { is_form words.now ≡ false → is_one_of (64 ∷ 4 ∷ []) result ≡ true }
    ensures storm { is_some (storm_in words.now) ≡ true →
        is_one_of (0 ∷ 4 ∷ 5 ∷ []) result ≡ true }
{
    let mut output = Output::new(alloc, writer, room);
    let status = run_words(alloc, words, &mut Input::new(reader), &mut output);
    let status = output.finish(status);
    let _ = output.into_writer();
    status
}
