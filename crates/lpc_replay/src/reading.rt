// A script is read in pieces, a line at a time.
ghost use Rattle.std.specs.Prelude.{◌≡◌, ◌<◌, ◌≤◌, [], true, false, drop, length, IfOk, IfSome, OnErr, OnOk};
ghost use Rattle.lpc_base.specs.Streams.{Rose};
ghost use Rattle.lpc_base.specs.declared.limits.TheConstants.{LINE_LIMIT};
ghost use Rattle.lpc_script.specs.Feeding.{has_end};
ghost use Rattle.lpc_replay.specs.declared.reading.NextLine.TheVariants.{End, SourceFailed, TooMany};
ghost use Rattle.lpc_replay.specs.Reading.{Advances, Fills, IsAskedForPieces, has_failed, is_line};

use lpc_base::{Failed, OutOfMemory, Source};
use lpc_script::{Fed, LineBuffer};
use std::alloc::Global;
use std::marker::Model;

/// The most bytes that a source is asked for at once.
const PIECE_SIZE: usize = 4096;

/// What was read at once, as far as nothing was taken of it yet.
#[derive(Drop)]
pub struct Piece {
    bytes: [u8; PIECE_SIZE],
    start: usize,
    end: usize,
}

impl Model for Piece {
    ghost use Rattle.std.specs.Prelude.{◌≡◌, ◌-◌, ◌≤◌, ℕ, List, drop, length, take};
    ghost use Rattle.lpc_replay.specs.declared.reading.TheConstants.{PIECE_SIZE};

    ghost Value = { List ℕ };

    ghost view = { λ p. take (p.end - p.start) (drop p.start p.bytes) };

    ghost invariant = { λ p. (p.start ≤ p.end) × (p.end ≤ PIECE_SIZE) };
}

impl Piece {
    /// No byte.
    fn none() -> Piece
        ensures { result ≡ [] }
    {
        Piece {
            bytes: [0; PIECE_SIZE],
            start: 0,
            end: 0,
        }
    }

    fn bytes(&self) -> &[u8]
        ensures bytes { result.now ≡ self.now }
        ensures limit { length result.now ≤ PIECE_SIZE }
    {
        &self.bytes[self.start..self.end]
    }

    /// Takes so many bytes from the front.
    fn pass(&mut self, count: usize)
        requires { count ≤ length self.old }
        ensures { self.new ≡ drop count self.old }
    {
        self.start += count;
    }

    /// Reads the next piece where nothing is left of this one, and answers whether there is a byte now. There is none
    /// only at the source's end.
    fn fill<S: Source>(&mut self, source: &mut S) -> Result<bool, Failed>
        ensures read { Fills (S.left source.old) (S.left source.new) self.old self.new }
        ensures limit { length self.new ≤ PIECE_SIZE }
        ensures some { IfOk result (λ some. some ≡ true → 0 < length self.new) }
        ensures none { IfOk result (λ some. some ≡ false → self.new ≡ []) }
        ensures end { IfOk result (λ some. some ≡ false →
            IfSome (S.left source.new) (λ left. left ≡ [])) }
        ensures lost { OnErr result (self.new ≡ []) }
        ensures failed { OnErr result (Rose (S.faults source.old) (S.faults source.new)) }
        ensures later { S.faults source.old ≤ S.faults source.new }
        ensures still { OnOk result (S.faults source.new ≡ S.faults source.old) }
        ensures asked { IsAskedForPieces (S.asked source.old) (S.asked source.new) }
        ensures runs { IfOk result (λ some. some ≡ true →
            (S.asked source.old).running ≡ true → (S.asked source.new).running ≡ true) }
    {
        if self.start < self.end {
            return Ok(true);
        }
        self.start = 0;
        self.end = 0;
        self.end = source.read(&mut self.bytes)?;
        Ok(self.end > 0)
    }
}

/// What the reading of a line came to.
#[derive(Clone, Copy)]
pub enum NextLine {
    /// A line that is ended by byte 10.
    Whole,
    /// A line of more than 16,384 bytes, of which the first of these was read.
    TooLong,
    /// A byte behind the last line that a script may have.
    TooMany,
    /// The source's end. What was read of a line is the last line, unless it is empty.
    End,
    /// The source failed. What was read of a line is no line, since more of it may have been left.
    SourceFailed,
}

/// A script as far as it was read: the line that was read last, and what was read behind it.
#[derive(Drop)]
pub struct Reader {
    /// The line.
    pub line: LineBuffer,
    /// What was read at once, and isn't taken yet.
    pub piece: Piece,
}

impl Reader {
    /// Nothing is read yet.
    ///
    /// OutOfMemory comes where memory for the line is wanting; no clause tells more of when it does.
    pub fn new(alloc: Global) -> Result<Reader, OutOfMemory>
        ensures { IfOk result (λ r. r.piece ≡ []) }
    {
        Ok(Reader {
            line: LineBuffer::new(alloc)?,
            piece: Piece::none(),
        })
    }

    /// Reads the next line: no further than its end, or its first byte that is one too many. The source is asked for at
    /// most 4,096 bytes at once.
    ///
    /// `is_full` says that a script may have no further line. Then the next byte is one of a line too many.
    pub fn next_line<S: Source>(&mut self, source: &mut S, is_full: bool) -> NextLine
        ensures read { Advances (S.left source.old) (S.left source.new) result
            self.old.piece self.new.line.line self.new.piece }
        ensures end { result ≡ End → IfSome (S.left source.new) (λ left. left ≡ []) }
        ensures room { is_line result ≡ true → is_full ≡ false }
        ensures many { result ≡ TooMany → is_full ≡ true }
        ensures empty { is_full ≡ true → self.new.line.line ≡ [] }
        ensures lacks { has_end self.new.line.line ≡ false }
        ensures limit { length self.new.line.line ≤ LINE_LIMIT }
        ensures ahead { length self.new.piece ≤ 4096 }
        ensures failed { result ≡ SourceFailed → Rose (S.faults source.old) (S.faults source.new) }
        ensures still { has_failed result ≡ false → S.faults source.new ≡ S.faults source.old }
        ensures later { S.faults source.old ≤ S.faults source.new }
        ensures asked { IsAskedForPieces (S.asked source.old) (S.asked source.new) }
        ensures runs { is_line result ≡ true →
            (S.asked source.old).running ≡ true → (S.asked source.new).running ≡ true }
    {
        self.line.clear();
        loop {
            match self.piece.fill(source) {
                Ok(true) => {}
                Ok(false) => return NextLine::End,
                Err(_) => return NextLine::SourceFailed,
            }
            if is_full {
                return NextLine::TooMany;
            }
            let (count, fed) = self.line.feed(self.piece.bytes());
            self.piece.pass(count);
            match fed {
                Fed::More => {}
                Fed::Line => return NextLine::Whole,
                Fed::Long => return NextLine::TooLong,
            }
        }
    }
}
