// A line that comes in pieces.
ghost use Rattle.std.specs.Prelude.{◌≡◌, ◌<◌, ◌≤◌, ◌++◌, [], true, false, drop, length, IfOk};
ghost use Rattle.lpc_base.specs.declared.limits.TheConstants.{LINE_LIMIT};
ghost use Rattle.lpc_script.specs.Feeding.{IsParted, before_end, has_end, is_more, line_behind, taken_by, what_comes};

use lpc_base::OutOfMemory;
use lpc_base::limits::LINE_LIMIT;
use lpc_words::split_far;
use std::alloc::Global;
use std::marker::Model;

/// What came of a piece that was fed to a line.
#[derive(Clone, Copy, PartialEq)]
pub enum Fed {
    /// All of the piece belongs to the line, and more of the line is to come.
    More,
    /// The line ended: a byte 10 was taken.
    Line,
    /// The line is too long: a byte other than 10 was taken that is its byte 16,385.
    Long,
}

/// A line of a script as far as it came. It has room for the longest line, made once.
#[derive(Drop)]
pub struct LineBuffer {
    line: Vec<u8>,
    is_open: bool,
}

impl Model for LineBuffer {
    ghost use Rattle.std.specs.Prelude.{◌≡◌, ◌≤◌, false, length, vec_capacity};
    ghost use Rattle.lpc_base.specs.declared.limits.TheConstants.{LINE_LIMIT};
    ghost use Rattle.lpc_script.specs.Feeding.{Gathered, has_end};

    ghost Value = { Gathered };

    ghost view = { λ b. record { line = b.line.items; is_open = b.is_open } };

    ghost invariant = { λ b. (length b.line.items ≤ LINE_LIMIT)
        × (LINE_LIMIT ≤ vec_capacity b.line) × (has_end b.line.items ≡ false) };
}

impl LineBuffer {
    /// An empty line, with room for 16,384 bytes.
    ///
    /// OutOfMemory comes where memory for the room is wanting; no clause tells more of when it does.
    pub fn new(alloc: Global) -> Result<LineBuffer, OutOfMemory>
        ensures { IfOk result (λ b. b ≡ record { line = []; is_open = true }) }
    {
        let Ok(line) = Vec::with_capacity(alloc, LINE_LIMIT) else {
            return Err(OutOfMemory);
        };
        Ok(LineBuffer {
            line,
            is_open: true,
        })
    }

    /// Takes bytes from the front of a piece, up to the end of the line, and answers how many and what came of them. It
    /// takes no memory.
    ///
    /// The piece isn't empty, and since `clear` no line ended and none was too long. `Line` comes where the piece has a
    /// byte 10 and the line before it has at most 16,384 bytes, and that byte is the last one taken. `Long` comes where
    /// a byte other than 10 would be the line's byte 16,385, and that byte is the last one taken. `More` comes
    /// otherwise, and all is taken.
    pub fn feed(&mut self, piece: &[u8]) -> (usize, Fed)
        requires piece { 0 < length piece.now }
        requires open { self.old.is_open ≡ true }
        ensures comes { result.1 ≡ what_comes self.old.line piece.now }
        ensures taken { result.0 ≡ taken_by result.1 self.old.line piece.now }
        ensures line { self.new.line ≡ line_behind self.old.line piece.now }
        ensures open { self.new.is_open ≡ is_more result.1 }
        ensures parts { IsParted result.1 (self.old.line ++ piece.now) self.new.line
            (drop result.0 piece.now) }
        ensures limit { length self.new.line ≤ LINE_LIMIT }
        ensures lacks { has_end self.new.line ≡ false }
        ensures some { 1 ≤ result.0 }
        ensures bound { result.0 ≤ length piece.now }
    {
        let room = LINE_LIMIT - self.line.len();
        let (text, is_ended) = up_to_end(piece);
        if text.len() > room {
            self.line.extend_from_slice(&text[..room]).unwrap();
            self.is_open = false;
            return (room + 1, Fed::Long);
        }
        self.line.extend_from_slice(text).unwrap();
        if is_ended {
            self.is_open = false;
            return (text.len() + 1, Fed::Line);
        }
        (text.len(), Fed::More)
    }

    /// The bytes taken since `clear`, without the byte 10, and of a line that is too long the first 16,384.
    pub fn line(&self) -> &[u8]
        ensures line { result.now ≡ self.now.line }
        ensures limit { length result.now ≤ LINE_LIMIT }
        ensures end { has_end result.now ≡ false }
    {
        &self.line
    }

    /// Begins the next line: it is empty, and more of it may come.
    pub fn clear(&mut self)
        ensures { self.new ≡ record { line = []; is_open = true } }
    {
        self.line.clear();
        self.is_open = true;
    }
}

/// The bytes before the first byte 10, and whether there is one.
fn up_to_end(piece: &[u8]) -> (&[u8], bool)
    ensures text { result.0.now ≡ before_end piece.now }
    ensures end { result.1 ≡ has_end piece.now }
{
    match split_far(piece, b'\n') {
        Some((text, _)) => (text, true),
        None => (piece, false),
    }
}
