// What is gathered in a buffer on the stack: it is put behind the text where the buffer has no room for more.
ghost use Rattle.std.specs.Prelude.{◌≡◌, ◌+◌, ◌<◌, ◌≤◌, [], ◌++◌, IfOk, OnErr, vec_capacity};
ghost use Rattle.hex.specs.Hex.{encode_lower};
ghost use Rattle.lpc_model.specs.Text.{sids_text};
ghost use Rattle.lpc_transcript.specs.Printing.{BeginsWith, Overfills, gathered};

use crate::sids::put_sids;
use crate::spell::{ROOM, write_read};
use crate::words::{put, put_read};
use lpc_base::OutOfMemory;
use lpc_sid::Sid;

// Puts what the buffer has behind the text, and answers where the buffer goes on. It stands apart, so that what is
// inlined stays small.
#[inline(never)]
fn flush(into: &mut Vec<u8>, buffer: &[u8; ROOM], at: usize) -> Result<usize, OutOfMemory>
    requires { at ≤ ROOM }
    ensures ok { IfOk result (λ end. gathered into.new buffer.now end
        ≡ gathered into.old buffer.now at) }
    ensures emptied { IfOk result (λ end. end ≡ 0) }
    ensures front { BeginsWith into.new.items into.old.items }
    ensures capacity { vec_capacity into.old ≤ vec_capacity into.new }
    ensures wanting { OnErr result (Overfills into.old buffer.now at []) }
{
    put(into, &buffer[..at])?;
    Ok(0)
}

/// Makes room in the buffer for so many more bytes, and answers where it goes on.
///
/// OutOfMemory comes only where there was no room for what was gathered; the text begins as it was then.
#[inline(always)]
pub(crate) fn make_room(
    into: &mut Vec<u8>,
    buffer: &[u8; ROOM],
    at: usize,
    more: usize,
) -> Result<usize, OutOfMemory>
    requires within { at ≤ ROOM }
    requires fits { more ≤ ROOM }
    ensures ok { IfOk result (λ end. gathered into.new buffer.now end
        ≡ gathered into.old buffer.now at) }
    ensures room { IfOk result (λ end. end + more ≤ ROOM) }
    ensures front { BeginsWith into.new.items into.old.items }
    ensures capacity { vec_capacity into.old ≤ vec_capacity into.new }
    ensures wanting { OnErr result (Overfills into.old buffer.now at []) }
{
    if at + more <= ROOM {
        return Ok(at);
    }
    flush(into, buffer, at)
}

// Bytes for which the buffer has no room.
#[tactic(auto, using(std::proofs::Common::append_assoc, crate::proofs::Begins::begins_after))]
#[inline(never)]
fn put_long(
    into: &mut Vec<u8>,
    buffer: &[u8; ROOM],
    at: usize,
    bytes: &[u8],
) -> Result<usize, OutOfMemory>
    requires { at ≤ ROOM }
    ensures ok { IfOk result (λ end. gathered into.new buffer.now end
        ≡ gathered into.old buffer.now at ++ encode_lower bytes.now) }
    ensures emptied { IfOk result (λ end. end ≡ 0) }
    ensures front { BeginsWith into.new.items into.old.items }
    ensures capacity { vec_capacity into.old ≤ vec_capacity into.new }
    ensures wanting { OnErr result (Overfills into.old buffer.now at (encode_lower bytes.now)) }
{
    let start = flush(into, buffer, at)?;
    put_read(into, bytes)?;
    Ok(start)
}

/// Bytes as pairs of hexadecimal digits. One more byte has room behind them. Answers where the buffer goes on.
///
/// OutOfMemory comes only where there was no room for them behind what was gathered; the text begins as it was then.
#[inline(always)]
pub(crate) fn gather_read(
    into: &mut Vec<u8>,
    buffer: &mut [u8; ROOM],
    at: usize,
    bytes: &[u8],
) -> Result<usize, OutOfMemory>
    requires { at ≤ ROOM }
    ensures ok { IfOk result (λ end. gathered into.new buffer.new end
        ≡ gathered into.old buffer.old at ++ encode_lower bytes.now) }
    ensures room { IfOk result (λ end. end < ROOM) }
    ensures front { BeginsWith into.new.items into.old.items }
    ensures capacity { vec_capacity into.old ≤ vec_capacity into.new }
    ensures wanting { OnErr result (Overfills into.old buffer.old at (encode_lower bytes.now)) }
{
    if bytes.len() < (ROOM - at) / 2 {
        return Ok(write_read(buffer, at, bytes));
    }
    put_long(into, buffer, at, bytes)
}

/// SIDs, parted by commas. One more byte has room behind them. Answers where the buffer goes on.
///
/// OutOfMemory comes only where there was no room for them behind what was gathered; the text begins as it was then.
#[tactic(auto, using(std::proofs::Common::append_assoc, crate::proofs::Begins::begins_after))]
#[inline(never)]
pub(crate) fn gather_sids(
    into: &mut Vec<u8>,
    buffer: &[u8; ROOM],
    at: usize,
    sids: &[Sid],
) -> Result<usize, OutOfMemory>
    requires { at ≤ ROOM }
    ensures ok { IfOk result (λ end. gathered into.new buffer.now end
        ≡ gathered into.old buffer.now at ++ sids_text sids.now) }
    ensures room { IfOk result (λ end. end < ROOM) }
    ensures front { BeginsWith into.new.items into.old.items }
    ensures capacity { vec_capacity into.old ≤ vec_capacity into.new }
    ensures wanting { OnErr result (Overfills into.old buffer.now at (sids_text sids.now)) }
{
    let start = flush(into, buffer, at)?;
    put_sids(into, sids)?;
    Ok(start)
}
