// The words of an entry, each written into a buffer on the stack, behind what it has so far, where there is room for
// it. Most answer where their text ends. They are inlined, since a call of one costs as much as the few bytes that it
// writes.
ghost use Rattle.std.specs.Prelude.{◌≡◌, ◌+◌, ◌*◌, ◌≤◌, ◌∷◌, [], ◌++◌, decimal, length, take};
ghost use Rattle.hex.specs.Hex.{encode_lower};
ghost use Rattle.lpc_model.specs.Text.{by_text, eight_digits, status_text};
ghost use Rattle.lpc_transcript.specs.Printing.{died_text, directive_text, ended_text, pair_of};

use lpc_base::Status;
use lpc_model::{CallName, Word};

/// How many bytes are gathered before they are put behind the text.
pub(crate) const ROOM: usize = 256;

/// The two hexadecimal digits of each byte.
static PAIRS: [u8; 512] =
    *b"000102030405060708090a0b0c0d0e0f101112131415161718191a1b1c1d1e1f202122232425262728292a2b2c2d2e2f303132333435363738393a3b3c3d3e3f404142434445464748494a4b4c4d4e4f505152535455565758595a5b5c5d5e5f606162636465666768696a6b6c6d6e6f707172737475767778797a7b7c7d7e7f808182838485868788898a8b8c8d8e8f909192939495969798999a9b9c9d9e9fa0a1a2a3a4a5a6a7a8a9aaabacadaeafb0b1b2b3b4b5b6b7b8b9babbbcbdbebfc0c1c2c3c4c5c6c7c8c9cacbcccdcecfd0d1d2d3d4d5d6d7d8d9dadbdcdddedfe0e1e2e3e4e5e6e7e8e9eaebecedeeeff0f1f2f3f4f5f6f7f8f9fafbfcfdfeff";

// The two digits of a byte.
#[inline(always)]
fn write_pair(to: &mut [u8; ROOM], at: usize, byte: u8)
    requires { at + 2 ≤ ROOM }
    ensures { take (at + 2) to.new ≡ take at to.old ++ pair_of byte }
{
    let from = byte as usize * 2;
    let (high, low) = (PAIRS[from], PAIRS[from + 1]);
    to[at] = high;
    to[at + 1] = low;
}

/// Bytes as pairs of hexadecimal digits.
#[inline(always)]
pub(crate) fn write_read(to: &mut [u8; ROOM], at: usize, bytes: &[u8]) -> usize
    requires { at + 2 * length bytes.now ≤ ROOM }
    ensures end { result ≡ at + 2 * length bytes.now }
    ensures text { take result to.new ≡ take at to.old ++ encode_lower bytes.now }
{
    let mut end = at;
    for byte in bytes {
        write_pair(to, end, *byte);
        end += 2;
    }
    end
}

/// A number as eight hexadecimal digits.
#[inline(always)]
pub(crate) fn write_digits(to: &mut [u8; ROOM], at: usize, number: u32) -> usize
    requires { at + 8 ≤ ROOM }
    ensures end { result ≡ at + 8 }
    ensures text { take result to.new ≡ take at to.old ++ eight_digits number }
{
    write_read(to, at, number.to_be_bytes().as_slice())
}

// How many digits a number has in decimal.
fn count_many(number: u64) -> usize
    ensures { result ≡ length (decimal number) }
{
    let mut left = number;
    let mut count = 1;
    while left >= 10 {
        left /= 10;
        count += 1;
    }
    count
}

// A number of so many digits.
#[inline(always)]
fn write_counted(to: &mut [u8; ROOM], at: usize, number: u64, count: usize) -> usize
    requires count { count ≡ length (decimal number) }
    requires room { at + 20 ≤ ROOM }
    ensures end { result ≤ at + 20 }
    ensures text { take result to.new ≡ take at to.old ++ decimal number }
{
    let end = at + count;
    let _start = itoa::write_digits(number, to, end);
    end
}

/// A number in decimal. Most have few digits: what writes them is inlined once for each count.
#[inline(always)]
pub(crate) fn write_number(to: &mut [u8; ROOM], at: usize, number: u64) -> usize
    requires { at + 20 ≤ ROOM }
    ensures end { result ≤ at + 20 }
    ensures text { take result to.new ≡ take at to.old ++ decimal number }
{
    if number < 10 {
        write_counted(to, at, number, 1)
    } else if number < 100 {
        write_counted(to, at, number, 2)
    } else if number < 1000 {
        write_counted(to, at, number, 3)
    } else if number < 10_000 {
        write_counted(to, at, number, 4)
    } else {
        write_counted(to, at, number, count_many(number))
    }
}

/// Bytes as they stand.
#[inline(always)]
pub(crate) fn write_text(to: &mut [u8; ROOM], at: usize, text: &[u8]) -> usize
    requires { at + length text.now ≤ ROOM }
    ensures end { result ≡ at + length text.now }
    ensures text { take result to.new ≡ take at to.old ++ text.now }
{
    let end = at + text.len();
    to[at..end].copy_from_slice(text);
    end
}

/// The first bytes of a row, so many. The row is copied at once, and what comes next is written over the rest of it.
#[inline(always)]
pub(crate) fn write_row(to: &mut [u8; ROOM], at: usize, row: &[u8; 16], count: usize) -> usize
    requires room { at + 16 ≤ ROOM }
    requires within { count ≤ 16 }
    ensures end { result ≡ at + count }
    ensures text { take result to.new ≡ take at to.old ++ take count row.now }
{
    to[at..at + 16].copy_from_slice(row);
    at + count
}

/// A byte.
#[inline(always)]
pub(crate) fn write_byte(to: &mut [u8; ROOM], at: usize, byte: u8) -> usize
    requires { at + 1 ≤ ROOM }
    ensures end { result ≡ at + 1 }
    ensures text { take result to.new ≡ take at to.old ++ byte ∷ [] }
{
    to[at] = byte;
    at + 1
}

/// A thread and its call.
#[tactic(auto, using(std::proofs::Common::append_assoc, crate::proofs::Short::call_short))]
#[inline(always)]
pub(crate) fn write_by(to: &mut [u8; ROOM], at: usize, tid: u32, call: CallName) -> usize
    requires { at + 50 ≤ ROOM }
    ensures end { result ≤ at + 50 }
    ensures text { take result to.new ≡ take at to.old ++ by_text tid call }
{
    let number = write_number(to, at, u64::from(tid));
    let space = write_byte(to, number, b' ');
    write_text(to, space, call.name())
}

#[tactic(auto, using(std::proofs::Common::append_assoc))]
#[inline(always)]
fn write_status(to: &mut [u8; ROOM], at: usize, status: Status) -> usize
    requires { at + 9 ≤ ROOM }
    ensures end { result ≡ at + 9 }
    ensures text { take result to.new ≡ take at to.old ++ status_text status }
{
    // As most are.
    if status.0 == 0 {
        return write_text(to, at, b" 00000000");
    }
    let space = write_byte(to, at, b' ');
    write_digits(to, space, status.0)
}

/// A thread, its call and the status with which the call ended.
#[tactic(auto, using(std::proofs::Common::append_assoc))]
#[inline(always)]
pub(crate) fn write_ended(
    to: &mut [u8; ROOM],
    at: usize,
    tid: u32,
    call: CallName,
    status: Status,
) -> usize
    requires { at + 59 ≤ ROOM }
    ensures end { result ≤ at + 59 }
    ensures text { take result to.new ≡ take at to.old ++ ended_text tid call status }
{
    let by = write_by(to, at, tid, call);
    write_status(to, by, status)
}

/// A thread that made no call, and why.
#[tactic(auto, using(std::proofs::Common::append_assoc))]
#[inline(always)]
pub(crate) fn write_state(to: &mut [u8; ROOM], at: usize, tid: u32, state: &[u8]) -> usize
    requires { at + 20 + length state.now ≤ ROOM }
    ensures end { result ≤ at + 20 + length state.now }
    ensures text { take result to.new ≡ take at to.old ++ (decimal tid ++ state.now) }
{
    let number = write_number(to, at, u64::from(tid));
    write_text(to, number, state)
}

/// A thread that died, and the status with which it did.
#[tactic(auto, using(std::proofs::Common::append_assoc))]
#[inline(always)]
pub(crate) fn write_death(to: &mut [u8; ROOM], at: usize, tid: u32, status: Status) -> usize
    requires { at + 35 ≤ ROOM }
    ensures end { result ≤ at + 35 }
    ensures text { take result to.new ≡ take at to.old ++ died_text tid status }
{
    let mark = write_byte(to, at, b'~');
    let state = write_state(to, mark, tid, b" died");
    write_status(to, state, status)
}

/// A directive and its status.
#[tactic(auto, using(std::proofs::Common::append_assoc, crate::proofs::Short::word_short))]
#[inline(always)]
pub(crate) fn write_directive(to: &mut [u8; ROOM], at: usize, word: Word, status: Status) -> usize
    requires { at + 19 ≤ ROOM }
    ensures end { result ≤ at + 19 }
    ensures text { take result to.new ≡ take at to.old ++ directive_text word status }
{
    let dash = write_text(to, at, b"- ");
    let name = write_text(to, dash, word.name());
    write_status(to, name, status)
}
