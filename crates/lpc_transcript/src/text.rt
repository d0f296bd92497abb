// The text of entries, and the last line of a transcript.
ghost use Rattle.std.specs.Prelude.{◌≡◌, ◌+◌, ◌<◌, ◌≤◌, ◌++◌, take, IfOk, OnOk, OnErr, vec_capacity};
ghost use Rattle.lpc_model.specs.Script.{kind_number};
ghost use Rattle.lpc_model.specs.Text.{entries_text, end_text, stop_text};
ghost use Rattle.lpc_transcript.specs.Printing.{BeginsWith, LacksRoom, Overfills, Puts, aside_of, gathered, line_of, lines_of, rest_of};

use crate::fields::gather_fields;
use crate::gather::make_room;
use crate::spell::{
    ROOM, write_by, write_byte, write_death, write_directive, write_ended, write_number,
    write_state, write_text,
};
use crate::words::{put, put_long_number, put_number};
use lpc_base::OutOfMemory;
use lpc_model::{Entries, Entry, LineFault};
use lpc_sid::Sid;

/// No line's number with what stands before the fields of an entry, and one more byte, with which a line ends, is
/// longer: each number is reckoned with 20 digits.
const FRONT_LIMIT: usize = 82;

// What stands behind the line's number, with these bytes where a memory read stands, and these groups where those of a
// token do. One more byte has room behind it.
#[tactic(auto, using(std::proofs::Common::append_assoc, crate::proofs::Begins::begins_itself))]
#[inline(always)]
fn gather_rest(
    into: &mut Vec<u8>,
    buffer: &mut [u8; ROOM],
    at: usize,
    entry: &Entry,
    read: &[u8],
    groups: &[Sid],
) -> Result<usize, OutOfMemory>
    requires { at + 60 < ROOM }
    ensures ok { IfOk result (λ end. gathered into.new buffer.new end
        ≡ gathered into.old buffer.old at ++ rest_of (aside_of read.now groups.now) entry.now) }
    ensures room { IfOk result (λ end. end < ROOM) }
    ensures front { BeginsWith into.new.items into.old.items }
    ensures capacity { vec_capacity into.old ≤ vec_capacity into.new }
    ensures wanting { OnErr result (Overfills into.old buffer.old at
        (rest_of (aside_of read.now groups.now) entry.now)) }
{
    match entry {
        Entry::Answer {
            tid,
            call,
            status,
            fields,
        } => {
            let ended = write_ended(buffer, at, *tid, *call, *status);
            gather_fields(into, buffer, ended, fields, read, groups)
        }
        Entry::Waits { tid, call, fields } => {
            let by = write_by(buffer, at, *tid, *call);
            let waits = write_text(buffer, by, b" wait");
            gather_fields(into, buffer, waits, fields, read, groups)
        }
        Entry::Wakes {
            tid,
            call,
            status,
            fields,
        } => {
            let star = write_byte(buffer, at, b'*');
            let ended = write_ended(buffer, star, *tid, *call, *status);
            gather_fields(into, buffer, ended, fields, read, groups)
        }
        Entry::Busy { tid } => Ok(write_state(buffer, at, *tid, b" busy")),
        Entry::NoThread { tid } => Ok(write_state(buffer, at, *tid, b" nothread")),
        Entry::Died { tid, status } => Ok(write_death(buffer, at, *tid, *status)),
        Entry::Directive { word, status } => Ok(write_directive(buffer, at, *word, *status)),
    }
}

#[tactic(auto, using(std::proofs::Common::append_assoc, crate::proofs::Begins::begins_after), unfolding(lpc_model::specs::Text::entry_text))]
#[inline(always)]
fn gather_entry(
    into: &mut Vec<u8>,
    buffer: &mut [u8; ROOM],
    at: usize,
    line: u32,
    entry: &Entry,
    read: &[u8],
    groups: &[Sid],
) -> Result<usize, OutOfMemory>
    requires { at ≤ ROOM }
    ensures ok { IfOk result (λ end. gathered into.new buffer.new end
        ≡ gathered into.old buffer.old at
        ++ line_of line (aside_of read.now groups.now) entry.now) }
    ensures room { IfOk result (λ end. end ≤ ROOM) }
    ensures front { BeginsWith into.new.items into.old.items }
    ensures capacity { vec_capacity into.old ≤ vec_capacity into.new }
    ensures wanting { OnErr result (Overfills into.old buffer.old at
        (line_of line (aside_of read.now groups.now) entry.now)) }
{
    let start = make_room(into, buffer, at, FRONT_LIMIT)?;
    let number = write_number(buffer, start, u64::from(line));
    let space = write_byte(buffer, number, b' ');
    let rest = gather_rest(into, buffer, space, entry, read, groups)?;
    Ok(write_byte(buffer, rest, b'\n'))
}

#[tactic(auto, using(std::proofs::Common::append_assoc, crate::proofs::Begins::begins_after, crate::proofs::Begins::begins_itself), unfolding(lpc_model::specs::Text::entries_text))]
fn put_entries(
    into: &mut Vec<u8>,
    line: u32,
    entries: &[Entry],
    read: &[u8],
    groups: &[Sid],
) -> Result<(), OutOfMemory>
    ensures ok { Puts into.old.items into.new.items
        (lines_of line (aside_of read.now groups.now) entries.now) result }
    ensures err { OnErr result (BeginsWith into.new.items into.old.items) }
    ensures capacity { vec_capacity into.old ≤ vec_capacity into.new }
    ensures wanting { OnErr result (LacksRoom into.old
        (lines_of line (aside_of read.now groups.now) entries.now)) }
{
    let mut buffer = [0u8; ROOM];
    let mut end = 0;
    for entry in entries {
        end = gather_entry(into, &mut buffer, end, line, entry, read, groups)?;
    }
    put(into, &buffer[..end])
}

// After want of memory takes away what was printed since the text was so long.
fn all_or_none(
    into: &mut Vec<u8>,
    before: usize,
    printed: Result<(), OutOfMemory>,
) -> Result<(), OutOfMemory>
    ensures result { result ≡ printed }
    ensures ok { OnOk printed (into.new.items ≡ into.old.items) }
    ensures err { OnErr printed (into.new.items ≡ take before into.old.items) }
    ensures capacity { vec_capacity into.new ≡ vec_capacity into.old }
{
    if printed.is_err() {
        into.truncate(before);
    }
    printed
}

/// Appends the text of a line's entries: for each entry in order the number of the line, who is spoken of, the call,
/// how it ended and its fields, ended by byte 10. The form is this project's own.
///
/// OutOfMemory comes only where there was no room for that behind the text; the text is as it was then. Its capacity
/// never shrinks.
pub fn print(line: u32, entries: &Entries, into: &mut Vec<u8>) -> Result<(), OutOfMemory>
    ensures ok { Puts into.old.items into.new.items (entries_text line entries.now.list) result }
    ensures err { OnErr result (into.new.items ≡ into.old.items) }
    ensures capacity { vec_capacity into.old ≤ vec_capacity into.new }
    ensures wanting { OnErr result (LacksRoom into.old (entries_text line entries.now.list)) }
{
    let before = into.len();
    let read = entries.read_bytes();
    let printed = put_entries(into, line, entries.list(), read, entries.groups());
    all_or_none(into, before, printed)
}

#[tactic(auto, using(std::proofs::Common::append_assoc, crate::proofs::Begins::begins_before))]
fn put_end(into: &mut Vec<u8>, lines: u32, entries: u128, objects: usize) -> Result<(), OutOfMemory>
    ensures ok { Puts into.old.items into.new.items (end_text lines entries objects) result }
    ensures err { OnErr result (BeginsWith into.new.items into.old.items) }
    ensures capacity { vec_capacity into.old ≤ vec_capacity into.new }
    ensures wanting { OnErr result (LacksRoom into.old (end_text lines entries objects)) }
{
    put(into, b"end ")?;
    put_number(into, u64::from(lines))?;
    put(into, b" ")?;
    put_long_number(into, entries)?;
    put(into, b" ")?;
    put_number(into, objects as u64)?;
    put(into, b"\n")
}

/// Appends the last line of a script that was read to its end: `end`, the lines read, the entries printed and the
/// objects left. The form is this project's own.
///
/// OutOfMemory comes only where there was no room for that behind the text; the text is as it was then. Its capacity
/// never shrinks.
pub fn print_end(
    into: &mut Vec<u8>,
    lines: u32,
    entries: u128,
    objects: usize,
) -> Result<(), OutOfMemory>
    ensures ok { Puts into.old.items into.new.items (end_text lines entries objects) result }
    ensures err { OnErr result (into.new.items ≡ into.old.items) }
    ensures capacity { vec_capacity into.old ≤ vec_capacity into.new }
    ensures wanting { OnErr result (LacksRoom into.old (end_text lines entries objects)) }
{
    let before = into.len();
    let printed = put_end(into, lines, entries, objects);
    all_or_none(into, before, printed)
}

fn kind_of(fault: LineFault) -> u64
    ensures { result ≡ kind_number fault }
{
    match fault {
        LineFault::Byte => 1,
        LineFault::Word => 2,
        LineFault::Call => 3,
        LineFault::Count => 4,
        LineFault::Number => 5,
        LineFault::Hex => 6,
        LineFault::Message => 7,
        LineFault::Sid => 8,
        LineFault::Long => 9,
        LineFault::Lines => 10,
    }
}

#[tactic(auto, using(std::proofs::Common::append_assoc, crate::proofs::Begins::begins_before))]
fn put_stop(into: &mut Vec<u8>, line: u32, fault: LineFault) -> Result<(), OutOfMemory>
    ensures ok { Puts into.old.items into.new.items (stop_text line (kind_number fault)) result }
    ensures err { OnErr result (BeginsWith into.new.items into.old.items) }
    ensures capacity { vec_capacity into.old ≤ vec_capacity into.new }
    ensures wanting { OnErr result (LacksRoom into.old (stop_text line (kind_number fault))) }
{
    put(into, b"stop ")?;
    put_number(into, u64::from(line))?;
    put(into, b" ")?;
    put_number(into, kind_of(fault))?;
    put(into, b"\n")
}

/// Appends the last line of a script that has a faulty line: `stop`, the number of that line and the number of its
/// fault's kind. The form is this project's own.
///
/// OutOfMemory comes only where there was no room for that behind the text; the text is as it was then. Its capacity
/// never shrinks.
pub fn print_stop(into: &mut Vec<u8>, line: u32, fault: LineFault) -> Result<(), OutOfMemory>
    ensures ok { Puts into.old.items into.new.items (stop_text line (kind_number fault)) result }
    ensures err { OnErr result (into.new.items ≡ into.old.items) }
    ensures capacity { vec_capacity into.old ≤ vec_capacity into.new }
    ensures wanting { OnErr result (LacksRoom into.old (stop_text line (kind_number fault))) }
{
    let before = into.len();
    let printed = put_stop(into, line, fault);
    all_or_none(into, before, printed)
}
