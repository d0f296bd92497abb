// What becomes of rows in a line. What puts text wants for memory only where there was no room for it behind the text;
// what stood before still begins the text then. The text's capacity never shrinks.
ghost use Rattle.std.specs.Prelude.{◌≡◌, ◌≤◌, OnErr, vec_capacity, true, false, not, Option, IfOk, IfSome, is_some, None};
ghost use Rattle.std.specs.List.{flat_map};
ghost use Rattle.lpc_base.specs.Rows.{has};
ghost use Rattle.lpc_model.specs.Script.{script_lines};
ghost use Rattle.lpc_transcript.specs.Printing.{BeginsWith, LacksRoom, Puts};
ghost use Rattle.lpc_states.specs.Changes.{came_or_changed, changes, is_row, name_of, told_as, went};
ghost use Rattle.lpc_states.specs.Searching.{IsBehind, is_sought};

use crate::values::put_decimal;
use lpc_base::OutOfMemory;
use lpc_transcript::put;
use lpc_words::{next_line, split_once};

/// What a row is looked for by.
#[derive(Clone, Copy)]
pub(crate) enum Sought {
    /// All of it.
    Row,
    /// Its name.
    Name,
}

// The name of a row: what stands before its first comma.
fn name_of(row: &[u8]) -> &[u8]
    ensures { result.now ≡ name_of row.now }
{
    match split_once(row, b',') {
        Some((name, _)) => name,
        None => row,
    }
}

// This is the row, or the name, that is looked for.
fn is_sought(by: Sought, wanted: &[u8], row: &[u8]) -> bool
    ensures { result ≡ is_sought by wanted.now row.now }
{
    match by {
        Sought::Row => row == wanted,
        Sought::Name => name_of(row) == wanted,
    }
}

// What stands behind the first row that is looked for: None exactly where there is none.
fn walk<'a>(rows: &'a [u8], by: Sought, wanted: &[u8]) -> Option<&'a [u8]>
    ensures found { is_some result
        ≡ has (is_sought by wanted.now) (script_lines rows.now) }
    ensures behind { IfSome result (λ rest. IsBehind rows.now rest.now) }
{
    let mut ahead = rows;
    while !ahead.is_empty() {
        let (row, later) = next_line(ahead);
        if is_sought(by, wanted, row) {
            return Some(later);
        }
        ahead = later;
    }
    None
}

// The same, where the row is first looked for at one place among the rows: those behind a line mostly stand as they stood
// before it, so that it mostly is the next one there.
fn find<'a>(rows: &'a [u8], ahead: &'a [u8], by: Sought, wanted: &[u8]) -> Option<&'a [u8]>
    requires place { IsBehind rows.now ahead.now }
    ensures found { is_some result
        ≡ has (is_sought by wanted.now) (script_lines rows.now) }
    ensures behind { IfSome result (λ rest. IsBehind rows.now rest.now) }
{
    if !ahead.is_empty() {
        let (row, later) = next_line(ahead);
        if is_sought(by, wanted, row) {
            return Some(later);
        }
    }
    walk(rows, by, wanted)
}

// The line that tells what became of a row.
fn put_told(into: &mut Vec<u8>, line: u32, word: &[u8], row: &[u8]) -> Result<(), OutOfMemory>
    ensures ok { Puts into.old.items into.new.items (told_as line word.now row.now) result }
    ensures err { OnErr result (BeginsWith into.new.items into.old.items) }
    ensures capacity { vec_capacity into.old ≤ vec_capacity into.new }
    ensures wanting { OnErr result (LacksRoom into.old (told_as line word.now row.now)) }
{
    put(into, b"{\"line\":")?;
    put_decimal(into, line)?;
    put(into, b",\"")?;
    put(into, word)?;
    put(into, b"\":")?;
    put(into, row)?;
    put(into, b"}\n")
}

// Tells of a row that stood before a line, where none behind it has its name. Answers where the next name is looked for.
fn put_if_went<'a>(
    into: &mut Vec<u8>,
    line: u32,
    after: &'a [u8],
    ahead: &'a [u8],
    row: &[u8],
) -> Result<&'a [u8], OutOfMemory>
    requires place { IsBehind after.now ahead.now }
    ensures ok { Puts into.old.items into.new.items
        (went line (script_lines after.now) row.now) result }
    ensures err { OnErr result (BeginsWith into.new.items into.old.items) }
    ensures capacity { vec_capacity into.old ≤ vec_capacity into.new }
    ensures wanting { OnErr result (LacksRoom into.old
        (went line (script_lines after.now) row.now)) }
    ensures place { IfOk result (λ next. IsBehind after.now next.now) }
{
    let name = name_of(row);
    if let Some(behind) = find(after, ahead, Sought::Name, name) {
        return Ok(behind);
    }
    put_told(into, line, b"went", name)?;
    Ok(ahead)
}

// The rows that went.
fn put_went(into: &mut Vec<u8>, line: u32, before: &[u8], after: &[u8]) -> Result<(), OutOfMemory>
    ensures ok { Puts into.old.items into.new.items
        (flat_map (went line (script_lines after.now)) (script_lines before.now)) result }
    ensures err { OnErr result (BeginsWith into.new.items into.old.items) }
    ensures capacity { vec_capacity into.old ≤ vec_capacity into.new }
    ensures wanting { OnErr result (LacksRoom into.old
        (flat_map (went line (script_lines after.now)) (script_lines before.now))) }
{
    let mut rest = before;
    let mut ahead = after;
    while !rest.is_empty() {
        let (row, later) = next_line(rest);
        ahead = put_if_went(into, line, after, ahead, row)?;
        rest = later;
    }
    Ok(())
}

// Tells of a row that stands behind a line and not before it: it came, or changed where one before has its name.
fn put_new(into: &mut Vec<u8>, line: u32, before: &[u8], row: &[u8]) -> Result<(), OutOfMemory>
    requires new { has (is_row row.now) (script_lines before.now) ≡ false }
    ensures ok { Puts into.old.items into.new.items
        (came_or_changed line (script_lines before.now) row.now) result }
    ensures err { OnErr result (BeginsWith into.new.items into.old.items) }
    ensures capacity { vec_capacity into.old ≤ vec_capacity into.new }
    ensures wanting { OnErr result (LacksRoom into.old
        (came_or_changed line (script_lines before.now) row.now)) }
{
    match walk(before, Sought::Name, name_of(row)) {
        Some(_) => put_told(into, line, b"changed", row),
        None => put_told(into, line, b"came", row),
    }
}

// Tells of a row that stands behind a line, where it didn't stand before. Answers where the next row is looked for.
fn put_if_new<'a>(
    into: &mut Vec<u8>,
    line: u32,
    before: &'a [u8],
    ahead: &'a [u8],
    row: &[u8],
) -> Result<&'a [u8], OutOfMemory>
    requires place { IsBehind before.now ahead.now }
    ensures ok { Puts into.old.items into.new.items
        (came_or_changed line (script_lines before.now) row.now) result }
    ensures err { OnErr result (BeginsWith into.new.items into.old.items) }
    ensures capacity { vec_capacity into.old ≤ vec_capacity into.new }
    ensures wanting { OnErr result (LacksRoom into.old
        (came_or_changed line (script_lines before.now) row.now)) }
    ensures place { IfOk result (λ next. IsBehind before.now next.now) }
{
    if let Some(behind) = find(before, ahead, Sought::Row, row) {
        return Ok(behind);
    }
    put_new(into, line, before, row)?;
    Ok(ahead)
}

// The rows that came or changed.
fn put_news(into: &mut Vec<u8>, line: u32, before: &[u8], after: &[u8]) -> Result<(), OutOfMemory>
    ensures ok { Puts into.old.items into.new.items
        (flat_map (came_or_changed line (script_lines before.now)) (script_lines after.now))
        result }
    ensures err { OnErr result (BeginsWith into.new.items into.old.items) }
    ensures capacity { vec_capacity into.old ≤ vec_capacity into.new }
    ensures wanting { OnErr result (LacksRoom into.old
        (flat_map (came_or_changed line (script_lines before.now)) (script_lines after.now))) }
{
    let mut rest = after;
    let mut ahead = before;
    while !rest.is_empty() {
        let (row, later) = next_line(rest);
        ahead = put_if_new(into, line, before, ahead, row)?;
        rest = later;
    }
    Ok(())
}

/// Appends what a line of this number tells of rows: first those that went, by their names, and then those that came or
/// changed, whole. Before it these rows stood, and behind it those, each a line of its text.
///
/// OutOfMemory comes only where there was no room for that behind the text; the text begins as it was then. Its
/// capacity never shrinks.
#[tactic(auto, using(std::proofs::Common::append_assoc, lpc_transcript::proofs::Begins::begins_before), unfolding(crate::specs::Changes::changes))]
pub fn print_changes(
    line: u32,
    before: &[u8],
    after: &[u8],
    into: &mut Vec<u8>,
) -> Result<(), OutOfMemory>
    ensures ok { Puts into.old.items into.new.items
        (changes line (script_lines before.now) (script_lines after.now)) result }
    ensures err { OnErr result (BeginsWith into.new.items into.old.items) }
    ensures capacity { vec_capacity into.old ≤ vec_capacity into.new }
    ensures wanting { OnErr result (LacksRoom into.old
        (changes line (script_lines before.now) (script_lines after.now))) }
{
    put_went(into, line, before, after)?;
    put_news(into, line, before, after)
}
