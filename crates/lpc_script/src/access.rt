// The word of a new port that says who may connect to it: an access list, entry by entry.
ghost use Rattle.std.specs.Prelude.{◌≡◌, ◌≤◌, length};
ghost use Rattle.std.specs.Option.{option_copied};
ghost use Rattle.lpc_model.specs.Words.{parts};
ghost use Rattle.lpc_model.specs.Grammar as grammar;
ghost use Rattle.lpc_script.specs.Entries.{entry_word, is_read, seen_form};
ghost use Rattle.lpc_words.specs.Gives.{Gives};

use crate::scratch::Scratch;
use crate::tokens::sid;
use arrayvec::ArrayVec;
use lpc_model::LineFault;
use lpc_sid::{Ace, Dacl};
use lpc_words::{has_parts_at_most, number, split_once, three_parts};

/// How many entries an access list has at most.
const ENTRIES_LIMIT: usize = 16;

/// Whether an entry allows or denies: `A` or `D`; `Word` for any other word.
#[tactic(auto, unfolding(lpc_model::specs::Grammar::entry_kind))]
fn entry_kind(word: &[u8]) -> Result<bool, LineFault>
    ensures { Gives (λ allow. allow) result (grammar.entry_kind word.now) }
{
    if word == b"A".as_slice() {
        return Ok(true);
    }
    if word == b"D".as_slice() {
        return Ok(false);
    }
    Err(LineFault::Word)
}

/// Whether an entry allows or denies, and the texts of its mask and its SID; `Word` where it has not this form.
#[tactic(auto, unfolding(lpc_model::specs::Grammar::entry_form))]
fn entry_form(text: &[u8]) -> Result<(bool, &[u8], &[u8]), LineFault>
    ensures { Gives seen_form result (grammar.entry_form text.now) }
{
    let (kind, mask, sid) = three_parts(text, b'/').ok_or(LineFault::Word)?;
    let allow = entry_kind(kind)?;
    Ok((allow, mask, sid))
}

/// An entry: `Word` where it has not its form, then `Number` where its mask is no number, then `Sid` where its SID is not
/// spelled as one.
#[tactic(auto, unfolding(lpc_model::specs::Grammar::entry_of))]
fn entry(text: &[u8]) -> Result<Ace, LineFault>
    ensures { Gives (λ ace. ace) result (entry_word text.now) }
{
    let (allow, mask, sid_text) = entry_form(text)?;
    let mask = number(mask)?;
    let sid = sid(sid_text)?;
    Ok(Ace { allow, mask, sid })
}

/// Whether each entry of a list has its form; `Word` where one has not.
fn are_entries(text: &[u8]) -> Result<(), LineFault>
    ensures { Gives (λ nothing. tt) result
        (is_read (grammar.each_word grammar.entry_form (parts 44 text.now))) }
{
    let mut rest = text;
    while let Some((front, behind)) = split_once(rest, b',') {
        entry_form(front)?;
        rest = behind;
    }
    entry_form(rest)?;
    Ok(())
}

/// The entries of a list, which has 16 at most.
fn aces(text: &[u8]) -> Result<ArrayVec<Ace, 16>, LineFault>
    requires { length (parts 44 text.now) ≤ 16 }
    ensures { Gives (λ aces. aces.items) result
        (grammar.each_word entry_word (parts 44 text.now)) }
{
    let mut list = ArrayVec::new();
    let mut rest = text;
    while let Some((front, behind)) = split_once(rest, b',') {
        let ace = entry(front)?;
        list.push(ace);
        rest = behind;
    }
    let last = entry(rest)?;
    list.push(last);
    Ok(list)
}

/// The entries of an access list, parted by commas, none of an empty text: `Word` where there are more than 16, or one
/// has not its form, then the first fault of their numbers and SIDs.
#[tactic(auto, unfolding(lpc_model::specs::Grammar::entries_word))]
fn entries(text: &[u8]) -> Result<Dacl, LineFault>
    ensures { Gives (λ dacl. dacl) result (grammar.entries_word text.now) }
{
    if text.is_empty() {
        return Ok(Dacl {
            list: ArrayVec::new(),
        });
    }
    if !has_parts_at_most(text, b',', ENTRIES_LIMIT) {
        return Err(LineFault::Word);
    }
    are_entries(text)?;
    let list = aces(text)?;
    Ok(Dacl { list })
}

/// An access list: `acl:` and its entries; `Word` for any other form.
#[tactic(auto, unfolding(lpc_model::specs::Grammar::dacl_word))]
fn dacl(word: &[u8]) -> Result<Dacl, LineFault>
    ensures { Gives (λ dacl. dacl) result (grammar.dacl_word word.now) }
{
    if word.starts_with(b"acl:") {
        return entries(&word[4..]);
    }
    Err(LineFault::Word)
}

/// An access list, where a word is given for it.
pub(crate) fn given_dacl<'a>(
    word: Option<&[u8]>,
    scratch: &'a mut Scratch,
) -> Result<Option<&'a Dacl>, LineFault>
    ensures { Gives option_copied result (grammar.given_dacl (option_copied word.entry)) }
{
    match word {
        Some(word) => {
            let dacl = dacl(word)?;
            Ok(Some(scratch.hold_dacl(dacl)))
        }
        None => Ok(None),
    }
}
