// The words about who someone is: SIDs, tokens and their names, and how far a server may act for its client.
ghost use Rattle.std.specs.Prelude.{◌≡◌, ◌≤◌, ◌&&◌, length, IfOk, IsTrue};
ghost use Rattle.std.specs.List.{list_all};
ghost use Rattle.std.specs.Option.{option_copied};
ghost use Rattle.lpc_model.specs.Words.{is_id, words};
ghost use Rattle.lpc_model.specs.Grammar as grammar;
ghost use Rattle.lpc_words.specs.Gives.{Gives};

use arrayvec::ArrayVec;
use lpc_model::LineFault;
use lpc_sid::{Sid, Token};
use lpc_tokens::{Level, Qos, TOKEN_NAME_LIMIT, Tracking, level};
use lpc_words::{id, next_word, number, two_and_more_words, two_or_three_words, two_parts};

/// The SID that a word spells; `Sid` where the word is not the one spelling of a SID.
#[tactic(auto, unfolding(lpc_model::specs::Grammar::sid_word))]
pub(crate) fn sid(word: &[u8]) -> Result<Sid, LineFault>
    ensures { Gives (λ sid. sid) result (grammar.sid_word word.now) }
{
    Sid::read(word).ok_or(LineFault::Sid)
}

/// The SIDs that the words of a text spell, which has 16 words at most; `Sid` where one of them is not the one spelling
/// of a SID.
fn sids(text: &[u8]) -> Result<ArrayVec<Sid, 16>, LineFault>
    requires { length (words text.now) ≤ 16 }
    ensures { Gives (λ sids. sids.items) result
        (grammar.each_word grammar.sid_word (words text.now)) }
{
    let mut list = ArrayVec::new();
    let mut rest = text;
    while let Some((word, behind)) = next_word(rest) {
        let sid = sid(word)?;
        list.push(sid);
        rest = behind;
    }
    Ok(list)
}

fn has_name_bytes(word: &[u8]) -> bool
    ensures { result ≡ list_all grammar.is_name_byte word.now }
{
    for byte in word {
        if !byte.is_ascii_alphanumeric() && *byte != b'_' {
            return false;
        }
    }
    true
}

/// The name of a token: 1 to 32 letters, digits or `_`; `Word` for any other word.
#[tactic(auto, unfolding(lpc_model::specs::Grammar::token_word))]
fn token_name(word: &[u8]) -> Result<&[u8], LineFault>
    ensures { Gives (λ name. name.now) result (grammar.token_word word.now) }
{
    if word.is_empty() || word.len() > TOKEN_NAME_LIMIT || !has_name_bytes(word) {
        return Err(LineFault::Word);
    }
    Ok(word)
}

/// The name of a token, where a word is given for it.
fn given_token(word: Option<&[u8]>) -> Result<Option<&[u8]>, LineFault>
    ensures { Gives option_copied result (grammar.given_token (option_copied word.entry)) }
{
    match word {
        Some(word) => {
            let name = token_name(word)?;
            Ok(Some(name))
        }
        None => Ok(None),
    }
}

/// The numbers of a new process and of its first thread, and perhaps the name of a token.
pub(crate) fn process_and_token(text: &[u8]) -> Result<(u32, u32, Option<&[u8]>), LineFault>
    ensures value { Gives (λ p. (p.0, p.1, option_copied p.2)) result
        (grammar.process_and_token (words text.now)) }
    ensures ids { IfOk result (λ p. IsTrue (is_id p.0 && is_id p.1)) }
{
    let (pid, tid, name) = two_or_three_words(text)?;
    let pid = id(pid)?;
    let tid = id(tid)?;
    let name = given_token(name)?;
    Ok((pid, tid, name))
}

/// The name of a new token, and the token with its user and groups.
pub(crate) fn token_words(text: &[u8]) -> Result<(&[u8], Token), LineFault>
    ensures { Gives (λ p. (p.0.now, p.1)) result (grammar.token_words (words text.now)) }
{
    let (name, user, groups) = two_and_more_words(text)?;
    let name = token_name(name)?;
    let user = sid(user)?;
    let groups = sids(groups)?;
    Ok((name, Token { user, groups }))
}

/// Static or dynamic tracking: `s` or `d`; `Word` for any other word.
#[tactic(auto, unfolding(lpc_model::specs::Grammar::tracking_word))]
fn tracking(word: &[u8]) -> Result<Tracking, LineFault>
    ensures { Gives (λ tracking. tracking) result (grammar.tracking_word word.now) }
{
    if word == b"s".as_slice() {
        return Ok(Tracking::Static);
    }
    if word == b"d".as_slice() {
        return Ok(Tracking::Dynamic);
    }
    Err(LineFault::Word)
}

/// An impersonation level, from 0 to 3; `Number` for any other word.
#[tactic(auto, unfolding(lpc_model::specs::Grammar::level_word))]
fn level_number(word: &[u8]) -> Result<Level, LineFault>
    ensures { Gives (λ level. level) result (grammar.level_word word.now) }
{
    let number = number(word)?;
    if number > u32::from(level::DELEGATION) {
        return Err(LineFault::Number);
    }
    Ok(number as u8)
}

/// A level and a tracking, parted by a colon: `Word` where there are no two parts, or the second is no tracking, then
/// `Number` where the first is no level.
#[tactic(auto, unfolding(lpc_model::specs::Grammar::quality_parts))]
fn quality_parts(text: &[u8]) -> Result<Qos, LineFault>
    ensures { Gives (λ quality. quality) result (grammar.quality_parts text.now) }
{
    let (level, tracked) = two_parts(text, b':').ok_or(LineFault::Word)?;
    let tracking = tracking(tracked)?;
    let level = level_number(level)?;
    Ok(Qos { level, tracking })
}

/// A quality of service: level 2 and dynamic tracking for `-`, or `q:` and its parts; `Word` for any other form.
#[tactic(auto, unfolding(lpc_model::specs::Grammar::qos_word))]
pub(crate) fn quality(word: &[u8]) -> Result<Qos, LineFault>
    ensures { Gives (λ quality. quality) result (grammar.qos_word word.now) }
{
    if word == b"-".as_slice() {
        return Ok(Qos {
            level: level::IMPERSONATION,
            tracking: Tracking::Dynamic,
        });
    }
    if word.starts_with(b"q:") {
        return quality_parts(&word[2..]);
    }
    Err(LineFault::Word)
}
