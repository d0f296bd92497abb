// The words of a line, one after the other, and the parts of a word.
ghost use Rattle.std.specs.Prelude.{◌≡◌, ◌≢◌, ◌<◌, ◌≤◌, ◌+◌, [], ◌∷◌, length, nat_le, slice_index, MatchOption, IfSome, IfOk};
ghost use Rattle.std.specs.Option.{option_map};
ghost use Rattle.lpc_model.specs.Words.{parts, words};
ghost use Rattle.lpc_model.specs.Words as spec;
ghost use Rattle.lpc_model.specs.Grammar as grammar;
ghost use Rattle.lpc_words.specs.Gives.{Gives, seen_four, seen_one_or_two, seen_three, seen_two, seen_two_and_more, seen_two_or_three};

use lpc_model::LineFault;
use memchr::memchr;

/// How many words may follow the first two at most, where any number may.
const MORE_WORDS: usize = 16;

/// What stands before the first byte `by`, and what after it; none where it isn't there.
pub fn split_once(text: &[u8], by: u8) -> Option<(&[u8], &[u8])>
    ensures parts { MatchOption result
        (parts by text.now ≡ text.now ∷ [])
        (λ p. parts by text.now ≡ p.0.now ∷ parts by p.1.now) }
    ensures first { option_map seen_two result ≡ spec.split_once by text.now }
    ensures front { IfSome result (λ p. length p.0.now ≤ length text.now) }
    ensures back { IfSome result (λ p. length p.1.now ≤ length text.now) }
    ensures both { IfSome result (λ p. length p.0.now + length p.1.now ≤ length text.now) }
{
    for i in 0..text.len() {
        if text[i] == by {
            return Some((&text[..i], &text[i + 1..]));
        }
    }
    None
}

/// What stands before the first byte `by`, and what after it; none where it isn't there. It is for a byte that may stand
/// far behind, since it looks at many at once.
pub fn split_far(text: &[u8], by: u8) -> Option<(&[u8], &[u8])>
    ensures parts { MatchOption result
        (parts by text.now ≡ text.now ∷ [])
        (λ p. parts by text.now ≡ p.0.now ∷ parts by p.1.now) }
    ensures first { option_map seen_two result ≡ spec.split_once by text.now }
    ensures front { IfSome result (λ p. length p.0.now ≤ length text.now) }
    ensures back { IfSome result (λ p. length p.1.now ≤ length text.now) }
    ensures both { IfSome result (λ p. length p.0.now + length p.1.now ≤ length text.now) }
{
    match memchr(by, text) {
        Some(at) => Some((&text[..at], &text[at + 1..])),
        None => None,
    }
}

/// A text without the spaces that it begins with.
fn trimmed(text: &[u8]) -> &[u8]
    ensures words { words result.now ≡ words text.now }
    ensures front { 0 < length result.now → slice_index result.now 0 ≢ 32 }
    ensures length { length result.now ≤ length text.now }
{
    for i in 0..text.len() {
        if text[i] != b' ' {
            return &text[i..];
        }
    }
    &[]
}

/// The first word of a text and what stands behind it, none where there is no word.
pub fn next_word(text: &[u8]) -> Option<(&[u8], &[u8])>
    ensures words { MatchOption result (words text.now ≡ [])
        (λ p. words text.now ≡ p.0.now ∷ words p.1.now) }
    ensures word { IfSome result (λ p. length p.0.now ≤ length text.now) }
    ensures rest { IfSome result (λ p. length p.1.now ≤ length text.now) }
    ensures both { IfSome result (λ p. length p.0.now + length p.1.now ≤ length text.now) }
{
    let text = trimmed(text);
    if text.is_empty() {
        return None;
    }
    if let Some((word, rest)) = split_once(text, b' ') {
        return Some((word, rest));
    }
    Some((text, &[]))
}

/// Nothing, of a text that has no word; `Count` where it has one.
#[tactic(auto, unfolding(lpc_model::specs::Grammar::no_words))]
pub fn no_words(text: &[u8]) -> Result<(), LineFault>
    ensures { Gives (λ nothing. tt) result (grammar.no_words (words text.now)) }
{
    if let Some((_, _)) = next_word(text) {
        return Err(LineFault::Count);
    }
    Ok(())
}

/// The word of a text that has exactly one; `Count` where it has none or more.
#[tactic(auto, unfolding(lpc_model::specs::Grammar::one_word))]
pub fn one_word(text: &[u8]) -> Result<&[u8], LineFault>
    ensures value { Gives (λ word. word.now) result (grammar.one_word (words text.now)) }
    ensures length { IfOk result (λ word. length word.now ≤ length text.now) }
{
    let (word, rest) = next_word(text).ok_or(LineFault::Count)?;
    if let Some((_, _)) = next_word(rest) {
        return Err(LineFault::Count);
    }
    Ok(word)
}

/// The words of a text that has exactly two; `Count` where it has fewer or more.
#[tactic(auto, unfolding(lpc_model::specs::Grammar::two_words))]
pub fn two_words(text: &[u8]) -> Result<(&[u8], &[u8]), LineFault>
    ensures value { Gives seen_two result (grammar.two_words (words text.now)) }
    ensures length { IfOk result (λ two. length two.1.now ≤ length text.now) }
{
    let (first, rest) = next_word(text).ok_or(LineFault::Count)?;
    let (second, rest) = next_word(rest).ok_or(LineFault::Count)?;
    if let Some((_, _)) = next_word(rest) {
        return Err(LineFault::Count);
    }
    Ok((first, second))
}

/// The words of a text that has exactly three; `Count` where it has fewer or more.
#[tactic(auto, unfolding(lpc_model::specs::Grammar::three_words))]
pub fn three_words(text: &[u8]) -> Result<(&[u8], &[u8], &[u8]), LineFault>
    ensures { Gives seen_three result (grammar.three_words (words text.now)) }
{
    let (first, rest) = next_word(text).ok_or(LineFault::Count)?;
    let (second, rest) = next_word(rest).ok_or(LineFault::Count)?;
    let (third, rest) = next_word(rest).ok_or(LineFault::Count)?;
    if let Some((_, _)) = next_word(rest) {
        return Err(LineFault::Count);
    }
    Ok((first, second, third))
}

/// The words of a text that has exactly four; `Count` where it has fewer or more.
#[tactic(auto, unfolding(lpc_model::specs::Grammar::four_words))]
pub fn four_words(text: &[u8]) -> Result<(&[u8], &[u8], &[u8], &[u8]), LineFault>
    ensures value { Gives seen_four result (grammar.four_words (words text.now)) }
    ensures second { IfOk result (λ four. length four.1.now ≤ length text.now) }
    ensures fourth { IfOk result (λ four. length four.3.now ≤ length text.now) }
    ensures both { IfOk result (λ four. length four.1.now + length four.3.now ≤ length text.now) }
{
    let (first, rest) = next_word(text).ok_or(LineFault::Count)?;
    let (second, rest) = next_word(rest).ok_or(LineFault::Count)?;
    let (third, rest) = next_word(rest).ok_or(LineFault::Count)?;
    let (fourth, rest) = next_word(rest).ok_or(LineFault::Count)?;
    if let Some((_, _)) = next_word(rest) {
        return Err(LineFault::Count);
    }
    Ok((first, second, third, fourth))
}

/// The words of a text that has one or two; `Count` where it has none or more.
#[tactic(auto, unfolding(lpc_model::specs::Grammar::one_or_two_words))]
pub fn one_or_two_words(text: &[u8]) -> Result<(&[u8], Option<&[u8]>), LineFault>
    ensures value { Gives seen_one_or_two result (grammar.one_or_two_words (words text.now)) }
    ensures length { IfOk result
        (λ two. IfSome two.1 (λ word. length word.now ≤ length text.now)) }
{
    let (first, rest) = next_word(text).ok_or(LineFault::Count)?;
    let Some((second, rest)) = next_word(rest) else {
        return Ok((first, None));
    };
    if let Some((_, _)) = next_word(rest) {
        return Err(LineFault::Count);
    }
    Ok((first, Some(second)))
}

/// The words of a text that has two or three; `Count` where it has fewer or more.
#[tactic(auto, unfolding(lpc_model::specs::Grammar::two_or_three_words))]
pub fn two_or_three_words(text: &[u8]) -> Result<(&[u8], &[u8], Option<&[u8]>), LineFault>
    ensures { Gives seen_two_or_three result (grammar.two_or_three_words (words text.now)) }
{
    let (first, rest) = next_word(text).ok_or(LineFault::Count)?;
    let (second, rest) = next_word(rest).ok_or(LineFault::Count)?;
    let Some((third, rest)) = next_word(rest) else {
        return Ok((first, second, None));
    };
    if let Some((_, _)) = next_word(rest) {
        return Err(LineFault::Count);
    }
    Ok((first, second, Some(third)))
}

/// A text has no more words than these.
fn has_at_most(text: &[u8], most: usize) -> bool
    ensures { result ≡ nat_le (length (words text.now)) most }
{
    let mut rest = text;
    for _passed in 0..most {
        let Some((_, behind)) = next_word(rest) else {
            return true;
        };
        rest = behind;
    }
    next_word(rest).is_none()
}

/// The first two words of a text, and what stands behind them, which has 16 words at most; `Count` where the text has
/// fewer than two words, or more than 18.
#[tactic(auto, unfolding(lpc_model::specs::Grammar::two_and_more_words))]
pub fn two_and_more_words(text: &[u8]) -> Result<(&[u8], &[u8], &[u8]), LineFault>
    ensures value { Gives seen_two_and_more result (grammar.two_and_more_words (words text.now)) }
    ensures few { IfOk result (λ three. length (words three.2.now) ≤ 16) }
{
    let (first, rest) = next_word(text).ok_or(LineFault::Count)?;
    let (second, rest) = next_word(rest).ok_or(LineFault::Count)?;
    if !has_at_most(rest, MORE_WORDS) {
        return Err(LineFault::Count);
    }
    Ok((first, second, rest))
}

/// A byte parts a text into no more than so many parts.
pub fn has_parts_at_most(text: &[u8], by: u8, most: usize) -> bool
    ensures { result ≡ nat_le (length (parts by text.now)) most }
{
    let mut rest = text;
    for _passed in 0..most {
        let Some((_, behind)) = split_once(rest, by) else {
            return true;
        };
        rest = behind;
    }
    false
}

/// The two parts of a text that has a byte exactly once, before and behind it; none where it has it not, or more than
/// once.
#[tactic(auto, unfolding(lpc_model::specs::Grammar::two_parts))]
pub fn two_parts(text: &[u8], by: u8) -> Option<(&[u8], &[u8])>
    ensures { option_map seen_two result ≡ grammar.two_parts (parts by text.now) }
{
    let (first, second) = split_once(text, by)?;
    if let Some((_, _)) = split_once(second, by) {
        return None;
    }
    Some((first, second))
}

/// The three parts of a text that has a byte exactly twice, between these; none where it has it fewer times or more.
#[tactic(auto, unfolding(lpc_model::specs::Words::three_parts))]
pub fn three_parts(text: &[u8], by: u8) -> Option<(&[u8], &[u8], &[u8])>
    ensures { option_map seen_three result ≡ spec.three_parts (parts by text.now) }
{
    let (first, rest) = split_once(text, by)?;
    let (second, third) = split_once(rest, by)?;
    if let Some((_, _)) = split_once(third, by) {
        return None;
    }
    Some((first, second, third))
}
