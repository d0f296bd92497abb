// The numbers that a word may spell.
ghost use Rattle.std.specs.Prelude.{◌≡◌, ◌≤◌, ◌∷◌, length, true, IfOk, IfSome, IsTrue, Ok};
ghost use Rattle.lpc_model.specs.Grammar.{starts_call};
ghost use Rattle.lpc_model.specs.Words.{digits_word, decimal_word, hexadecimal_word, number_word, id_word, is_id, words};
ghost use Rattle.lpc_words.specs.Gives.{Gives};

use lpc_model::LineFault;

/// The greatest number of a process or thread.
const GREATEST_ID: u32 = 2_147_483_647;

/// The greatest number that a digit may follow where nine are read at most.
const MOST_BEFORE_LAST: u32 = 99_999_999;

/// Digits of a base as a number of 32 bits; `Number` where a byte is no digit of it, or the number is above
/// 4,294,967,295.
#[tactic(auto, unfolding(lpc_model::specs::Words::digits_word))]
fn digits(text: &[u8], base: u32) -> Result<u32, LineFault>
    requires least { 2 ≤ base }
    requires greatest { base ≤ 36 }
    ensures { Gives (λ n. n) result (digits_word base text.now) }
{
    let mut value: u64 = 0;
    for byte in text {
        let Some(digit) = char::from(*byte).to_digit(base) else {
            return Err(LineFault::Number);
        };
        value = value * u64::from(base) + u64::from(digit);
        if value > u64::from(u32::MAX) {
            return Err(LineFault::Number);
        }
    }
    Ok(value as u32)
}

/// A decimal number without leading zeros; `Number` for any other word, and where it is above 4,294,967,295.
#[tactic(auto, unfolding(lpc_model::specs::Words::decimal_word))]
fn decimal(word: &[u8]) -> Result<u32, LineFault>
    ensures { Gives (λ n. n) result (decimal_word word.now) }
{
    if word.is_empty() || (word.starts_with(b"0") && word.len() > 1) {
        return Err(LineFault::Number);
    }
    digits(word, 10)
}

/// One to eight hexadecimal digits as a number; `Number` for any other text.
#[tactic(auto, unfolding(lpc_model::specs::Words::hexadecimal_word))]
fn hexadecimal(text: &[u8]) -> Result<u32, LineFault>
    ensures { Gives (λ n. n) result (hexadecimal_word text.now) }
{
    if text.is_empty() || text.len() > 8 {
        return Err(LineFault::Number);
    }
    digits(text, 16)
}

/// A number: decimal without leading zeros, or `0x` and one to eight hexadecimal digits. `Number` for any other word,
/// and where it is above 4,294,967,295.
#[tactic(auto, unfolding(lpc_model::specs::Words::number_word))]
pub fn number(word: &[u8]) -> Result<u32, LineFault>
    ensures { Gives (λ n. n) result (number_word word.now) }
{
    if word.starts_with(b"0x") {
        return hexadecimal(&word[2..]);
    }
    decimal(word)
}

/// The number of a process or thread, from 1 to 2,147,483,647; `Number` for any other word.
#[tactic(auto, unfolding(lpc_model::specs::Words::id_word))]
pub fn id(word: &[u8]) -> Result<u32, LineFault>
    ensures value { Gives (λ n. n) result (id_word word.now) }
    ensures range { IfOk result (λ n. IsTrue (is_id n)) }
{
    let number = number(word)?;
    if number < 1 || number > GREATEST_ID {
        return Err(LineFault::Number);
    }
    Ok(number)
}

/// The first word of a text, the number that it spells, and what stands behind it, where the text begins with one to
/// nine decimal digits of which the first is no zero, and these are the word. None of any other text, also where its
/// first word spells a number: it reads the form that most numbers have, and each byte once.
pub fn next_number(text: &[u8]) -> Option<(&[u8], u32, &[u8])>
    ensures words { IfSome result (λ p. words text.now ≡ p.0.now ∷ words p.2.now) }
    ensures value { IfSome result (λ p. number_word p.0.now ≡ Ok p.1) }
    ensures digit { IfSome result (λ p. starts_call p.0.now ≡ true) }
    ensures id { IfSome result (λ p. IsTrue (is_id p.1)) }
    ensures rest { IfSome result (λ p. length p.2.now ≤ length text.now) }
{
    let mut value: u32 = 0;
    for i in 0..text.len() {
        let byte = text[i];
        if !byte.is_ascii_digit() {
            if value == 0 || byte != b' ' {
                return None;
            }
            return Some((&text[..i], value, &text[i + 1..]));
        }
        if value > MOST_BEFORE_LAST {
            return None;
        }
        value = value * 10 + u32::from(byte - b'0');
        if value == 0 {
            return None;
        }
    }
    if value == 0 {
        return None;
    }
    Some((text, value, &[]))
}
