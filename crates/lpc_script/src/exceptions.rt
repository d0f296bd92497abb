// The words of an exception.
ghost use Rattle.std.specs.Prelude.{IfOk, IsTrue};
ghost use Rattle.lpc_model.specs.declared.entry.CallName.TheVariants.{Raise};
ghost use Rattle.lpc_model.specs.Grammar.{call_words, handled_word, has_call_ids};
ghost use Rattle.lpc_model.specs.Lines.{call_of};
ghost use Rattle.lpc_model.specs.Words.{words};
ghost use Rattle.lpc_words.specs.Gives.{Gives};

use lpc_model::{Call, LineFault};
use lpc_words::{number, two_words};

/// Whether the frame handlers handle an exception: `handled` or `unhandled`; `Word` for any other word.
#[tactic(auto, unfolding(lpc_model::specs::Grammar::handled_word))]
fn handled(word: &[u8]) -> Result<bool, LineFault>
    ensures { Gives (λ handled. handled) result (handled_word word.now) }
{
    if word == b"handled".as_slice() {
        return Ok(true);
    }
    if word == b"unhandled".as_slice() {
        return Ok(false);
    }
    Err(LineFault::Word)
}

/// The code of an exception, and whether the frame handlers handle it.
#[tactic(auto, unfolding(lpc_model::specs::Grammar::call_words))]
pub(crate) fn raise<'a>(text: &[u8]) -> Result<Call<'a>, LineFault>
    ensures value { Gives call_of result (call_words Raise (words text.now)) }
    ensures ids { IfOk result (λ call. IsTrue (has_call_ids (call_of call))) }
{
    let (code, answer) = two_words(text)?;
    let code = number(code)?;
    let handled = handled(answer)?;
    Ok(Call::Raise { code, handled })
}
