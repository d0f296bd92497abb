// What a line begins with: a thread and its call, or a directive.
ghost use Rattle.std.specs.Prelude.{◌≡◌, ◌∷◌, true, Err, IfOk, IfSome, IsTrue, MatchResult};
ghost use Rattle.lpc_model.specs.Grammar as grammar;
ghost use Rattle.lpc_model.specs.Words.{words};
ghost use Rattle.lpc_script.specs.Heads.{IsNoLonger, has_thread, line_headed};

use lpc_model::{CallName, LineFault, Word};
use lpc_words::{call_name, directive_name, id, next_call, next_number, next_word};

/// What a text begins with: the number of a thread and the name of its call, or the word of a directive.
pub(crate) enum Head<'a> {
    /// It has no word.
    Nothing,
    /// The thread and its call, and what stands behind.
    Call {
        tid: u32,
        name: CallName,
        rest: &'a [u8],
    },
    /// The directive, and what stands behind.
    Directive {
        word: Word,
        rest: &'a [u8],
    },
}

// A first word is to be the number of a thread: it begins with a digit.
fn starts_call(word: &[u8]) -> bool
    ensures { result ≡ grammar.starts_call word.now }
{
    match word {
        [] => false,
        [first, ..] => first.is_ascii_digit(),
    }
}

/// The call of the thread whose number the front is, by words of any form.
#[inline(never)]
fn call_head<'a>(front: &[u8], text: &'a [u8]) -> Result<Head<'a>, LineFault>
    requires { grammar.starts_call front.now ≡ true }
    ensures value { MatchResult result
        (λ head. grammar.words_line (front.now ∷ words text.now) ≡ line_headed head)
        (λ e. grammar.words_line (front.now ∷ words text.now) ≡ Err e) }
    ensures id { IfOk result (λ head. IsTrue (has_thread head)) }
    ensures rest { IfOk result (IsNoLonger text.now) }
{
    let tid = match id(front) {
        Ok(tid) => tid,
        Err(fault) => return Err(fault),
    };
    let Some((word, rest)) = next_word(text) else {
        return Err(LineFault::Count);
    };
    let Some(name) = call_name(word) else {
        return Err(LineFault::Call);
    };
    Ok(Head::Call { tid, name, rest })
}

/// What a text of any form begins with.
#[inline(always)]
fn any_head(text: &[u8]) -> Result<Head<'_>, LineFault>
    ensures value { MatchResult result
        (λ head. grammar.words_line (words text.now) ≡ line_headed head)
        (λ e. grammar.words_line (words text.now) ≡ Err e) }
    ensures id { IfOk result (λ head. IsTrue (has_thread head)) }
    ensures rest { IfOk result (IsNoLonger text.now) }
{
    let Some((front, rest)) = next_word(text) else {
        return Ok(Head::Nothing);
    };
    if starts_call(front) {
        return call_head(front, rest);
    }
    let Some(word) = directive_name(front) else {
        return Err(LineFault::Word);
    };
    Ok(Head::Directive { word, rest })
}

/// What a text begins with, where that has the form that most calls have: no word is looked for first. None says nothing.
#[inline(always)]
fn short_head(text: &[u8]) -> Option<Head<'_>>
    ensures value { IfSome result
        (λ head. grammar.words_line (words text.now) ≡ line_headed head) }
    ensures id { IfSome result (λ head. IsTrue (has_thread head)) }
    ensures rest { IfSome result (IsNoLonger text.now) }
{
    let (_, tid, rest) = next_number(text)?;
    let (name, rest) = next_call(rest)?;
    Some(Head::Call { tid, name, rest })
}

/// What a text begins with.
#[inline(always)]
pub(crate) fn read_head(text: &[u8]) -> Result<Head<'_>, LineFault>
    ensures value { MatchResult result
        (λ head. grammar.words_line (words text.now) ≡ line_headed head)
        (λ e. grammar.words_line (words text.now) ≡ Err e) }
    ensures id { IfOk result (λ head. IsTrue (has_thread head)) }
    ensures rest { IfOk result (IsNoLonger text.now) }
{
    if let Some(head) = short_head(text) {
        return Ok(head);
    }
    any_head(text)
}
