// The calls and directives, found by their names.
ghost use Rattle.std.specs.Prelude.{◌≡◌, ◌≤◌, ◌∷◌, length, IfSome, Some};
ghost use Rattle.lpc_model.specs.Grammar.{call_named, directive_named};
ghost use Rattle.lpc_model.specs.Text.{call_text};
ghost use Rattle.lpc_model.specs.Words.{words};

use lpc_model::{CallName, Word};

/// The call of a name.
#[tactic(auto, unfolding(lpc_model::specs::Grammar::call_named))]
pub fn call_name(word: &[u8]) -> Option<CallName>
    ensures { result ≡ call_named word.now }
{
    CallName::ALL
        .iter()
        .copied()
        .find(|call| word == call.name())
}

/// The directive of a word.
#[tactic(auto, unfolding(lpc_model::specs::Grammar::directive_named))]
pub fn directive_name(word: &[u8]) -> Option<Word>
    ensures { result ≡ directive_named word.now }
{
    Word::ALL
        .iter()
        .copied()
        .find(|directive| word == directive.name())
}

/// What stands behind the first word of a text, where that is the name of this call.
#[inline(always)]
fn behind_name(text: &[u8], call: CallName) -> Option<(CallName, &[u8])>
    ensures words { IfSome result (λ p. words text.now ≡ call_text p.0 ∷ words p.1.now) }
    ensures rest { IfSome result (λ p. length p.1.now ≤ length text.now) }
{
    let name = call.name();
    if !text.starts_with(name) {
        return None;
    }
    let end = name.len();
    if end == text.len() {
        return Some((call, &[]));
    }
    if text[end] != b' ' {
        return None;
    }
    Some((call, &text[end + 1..]))
}

/// The call whose name the first word of a text is, and what stands behind it, where the text begins with that word. None
/// of any other text, and of some texts whose first word is a call's name: a text is compared with one name at most.
#[tactic(auto, using(crate::proofs::Calls::call_named_text))]
pub fn next_call(text: &[u8]) -> Option<(CallName, &[u8])>
    ensures words { IfSome result (λ p. words text.now ≡ call_text p.0 ∷ words p.1.now) }
    ensures named { IfSome result (λ p. call_named (call_text p.0) ≡ Some p.0) }
    ensures rest { IfSome result (λ p. length p.1.now ≤ length text.now) }
{
    if text.len() < 12 {
        return behind_name(text, CallName::NtClose);
    }
    match text[2] {
        b'A' => behind_name(text, CallName::NtAcceptConnectPort),
        b'C' => match text[9] {
            b'o' => behind_name(text, CallName::NtCreatePort),
            b'r' => behind_name(text, CallName::NtCreateProcess),
            b'h' => behind_name(text, CallName::NtCreateThread),
            b'P' => behind_name(text, CallName::NtConnectPort),
            b'e' => match text[3] {
                b'o' => behind_name(text, CallName::NtCompleteConnectPort),
                _ => behind_name(text, CallName::NtCreateSection),
            },
            _ => behind_name(text, CallName::NtClose),
        },
        b'D' => behind_name(text, CallName::NtDuplicateObject),
        b'I' => behind_name(text, CallName::NtImpersonateClientOfPort),
        b'L' => behind_name(text, CallName::NtListenPort),
        b'M' => behind_name(text, CallName::NtMapViewOfSection),
        b'O' => match text[6] {
            b'T' => behind_name(text, CallName::NtOpenThreadToken),
            _ => behind_name(text, CallName::NtOpenProcessToken),
        },
        b'Q' => match text[7] {
            b'O' => behind_name(text, CallName::NtQueryObject),
            _ => behind_name(text, CallName::NtQueryInformationToken),
        },
        b'R' => match text[7] {
            b's' => match text[9] {
                b'P' => behind_name(text, CallName::NtRequestPort),
                _ => behind_name(text, CallName::NtRequestWaitReplyPort),
            },
            b'P' => behind_name(text, CallName::NtReplyPort),
            b'W' => behind_name(text, CallName::NtReplyWaitReceivePort),
            b't' => behind_name(text, CallName::NtRegisterThreadTerminatePort),
            b'i' => behind_name(text, CallName::NtReadVirtualMemory),
            _ => behind_name(text, CallName::NtReadRequestData),
        },
        b'S' => match text[text.len().min(17) - 1] {
            b'T' => behind_name(text, CallName::NtSetInformationThread),
            _ => behind_name(text, CallName::NtSetInformationProcess),
        },
        b'T' => match text[11] {
            b'T' => behind_name(text, CallName::NtTerminateThread),
            _ => behind_name(text, CallName::NtTerminateProcess),
        },
        b'U' => behind_name(text, CallName::NtUnmapViewOfSection),
        b'W' => match text[7] {
            b'V' => behind_name(text, CallName::NtWriteVirtualMemory),
            _ => behind_name(text, CallName::NtWriteRequestData),
        },
        _ => None,
    }
}
