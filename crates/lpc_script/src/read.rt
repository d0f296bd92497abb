// What a line says. A call or directive is an entry of its names and a case of its words.
ghost use Rattle.std.specs.Prelude.{◌≡◌, ◌≤◌, ◌&&◌, codes, length, true, Err, IfOk, IfSome, IsTrue};
ghost use Rattle.std.specs.List.{list_all};
ghost use Rattle.std.specs.Option.{option_copied, option_map};
ghost use Rattle.lpc_base.specs.declared.limits.TheConstants.{LINE_LIMIT};
ghost use Rattle.lpc_model.specs.declared.entry.CallName.TheVariants.{NtAcceptConnectPort, NtConnectPort, NtCreatePort, NtCreateProcess, NtCreateSection, NtCreateThread, NtDuplicateObject, NtImpersonateClientOfPort, NtMapViewOfSection, NtQueryInformationToken, NtReadRequestData, NtReadVirtualMemory, NtSetInformationProcess, NtSetInformationThread, NtTerminateProcess, NtTerminateThread, NtUnmapViewOfSection, NtWriteRequestData, NtWriteVirtualMemory};
ghost use Rattle.lpc_model.specs.declared.entry.Word.TheVariants.{Boot, Thread, Token, Resident};
ghost use Rattle.lpc_model.specs.Lines.{call_of, line_of};
ghost use Rattle.lpc_model.specs.Words.{is_id, words};
ghost use Rattle.lpc_model.specs.Grammar.{call_words, directive_words, has_call_ids, has_ids};
ghost use Rattle.lpc_model.specs.Grammar as grammar;
ghost use Rattle.lpc_script.specs.Heads.{number_and_given, number_and_word};
ghost use Rattle.lpc_words.specs.Gives.{Gives};

use crate::access::given_dacl;
use crate::exceptions::raise;
use crate::head::{Head, read_head};
use crate::scratch::Scratch;
use crate::tokens::{process_and_token, quality, token_words};
use lpc_base::limits::LINE_LIMIT;
use lpc_model::{Call, CallName, Kind, Line, LineFault, ProcArg, ViewWord, Word};
use lpc_words::{
    four_words, id, next_number, next_word, no_words, number, one_or_two_words, one_word,
    three_parts, three_words, two_words,
};

/// The word `null`; `Word` for any other.
fn null(word: &[u8]) -> Result<(), LineFault>
    ensures { Gives (λ nothing. tt) result (grammar.fixed_word (codes "null") word.now) }
{
    if word != b"null".as_slice() {
        return Err(LineFault::Word);
    }
    Ok(())
}

/// The handle, offset and size of a view, parted by colons: `Word` where there are no three parts, then `Number` for the
/// first that is no number.
#[tactic(auto, unfolding(lpc_model::specs::Grammar::view_numbers))]
fn view_numbers(text: &[u8]) -> Result<ViewWord, LineFault>
    ensures { Gives (λ view. view) result (grammar.view_numbers text.now) }
{
    let (handle, offset, size) = three_parts(text, b':').ok_or(LineFault::Word)?;
    let handle = number(handle)?;
    let offset = number(offset)?;
    let size = number(size)?;
    Ok(ViewWord {
        handle,
        offset,
        size,
    })
}

/// What a connect or its answer offers to be seen: nothing for `-`, or `w:` and a view's numbers; `Word` for any other
/// form.
#[tactic(auto, unfolding(lpc_model::specs::Grammar::view_word))]
fn view(word: &[u8]) -> Result<Option<ViewWord>, LineFault>
    ensures { Gives (λ view. view) result (grammar.view_word word.now) }
{
    if word == b"-".as_slice() {
        return Ok(None);
    }
    if word.starts_with(b"w:") {
        let view = view_numbers(&word[2..])?;
        return Ok(Some(view));
    }
    Err(LineFault::Word)
}

/// Whether a connect is accepted: `accept` or `refuse`; `Word` for any other word.
#[tactic(auto, unfolding(lpc_model::specs::Grammar::accept_word))]
fn accept(word: &[u8]) -> Result<bool, LineFault>
    ensures { Gives (λ accepted. accepted) result (grammar.accept_word word.now) }
{
    if word == b"accept".as_slice() {
        return Ok(true);
    }
    if word == b"refuse".as_slice() {
        return Ok(false);
    }
    Err(LineFault::Word)
}

/// A handle, or an address, alone.
fn one_handle(text: &[u8]) -> Result<u32, LineFault>
    ensures { Gives (λ handle. handle) result (grammar.one_handle (words text.now)) }
{
    if let Some((_, handle, rest)) = next_number(text) {
        no_words(rest)?;
        return Ok(handle);
    }
    any_handle(text)
}

/// The same, where the number has any form.
#[inline(never)]
fn any_handle(text: &[u8]) -> Result<u32, LineFault>
    ensures { Gives (λ handle. handle) result (grammar.one_handle (words text.now)) }
{
    let word = one_word(text)?;
    number(word)
}

/// A number, and a word behind it.
fn number_and_word(text: &[u8]) -> Result<(u32, &[u8]), LineFault>
    ensures value { Gives (λ p. (p.0, p.1.now)) result (number_and_word (words text.now)) }
    ensures length { IfOk result (λ p. length p.1.now ≤ length text.now) }
{
    if let Some((_, number, rest)) = next_number(text) {
        let word = one_word(rest)?;
        return Ok((number, word));
    }
    any_number_and_word(text)
}

/// The same, where the number has any form.
#[inline(never)]
fn any_number_and_word(text: &[u8]) -> Result<(u32, &[u8]), LineFault>
    ensures value { Gives (λ p. (p.0, p.1.now)) result (number_and_word (words text.now)) }
    ensures length { IfOk result (λ p. length p.1.now ≤ length text.now) }
{
    let (first, word) = two_words(text)?;
    let number = number(first)?;
    Ok((number, word))
}

/// A number, and perhaps a word behind it.
fn number_and_given(text: &[u8]) -> Result<(u32, Option<&[u8]>), LineFault>
    ensures value { Gives (λ p. (p.0, option_copied p.1)) result
        (number_and_given (words text.now)) }
    ensures length { IfOk result
        (λ p. IfSome p.1 (λ word. length word.now ≤ length text.now)) }
{
    if let Some((_, number, rest)) = next_number(text) {
        let Some((word, rest)) = next_word(rest) else {
            return Ok((number, None));
        };
        no_words(rest)?;
        return Ok((number, Some(word)));
    }
    any_number_and_given(text)
}

/// The same, where the number has any form.
#[inline(never)]
fn any_number_and_given(text: &[u8]) -> Result<(u32, Option<&[u8]>), LineFault>
    ensures value { Gives (λ p. (p.0, option_copied p.1)) result
        (number_and_given (words text.now)) }
    ensures length { IfOk result
        (λ p. IfSome p.1 (λ word. length word.now ≤ length text.now)) }
{
    let (first, word) = one_or_two_words(text)?;
    let number = number(first)?;
    Ok((number, word))
}

/// The rights of a further handle: a number, or none for `same`.
fn access(word: &[u8]) -> Result<Option<u32>, LineFault>
    ensures { Gives (λ access. access) result (grammar.access_word word.now) }
{
    if word == b"same".as_slice() {
        return Ok(None);
    }
    Ok(Some(number(word)?))
}

/// A process or a thread: that of a handle, or for `self` the caller's own.
fn target(word: &[u8]) -> Result<ProcArg, LineFault>
    ensures { Gives (λ target. target) result (grammar.target_word word.now) }
{
    if word == b"self".as_slice() {
        return Ok(ProcArg::Current);
    }
    Ok(ProcArg::By(number(word)?))
}

/// The numbers of a new process and of its first thread.
fn process_and_thread(text: &[u8]) -> Result<(u32, u32), LineFault>
    ensures value { Gives (λ p. p) result (grammar.process_and_thread (words text.now)) }
    ensures ids { IfOk result (λ p. IsTrue (is_id p.0 && is_id p.1)) }
{
    let (pid, tid) = two_words(text)?;
    let pid = id(pid)?;
    let tid = id(tid)?;
    Ok((pid, tid))
}

/// The process that a thread is to be of, and the number of the thread.
fn target_and_thread(text: &[u8]) -> Result<(ProcArg, u32), LineFault>
    ensures value { Gives (λ p. p) result (grammar.target_and_thread (words text.now)) }
    ensures ids { IfOk result (λ p. IsTrue (is_id p.1)) }
{
    let (word, tid) = two_words(text)?;
    let target = target(word)?;
    let tid = id(tid)?;
    Ok((target, tid))
}

fn target_and_code(text: &[u8]) -> Result<(ProcArg, u32), LineFault>
    ensures { Gives (λ p. p) result (grammar.target_and_code (words text.now)) }
{
    let (word, code) = two_words(text)?;
    let target = target(word)?;
    let code = number(code)?;
    Ok((target, code))
}

fn two_numbers(text: &[u8]) -> Result<(u32, u32), LineFault>
    ensures { Gives (λ p. p) result (grammar.two_numbers (words text.now)) }
{
    let (first, second) = two_words(text)?;
    let first = number(first)?;
    let second = number(second)?;
    Ok((first, second))
}

fn four_numbers(text: &[u8]) -> Result<(u32, u32, u32, u32), LineFault>
    ensures { Gives (λ p. p) result (grammar.four_numbers (words text.now)) }
{
    let (first, second, third, fourth) = four_words(text)?;
    let first = number(first)?;
    let second = number(second)?;
    let third = number(third)?;
    let fourth = number(fourth)?;
    Ok((first, second, third, fourth))
}

/// An address, and the bytes that are to stand there.
fn address_and_bytes<'a>(
    text: &[u8],
    scratch: &'a mut Scratch,
) -> Result<(u32, &'a [u8]), LineFault>
    requires { length text.now ≤ LINE_LIMIT }
    ensures { Gives (λ p. (p.0, p.1.now)) result (grammar.address_and_bytes (words text.now)) }
{
    let (address, digits) = two_words(text)?;
    let address = number(address)?;
    let bytes = scratch.bytes(digits)?;
    Ok((address, bytes))
}

/// A handle, a message, the number of a range that the message's request describes, and how many of its bytes.
fn range_words<'a>(
    text: &[u8],
    scratch: &'a mut Scratch,
) -> Result<(u32, &'a [u8], u32, u32), LineFault>
    requires { length text.now ≤ LINE_LIMIT }
    ensures { Gives (λ p. (p.0, p.1.now, p.2, p.3)) result
        (grammar.range_words (words text.now)) }
{
    let (handle, message, index, length) = four_words(text)?;
    let handle = number(handle)?;
    let message = scratch.message(message)?;
    let index = number(index)?;
    let length = number(length)?;
    Ok((handle, message, index, length))
}

/// A handle, a message, the number of such a range, and the bytes that are to stand there.
fn range_and_bytes<'a>(
    text: &[u8],
    scratch: &'a mut Scratch,
) -> Result<(u32, &'a [u8], u32, &'a [u8]), LineFault>
    requires { length text.now ≤ LINE_LIMIT }
    ensures { Gives (λ p. (p.0, p.1.now, p.2, p.3.now)) result
        (grammar.range_and_bytes (words text.now)) }
{
    let (handle, message, index, digits) = four_words(text)?;
    let handle = number(handle)?;
    let (message, index, bytes) = scratch.message_and_bytes(message, index, digits)?;
    Ok((handle, message, index, bytes))
}

fn handle_and_message<'a>(
    text: &[u8],
    scratch: &'a mut Scratch,
) -> Result<(u32, &'a [u8]), LineFault>
    requires { length text.now ≤ LINE_LIMIT }
    ensures { Gives (λ p. (p.0, p.1.now)) result (grammar.handle_and_message (words text.now)) }
{
    let (handle, message) = number_and_word(text)?;
    let message = scratch.message(message)?;
    Ok((handle, message))
}

/// A message, where a word is given for it.
fn given_message<'a>(
    word: Option<&[u8]>,
    scratch: &'a mut Scratch,
) -> Result<Option<&'a [u8]>, LineFault>
    requires { IfSome word (λ w. length w.now ≤ LINE_LIMIT) }
    ensures { Gives option_copied result (grammar.given_message (option_copied word.entry)) }
{
    match word {
        Some(word) => {
            let message = scratch.message(word)?;
            Ok(Some(message))
        }
        None => Ok(None),
    }
}

fn handle_and_reply<'a>(
    text: &[u8],
    scratch: &'a mut Scratch,
) -> Result<(u32, Option<&'a [u8]>), LineFault>
    requires { length text.now ≤ LINE_LIMIT }
    ensures { Gives (λ p. (p.0, option_copied p.1)) result
        (grammar.handle_and_reply (words text.now)) }
{
    let (handle, reply) = number_and_given(text)?;
    let reply = given_message(reply, scratch)?;
    Ok((handle, reply))
}

#[tactic(auto, unfolding(lpc_model::specs::Grammar::call_words))]
fn create_port<'a>(text: &'a [u8], scratch: &'a mut Scratch) -> Result<Call<'a>, LineFault>
    ensures value { Gives call_of result (call_words NtCreatePort (words text.now)) }
    ensures ids { IfOk result (λ call. IsTrue (has_call_ids (call_of call))) }
{
    let (word, dacl) = one_or_two_words(text)?;
    let dacl = given_dacl(dacl, scratch)?;
    if word == b"-".as_slice() {
        return Ok(Call::CreatePort { name: None, dacl });
    }
    Ok(Call::CreatePort {
        name: Some(word),
        dacl,
    })
}

#[tactic(auto, unfolding(lpc_model::specs::Grammar::call_words))]
fn connect_port<'a>(text: &'a [u8], scratch: &'a mut Scratch) -> Result<Call<'a>, LineFault>
    requires { length text.now ≤ LINE_LIMIT }
    ensures value { Gives call_of result (call_words NtConnectPort (words text.now)) }
    ensures ids { IfOk result (λ call. IsTrue (has_call_ids (call_of call))) }
{
    let (name, qos, offered, info) = four_words(text)?;
    let quality = quality(qos)?;
    let view = view(offered)?;
    let info = scratch.info(info)?;
    Ok(Call::ConnectPort {
        name,
        quality,
        view,
        info,
    })
}

#[tactic(auto, unfolding(lpc_model::specs::Grammar::call_words))]
fn duplicate_object<'a>(text: &[u8]) -> Result<Call<'a>, LineFault>
    ensures value { Gives call_of result (call_words NtDuplicateObject (words text.now)) }
    ensures ids { IfOk result (λ call. IsTrue (has_call_ids (call_of call))) }
{
    let (handle, rights) = two_words(text)?;
    let handle = number(handle)?;
    let access = access(rights)?;
    Ok(Call::DuplicateObject { handle, access })
}

#[tactic(auto, unfolding(lpc_model::specs::Grammar::call_words))]
fn accept_connect_port<'a>(text: &[u8], scratch: &'a mut Scratch) -> Result<Call<'a>, LineFault>
    requires { length text.now ≤ LINE_LIMIT }
    ensures value { Gives call_of result (call_words NtAcceptConnectPort (words text.now)) }
    ensures ids { IfOk result (λ call. IsTrue (has_call_ids (call_of call))) }
{
    let (context, message, verdict, offered) = four_words(text)?;
    let context = number(context)?;
    let message = scratch.message(message)?;
    let accept = accept(verdict)?;
    let view = view(offered)?;
    Ok(Call::AcceptConnectPort {
        context,
        message,
        accept,
        view,
    })
}

#[tactic(auto, unfolding(lpc_model::specs::Grammar::call_words))]
fn create_process<'a>(text: &[u8]) -> Result<Call<'a>, LineFault>
    ensures value { Gives call_of result (call_words NtCreateProcess (words text.now)) }
    ensures ids { IfOk result (λ call. IsTrue (has_call_ids (call_of call))) }
{
    let (pid, tid) = process_and_thread(text)?;
    Ok(Call::CreateProcess { pid, tid })
}

#[tactic(auto, unfolding(lpc_model::specs::Grammar::call_words))]
fn create_thread<'a>(text: &[u8]) -> Result<Call<'a>, LineFault>
    ensures value { Gives call_of result (call_words NtCreateThread (words text.now)) }
    ensures ids { IfOk result (λ call. IsTrue (has_call_ids (call_of call))) }
{
    let (process, tid) = target_and_thread(text)?;
    Ok(Call::CreateThread { process, tid })
}

#[tactic(auto, unfolding(lpc_model::specs::Grammar::call_words))]
fn terminate_thread<'a>(text: &[u8]) -> Result<Call<'a>, LineFault>
    ensures value { Gives call_of result (call_words NtTerminateThread (words text.now)) }
    ensures ids { IfOk result (λ call. IsTrue (has_call_ids (call_of call))) }
{
    let (thread, code) = target_and_code(text)?;
    Ok(Call::TerminateThread { thread, code })
}

#[tactic(auto, unfolding(lpc_model::specs::Grammar::call_words))]
fn terminate_process<'a>(text: &[u8]) -> Result<Call<'a>, LineFault>
    ensures value { Gives call_of result (call_words NtTerminateProcess (words text.now)) }
    ensures ids { IfOk result (λ call. IsTrue (has_call_ids (call_of call))) }
{
    let (process, code) = target_and_code(text)?;
    Ok(Call::TerminateProcess { process, code })
}

#[tactic(auto, unfolding(lpc_model::specs::Grammar::call_words))]
fn create_section<'a>(text: &[u8]) -> Result<Call<'a>, LineFault>
    ensures value { Gives call_of result (call_words NtCreateSection (words text.now)) }
    ensures ids { IfOk result (λ call. IsTrue (has_call_ids (call_of call))) }
{
    let (size, protection) = two_numbers(text)?;
    Ok(Call::CreateSection { size, protection })
}

#[tactic(auto, unfolding(lpc_model::specs::Grammar::call_words))]
fn map_view_of_section<'a>(text: &[u8]) -> Result<Call<'a>, LineFault>
    ensures value { Gives call_of result (call_words NtMapViewOfSection (words text.now)) }
    ensures ids { IfOk result (λ call. IsTrue (has_call_ids (call_of call))) }
{
    let (handle, offset, size, protection) = four_numbers(text)?;
    Ok(Call::MapViewOfSection {
        handle,
        offset,
        size,
        protection,
    })
}

#[tactic(auto, unfolding(lpc_model::specs::Grammar::call_words))]
fn unmap_view_of_section<'a>(text: &[u8]) -> Result<Call<'a>, LineFault>
    ensures value { Gives call_of result (call_words NtUnmapViewOfSection (words text.now)) }
    ensures ids { IfOk result (λ call. IsTrue (has_call_ids (call_of call))) }
{
    let address = one_handle(text)?;
    Ok(Call::UnmapViewOfSection { address })
}

#[tactic(auto, unfolding(lpc_model::specs::Grammar::call_words))]
fn read_virtual_memory<'a>(text: &[u8]) -> Result<Call<'a>, LineFault>
    ensures value { Gives call_of result (call_words NtReadVirtualMemory (words text.now)) }
    ensures ids { IfOk result (λ call. IsTrue (has_call_ids (call_of call))) }
{
    let (address, length) = two_numbers(text)?;
    Ok(Call::ReadVirtualMemory { address, length })
}

#[tactic(auto, unfolding(lpc_model::specs::Grammar::call_words))]
fn write_virtual_memory<'a>(text: &[u8], scratch: &'a mut Scratch) -> Result<Call<'a>, LineFault>
    requires { length text.now ≤ LINE_LIMIT }
    ensures value { Gives call_of result (call_words NtWriteVirtualMemory (words text.now)) }
    ensures ids { IfOk result (λ call. IsTrue (has_call_ids (call_of call))) }
{
    let (address, bytes) = address_and_bytes(text, scratch)?;
    Ok(Call::WriteVirtualMemory { address, bytes })
}

#[tactic(auto, unfolding(lpc_model::specs::Grammar::call_words))]
fn read_request_data<'a>(text: &[u8], scratch: &'a mut Scratch) -> Result<Call<'a>, LineFault>
    requires { length text.now ≤ LINE_LIMIT }
    ensures value { Gives call_of result (call_words NtReadRequestData (words text.now)) }
    ensures ids { IfOk result (λ call. IsTrue (has_call_ids (call_of call))) }
{
    let (handle, message, index, length) = range_words(text, scratch)?;
    Ok(Call::ReadRequestData {
        handle,
        message,
        index,
        length,
    })
}

#[tactic(auto, unfolding(lpc_model::specs::Grammar::call_words))]
fn write_request_data<'a>(text: &[u8], scratch: &'a mut Scratch) -> Result<Call<'a>, LineFault>
    requires { length text.now ≤ LINE_LIMIT }
    ensures value { Gives call_of result (call_words NtWriteRequestData (words text.now)) }
    ensures ids { IfOk result (λ call. IsTrue (has_call_ids (call_of call))) }
{
    let (handle, message, index, bytes) = range_and_bytes(text, scratch)?;
    Ok(Call::WriteRequestData {
        handle,
        message,
        index,
        bytes,
    })
}

#[tactic(auto, unfolding(lpc_model::specs::Grammar::call_words))]
fn impersonate_client_of_port<'a>(
    text: &[u8],
    scratch: &'a mut Scratch,
) -> Result<Call<'a>, LineFault>
    requires { length text.now ≤ LINE_LIMIT }
    ensures value { Gives call_of result (call_words NtImpersonateClientOfPort (words text.now)) }
    ensures ids { IfOk result (λ call. IsTrue (has_call_ids (call_of call))) }
{
    let (handle, message) = handle_and_message(text, scratch)?;
    Ok(Call::ImpersonateClientOfPort { handle, message })
}

#[tactic(auto, unfolding(lpc_model::specs::Grammar::call_words))]
fn set_information_thread<'a>(text: &[u8]) -> Result<Call<'a>, LineFault>
    ensures value { Gives call_of result (call_words NtSetInformationThread (words text.now)) }
    ensures ids { IfOk result (λ call. IsTrue (has_call_ids (call_of call))) }
{
    let (class, fixed) = two_words(text)?;
    let class = number(class)?;
    null(fixed)?;
    Ok(Call::SetInformationThread { class })
}

#[tactic(auto, unfolding(lpc_model::specs::Grammar::call_words))]
fn query_information_token<'a>(text: &[u8]) -> Result<Call<'a>, LineFault>
    ensures value { Gives call_of result (call_words NtQueryInformationToken (words text.now)) }
    ensures ids { IfOk result (λ call. IsTrue (has_call_ids (call_of call))) }
{
    let (handle, class) = two_numbers(text)?;
    Ok(Call::QueryInformationToken { handle, class })
}

#[tactic(auto, unfolding(lpc_model::specs::Grammar::call_words))]
fn set_information_process<'a>(text: &[u8]) -> Result<Call<'a>, LineFault>
    ensures value { Gives call_of result (call_words NtSetInformationProcess (words text.now)) }
    ensures ids { IfOk result (λ call. IsTrue (has_call_ids (call_of call))) }
{
    let (word, class, port) = three_words(text)?;
    let process = target(word)?;
    let class = number(class)?;
    let port = number(port)?;
    Ok(Call::SetInformationProcess {
        process,
        class,
        port,
    })
}

/// A call by the words behind its name.
#[tactic(auto, unfolding(lpc_model::specs::Grammar::call_words))]
fn call<'a>(name: CallName, text: &'a [u8], scratch: &'a mut Scratch) -> Result<Call<'a>, LineFault>
    requires { length text.now ≤ LINE_LIMIT }
    ensures value { Gives call_of result (call_words name (words text.now)) }
    ensures ids { IfOk result (λ call. IsTrue (has_call_ids (call_of call))) }
{
    match name {
        CallName::NtCreatePort => create_port(text, scratch),
        CallName::NtConnectPort => connect_port(text, scratch),
        CallName::NtListenPort => {
            let handle = one_handle(text)?;
            Ok(Call::ListenPort { handle })
        }
        CallName::NtAcceptConnectPort => accept_connect_port(text, scratch),
        CallName::NtCompleteConnectPort => {
            let handle = one_handle(text)?;
            Ok(Call::CompleteConnectPort { handle })
        }
        CallName::NtRequestPort => {
            let (handle, message) = handle_and_message(text, scratch)?;
            Ok(Call::RequestPort { handle, message })
        }
        CallName::NtRequestWaitReplyPort => {
            let (handle, message) = handle_and_message(text, scratch)?;
            Ok(Call::RequestWaitReplyPort { handle, message })
        }
        CallName::NtReplyPort => {
            let (handle, message) = handle_and_message(text, scratch)?;
            Ok(Call::ReplyPort { handle, message })
        }
        CallName::NtReplyWaitReceivePort => {
            let (handle, reply) = handle_and_reply(text, scratch)?;
            Ok(Call::ReplyWaitReceivePort { handle, reply })
        }
        CallName::NtRegisterThreadTerminatePort => {
            let handle = one_handle(text)?;
            Ok(Call::RegisterThreadTerminatePort { handle })
        }
        CallName::NtClose => {
            let handle = one_handle(text)?;
            Ok(Call::Close { handle })
        }
        CallName::NtDuplicateObject => duplicate_object(text),
        CallName::NtQueryObject => {
            let handle = one_handle(text)?;
            Ok(Call::QueryObject { handle })
        }
        CallName::NtCreateProcess => create_process(text),
        CallName::NtCreateThread => create_thread(text),
        CallName::NtTerminateThread => terminate_thread(text),
        CallName::NtTerminateProcess => terminate_process(text),
        CallName::NtCreateSection => create_section(text),
        CallName::NtMapViewOfSection => map_view_of_section(text),
        CallName::NtUnmapViewOfSection => unmap_view_of_section(text),
        CallName::NtReadVirtualMemory => read_virtual_memory(text),
        CallName::NtWriteVirtualMemory => write_virtual_memory(text, scratch),
        CallName::NtReadRequestData => read_request_data(text, scratch),
        CallName::NtWriteRequestData => write_request_data(text, scratch),
        CallName::NtImpersonateClientOfPort => impersonate_client_of_port(text, scratch),
        CallName::NtSetInformationThread => set_information_thread(text),
        CallName::NtOpenThreadToken => {
            no_words(text)?;
            Ok(Call::OpenThreadToken)
        }
        CallName::NtOpenProcessToken => {
            no_words(text)?;
            Ok(Call::OpenProcessToken)
        }
        CallName::NtQueryInformationToken => query_information_token(text),
        CallName::NtSetInformationProcess => set_information_process(text),
        CallName::Raise => raise(text),
    }
}

/// A process with its first thread, and perhaps the name of its token.
#[tactic(auto, unfolding(lpc_model::specs::Grammar::directive_words))]
fn boot(text: &[u8]) -> Result<Line<'_>, LineFault>
    ensures value { Gives line_of result (directive_words Boot (words text.now)) }
    ensures ids { IfOk result (λ line. IsTrue (has_ids (line_of line))) }
{
    let (pid, tid, token) = process_and_token(text)?;
    Ok(Line::Boot { pid, tid, token })
}

/// A thread of a process.
#[tactic(auto, unfolding(lpc_model::specs::Grammar::directive_words))]
fn thread(text: &[u8]) -> Result<Line<'_>, LineFault>
    ensures value { Gives line_of result (directive_words Thread (words text.now)) }
    ensures ids { IfOk result (λ line. IsTrue (has_ids (line_of line))) }
{
    let (tid, pid) = two_words(text)?;
    let tid = id(tid)?;
    let pid = id(pid)?;
    Ok(Line::Thread { tid, pid })
}

/// A token and its name.
#[tactic(auto, unfolding(lpc_model::specs::Grammar::directive_words))]
fn token<'a>(text: &'a [u8], scratch: &'a mut Scratch) -> Result<Line<'a>, LineFault>
    ensures value { Gives line_of result (directive_words Token (words text.now)) }
    ensures ids { IfOk result (λ line. IsTrue (has_ids (line_of line))) }
{
    let (name, token) = token_words(text)?;
    let token = scratch.hold_token(token);
    Ok(Line::Token { name, token })
}

/// The kind of a server; `Word` for any other word.
#[tactic(auto, unfolding(lpc_model::specs::Grammar::kind_word))]
fn kind(word: &[u8]) -> Result<Kind, LineFault>
    ensures { Gives (λ kind. kind) result (grammar.kind_word word.now) }
{
    if word != b"win32".as_slice() {
        return Err(LineFault::Word);
    }
    Ok(Kind::Win32)
}

/// A server on a thread.
#[tactic(auto, unfolding(lpc_model::specs::Grammar::directive_words))]
fn resident(text: &[u8]) -> Result<Line<'_>, LineFault>
    ensures value { Gives line_of result (directive_words Resident (words text.now)) }
    ensures ids { IfOk result (λ line. IsTrue (has_ids (line_of line))) }
{
    let (tid, word, handle) = three_words(text)?;
    let tid = id(tid)?;
    let kind = kind(word)?;
    let handle = number(handle)?;
    Ok(Line::Resident { tid, kind, handle })
}

/// A directive by the words behind it.
#[tactic(auto, unfolding(lpc_model::specs::Grammar::directive_words))]
fn directive<'a>(
    word: Word,
    text: &'a [u8],
    scratch: &'a mut Scratch,
) -> Result<Line<'a>, LineFault>
    ensures value { Gives line_of result (directive_words word (words text.now)) }
    ensures ids { IfOk result (λ line. IsTrue (has_ids (line_of line))) }
{
    match word {
        Word::Boot => boot(text),
        Word::Thread => thread(text),
        Word::Token => token(text, scratch),
        Word::Dir => {
            let path = one_word(text)?;
            Ok(Line::Dir(path))
        }
        Word::Link => {
            let (path, target) = two_words(text)?;
            Ok(Line::Link { path, target })
        }
        Word::Resident => resident(text),
        Word::Turn => {
            let tid = one_word(text)?;
            let tid = id(tid)?;
            Ok(Line::Turn(tid))
        }
    }
}

fn is_printable(text: &[u8]) -> bool
    ensures { result ≡ list_all grammar.is_printable text.now }
{
    let len = text.len();
    if len < 8 {
        return is_printable_run(text);
    }
    let mut printable = true;
    let mut start = 0;
    while start < len - 8 {
        printable &= is_printable_run(&text[start..start + 8]);
        start += 8;
    }
    // The last eight, of which some may have been looked at.
    printable & is_printable_run(&text[len - 8..])
}

#[inline(always)]
fn is_printable_run(text: &[u8]) -> bool
    ensures { result ≡ list_all grammar.is_printable text.now }
{
    let mut printable = true;
    // No byte ends it early, so that the compiler can look at many at once.
    for byte in text {
        printable &= *byte >= b' ' && *byte <= b'~';
    }
    printable
}

/// What a text says by its words, none where it has no word, or its first fault.
#[inline(always)]
fn words_line<'a>(text: &'a [u8], scratch: &'a mut Scratch) -> Result<Option<Line<'a>>, LineFault>
    requires { length text.now ≤ LINE_LIMIT }
    ensures value { Gives (option_map line_of) result (grammar.words_line (words text.now)) }
    ensures ids { IfOk result (λ line. IfSome line (λ said. IsTrue (has_ids (line_of said)))) }
{
    match read_head(text)? {
        Head::Nothing => Ok(None),
        Head::Call { tid, name, rest } => {
            let call = call(name, rest, scratch)?;
            Ok(Some(Line::Run { tid, call }))
        }
        Head::Directive { word, rest } => {
            let line = directive(word, rest, scratch)?;
            Ok(Some(line))
        }
    }
}

/// What a line says, none where it is a comment or has no word, or its first fault.
///
/// The line is given without the byte 10 that ends it. Its messages, what it writes, its access list
/// and its token lie in the scratch, its names and paths in the line itself. A byte past the
/// 16,384th is found before all else (`Long`), then a byte outside 32 to 126 (`Byte`), then the
/// faults of the words from left to right: the first word, the call's name, the count of words and
/// the words themselves. The grammar and the order of the faults are this project's own.
#[tactic(auto, unfolding(lpc_model::specs::Grammar::read_line))]
pub fn read_line<'a>(
    bytes: &'a [u8],
    scratch: &'a mut Scratch,
) -> Result<Option<Line<'a>>, LineFault>
    ensures value { Gives (option_map line_of) result (grammar.read_line bytes.now) }
    ensures ids { IfOk result (λ line. IfSome line (λ said. IsTrue (has_ids (line_of said)))) }
{
    if bytes.len() > LINE_LIMIT {
        return Err(LineFault::Long);
    }
    if bytes.starts_with(b"#") {
        return Ok(None);
    }
    if !is_printable(bytes) {
        return Err(LineFault::Byte);
    }
    words_line(bytes, scratch)
}
