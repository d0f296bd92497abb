// The top call.
ghost use Rattle.std.specs.Prelude.{◌≡◌, ◌≤◌, [], ◌∷◌, true, false, IfSome, IsErrOf, IsSomeAnd, OnOk, is_none, is_some, length};
ghost use Rattle.lpc_base.specs.Streams.{Adds, Rose};
ghost use Rattle.lpc_model.specs.Accounts.{RunAccountsForDeaths};
ghost use Rattle.lpc_model.specs.Deaths.{RunTellsDeaths};
ghost use Rattle.lpc_model.specs.Closings.{RunTellsClosings};
ghost use Rattle.lpc_model.specs.Creators.{RunKeepsConnects};
ghost use Rattle.lpc_model.specs.Left.{RunLeavesNothing};
ghost use Rattle.lpc_model.specs.SingleClosings.{RunHasSingleClosings};
ghost use Rattle.lpc_model.specs.SoundWaits.{RunStaysSound};
ghost use Rattle.lpc_replay.specs.Laws.{ClientsApart, ConnectsReturn, LinesSettle, MisfitsRefused, RaisesReturn, RefusalsIdle, RefusalsStay, RequestsReturn, ThreadsEnd, WaitsEnd};
ghost use Rattle.lpc_replay.specs.Playing.{IsUnsure};
ghost use Rattle.lpc_replay.specs.Reading.{IsAskedForPieces};
ghost use Rattle.lpc_replay.specs.Sending.{AddsFront, IsLeftAlone};
ghost use Rattle.lpc_replay.specs.TopCall.{Begins, BreaksOff, CutsShort, EndsAsFormed, IfSure, IsFormed, ReadsInTime, Replays, Still, Stops, StopsAtFault, StopsUnfailing, form_of as form_in, is_form, is_one_of, is_replay, is_states, storm_of as storm_in, storm_text, usage};

use crate::form::Form;
use crate::play::{Ending, PlayError, play};
use crate::sending::send_all;
use crate::storm::run_storm;
use lpc_base::{Sink, Source};
use lpc_storm::{ROUNDS_LIMIT, print_summary};
use lpc_words::number;
use std::alloc::Global;

/// All was written: of a script whose every line was well formed and whose source answered its end, or of a storm.
const DONE: u8 = 0;

/// A line was faulty.
const STOPPED: u8 = 2;

/// The source failed.
const SOURCE_FAILED: u8 = 3;

/// The sink failed.
const SINK_FAILED: u8 = 4;

/// Memory ran out.
const OUT_OF_MEMORY: u8 = 5;

/// The words are none of the forms.
const NO_FORM: u8 = 64;

fn is_replay(words: &[String]) -> bool
    ensures { result ≡ is_replay words.now }
{
    match words {
        [word] => word.as_str() == "replay",
        _ => false,
    }
}

fn is_states(words: &[String]) -> bool
    ensures { result ≡ is_states words.now }
{
    match words {
        [word] => word.as_str() == "states",
        _ => false,
    }
}

/// What the words say to send of the lines of a script, where they say to replay one.
fn form_of(words: &[String]) -> Option<Form>
    ensures { result ≡ form_in words.now }
{
    if is_replay(words) {
        return Some(Form::Transcript);
    }
    if is_states(words) {
        return Some(Form::States);
    }
    None
}

/// The rounds and the seed of a storm, where the words are `storm N SEED`.
fn storm_of(words: &[String]) -> Option<(u32, u32)>
    ensures value { result ≡ storm_in words.now }
    ensures limit { IfSome result (λ storm. storm.0 ≤ 200000) }
{
    let [word, count, seed] = words else {
        return None;
    };
    if word.as_str() != "storm" {
        return None;
    }
    let (Ok(count), Ok(seed)) = (number(count.as_bytes()), number(seed.as_bytes())) else {
        return None;
    };
    if count > ROUNDS_LIMIT {
        return None;
    }
    Some((count, seed))
}

/// Says how the program is called.
fn tell_usage<K: Sink>(sink: &mut K) -> u8
    ensures statuses { is_one_of (64 ∷ 4 ∷ []) result ≡ true }
    ensures usage { result ≡ 64 → Adds (K.sent sink.old) (K.sent sink.new) usage }
    ensures front { AddsFront (K.sent sink.old) (K.sent sink.new) usage }
    ensures sink_failed { result ≡ 4 → Rose (K.faults sink.old) (K.faults sink.new) }
    ensures sink_still { result ≡ 64 → K.faults sink.new ≡ K.faults sink.old }
    ensures sink_later { K.faults sink.old ≤ K.faults sink.new }
    ensures sure { length usage ≤ K.sure sink.old → result ≡ 64 }
    ensures left_alone { IsLeftAlone (K.asked sink.old) (K.asked sink.new) }
{
    match send_all(sink, b"usage: ntlpc COMMAND [WORDS]\n") {
        Ok(()) => NO_FORM,
        Err(_) => SINK_FAILED,
    }
}

/// Reads a script from the source and sends its text in this form.
fn replay<S: Source, K: Sink>(alloc: Global, form: Form, source: &mut S, sink: &mut K) -> u8
    ensures statuses { is_one_of (0 ∷ 2 ∷ 3 ∷ 4 ∷ 5 ∷ []) result ≡ true }
    ensures transcript { result ≡ 0 →
        Replays form (S.left source.old) (S.left source.new) (K.sent sink.old) (K.sent sink.new) }
    ensures whole { result ≡ 0 → IsFormed true (S.left source.old) }
    ensures stopped { result ≡ 2 →
        Stops form (S.left source.old) (S.left source.new) (K.sent sink.old) (K.sent sink.new) }
    ensures faulty { result ≡ 2 → IsFormed false (S.left source.old) }
    ensures unfailed { result ≡ 2 →
        StopsUnfailing (S.left source.old) (S.left source.new)
        (S.faults source.old) (S.faults source.new) }
    ensures faulty_read { StopsAtFault (S.left source.old) (S.left source.new) result }
    ensures failed_text { result ≡ 3 →
        BreaksOff form (S.left source.old) (S.left source.new) (K.sent sink.old) (K.sent sink.new) }
    ensures begun { Begins form (S.left source.old) (S.left source.new)
        (K.sent sink.old) (K.sent sink.new) }
    ensures cut { result ≡ 5 →
        CutsShort form (S.left source.old) (S.left source.new) (K.sent sink.old) (K.sent sink.new) }
    ensures in_time { ReadsInTime form (S.left source.old) (S.left source.new)
        (K.sent sink.old) (K.sent sink.new) }
    ensures asked { IsAskedForPieces (S.asked source.old) (S.asked source.new) }
    ensures source_failed { result ≡ 3 → Rose (S.faults source.old) (S.faults source.new) }
    ensures source_still { result ≡ 0 → S.faults source.new ≡ S.faults source.old }
    ensures sink_failed { result ≡ 4 → Rose (K.faults sink.old) (K.faults sink.new) }
    ensures sink_still { is_one_of (0 ∷ 2 ∷ 3 ∷ 5 ∷ []) result ≡ true →
        K.faults sink.new ≡ K.faults sink.old }
    ensures source_later { S.faults source.old ≤ S.faults source.new }
    ensures sink_later { K.faults sink.old ≤ K.faults sink.new }
    ensures unsure { result ≡ 4 → IsUnsure form (S.left source.old) (K.sure sink.old) }
    ensures left_alone { IsLeftAlone (K.asked sink.old) (K.asked sink.new) }
{
    match play(alloc, form, source, sink) {
        Ok(Ending::Replayed) => DONE,
        Ok(Ending::Stopped) => STOPPED,
        Ok(Ending::SourceFailed) => SOURCE_FAILED,
        Err(PlayError::OutOfMemory) => OUT_OF_MEMORY,
        Err(PlayError::SinkFailed) => SINK_FAILED,
    }
}

/// Runs a storm, and sends its summary.
fn send_storm<K: Sink>(alloc: Global, count: u32, seed: u32, sink: &mut K) -> Result<(), PlayError>
    requires { count ≤ 200000 }
    ensures summed { OnOk result (Adds (K.sent sink.old) (K.sent sink.new)
        (storm_text (count, seed))) }
    ensures front { AddsFront (K.sent sink.old) (K.sent sink.new) (storm_text (count, seed)) }
    ensures unsent { IsErrOf result PlayError.OutOfMemory →
        K.sent sink.new ≡ K.sent sink.old }
    ensures failed { IsErrOf result PlayError.SinkFailed →
        Rose (K.faults sink.old) (K.faults sink.new) }
    ensures still { OnOk result (K.faults sink.new ≡ K.faults sink.old) }
    ensures out_of_memory { IsErrOf result PlayError.OutOfMemory →
        K.faults sink.new ≡ K.faults sink.old }
    ensures later { K.faults sink.old ≤ K.faults sink.new }
    ensures sure { length (storm_text (count, seed)) ≤ K.sure sink.old →
        IsErrOf result PlayError.SinkFailed → ⊥ }
    ensures left_alone { IsLeftAlone (K.asked sink.old) (K.asked sink.new) }
{
    let summary = run_storm(alloc, count, seed)?;
    let mut text = Vec::new(alloc);
    print_summary(&mut text, summary)?;
    send_all(sink, &text)?;
    Ok(())
}

/// Runs a storm, sends its summary, and answers the program's status.
fn storm<K: Sink>(alloc: Global, count: u32, seed: u32, sink: &mut K) -> u8
    requires { count ≤ 200000 }
    ensures statuses { is_one_of (0 ∷ 4 ∷ 5 ∷ []) result ≡ true }
    ensures summed { result ≡ 0 → Adds (K.sent sink.old) (K.sent sink.new)
        (storm_text (count, seed)) }
    ensures front { AddsFront (K.sent sink.old) (K.sent sink.new) (storm_text (count, seed)) }
    ensures unsent { result ≡ 5 → K.sent sink.new ≡ K.sent sink.old }
    ensures sink_failed { result ≡ 4 → Rose (K.faults sink.old) (K.faults sink.new) }
    ensures sink_still { is_one_of (0 ∷ 5 ∷ []) result ≡ true →
        K.faults sink.new ≡ K.faults sink.old }
    ensures sink_later { K.faults sink.old ≤ K.faults sink.new }
    ensures sure { length (storm_text (count, seed)) ≤ K.sure sink.old →
        is_one_of (0 ∷ 5 ∷ []) result ≡ true }
    ensures left_alone { IsLeftAlone (K.asked sink.old) (K.asked sink.new) }
{
    match send_storm(alloc, count, seed, sink) {
        Ok(()) => DONE,
        Err(PlayError::OutOfMemory) => OUT_OF_MEMORY,
        Err(PlayError::SinkFailed) => SINK_FAILED,
    }
}

/// Runs the form that the words name, and answers the program's status. The forms and the statuses are this project's
/// own.
///
/// The words `replay` replay the script that the source gives: each line is run as it comes, and what it tells is sent
/// to the sink before more than 4,096 bytes are read behind its end. Status 0: the script was read to its end, every
/// line was well formed, and all was sent. 2: a line was faulty; the lines before it were run, and `stop` with its
/// number and its fault was sent. 3: the source failed, and no line read before was faulty; what the lines tell that
/// are ended by byte 10 was sent, and no last line. 4: the sink failed. 5: memory ran out, and no clause tells when it
/// does; what some first lines tell was sent, each whole, and no last line.
///
/// The words `states` do the same, and send behind what each line tells what became of the world's rows in it: a line
/// for each row that went, came or changed, as rows are told apart by their names. That these lines are JSON, and that
/// no two rows have one name, is only tested. The statuses are those of `replay`.
///
/// The words `storm N SEED`, with N a number from 0 to 200000 and SEED a number, both spelled as a script's numbers,
/// read nothing. They run the script that is made of the two, line after line as a replay would, and send one line that
/// sums up its transcript. Status 0: it was sent. 4: the sink failed. 5: memory ran out, and no clause tells when it
/// does; nothing was sent.
///
/// Other words send the usage line and read nothing. Status 64: it was sent. 4: the sink failed.
///
/// Whatever the status, what was sent is a front of the text of what was read, in the form that the words name, of the
/// storm's line, or of the usage line: nothing else is sent, and nothing twice. Behind a failed write the sink is asked
/// for nothing more, where it could still be asked at first. What is said here of bytes that were read or sent, and of
/// how the sink was asked, holds of a source and a sink that tell it.
///
/// Where the sink's count of failures changed the status is 4, and where the source's did it isn't 0. A failure that
/// finds the count at its last value leaves it there, so of such a one this says nothing.
///
/// Where the source fails, a rest that isn't ended by byte 10 is no line, since more of it may have been left. But a
/// rest that passes a limit is a faulty line, whatever comes behind it: once its byte 16,385 was read, or once a byte
/// of line 1,000,001 was read. Then the status isn't 3.
pub fn run_words<S: Source, K: Sink>(
    alloc: Global,
    words: &[String],
    source: &mut S,
    sink: &mut K,
) -> u8
    // The status is one of six.
    ensures statuses { is_one_of (0 ∷ 2 ∷ 3 ∷ 4 ∷ 5 ∷ 64 ∷ []) result ≡ true }

    // The words are none of the forms: the usage line is sent, or a front of it where the sink fails, nothing is read,
    // and want of memory is no answer.
    ensures words { result ≡ 64 → is_form words.now ≡ false }
    ensures no_form { is_form words.now ≡ false → is_one_of (64 ∷ 4 ∷ []) result ≡ true }
    ensures unread { is_none (form_in words.now) ≡ true → source.new ≡ source.old }
    ensures usage { result ≡ 64 → Adds (K.sent sink.old) (K.sent sink.new) usage }
    ensures usage_begun { is_form words.now ≡ false →
        AddsFront (K.sent sink.old) (K.sent sink.new) usage }

    // The words are those of a storm: the summary of its script's run is sent, or a front of it where the sink fails,
    // and nothing where memory runs out.
    ensures storm { is_some (storm_in words.now) ≡ true →
        is_one_of (0 ∷ 4 ∷ 5 ∷ []) result ≡ true }
    ensures summed { IfSome (storm_in words.now) (λ storm. result ≡ 0 →
        Adds (K.sent sink.old) (K.sent sink.new) (storm_text storm)) }
    ensures summed_begun { IfSome (storm_in words.now) (λ storm.
        AddsFront (K.sent sink.old) (K.sent sink.new) (storm_text storm)) }
    ensures unsummed { is_some (storm_in words.now) ≡ true → result ≡ 5 →
        K.sent sink.new ≡ K.sent sink.old }
    ensures storm_unfailing { is_some (storm_in words.now) ≡ true →
        Still (K.faults sink.old) (K.faults sink.new) →
        is_one_of (0 ∷ 5 ∷ []) result ≡ true }

    // A sink that is sure of the whole text fails neither of the two.
    ensures usage_sure { is_form words.now ≡ false →
        length usage ≤ K.sure sink.old → result ≡ 64 }
    ensures storm_sure { IfSome (storm_in words.now) (λ storm.
        length (storm_text storm) ≤ K.sure sink.old → is_one_of (0 ∷ 5 ∷ []) result ≡ true) }

    // The words are those of a replay, in one of its forms. The script is read to its end, is well formed, and its text
    // is sent, which in the first form is its transcript.
    ensures transcript { IfSome (form_in words.now) (λ form. result ≡ 0 →
        Replays form (S.left source.old) (S.left source.new) (K.sent sink.old) (K.sent sink.new)) }
    ensures whole { is_some (form_in words.now) ≡ true → result ≡ 0 →
        IsFormed true (S.left source.old) }

    // The script is read up to a faulty line, and its text is sent. A rest without byte 10 is such a line only where the
    // source answered its end, or where the rest passes a limit.
    ensures stopped { result ≡ 2 → IsSomeAnd (form_in words.now) (λ form.
        Stops form (S.left source.old) (S.left source.new) (K.sent sink.old) (K.sent sink.new)) }
    ensures faulty { result ≡ 2 → IsFormed false (S.left source.old) }
    ensures unfailed { result ≡ 2 →
        StopsUnfailing (S.left source.old) (S.left source.new)
        (S.faults source.old) (S.faults source.new) }
    ensures faulty_read { is_some (form_in words.now) ≡ true →
        StopsAtFault (S.left source.old) (S.left source.new) result }

    // The source failed before a faulty line was read: what the lines tell that are ended by byte 10 is sent.
    ensures failed_text { result ≡ 3 → IsSomeAnd (form_in words.now) (λ form.
        BreaksOff form (S.left source.old) (S.left source.new)
        (K.sent sink.old) (K.sent sink.new)) }

    // Memory ran out: what some first lines tell is sent, each whole, and no last line.
    ensures cut { IfSome (form_in words.now) (λ form. result ≡ 5 →
        CutsShort form (S.left source.old) (S.left source.new)
        (K.sent sink.old) (K.sent sink.new)) }

    // Whatever the status, what was sent begins the text of what was read.
    ensures begun { IfSome (form_in words.now) (λ form.
        Begins form (S.left source.old) (S.left source.new) (K.sent sink.old) (K.sent sink.new)) }

    // Behind a line's end at most 4,096 bytes more are read before what the line tells is sent.
    ensures in_time { IfSome (form_in words.now) (λ form.
        ReadsInTime form (S.left source.old) (S.left source.new)
        (K.sent sink.old) (K.sent sink.new)) }

    // Behind its end or a failure the source is asked for nothing, where it could still be asked at first, and at no
    // time for more than 4,096 bytes at once.
    ensures asked { IsAskedForPieces (S.asked source.old) (S.asked source.new) }

    // Behind a failure the sink is asked for nothing, where it could still be asked at first.
    ensures left_alone { IsLeftAlone (K.asked sink.old) (K.asked sink.new) }

    // A failure is answered only where it was counted, and no count falls. Where the sink counted one the status is 4,
    // and where the source did it isn't 0.
    ensures source_failed { result ≡ 3 → Rose (S.faults source.old) (S.faults source.new) }
    ensures source_still { result ≡ 0 → S.faults source.new ≡ S.faults source.old }
    ensures sink_failed { result ≡ 4 → Rose (K.faults sink.old) (K.faults sink.new) }
    ensures sink_still { is_one_of (0 ∷ 2 ∷ 3 ∷ 5 ∷ 64 ∷ []) result ≡ true →
        K.faults sink.new ≡ K.faults sink.old }
    ensures source_later { S.faults source.old ≤ S.faults source.new }
    ensures sink_later { K.faults sink.old ≤ K.faults sink.new }

    // Without a failure a replay ends at the script's end or at its first faulty line, unless memory runs out.
    ensures unfailing { is_some (form_in words.now) ≡ true →
        Still (S.faults source.old) (S.faults source.new) →
        Still (K.faults sink.old) (K.faults sink.new) →
        is_one_of (0 ∷ 2 ∷ 5 ∷ []) result ≡ true }
    ensures complete { is_some (form_in words.now) ≡ true →
        Still (S.faults source.old) (S.faults source.new) →
        Still (K.faults sink.old) (K.faults sink.new) →
        EndsAsFormed (S.left source.old) result }

    // Where the source tells its bytes, a sink that is sure of the whole text fails no replay. So over it and an honest
    // source, which counts no failure, a replay is read to its end or to a faulty line, unless memory runs out.
    ensures replay_sure { IfSome (form_in words.now) (λ form.
        IfSure form (S.left source.old) (K.sure sink.old)
        (is_one_of (0 ∷ 2 ∷ 3 ∷ 5 ∷ []) result ≡ true)) }
    ensures honest { IfSome (form_in words.now) (λ form.
        Still (S.faults source.old) (S.faults source.new) →
        IfSure form (S.left source.old) (K.sure sink.old)
        (is_one_of (0 ∷ 2 ∷ 5 ∷ []) result ≡ true)) }

    // In the script read a request returns with success only by a reply that fits it, and an exception is continued
    // only by one whose data begin with 02000100. A reply that fits no wait is refused, a refused reply changes
    // nothing, and where a line makes it itself, and isn't a turn that comes to it, the others tell the same without
    // that line. A connect returns only by its answer or by a closing. An exception returns otherwise only where its
    // line says that its frame handlers handle it, or, as the world settles, where its wait keeps that. A wait ends
    // only by a wake or with its thread, and a thread only by the call that names it or its process, or as its process
    // is to end, with the code that its row keeps.
    ensures returns { result ≡ 0 → IfSome (S.left source.old) RequestsReturn }
    ensures refused { result ≡ 0 → IfSome (S.left source.old) MisfitsRefused }
    ensures unchanged { result ≡ 0 → IfSome (S.left source.old) RefusalsStay }
    ensures idle { result ≡ 0 → IfSome (S.left source.old) RefusalsIdle }
    ensures answered { result ≡ 0 → IfSome (S.left source.old) ConnectsReturn }
    ensures raised { result ≡ 0 → IfSome (S.left source.old) RaisesReturn }
    ensures ended { result ≡ 0 → IfSome (S.left source.old) WaitsEnd }
    ensures died { result ≡ 0 → IfSome (S.left source.old) ThreadsEnd }

    // In the script read each wait behind each line is one that can still end, no event is marked, and no process that
    // is to end lives.
    ensures sound { result ≡ 0 → IfSome (S.left source.old) RunStaysSound }
    ensures settled { result ≡ 0 → IfSome (S.left source.old) LinesSettle }

    // In the script read each completed client port that loses its last handle is told of once in that line, where its
    // connection port is open, and keeps until then the connect in whose name that is told.
    ensures closings { result ≡ 0 → IfSome (S.left source.old) RunTellsClosings }
    ensures single_closings { result ≡ 0 → IfSome (S.left source.old) RunHasSingleClosings }
    ensures creators { result ≡ 0 → IfSome (S.left source.old) RunKeepsConnects }

    // In the script read whoever asked to be told of a thread's end is told once, behind all ends of that call, or of
    // that turn of the line's settling, and before it closes a handle; what tells of ends and of closed ports is
    // accounted for, and nothing is left where no process lives.
    ensures deaths { result ≡ 0 → IfSome (S.left source.old) RunTellsDeaths }
    ensures accounted { result ≡ 0 → IfSome (S.left source.old) RunAccountsForDeaths }
    ensures nothing_left { result ≡ 0 → IfSome (S.left source.old) RunLeavesNothing }

    // In the script read and in any other in which a list of processes is a circle of a process too, and which has the
    // same inputs of the two, the process does and is told the same.
    ensures apart { result ≡ 0 → IfSome (S.left source.old) ClientsApart }
{
    let Some(form) = form_of(words) else {
        return match storm_of(words) {
            Some((count, seed)) => storm(alloc, count, seed, sink),
            None => tell_usage(sink),
        };
    };
    replay(alloc, form, source, sink)
}
