// A script is read and run line by line, and its text sent.
ghost use Rattle.std.specs.Prelude.{◌≡◌, ◌+◌, ◌<◌, ◌≤◌, [], length, true, false, None, Some, IfOk, IfSome, OnErr, OnOk, IsErrOf};
ghost use Rattle.lpc_base.specs.Streams.{Adds, Rose};
ghost use Rattle.lpc_model.specs.Script.{script_lines};
ghost use Rattle.lpc_script.specs.Feeding.{has_end};
ghost use Rattle.lpc_replay.specs.declared.play.Ending.TheVariants.{Replayed, SourceFailed, Stopped};
ghost use Rattle.lpc_replay.specs.Playing.{EndsAs, IsUnsure, Spends, StopsAs, begin, body_text, ending_of, ends_unfailing, has_not_failed, last_text, text_from, text_next};
ghost use Rattle.lpc_replay.specs.Reading.{IsAskedForPieces};
ghost use Rattle.lpc_replay.specs.Sending.{AddsFront, IsLeftAlone, RunsOn};
ghost use Rattle.lpc_replay.specs.TopCall.{Begins, BreaksOff, CutsShort, IsFormed, ReadsInTime, Replays, Stops, StopsAtFault};

use crate::form::Form;
use crate::playback::Playback;
use crate::reading::{NextLine, Reader};
use crate::sending::send_all;
use lpc_base::{Failed, OutOfMemory, Sink, Source};
use lpc_model::LineFault;
use lpc_script::Scratch;
use lpc_tokens::TokenArena;
use std::alloc::Global;

/// How a script was replayed.
#[derive(Clone, Copy)]
pub enum Ending {
    /// To its end.
    Replayed,
    /// To its first faulty line.
    Stopped,
    /// To the source's failure: each line that was read whole.
    SourceFailed,
}

/// Why no further line of a script is run.
#[derive(Clone, Copy)]
pub enum Stop {
    /// The source answered its end.
    End,
    /// The source failed.
    SourceFailed,
    /// The next line is faulty.
    Fault(LineFault),
}

/// Why a script wasn't run to its end or its first faulty line.
#[derive(Clone, Copy)]
pub enum PlayError {
    /// Memory ran out.
    OutOfMemory,
    /// The sink failed.
    SinkFailed,
}

impl From<OutOfMemory> for PlayError {
    ghost use Rattle.std.specs.Prelude.{◌≡◌};
    ghost use Rattle.lpc_replay.specs.declared.play.PlayError.TheVariants.{OutOfMemory};

    ghost from_gives = { λ _ e. e ≡ OutOfMemory };

    fn from(_: OutOfMemory) -> Self {
        PlayError::OutOfMemory
    }
}

impl From<Failed> for PlayError {
    ghost use Rattle.std.specs.Prelude.{◌≡◌};
    ghost use Rattle.lpc_replay.specs.declared.play.PlayError.TheVariants.{SinkFailed};

    ghost from_gives = { λ _ e. e ≡ SinkFailed };

    fn from(_: Failed) -> Self {
        PlayError::SinkFailed
    }
}

/// Reads lines and runs them one after the other, and sends what each tells before the next one is read. A rest that no
/// byte 10 ends isn't run.
fn play_lines<S: Source, K: Sink>(
    playback: &mut Playback,
    scratch: &mut Scratch,
    reader: &mut Reader,
    source: &mut S,
    sink: &mut K,
) -> Result<Stop, PlayError>
    requires begin { playback.old.at ≡ begin }
    requires unread { reader.old.piece ≡ [] }
    ensures stops { IfOk result (λ stop. StopsAs playback.old.form stop
        (S.left source.old) (S.left source.new)
        (K.sent sink.old) (K.sent sink.new) playback.new.at reader.new.line.line) }
    ensures form { playback.new.form ≡ playback.old.form }
    ensures end { IfOk result (λ stop. stop ≡ Stop.End →
        IfSome (S.left source.new) (λ left. left ≡ [])) }
    ensures lacks { OnOk result (has_end reader.new.line.line ≡ false) }
    ensures begun { OnErr result (Begins playback.old.form (S.left source.old) (S.left source.new)
        (K.sent sink.old) (K.sent sink.new)) }
    ensures in_time { OnErr result (ReadsInTime playback.old.form
        (S.left source.old) (S.left source.new) (K.sent sink.old) (K.sent sink.new)) }
    ensures cut { IsErrOf result PlayError.OutOfMemory →
        CutsShort playback.old.form (S.left source.old) (S.left source.new)
        (K.sent sink.old) (K.sent sink.new) }
    ensures failed { IsErrOf result PlayError.SinkFailed →
        Rose (K.faults sink.old) (K.faults sink.new) }
    ensures still { OnOk result (K.faults sink.new ≡ K.faults sink.old) }
    ensures out_of_memory { IsErrOf result PlayError.OutOfMemory →
        K.faults sink.new ≡ K.faults sink.old }
    ensures later { K.faults sink.old ≤ K.faults sink.new }
    ensures spends { IfOk result (λ stop. Spends playback.old.form (S.left source.old)
        (text_next playback.old.form stop playback.new.at reader.new.line.line)
        (K.sure sink.old) (K.sure sink.new)) }
    ensures unsure { IsErrOf result PlayError.SinkFailed →
        IsUnsure playback.old.form (S.left source.old) (K.sure sink.old) }
    ensures left_alone { IsLeftAlone (K.asked sink.old) (K.asked sink.new) }
    ensures runs_on { OnOk result (RunsOn (K.asked sink.old) (K.asked sink.new)) }
    ensures asked { IsAskedForPieces (S.asked source.old) (S.asked source.new) }
    ensures source_failed { IfOk result (λ stop. stop ≡ Stop.SourceFailed →
        Rose (S.faults source.old) (S.faults source.new)) }
    ensures source_still { IfOk result (λ stop. has_not_failed stop ≡ true →
        S.faults source.new ≡ S.faults source.old) }
    ensures source_later { S.faults source.old ≤ S.faults source.new }
{
    loop {
        match reader.next_line(source, playback.is_full()) {
            NextLine::Whole => {}
            NextLine::TooLong => return Ok(Stop::Fault(LineFault::Long)),
            NextLine::TooMany => return Ok(Stop::Fault(LineFault::Lines)),
            NextLine::End => return Ok(Stop::End),
            NextLine::SourceFailed => return Ok(Stop::SourceFailed),
        }
        if let Some(fault) = playback.run_line(scratch, reader.line.line())? {
            return Ok(Stop::Fault(fault));
        }
        send_all(sink, playback.text())?;
    }
}

/// Runs a rest of a script that no byte 10 ends, and sends what it tells. An empty rest is no line. Answers its fault
/// where it is faulty.
fn play_rest<K: Sink>(
    playback: &mut Playback,
    scratch: &mut Scratch,
    rest: &[u8],
    sink: &mut K,
) -> Result<Option<LineFault>, PlayError>
    requires lacks { has_end rest.now ≡ false }
    ensures ends { IfOk result (λ fault. EndsAs playback.old.form fault
        playback.old.at playback.new.at rest.now (K.sent sink.old) (K.sent sink.new)) }
    ensures front { AddsFront (K.sent sink.old) (K.sent sink.new)
        (body_text playback.old.form playback.old.at (script_lines rest.now)) }
    ensures failed { IsErrOf result PlayError.SinkFailed →
        Rose (K.faults sink.old) (K.faults sink.new) }
    ensures still { OnOk result (K.faults sink.new ≡ K.faults sink.old) }
    ensures out_of_memory { IsErrOf result PlayError.OutOfMemory →
        K.faults sink.new ≡ K.faults sink.old }
    ensures unsent { IsErrOf result PlayError.OutOfMemory →
        K.sent sink.new ≡ K.sent sink.old }
    ensures later { K.faults sink.old ≤ K.faults sink.new }
    ensures spends { IfOk result (λ fault.
        K.sure sink.old + length (last_text playback.new.at fault)
        ≤ K.sure sink.new
        + length (text_from playback.old.form playback.old.at (script_lines rest.now))) }
    ensures unsure { IsErrOf result PlayError.SinkFailed →
        K.sure sink.old
        < length (text_from playback.old.form playback.old.at (script_lines rest.now)) }
    ensures left_alone { IsLeftAlone (K.asked sink.old) (K.asked sink.new) }
    ensures runs_on { OnOk result (RunsOn (K.asked sink.old) (K.asked sink.new)) }
{
    if rest.is_empty() {
        return Ok(None);
    }
    if let Some(fault) = playback.run_line(scratch, rest)? {
        return Ok(Some(fault));
    }
    send_all(sink, playback.text())?;
    Ok(None)
}

/// Sends the last line, and answers how the script was replayed.
fn finish<K: Sink>(
    playback: &mut Playback,
    fault: Option<LineFault>,
    sink: &mut K,
) -> Result<Ending, PlayError>
    ensures ending { IfOk result (λ ending. ending ≡ ending_of fault) }
    ensures sent { OnOk result (Adds (K.sent sink.old) (K.sent sink.new)
        (last_text playback.old.at fault)) }
    ensures front { AddsFront (K.sent sink.old) (K.sent sink.new)
        (last_text playback.old.at fault) }
    ensures failed { IsErrOf result PlayError.SinkFailed →
        Rose (K.faults sink.old) (K.faults sink.new) }
    ensures still { OnOk result (K.faults sink.new ≡ K.faults sink.old) }
    ensures out_of_memory { IsErrOf result PlayError.OutOfMemory →
        K.faults sink.new ≡ K.faults sink.old }
    ensures unsent { IsErrOf result PlayError.OutOfMemory →
        K.sent sink.new ≡ K.sent sink.old }
    ensures later { K.faults sink.old ≤ K.faults sink.new }
    ensures unsure { IsErrOf result PlayError.SinkFailed →
        K.sure sink.old < length (last_text playback.old.at fault) }
    ensures left_alone { IsLeftAlone (K.asked sink.old) (K.asked sink.new) }
{
    playback.end(fault)?;
    send_all(sink, playback.text())?;
    Ok(match fault {
        Some(_) => Ending::Stopped,
        None => Ending::Replayed,
    })
}

/// Reads a script of which nothing is read yet, runs each line as it comes, and sends its text, as [`play`] says it.
fn play_through<S: Source, K: Sink>(
    playback: &mut Playback,
    scratch: &mut Scratch,
    reader: &mut Reader,
    source: &mut S,
    sink: &mut K,
) -> Result<Ending, PlayError>
    requires begin { playback.old.at ≡ begin }
    requires unread { reader.old.piece ≡ [] }
    ensures transcript { IfOk result (λ ending. ending ≡ Replayed →
        Replays playback.old.form (S.left source.old) (S.left source.new)
        (K.sent sink.old) (K.sent sink.new)) }
    ensures whole { IfOk result (λ ending. ending ≡ Replayed →
        IsFormed true (S.left source.old)) }
    ensures sound { IfOk result (λ ending. ending ≡ Replayed →
        StopsAtFault (S.left source.old) (S.left source.new) 0) }
    ensures stopped { IfOk result (λ ending. ending ≡ Stopped →
        Stops playback.old.form (S.left source.old) (S.left source.new)
        (K.sent sink.old) (K.sent sink.new)) }
    ensures faulty { IfOk result (λ ending. ending ≡ Stopped →
        IsFormed false (S.left source.old)) }
    ensures failed_text { IfOk result (λ ending. ending ≡ SourceFailed →
        BreaksOff playback.old.form (S.left source.old) (S.left source.new)
        (K.sent sink.old) (K.sent sink.new)) }
    ensures failed_sound { IfOk result (λ ending. ending ≡ SourceFailed →
        StopsAtFault (S.left source.old) (S.left source.new) 3) }
    ensures begun { Begins playback.old.form (S.left source.old) (S.left source.new)
        (K.sent sink.old) (K.sent sink.new) }
    ensures in_time { ReadsInTime playback.old.form (S.left source.old) (S.left source.new)
        (K.sent sink.old) (K.sent sink.new) }
    ensures cut { IsErrOf result PlayError.OutOfMemory →
        CutsShort playback.old.form (S.left source.old) (S.left source.new)
        (K.sent sink.old) (K.sent sink.new) }
    ensures failed { IsErrOf result PlayError.SinkFailed →
        Rose (K.faults sink.old) (K.faults sink.new) }
    ensures still { OnOk result (K.faults sink.new ≡ K.faults sink.old) }
    ensures out_of_memory { IsErrOf result PlayError.OutOfMemory →
        K.faults sink.new ≡ K.faults sink.old }
    ensures later { K.faults sink.old ≤ K.faults sink.new }
    ensures unsure { IsErrOf result PlayError.SinkFailed →
        IsUnsure playback.old.form (S.left source.old) (K.sure sink.old) }
    ensures left_alone { IsLeftAlone (K.asked sink.old) (K.asked sink.new) }
    ensures asked { IsAskedForPieces (S.asked source.old) (S.asked source.new) }
    ensures source_failed { IfOk result (λ ending. ending ≡ SourceFailed →
        Rose (S.faults source.old) (S.faults source.new)) }
    ensures source_still { IfOk result (λ ending. ends_unfailing ending ≡ true →
        S.faults source.new ≡ S.faults source.old) }
    ensures source_later { S.faults source.old ≤ S.faults source.new }
{
    match play_lines(playback, scratch, reader, source, sink)? {
        Stop::SourceFailed => Ok(Ending::SourceFailed),
        Stop::Fault(fault) => finish(playback, Some(fault), sink),
        Stop::End => {
            let fault = play_rest(playback, scratch, reader.line.line(), sink)?;
            finish(playback, fault, sink)
        }
    }
}

/// Reads a script from the source, runs each line as it comes, and sends its text in this form. Where the source fails,
/// what is sent is what the lines tell that are ended by byte 10.
///
/// `SinkFailed`: the sink failed, and counted that; a front of the text was sent. `OutOfMemory`: memory ran out, and no
/// clause tells when it does; what some first lines tell was sent, each whole, and no last line. The sink counted no
/// failure then.
pub fn play<S: Source, K: Sink>(
    alloc: Global,
    form: Form,
    source: &mut S,
    sink: &mut K,
) -> Result<Ending, PlayError>
    ensures transcript { IfOk result (λ ending. ending ≡ Replayed →
        Replays form (S.left source.old) (S.left source.new) (K.sent sink.old) (K.sent sink.new)) }
    ensures whole { IfOk result (λ ending. ending ≡ Replayed →
        IsFormed true (S.left source.old)) }
    ensures sound { IfOk result (λ ending. ending ≡ Replayed →
        StopsAtFault (S.left source.old) (S.left source.new) 0) }
    ensures stopped { IfOk result (λ ending. ending ≡ Stopped →
        Stops form (S.left source.old) (S.left source.new) (K.sent sink.old) (K.sent sink.new)) }
    ensures faulty { IfOk result (λ ending. ending ≡ Stopped →
        IsFormed false (S.left source.old)) }
    ensures failed_text { IfOk result (λ ending. ending ≡ SourceFailed →
        BreaksOff form (S.left source.old) (S.left source.new)
        (K.sent sink.old) (K.sent sink.new)) }
    ensures failed_sound { IfOk result (λ ending. ending ≡ SourceFailed →
        StopsAtFault (S.left source.old) (S.left source.new) 3) }
    ensures begun { Begins form (S.left source.old) (S.left source.new)
        (K.sent sink.old) (K.sent sink.new) }
    ensures in_time { ReadsInTime form (S.left source.old) (S.left source.new)
        (K.sent sink.old) (K.sent sink.new) }
    ensures cut { IsErrOf result PlayError.OutOfMemory →
        CutsShort form (S.left source.old) (S.left source.new) (K.sent sink.old) (K.sent sink.new) }
    ensures failed { IsErrOf result PlayError.SinkFailed →
        Rose (K.faults sink.old) (K.faults sink.new) }
    ensures still { OnOk result (K.faults sink.new ≡ K.faults sink.old) }
    ensures out_of_memory { IsErrOf result PlayError.OutOfMemory →
        K.faults sink.new ≡ K.faults sink.old }
    ensures later { K.faults sink.old ≤ K.faults sink.new }
    ensures unsure { IsErrOf result PlayError.SinkFailed →
        IsUnsure form (S.left source.old) (K.sure sink.old) }
    ensures left_alone { IsLeftAlone (K.asked sink.old) (K.asked sink.new) }
    ensures asked { IsAskedForPieces (S.asked source.old) (S.asked source.new) }
    ensures source_failed { IfOk result (λ ending. ending ≡ SourceFailed →
        Rose (S.faults source.old) (S.faults source.new)) }
    ensures source_still { IfOk result (λ ending. ends_unfailing ending ≡ true →
        S.faults source.new ≡ S.faults source.old) }
    ensures source_later { S.faults source.old ≤ S.faults source.new }
{
    let mut scratch = Scratch::new(alloc)?;
    let mut reader = Reader::new(alloc)?;
    let arena = TokenArena::new(alloc);
    // The playback comes last, since its tables go last then: no other way out has to let them go.
    let mut playback = Playback::new(alloc, &arena, form)?;
    play_through(&mut playback, &mut scratch, &mut reader, source, sink)
}
