// What a run answers, and what it sends.
ghost use Rattle.std.specs.Prelude.{◌<◌};

use lpc_base::{MemSink, MemSource};
use lpc_replay::run_words;
use std::alloc::Global;
use std::process::Abort;
use std::test::Fail;

// Nothing was asked of the source behind its end or a failure, and 4,096 bytes at most before.
fn asked_in_pieces(rt: &impl Abort, source: &MemSource) {
    let asked = source.asked();
    assert!(rt; asked.late == 0);
    assert!(rt; asked.widest <= 4096);
}

// Nothing was asked of the sink behind a failure.
fn left_alone(rt: &impl Abort, sink: &MemSink) {
    assert!(rt; sink.asked().late == 0);
}

/// The status and the text for words, over a source and a sink.
pub fn runs(
    rt: &impl Abort,
    alloc: Global,
    words: &[&str],
    source: &mut MemSource,
    sink: &mut MemSink,
    status: u8,
    text: &str,
) -> Result<(), Fail> {
    let mut given = Vec::new(alloc);
    for word in words {
        given.push(String::from_str(alloc, word)?)?;
    }
    let answer = run_words(alloc, &given, source, sink);
    assert!(rt; answer == status);
    assert!(rt; sink.sent() == text.as_bytes());
    asked_in_pieces(rt, source);
    left_alone(rt, sink);
    Ok(())
}

/// A source that gives a script in pieces of so many bytes, and fails the calls of these numbers.
pub fn source(alloc: Global, script: &[u8], piece: usize, fails: &[u64]) -> Result<MemSource, Fail>
    requires { 0 < piece }
{
    let script = script.to_vec(alloc)?;
    let fails = fails.to_vec(alloc)?;
    Ok(MemSource::new(script, piece, fails))
}

/// A sink that has room for so many bytes, takes 5 a call, and fails the calls of these numbers.
pub fn sink(alloc: Global, room: usize, fails: &[u64]) -> Result<MemSink, Fail> {
    sink_in_pieces(alloc, room, 5, fails)
}

/// The same for a sink that takes so many bytes a call.
pub fn sink_in_pieces(
    alloc: Global,
    room: usize,
    piece: usize,
    fails: &[u64],
) -> Result<MemSink, Fail>
    requires { 0 < piece }
{
    let fails = fails.to_vec(alloc)?;
    let sink = MemSink::new(alloc, room, piece, fails)?;
    Ok(sink)
}

/// The status and the text for words and a script, which is read in pieces of 7 bytes.
pub fn answered(
    rt: &impl Abort,
    alloc: Global,
    words: &[&str],
    script: &[u8],
    status: u8,
    text: &str,
) -> Result<(), Fail> {
    let mut source = source(alloc, script, 7, &[])?;
    let mut sink = sink(alloc, 4096, &[])?;
    runs(rt, alloc, words, &mut source, &mut sink, status, text)
}

/// The same for a replay of a script.
pub fn replayed(
    rt: &impl Abort,
    alloc: Global,
    script: &str,
    status: u8,
    text: &str,
) -> Result<(), Fail> {
    answered(rt, alloc, &["replay"], script.as_bytes(), status, text)
}

/// The same for a script without a fault, which is read a byte at a time too.
pub fn replayed_in_pieces(
    rt: &impl Abort,
    alloc: Global,
    script: &str,
    text: &str,
) -> Result<(), Fail> {
    replayed(rt, alloc, script, 0, text)?;
    let mut source = source(alloc, script.as_bytes(), 1, &[])?;
    let mut sink = sink(alloc, 4096, &[])?;
    runs(rt, alloc, &["replay"], &mut source, &mut sink, 0, text)
}

/// The same for a script without a fault, where `~` stands for a part so many times, in the script and in the text.
pub fn replayed_with(
    rt: &impl Abort,
    alloc: Global,
    part: &str,
    times: usize,
    script: &str,
    text: &str,
) -> Result<(), Fail> {
    let part = part.repeat(alloc, times)?;
    let script = script.replace(alloc, '~', part.as_str())?;
    let text = text.replace(alloc, '~', part.as_str())?;
    replayed(rt, alloc, script.as_str(), 0, text.as_str())
}
