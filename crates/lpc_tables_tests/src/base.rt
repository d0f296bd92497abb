// The sources and sinks, call by call, against answers written out by hand.
ghost use Rattle.std.specs.Prelude.{◌<◌, ◌≡◌, length};

use crate::common::says;
use lpc_base::{Failed, HonestSource, MemSink, MemSource, OutOfMemory, Sink, Source, reserve_rows};
use std::process::Abort;
use std::test::Fail;

// A read answers so, and leaves so much in the buffer.
fn reads(
    rt: &impl Abort,
    source: &mut impl Source,
    into: &mut [u8],
    answer: Option<usize>,
    left: &[u8],
)
    requires { 0 < length into.old }
    ensures { length into.new ≡ length into.old }
{
    assert!(rt; source.read(into).ok() == answer);
    assert!(rt; *into == *left);
}

// A write answers so.
fn writes(rt: &impl Abort, sink: &mut MemSink, from: &[u8], answer: Option<usize>, sent: &[u8])
    requires { 0 < length from.now }
{
    assert!(rt; sink.write(from).ok() == answer);
    assert!(rt; sink.sent() == sent);
}

// Pieces of 2 bytes, of which the second call fails.
fn reads_pieces(rt: &impl Abort, source: &mut MemSource) {
    let mut into = [0; 3];
    reads(rt, source, &mut into, Some(2), b"ab\0");
    reads(rt, source, &mut into, None, b"ab\0");
    reads(rt, source, &mut into, Some(2), b"cd\0");
    reads(rt, source, &mut into, Some(1), b"ed\0");
    reads(rt, source, &mut into, Some(0), b"ed\0");
}

#[test]
fn source_gives_pieces_and_fails_the_calls_that_are_to_fail(rt: HostRuntime) -> Result<(), Fail> {
    let alloc = rt.alloc();
    let bytes = vec![in alloc; b'a', b'b', b'c', b'd', b'e']?;
    let fails = vec![in alloc; 2]?;
    let mut source = MemSource::new(bytes, 2, fails);
    reads_pieces(&rt, &mut source);
    Ok(())
}

// All that the buffer holds, then the rest.
fn reads_to_the_end(rt: &impl Abort, source: &mut HonestSource) {
    let mut into = [0; 3];
    reads(rt, source, &mut into, Some(3), b"abc");
    reads(rt, source, &mut into, Some(2), b"dec");
    reads(rt, source, &mut into, Some(0), b"dec");
}

#[test]
fn honest_source_fills_the_buffer_to_its_end(rt: HostRuntime) -> Result<(), Fail> {
    let bytes = vec![in rt.alloc(); b'a', b'b', b'c', b'd', b'e']?;
    let mut source = HonestSource::new(bytes);
    reads_to_the_end(&rt, &mut source);
    Ok(())
}

// A sink tells that it may be asked on or not, that it was asked so often behind a failure, and for at most so many bytes
// at once.
fn was_asked(rt: &impl Abort, sink: &MemSink, running: bool, late: u64, widest: usize) {
    let asked = sink.asked();
    assert!(rt; asked.running == running);
    assert!(rt; asked.late == late);
    assert!(rt; asked.widest == widest);
}

// Pieces of 3 bytes, of which the second call fails, into room for 4. The two calls behind that one are late, also the
// one that takes a byte.
fn writes_until_full(rt: &impl Abort, sink: &mut MemSink) {
    assert!(rt; sink.sent().is_empty());
    was_asked(rt, sink, true, 0, 0);
    writes(rt, sink, b"abcde", Some(3), b"abc");
    was_asked(rt, sink, true, 0, 5);
    writes(rt, sink, b"de", None, b"abc");
    was_asked(rt, sink, false, 0, 5);
    writes(rt, sink, b"de", Some(1), b"abcd");
    was_asked(rt, sink, false, 1, 5);
    writes(rt, sink, b"e", None, b"abcd");
    was_asked(rt, sink, false, 2, 5);
}

#[test]
fn sink_takes_pieces_and_fails_once_it_is_full(rt: HostRuntime) -> Result<(), Fail> {
    let alloc = rt.alloc();
    let fails = vec![in alloc; 2]?;
    let mut sink = MemSink::new(alloc, 4, 3, fails)?;
    writes_until_full(&rt, &mut sink);
    Ok(())
}

#[test]
fn errors_say_what_happened(rt: HostRuntime) -> Result<(), Fail> {
    says(&rt, rt.alloc(), &OutOfMemory, "out of memory")?;
    says(&rt, rt.alloc(), &Failed, "the stream failed")
}

#[test]
fn room_is_made_for_rows(rt: HostRuntime) -> Result<(), Fail> {
    let mut rows: Vec<u8> = Vec::new(rt.alloc());
    reserve_rows(&mut rows, 3)?;
    assert!(rt; rows.capacity() == 3);
    assert!(rt; rows.is_empty());
    Ok(())
}
