// The adapters over a reader and a writer that count their calls, one of which fails.
ghost use Rattle.std.specs.Prelude.{◌≡◌, ◌<◌, length};

use super::{Input, Output, run};
use lpc_base::{Sink, Source};
use std::alloc::Global;
use std::io::{self, Error, ErrorKind, Read, Write};
use std::process::Abort;
use std::test::Fail;

// Counts its calls, and fails the one that has this number, as a call that a signal interrupts; each other one gives or
// takes a byte.
#[derive(Drop)]
struct Slow {
    calls: u64,
    fails: u64,
}

impl Slow {
    fn new(fails: u64) -> Slow {
        Slow { calls: 0, fails }
    }

    fn step(&mut self) -> io::Result<usize> {
        self.calls = self.calls.saturating_add(1);
        if self.calls == self.fails {
            return Err(Error::from(ErrorKind::Interrupted));
        }
        Ok(1)
    }
}

impl Read for Slow {
    fn read(&mut self, buf: &mut [u8]) -> io::Result<usize> {
        let count = self.step()?.min(buf.len());
        buf.fill(b'x');
        Ok(count)
    }
}

impl Write for Slow {
    fn write(&mut self, buf: &[u8]) -> io::Result<usize> {
        Ok(self.step()?.min(buf.len()))
    }

    fn flush(&mut self) -> io::Result<()> {
        Ok(())
    }
}

// A read answers so; the reader was called so often, one failure was counted, and this is in the buffer.
fn reads(
    rt: &impl Abort,
    input: &mut Input<Slow>,
    into: &mut [u8],
    answer: Option<usize>,
    calls: u64,
    text: &[u8],
)
    requires { 0 < length into.old }
    ensures { length into.new ≡ length into.old }
{
    assert!(rt; input.read(into).ok() == answer);
    assert!(rt; input.reader.calls == calls && input.faults == 1);
    assert!(rt; *into == *text);
}

#[test]
fn a_failed_read_is_counted_once_and_not_tried_again(rt: HostRuntime) {
    let mut input = Input::new(Slow::new(1));
    let mut into = [b'a', b'b'];
    reads(&rt, &mut input, &mut into, None, 1, b"ab");
    reads(&rt, &mut input, &mut into, Some(1), 2, b"xb");
}

// A write of these bytes answers so; then this is kept back, and the writer was called so often.
fn writes(
    rt: &impl Abort,
    output: &mut Output<Slow>,
    from: &[u8],
    answer: Option<usize>,
    text: &[u8],
    calls: u64,
)
    requires { 0 < length from.now }
{
    assert!(rt; output.write(from).ok() == answer);
    assert!(rt; *output.text == *text);
    assert!(rt; output.writer.calls == calls);
}

// The program ends with this status in place of 2. Then so many failures were counted, and the writer was called so often.
fn ends(rt: &impl Abort, mut output: Output<Slow>, status: u8, faults: u64, calls: u64) {
    assert!(rt; output.finish(2) == status);
    assert!(rt; output.faults == faults);
    assert!(rt; output.into_writer().calls == calls);
}

#[test]
fn what_is_kept_back_is_written_where_there_is_no_room_and_at_the_end(rt: HostRuntime) {
    let mut output = Output::new(rt.alloc(), Slow::new(0), 4);
    writes(&rt, &mut output, b"abc", Some(3), b"abc", 0);
    writes(&rt, &mut output, b"de", Some(1), b"abcd", 0);
    writes(&rt, &mut output, b"e", Some(1), b"e", 4);
    writes(&rt, &mut output, b"fghij", Some(3), b"efgh", 4);
    ends(&rt, output, 2, 0, 8);
}

#[test]
fn without_room_each_text_is_written_at_once(rt: HostRuntime) {
    let mut output = Output::new(rt.alloc(), Slow::new(0), 0);
    writes(&rt, &mut output, b"ab", Some(1), b"", 1);
    writes(&rt, &mut output, b"b", Some(1), b"", 2);
    ends(&rt, output, 2, 0, 2);
}

#[test]
fn a_failed_write_is_counted_once_and_not_tried_again(rt: HostRuntime) {
    let mut output = Output::new(rt.alloc(), Slow::new(1), 0);
    writes(&rt, &mut output, b"ab", None, b"", 1);
    ends(&rt, output, 4, 1, 1);
}

#[test]
fn behind_a_failed_write_what_is_kept_back_is_not_written(rt: HostRuntime) {
    let mut output = Output::new(rt.alloc(), Slow::new(2), 3);
    writes(&rt, &mut output, b"abc", Some(3), b"abc", 0);
    writes(&rt, &mut output, b"d", None, b"bc", 2);
    writes(&rt, &mut output, b"d", None, b"bc", 2);
    ends(&rt, output, 4, 2, 2);
}

#[test]
fn a_failed_last_write_is_told_and_counted_once(rt: HostRuntime) {
    let mut output = Output::new(rt.alloc(), Slow::new(2), 4);
    writes(&rt, &mut output, b"abc", Some(3), b"abc", 0);
    ends(&rt, output, 4, 1, 2);
}

// Takes each text whole, but the one that has this number.
#[derive(Drop)]
struct Whole {
    slow: Slow,
}

impl Write for Whole {
    fn write(&mut self, buf: &[u8]) -> io::Result<usize> {
        self.slow.step()?;
        Ok(buf.len())
    }

    fn flush(&mut self) -> io::Result<()> {
        Ok(())
    }
}

// A replay of two lines ends with this status, with so much room, where this write fails.
fn replays(
    rt: &impl Abort,
    alloc: Global,
    room: usize,
    fails: u64,
    status: u8,
) -> Result<(), Fail> {
    let mut words = Vec::new(alloc);
    words.push(String::from_str(alloc, "replay")?)?;
    let script: &[u8] = b"boot 20 24\n24 NtCreatePort -\n";
    let writer = Whole {
        slow: Slow::new(fails),
    };
    assert!(rt; run(alloc, &words, script, writer, room) == status);
    Ok(())
}

#[test]
fn with_room_for_all_one_write_is_made_and_else_one_for_each_line(
    rt: HostRuntime,
) -> Result<(), Fail> {
    replays(&rt, rt.alloc(), 4096, 1, 4)?;
    replays(&rt, rt.alloc(), 4096, 2, 0)?;
    replays(&rt, rt.alloc(), 0, 3, 4)?;
    replays(&rt, rt.alloc(), 0, 4, 0)
}
