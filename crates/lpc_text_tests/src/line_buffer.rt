// A line that comes in pieces.
ghost use Rattle.std.specs.Prelude.{◌≡◌, ◌<◌, true, length};

use lpc_base::limits::LINE_LIMIT;
use lpc_script::{Fed, LineBuffer};
use std::process::Abort;
use std::test::Fail;

// So many bytes are taken of a piece, this comes of it, and then the line is this one.
fn feeds(
    rt: &impl Abort,
    buffer: &mut LineBuffer,
    piece: &[u8],
    count: usize,
    fed: Fed,
    line: &[u8],
)
    requires piece { 0 < length piece.now }
    requires open { buffer.old.is_open ≡ true }
{
    assert!(rt; buffer.feed(piece) == (count, fed));
    assert!(rt; buffer.line() == line);
}

#[test]
fn a_line_comes_in_pieces(rt: HostRuntime) -> Result<(), Fail> {
    let mut buffer = LineBuffer::new(rt.alloc())?;
    assert!(rt; buffer.line().is_empty());
    assert!(rt; buffer.feed(b"boot") == (4, Fed::More));
    feeds(&rt, &mut buffer, b" 20 24", 6, Fed::More, b"boot 20 24");
    buffer.clear();
    feeds(
        &rt,
        &mut buffer,
        b"boot 20 24\n# and\n",
        11,
        Fed::Line,
        b"boot 20 24",
    );
    buffer.clear();
    feeds(&rt, &mut buffer, b"\n", 1, Fed::Line, b"");
    Ok(())
}

#[test]
fn a_line_of_16384_bytes_is_the_longest(rt: HostRuntime) -> Result<(), Fail> {
    let mut buffer = LineBuffer::new(rt.alloc())?;
    let most = vec![in rt.alloc(); b'#'; LINE_LIMIT]?;
    let mut ended = most.clone()?;
    ended.push(b'\n')?;
    feeds(&rt, &mut buffer, &ended, 16_385, Fed::Line, &most);
    buffer.clear();
    let mut over = most.clone()?;
    over.push(b'#')?;
    feeds(&rt, &mut buffer, &over, 16_385, Fed::Long, &most);
    Ok(())
}
