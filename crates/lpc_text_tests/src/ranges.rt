// The lines and the entries of calls on the ranges of a request, found by hand from the grammar and
// the text.
use crate::script::{have_fault, run_of};
use crate::transcript::printed;
use lpc_base::status;
use lpc_model::{Call, CallName, Entries, Entry, Fields, LineFault};
use lpc_script::Scratch;
use lpc_transcript::print;
use std::process::Abort;
use std::test::Fail;

// Too few words, and too many.
const OTHER_COUNTS: &[u8] = b"24 NtReadRequestData 4 r:32.36.2: 0\n\
    24 NtReadRequestData 08 x - 1 2\n\
    24 NtWriteRequestData 4 r:32.36.2: 0\n\
    24 NtWriteRequestData 4 r:32.36.2: 0 41 42";

// Words that are no numbers: the handle comes before the message, the range's before the bytes.
const NO_NUMBERS: &[u8] = b"24 NtReadRequestData - x 0 1\n\
    24 NtReadRequestData 4 d: -1 1\n\
    24 NtReadRequestData 4 d: 0 01\n\
    24 NtReadRequestData 4 r:32.036.2: 0 1\n\
    24 NtWriteRequestData 04 x 0 4\n\
    24 NtWriteRequestData 4 d: 00 4";

// Words that are no messages.
const NO_MESSAGES: &[u8] = b"24 NtReadRequestData 4 - x 1\n\
    24 NtReadRequestData 4 x:41 0 1\n\
    24 NtWriteRequestData 4 4142 x 4\n\
    24 NtWriteRequestData 4 r:32.36:41 0 4";

// Words that are no pairs of hexadecimal digits: the message's before the range's number.
const NO_BYTES: &[u8] = b"24 NtReadRequestData 4 d:4 x 1\n\
    24 NtWriteRequestData 4 m:4 x 41\n\
    24 NtWriteRequestData 4 d: 0 4\n\
    24 NtWriteRequestData 4 d: 0 0x41\n\
    24 NtWriteRequestData 4 d: 0 d:41";

#[test]
fn words_of_ranges_have_their_faults_in_order(rt: HostRuntime) -> Result<(), Fail> {
    let mut scratch = Scratch::new(rt.alloc())?;
    have_fault(&rt, &mut scratch, OTHER_COUNTS, Some(LineFault::Count));
    have_fault(&rt, &mut scratch, NO_NUMBERS, Some(LineFault::Number));
    have_fault(&rt, &mut scratch, NO_MESSAGES, Some(LineFault::Message));
    have_fault(&rt, &mut scratch, NO_BYTES, Some(LineFault::Hex));
    Ok(())
}

// It reads this many bytes of a range.
fn reads(rt: &impl Abort, run: (u32, Call<'_>), given: &[u8], count: u32) {
    let Call::ReadRequestData {
        handle,
        message,
        index,
        length,
    } = run.1
    else {
        return assert!(rt; false, "no read");
    };
    assert!(rt; handle == 8 && index == 3 && length == count);
    assert!(rt; message == given);
}

// It writes these bytes to a range.
fn writes(rt: &impl Abort, run: (u32, Call<'_>), given: &[u8], new: &[u8]) {
    let Call::WriteRequestData {
        handle,
        message,
        index,
        bytes,
    } = run.1
    else {
        return assert!(rt; false, "no write");
    };
    assert!(rt; handle == 8 && index == 3);
    assert!(rt; message == given);
    assert!(rt; bytes == new);
}

#[test]
fn ranges_have_their_words_in_order(rt: HostRuntime) -> Result<(), Fail> {
    let mut scratch = Scratch::new(rt.alloc())?;
    let run = run_of(&rt, &mut scratch, b"24 NtReadRequestData 8 m:4142 3 0x1000");
    reads(&rt, run, b"AB", 4096);
    let run = run_of(
        &rt,
        &mut scratch,
        b"24 NtWriteRequestData 0x8 m:4142 3 00fFa1",
    );
    writes(&rt, run, b"AB", b"\x00\xff\xa1");
    let run = run_of(&rt, &mut scratch, b"24 NtWriteRequestData 8 m: 0x3 41");
    writes(&rt, run, b"", b"A");
    Ok(())
}

#[test]
fn a_message_and_bytes_share_a_line(rt: HostRuntime) -> Result<(), Fail> {
    let alloc = rt.alloc();
    let mut scratch = Scratch::new(alloc)?;
    let mut line = b"24 NtWriteRequestData 8 m:".to_vec(alloc)?;
    for _ in 0..4000 {
        line.extend_from_slice(b"61")?;
    }
    line.extend_from_slice(b" 3 ")?;
    for _ in 0..4177 {
        line.extend_from_slice(b"62")?;
    }
    assert!(rt; line.len() == 16383);
    let front = vec![in alloc; b'a'; 4000]?;
    let back = vec![in alloc; b'b'; 4177]?;
    let run = run_of(&rt, &mut scratch, &line);
    writes(&rt, run, &front, &back);
    Ok(())
}

#[test]
fn a_read_of_a_range_tells_its_bytes(rt: HostRuntime) -> Result<(), Fail> {
    let alloc = rt.alloc();
    let mut entries = Entries::new(alloc)?;
    entries.reserve(1)?;
    entries.push_read(24, CallName::NtReadRequestData, b"AB");
    let mut into = Vec::new(alloc);
    print(9, &entries, &mut into)?;
    let text = b"9 24 NtReadRequestData 00000000 data=4142\n".as_slice();
    assert!(rt; into.as_slice() == text);
    let refused = Entry::Answer {
        tid: 24,
        call: CallName::NtWriteRequestData,
        status: status::REPLY_MESSAGE_MISMATCH,
        fields: Fields::none(),
    };
    printed(&rt, alloc, 8, refused, "8 24 NtWriteRequestData c000021f\n")
}
