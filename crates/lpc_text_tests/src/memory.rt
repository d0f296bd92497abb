// The lines and the entries of calls on sections, views and memory, found by hand from the grammar
// and the text.
use crate::script::{have_fault, run_of};
use crate::transcript::printed;
use lpc_base::limits::MEMORY_LIMIT;
use lpc_base::{Status, status};
use lpc_model::{Call, CallName, Entries, Entry, Fields, LineFault, handle_field, view_fields};
use lpc_script::Scratch;
use lpc_transcript::print;
use std::alloc::Global;
use std::process::Abort;
use std::test::Fail;

// Too few words, and too many.
const OTHER_COUNTS: &[u8] = b"24 NtCreateSection 4096\n\
    24 NtCreateSection 4096 4 0\n\
    24 NtMapViewOfSection 4 0 0\n\
    24 NtMapViewOfSection 4 0 0 4 -\n\
    24 NtUnmapViewOfSection\n\
    24 NtUnmapViewOfSection 0x10000 0\n\
    24 NtReadVirtualMemory 0x10000\n\
    24 NtReadVirtualMemory 08 x 3\n\
    24 NtWriteVirtualMemory 0x10000\n\
    24 NtWriteVirtualMemory 0x10000 41 42";

// Words that are no numbers.
const NO_NUMBERS: &[u8] = b"24 NtCreateSection -1 4\n\
    24 NtCreateSection 4k 4\n\
    24 NtCreateSection 4096 rw\n\
    24 NtCreateSection 4294967296 4\n\
    24 NtMapViewOfSection self 0 0 4\n\
    24 NtMapViewOfSection 4 00 0 4\n\
    24 NtMapViewOfSection 4 0 - 4\n\
    24 NtMapViewOfSection 4 0 0 0x\n\
    24 NtUnmapViewOfSection 10000h\n\
    24 NtReadVirtualMemory 0x10000 03\n\
    24 NtReadVirtualMemory 0x100000000 3\n\
    24 NtWriteVirtualMemory 010000 4";

// Words that are no pairs of hexadecimal digits.
const NO_BYTES: &[u8] = b"24 NtWriteVirtualMemory 0x10000 4\n\
    24 NtWriteVirtualMemory 0x10000 4g\n\
    24 NtWriteVirtualMemory 0x10000 -\n\
    24 NtWriteVirtualMemory 0x10000 0x41\n\
    24 NtWriteVirtualMemory 0x10000 d:41";

#[test]
fn words_of_sections_and_memory_are_numbers_and_bytes(rt: HostRuntime) -> Result<(), Fail> {
    let mut scratch = Scratch::new(rt.alloc())?;
    have_fault(&rt, &mut scratch, OTHER_COUNTS, Some(LineFault::Count));
    have_fault(&rt, &mut scratch, NO_NUMBERS, Some(LineFault::Number));
    have_fault(&rt, &mut scratch, NO_BYTES, Some(LineFault::Hex));
    Ok(())
}

// It makes a section of this size and with this protection.
fn creates(rt: &impl Abort, run: (u32, Call<'_>), given: u32, allowed: u32) {
    let Call::CreateSection { size, protection } = run.1 else {
        return assert!(rt; false, "no section");
    };
    assert!(rt; size == given && protection == allowed);
}

// It maps a view with these four numbers.
fn maps(rt: &impl Abort, run: (u32, Call<'_>), numbers: [u32; 4]) {
    let Call::MapViewOfSection {
        handle,
        offset,
        size,
        protection,
    } = run.1
    else {
        return assert!(rt; false, "no view");
    };
    assert!(rt; [handle, offset, size, protection] == numbers);
}

// It takes away the view that holds this address.
fn unmaps(rt: &impl Abort, run: (u32, Call<'_>), given: u32) {
    let Call::UnmapViewOfSection { address } = run.1 else {
        return assert!(rt; false, "no end of a view");
    };
    assert!(rt; address == given);
}

// It reads so many bytes from this address on.
fn reads(rt: &impl Abort, run: (u32, Call<'_>), from: u32, count: u32) {
    let Call::ReadVirtualMemory { address, length } = run.1 else {
        return assert!(rt; false, "no read");
    };
    assert!(rt; address == from && length == count);
}

// It writes these bytes to this address.
fn writes(rt: &impl Abort, run: (u32, Call<'_>), to: u32, given: &[u8]) {
    let Call::WriteVirtualMemory { address, bytes } = run.1 else {
        return assert!(rt; false, "no write");
    };
    assert!(rt; address == to);
    assert!(rt; bytes == given);
}

#[test]
fn sections_and_memory_have_their_words_in_order(rt: HostRuntime) -> Result<(), Fail> {
    let mut scratch = Scratch::new(rt.alloc())?;
    let run = run_of(&rt, &mut scratch, b"24 NtCreateSection 0x400000 2");
    creates(&rt, run, 4194304, 2);
    let run = run_of(&rt, &mut scratch, b"24 NtMapViewOfSection 8 4096 0 0x4");
    maps(&rt, run, [8, 4096, 0, 4]);
    let run = run_of(&rt, &mut scratch, b"24 NtUnmapViewOfSection 0x1ffff");
    unmaps(&rt, run, 131071);
    let run = run_of(
        &rt,
        &mut scratch,
        b"24 NtReadVirtualMemory 65536 0xFFFFFFFF",
    );
    reads(&rt, run, 65536, 4294967295);
    let run = run_of(&rt, &mut scratch, b"24 NtWriteVirtualMemory 0x10000 00fFa1");
    writes(&rt, run, 65536, b"\x00\xff\xa1");
    Ok(())
}

// A line that writes so many bytes `a` to the address 0.
fn write_of(alloc: Global, count: usize) -> Result<Vec<u8>, Fail> {
    let mut line = b"24 NtWriteVirtualMemory 0 ".to_vec(alloc)?;
    for _ in 0..count {
        line.extend_from_slice(b"61")?;
    }
    Ok(line)
}

#[test]
fn a_line_has_room_for_twice_what_a_call_writes(rt: HostRuntime) -> Result<(), Fail> {
    let alloc = rt.alloc();
    let mut scratch = Scratch::new(alloc)?;
    let all = vec![in alloc; b'a'; 8179]?;
    let line = write_of(alloc, MEMORY_LIMIT)?;
    let run = run_of(&rt, &mut scratch, &line);
    writes(&rt, run, 0, &all[..4096]);
    let line = write_of(alloc, 8179)?;
    assert!(rt; line.len() == 16384);
    let run = run_of(&rt, &mut scratch, &line);
    writes(&rt, run, 0, &all);
    let line = write_of(alloc, 8180)?;
    have_fault(&rt, &mut scratch, &line, Some(LineFault::Long));
    Ok(())
}

// An answer without fields.
fn answered(
    rt: &impl Abort,
    alloc: Global,
    call: CallName,
    status: Status,
    text: &str,
) -> Result<(), Fail> {
    let entry = Entry::Answer {
        tid: 24,
        call,
        status,
        fields: Fields::none(),
    };
    printed(rt, alloc, 8, entry, text)
}

// A section that is made, and a view that is mapped.
fn prints_fields(rt: &impl Abort, alloc: Global) -> Result<(), Fail> {
    let made = Entry::Answer {
        tid: 24,
        call: CallName::NtCreateSection,
        status: status::SUCCESS,
        fields: handle_field(4),
    };
    printed(rt, alloc, 2, made, "2 24 NtCreateSection 00000000 h=4\n")?;
    let mapped = Entry::Answer {
        tid: 24,
        call: CallName::NtMapViewOfSection,
        status: status::SUCCESS,
        fields: view_fields(0x0001_0000, 4096),
    };
    let text = "3 24 NtMapViewOfSection 00000000 base=00010000 size=4096\n";
    printed(rt, alloc, 3, mapped, text)
}

#[test]
fn a_view_tells_its_base_and_its_size(rt: HostRuntime) -> Result<(), Fail> {
    let alloc = rt.alloc();
    prints_fields(&rt, alloc)?;
    let unmaps = CallName::NtUnmapViewOfSection;
    let text = "8 24 NtUnmapViewOfSection c0000019\n";
    answered(&rt, alloc, unmaps, status::NOT_MAPPED_VIEW, text)?;
    let writes = CallName::NtWriteVirtualMemory;
    let text = "8 24 NtWriteVirtualMemory c0000005\n";
    answered(&rt, alloc, writes, status::ACCESS_VIOLATION, text)
}

#[test]
fn a_read_tells_up_to_4096_bytes(rt: HostRuntime) -> Result<(), Fail> {
    let alloc = rt.alloc();
    let bytes = vec![in alloc; 0xa5; MEMORY_LIMIT]?;
    let mut entries = Entries::new(alloc)?;
    entries.reserve(1)?;
    entries.push_read(24, CallName::NtReadVirtualMemory, &bytes);
    let mut into = Vec::new(alloc);
    print(9, &entries, &mut into)?;
    let mut text = b"9 24 NtReadVirtualMemory 00000000 data=".to_vec(alloc)?;
    for _ in 0..4096 {
        text.extend_from_slice(b"a5")?;
    }
    text.push(b'\n')?;
    assert!(rt; into.as_slice() == text.as_slice());
    Ok(())
}
