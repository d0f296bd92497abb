// The calls with ample memory, over values worked out by hand.
use lpc_base::Birth;
use lpc_sections::Section;
use std::process::Abort;
use std::test::Fail;

const BIRTH: Birth = Birth {
    maker: 24,
    ordinal: 3,
    process: 20,
};

// A range of the bytes is this, or none where it passes the end.
fn reads(rt: &impl Abort, section: &Section, at: u32, len: u32, bytes: Option<&[u8]>) {
    assert!(rt; section.bytes(at, len) == bytes);
}

// A new section is zeros, and no row names it.
fn begins_empty(rt: &impl Abort, section: &Section) {
    assert!(rt; section.size() == 8192 && section.writable());
    assert!(rt; section.birth() == BIRTH);
    assert!(rt; section.handles() == 0 && section.pointers() == 0);
    reads(rt, section, 8190, 2, Some(&[0, 0]));
    reads(rt, section, 8191, 2, None);
}

// The two counts are told apart.
fn keeps_its_counts(rt: &impl Abort, section: &mut Section) {
    section.set_handles(2);
    section.set_pointers(5);
    assert!(rt; section.handles() == 2 && section.pointers() == 5);
}

// Bytes that are written stand in their place, and in no other.
fn keeps_its_bytes(rt: &impl Abort, section: &mut Section) {
    assert!(rt; section.size() == 8192);
    section.write(4095, &[1, 2, 3]);
    reads(rt, section, 4094, 5, Some(&[0, 1, 2, 3, 0]));
    section.copy_within(4095, 4096, 3);
    reads(rt, section, 4094, 6, Some(&[0, 1, 1, 2, 3, 0]));
    section.part_mut(4094, 1).copy_from_slice(&[9]);
    reads(rt, section, 4094, 2, Some(&[9, 1]));
    assert!(rt; section.is_within(4097, 2));
    assert!(rt; section.part(4097, 2) == [2, 3].as_slice());
    assert!(rt; section.is_within(0, 8192) && !section.is_within(1, 8192));
}

// A part is lent to be written exactly where it lies inside.
fn lends_a_part(rt: &impl Abort, section: &mut Section) {
    match section.bytes_mut(8189, 3) {
        Some(part) => {
            assert!(rt; part.len() == 3);
            part.copy_from_slice(&[7, 8, 9]);
        }
        None => assert!(rt; false),
    }
    assert!(rt; section.bytes_mut(8190, 3).is_none());
    reads(rt, section, 8188, 4, Some(&[0, 7, 8, 9]));
}

#[test]
fn section_keeps_what_is_written(rt: HostRuntime) -> Result<(), Fail> {
    let mut section = Section::new(rt.alloc(), 8192, true, BIRTH)?;
    begins_empty(&rt, &section);
    keeps_its_counts(&rt, &mut section);
    keeps_its_bytes(&rt, &mut section);
    lends_a_part(&rt, &mut section);
    Ok(())
}
