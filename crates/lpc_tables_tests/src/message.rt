// The layout against values written out by hand.
use lpc_message::{ClientId, Header, MessageRef, Range, Shape, kind, write_header};
use std::process::Abort;

// A header of fields that differ in each byte, for 20 bytes of data with two ranges at their start.
const HEADER: Header = Header {
    data_size: 20,
    message_size: 0x0130,
    kind: kind::REQUEST,
    ranges_offset: 24,
    client: ClientId {
        process: 0x0403_0201,
        thread: 0x0807_0605,
    },
    message_id: 0x0C0B_0A09,
    section_size: 0x100F_0E0D,
};

const BYTES: [u8; 44] = [
    20, 0, 0x30, 0x01, 1, 0, 24, 0, 1, 2, 3, 4, 5, 6, 7, 8, 9, 10, 11, 12, 13, 14, 15, 16, 2, 0, 0,
    0, 0x78, 0x56, 0x34, 0x12, 0x10, 0, 0, 0, 0, 0, 0x40, 0, 0xFF, 0x01, 0, 0,
];

#[test]
fn header_is_written_low_bytes_first(rt: HostRuntime) {
    let mut bytes = [0xEE; 24];
    write_header(&mut bytes, &HEADER);
    assert!(rt; bytes.as_slice() == &BYTES[..24]);
}

// The parts that a message always has.
fn shows_header_and_data(rt: &impl Abort, message: &MessageRef<'_>) {
    assert!(rt; message.bytes() == &BYTES[..]);
    assert!(rt; message.header() == HEADER);
    assert!(rt; message.body() == &BYTES[24..]);
}

// The ranges of its table.
fn shows_ranges(rt: &impl Abort, message: &MessageRef<'_>) {
    let first = Range {
        base: 0x1234_5678,
        size: 16,
    };
    let second = Range {
        base: 0x0040_0000,
        size: 0x01FF,
    };
    assert!(rt; message.range_count() == 2);
    assert!(rt; message.range(0) == Some(first));
    assert!(rt; message.range(1) == Some(second));
    assert!(rt; message.range(2) == None);
}

#[test]
fn each_part_of_a_message_is_read(rt: HostRuntime) {
    let Ok(message) = MessageRef::read(&BYTES) else {
        assert!(rt; false, "these bytes are a message");
        return;
    };
    shows_header_and_data(&rt, &message);
    shows_ranges(&rt, &message);
}

// What `read` answers to zeros with these sizes and this offset, and the count written where the offset says.
fn answer(
    data_size: u16,
    message_size: u16,
    ranges_offset: u16,
    count: Option<u32>,
    length: usize,
) -> Result<u32, Shape> {
    let client = ClientId {
        process: 20,
        thread: 24,
    };
    let header = Header {
        data_size,
        message_size,
        kind: kind::NEW_MESSAGE,
        ranges_offset,
        client,
        message_id: 0,
        section_size: 0,
    };
    let mut front = [0; 24];
    write_header(&mut front, &header);
    let mut bytes = [0; 256];
    bytes[..24].copy_from_slice(&front);
    let place = ranges_offset as usize;
    if let (Some(count), Some(at)) = (count, bytes.get_mut(place..place + 4)) {
        at.copy_from_slice(&count.to_le_bytes());
    }
    let message = MessageRef::read(&bytes[..length.min(256)])?;
    Ok(message.range_count())
}

#[test]
fn range_table_is_read_where_it_is_inside_the_data(rt: HostRuntime) {
    let rows = [
        (4, 24, Some(0), Ok(0)),
        (3, 24, None, Err(Shape::Ranges)),
        (12, 24, Some(1), Ok(1)),
        (11, 24, Some(1), Err(Shape::Ranges)),
        (14, 26, Some(1), Ok(1)),
        (12, 25, Some(1), Err(Shape::Ranges)),
        (232, 24, Some(28), Ok(28)),
        (232, 24, Some(29), Err(Shape::Ranges)),
        (232, 24, Some(4_294_967_295), Err(Shape::Ranges)),
        (232, 23, None, Err(Shape::Ranges)),
        (232, 65535, None, Err(Shape::Ranges)),
    ];
    for (data_size, offset, count, want) in rows {
        let size = 24u16.saturating_add(data_size);
        let got = answer(data_size, size, offset, count, size as usize);
        assert!(rt; got == want, "{data_size} bytes, table at {offset}");
    }
}

#[test]
fn first_fault_is_answered(rt: HostRuntime) {
    let rows = [
        // Too few bytes, which also have wrong sizes.
        (0, 0, 0, 0, Err(Shape::Short)),
        (0, 0, 0, 23, Err(Shape::Short)),
        (0, 24, 0, 24, Ok(0)),
        // MessageSize below header and data, and above.
        (8, 31, 0, 32, Err(Shape::Sizes)),
        (8, 33, 0, 32, Ok(0)),
        // A byte of data less and more than DataSize.
        (9, 33, 0, 32, Err(Shape::Sizes)),
        (7, 33, 0, 32, Err(Shape::Sizes)),
        // Both sizes and the table are wrong.
        (65535, 65535, 1, 32, Err(Shape::Sizes)),
        (8, 32, 1, 32, Err(Shape::Ranges)),
    ];
    for (data_size, message_size, offset, length, want) in rows {
        let got = answer(data_size, message_size, offset, None, length);
        assert!(rt;
            got == want,
            "{length} bytes, sizes {data_size} and {message_size}, table at {offset}"
        );
    }
}
