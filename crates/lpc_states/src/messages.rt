// A message, field by field, in JSON, put behind the text so far. Each call that puts something wants for memory only where
// there was no room for it behind the text; what stood before still begins the text then. The text's capacity never shrinks.
ghost use Rattle.std.specs.Prelude.{◌≡◌, ◌≤◌, ◌++◌, OnErr, vec_capacity, decimal, drop, slice_index_or};
ghost use Rattle.lpc_base.specs.declared.limits.TheConstants.{HEADER_SIZE};
ghost use Rattle.lpc_message.specs.Layout.{header_of};
ghost use Rattle.lpc_model.specs.Message.{message_of};
ghost use Rattle.lpc_transcript.specs.Printing.{BeginsWith, LacksRoom, Puts};
ghost use Rattle.lpc_states.specs.Values.{message_fields};

use crate::values::{put_decimal_under, put_hex_bytes};
use lpc_base::OutOfMemory;
use lpc_base::limits::HEADER_SIZE;
use lpc_message::{Header, read_header};
use lpc_transcript::{put, put_number};

// A key and a number of two bytes.
#[tactic(auto, using(std::proofs::Common::append_assoc, lpc_transcript::proofs::Begins::begins_before))]
fn put_half(into: &mut Vec<u8>, key: &[u8], number: u16) -> Result<(), OutOfMemory>
    ensures ok { Puts into.old.items into.new.items (key.now ++ decimal number) result }
    ensures err { OnErr result (BeginsWith into.new.items into.old.items) }
    ensures capacity { vec_capacity into.old ≤ vec_capacity into.new }
    ensures wanting { OnErr result (LacksRoom into.old (key.now ++ decimal number)) }
{
    put(into, key)?;
    put_number(into, u64::from(number))
}

// The byte at a place; 0 where there is none.
fn byte_in(bytes: &[u8], place: usize) -> u8
    ensures { result ≡ slice_index_or bytes.now place 0 }
{
    if place < bytes.len() { bytes[place] } else { 0 }
}

/// The header that bytes begin with; what is missing of it counts as 0.
pub fn header_in(bytes: &[u8]) -> Header
    ensures { result ≡ header_of bytes.now }
{
    let mut front = [0u8; 24];
    for place in 0..HEADER_SIZE {
        front[place] = byte_in(bytes, place);
    }
    read_header(&front)
}

// What stands behind the header.
fn body_in(bytes: &[u8]) -> &[u8]
    ensures { result.now ≡ drop HEADER_SIZE bytes.now }
{
    if bytes.len() < HEADER_SIZE {
        &[]
    } else {
        &bytes[HEADER_SIZE..]
    }
}

/// The fields of the message that bytes are, to stand between braces or behind other fields: those of its header, where
/// what is missing of one counts as 0, and its data.
pub fn put_message_fields(into: &mut Vec<u8>, bytes: &[u8]) -> Result<(), OutOfMemory>
    ensures ok { Puts into.old.items into.new.items (message_fields (message_of bytes.now)) result }
    ensures err { OnErr result (BeginsWith into.new.items into.old.items) }
    ensures capacity { vec_capacity into.old ≤ vec_capacity into.new }
    ensures wanting { OnErr result (LacksRoom into.old (message_fields (message_of bytes.now))) }
{
    let header = header_in(bytes);
    put_half(into, b"\"type\":", header.kind)?;
    put_decimal_under(into, b",\"process\":", header.client.process)?;
    put_decimal_under(into, b",\"thread\":", header.client.thread)?;
    put_decimal_under(into, b",\"identifier\":", header.message_id)?;
    put_half(into, b",\"data_size\":", header.data_size)?;
    put_half(into, b",\"message_size\":", header.message_size)?;
    put_half(into, b",\"ranges_offset\":", header.ranges_offset)?;
    put_decimal_under(into, b",\"section_size\":", header.section_size)?;
    put(into, b",\"data\":")?;
    put_hex_bytes(into, body_in(bytes))
}
