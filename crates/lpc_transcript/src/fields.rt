// The fields of an entry, gathered.
ghost use Rattle.std.specs.Prelude.{◌≡◌, ◌+◌, ◌<◌, ◌≤◌, ◌++◌, IfOk, OnErr, vec_capacity};
ghost use Rattle.lpc_model.specs.Slots.{value_lent};
ghost use Rattle.lpc_transcript.specs.Printing.{BeginsWith, Overfills, aside_of, field_of, fields_of, gathered, value_of};

use crate::gather::{gather_read, gather_sids, make_room};
use crate::spell::{ROOM, write_digits, write_number, write_row, write_text};
use crate::words::{field_front, kind_name};
use lpc_base::OutOfMemory;
use lpc_model::{FieldName, Fields, Lent};
use lpc_sid::Sid;

/// The most bytes of a field with a number or the kind of an object, and one more, with which a line ends.
const FIELD_LIMIT: usize = 31;

#[tactic(auto, using(std::proofs::Common::append_assoc, crate::proofs::Short::kind_short))]
#[inline(always)]
fn gather_value(
    into: &mut Vec<u8>,
    buffer: &mut [u8; ROOM],
    at: usize,
    value: Lent<'_>,
    read: &[u8],
    groups: &[Sid],
) -> Result<usize, OutOfMemory>
    requires { at + 20 < ROOM }
    ensures ok { IfOk result (λ end. gathered into.new buffer.new end
        ≡ gathered into.old buffer.old at
        ++ value_of (aside_of read.now groups.now) (value_lent value.entry)) }
    ensures room { IfOk result (λ end. end < ROOM) }
    ensures front { BeginsWith into.new.items into.old.items }
    ensures capacity { vec_capacity into.old ≤ vec_capacity into.new }
    ensures wanting { OnErr result (Overfills into.old buffer.old at
        (value_of (aside_of read.now groups.now) (value_lent value.entry))) }
{
    match value {
        Lent::Number(number) => Ok(write_number(buffer, at, number)),
        Lent::Hex(number) => Ok(write_digits(buffer, at, number)),
        Lent::Kind(kind) => Ok(write_text(buffer, at, kind_name(kind))),
        Lent::Bytes(bytes) => gather_read(into, buffer, at, bytes),
        Lent::Read => gather_read(into, buffer, at, read),
        Lent::Sids(sids) => gather_sids(into, buffer, at, sids),
        Lent::TokenGroups => gather_sids(into, buffer, at, groups),
    }
}

#[tactic(auto, using(std::proofs::Common::append_assoc, crate::proofs::Begins::begins_after, crate::proofs::Short::front_short))]
#[inline(always)]
fn gather_field(
    into: &mut Vec<u8>,
    buffer: &mut [u8; ROOM],
    at: usize,
    name: FieldName,
    value: Lent<'_>,
    read: &[u8],
    groups: &[Sid],
) -> Result<usize, OutOfMemory>
    requires { at ≤ ROOM }
    ensures ok { IfOk result (λ end. gathered into.new buffer.new end
        ≡ gathered into.old buffer.old at
        ++ field_of (aside_of read.now groups.now) name (value_lent value.entry)) }
    ensures room { IfOk result (λ end. end < ROOM) }
    ensures front { BeginsWith into.new.items into.old.items }
    ensures capacity { vec_capacity into.old ≤ vec_capacity into.new }
    ensures wanting { OnErr result (Overfills into.old buffer.old at
        (field_of (aside_of read.now groups.now) name (value_lent value.entry))) }
{
    let start = make_room(into, buffer, at, FIELD_LIMIT)?;
    let (row, count) = field_front(name);
    let front = write_row(buffer, start, row, count);
    gather_value(into, buffer, front, value, read, groups)
}

/// The fields, with these bytes where a memory read stands, and these groups where those of a token do. One more byte
/// has room behind them.
///
/// OutOfMemory comes only where there was no room for them behind what was gathered; the text begins as it was then.
#[tactic(auto, using(std::proofs::Common::append_assoc, crate::proofs::Begins::begins_after, crate::proofs::Begins::begins_itself))]
pub(crate) fn gather_fields(
    into: &mut Vec<u8>,
    buffer: &mut [u8; ROOM],
    at: usize,
    fields: &Fields,
    read: &[u8],
    groups: &[Sid],
) -> Result<usize, OutOfMemory>
    requires { at < ROOM }
    ensures ok { IfOk result (λ end. gathered into.new buffer.new end
        ≡ gathered into.old buffer.old at
        ++ fields_of (aside_of read.now groups.now) fields.now) }
    ensures room { IfOk result (λ end. end < ROOM) }
    ensures front { BeginsWith into.new.items into.old.items }
    ensures capacity { vec_capacity into.old ≤ vec_capacity into.new }
    ensures wanting { OnErr result (Overfills into.old buffer.old at
        (fields_of (aside_of read.now groups.now) fields.now)) }
{
    let mut end = at;
    for index in 0..fields.count() {
        let name = fields.name(index).unwrap();
        let value = fields.value(index).unwrap();
        end = gather_field(into, buffer, end, name, value, read, groups)?;
    }
    Ok(end)
}
