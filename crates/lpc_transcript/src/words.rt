// The words of a text, each put behind the text so far. Each wants for memory only where there was no room for it
// behind the text; what stood before still begins the text then. The text's capacity never shrinks. Numbers and digits
// are inlined, since a call of one costs as much as the few bytes that it puts.
ghost use Rattle.std.specs.Prelude.{◌≡◌, ◌≤◌, decimal, length, take, OnErr, vec_capacity};
ghost use Rattle.hex.specs.Hex.{encode_lower};
ghost use Rattle.lpc_model.specs.Text.{eight_digits, kind_text};
ghost use Rattle.lpc_transcript.specs.Printing.{BeginsWith, LacksRoom, Puts, front_of};

use lpc_base::OutOfMemory;
use lpc_model::{FieldName, ObjectKind};

/// Appends bytes as they stand.
///
/// OutOfMemory comes only where there was no room for them; the text begins as it was then.
pub fn put(into: &mut Vec<u8>, bytes: &[u8]) -> Result<(), OutOfMemory>
    ensures ok { Puts into.old.items into.new.items bytes.now result }
    ensures err { OnErr result (BeginsWith into.new.items into.old.items) }
    ensures capacity { vec_capacity into.old ≤ vec_capacity into.new }
    ensures wanting { OnErr result (LacksRoom into.old bytes.now) }
{
    if into.extend_from_slice(bytes).is_err() {
        return Err(OutOfMemory);
    }
    Ok(())
}

/// Appends a number in decimal.
///
/// OutOfMemory comes only where there was no room for it; the text begins as it was then.
#[inline(always)]
pub fn put_number(into: &mut Vec<u8>, number: u64) -> Result<(), OutOfMemory>
    ensures ok { Puts into.old.items into.new.items (decimal number) result }
    ensures err { OnErr result (BeginsWith into.new.items into.old.items) }
    ensures capacity { vec_capacity into.old ≤ vec_capacity into.new }
    ensures wanting { OnErr result (LacksRoom into.old (decimal number)) }
{
    put(into, itoa::Buffer::new().format(number).as_bytes())
}

/// Appends a number of up to 128 bits in decimal.
///
/// OutOfMemory comes only where there was no room for it; the text begins as it was then.
pub fn put_long_number(into: &mut Vec<u8>, number: u128) -> Result<(), OutOfMemory>
    ensures ok { Puts into.old.items into.new.items (decimal number) result }
    ensures err { OnErr result (BeginsWith into.new.items into.old.items) }
    ensures capacity { vec_capacity into.old ≤ vec_capacity into.new }
    ensures wanting { OnErr result (LacksRoom into.old (decimal number)) }
{
    put(into, itoa::Buffer::new().format(number).as_bytes())
}

/// Appends a number as eight hexadecimal digits.
///
/// OutOfMemory comes only where there was no room for it; the text begins as it was then.
#[inline(always)]
pub fn put_digits(into: &mut Vec<u8>, number: u32) -> Result<(), OutOfMemory>
    ensures ok { Puts into.old.items into.new.items (eight_digits number) result }
    ensures err { OnErr result (BeginsWith into.new.items into.old.items) }
    ensures capacity { vec_capacity into.old ≤ vec_capacity into.new }
    ensures wanting { OnErr result (LacksRoom into.old (eight_digits number)) }
{
    let mut digits = [0u8; 8];
    hex::encode_to_slice(number.to_be_bytes().as_slice(), &mut digits).unwrap();
    put(into, &digits)
}

/// Bytes as pairs of hexadecimal digits, written where they are to stand: there may be too many for a buffer on the
/// stack.
///
/// OutOfMemory comes only where there was no room for them; the text begins as it was then.
#[inline(always)]
pub fn put_read(into: &mut Vec<u8>, bytes: &[u8]) -> Result<(), OutOfMemory>
    ensures ok { Puts into.old.items into.new.items (encode_lower bytes.now) result }
    ensures err { OnErr result (BeginsWith into.new.items into.old.items) }
    ensures capacity { vec_capacity into.old ≤ vec_capacity into.new }
    ensures wanting { OnErr result (LacksRoom into.old (encode_lower bytes.now)) }
{
    let digits = 2 * bytes.len();
    if into.reserve(digits).is_err() {
        return Err(OutOfMemory);
    }
    let before = into.len();
    into.resize(before + digits, 0).unwrap();
    hex::encode_to_slice(bytes, &mut into[before..]).unwrap();
    Ok(())
}

/// The word for a kind of object.
pub fn kind_name(kind: ObjectKind) -> &'static [u8]
    ensures { result.now ≡ kind_text kind }
{
    match kind {
        ObjectKind::Port => b"port",
        ObjectKind::Section => b"section",
        ObjectKind::Token => b"token",
        ObjectKind::Process => b"process",
        ObjectKind::Thread => b"thread",
    }
}

/// What a field begins with: a space, its name as transcripts spell it, and an equals sign. Spaces behind it make it a
/// row of sixteen bytes, which is copied at once. Answers the row, and how many bytes count.
pub(crate) fn field_front(name: FieldName) -> (&'static [u8; 16], usize)
    ensures front { take result.1 result.0.now ≡ front_of name }
    ensures count { result.1 ≡ length (front_of name) }
{
    match name {
        FieldName::H => (b" h=             ", 3),
        FieldName::FirstThread => (b" thread=        ", 8),
        FieldName::Id => (b" id=            ", 4),
        FieldName::Ctx => (b" ctx=           ", 5),
        FieldName::Msg => (b" msg=           ", 5),
        FieldName::Data => (b" data=          ", 6),
        FieldName::Max => (b" max=           ", 5),
        FieldName::Info => (b" info=          ", 6),
        FieldName::ObjectType => (b" type=          ", 6),
        FieldName::Access => (b" access=        ", 8),
        FieldName::Handles => (b" handles=       ", 9),
        FieldName::Pointers => (b" pointers=      ", 10),
        FieldName::Base => (b" base=          ", 6),
        FieldName::Size => (b" size=          ", 6),
        FieldName::Target => (b" target=        ", 8),
        FieldName::ViewBase => (b" vbase=         ", 7),
        FieldName::ViewSize => (b" vsize=         ", 7),
        FieldName::User => (b" user=          ", 6),
        FieldName::Groups => (b" groups=        ", 8),
        FieldName::Level => (b" level=         ", 7),
    }
}
