// The values that a row shows, in JSON, each put behind the text so far. Each wants for memory only where there was no room
// for it behind the text; what stood before still begins the text then. The text's capacity never shrinks.
ghost use Rattle.std.specs.Prelude.{◌≤◌, ◌++◌, OnErr, vec_capacity, decimal};
ghost use Rattle.lpc_transcript.specs.Printing.{BeginsWith, LacksRoom, Puts};
ghost use Rattle.lpc_states.specs.Values.{birth_text, bytes_text, flag, hex, object_text, or_null, port_kind_text, port_text, spelled, spelled_byte};

use lpc_base::{Birth, OutOfMemory, PortKind};
use lpc_model::ObjectKind;
use lpc_transcript::{kind_name, put, put_digits, put_number, put_read};

/// A truth value.
pub fn put_flag(into: &mut Vec<u8>, value: bool) -> Result<(), OutOfMemory>
    ensures ok { Puts into.old.items into.new.items (flag value) result }
    ensures err { OnErr result (BeginsWith into.new.items into.old.items) }
    ensures capacity { vec_capacity into.old ≤ vec_capacity into.new }
    ensures wanting { OnErr result (LacksRoom into.old (flag value)) }
{
    if value {
        put(into, b"true")
    } else {
        put(into, b"false")
    }
}

/// A key, and a truth value behind it.
#[tactic(auto, using(std::proofs::Common::append_assoc, lpc_transcript::proofs::Begins::begins_before))]
pub fn put_flag_under(into: &mut Vec<u8>, key: &[u8], value: bool) -> Result<(), OutOfMemory>
    ensures ok { Puts into.old.items into.new.items (key.now ++ flag value) result }
    ensures err { OnErr result (BeginsWith into.new.items into.old.items) }
    ensures capacity { vec_capacity into.old ≤ vec_capacity into.new }
    ensures wanting { OnErr result (LacksRoom into.old (key.now ++ flag value)) }
{
    put(into, key)?;
    put_flag(into, value)
}

/// A number as eight hexadecimal digits, in quotes.
#[tactic(auto, using(std::proofs::Common::append_assoc, lpc_transcript::proofs::Begins::begins_before))]
pub fn put_hex(into: &mut Vec<u8>, number: u32) -> Result<(), OutOfMemory>
    ensures ok { Puts into.old.items into.new.items (hex number) result }
    ensures err { OnErr result (BeginsWith into.new.items into.old.items) }
    ensures capacity { vec_capacity into.old ≤ vec_capacity into.new }
    ensures wanting { OnErr result (LacksRoom into.old (hex number)) }
{
    put(into, b"\"")?;
    put_digits(into, number)?;
    put(into, b"\"")
}

/// A key, and a number as eight hexadecimal digits behind it.
#[tactic(auto, using(std::proofs::Common::append_assoc, lpc_transcript::proofs::Begins::begins_before))]
pub fn put_hex_under(into: &mut Vec<u8>, key: &[u8], number: u32) -> Result<(), OutOfMemory>
    ensures ok { Puts into.old.items into.new.items (key.now ++ hex number) result }
    ensures err { OnErr result (BeginsWith into.new.items into.old.items) }
    ensures capacity { vec_capacity into.old ≤ vec_capacity into.new }
    ensures wanting { OnErr result (LacksRoom into.old (key.now ++ hex number)) }
{
    put(into, key)?;
    put_hex(into, number)
}

/// Bytes, each as two hexadecimal digits, in quotes.
#[tactic(auto, using(std::proofs::Common::append_assoc, lpc_transcript::proofs::Begins::begins_before))]
pub fn put_hex_bytes(into: &mut Vec<u8>, bytes: &[u8]) -> Result<(), OutOfMemory>
    ensures ok { Puts into.old.items into.new.items (bytes_text bytes.now) result }
    ensures err { OnErr result (BeginsWith into.new.items into.old.items) }
    ensures capacity { vec_capacity into.old ≤ vec_capacity into.new }
    ensures wanting { OnErr result (LacksRoom into.old (bytes_text bytes.now)) }
{
    put(into, b"\"")?;
    put_read(into, bytes)?;
    put(into, b"\"")
}

/// A number in decimal.
pub fn put_decimal(into: &mut Vec<u8>, number: u32) -> Result<(), OutOfMemory>
    ensures ok { Puts into.old.items into.new.items (decimal number) result }
    ensures err { OnErr result (BeginsWith into.new.items into.old.items) }
    ensures capacity { vec_capacity into.old ≤ vec_capacity into.new }
    ensures wanting { OnErr result (LacksRoom into.old (decimal number)) }
{
    put_number(into, u64::from(number))
}

/// A key, and a number in decimal behind it.
#[tactic(auto, using(std::proofs::Common::append_assoc, lpc_transcript::proofs::Begins::begins_before))]
pub fn put_decimal_under(into: &mut Vec<u8>, key: &[u8], number: u32) -> Result<(), OutOfMemory>
    ensures ok { Puts into.old.items into.new.items (key.now ++ decimal number) result }
    ensures err { OnErr result (BeginsWith into.new.items into.old.items) }
    ensures capacity { vec_capacity into.old ≤ vec_capacity into.new }
    ensures wanting { OnErr result (LacksRoom into.old (key.now ++ decimal number)) }
{
    put(into, key)?;
    put_decimal(into, number)
}

/// A number in decimal, or null.
pub fn put_number_or_null(into: &mut Vec<u8>, number: Option<u32>) -> Result<(), OutOfMemory>
    ensures ok { Puts into.old.items into.new.items (or_null decimal number) result }
    ensures err { OnErr result (BeginsWith into.new.items into.old.items) }
    ensures capacity { vec_capacity into.old ≤ vec_capacity into.new }
    ensures wanting { OnErr result (LacksRoom into.old (or_null decimal number)) }
{
    match number {
        Some(number) => put_decimal(into, number),
        None => put(into, b"null"),
    }
}

/// A key, and a number in decimal, or null, behind it.
#[tactic(auto, using(std::proofs::Common::append_assoc, lpc_transcript::proofs::Begins::begins_before))]
pub fn put_number_or_null_under(
    into: &mut Vec<u8>,
    key: &[u8],
    number: Option<u32>,
) -> Result<(), OutOfMemory>
    ensures ok { Puts into.old.items into.new.items (key.now ++ or_null decimal number) result }
    ensures err { OnErr result (BeginsWith into.new.items into.old.items) }
    ensures capacity { vec_capacity into.old ≤ vec_capacity into.new }
    ensures wanting { OnErr result (LacksRoom into.old (key.now ++ or_null decimal number)) }
{
    put(into, key)?;
    put_number_or_null(into, number)
}

/// A number as eight hexadecimal digits, or null.
pub fn put_hex_or_null(into: &mut Vec<u8>, number: Option<u32>) -> Result<(), OutOfMemory>
    ensures ok { Puts into.old.items into.new.items (or_null hex number) result }
    ensures err { OnErr result (BeginsWith into.new.items into.old.items) }
    ensures capacity { vec_capacity into.old ≤ vec_capacity into.new }
    ensures wanting { OnErr result (LacksRoom into.old (or_null hex number)) }
{
    match number {
        Some(number) => put_hex(into, number),
        None => put(into, b"null"),
    }
}

/// A key, and a number as eight hexadecimal digits, or null, behind it.
#[tactic(auto, using(std::proofs::Common::append_assoc, lpc_transcript::proofs::Begins::begins_before))]
pub fn put_hex_or_null_under(
    into: &mut Vec<u8>,
    key: &[u8],
    number: Option<u32>,
) -> Result<(), OutOfMemory>
    ensures ok { Puts into.old.items into.new.items (key.now ++ or_null hex number) result }
    ensures err { OnErr result (BeginsWith into.new.items into.old.items) }
    ensures capacity { vec_capacity into.old ≤ vec_capacity into.new }
    ensures wanting { OnErr result (LacksRoom into.old (key.now ++ or_null hex number)) }
{
    put(into, key)?;
    put_hex_or_null(into, number)
}

/// The thread that made an object, and which of that thread's objects it is.
#[tactic(auto, using(std::proofs::Common::append_assoc, lpc_transcript::proofs::Begins::begins_before))]
pub fn put_birth(into: &mut Vec<u8>, birth: Birth) -> Result<(), OutOfMemory>
    ensures ok { Puts into.old.items into.new.items (birth_text birth) result }
    ensures err { OnErr result (BeginsWith into.new.items into.old.items) }
    ensures capacity { vec_capacity into.old ≤ vec_capacity into.new }
    ensures wanting { OnErr result (LacksRoom into.old (birth_text birth)) }
{
    put_decimal(into, birth.maker)?;
    put(into, b".")?;
    put_decimal(into, birth.ordinal)
}

/// The name of an object: its kind and its birth.
#[tactic(auto, using(std::proofs::Common::append_assoc, lpc_transcript::proofs::Begins::begins_before))]
pub fn put_object(into: &mut Vec<u8>, kind: ObjectKind, birth: Birth) -> Result<(), OutOfMemory>
    ensures ok { Puts into.old.items into.new.items
        (object_text (record { kind = kind; birth = birth })) result }
    ensures err { OnErr result (BeginsWith into.new.items into.old.items) }
    ensures capacity { vec_capacity into.old ≤ vec_capacity into.new }
    ensures wanting { OnErr result (LacksRoom into.old
        (object_text (record { kind = kind; birth = birth }))) }
{
    put(into, b"\"")?;
    put(into, kind_name(kind))?;
    put(into, b" ")?;
    put_birth(into, birth)?;
    put(into, b"\"")
}

/// The name of a port, or null.
pub fn put_port_or_null(into: &mut Vec<u8>, port: Option<Birth>) -> Result<(), OutOfMemory>
    ensures ok { Puts into.old.items into.new.items (or_null port_text port) result }
    ensures err { OnErr result (BeginsWith into.new.items into.old.items) }
    ensures capacity { vec_capacity into.old ≤ vec_capacity into.new }
    ensures wanting { OnErr result (LacksRoom into.old (or_null port_text port)) }
{
    match port {
        Some(port) => put_object(into, ObjectKind::Port, port),
        None => put(into, b"null"),
    }
}

/// A key, and the name of a port, or null, behind it.
#[tactic(auto, using(std::proofs::Common::append_assoc, lpc_transcript::proofs::Begins::begins_before))]
pub fn put_port_or_null_under(
    into: &mut Vec<u8>,
    key: &[u8],
    port: Option<Birth>,
) -> Result<(), OutOfMemory>
    ensures ok { Puts into.old.items into.new.items (key.now ++ or_null port_text port) result }
    ensures err { OnErr result (BeginsWith into.new.items into.old.items) }
    ensures capacity { vec_capacity into.old ≤ vec_capacity into.new }
    ensures wanting { OnErr result (LacksRoom into.old (key.now ++ or_null port_text port)) }
{
    put(into, key)?;
    put_port_or_null(into, port)
}

/// The kind of a port.
pub fn put_port_kind(into: &mut Vec<u8>, kind: PortKind) -> Result<(), OutOfMemory>
    ensures ok { Puts into.old.items into.new.items (port_kind_text kind) result }
    ensures err { OnErr result (BeginsWith into.new.items into.old.items) }
    ensures capacity { vec_capacity into.old ≤ vec_capacity into.new }
    ensures wanting { OnErr result (LacksRoom into.old (port_kind_text kind)) }
{
    match kind {
        PortKind::Unnamed => put(into, b"\"unnamed\""),
        PortKind::Connection => put(into, b"\"connection\""),
        PortKind::Client => put(into, b"\"client\""),
        PortKind::Server => put(into, b"\"server\""),
    }
}

// A byte of a name.
#[tactic(auto, using(std::proofs::Common::append_assoc, lpc_transcript::proofs::Begins::begins_before))]
fn put_name_byte(into: &mut Vec<u8>, byte: u8) -> Result<(), OutOfMemory>
    ensures ok { Puts into.old.items into.new.items (spelled_byte byte) result }
    ensures err { OnErr result (BeginsWith into.new.items into.old.items) }
    ensures capacity { vec_capacity into.old ≤ vec_capacity into.new }
    ensures wanting { OnErr result (LacksRoom into.old (spelled_byte byte)) }
{
    if byte == b'"' || byte == b'\\' {
        put(into, &[b'\\', byte])
    } else if byte > 31 && byte < 127 && byte != b',' {
        put(into, &[byte])
    } else {
        put(into, b"\\u00")?;
        put_read(into, &[byte])
    }
}

/// The bytes of a name, without quotes around them: a quote and a backslash with a backslash in front, a comma and what
/// isn't printed by its number.
#[tactic(auto, using(std::proofs::Common::append_assoc, lpc_transcript::proofs::Begins::begins_before))]
pub fn put_name(into: &mut Vec<u8>, bytes: &[u8]) -> Result<(), OutOfMemory>
    ensures ok { Puts into.old.items into.new.items (spelled bytes.now) result }
    ensures err { OnErr result (BeginsWith into.new.items into.old.items) }
    ensures capacity { vec_capacity into.old ≤ vec_capacity into.new }
    ensures wanting { OnErr result (LacksRoom into.old (spelled bytes.now)) }
{
    for byte in bytes {
        put_name_byte(into, *byte)?;
    }
    Ok(())
}
