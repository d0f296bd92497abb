// What the fields of an entry tell a server: a handle, a message, and where it sees what a client offers. A mark for the bytes
// of a memory read stands for those bytes.
ghost use Rattle.std.specs.Prelude.{ℕ, List, ◌≡◌, is_some, map};
ghost use Rattle.lpc_base.specs.Rows.{first};
ghost use Rattle.lpc_sid.specs.declared.sid.Sid.{Sid};
ghost use Rattle.lpc_model.specs.Residents as spec;
ghost use Rattle.lpc_model.specs.Residents.{received, told_first, view_told};
ghost use Rattle.lpc_model.specs.Slots.{field_lent};
ghost use Rattle.lpc_residents.specs.Shown.{fields_with, is_message};

use lpc_model::{Asked, ClientView, FieldName, Fields, Lent};

// A number of 32 bits.
fn word_of(number: u64) -> Option<u32>
    ensures { result ≡ spec.word_of number }
{
    if number >= 0x1_0000_0000 {
        return None;
    }
    Some(number as u32)
}

// The handle that a field tells, the base of a view that was offered, and its size.
fn handle_in(name: FieldName, value: Lent<'_>) -> Option<u32>
    ensures { result ≡ spec.handle_told (field_lent name value.entry) }
{
    match (name, value) {
        (FieldName::H, Lent::Number(number)) => word_of(number),
        _ => None,
    }
}

fn base_in(name: FieldName, value: Lent<'_>) -> Option<u32>
    ensures { result ≡ spec.base_told (field_lent name value.entry) }
{
    match (name, value) {
        (FieldName::ViewBase, Lent::Hex(number)) => Some(number),
        _ => None,
    }
}

fn size_in(name: FieldName, value: Lent<'_>) -> Option<u32>
    ensures { result ≡ spec.size_told (field_lent name value.entry) }
{
    match (name, value) {
        (FieldName::ViewSize, Lent::Number(number)) => word_of(number),
        _ => None,
    }
}

/// The handle that fields tell, none where they tell none.
pub(crate) fn handle_told(fields: &Fields) -> Option<u32>
    ensures { result ≡ told_first spec.handle_told fields.now }
{
    for at in 0..fields.count() {
        let name = fields.name(at).unwrap();
        let value = fields.value(at).unwrap();
        let told = handle_in(name, value);
        if told.is_some() {
            return told;
        }
    }
    None
}

fn base_told(fields: &Fields) -> Option<u32>
    ensures { result ≡ told_first spec.base_told fields.now }
{
    for at in 0..fields.count() {
        let name = fields.name(at).unwrap();
        let value = fields.value(at).unwrap();
        let told = base_in(name, value);
        if told.is_some() {
            return told;
        }
    }
    None
}

fn size_told(fields: &Fields) -> Option<u32>
    ensures { result ≡ told_first spec.size_told fields.now }
{
    for at in 0..fields.count() {
        let name = fields.name(at).unwrap();
        let value = fields.value(at).unwrap();
        let told = size_in(name, value);
        if told.is_some() {
            return told;
        }
    }
    None
}

/// Where a server sees what a client offers, none where fields tell of nothing.
pub(crate) fn view(fields: &Fields) -> Option<ClientView>
    ensures { result ≡ view_told fields.now }
{
    let base = base_told(fields)?;
    let size = size_told(fields)?;
    Some(ClientView { base, size })
}

// A field shows a message.
fn is_message(name: FieldName, value: Lent<'_>) -> bool
    ensures { result ≡ is_message (field_lent name value.entry) }
{
    match (name, value) {
        (FieldName::Msg, Lent::Bytes(_)) => true,
        (FieldName::Msg, Lent::Read) => true,
        _ => false,
    }
}

/// The lawful message that fields tell, none where they tell none. A mark stands for these bytes, or for whatever groups.
pub(crate) fn message(fields: &Fields, read: &[u8]) -> Option<Asked>
    ensures { (groups : List Sid) → result ≡ received (fields_with read.now groups fields.now) }
{
    for at in 0..fields.count() {
        let name = fields.name(at).unwrap();
        let value = fields.value(at).unwrap();
        if is_message(name, value) {
            return match value {
                Lent::Bytes(bytes) => Asked::read(bytes),
                Lent::Read => Asked::read(read),
                _ => None,
            };
        }
    }
    None
}
