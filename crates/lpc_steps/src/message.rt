// A message that a call is given, and what it asks for.
ghost use Rattle.std.specs.Prelude.{[], ◌∷◌, ◌<◌, ◌≡◌, ◌≤◌, Err, IfOk, Ok, length};
ghost use Rattle.lpc_base.specs.declared.limits.TheConstants.{MESSAGE_LIMIT};
ghost use Rattle.lpc_message.specs.Laws.{FitsWidths};
ghost use Rattle.lpc_message.specs.Layout.{header_bytes};
ghost use Rattle.lpc_model.specs.Fields.{ctx, msg};
ghost use Rattle.lpc_model.specs.Message.{asks, bytes_of, is_connection_request, message_of, message_test};
ghost use Rattle.lpc_model.specs.declared.message.Message.{Message};
ghost use Rattle.lpc_rows.specs.Clauses.{Answers};

use arrayvec::ArrayVec;
use lpc_base::Status;
use lpc_base::limits::MESSAGE_LIMIT;
use lpc_base::status::{INVALID_PARAMETER, PORT_MESSAGE_TOO_LONG};
use lpc_message::{
    Header, MessageRef, kind, law_read_header_is_written_back, law_written_header_is_read_back,
    read_header, write_header,
};
use lpc_model::{FieldName, Fields, Message, Value};

/// The message that a call is given, where it lies: INVALID_PARAMETER where its shape isn't lawful,
/// PORT_MESSAGE_TOO_LONG where its MessageSize is above 256.
#[tactic(auto, unfolding(lpc_model::specs::Message::message_test))]
pub fn read_message<'a>(bytes: &'a [u8]) -> Result<MessageRef<'a>, Status>
    ensures message { Answers result (λ m. message_of m.now) (message_test bytes.now) }
    ensures bound { IfOk result (λ m. length m.now ≤ MESSAGE_LIMIT) }
{
    let message = match MessageRef::read(bytes) {
        Ok(message) => message,
        Err(_) => return Err(INVALID_PARAMETER),
    };
    if usize::from(message.header().message_size) > MESSAGE_LIMIT {
        return Err(PORT_MESSAGE_TOO_LONG);
    }
    Ok(message)
}

/// The bytes of a message with this header and these data, at most 232.
// This and the functions below that make fields are inlined, so that the bytes are written where they are to stand.
#[inline(always)]
pub fn written(header: Header, body: &[u8]) -> ArrayVec<u8, 256>
    requires { length body.now ≤ 232 }
    ensures message { message_of result.items ≡ record { header = header; body = body.now } }
    ensures long { 24 ≤ length result.items }
{
    law_written_header_is_read_back();
    let mut bytes = ArrayVec::new();
    bytes.try_extend_from_slice(&front_of(header)).unwrap();
    bytes.try_extend_from_slice(body).unwrap();
    bytes
}

/// The bytes of a header, whose fields have their widths.
#[inline(always)]
fn front_of(header: Header) -> [u8; 24]
    ensures bytes { result ≡ header_bytes header }
    ensures fits { FitsWidths header }
{
    let mut front = [0u8; 24];
    write_header(&mut front, &header);
    front
}

/// The message that bytes are has these bytes.
#[inline(always)]
fn bytes_again(bytes: &[u8])
    requires { 24 ≤ length bytes.now }
    ensures { bytes_of (message_of bytes.now) ≡ bytes.now }
{
    let _ = bytes;
    law_read_header_is_written_back();
}

/// A message that is given as its bytes, header and data, as a field.
#[inline(always)]
pub fn bytes_field(bytes: ArrayVec<u8, 256>) -> Fields
    requires { 24 ≤ length bytes.items }
    ensures { result ≡ msg (message_of bytes.items) ∷ [] }
{
    bytes_again(bytes.as_slice());
    let mut fields = Fields::none();
    fields.add(FieldName::Msg, Value::Bytes(bytes));
    fields
}

/// What a receive shows of a message that is given as its bytes: its context, and the message.
#[inline(always)]
pub fn bytes_receipt(context: u32, bytes: ArrayVec<u8, 256>) -> Fields
    requires { 24 ≤ length bytes.items }
    ensures { result ≡ ctx context ∷ msg (message_of bytes.items) ∷ [] }
{
    bytes_again(bytes.as_slice());
    let mut fields = Fields::none();
    fields.add(FieldName::Ctx, Value::Hex(context));
    fields.add(FieldName::Msg, Value::Bytes(bytes));
    fields
}

/// The message is a connection request.
pub(crate) fn asks_to_connect(bytes: &[u8]) -> bool
    requires { 24 ≤ length bytes.now }
    ensures { result ≡ is_connection_request (message_of bytes.now) }
{
    read_header(bytes).kind == kind::CONNECTION_REQUEST
}

/// The sender of the message waits until it is answered.
pub fn wants_answer(message: &Message) -> bool
    ensures { result ≡ asks message.now }
{
    is_asking(message.header.kind)
}

/// The same of a message that is given as its bytes.
pub fn asks_for_answer(bytes: &[u8]) -> bool
    requires { 24 ≤ length bytes.now }
    ensures { result ≡ asks (message_of bytes.now) }
{
    is_asking(read_header(bytes).kind)
}

/// The sender of a message of this type waits until it is answered.
fn is_asking(kind: u16) -> bool
    ensures { (m : Message) → m.header.kind ≡ kind → result ≡ asks m }
{
    matches!(
        kind,
        kind::REQUEST | kind::CONNECTION_REQUEST | kind::EXCEPTION | kind::DEBUG_EVENT
    )
}
