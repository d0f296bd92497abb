// Messages that name an object by its birth.
ghost use Rattle.std.specs.Prelude.{◌≡◌, ◌++◌};
ghost use Rattle.byteorder.specs.Endian.{little_bytes};
ghost use Rattle.lpc_model.specs.Close.{birth_bytes};
ghost use Rattle.lpc_model.specs.Message.{made};

use byteorder::{ByteOrder, LittleEndian};
use lpc_base::Birth;
use lpc_base::limits::HEADER_SIZE;
use lpc_message::{ClientId, Header};
use lpc_model::{Body, Message};

/// The maker and the ordinal of a birth, 4 bytes each.
fn birth_data(birth: Birth) -> [u8; 8]
    ensures { result ≡ birth_bytes birth }
{
    let mut data = [0u8; 8];
    LittleEndian::write_u32(&mut data, birth.maker);
    LittleEndian::write_u32(&mut data[4..], birth.ordinal);
    data
}

/// A message of a type, in the name of a client and with an identifier, whose data name an object by its birth.
pub fn birth_message(kind: u16, client: ClientId, message_id: u32, birth: Birth) -> Message
    ensures { result ≡ made kind client message_id (birth_bytes birth) }
{
    let data = birth_data(birth);
    Message {
        header: Header {
            data_size: data.len() as u16,
            message_size: (HEADER_SIZE + data.len()) as u16,
            kind,
            ranges_offset: 0,
            client,
            message_id,
            section_size: 0,
        },
        body: Body::from_slice(&data),
    }
}
