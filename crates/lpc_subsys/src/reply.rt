// The data of a reply.
ghost use Rattle.std.specs.Prelude.{◌≡◌, ◌≤◌, [], length, option_map, IfSome};
ghost use Rattle.std.specs.Option.{option_copied};
ghost use Rattle.lpc_subsys.specs.Replies.{granted, granted_or, number_bytes, refused};

use arrayvec::ArrayVec;
use byteorder::{ByteOrder, LittleEndian};
use lpc_base::Status;
use lpc_base::status::SUCCESS;

/// The data of a reply: a status, and behind success the results. As many bytes as a message carries.
pub(crate) type Reply = ArrayVec<u8, 232>;

// A number as four bytes, its low byte first.
#[tactic(auto, unfolding(crate::specs::Replies::number_bytes))]
pub(crate) fn number_bytes(number: u32) -> [u8; 4]
    ensures { result ≡ number_bytes number }
{
    let mut bytes = [0; 4];
    LittleEndian::write_u32(&mut bytes, number);
    bytes
}

// Writes a refusal.
#[tactic(auto, unfolding(crate::specs::Replies::number_bytes, crate::specs::Replies::refused))]
pub(crate) fn refuse(reply: &mut Reply, status: Status)
    requires { reply.old.items ≡ [] }
    ensures { reply.new.items ≡ refused status }
{
    reply
        .try_extend_from_slice(&number_bytes(status.0))
        .unwrap();
}

// Writes success and the results.
#[tactic(auto, unfolding(crate::specs::Replies::number_bytes, crate::specs::Replies::granted))]
pub(crate) fn grant(reply: &mut Reply, results: &[u8])
    requires empty { reply.old.items ≡ [] }
    requires fits { length results.now ≤ 228 }
    ensures { reply.new.items ≡ granted results.now }
{
    reply
        .try_extend_from_slice(&number_bytes(SUCCESS.0))
        .unwrap();
    reply.try_extend_from_slice(results).unwrap();
}

// Writes success and the results, or a refusal where there are none.
pub(crate) fn grant_or(reply: &mut Reply, status: Status, results: Option<&[u8]>)
    requires empty { reply.old.items ≡ [] }
    requires fits { IfSome results (λ results. length results.now ≤ 228) }
    ensures { reply.new.items ≡ granted_or status (option_copied results.entry) }
{
    match results {
        Some(results) => grant(reply, results),
        None => refuse(reply, status),
    }
}

// Writes success and a number, or a refusal where there is none.
pub(crate) fn grant_number(reply: &mut Reply, status: Status, number: Option<u32>)
    requires { reply.old.items ≡ [] }
    ensures { reply.new.items ≡ granted_or status (option_map number_bytes number) }
{
    match number {
        Some(number) => grant(reply, &number_bytes(number)),
        None => refuse(reply, status),
    }
}
