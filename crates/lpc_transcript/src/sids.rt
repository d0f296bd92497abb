// The text of SIDs. Each call wants for memory only where there was no room for its text behind the text so far; what
// stood before still begins the text then. The text's capacity never shrinks.
ghost use Rattle.std.specs.Prelude.{◌≤◌, OnErr, vec_capacity};
ghost use Rattle.std.specs.List.{flat_map};
ghost use Rattle.lpc_model.specs.Text.{sids_text};
ghost use Rattle.lpc_sid.specs.Spelling.{spelling};
ghost use Rattle.lpc_transcript.specs.Printing.{BeginsWith, LacksRoom, Puts, further_text};

use crate::words::put;
use arrayvec::ArrayString;
use lpc_base::OutOfMemory;
use lpc_sid::Sid;

/// The spelling of a SID.
///
/// OutOfMemory comes only where there was no room for it; the text begins as it was then.
pub fn put_sid(into: &mut Vec<u8>, sid: &Sid) -> Result<(), OutOfMemory>
    ensures ok { Puts into.old.items into.new.items (spelling sid.now) result }
    ensures err { OnErr result (BeginsWith into.new.items into.old.items) }
    ensures capacity { vec_capacity into.old ≤ vec_capacity into.new }
    ensures wanting { OnErr result (LacksRoom into.old (spelling sid.now)) }
{
    let mut text = ArrayString::new();
    sid.write(&mut text);
    put(into, text.as_bytes())
}

#[tactic(auto, using(std::proofs::Common::append_assoc, crate::proofs::Begins::begins_before))]
fn put_further_sid(into: &mut Vec<u8>, sid: &Sid) -> Result<(), OutOfMemory>
    ensures ok { Puts into.old.items into.new.items (further_text sid.now) result }
    ensures err { OnErr result (BeginsWith into.new.items into.old.items) }
    ensures capacity { vec_capacity into.old ≤ vec_capacity into.new }
    ensures wanting { OnErr result (LacksRoom into.old (further_text sid.now)) }
{
    put(into, b",")?;
    put_sid(into, sid)
}

#[tactic(auto, using(std::proofs::Common::append_assoc, crate::proofs::Begins::begins_before))]
fn put_further_sids(into: &mut Vec<u8>, sids: &[Sid]) -> Result<(), OutOfMemory>
    ensures ok { Puts into.old.items into.new.items (flat_map further_text sids.now) result }
    ensures err { OnErr result (BeginsWith into.new.items into.old.items) }
    ensures capacity { vec_capacity into.old ≤ vec_capacity into.new }
    ensures wanting { OnErr result (LacksRoom into.old (flat_map further_text sids.now)) }
{
    for sid in sids {
        put_further_sid(into, sid)?;
    }
    Ok(())
}

/// SIDs, parted by commas.
#[tactic(auto, using(std::proofs::Common::append_assoc, crate::proofs::Begins::begins_before))]
pub(crate) fn put_sids(into: &mut Vec<u8>, sids: &[Sid]) -> Result<(), OutOfMemory>
    ensures ok { Puts into.old.items into.new.items (sids_text sids.now) result }
    ensures err { OnErr result (BeginsWith into.new.items into.old.items) }
    ensures capacity { vec_capacity into.old ≤ vec_capacity into.new }
    ensures wanting { OnErr result (LacksRoom into.old (sids_text sids.now)) }
{
    match sids {
        [] => Ok(()),
        [first, others @ ..] => {
            put_sid(into, first)?;
            put_further_sids(into, others)
        }
    }
}
