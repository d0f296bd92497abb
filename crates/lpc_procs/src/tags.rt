// The tags of names of ports, and counts of them.
ghost use Rattle.std.specs.Prelude.{◌≡◌, [], option_to_list, true};
ghost use Rattle.lpc_procs.specs.Tags as tags;
ghost use Rattle.lpc_procs.specs.Tags.{Retags};

use crate::Registration;
use lpc_base::Birth;
use lpc_numbers::Tally;

/// The tag of a name. Names of other makers may have it too.
pub fn tag_of(birth: Birth) -> u32
    ensures { result ≡ tags.tag_of birth }
{
    // The factor is odd, so no two makers have one tag for the same ordinal.
    birth.maker.wrapping_mul(65_599).wrapping_add(birth.ordinal)
}

/// There is one less of the tag of the port's name, where there is a port.
pub fn untag(tally: &mut Tally, port: Option<Registration>)
    ensures { tally.new.whole ≡ true → Retags (option_to_list port) [] tally.old tally.new }
{
    if let Some(r) = port {
        tally.take(tag_of(r.birth));
    }
}
