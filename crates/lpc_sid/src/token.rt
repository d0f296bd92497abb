// Tokens: who someone is.
ghost use Rattle.std.specs.Prelude.{◌≡◌, ◌≤◌, [], ◌∷◌, codes, length, map};
ghost use Rattle.lpc_sid.specs.Access.{has_sid};
ghost use Rattle.lpc_sid.specs.Spelling.{spelling};
ghost use Rattle.lpc_sid.specs.WellKnown.{sid, system_token};

use crate::Sid;
use arrayvec::ArrayVec;

/// Who a process or thread is: a user, and the groups that the user is in.
#[derive(Clone, Debug, Default, Drop, PartialEq, Eq)]
pub struct Token {
    /// The user.
    pub user: Sid,
    /// The groups, at most 16.
    pub groups: ArrayVec<Sid, 16>,
}

impl Token {
    /// The token of a process for which no other is named: the local system (`S-1-5-18`), in the groups of the
    /// administrators (`S-1-5-32-544`) and of everyone (`S-1-1-0`). The SIDs are NT's own; that they make the default is
    /// this project's.
    pub fn system() -> Token
        ensures value { result ≡ system_token }
        ensures user { spelling result.user ≡ codes "S-1-5-18" }
        ensures groups { map spelling result.groups.items
            ≡ codes "S-1-5-32-544" ∷ codes "S-1-1-0" ∷ [] }
    {
        let mut groups = ArrayVec::new();
        groups.push(well_known(5, &[32, 544]));
        groups.push(well_known(1, &[0]));
        Token {
            user: well_known(5, &[18]),
            groups,
        }
    }

    /// The same token once more. It takes no memory.
    pub fn copy(&self) -> Token
        ensures { result ≡ self.now }
    {
        let mut groups = ArrayVec::new();
        for group in self.groups.as_slice() {
            groups.push(group.copy());
        }
        Token {
            user: self.user.copy(),
            groups,
        }
    }

    /// A SID is the token's user or one of its groups.
    pub fn has_sid(&self, sid: &Sid) -> bool
        ensures { result ≡ has_sid self.now sid.now }
    {
        self.user == *sid || self.groups.as_slice().contains(sid)
    }
}

// The SID of an authority and numbers.
fn well_known(authority: u64, numbers: &[u32]) -> Sid
    requires { length numbers.now ≤ 15 }
    ensures { result ≡ sid authority numbers.now }
{
    let mut subs = ArrayVec::new();
    subs.try_extend_from_slice(numbers).unwrap();
    Sid { authority, subs }
}
