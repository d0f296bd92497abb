// Access lists, and the check against one.
ghost use Rattle.std.specs.Prelude.{◌≡◌, ◌≢◌, ◌↔◌, IsTrue};
ghost use Rattle.std.specs.Option.{option_copied};
ghost use Rattle.lpc_sid.specs.Access.{GrantsEach, grants, grants_left};

use crate::{Sid, Token};
use arrayvec::ArrayVec;

/// One entry of an access list.
#[derive(Clone, Debug, Default, Drop, PartialEq, Eq)]
pub struct Ace {
    /// It grants rights; else it denies them.
    pub allow: bool,
    /// The rights that it names, one bit each.
    pub mask: u32,
    /// The user or group for which it counts.
    pub sid: Sid,
}

/// An access list: its entries in the order in which they are read.
#[derive(Clone, Debug, Default, Drop, PartialEq, Eq)]
pub struct Dacl {
    /// The entries, at most 16.
    pub list: ArrayVec<Ace, 16>,
}

impl Dacl {
    /// The same list once more. It takes no memory.
    pub fn copy(&self) -> Dacl
        ensures { result ≡ self.now }
    {
        self.clone().unwrap()
    }
}

/// An access list grants a token the wanted rights. The entries are read in order, as the books on NT tell it. One
/// counts where its SID is the token's user or one of its groups. A deny entry that names a wanted right not yet granted
/// refuses, an allow entry grants. The check succeeds once all wanted rights are granted, and is refused at the end of
/// the list. No list grants all, an empty one none.
pub fn access_check(token: &Token, dacl: Option<&Dacl>, wanted: u32) -> bool
    requires { wanted ≢ 0 }
    ensures cases { result ≡ grants token.now (option_copied dacl.entry) wanted }
    ensures rights { IsTrue result ↔ GrantsEach token.now (option_copied dacl.entry) wanted }
{
    match dacl {
        None => true,
        Some(dacl) => are_granted(token, dacl.list.as_slice(), wanted),
    }
}

// The entries, read in order, grant all the wanted rights.
fn are_granted(token: &Token, entries: &[Ace], wanted: u32) -> bool
    requires { wanted ≢ 0 }
    ensures { result ≡ grants_left token.now wanted entries.now }
{
    let mut left = wanted;
    for ace in entries {
        if token.has_sid(&ace.sid) {
            let named = ace.mask & left;
            if ace.allow {
                left &= !ace.mask;
                if left == 0 {
                    return true;
                }
            } else if named != 0 {
                return false;
            }
        }
    }
    false
}
