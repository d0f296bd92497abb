// Security identifiers, and their text.
ghost use Rattle.std.specs.Prelude.{◌≡◌, ◌≢◌, ℕ, ◌^◌, ◌<◌, true, List, [], decimal, map, IfSome, IfNone, MatchOption};
ghost use Rattle.lpc_sid.specs.Spelling.{are_words, is_well_formed, parts, spelling, sid_of};

use arrayvec::{ArrayString, ArrayVec};
use std::str;

/// An authority is below this: it has 48 bits in a SID's published form.
const AUTHORITY_LIMIT: u64 = 1 << 48;

/// Each number under an authority is below this.
const NUMBER_LIMIT: u64 = 1 << 32;

/// A security identifier: the name of a user or a group.
#[derive(Clone, Debug, Default, Drop, PartialEq, Eq)]
pub struct Sid {
    /// Who gives the numbers; below 2^48 in the published form.
    pub authority: u64,
    /// The numbers under that authority, at least one in the published form.
    pub subs: ArrayVec<u32, 15>,
}

impl Sid {
    /// The SID that a text spells: `S-1-`, an authority below 2^48, and 1 to 15 numbers of 32 bits, each preceded by
    /// `-`, all in decimal without leading zeros. None exactly where the text isn't the one spelling of a SID. The form
    /// is the one in which NT prints SIDs; that it is decimal throughout is this project's own.
    pub fn read(text: &[u8]) -> Option<Sid>
        ensures value { result ≡ sid_of text.now }
        ensures form { IfSome result (λ sid. is_well_formed sid ≡ true) }
        ensures spelling { IfSome result (λ sid. spelling sid ≡ text.now) }
        ensures none { IfNone result
            ((sid : Sid) → is_well_formed sid ≡ true → spelling sid ≢ text.now) }
    {
        let text = str::from_utf8(text).ok()?;
        let (authority, subs) = text.strip_prefix("S-1-")?.split_once('-')?;
        let authority = number(authority, AUTHORITY_LIMIT)?;
        let subs = numbers(subs)?;
        Some(Sid { authority, subs })
    }

    /// The same SID once more. It takes no memory.
    pub fn copy(&self) -> Sid
        ensures { result ≡ self.now }
    {
        let mut subs = ArrayVec::new();
        subs.try_extend_from_slice(self.subs.as_slice()).unwrap();
        Sid {
            authority: self.authority,
            subs,
        }
    }

    /// Writes the spelling of the SID behind nothing: `S-1-`, the authority, and each number preceded by `-`, in decimal
    /// without leading zeros. It is 189 bytes at most.
    #[tactic(auto, unfolding(crate::specs::Spelling::spelling))]
    pub fn write(&self, into: &mut ArrayString<192>)
        requires { into.old.bytes ≡ [] }
        ensures { into.new.bytes ≡ spelling self.now }
    {
        into.push_str("S-1-");
        into.push_str(itoa::Buffer::new().format(self.authority));
        for sub in self.subs.as_slice() {
            into.push_str("-");
            into.push_str(itoa::Buffer::new().format(*sub));
        }
    }
}

/// The number below a limit that a text spells in decimal without leading zeros; None for any other text.
fn number(text: &str, limit: u64) -> Option<u64>
    ensures { MatchOption result
        ((n : ℕ) → n < limit → decimal n ≢ text.now)
        (λ n. (n < limit) × (decimal n ≡ text.now)) }
{
    let number: u64 = text.parse().ok()?;
    if number >= limit || itoa::Buffer::new().format(number) != text {
        return None;
    }
    Some(number)
}

/// The numbers of 32 bits between the dashes of a text, at most 15; None for any other text.
fn numbers(text: &str) -> Option<ArrayVec<u32, 15>>
    ensures { MatchOption result
        ((ns : List ℕ) → are_words ns ≡ true → map decimal ns ≢ parts text.now)
        (λ v. (are_words v.items ≡ true) × (map decimal v.items ≡ parts text.now)) }
{
    let mut list = ArrayVec::new();
    for part in text.split('-') {
        let number = number(part, NUMBER_LIMIT)?;
        list.try_push(number as u32).ok()?;
    }
    Some(list)
}
