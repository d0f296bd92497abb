// The texts of a client that have atoms.
ghost use Rattle.std.specs.Prelude.{◌≡◌, ◌≤◌, [], false, length, position, option_map, IfOk, IfSome, OnErr, OnOk};
ghost use Rattle.std.specs.Option.{option_copied};
ghost use Rattle.std.specs.Str.{bytes_eq};
ghost use Rattle.lpc_base.specs.Rows.{has};
ghost use Rattle.lpc_subsys.specs.Clients.{with_text};
ghost use Rattle.lpc_subsys.specs.Replies.{atom_in, text_in};
ghost use Rattle.lpc_subsys.specs.declared.profile.TheConstants.{TEXT_LIMIT};

use crate::profile::{ATOM_LIMIT, FIRST_ATOM, TEXT_LIMIT};
use arrayvec::ArrayVec;
use lpc_base::OutOfMemory;
use std::alloc::Global;
use std::marker::Model;

/// The texts that have atoms, in the order in which they came: at most 64. A clause sees their bytes.
#[derive(Drop)]
pub(crate) struct Atoms {
    texts: Vec<ArrayVec<u8, TEXT_LIMIT>>,
}

impl Model for Atoms {
    ghost use Rattle.std.specs.Prelude.{◌≤◌, List, ℕ, length, map};
    ghost use Rattle.lpc_subsys.specs.declared.profile.TheConstants.{ATOM_LIMIT};

    ghost Value = { List (List ℕ) };

    ghost view = { λ atoms. map (λ text. text.items) atoms.texts.items };

    ghost invariant = { λ atoms. length atoms.texts.items ≤ ATOM_LIMIT };
}

impl Atoms {
    /// No text has an atom. It takes no memory, and keeps the allocator.
    pub(crate) fn new(alloc: Global) -> Atoms
        ensures { result ≡ [] }
    {
        Atoms {
            texts: Vec::new(alloc),
        }
    }

    /// The atom of a text, which gets the next one where it has none; None where it has none and 64 others have one.
    ///
    /// After `OutOfMemory` nothing has changed.
    pub(crate) fn atom_of(&mut self, text: &[u8]) -> Result<Option<u32>, OutOfMemory>
        requires { length text.now ≤ TEXT_LIMIT }
        ensures atom { IfOk result (λ atom. atom ≡ atom_in self.new text.now) }
        ensures texts { OnOk result (self.new ≡ with_text self.old text.now) }
        ensures same { OnErr result (self.new ≡ self.old) }
    {
        match place_of(&self.texts, text) {
            Some(place) => Ok(Some(FIRST_ATOM + place as u32)),
            None => self.add(text),
        }
    }

    // The atom that a text gets which has none; None where 64 others have one.
    fn add(&mut self, text: &[u8]) -> Result<Option<u32>, OutOfMemory>
        requires fits { length text.now ≤ TEXT_LIMIT }
        requires new { has (bytes_eq text.now) self.old ≡ false }
        ensures atom { IfOk result (λ atom. atom ≡ atom_in self.new text.now) }
        ensures texts { OnOk result (self.new ≡ with_text self.old text.now) }
        ensures same { OnErr result (self.new ≡ self.old) }
    {
        let place = self.texts.len();
        if place == ATOM_LIMIT {
            return Ok(None);
        }
        self.texts.push(held(text)).map_err(|_| OutOfMemory)?;
        Ok(Some(FIRST_ATOM + place as u32))
    }

    /// The text of an atom.
    pub(crate) fn text_of(&self, atom: u32) -> Option<&[u8]>
        ensures text { option_copied result ≡ text_in self.now atom }
        ensures few { IfSome result (λ text. length text.now ≤ TEXT_LIMIT) }
    {
        if atom < FIRST_ATOM {
            return None;
        }
        let text = self.texts.get((atom - FIRST_ATOM) as usize)?;
        Some(text.as_slice())
    }
}

// Where a text stands among those that have atoms.
fn place_of(texts: &[ArrayVec<u8, TEXT_LIMIT>], text: &[u8]) -> Option<usize>
    ensures { result ≡ position (λ other. bytes_eq text.now other.items) texts.now }
{
    texts.iter().position(|other| text == other.as_slice())
}

// A copy of a text.
fn held(text: &[u8]) -> ArrayVec<u8, TEXT_LIMIT>
    requires { length text.now ≤ TEXT_LIMIT }
    ensures { result.items ≡ text.now }
{
    let mut copy = ArrayVec::new();
    copy.try_extend_from_slice(text).unwrap();
    copy
}
