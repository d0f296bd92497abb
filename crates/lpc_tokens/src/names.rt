// The names of tokens, by which processes that are yet to come are given theirs.
ghost use Rattle.std.specs.Prelude.{◌≡◌, ◌+◌, ◌<◌, ◌≤◌, ◌++◌, ◌∷◌, [], length, option_copied, slice_get, None, Some, OnErr, OnOk};
ghost use Rattle.lpc_sid.specs.WellKnown.{system_token};
ghost use Rattle.lpc_tokens.specs.Names.{named};

use crate::{TokenArena, TokenRef};
use arrayvec::ArrayVec;
use indexmap::IndexMap;
use lpc_base::OutOfMemory;
use lpc_sid::Token;
use std::alloc::Global;
use std::marker::Model;

/// The bytes of a token's name, at most. This project's profile.
pub const TOKEN_NAME_LIMIT: usize = 32;

/// The tokens that have names, in the order in which they got them. A name leads to its token without a search, and
/// stays; the tokens lie in an arena. So many further ones as there is room for go in without memory.
///
/// A clause sees the names with their tokens, and the room.
#[derive(Drop)]
pub struct TokenNames<'t> {
    names: IndexMap<ArrayVec<u8, TOKEN_NAME_LIMIT>, TokenRef<'t>>,
    arena: &'t TokenArena,
    // Places in the arena for tokens that are yet to come.
    places: Vec<&'t mut Token>,
}

impl<'t> Model for TokenNames<'t> {
    ghost use Rattle.std.specs.Prelude.{◌≡◌, length, map, min, true};
    ghost use Rattle.indexmap.specs.IndexMap.{spare};
    ghost use Rattle.lpc_base.specs.Rows.{every};
    ghost use Rattle.lpc_tokens.specs.Names.{TokenNames, is_short, shown_name};

    ghost Value = { TokenNames };

    ghost view = { λ s. record { rows = map shown_name s.names.entries; spare = min (spare s.names) (length s.places.items) } };

    ghost invariant = { λ s. every is_short (map shown_name s.names.entries) ≡ true };
}

// The key of a name.
fn key_of(name: &[u8]) -> ArrayVec<u8, TOKEN_NAME_LIMIT>
    requires { length name.now ≤ TOKEN_NAME_LIMIT }
    ensures { result.items ≡ name.now }
{
    let mut key = ArrayVec::new();
    key.try_extend_from_slice(name).unwrap();
    key
}

// Makes places in the arena until there are so many.
fn make_places<'t>(
    arena: &'t TokenArena,
    places: &mut Vec<&'t mut Token>,
    count: usize,
) -> Result<(), OutOfMemory>
    ensures enough { OnOk result (count ≤ length places.new.items) }
    ensures wanting { OnErr result (length places.old.items < count) }
    ensures kept { length places.old.items ≤ length places.new.items }
{
    while places.len() < count {
        if places.push(arena.place()?).is_err() {
            return Err(OutOfMemory);
        }
    }
    Ok(())
}

impl<'t> TokenNames<'t> {
    /// No name and no room, for tokens in this arena. It takes no memory, and keeps the allocator for `reserve`.
    pub fn new(alloc: Global, arena: &'t TokenArena) -> TokenNames<'t>
        ensures { result.rows ≡ [] }
    {
        TokenNames {
            names: IndexMap::new(alloc),
            arena,
            places: Vec::new(alloc),
        }
    }

    /// The token of a process for which no other is named: the local system's.
    pub fn system(&self) -> TokenRef<'t>
        ensures { result ≡ system_token }
    {
        self.arena.system()
    }

    /// Makes room for so many further names. `OutOfMemory` comes only where the room isn't there; nothing has changed
    /// then but the room.
    pub fn reserve(&mut self, more: usize) -> Result<(), OutOfMemory>
        ensures rows { self.new.rows ≡ self.old.rows }
        ensures room { OnOk result (more ≤ self.new.spare) }
        ensures wanting { OnErr result (self.old.spare < more) }
        ensures spare { self.old.spare ≤ self.new.spare }
    {
        if self.names.reserve(more).is_err() {
            return Err(OutOfMemory);
        }
        make_places(self.arena, &mut self.places, more)
    }

    /// Gives a token a name, which no token has. There is room for it, and the name has at most 32 bytes.
    pub fn add(&mut self, name: &[u8], token: Token)
        requires room { 0 < self.old.spare }
        requires short { length name.now ≤ TOKEN_NAME_LIMIT }
        requires new { named self.old.rows name.now ≡ None }
        ensures rows { self.new.rows
            ≡ self.old.rows ++ (record { name = name.now; token = token }) ∷ [] }
        ensures spare { self.old.spare ≤ self.new.spare + 1 }
    {
        let Some(place) = self.places.pop() else {
            unreachable!()
        };
        *place = token;
        match self.names.insert(key_of(name), TokenRef::new(place)) {
            Ok(_) => {}
            Err(_) => unreachable!(),
        }
    }

    /// How many tokens have names.
    pub fn count(&self) -> usize
        ensures { result ≡ length self.now.rows }
    {
        self.names.len()
    }

    /// The name at a place, and its token. Places go from 0 in the order in which the tokens got their names.
    pub fn name_at(&self, place: usize) -> (&[u8], &Token)
        requires { place < length self.now.rows }
        ensures { slice_get self.now.rows place
            ≡ Some (record { name = result.0.now; token = result.1.now }) }
    {
        match self.names.get_index(place) {
            Some((name, token)) => (name.as_slice(), token.get()),
            None => unreachable!(),
        }
    }

    /// The token of a name: None exactly where no token has it.
    pub fn find(&self, name: &[u8]) -> Option<&TokenRef<'t>>
        ensures { option_copied result ≡ named self.now.rows name.now }
    {
        let names = &self.names;
        if name.len() > TOKEN_NAME_LIMIT {
            return None;
        }
        names.get(&key_of(name))
    }
}
