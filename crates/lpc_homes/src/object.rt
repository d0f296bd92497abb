// What a handle names.
ghost use Rattle.std.specs.Prelude.{◌≡◌};
ghost use Rattle.std.proofs.Common.{rules};
ghost use Rattle.std.specs.Cmp.Rules.{hashing};
ghost use Rattle.lpc_homes.specs.Hashed.{hashed};
ghost use Rattle.lpc_homes.specs.Numbered.{is_numbered};
ghost use Rattle.lpc_homes.specs.Parts.{port_of};

use lpc_base::Birth;
use lpc_slots::Key;
use std::hash::{Hash, Hasher};

/// What a handle names.
#[derive(Clone, Copy, PartialEq, Eq)]
pub enum Object {
    /// A port, by its key.
    Port(Key),
    /// A process, by the name that it was made under.
    Process(Birth),
    /// A thread, by the name that it was made under.
    Thread(Birth),
    /// A section, by its key.
    Section(Key),
    /// A token, by its key.
    Token(Key),
}

impl Object {
    /// The key of the port that the object is: None exactly for another kind.
    pub fn port(self) -> Option<Key>
        ensures { result ≡ port_of self }
    {
        match self {
            Object::Port(port) => Some(port),
            Object::Process(_) | Object::Thread(_) | Object::Section(_) | Object::Token(_) => None,
        }
    }

    /// The object is a section or a token: of these it is kept how many are held.
    pub(crate) fn is_numbered(self) -> bool
        ensures { result ≡ is_numbered self }
    {
        matches!(self, Object::Section(_) | Object::Token(_))
    }
}

// Written out, since a key and a birth have no hash of their own. The insertion that a key is of tells it from each
// other key of its table.
impl Hash for Object {
    ghost hash_input = { hashed };

    ghost respects_eq = { Prim.search (hashing, rules) };

    fn hash<H: Hasher>(&self, state: &mut H) {
        match *self {
            Object::Port(key) => key.generation.hash(state),
            Object::Section(key) => key.generation.hash(state),
            Object::Token(key) => key.generation.hash(state),
            Object::Process(birth) => {
                birth.maker.hash(state);
                birth.ordinal.hash(state);
            }
            Object::Thread(birth) => {
                birth.maker.hash(state);
                birth.ordinal.hash(state);
            }
        }
    }
}
