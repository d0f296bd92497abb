// Where tokens lie.
ghost use Rattle.std.specs.Prelude.{◌≡◌, IfOk};
ghost use Rattle.lpc_sid.specs.WellKnown.{system_token};

use crate::TokenRef;
use bumpalo::Bump;
use lpc_base::OutOfMemory;
use lpc_sid::Token;
use std::alloc::Global;
use std::marker::Model;

/// Where the tokens of a machine lie: the local system's, and those that get names. They never change, and go all at
/// once, with the arena, which outlives whatever refers to them.
///
/// A clause sees the local system's token.
#[derive(Drop)]
pub struct TokenArena {
    system: Token,
    named: Bump,
}

impl Model for TokenArena {
    ghost use Rattle.std.specs.Prelude.{◌≡◌};
    ghost use Rattle.lpc_sid.specs.WellKnown.{system_token};
    ghost use Rattle.lpc_sid.specs.declared.token.Token.{Token};

    ghost Value = { Token };

    ghost view = { λ s. s.system };

    ghost invariant = { λ s. s.system ≡ system_token };
}

impl TokenArena {
    /// The local system's token and no other. It takes no memory, and keeps the allocator for tokens that get names.
    pub fn new(alloc: Global) -> TokenArena
        ensures { result ≡ system_token }
    {
        TokenArena {
            system: Token::system(),
            named: Bump::new(alloc),
        }
    }

    /// The local system's token.
    pub fn system(&self) -> TokenRef<'_>
        ensures { result ≡ system_token }
    {
        TokenRef::new(&self.system)
    }

    /// A place for a token, with one in it that is nobody's. `OutOfMemory` comes where there is no memory for it.
    pub(crate) fn place(&self) -> Result<&mut Token, OutOfMemory> {
        self.named
            .try_alloc(Token::default())
            .map_err(|_| OutOfMemory)
    }
}
