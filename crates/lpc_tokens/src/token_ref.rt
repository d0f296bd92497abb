// Tokens that lie in an arena, and those who refer to them.
ghost use Rattle.std.specs.Prelude.{◌≡◌};

use lpc_sid::Token;
use std::marker::Model;

/// A token, by reference to where it lies: whoever has one token shares its SIDs, which never change. Copying it takes no
/// memory and moves no SID.
///
/// A clause sees the token itself.
#[derive(Drop)]
pub struct TokenRef<'t> {
    token: &'t Token,
}

impl<'t> Model for TokenRef<'t> {
    ghost use Rattle.lpc_sid.specs.declared.token.Token.{Token};

    ghost Value = { Token };

    ghost view = { λ s. s.token.now };
}

impl<'t> TokenRef<'t> {
    /// A reference to a token that lies somewhere.
    pub fn new(token: &'t Token) -> TokenRef<'t>
        ensures { result ≡ token.now }
    {
        TokenRef { token }
    }

    /// The same reference once more. It takes no memory.
    pub fn copy(&self) -> TokenRef<'t>
        ensures { result ≡ self.now }
    {
        TokenRef { token: self.token }
    }

    /// The token.
    pub fn get(&self) -> &'t Token
        ensures { result.now ≡ self.now }
    {
        self.token
    }
}
