// Effective tokens, and what of them is passed on.
ghost use Rattle.std.specs.Prelude.{◌≡◌, ◌≤◌};
ghost use Rattle.std.specs.Option.{option_copied};
ghost use Rattle.lpc_tokens.specs.Tokens.{counts_as, effective, passed_on};

use crate::level::DELEGATION;
use crate::{Level, Qos, TokenRef};

/// The token of a client, as a server thread has it.
#[derive(Drop)]
pub struct Impersonation<'t> {
    /// The client's token.
    pub token: TokenRef<'t>,
    /// How far the thread may act as the client.
    pub level: Level,
}

/// The token with which a thread acts.
#[derive(Drop)]
pub struct Effective<'t> {
    /// The token.
    pub token: TokenRef<'t>,
    /// The level of an impersonation token; None for a process's own token.
    pub level: Option<Level>,
}

impl<'t> Impersonation<'t> {
    /// The same once more. It takes no memory.
    pub fn copy(&self) -> Impersonation<'t>
        ensures { result ≡ self.now }
    {
        Impersonation {
            token: self.token.copy(),
            level: self.level,
        }
    }
}

impl<'t> Effective<'t> {
    /// The same once more. It takes no memory.
    pub fn copy(&self) -> Effective<'t>
        ensures { result ≡ self.now }
    {
        Effective {
            token: self.token.copy(),
            level: self.level,
        }
    }

    /// The level that the token counts as: its own, and for a process's own token the highest.
    pub fn counts_as(&self) -> Level
        ensures { result ≡ counts_as self.now }
    {
        self.level.unwrap_or(DELEGATION)
    }
}

/// The token with which a thread acts: the one that it impersonates, else its process's.
pub fn effective_token<'t>(primary: &TokenRef<'t>, own: Option<&Impersonation<'t>>) -> Effective<'t>
    ensures { result ≡ effective primary.now (option_copied own.entry) }
{
    match own {
        None => Effective {
            token: primary.copy(),
            level: None,
        },
        Some(own) => Effective {
            token: own.token.copy(),
            level: Some(own.level),
        },
    }
}

/// What a server gets of its client: the client's token, with the lesser of the level that the client allows and the one
/// that its token counts as. So nobody gets further than the client itself. The books on NT tell the level that is
/// asked for; that it is the lesser of two is this project's own.
pub fn pass_on<'t>(qos: &Qos, client: &Effective<'t>) -> Impersonation<'t>
    ensures value { result ≡ passed_on qos.now client.now }
    ensures asked { result.level ≤ qos.now.level }
    ensures own { result.level ≤ counts_as client.now }
{
    Impersonation {
        token: client.token.copy(),
        level: qos.level.min(client.counts_as()),
    }
}
