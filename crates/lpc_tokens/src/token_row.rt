// A token as an object.

use crate::{Level, TokenRef};
use lpc_base::Birth;

/// A token as an object, to which handles lead. Its content never changes.
#[derive(Drop)]
pub struct TokenRow<'t> {
    /// The name that it was made under.
    pub birth: Birth,
    /// Its content.
    pub token: TokenRef<'t>,
    /// The level of an impersonation token; None for a process's own token.
    pub level: Option<Level>,
}
