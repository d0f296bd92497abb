//! The token with which a thread acts, the one that a server gets of its client, tokens as objects, and their names.
#![tactic(auto)]

mod arena;
mod effective;
pub mod level;
mod names;
mod qos;
mod security;
mod token_ref;
mod token_row;

pub use arena::TokenArena;
pub use effective::{Effective, Impersonation, effective_token, pass_on};
pub use level::Level;
pub use names::{TOKEN_NAME_LIMIT, TokenNames};
pub use qos::{Qos, Tracking};
pub use security::Security;
pub use token_ref::TokenRef;
pub use token_row::TokenRow;
