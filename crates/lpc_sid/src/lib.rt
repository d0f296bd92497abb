//! SIDs, access lists and tokens as values, and the access check.
#![tactic(auto)]

mod access;
mod laws;
mod sid;
mod token;

pub use access::{Ace, Dacl, access_check};
pub use laws::law_sid_has_one_spelling;
pub use sid::Sid;
pub use token::Token;
