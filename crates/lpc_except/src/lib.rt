//! Exceptions: the call that raises one, and how one goes on whose event wasn't handled.
#![tactic(auto)]

mod chances;
mod events;
mod raising;
mod settle;

pub use raising::raise;
pub use settle::next_chance;
