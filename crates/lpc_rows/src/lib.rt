//! The rows of the definitions that the tables stand for together, and what of them is lawful: the world above keeps
//! it.
#![tactic(auto)]

mod death;

pub use death::Death;
