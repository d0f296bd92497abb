//! The home of each process: the part of the world that is its own, its handles and its views.
#![tactic(auto)]

mod counts;
mod held;
mod object;
mod object_counts;
mod parts;
mod view_counts;
mod views;

pub use object::Object;
pub use parts::{Part, Parts};
