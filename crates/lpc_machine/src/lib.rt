//! The machine: one step a line, over the composed world.
#![tactic(auto)]

mod machine;
mod reading;
mod settling;

pub use machine::Machine;
pub use reading::{Condition, condition_of, objects, room_needed};
