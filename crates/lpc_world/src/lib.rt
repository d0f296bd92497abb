//! The composed world: the tables together, seen as the rows of the definitions.
#![tactic(auto)]

mod marks;
mod own_messages;
mod port_names;
mod suspected_lives;
mod suspects;
mod world;

pub use lpc_homes::Object;
pub use suspected_lives::LifeSuspect;
pub use suspects::Suspect;
pub use world::World;
