//! The views of one process: which part of a section each shows, and at which addresses.
#![tactic(auto)]

mod bases;
mod parts;
mod space;
mod view;

pub use parts::{part_mut, part_of_mut};
pub use space::{Space, mapped_size};
pub use view::{Fault, MapFault, Place, View};
