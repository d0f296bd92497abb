//! Values under numbers that differ, found by their number without a search; births, found by the birth too; how many
//! there are of a number; and the answers of a map that were changed last.
#![tactic(auto)]

mod named;
mod near;
mod numbered;
mod recent;
mod tally;

pub use named::Named;
pub use numbered::Numbered;
pub use recent::Recent;
pub use tally::Tally;
