//! The servers on threads: what each knows of its connections and its clients, and the call that it makes at its turn.
#![tactic(auto)]

mod fields;
mod laws;
mod resident;
mod residents;

pub use laws::law_kept_stands_for_requests;
pub use resident::OwnCall;
pub use residents::Residents;
