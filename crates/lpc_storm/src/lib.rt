//! A storm: a script that a generator makes from a number of rounds and a seed, and the line that sums up its run.
#![tactic(auto)]

mod line;
mod rounds;
mod summary;

pub use line::StormLine;
pub use rounds::{CLIENTS, ROUNDS_LIMIT, Round, Rounds, connecting, ending, opening};
pub use summary::{Summary, print_summary};
