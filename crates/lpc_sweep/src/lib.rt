//! The sweep at the end of each line: objects that no row counts for go, and then those that only they counted for.
#![tactic(auto)]

mod finding;
mod freeing;

pub use freeing::sweep;
