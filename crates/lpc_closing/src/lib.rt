//! The calls that close, duplicate and query handles, and the closing of all handles of a process that ends.
#![tactic(auto)]

mod close;
mod duplicate;
mod messages;
mod process;
mod query;

pub use close::{cut_pair, nt_close};
pub use duplicate::nt_duplicate_object;
pub use messages::birth_message;
pub use process::end_process;
pub use query::nt_query_object;
