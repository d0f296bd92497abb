//! The handles of one process.
#![tactic(auto)]

mod table;

pub use table::{Row, Table, TableFault};
