//! What each line of a script says by the grammar.
#![tactic(auto)]

mod access;
mod exceptions;
mod head;
mod laws;
mod line_buffer;
mod read;
mod scratch;
mod tokens;

pub use laws::law_worked_lines;
pub use line_buffer::{Fed, LineBuffer};
pub use lpc_model::LineFault;
pub use read::read_line;
pub use scratch::Scratch;
