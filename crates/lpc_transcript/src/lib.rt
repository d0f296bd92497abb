//! The text of a transcript: the entries of a line, and the last line.
#![tactic(auto)]

mod fields;
mod gather;
mod laws;
mod sids;
mod spell;
mod text;
mod words;

pub use laws::law_text_is_unique;
pub use sids::put_sid;
pub use text::{print, print_end, print_stop};
pub use words::{kind_name, put, put_digits, put_long_number, put_number, put_read};
