//! The lines of a script, and the words, numbers and names that stand in a line.
#![tactic(auto)]

mod lines;
mod names;
mod numbers;
mod words;

pub use lines::next_line;
pub use names::{call_name, directive_name, next_call};
pub use numbers::{id, next_number, number};
pub use words::{
    four_words, has_parts_at_most, next_word, no_words, one_or_two_words, one_word, split_far,
    split_once, three_parts, three_words, two_and_more_words, two_or_three_words, two_parts,
    two_words,
};
