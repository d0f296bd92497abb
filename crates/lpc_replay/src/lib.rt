//! The replay of scripts: a script is read from a source, run line by line, and its transcript is sent to a sink, or its
//! transcript with what becomes of the world's rows in each line.
#![tactic(auto)]

mod form;
mod laws;
mod play;
mod playback;
mod reading;
mod replay;
mod sending;
mod step;
mod storm;

pub use laws::{law_completion, law_handles_lead_to_rows, law_worked_transcripts};
pub use lpc_isolation::law_isolation;
pub use lpc_model::law_death;
pub use replay::run_words;
