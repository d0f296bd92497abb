//! The directives that make processes, threads, directories and links, and give tokens names.
#![tactic(auto)]

mod directives;

pub use directives::{boot, directory, link, thread, token};
