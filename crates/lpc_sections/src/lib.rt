//! Sections: bytes that views of one or several processes show.
#![tactic(auto)]

mod section;

pub use section::Section;
