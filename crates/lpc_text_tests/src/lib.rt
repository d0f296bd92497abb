//! Tests of the lists of entries, of the lines of a script, and of the text of a transcript and of rows: what no clause
//! says. They stand in a crate of their own, so that each crate that they test is proved once.
#![tactic(auto)]

#[cfg(test)]
mod exceptions;
#[cfg(test)]
mod line_buffer;
#[cfg(test)]
mod memory;
#[cfg(test)]
mod model;
#[cfg(test)]
mod ranges;
#[cfg(test)]
mod residents;
#[cfg(test)]
mod script;
#[cfg(test)]
mod states;
#[cfg(test)]
mod tokens;
#[cfg(test)]
mod transcript;
