//! Tests of whole replays: scripts, and what is sent for them. They stand in a crate of their own, so that the crate
//! that they test is proved once.
#![tactic(auto)]

#[cfg(test)]
mod closings;
#[cfg(test)]
mod common;
#[cfg(test)]
mod connections;
#[cfg(test)]
mod creations;
#[cfg(test)]
mod devices;
#[cfg(test)]
mod endings;
#[cfg(test)]
mod exceptions;
#[cfg(test)]
mod lines;
#[cfg(test)]
mod memory;
#[cfg(test)]
mod replay;
#[cfg(test)]
mod residents;
#[cfg(test)]
mod storms;
#[cfg(test)]
mod tokens;
