//! Tests of the tables, of what stands below them and of the core of a resident server, call by call: what no clause
//! says. They stand in a crate of their own, so that each crate that they test is proved once.
#![tactic(auto)]

#[cfg(test)]
mod base;
#[cfg(test)]
mod common;
#[cfg(test)]
mod handles;
#[cfg(test)]
mod homes;
#[cfg(test)]
mod message;
#[cfg(test)]
mod names;
#[cfg(test)]
mod offers;
#[cfg(test)]
mod owned;
#[cfg(test)]
mod ports;
#[cfg(test)]
mod procs;
#[cfg(test)]
mod rows;
#[cfg(test)]
mod sections;
#[cfg(test)]
mod server;
#[cfg(test)]
mod sid;
#[cfg(test)]
mod slots;
#[cfg(test)]
mod tokens;
#[cfg(test)]
mod views;
#[cfg(test)]
mod waits;
