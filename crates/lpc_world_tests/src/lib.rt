//! Tests of the composed world, of the services and of the machine, call by call and line by line: what no clause says.
//! They stand in a crate of their own, so that each crate that they test is proved once.
#![tactic(auto)]

#[cfg(test)]
mod common;
#[cfg(test)]
mod connect;
#[cfg(test)]
mod creating;
#[cfg(test)]
mod death;
#[cfg(test)]
mod ending;
#[cfg(test)]
mod events;
#[cfg(test)]
mod machine;
#[cfg(test)]
mod memory;
#[cfg(test)]
mod ranges;
#[cfg(test)]
mod request;
#[cfg(test)]
mod rows;
#[cfg(test)]
mod tokens;
#[cfg(test)]
mod views;
#[cfg(test)]
mod world;
