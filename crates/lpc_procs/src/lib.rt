//! Processes and threads, the numbers that were ever used, what threads draw, the ports that they registered, and the
//! ports that are told of the processes' exceptions.
#![tactic(auto)]

mod births;
mod exceptions;
mod keys;
mod lists;
mod members;
mod procs;
mod registrations;
mod rows;
mod searches;
mod tags;

pub use procs::Procs;
pub use rows::{
    BornThread, Caller, Doomed, Life, Number, ProcessRow, Registration, ThreadRow, UsedThread,
};
