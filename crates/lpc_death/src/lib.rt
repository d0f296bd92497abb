//! The calls that make and end threads and processes, and the one that tells which ports hear of a process's exceptions.
#![tactic(auto)]

mod create;
mod dying;
mod event_ports;
mod targets;
mod tell;
mod terminate;

pub use create::{nt_create_process, nt_create_thread};
pub use event_ports::nt_set_information_process;
pub use terminate::{end_doomed, nt_terminate_process, nt_terminate_thread};
