//! The calls that send, receive and reply, and the one that registers a port. Each is its definition's refusals in
//! their order, and then its steps.
#![tactic(auto)]

mod receive;
mod register;
mod reply;
mod send;

pub use receive::nt_reply_wait_receive_port;
pub use register::{has_registered, nt_register_thread_terminate_port, registration_test};
pub use reply::nt_reply_port;
pub use send::{nt_request_port, nt_request_wait_reply_port};
