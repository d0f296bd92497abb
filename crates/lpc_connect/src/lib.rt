//! The calls that make ports and connections. Each is its definition's refusals in their order, and then its steps.
#![tactic(auto)]

mod accept;
mod complete;
mod connect;
mod create;
mod listen;

pub use accept::nt_accept_connect_port;
pub use complete::nt_complete_connect_port;
pub use connect::nt_connect_port;
pub use create::nt_create_port;
pub use listen::nt_listen_port;
