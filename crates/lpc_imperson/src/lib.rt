//! The calls by which a thread acts as its client, and those on tokens as objects. Each is its definition's refusals in
//! their order, and then its steps.
#![tactic(auto)]

mod acting;
mod clients;
mod opening;
mod querying;

pub use acting::{nt_impersonate_client_of_port, nt_set_information_thread};
pub use opening::{nt_open_process_token, nt_open_thread_token};
pub use querying::nt_query_information_token;
