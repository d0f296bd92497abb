//! The core of a server like the one that serves the Win32 interface: for each client process it keeps atoms, a console
//! and a shutdown level, and answers requests. Its messages are this project's own.
#![tactic(auto)]

mod ask;
mod atoms;
mod client;
mod console;
mod laws;
pub mod profile;
mod reply;
mod server;

pub use laws::{
    law_kept_is_enough, law_kept_is_small, law_others_do_not_show, law_profile,
    law_refused_counts_for_nothing, law_served_clients_have_states, law_worked_replies,
};
pub use server::Server;
