//! The calls on sections, on the views of a process, and on the memory that they show, also that of a client which asks.
//! Each is its definition's refusals in their order, and then its steps.
#![tactic(auto)]

mod mapping;
mod memory;
mod requests;
mod sections;

pub use mapping::{nt_map_view_of_section, nt_unmap_view_of_section};
pub use memory::{nt_read_virtual_memory, nt_write_virtual_memory};
pub use requests::{nt_read_request_data, nt_write_request_data};
pub use sections::nt_create_section;
