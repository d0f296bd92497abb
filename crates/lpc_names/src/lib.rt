//! Paths and what stands under them: directories, links to other paths, and items of one type.
#![tactic(auto)]

mod fault;
mod laws;
mod names;
mod text;

pub use fault::{BindFault, NameFault, status_of};
pub use laws::{
    law_binding_changes_one_path, law_bound_is_found, law_linked_path_leads_as_direct,
    law_unbound_is_not_found,
};
pub use names::{Found, Names, Node};
