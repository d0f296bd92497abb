//! The law on two scripts: a process learns of the processes outside its circle only what the circle's own calls and
//! answers tell it.
#![tactic(auto)]

mod law;

pub use law::law_isolation;
