//! The definitions of the machine, and the types that all layers share: the lines of a script, kept
//! messages and the entries of a transcript.
#![tactic(auto)]

mod entry;
mod fault;
mod fields;
mod laws;
mod line;
mod message;
mod resident;

pub use entry::{
    CallName, Entries, Entry, Field, FieldName, Fields, Lent, ObjectKind, Outcome, Value, Word,
};
pub use fault::LineFault;
pub use fields::{
    accept_fields, completion_fields, connect_fields, handle_field, identifier_field, info_field,
    kept, message_field, object_fields, process_fields, refuse, view_fields,
};
pub use laws::{
    law_closings_are_told, law_completion_refuses_cut_pairs, law_connected_ports_reach_each_other,
    law_death, law_held_objects, law_impersonation_refuses_unserved, law_lawful_worlds, law_limits,
    law_messages_are_accounted_for, law_open_queues, law_ports_keep_what_they_are,
    law_queues_keep_their_order, law_sound_waits, law_views,
};
pub use line::{Call, Kind, Line, ProcArg, ViewWord};
pub use message::{Body, Message};
pub use resident::{Asked, ClientView, Connect, Connection, Deed};
