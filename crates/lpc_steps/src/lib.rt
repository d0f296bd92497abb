//! The steps that several services share: what they look up in the world, and what they leave of it.
#![tactic(auto)]

mod closing;
mod connections;
mod ending;
mod entering;
mod fitting;
mod handles;
mod marking;
mod message;
mod offers;
mod queues;
mod threads;
mod waiting;

pub use closing::{Closed, closing_post};
pub use connections::{Completable, answered_connect, completion_test, is_connection};
pub use ending::{Ending, end_all};
pub use entering::{deliver, deliver_bytes};
pub use fitting::{client_test, fitted, reply_test};
pub use handles::{
    give_handle, handles_test, kind_of, object_at, own_handle, port_at, section_at, token_at,
};
pub use marking::{Marking, mark_all};
pub use message::{
    asks_for_answer, bytes_field, bytes_receipt, read_message, wants_answer, written,
};
pub use offers::{
    Wanted, base_of, map_view, mapping_status, offer_test, size_of_view, view_beside, view_test,
    wanted_test,
};
pub use queues::{context, datagram_test, receive_test, route};
pub use threads::{thread_reserve, thread_test};
pub use waiting::{end_connect, end_waiting, wait_with, wait_with_bytes, waiting_call, wake};
