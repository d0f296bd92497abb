//! The rows of a world as text: the values that a row shows, and what becomes of rows in a line.
#![tactic(auto)]

mod changes;
mod messages;
mod tokens;
mod values;

pub use changes::print_changes;
pub use messages::{header_in, put_message_fields};
pub use tokens::{put_leveled, put_security, put_token, put_token_under};
pub use values::{
    put_birth, put_decimal, put_decimal_under, put_flag, put_flag_under, put_hex, put_hex_bytes,
    put_hex_or_null, put_hex_or_null_under, put_hex_under, put_name, put_number_or_null,
    put_number_or_null_under, put_object, put_port_kind, put_port_or_null, put_port_or_null_under,
};
