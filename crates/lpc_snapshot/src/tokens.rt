// Tokens, and the names of tokens.
ghost use Rattle.std.specs.Prelude.{◌≡◌, ◌<◌, ◌≤◌, ◌++◌, Some, length, slice_get, true, OnErr, vec_capacity};
ghost use Rattle.lpc_rows.specs.Names.{name_of, stands};
ghost use Rattle.lpc_rows.specs.Shown.{shown_token};
ghost use Rattle.lpc_transcript.specs.Printing.{BeginsWith, LacksRoom, Puts};
ghost use Rattle.lpc_states.specs.Rows.{lines, token_name_row, token_row};
ghost use Rattle.lpc_states.specs.Values.{token_text};

use crate::counts::put_counts;
use lpc_base::OutOfMemory;
use lpc_model::ObjectKind;
use lpc_sid::Token;
use lpc_slots::Key;
use lpc_states::{put_name, put_number_or_null_under, put_object, put_token_under};
use lpc_tokens::{TokenRef, TokenRow};
use lpc_transcript::put;
use lpc_world::{Object, World};

// The level of an impersonation token, none where it is a process's.
fn level_of(token: &TokenRow<'_>) -> Option<u32>
    ensures { result ≡ (token.now).level }
{
    match token.level {
        Some(level) => Some(u32::from(level)),
        None => None,
    }
}

/// A key, and behind it the token to which a row refers.
pub(crate) fn put_row_token(
    into: &mut Vec<u8>,
    key: &[u8],
    token: &TokenRef<'_>,
) -> Result<(), OutOfMemory>
    ensures ok { Puts into.old.items into.new.items (key.now ++ token_text token.now) result }
    ensures err { OnErr result (BeginsWith into.new.items into.old.items) }
    ensures capacity { vec_capacity into.old ≤ vec_capacity into.new }
    ensures wanting { OnErr result (LacksRoom into.old (key.now ++ token_text token.now)) }
{
    put_token_under(into, key, token.get())
}

fn put_token_row(
    into: &mut Vec<u8>,
    world: &World,
    key: Key,
    token: &TokenRow<'_>,
) -> Result<(), OutOfMemory>
    requires stands { stands world.now.births.tokens key ≡ true }
    requires name { name_of world.now.births.tokens key ≡ (token.now).birth }
    ensures ok { Puts into.old.items into.new.items
        (token_row world.now.rows (shown_token (key, token.now))) result }
    ensures err { OnErr result (BeginsWith into.new.items into.old.items) }
    ensures capacity { vec_capacity into.old ≤ vec_capacity into.new }
    ensures wanting { OnErr result (LacksRoom into.old
        (token_row world.now.rows (shown_token (key, token.now)))) }
{
    put_object(into, ObjectKind::Token, token.birth)?;
    put_row_token(into, b",\"token\":", &token.token)?;
    put_number_or_null_under(into, b",\"level\":", level_of(token))?;
    put_counts(into, world, Object::Token(key))?;
    put(into, b"\n")
}

// The token at a place, in the order of making.
fn token_at<'a, 't>(world: &'a World<'t>, place: usize) -> (Key, &'a TokenRow<'t>)
    requires { place < length world.now.rows.tokens }
    ensures row { slice_get world.now.rows.tokens place
        ≡ Some (shown_token (result.0, result.1.now)) }
    ensures stands { stands world.now.births.tokens result.0 ≡ true }
    ensures name { name_of world.now.births.tokens result.0 ≡ (result.1.now).birth }
{
    world.tokens().row(place)
}

/// The tokens, a line each.
pub(crate) fn put_tokens(into: &mut Vec<u8>, world: &World) -> Result<(), OutOfMemory>
    ensures ok { Puts into.old.items into.new.items
        (lines (token_row world.now.rows) world.now.rows.tokens) result }
    ensures err { OnErr result (BeginsWith into.new.items into.old.items) }
    ensures capacity { vec_capacity into.old ≤ vec_capacity into.new }
    ensures wanting { OnErr result (LacksRoom into.old
        (lines (token_row world.now.rows) world.now.rows.tokens)) }
{
    for place in 0..world.tokens().count() {
        let (key, token) = token_at(world, place);
        put_token_row(into, world, key, token)?;
    }
    Ok(())
}

fn put_token_name(into: &mut Vec<u8>, name: &[u8], token: &Token) -> Result<(), OutOfMemory>
    ensures ok { Puts into.old.items into.new.items
        (token_name_row (record { name = name.now; token = token.now })) result }
    ensures err { OnErr result (BeginsWith into.new.items into.old.items) }
    ensures capacity { vec_capacity into.old ≤ vec_capacity into.new }
    ensures wanting { OnErr result (LacksRoom into.old
        (token_name_row (record { name = name.now; token = token.now }))) }
{
    put(into, b"\"token_name ")?;
    put_name(into, name)?;
    put_token_under(into, b"\",\"token\":", token)?;
    put(into, b"\n")
}

// The name of a token at a place, in the order of naming.
fn token_name_at<'a>(world: &'a World<'_>, place: usize) -> (&'a [u8], &'a Token)
    requires { place < length world.now.rows.token_names }
    ensures { slice_get world.now.rows.token_names place
        ≡ Some (record { name = result.0.now; token = result.1.now }) }
{
    world.token_names().name_at(place)
}

/// The names of tokens, a line each.
pub(crate) fn put_token_names(into: &mut Vec<u8>, world: &World) -> Result<(), OutOfMemory>
    ensures ok { Puts into.old.items into.new.items
        (lines token_name_row world.now.rows.token_names) result }
    ensures err { OnErr result (BeginsWith into.new.items into.old.items) }
    ensures capacity { vec_capacity into.old ≤ vec_capacity into.new }
    ensures wanting { OnErr result (LacksRoom into.old
        (lines token_name_row world.now.rows.token_names)) }
{
    for place in 0..world.token_names().count() {
        let (name, token) = token_name_at(world, place);
        put_token_name(into, name, token)?;
    }
    Ok(())
}
