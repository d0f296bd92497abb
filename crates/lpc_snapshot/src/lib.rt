//! The rows of a world as they stand, as text: a line each.
#![tactic(auto)]

ghost use Rattle.std.specs.Prelude.{◌≤◌, OnErr, vec_capacity};
ghost use Rattle.lpc_transcript.specs.Printing.{BeginsWith, LacksRoom, Puts};
ghost use Rattle.lpc_states.specs.Rows.{rows_text};

mod counts;
mod handles;
mod lives;
mod messages;
mod names;
mod ports;
mod sections;
mod tokens;
mod views;
mod waits;

use handles::put_handles;
use lives::{put_processes, put_threads};
use lpc_base::OutOfMemory;
use lpc_world::World;
use messages::put_messages;
use names::put_names;
use ports::put_ports;
use sections::put_sections;
use tokens::{put_token_names, put_tokens};
use views::put_views;
use waits::{put_marks, put_waits};

/// Appends all rows of the world, a line each: processes, threads, waits, marks, handles, ports, messages, names,
/// sections, views, tokens, and the names of tokens; of each kind in the order in which the world has them. The form is
/// this project's own.
///
/// OutOfMemory comes only where there was no room for that behind the text; the text begins as it was then. Its
/// capacity never shrinks.
pub fn print_rows(world: &World, into: &mut Vec<u8>) -> Result<(), OutOfMemory>
    ensures ok { Puts into.old.items into.new.items (rows_text world.now.rows) result }
    ensures err { OnErr result (BeginsWith into.new.items into.old.items) }
    ensures capacity { vec_capacity into.old ≤ vec_capacity into.new }
    ensures wanting { OnErr result (LacksRoom into.old (rows_text world.now.rows)) }
{
    put_processes(into, world)?;
    put_threads(into, world)?;
    put_waits(into, world)?;
    put_marks(into, world)?;
    put_handles(into, world)?;
    put_ports(into, world)?;
    put_messages(into, world)?;
    put_names(into, world)?;
    put_sections(into, world)?;
    put_views(into, world)?;
    put_tokens(into, world)?;
    put_token_names(into, world)
}
