// Processes and threads.
ghost use Rattle.std.specs.Prelude.{◌≡◌, ◌<◌, ◌≤◌, Some, length, map, option_copied, option_map, slice_get, OnErr, vec_capacity};
ghost use Rattle.std.specs.List.{flat_map};
ghost use Rattle.lpc_rows.specs.Shown.{shown_process, shown_thread};
ghost use Rattle.lpc_transcript.specs.Printing.{BeginsWith, LacksRoom, Puts};
ghost use Rattle.lpc_states.specs.Rows.{lines, process_row, thread_row};
ghost use Rattle.lpc_states.specs.Values.{behind_comma, impersonation_text, listed, or_null, port_text};

use crate::counts::put_counts;
use crate::tokens::put_row_token;
use lpc_base::{Birth, OutOfMemory};
use lpc_model::ObjectKind;
use lpc_procs::{ProcessRow, Registration, ThreadRow};
use lpc_states::{
    put_decimal_under, put_flag_under, put_hex_or_null_under, put_leveled,
    put_number_or_null_under, put_object, put_port_or_null_under,
};
use lpc_tokens::Impersonation;
use lpc_transcript::put;
use lpc_world::{Object, World};

// The name of a port that is told of exceptions.
fn event_port(port: Option<Registration>) -> Option<Birth>
    ensures { result ≡ option_map (λ r. r.birth) port }
{
    match port {
        Some(port) => Some(port.birth),
        None => None,
    }
}

fn put_process(
    into: &mut Vec<u8>,
    world: &World,
    process: &ProcessRow<'_>,
) -> Result<(), OutOfMemory>
    ensures ok { Puts into.old.items into.new.items
        (process_row world.now.rows (shown_process process.now)) result }
    ensures err { OnErr result (BeginsWith into.new.items into.old.items) }
    ensures capacity { vec_capacity into.old ≤ vec_capacity into.new }
    ensures wanting { OnErr result (LacksRoom into.old
        (process_row world.now.rows (shown_process process.now))) }
{
    put_object(into, ObjectKind::Process, process.birth)?;
    put_decimal_under(into, b",\"number\":", process.number)?;
    put_number_or_null_under(into, b",\"maker\":", process.maker)?;
    put_row_token(into, b",\"token\":", &process.token)?;
    put_port_or_null_under(into, b",\"debug_port\":", event_port(process.debug_port))?;
    put_port_or_null_under(
        into,
        b",\"exception_port\":",
        event_port(process.exception_port),
    )?;
    put_hex_or_null_under(into, b",\"doom\":", process.doom)?;
    put_counts(into, world, Object::Process(process.birth))?;
    put(into, b"\n")
}

// The process at a place, in the order of making.
fn process_at<'a, 't>(world: &'a World<'t>, place: usize) -> &'a ProcessRow<'t>
    requires { place < length world.now.rows.processes }
    ensures { slice_get world.now.rows.processes place ≡ Some (shown_process result.now) }
{
    world.procs().process_at(place)
}

/// The processes, a line each.
pub(crate) fn put_processes(into: &mut Vec<u8>, world: &World) -> Result<(), OutOfMemory>
    ensures ok { Puts into.old.items into.new.items
        (lines (process_row world.now.rows) world.now.rows.processes) result }
    ensures err { OnErr result (BeginsWith into.new.items into.old.items) }
    ensures capacity { vec_capacity into.old ≤ vec_capacity into.new }
    ensures wanting { OnErr result (LacksRoom into.old
        (lines (process_row world.now.rows) world.now.rows.processes)) }
{
    for place in 0..world.procs().processes() {
        put_process(into, world, process_at(world, place))?;
    }
    Ok(())
}

#[tactic(auto, using(std::proofs::Common::append_assoc, lpc_transcript::proofs::Begins::begins_before))]
fn put_further_port(into: &mut Vec<u8>, port: &Registration) -> Result<(), OutOfMemory>
    ensures ok { Puts into.old.items into.new.items
        (behind_comma port_text (port.now).birth) result }
    ensures err { OnErr result (BeginsWith into.new.items into.old.items) }
    ensures capacity { vec_capacity into.old ≤ vec_capacity into.new }
    ensures wanting { OnErr result (LacksRoom into.old (behind_comma port_text (port.now).birth)) }
{
    put(into, b",")?;
    put_object(into, ObjectKind::Port, port.birth)
}

#[tactic(auto, using(std::proofs::Common::append_assoc, lpc_transcript::proofs::Begins::begins_before))]
fn put_further_ports(into: &mut Vec<u8>, ports: &[Registration]) -> Result<(), OutOfMemory>
    ensures ok { Puts into.old.items into.new.items
        (flat_map (behind_comma port_text) (map (λ r. r.birth) ports.now)) result }
    ensures err { OnErr result (BeginsWith into.new.items into.old.items) }
    ensures capacity { vec_capacity into.old ≤ vec_capacity into.new }
    ensures wanting { OnErr result (LacksRoom into.old
        (flat_map (behind_comma port_text) (map (λ r. r.birth) ports.now))) }
{
    for port in ports {
        put_further_port(into, port)?;
    }
    Ok(())
}

// The ports that a thread registered.
fn put_registrations(into: &mut Vec<u8>, ports: &[Registration]) -> Result<(), OutOfMemory>
    ensures ok { Puts into.old.items into.new.items
        (listed port_text (map (λ r. r.birth) ports.now)) result }
    ensures err { OnErr result (BeginsWith into.new.items into.old.items) }
    ensures capacity { vec_capacity into.old ≤ vec_capacity into.new }
    ensures wanting { OnErr result (LacksRoom into.old
        (listed port_text (map (λ r. r.birth) ports.now))) }
{
    match ports {
        [] => put(into, b"[]"),
        [first, others @ ..] => {
            put(into, b"[")?;
            put_object(into, ObjectKind::Port, first.birth)?;
            put_further_ports(into, others)?;
            put(into, b"]")
        }
    }
}

// The token as which a thread acts.
fn put_own(into: &mut Vec<u8>, own: Option<&Impersonation<'_>>) -> Result<(), OutOfMemory>
    ensures ok { Puts into.old.items into.new.items
        (or_null impersonation_text (option_copied own.entry)) result }
    ensures err { OnErr result (BeginsWith into.new.items into.old.items) }
    ensures capacity { vec_capacity into.old ≤ vec_capacity into.new }
    ensures wanting { OnErr result (LacksRoom into.old
        (or_null impersonation_text (option_copied own.entry))) }
{
    match own {
        Some(own) => put_leveled(into, &own.token, Some(own.level)),
        None => put(into, b"null"),
    }
}

fn put_thread(into: &mut Vec<u8>, world: &World, thread: &ThreadRow<'_>) -> Result<(), OutOfMemory>
    ensures ok { Puts into.old.items into.new.items
        (thread_row world.now.rows (shown_thread thread.now)) result }
    ensures err { OnErr result (BeginsWith into.new.items into.old.items) }
    ensures capacity { vec_capacity into.old ≤ vec_capacity into.new }
    ensures wanting { OnErr result (LacksRoom into.old
        (thread_row world.now.rows (shown_thread thread.now))) }
{
    put_object(into, ObjectKind::Thread, thread.birth)?;
    put_decimal_under(into, b",\"number\":", thread.number)?;
    put_decimal_under(into, b",\"process\":", thread.process)?;
    put_flag_under(into, b",\"live\":", thread.live)?;
    put_decimal_under(into, b",\"next_identifier\":", thread.next_identifier)?;
    put_decimal_under(into, b",\"next_ordinal\":", thread.next_ordinal)?;
    put(into, b",\"registrations\":")?;
    put_registrations(into, thread.registered.as_slice())?;
    put(into, b",\"acts_as\":")?;
    put_own(into, thread.own.as_ref())?;
    put_counts(into, world, Object::Thread(thread.birth))?;
    put(into, b"\n")
}

// The thread at a place, in the order of making.
fn thread_at<'a, 't>(world: &'a World<'t>, place: usize) -> &'a ThreadRow<'t>
    requires { place < length world.now.rows.threads }
    ensures { slice_get world.now.rows.threads place ≡ Some (shown_thread result.now) }
{
    world.procs().thread_at(place)
}

/// The threads, a line each.
pub(crate) fn put_threads(into: &mut Vec<u8>, world: &World) -> Result<(), OutOfMemory>
    ensures ok { Puts into.old.items into.new.items
        (lines (thread_row world.now.rows) world.now.rows.threads) result }
    ensures err { OnErr result (BeginsWith into.new.items into.old.items) }
    ensures capacity { vec_capacity into.old ≤ vec_capacity into.new }
    ensures wanting { OnErr result (LacksRoom into.old
        (lines (thread_row world.now.rows) world.now.rows.threads)) }
{
    for place in 0..world.procs().threads() {
        put_thread(into, world, thread_at(world, place))?;
    }
    Ok(())
}
