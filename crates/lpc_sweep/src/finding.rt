// The oldest row of each kind that no row counts for.
ghost use Rattle.std.specs.Prelude.{◌≡◌, ◌<◌, false, true, IfNone, IfSome, Some, length, not};
ghost use Rattle.lpc_base.specs.Rows.{has};
ghost use Rattle.lpc_model.specs.Found.{is_born_process, is_born_thread, is_section, is_token, process_name, section_name, thread_name, token_name};
ghost use Rattle.lpc_model.specs.Linked.{HasHeldPorts, HasHeldSections, HasHeldTokens};
ghost use Rattle.lpc_model.specs.Sweep.{is_unheld};
ghost use Rattle.lpc_sweep.specs.Clauses.{birth_in_place, has_port, is_unheld_at, oldest_port, oldest_process, oldest_section, oldest_thread, oldest_token, process_in_place, section_in_place, some_section, some_token, thread_in_place, token_in_place};
ghost use Rattle.lpc_sweep.specs.Sweeping.{CanSweep, HasHeldProcesses, HasHeldThreads};
ghost use Rattle.lpc_rows.specs.Clauses.{birth_at, name_at, some_birth};
ghost use Rattle.lpc_rows.specs.Held.{has_holders};
ghost use Rattle.lpc_rows.specs.Names.{name_of, stands};
ghost use Rattle.lpc_rows.specs.Shown.{object_stands};

use lpc_base::Birth;
use lpc_procs::Life;
use lpc_slots::Key;
use lpc_world::{Object, World};

/// How many ports there are.
pub fn port_count(world: &World) -> usize
    ensures { result ≡ length world.now.rows.ports }
{
    world.ports().count()
}

/// The port at a place, in the order of making.
fn port_key(world: &World, place: usize) -> Key
    requires { place < length world.now.rows.ports }
    ensures stands { stands world.now.births.ports result ≡ true }
    ensures port { birth_in_place world.now place ≡ Some (birth_at world.now result) }
{
    world.ports().key_at(place)
}

/// A row counts for the port. The other end of a pair counts, so that of most ports the row alone tells it. A name leads
/// to ports that have a handle, so that no name is asked for.
pub fn is_held(world: &World, port: Key) -> bool
    requires can { CanSweep world.now.rows }
    requires stands { stands world.now.births.ports port ≡ true }
    ensures { result ≡ not (is_unheld_at world.now port) }
{
    if let Some(_) = world.port(port).pair {
        return true;
    }
    world.is_used(port)
}

/// The oldest port that no row holds: None exactly where each port is held.
pub fn unheld_port(world: &World) -> Option<Key>
    requires { CanSweep world.now.rows }
    ensures none { IfNone result (HasHeldPorts world.now.rows) }
    ensures oldest { some_birth world.now result ≡ oldest_port world.now.rows }
    ensures stands { IfSome result (λ key. stands world.now.births.ports key ≡ true) }
    ensures row { IfSome result (λ key. has_port world.now key ≡ true) }
    ensures unheld { IfSome result (λ key. is_unheld_at world.now key ≡ true) }
{
    for place in 0..port_count(world) {
        let port = port_key(world, place);
        if !is_held(world, port) {
            return Some(port);
        }
    }
    None
}

/// An object that isn't a port has a handle, or is held otherwise: a process or thread by a live thread, a section by a
/// view or an offer. Nothing but handles holds a token. No handle is asked for where it is held otherwise.
fn is_object_held(world: &World, object: Object, held: bool) -> bool
    requires stands { object_stands world.now.births object ≡ true }
    requires held { held ≡ has_holders world.now.rows (name_at world.now object) }
    ensures { result ≡ not (is_unheld world.now.rows (name_at world.now object)) }
{
    held || world.has_handles(object)
}

/// How many threads have a row.
pub fn thread_count(world: &World) -> usize
    ensures { result ≡ length world.now.rows.threads }
{
    world.procs().threads()
}

/// The thread at a place, in the order of making, and whether a live thread counts for it, which is itself.
fn thread_life(world: &World, place: usize) -> Life
    requires { place < length world.now.rows.threads }
    ensures birth { thread_in_place world.now place ≡ Some result.birth }
    ensures live { result.live ≡ has_holders world.now.rows (thread_name result.birth) }
{
    world.procs().thread_in(place)
}

/// The oldest thread that no row holds: None exactly where each thread is held.
pub fn unheld_thread(world: &World) -> Option<Birth>
    ensures none { IfNone result (HasHeldThreads world.now.rows) }
    ensures oldest { result ≡ oldest_thread world.now.rows }
    ensures row { IfSome result
        (λ b. has (is_born_thread b) world.now.rows.threads ≡ true) }
    ensures unheld { IfSome result (λ b. is_unheld world.now.rows (thread_name b) ≡ true) }
{
    for place in 0..thread_count(world) {
        let thread = thread_life(world, place);
        if !is_object_held(world, Object::Thread(thread.birth), thread.live) {
            return Some(thread.birth);
        }
    }
    None
}

/// How many processes have a row.
pub fn process_count(world: &World) -> usize
    ensures { result ≡ length world.now.rows.processes }
{
    world.procs().processes()
}

/// The process at a place, in the order of making, and whether a live thread counts for it.
fn process_life(world: &World, place: usize) -> Life
    requires { place < length world.now.rows.processes }
    ensures birth { process_in_place world.now place ≡ Some result.birth }
    ensures live { result.live ≡ has_holders world.now.rows (process_name result.birth) }
{
    world.procs().process_in(place)
}

/// The oldest process that no row holds: None exactly where each process is held.
pub fn unheld_process(world: &World) -> Option<Birth>
    ensures none { IfNone result (HasHeldProcesses world.now.rows) }
    ensures oldest { result ≡ oldest_process world.now.rows }
    ensures row { IfSome result
        (λ b. has (is_born_process b) world.now.rows.processes ≡ true) }
    ensures unheld { IfSome result (λ b. is_unheld world.now.rows (process_name b) ≡ true) }
{
    for place in 0..process_count(world) {
        let process = process_life(world, place);
        if !is_object_held(world, Object::Process(process.birth), process.live) {
            return Some(process.birth);
        }
    }
    None
}

/// How many sections there are.
pub fn section_count(world: &World) -> usize
    ensures { result ≡ length world.now.rows.sections }
{
    world.sections().count()
}

/// The section at a place, in the order of making.
fn section_key(world: &World, place: usize) -> Key
    requires { place < length world.now.rows.sections }
    ensures stands { stands world.now.births.sections result ≡ true }
    ensures birth { section_in_place world.now place
        ≡ Some (name_of world.now.births.sections result) }
{
    let (key, _) = world.sections().row(place);
    key
}

/// The oldest section that no row holds: None exactly where each section is held.
pub fn unheld_section(world: &World) -> Option<Key>
    ensures none { IfNone result (HasHeldSections world.now.rows) }
    ensures oldest { some_section world.now result ≡ oldest_section world.now.rows }
    ensures stands { IfSome result (λ key. stands world.now.births.sections key ≡ true) }
    ensures row { IfSome result (λ key.
        has (is_section (name_of world.now.births.sections key)) world.now.rows.sections ≡ true) }
    ensures unheld { IfSome result (λ key.
        is_unheld world.now.rows (section_name (name_of world.now.births.sections key)) ≡ true) }
{
    for place in 0..section_count(world) {
        let section = section_key(world, place);
        if !is_object_held(
            world,
            Object::Section(section),
            world.is_shown_or_offered(section),
        ) {
            return Some(section);
        }
    }
    None
}

/// How many tokens there are.
pub fn token_count(world: &World) -> usize
    ensures { result ≡ length world.now.rows.tokens }
{
    world.tokens().count()
}

/// The token at a place, in the order of making.
fn token_key(world: &World, place: usize) -> Key
    requires { place < length world.now.rows.tokens }
    ensures stands { stands world.now.births.tokens result ≡ true }
    ensures birth { token_in_place world.now place
        ≡ Some (name_of world.now.births.tokens result) }
{
    let (key, _) = world.tokens().row(place);
    key
}

/// The oldest token that no handle names: None exactly where each has one.
pub fn unheld_token(world: &World) -> Option<Key>
    ensures none { IfNone result (HasHeldTokens world.now.rows) }
    ensures oldest { some_token world.now result ≡ oldest_token world.now.rows }
    ensures stands { IfSome result (λ key. stands world.now.births.tokens key ≡ true) }
    ensures row { IfSome result (λ key.
        has (is_token (name_of world.now.births.tokens key)) world.now.rows.tokens ≡ true) }
    ensures unheld { IfSome result (λ key.
        is_unheld world.now.rows (token_name (name_of world.now.births.tokens key)) ≡ true) }
{
    for place in 0..token_count(world) {
        let token = token_key(world, place);
        if !is_object_held(world, Object::Token(token), false) {
            return Some(token);
        }
    }
    None
}
