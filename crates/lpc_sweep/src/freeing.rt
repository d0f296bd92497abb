// Rows that no row counts for go, one after the other.
ghost use Rattle.std.specs.Prelude.{◌≡◌, ◌≤◌, [], false, true};
ghost use Rattle.lpc_model.specs.Basics.{world_after, Frees};
ghost use Rattle.lpc_model.specs.Linked.{AreLivesHeld, HasHeldPorts, HasHeldSections, HasHeldTokens};
ghost use Rattle.lpc_model.specs.Sweep as model;
ghost use Rattle.lpc_model.specs.Sweep.{is_unheld};
ghost use Rattle.lpc_sweep.specs.Clauses.{is_unheld_at};
ghost use Rattle.lpc_rows.specs.Names.{stands};
ghost use Rattle.lpc_sweep.specs.Sweeping.{CanSweep, HasHeldThreads, SweepsAhead};
ghost use Rattle.lpc_rows.specs.Clauses.{after, name_at};
ghost use Rattle.lpc_rows.specs.Capacity.{but_lives};
ghost use Rattle.lpc_rows.specs.Kept.{GainsNoLives, Roomy};
ghost use Rattle.lpc_rows.specs.Shown.{object_stands};

use crate::finding::{
    is_held, port_count, process_count, section_count, thread_count, token_count, unheld_port,
    unheld_process, unheld_section, unheld_thread, unheld_token,
};
use lpc_base::Birth;
use lpc_slots::Key;
use lpc_world::{LifeSuspect, Object, Suspect, World};

/// How many ports are looked at one by one, before all are.
const MOST_LOOKS: u32 = 16;

/// How many threads and processes are, before all are: those that a world remembers, each of which is looked at once, and
/// one look that finds none.
const MOST_LIVES: u32 = 17;

/// The row of an object that no row counts for goes. Its room is spare then.
fn free(world: &mut World, object: Object)
    requires stands { object_stands world.old.births object ≡ true }
    requires can { CanSweep world.old.rows }
    requires unheld { is_unheld world.old.rows (name_at world.old object) ≡ true }
    ensures rows { world.new.rows ≡ after world.old (Frees (name_at world.old object)) }
    ensures calls { world.new.calls ≡ world.old.calls }
    ensures made { world.new.made ≤ world.old.made }
    ensures loose { world.new.loose ≡ true }
    ensures room { Roomy world.old.room world.new.room }
    ensures capacity { but_lives world.new.capacity ≡ but_lives world.old.capacity }
    ensures lives { GainsNoLives world.old world.new }
{
    match object {
        Object::Port(port) => world.ports_free(port),
        Object::Process(birth) => world.processes_free(birth),
        Object::Thread(birth) => world.threads_free(birth),
        Object::Section(section) => world.sections_free(section),
        Object::Token(token) => world.tokens_free(token),
    }
}

/// While there is a token that no handle names, it goes. None is looked at where the counts tell that each has a handle.
fn free_tokens(world: &mut World)
    requires can { CanSweep world.old.rows }
    ensures ahead { SweepsAhead world.old world.new }
    ensures held { HasHeldTokens world.new.rows }
{
    if world.tokens_are_held() {
        return;
    }
    for freed in 0..token_count(world) {
        let _ = freed;
        match unheld_token(world) {
            Some(token) => free(world, Object::Token(token)),
            None => return,
        }
    }
}

/// While there is a section that no row counts for, it goes. None is looked at where the counts tell that each has a
/// handle or a view.
fn free_sections(world: &mut World)
    requires can { CanSweep world.old.rows }
    ensures ahead { SweepsAhead world.old world.new }
    ensures held { HasHeldSections world.new.rows }
{
    if world.sections_are_held() {
        return;
    }
    for freed in 0..section_count(world) {
        let _ = freed;
        match unheld_section(world) {
            Some(section) => free(world, Object::Section(section)),
            None => return,
        }
    }
}

/// While there is a thread that no row counts for, it goes.
fn free_threads(world: &mut World)
    requires can { CanSweep world.old.rows }
    ensures ahead { SweepsAhead world.old world.new }
    ensures held { HasHeldThreads world.new.rows }
{
    for freed in 0..thread_count(world) {
        let _ = freed;
        match unheld_thread(world) {
            Some(birth) => free(world, Object::Thread(birth)),
            None => return,
        }
    }
}

/// While there is a process that no row counts for, it goes. Some row counts for each thread.
fn free_processes(world: &mut World)
    requires can { CanSweep world.old.rows }
    requires threads { HasHeldThreads world.old.rows }
    ensures ahead { SweepsAhead world.old world.new }
    ensures held { AreLivesHeld world.new.rows }
{
    for freed in 0..process_count(world) {
        let _ = freed;
        match unheld_process(world) {
            Some(birth) => free(world, Object::Process(birth)),
            None => return,
        }
    }
}

/// No row counts for an object.
fn is_uncounted(world: &World, object: Object) -> bool
    requires { object_stands world.now.births object ≡ true }
    ensures { result ≡ is_unheld world.now.rows (name_at world.now object) }
{
    world.pointers_to(object) == 0
}

/// A thread that may have lost the last row that counted for it is looked at: where no row counts for it, it goes. Where
/// one does it is suspected no longer.
fn look_at_thread(world: &mut World, birth: Birth)
    requires { CanSweep world.old.rows }
    ensures { SweepsAhead world.old world.new }
{
    if is_uncounted(world, Object::Thread(birth)) {
        free(world, Object::Thread(birth));
    } else {
        world.clear_thread(birth);
    }
}

/// A process that may have is looked at likewise.
fn look_at_process(world: &mut World, birth: Birth)
    requires { CanSweep world.old.rows }
    ensures { SweepsAhead world.old world.new }
{
    if is_uncounted(world, Object::Process(birth)) {
        free(world, Object::Process(birth));
    } else {
        world.clear_process(birth);
    }
}

/// The threads and the processes that may have lost the last row that counted for them are looked at, where these are
/// few. Answers whether that was enough: then some row counts for each thread and each process.
fn free_suspected_lives(world: &mut World) -> bool
    requires can { CanSweep world.old.rows }
    ensures ahead { SweepsAhead world.old world.new }
    ensures held { result ≡ true → AreLivesHeld world.new.rows }
{
    for looked in 0..MOST_LIVES {
        let _ = looked;
        match world.life_suspect() {
            LifeSuspect::Nobody => return true,
            LifeSuspect::Thread(birth) => look_at_thread(world, birth),
            LifeSuspect::Process(birth) => look_at_process(world, birth),
            LifeSuspect::Anybody => return false,
        }
    }
    false
}

/// Each thread and each process goes that no row counts for: of those that may have lost the last one, where these are
/// few, else of all.
fn free_lives(world: &mut World)
    requires can { CanSweep world.old.rows }
    ensures ahead { SweepsAhead world.old world.new }
    ensures held { AreLivesHeld world.new.rows }
{
    if free_suspected_lives(world) {
        return;
    }
    free_threads(world);
    free_processes(world);
}

/// While there is a port that no row counts for, it goes. Some row counts for each thread, each process, each section
/// and each token.
fn free_ports(world: &mut World)
    requires can { CanSweep world.old.rows }
    requires lives { AreLivesHeld world.old.rows }
    requires sections { HasHeldSections world.old.rows }
    requires tokens { HasHeldTokens world.old.rows }
    ensures rows { world.new.rows ≡ world_after world.old.rows (model.sweep world.old.rows) }
    ensures held { HasHeldPorts world.new.rows }
    ensures living { AreLivesHeld world.new.rows }
    ensures calls { world.new.calls ≡ world.old.calls }
    ensures made { world.new.made ≤ world.old.made }
    ensures room { Roomy world.old.room world.new.room }
    ensures capacity { but_lives world.new.capacity ≡ but_lives world.old.capacity }
    ensures lives { GainsNoLives world.old world.new }
{
    for freed in 0..port_count(world) {
        let _ = freed;
        match unheld_port(world) {
            Some(port) => free(world, Object::Port(port)),
            None => return,
        }
    }
}

/// A port stands at the key, and no row counts for it.
fn is_unheld(world: &World, port: Key) -> bool
    requires { CanSweep world.now.rows }
    ensures stands { result ≡ true → stands world.now.births.ports port ≡ true }
    ensures unheld { result ≡ true → is_unheld_at world.now port ≡ true }
    ensures held { result ≡ false
        → stands world.now.births.ports port ≡ true → is_unheld_at world.now port ≡ false }
{
    world.port_stands(port) && !is_held(world, port)
}

/// A port that may have lost the last row that counted for it is looked at: where no row counts for it, it goes. Where
/// one does, and where it doesn't stand any more, it is suspected no longer.
fn look_at(world: &mut World, port: Key)
    requires can { CanSweep world.old.rows }
    requires lives { AreLivesHeld world.old.rows }
    ensures ahead { SweepsAhead world.old world.new }
    ensures lives { AreLivesHeld world.new.rows }
{
    if is_unheld(world, port) {
        free(world, Object::Port(port));
    } else {
        world.clear_suspect(port);
    }
}

/// The ports that may have lost the last row that counted for them are looked at, and those that they named, as long as
/// they are few. Answers whether that was enough: then some row counts for each port.
fn free_suspects(world: &mut World) -> bool
    requires can { CanSweep world.old.rows }
    requires lives { AreLivesHeld world.old.rows }
    ensures ahead { SweepsAhead world.old world.new }
    ensures lives { AreLivesHeld world.new.rows }
    ensures held { result ≡ true → HasHeldPorts world.new.rows }
{
    for looked in 0..MOST_LOOKS {
        let _ = looked;
        match world.suspect() {
            Suspect::Nobody => return true,
            Suspect::Port(port) => look_at(world, port),
            Suspect::Anybody => return false,
        }
    }
    false
}

/// The ports go that no row counts for. Some row counts for each thread, each process, each section and each token.
fn free_unheld_ports(world: &mut World)
    requires can { CanSweep world.old.rows }
    requires lives { AreLivesHeld world.old.rows }
    requires sections { HasHeldSections world.old.rows }
    requires tokens { HasHeldTokens world.old.rows }
    ensures rows { world.new.rows ≡ world_after world.old.rows (model.sweep world.old.rows) }
    ensures held { HasHeldPorts world.new.rows }
    ensures living { AreLivesHeld world.new.rows }
    ensures calls { world.new.calls ≡ world.old.calls }
    ensures made { world.new.made ≤ world.old.made }
    ensures room { Roomy world.old.room world.new.room }
    ensures capacity { but_lives world.new.capacity ≡ but_lives world.old.capacity }
    ensures lives { GainsNoLives world.old world.new }
{
    if free_suspects(world) {
        return;
    }
    free_ports(world);
}

/// Each object goes that no row counts for, and then each that only those counted for: tokens, sections, the threads
/// that have ended, the processes without a live thread, and ports. There is nothing to do where no row went since the
/// last time.
fn free_unheld(world: &mut World)
    requires can { CanSweep world.old.rows }
    requires still { world.old.loose ≡ false → model.unheld world.old.rows ≡ [] }
    ensures rows { world.new.rows ≡ world_after world.old.rows (model.sweep world.old.rows) }
    ensures held { HasHeldPorts world.new.rows }
    ensures living { AreLivesHeld world.new.rows }
    ensures calls { world.new.calls ≡ world.old.calls }
    ensures made { world.new.made ≤ world.old.made }
    ensures room { Roomy world.old.room world.new.room }
    ensures capacity { but_lives world.new.capacity ≡ but_lives world.old.capacity }
    ensures lives { GainsNoLives world.old world.new }
{
    if world.is_loose() {
        free_tokens(world);
        free_sections(world);
        free_lives(world);
        free_unheld_ports(world);
    }
}

/// Each object goes that no row counts for, and then each that only those counted for. Of the threads and the processes
/// those alone are looked at that may have lost what counted for them, where these are few, and so it is with ports.
pub fn sweep(world: &mut World)
    requires can { CanSweep world.old.rows }
    requires still { world.old.loose ≡ false → model.unheld world.old.rows ≡ [] }
    ensures rows { world.new.rows ≡ world_after world.old.rows (model.sweep world.old.rows) }
    ensures calls { world.new.calls ≡ world.old.calls }
    ensures made { world.new.made ≤ world.old.made }
    ensures loose { world.new.loose ≡ false }
    ensures room { Roomy world.old.room world.new.room }
    ensures capacity { but_lives world.new.capacity ≡ but_lives world.old.capacity }
    ensures lives { GainsNoLives world.old world.new }
{
    free_unheld(world);
    world.set_still();
}
