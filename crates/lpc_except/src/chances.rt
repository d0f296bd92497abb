// The chances that an exception has.
ghost use Rattle.std.specs.Prelude.{◌≡◌, ◌+◌, ◌≤◌, IfSome, option_map, true};
ghost use Rattle.lpc_except.specs.Chances.{IfHeard, IsHeard, later_rows, shown_hearing, shown_next};
ghost use Rattle.lpc_model.specs.Raise as model;
ghost use Rattle.lpc_rows.specs.Clauses.{has_process};
ghost use Rattle.lpc_rows.specs.Shown.{shown_chance};

use lpc_slots::Key;
use lpc_steps::route;
use lpc_waits::{Chance, Raised};
use lpc_world::World;

/// Where an event is sent: the chance, the port, and the queue that it will enter.
#[derive(Clone, Copy)]
pub struct Hearing {
    /// The chance of which it tells.
    pub chance: Chance,
    /// The port on which it is sent.
    pub port: Key,
    /// The queue that it will enter.
    pub queue: Key,
}

/// What becomes of an exception.
#[derive(Clone, Copy)]
pub enum Next {
    /// Its frame handlers handle it.
    Handled,
    /// An event is sent.
    Heard(Hearing),
    /// Nothing handles it.
    Unhandled,
}

/// Where the event of a chance is sent: None where the process has no port for it, or that port has no route.
fn hearing_at(world: &World, pid: u32, chance: Chance) -> Option<Hearing>
    requires process { has_process world.now.rows pid ≡ true }
    ensures found { option_map (shown_hearing world.now) result
        ≡ model.hearing_at world.now.rows pid (shown_chance chance) }
    ensures heard { IfSome result (λ h. IsHeard world.now h) }
    ensures chance { IfSome result (λ h. h.chance ≡ chance) }
{
    let port = world.event_port(pid, chance)?;
    let queue = route(world, port)?;
    Some(Hearing {
        chance,
        port,
        queue,
    })
}

/// What becomes of an exception that comes to the exception port.
fn from_exception(world: &World, pid: u32) -> Next
    requires process { has_process world.now.rows pid ≡ true }
    ensures next { shown_next world.now result ≡ model.from_exception world.now.rows pid }
    ensures heard { IfHeard result (λ h. IsHeard world.now h) }
    ensures last { IfHeard result (λ h. later_rows h.chance ≤ 0) }
{
    match hearing_at(world, pid, Chance::LastException) {
        Some(hearing) => Next::Heard(hearing),
        None => Next::Unhandled,
    }
}

/// What becomes of an exception that comes to the debug port for the second time.
fn from_last(world: &World, pid: u32) -> Next
    requires process { has_process world.now.rows pid ≡ true }
    ensures next { shown_next world.now result ≡ model.from_last world.now.rows pid }
    ensures heard { IfHeard result (λ h. IsHeard world.now h) }
    ensures later { IfHeard result (λ h. later_rows h.chance ≤ 3) }
{
    match hearing_at(world, pid, Chance::LastDebug) {
        Some(hearing) => Next::Heard(hearing),
        None => from_exception(world, pid),
    }
}

/// What becomes of an exception that comes to the frame handlers, which handle it or not.
fn from_frames(world: &World, pid: u32, handled: bool) -> Next
    requires process { has_process world.now.rows pid ≡ true }
    ensures next { shown_next world.now result ≡ model.from_frames world.now.rows pid handled }
    ensures heard { IfHeard result (λ h. IsHeard world.now h) }
    ensures later { IfHeard result (λ h. later_rows h.chance ≤ 3) }
{
    if handled {
        Next::Handled
    } else {
        from_last(world, pid)
    }
}

/// What becomes of an exception that is raised, which the frame handlers handle or not.
pub(crate) fn from_first(world: &World, pid: u32, handled: bool) -> Next
    requires process { has_process world.now.rows pid ≡ true }
    ensures next { shown_next world.now result ≡ model.from_first world.now.rows pid handled }
    ensures heard { IfHeard result (λ h. IsHeard world.now h) }
    ensures later { IfHeard result (λ h. later_rows h.chance ≤ 6) }
{
    match hearing_at(world, pid, Chance::FirstDebug) {
        Some(hearing) => Next::Heard(hearing),
        None => from_frames(world, pid, handled),
    }
}

/// What becomes of an exception whose event wasn't handled.
pub(crate) fn behind_chance(world: &World, pid: u32, raised: Raised) -> Next
    requires process { has_process world.now.rows pid ≡ true }
    ensures next { shown_next world.now result
        ≡ model.behind_chance world.now.rows pid raised.handled (shown_chance raised.chance) }
    ensures heard { IfHeard result (λ h. IsHeard world.now h) }
    ensures later { IfHeard result (λ h. later_rows h.chance + 3 ≤ later_rows raised.chance) }
{
    match raised.chance {
        Chance::FirstDebug => from_frames(world, pid, raised.handled),
        Chance::LastDebug => from_exception(world, pid),
        Chance::LastException => Next::Unhandled,
    }
}
