// The call that gives a process its debug port or its exception port.
ghost use Rattle.std.specs.Prelude.{◌≡◌, ◌<◌, ◌+◌, Err, IfOk, MatchResult, Ok, OnOk, true};
ghost use Rattle.lpc_base.specs.declared.limits.TheConstants.{LINES_LIMIT};
ghost use Rattle.lpc_death.specs.Sets.{setting, unset_test};
ghost use Rattle.lpc_model.specs.Lines.{set_information_process};
ghost use Rattle.lpc_model.specs.Raise as model;
ghost use Rattle.lpc_rows.specs.Called.{Served, service};
ghost use Rattle.lpc_rows.specs.Clauses.{after, birth_at, has_process};
ghost use Rattle.lpc_rows.specs.Kept.{IsStep};
ghost use Rattle.lpc_rows.specs.Names.{stands};
ghost use Rattle.lpc_rows.specs.Ready.{HasRoom, caller, is_ready};
ghost use Rattle.lpc_rows.specs.Shown.{shown_chance};

use crate::targets::process_target;
use lpc_base::Status;
use lpc_base::status::{INVALID_CID, INVALID_PARAMETER, PORT_ALREADY_SET, SUCCESS};
use lpc_model::{CallName, Entries, Entry, Fields, Outcome, ProcArg, refuse};
use lpc_slots::Key;
use lpc_steps::port_at;
use lpc_waits::Chance;
use lpc_world::World;

/// The class of a process's debug port.
const DEBUG_CLASS: u32 = 7;

/// The class of a process's exception port.
const EXCEPTION_CLASS: u32 = 8;

/// A port that a process may get.
#[derive(Clone, Copy)]
pub struct Settable {
    /// The number of the process.
    pub process: u32,
    /// The port.
    pub port: Key,
}

/// The class is that of a port that a process may get: INVALID_PARAMETER for any other.
fn class_test(class: u32) -> Result<(), Status>
    ensures { result ≡ model.class_test class }
{
    if class == DEBUG_CLASS || class == EXCEPTION_CLASS {
        Ok(())
    } else {
        Err(INVALID_PARAMETER)
    }
}

/// The first chance at whose port the class is.
fn class_chance(class: u32) -> Chance
    ensures { shown_chance result ≡ model.class_chance class }
{
    if class == DEBUG_CLASS {
        Chance::FirstDebug
    } else {
        Chance::LastException
    }
}

/// The process lives, and has no port of the class: INVALID_CID where it has ended, INVALID_PARAMETER for a class of
/// another port, PORT_ALREADY_SET where it has that port.
fn unset_test(world: &World, pid: u32, class: u32) -> Result<(), Status>
    ensures test { result ≡ unset_test world.now.rows pid class }
    ensures process { OnOk result (has_process world.now.rows pid ≡ true) }
{
    if !world.is_live(pid) {
        return Err(INVALID_CID);
    }
    class_test(class)?;
    match world.event_port(pid, class_chance(class)) {
        Some(_) => Err(PORT_ALREADY_SET),
        None => Ok(()),
    }
}

/// The process and the port, by the refusals in their order: those of the process's handle, those of the port's,
/// INVALID_CID where the process has ended, INVALID_PARAMETER for a class of another port, PORT_ALREADY_SET where the
/// process has a port of the class.
#[tactic(auto, unfolding(lpc_model::specs::Raise::nt_set_information_process))]
fn set_test(
    world: &World,
    by: u32,
    process: ProcArg,
    class: u32,
    handle: u32,
) -> Result<Settable, Status>
    requires { is_ready world.now.rows by ≡ true }
    ensures found { let found = service world.now.rows by
        (set_information_process process class handle) in
        MatchResult result
        (λ it. found ≡ Ok (setting world.now (caller world.now.rows by) class it))
        (λ s. found ≡ Err s) }
    ensures process { IfOk result (λ it. has_process world.now.rows it.process ≡ true) }
    ensures stands { IfOk result (λ it. stands world.now.births.ports it.port ≡ true) }
{
    let pid = process_target(world, by, process)?;
    let port = port_at(world, by, handle)?;
    unset_test(world, pid, class)?;
    Ok(Settable { process: pid, port })
}

/// A process gets the port of a class.
fn set_port(world: &mut World, class: u32, pid: u32, port: Key)
    requires process { has_process world.old.rows pid ≡ true }
    requires port { stands world.old.births.ports port ≡ true }
    ensures step { let set = model.sets_port class pid (birth_at world.old port) in
        IsStep (after world.old set) world.old world.new }
    ensures loose { world.new.loose ≡ true }
    ensures capacity { world.new.capacity ≡ world.old.capacity }
{
    if class == DEBUG_CLASS {
        world.procs_set_debug_port(pid, port);
    } else {
        world.procs_set_exception_port(pid, port);
    }
}

/// `NtSetInformationProcess`: gives a process its debug port, class 7, or its exception port, class 8.
///
/// Refusals, in this order: INVALID_HANDLE where no handle of the caller's process has the value; OBJECT_TYPE_MISMATCH
/// where it names no process, or for a port no port; ACCESS_DENIED where it lacks the right; INVALID_CID where the
/// process has ended; INVALID_PARAMETER for another class; PORT_ALREADY_SET where the process has that port. It takes
/// no memory.
pub fn nt_set_information_process(
    world: &mut World,
    by: u32,
    process: ProcArg,
    class: u32,
    port: u32,
    out: &mut Entries,
) -> Outcome
    requires ready { is_ready world.old.rows by ≡ true }
    requires room { HasRoom world.old out.old }
    requires calls { world.old.calls < LINES_LIMIT }
    ensures served { let call = set_information_process process class port in
        Served by call result world.old world.new out.old out.new }
    ensures spare { out.new.spare + 1 ≡ out.old.spare }
    ensures capacity { world.new.capacity ≡ world.old.capacity }
{
    let caller = world.caller(by);
    world.begin_call();
    match set_test(world, by, process, class, port) {
        Ok(set) => {
            out.push(Entry::Answer {
                tid: caller.number,
                call: CallName::NtSetInformationProcess,
                status: SUCCESS,
                fields: Fields::none(),
            });
            set_port(world, class, set.process, set.port);
            Outcome::Answered(SUCCESS)
        }
        Err(status) => refuse(
            caller.number,
            CallName::NtSetInformationProcess,
            status,
            out,
        ),
    }
}
