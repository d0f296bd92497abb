// What a call on a process or a thread is of: the caller's own, or what a handle names.
ghost use Rattle.std.specs.Prelude.{◌≡◌, IfOk, Some, option_map, true};
ghost use Rattle.lpc_base.specs.Rows.{has};
ghost use Rattle.lpc_death.specs.Ends.{living_process, living_thread};
ghost use Rattle.lpc_model.specs.Found.{is_table, live_thread};
ghost use Rattle.lpc_model.specs.SoundWaits.{IsSoundWorld};
ghost use Rattle.lpc_model.specs.Targets as targets;
ghost use Rattle.lpc_rows.specs.Clauses.{Answers, born_thread, has_process, thread_row};
ghost use Rattle.lpc_rows.specs.Ready.{caller, is_ready, thread_in};
ghost use Rattle.lpc_model.specs.declared.line.ProcArg.TheVariants.{By};

use lpc_base::Status;
use lpc_base::status::{INVALID_CID, INVALID_HANDLE};
use lpc_homes::Object;
use lpc_model::{ObjectKind, ProcArg};
use lpc_procs::BornThread;
use lpc_steps::object_at;
use lpc_world::World;

/// The rights of a handle that a call makes to a process or a thread.
pub(crate) const LIFE_ACCESS: u32 = 1;

/// The right to a process or a thread that the calls on one want.
const LIFE_RIGHT: u32 = 1;

/// The number of the caller's process, or of the one that a handle names: INVALID_HANDLE where no handle of the
/// caller's process has the value, OBJECT_TYPE_MISMATCH where it names no process, ACCESS_DENIED where it lacks the
/// right.
pub(crate) fn process_target(world: &World, by: u32, target: ProcArg) -> Result<u32, Status>
    requires { is_ready world.now.rows by ≡ true }
    ensures { result
        ≡ targets.process_target world.now.rows (caller world.now.rows by) target }
{
    let handle = match target {
        ProcArg::Current => return Ok(world.caller(by).process),
        ProcArg::By(handle) => handle,
    };
    match object_at(world, by, handle, ObjectKind::Process, LIFE_RIGHT)? {
        Object::Process(birth) => world.process_born(birth).ok_or(INVALID_HANDLE),
        Object::Port(_) | Object::Thread(_) | Object::Section(_) | Object::Token(_) => {
            unreachable!()
        },
    }
}

/// The live process that a call is to end: as `process_target`, and INVALID_CID where it has ended.
pub(crate) fn living_process(world: &World, by: u32, target: ProcArg) -> Result<u32, Status>
    requires ready { is_ready world.now.rows by ≡ true }
    requires sound { IsSoundWorld world.now.rows }
    ensures process { result ≡ living_process world.now.rows (caller world.now.rows by) target }
    ensures stands { IfOk result (λ pid. has_process world.now.rows pid ≡ true) }
    ensures table { IfOk result (λ pid. has (is_table pid) world.now.rows.handles ≡ true) }
{
    let pid = process_target(world, by, target)?;
    if !world.is_live(pid) {
        return Err(INVALID_CID);
    }
    Ok(pid)
}

/// The thread that a handle names: INVALID_HANDLE where no handle of the caller's process has the value,
/// OBJECT_TYPE_MISMATCH where it names no thread, ACCESS_DENIED where it lacks the right.
fn named_thread(world: &World, by: u32, handle: u32) -> Result<BornThread, Status>
    requires { is_ready world.now.rows by ≡ true }
    ensures thread { Answers result (λ t. thread_in (thread_row world.now.rows t.number))
        (targets.thread_target world.now.rows (caller world.now.rows by) (By handle)) }
    ensures row { IfOk result (λ t.
        option_map born_thread (thread_row world.now.rows t.number) ≡ Some t) }
{
    match object_at(world, by, handle, ObjectKind::Thread, LIFE_RIGHT)? {
        Object::Thread(birth) => world.thread_born(birth).ok_or(INVALID_HANDLE),
        Object::Port(_) | Object::Process(_) | Object::Section(_) | Object::Token(_) => {
            unreachable!()
        },
    }
}

/// The number of the thread that a call is to end, which lives: the caller, or the one that a handle names.
/// INVALID_HANDLE where no handle of the caller's process has the value, OBJECT_TYPE_MISMATCH where it names no thread,
/// ACCESS_DENIED where it lacks the right, INVALID_CID where the thread has ended.
pub(crate) fn living_thread(world: &World, by: u32, target: ProcArg) -> Result<u32, Status>
    requires ready { is_ready world.now.rows by ≡ true }
    ensures thread { Answers result (caller world.now.rows)
        (living_thread world.now.rows (caller world.now.rows by) target) }
    ensures live { IfOk result (λ n.
        live_thread world.now.rows n ≡ Some (caller world.now.rows n)) }
{
    let handle = match target {
        ProcArg::Current => return Ok(by),
        ProcArg::By(handle) => handle,
    };
    let thread = named_thread(world, by, handle)?;
    if !thread.live {
        return Err(INVALID_CID);
    }
    Ok(thread.number)
}
