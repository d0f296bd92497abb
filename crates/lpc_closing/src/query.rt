// The call that tells of an object.
ghost use Rattle.std.specs.Prelude.{◌≡◌, ◌<◌, Ok, Err, true, IfOk, MatchResult, ◌+◌};
ghost use Rattle.lpc_base.specs.declared.limits.TheConstants.{LINES_LIMIT};
ghost use Rattle.lpc_closing.specs.Calls.{telling};
ghost use Rattle.lpc_model.specs.Lines.{query_object};
ghost use Rattle.lpc_rows.specs.Called.{Served, service};
ghost use Rattle.lpc_steps.specs.Clauses.{has_no_read};
ghost use Rattle.lpc_rows.specs.Ready.{HasRoom, caller, is_ready};

use lpc_base::Status;
use lpc_base::status::SUCCESS;
use lpc_model::{CallName, Entries, Entry, Fields, Outcome, object_fields, refuse};
use lpc_steps::{kind_of, own_handle};
use lpc_world::World;

/// What is told of the object of a handle: INVALID_HANDLE where no handle has the value.
#[tactic(auto, unfolding(lpc_model::specs::Counts::nt_query_object))]
fn counts(world: &World, tid: u32, handle: u32) -> Result<Fields, Status>
    requires { is_ready world.now.rows tid ≡ true }
    ensures told { let found = service world.now.rows tid (query_object handle) in
        MatchResult result
        (λ fields. found ≡ Ok (telling (caller world.now.rows tid) fields))
        (λ s. found ≡ Err s) }
    ensures plain { IfOk result (λ fields. has_no_read fields ≡ true) }
{
    let row = own_handle(world, tid, handle)?;
    Ok(object_fields(
        kind_of(row.object),
        row.access,
        world.handles_to(row.object),
        world.pointers_to(row.object),
    ))
}

/// `NtQueryObject`: tells of the object that a handle names: its kind, the rights of the handle, how many handles of
/// all processes name it, and how many rows count for it.
///
/// Refusal: INVALID_HANDLE where no handle of the caller's process has the value. It takes no memory.
pub fn nt_query_object(world: &mut World, by: u32, handle: u32, out: &mut Entries) -> Outcome
    requires ready { is_ready world.old.rows by ≡ true }
    requires room { HasRoom world.old out.old }
    requires calls { world.old.calls < LINES_LIMIT }
    ensures served { let call = query_object handle in
        Served by call result world.old world.new out.old out.new }
    ensures spare { out.new.spare + 1 ≡ out.old.spare }
    ensures capacity { world.new.capacity ≡ world.old.capacity }
{
    let caller = world.caller(by);
    world.begin_call();
    match counts(world, by, handle) {
        Ok(fields) => {
            out.push(Entry::Answer {
                tid: caller.number,
                call: CallName::NtQueryObject,
                status: SUCCESS,
                fields,
            });
            Outcome::Answered(SUCCESS)
        }
        Err(status) => refuse(caller.number, CallName::NtQueryObject, status, out),
    }
}
