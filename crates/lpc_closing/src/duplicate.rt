// The call that makes a further handle.
ghost use Rattle.lpc_rows.specs.Capacity.{KeepsOtherPlaces, handle_places};
ghost use Rattle.lpc_rows.specs.Kept.{grown_handles};
ghost use Rattle.std.specs.Prelude.{◌≡◌, ◌<◌, Ok, Err, IsErr, true, IfOk, OnOk, OnErr, MatchResult, ◌+◌, ◌≤◌};
ghost use Rattle.lpc_base.specs.declared.limits.TheConstants.{LINES_LIMIT};
ghost use Rattle.lpc_closing.specs.Calls.{granting, lacks_handle_room};
ghost use Rattle.lpc_model.specs.Lines.{duplicate_object};
ghost use Rattle.lpc_rows.specs.Clauses.{HasSmallLoad};
ghost use Rattle.lpc_rows.specs.Called.{MayServe, service};
ghost use Rattle.lpc_rows.specs.Ready.{HasRoom, caller, is_ready};
ghost use Rattle.lpc_rows.specs.Shown.{object_stands};

use lpc_base::status::{ACCESS_DENIED, SUCCESS};
use lpc_base::{OutOfMemory, Status};
use lpc_handles::Row;
use lpc_model::{CallName, Entries, Entry, Outcome, handle_field, refuse};
use lpc_steps::{give_handle, handles_test, own_handle};
use lpc_world::{Object, World};

/// The handle that a thread's process is to get: INVALID_HANDLE where no handle has the value, ACCESS_DENIED where a
/// right is asked for that the handle lacks, QUOTA_EXCEEDED where the process has 256 handles, with those that its
/// waiting connects are to get.
#[tactic(auto, unfolding(lpc_model::specs::Counts::nt_duplicate_object))]
fn duplicate_test(
    world: &World,
    tid: u32,
    handle: u32,
    access: Option<u32>,
) -> Result<Row<Object>, Status>
    requires { is_ready world.now.rows tid ≡ true }
    ensures found { let found = service world.now.rows tid (duplicate_object handle access) in
        MatchResult result
        (λ row. found ≡ Ok (granting world.now (caller world.now.rows tid) handle row))
        (λ s. found ≡ Err s) }
    ensures stands { IfOk result (λ row. object_stands world.now.births row.object ≡ true) }
    ensures few { let by = caller world.now.rows tid in
        OnOk result (HasSmallLoad world.now.rows by.process) }
{
    let row = own_handle(world, tid, handle)?;
    let access = access.unwrap_or(row.access);
    if row.access & access != access {
        return Err(ACCESS_DENIED);
    }
    handles_test(world, world.caller(tid).process, 1)?;
    Ok(Row {
        object: row.object,
        access,
    })
}

/// `NtDuplicateObject`: gives the caller's process another handle to the object of a handle, with the rights that are
/// asked for, or those of the handle where none are.
///
/// Refusals, in this order: INVALID_HANDLE where no handle of the process has the value; ACCESS_DENIED where a right is
/// asked for that the handle lacks; QUOTA_EXCEEDED where the process has 256 handles, with those that its waiting
/// connects are to get. OutOfMemory comes only where it isn't refused and there is no room for the handle; nothing has
/// changed then but the room.
pub fn nt_duplicate_object(
    world: &mut World,
    by: u32,
    handle: u32,
    access: Option<u32>,
    out: &mut Entries,
) -> Result<Outcome, OutOfMemory>
    requires ready { is_ready world.old.rows by ≡ true }
    requires room { HasRoom world.old out.old }
    requires calls { world.old.calls < LINES_LIMIT }
    ensures serves { let call = duplicate_object handle access in
        MayServe by call result world.old world.new out.old out.new }
    ensures spare { OnOk result (out.new.spare + 1 ≡ out.old.spare) }
    ensures wanting { let by = caller world.old.rows by in
        OnErr result (lacks_handle_room world.old by ≡ true) }
    ensures room_stays { let call = duplicate_object handle access in
        IsErr (service world.old.rows by call) → world.new.room ≡ world.old.room }
    ensures unasked { let call = duplicate_object handle access in
        IsErr (service world.old.rows by call) → world.new.capacity ≡ world.old.capacity }
    ensures capacity { let new = world.new.capacity in
        let old = world.old.capacity in
        new ≡ record old { handles = new.handles } }
    ensures asked_handles { let by = caller world.old.rows by in
        handle_places world.new.capacity by.process ≤ grown_handles world.old by.process 1 }
    ensures other_places { let by = caller world.old.rows by in
        KeepsOtherPlaces by.process world.old.capacity world.new.capacity }
{
    let caller = world.caller(by);
    let granted = match duplicate_test(world, by, handle, access) {
        Ok(granted) => granted,
        Err(status) => {
            world.begin_call();
            return Ok(refuse(caller.number, CallName::NtDuplicateObject, status, out));
        }
    };
    world.handles_reserve(caller.process, 1)?;
    world.begin_call();
    let value = give_handle(world, caller.process, granted.object, granted.access);
    out.push(Entry::Answer {
        tid: caller.number,
        call: CallName::NtDuplicateObject,
        status: SUCCESS,
        fields: handle_field(value),
    });
    Ok(Outcome::Answered(SUCCESS))
}
