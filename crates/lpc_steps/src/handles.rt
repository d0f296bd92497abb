// Handles: what a handle of a caller's process names, and a handle that a process is given.
ghost use Rattle.std.specs.Prelude.{◌+◌, ◌<◌, ◌≡◌, ◌≤◌, Err, IfOk, IsSome, Ok, OnOk, Some, true};
ghost use Rattle.lpc_base.specs.Rows.{has};
ghost use Rattle.lpc_base.specs.declared.limits.TheConstants.{HANDLE_LIMIT};
ghost use Rattle.lpc_model.specs.Found as found;
ghost use Rattle.lpc_model.specs.Found.{free_handle, is_table};
ghost use Rattle.lpc_model.specs.Tests as tests;
ghost use Rattle.lpc_model.specs.declared.entry.ObjectKind.TheVariants.{Section, Token};
ghost use Rattle.lpc_steps.specs.Clauses.{IsUnderName, handle_for, object_for, port_for};
ghost use Rattle.lpc_rows.specs.Clauses.{Answers, HasHandleRoom, HasSmallLoad, port_at, row_shown, section_at, token_at, with_handle};
ghost use Rattle.lpc_rows.specs.Kept.{CanMake, handle_room};
ghost use Rattle.lpc_rows.specs.Names.{name_of, stands};
ghost use Rattle.lpc_rows.specs.Ready.{HasRow, is_ready};
ghost use Rattle.lpc_rows.specs.Shown.{birth_of, kind_of, object_stands};

use lpc_base::Status;
use lpc_base::limits::HANDLE_LIMIT;
use lpc_base::status::{ACCESS_DENIED, INVALID_HANDLE, OBJECT_TYPE_MISMATCH, QUOTA_EXCEEDED};
use lpc_handles::Row;
use lpc_homes::Object;
use lpc_model::ObjectKind;
use lpc_ports::Port;
use lpc_slots::Key;
use lpc_world::World;

/// A handle of the thread's process: INVALID_HANDLE where no handle has the value.
pub fn own_handle(world: &World, tid: u32, value: u32) -> Result<Row<Object>, Status>
    requires { is_ready world.now.rows tid ≡ true }
    ensures row { Answers result (row_shown world.now value)
        (handle_for world.now.rows tid value) }
    ensures stands { IfOk result (λ row. object_stands world.now.births row.object ≡ true) }
    ensures object { IfOk result (λ row. HasRow world.now row.object) }
{
    let by = world.caller(tid);
    match world.handle(by.process, value) {
        Some(row) => Ok(row),
        None => Err(INVALID_HANDLE),
    }
}

/// The object that a handle of the thread's process names: INVALID_HANDLE where no handle has the value,
/// OBJECT_TYPE_MISMATCH where its object is of another kind, ACCESS_DENIED where the handle lacks a right.
pub fn object_at(
    world: &World,
    tid: u32,
    handle: u32,
    kind: ObjectKind,
    right: u32,
) -> Result<Object, Status>
    requires { is_ready world.now.rows tid ≡ true }
    ensures object { Answers result (birth_of world.now.births)
        (object_for world.now.rows tid kind right handle) }
    ensures stands { IfOk result (λ o. object_stands world.now.births o ≡ true) }
    ensures kind { IfOk result (λ o. found.same_kind (kind_of o) kind ≡ true) }
    ensures row { IfOk result (λ o. HasRow world.now o) }
{
    let row = own_handle(world, tid, handle)?;
    if !is_of_kind(row.object, kind) {
        return Err(OBJECT_TYPE_MISMATCH);
    }
    if row.access & right != right {
        return Err(ACCESS_DENIED);
    }
    Ok(row.object)
}

/// The kind of an object.
pub fn kind_of(object: Object) -> ObjectKind
    ensures { result ≡ kind_of object }
{
    match object {
        Object::Port(_) => ObjectKind::Port,
        Object::Process(_) => ObjectKind::Process,
        Object::Thread(_) => ObjectKind::Thread,
        Object::Section(_) => ObjectKind::Section,
        Object::Token(_) => ObjectKind::Token,
    }
}

/// The object is of the kind.
fn is_of_kind(object: Object, kind: ObjectKind) -> bool
    ensures { result ≡ found.same_kind (kind_of object) kind }
{
    match object {
        Object::Port(_) => matches!(kind, ObjectKind::Port),
        Object::Process(_) => matches!(kind, ObjectKind::Process),
        Object::Thread(_) => matches!(kind, ObjectKind::Thread),
        Object::Section(_) => matches!(kind, ObjectKind::Section),
        Object::Token(_) => matches!(kind, ObjectKind::Token),
    }
}

/// The port that a handle of the thread's process names, with the right to use it: INVALID_HANDLE where no handle has
/// the value, OBJECT_TYPE_MISMATCH where it names no port, ACCESS_DENIED where it lacks the right.
pub fn port_at(world: &World, tid: u32, handle: u32) -> Result<Key, Status>
    requires { is_ready world.now.rows tid ≡ true }
    ensures port { Answers result (port_at world.now) (port_for world.now.rows tid handle) }
    ensures stands { IfOk result (λ key. stands world.now.births.ports key ≡ true) }
    ensures name { IfOk result (λ key. IsUnderName world.now key) }
{
    match object_at(world, tid, handle, ObjectKind::Port, 1)? {
        Object::Port(port) => Ok(port),
        Object::Process(_) | Object::Thread(_) | Object::Section(_) | Object::Token(_) => {
            unreachable!()
        }
    }
}

/// The section that a handle of the thread's process names, with a right to it: INVALID_HANDLE where no handle has the
/// value, OBJECT_TYPE_MISMATCH where it names no section, ACCESS_DENIED where it lacks the right.
pub fn section_at(world: &World, tid: u32, handle: u32, right: u32) -> Result<Key, Status>
    requires { is_ready world.now.rows tid ≡ true }
    ensures section { Answers result (name_of world.now.births.sections)
        (object_for world.now.rows tid Section right handle) }
    ensures stands { IfOk result (λ key. stands world.now.births.sections key ≡ true) }
    ensures row { IfOk result (λ key. IsSome (section_at world.now key)) }
{
    match object_at(world, tid, handle, ObjectKind::Section, right)? {
        Object::Section(section) => Ok(section),
        Object::Port(_) | Object::Process(_) | Object::Thread(_) | Object::Token(_) => {
            unreachable!()
        }
    }
}

/// The token that a handle of the thread's process names, with a right to it: INVALID_HANDLE where no handle has the
/// value, OBJECT_TYPE_MISMATCH where it names no token, ACCESS_DENIED where it lacks the right.
pub fn token_at(world: &World, tid: u32, handle: u32, right: u32) -> Result<Key, Status>
    requires { is_ready world.now.rows tid ≡ true }
    ensures token { Answers result (name_of world.now.births.tokens)
        (object_for world.now.rows tid Token right handle) }
    ensures stands { IfOk result (λ key. stands world.now.births.tokens key ≡ true) }
    ensures row { IfOk result (λ key. IsSome (token_at world.now key)) }
{
    match object_at(world, tid, handle, ObjectKind::Token, right)? {
        Object::Token(token) => Ok(token),
        Object::Port(_) | Object::Process(_) | Object::Thread(_) | Object::Section(_) => {
            unreachable!()
        }
    }
}

/// How many handles a process has, with those that its waiting connects are to get.
fn handle_load(world: &World, pid: u32) -> usize
    requires { has (is_table pid) world.now.rows.handles ≡ true }
    ensures { result ≡ tests.handle_load world.now.rows pid }
{
    world.handles(pid).count() + world.waits().connects_of(pid)
}

/// The process may have so many more handles, of which there are at most 256; QUOTA_EXCEEDED where it would have over
/// 256 then, with those that its waiting connects are to get.
pub fn handles_test(world: &World, pid: u32, more: usize) -> Result<(), Status>
    requires table { has (is_table pid) world.now.rows.handles ≡ true }
    requires within { more ≤ HANDLE_LIMIT }
    ensures full { result ≡ tests.handles_test world.now.rows pid more }
    ensures few { OnOk result (tests.handle_load world.now.rows pid + more ≤ HANDLE_LIMIT) }
{
    if handle_load(world, pid) > HANDLE_LIMIT - more {
        return Err(QUOTA_EXCEEDED);
    }
    Ok(())
}

/// Gives a process the least free handle, and answers its value. The process has fewer than 256 handles, with those
/// that its waiting connects are to get.
pub fn give_handle(world: &mut World, pid: u32, object: Object, access: u32) -> u32
    requires table { has (is_table pid) world.old.rows.handles ≡ true }
    requires room { HasHandleRoom world.old pid }
    requires load { HasSmallLoad world.old.rows pid }
    requires budget { CanMake world.old }
    requires object { object_stands world.old.births object ≡ true }
    ensures value { result ≡ free_handle world.old.rows pid }
    ensures rows { world.new.rows ≡ with_handle world.old pid result object access }
    ensures births { world.new.births ≡ world.old.births }
    ensures calls { world.new.calls ≡ world.old.calls }
    ensures capacity { world.new.capacity ≡ world.old.capacity }
    ensures loose { world.new.loose ≡ world.old.loose }
    ensures made { world.new.made ≤ world.old.made + 1 }
    ensures places { handle_room world.old.room pid ≤ handle_room world.new.room pid + 1 }
{
    match world.handles_add(pid, object, access) {
        Ok(value) => value,
        Err(_) => unreachable!(),
    }
}
