// The call that makes a port.
ghost use Rattle.std.specs.Prelude.{◌≡◌, ◌≤◌, ◌<◌, ◌+◌, Ok, Err, None, Option, Some, IfErr, IfOk, IsOk, OnOk, OnErr, is_some, option_copied, true, IsErr};
ghost use Rattle.lpc_base.specs.Rows.{has};
ghost use Rattle.lpc_base.specs.declared.limits.TheConstants.{HANDLE_LIMIT, LINES_LIMIT};
ghost use Rattle.lpc_connect.specs.Calls.{HasCaller, creating, creating_guarded};
ghost use Rattle.lpc_rows.specs.Clauses.{HasHandleRoom, birth_at};
ghost use Rattle.lpc_connect.specs.Room.{KeepsHandleRoom, lacks_room_for};
ghost use Rattle.lpc_model.specs.Basics.{world_after};
ghost use Rattle.lpc_model.specs.Connect as connect;
ghost use Rattle.lpc_model.specs.Found.{is_table, port_row};
ghost use Rattle.lpc_model.specs.Lines.{create_port};
ghost use Rattle.lpc_model.specs.Named.{free_name};
ghost use Rattle.lpc_model.specs.Tests as tests;
ghost use Rattle.lpc_model.specs.Tests.{next_birth};
ghost use Rattle.lpc_rows.specs.Called.{MayServe, service};
ghost use Rattle.lpc_rows.specs.Does.{Took};
ghost use Rattle.lpc_rows.specs.Capacity.{KeepsOtherPlaces, but_names, handle_places};
ghost use Rattle.lpc_rows.specs.Kept.{CanMake, HasWholeBudget, grown_handles, grown_ports};
ghost use Rattle.lpc_rows.specs.Lawful.{drew};
ghost use Rattle.lpc_rows.specs.Names.{name_of, stands};
ghost use Rattle.lpc_rows.specs.Ready.{HasRoom, caller, is_ready};
ghost use Rattle.lpc_rows.specs.Callers.{as_caller, shown_caller};
ghost use Rattle.lpc_sid.specs.declared.access.Dacl.{Dacl};

use lpc_base::status::SUCCESS;
use lpc_base::{Birth, OutOfMemory, PortKind, Status};
use lpc_model::{CallName, Entries, Entry, Outcome, handle_field, refuse};
use lpc_procs::Caller;
use lpc_sid::Dacl;
use lpc_slots::Key;
use lpc_steps::{give_handle, handles_test};
use lpc_tokens::Security;
use lpc_world::{Object, World};

/// The rights of a handle that a call makes to a port.
pub(crate) const PORT_ACCESS: u32 = 0x001F_0001;

/// Why a thread's process gets no port of that name, or without one.
#[tactic(auto, unfolding(lpc_model::specs::Connect::nt_create_port))]
fn create_test(world: &World, by: &Caller, name: Option<&[u8]>) -> Result<(), Status>
    requires row { by.now ≡ as_caller (caller world.now.rows by.now.number) }
    requires table { has (is_table by.now.process) world.now.rows.handles ≡ true }
    ensures refused { (dacl : Option Dacl) →
        let call = create_port (option_copied name.entry) dacl in
        IfErr result (λ s. service world.now.rows by.now.number call ≡ Err s) }
    ensures name { let port = next_birth (shown_caller by.now) in
        OnOk result (IsOk (connect.making world.now.rows port (option_copied name.entry))) }
    ensures handles { OnOk result (IsOk (tests.handles_test world.now.rows by.now.process 1)) }
    ensures few { OnOk result (tests.handle_load world.now.rows by.now.process < HANDLE_LIMIT) }
{
    if let Some(path) = name {
        world.name_test(path)?;
    }
    handles_test(world, by.process, 1)
}

/// Makes a connection port that a path names, and answers its key.
fn make_named(world: &mut World, path: &[u8], birth: Birth) -> Key
    requires ports { 0 < world.old.room.ports }
    requires names { 0 < world.old.room.names }
    requires budget { CanMake world.old }
    requires fresh { port_row world.old.rows birth ≡ None }
    requires drawn { has (drew birth) world.old.rows.threads ≡ true }
    requires free { IsOk (free_name world.old.rows path.now) }
    ensures rows { IfOk (free_name world.old.rows path.now) (λ place.
        world.new.rows ≡ world_after world.old.rows (connect.named_steps birth place)) }
    ensures name { name_of world.new.births.ports result ≡ birth }
    ensures stands { stands world.new.births.ports result ≡ true }
    ensures calls { world.new.calls ≡ world.old.calls }
    ensures capacity { but_names world.new.capacity ≡ but_names world.old.capacity }
    ensures loose { world.new.loose ≡ world.old.loose }
    ensures made { world.new.made ≡ world.old.made + 1 }
    ensures handles { KeepsHandleRoom world.old world.new }
{
    let port = world.ports_add(PortKind::Connection, birth, None, None);
    match world.names_bind(path, port) {
        Ok(()) => port,
        Err(_) => unreachable!(),
    }
}

/// Makes a port, with or without a name, and answers its key.
fn make(world: &mut World, name: Option<&[u8]>, birth: Birth) -> Key
    requires ports { 0 < world.old.room.ports }
    requires names { is_some name ≡ true → 0 < world.old.room.names }
    requires budget { CanMake world.old }
    requires fresh { port_row world.old.rows birth ≡ None }
    requires drawn { has (drew birth) world.old.rows.threads ≡ true }
    requires free { IsOk (connect.making world.old.rows birth (option_copied name)) }
    ensures rows { IfOk (connect.making world.old.rows birth (option_copied name.entry)) (λ made.
        world.new.rows ≡ world_after world.old.rows made) }
    ensures name { name_of world.new.births.ports result ≡ birth }
    ensures stands { stands world.new.births.ports result ≡ true }
    ensures calls { world.new.calls ≡ world.old.calls }
    ensures capacity { but_names world.new.capacity ≡ but_names world.old.capacity }
    ensures loose { world.new.loose ≡ world.old.loose }
    ensures made { world.new.made ≡ world.old.made + 1 }
    ensures handles { KeepsHandleRoom world.old world.new }
{
    match name {
        None => world.ports_add(PortKind::Unnamed, birth, None, None),
        Some(path) => make_named(world, path, birth),
    }
}

/// A port is made that anyone may use, with a handle to it; its key is answered.
fn create(world: &mut World, by: &Caller, name: Option<&[u8]>, out: &mut Entries) -> Key
    requires spare { 1 ≤ out.old.spare }
    requires ports { 0 < world.old.room.ports }
    requires names { is_some name ≡ true → 0 < world.old.room.names }
    requires handles { HasHandleRoom world.old by.now.process }
    requires budget { HasWholeBudget world.old }
    requires thread { HasCaller world.old.rows by.now }
    requires table { has (is_table by.now.process) world.old.rows.handles ≡ true }
    requires few { tests.handle_load world.old.rows by.now.process < HANDLE_LIMIT }
    requires free { let port = next_birth (shown_caller by.now) in
        IsOk (connect.making world.old.rows port (option_copied name)) }
    ensures takes { let port = next_birth (shown_caller by.now) in
        IfOk (connect.making world.old.rows port (option_copied name.entry)) (λ made.
        let steps = creating world.old.rows (shown_caller by.now) made in
        Took steps world.old world.new out.old out.new) }
    ensures name { name_of world.new.births.ports result ≡ next_birth (shown_caller by.now) }
    ensures stands { stands world.new.births.ports result ≡ true }
    ensures calls { world.new.calls ≡ world.old.calls }
    ensures capacity { but_names world.new.capacity ≡ but_names world.old.capacity }
    ensures spare { out.new.spare + 1 ≡ out.old.spare }
{
    let birth = world.procs_draw_birth(by.number);
    let port = make(world, name, birth);
    let value = give_handle(world, by.process, Object::Port(port), PORT_ACCESS);
    out.push(Entry::Answer {
        tid: by.number,
        call: CallName::NtCreatePort,
        status: SUCCESS,
        fields: handle_field(value),
    });
    port
}

/// A port that is made with a name gets its access list, where one is given.
fn guard(world: &mut World, port: Key, name: Option<&[u8]>, dacl: Option<&Dacl>)
    requires { stands world.old.births.ports port ≡ true }
    ensures rows { let port = birth_at world.old port in
        let name = option_copied name.entry in
        let steps = connect.guard_steps port name (option_copied dacl.entry) in
        world.new.rows ≡ world_after world.old.rows steps }
    ensures calls { world.new.calls ≡ world.old.calls }
    ensures capacity { world.new.capacity ≡ world.old.capacity }
    ensures loose { world.new.loose ≡ world.old.loose }
{
    if name.is_none() {
        return;
    }
    if let Some(dacl) = dacl {
        world.ports_set_security(port, Security::Guarded(dacl.copy()));
    }
}

/// A port is made, with a handle to it, and with an access list where it has a name and one is given.
fn create_guarded(
    world: &mut World,
    by: &Caller,
    name: Option<&[u8]>,
    dacl: Option<&Dacl>,
    out: &mut Entries,
)
    requires spare { 1 ≤ out.old.spare }
    requires ports { 0 < world.old.room.ports }
    requires names { is_some name ≡ true → 0 < world.old.room.names }
    requires handles { HasHandleRoom world.old by.now.process }
    requires budget { HasWholeBudget world.old }
    requires thread { HasCaller world.old.rows by.now }
    requires table { has (is_table by.now.process) world.old.rows.handles ≡ true }
    requires few { tests.handle_load world.old.rows by.now.process < HANDLE_LIMIT }
    requires free { let port = next_birth (shown_caller by.now) in
        IsOk (connect.making world.old.rows port (option_copied name)) }
    ensures takes { let port = next_birth (shown_caller by.now) in
        let name = option_copied name.entry in
        IfOk (connect.making world.old.rows port name) (λ made.
        let by = shown_caller by.now in
        let steps = creating_guarded world.old.rows by name (option_copied dacl.entry) made in
        Took steps world.old world.new out.old out.new) }
    ensures calls { world.new.calls ≡ world.old.calls }
    ensures capacity { but_names world.new.capacity ≡ but_names world.old.capacity }
    ensures spare { out.new.spare + 1 ≡ out.old.spare }
{
    let port = create(world, by, name, out);
    guard(world, port, name, dacl);
}

/// `NtCreatePort`: makes a port, with a handle for the caller's process. With a name it is a connection port, which the
/// path of that name leads to from then on, and to which only those may connect whom the access list grants it, if one
/// is given; without one it is a port for the threads of the caller's process, and keeps no access list.
///
/// Refusals, in this order: the fault of the name, or OBJECT_NAME_COLLISION where something stands there;
/// QUOTA_EXCEEDED where the process has 256 handles, with those that its waiting connects are to get. OutOfMemory comes
/// only where it isn't refused and there is no room for the port, for its handle or for its name; nothing has changed
/// then but the room.
#[tactic(auto, unfolding(lpc_model::specs::Connect::nt_create_port))]
pub fn nt_create_port(
    world: &mut World,
    by: u32,
    name: Option<&[u8]>,
    dacl: Option<&Dacl>,
    out: &mut Entries,
) -> Result<Outcome, OutOfMemory>
    requires ready { is_ready world.old.rows by ≡ true }
    requires room { HasRoom world.old out.old }
    requires calls { world.old.calls < LINES_LIMIT }
    ensures serves { let named = option_copied name.entry in
        let call = create_port named (option_copied dacl.entry) in
        MayServe by call result world.old world.new out.old out.new }
    ensures room_stays { let named = option_copied name.entry in
        let call = create_port named (option_copied dacl.entry) in
        IsErr (service world.old.rows by call) → world.new.room ≡ world.old.room }
    ensures unasked { let named = option_copied name.entry in
        let call = create_port named (option_copied dacl.entry) in
        IsErr (service world.old.rows by call) → world.new.capacity ≡ world.old.capacity }
    ensures spare { OnOk result (out.old.spare ≤ out.new.spare + 2) }
    ensures wanting { let named = option_copied name.entry in
        OnErr result (lacks_room_for world.old (caller world.old.rows by) named ≡ true) }
    ensures capacity { let new = world.new.capacity in
        let old = world.old.capacity in
        new ≡ record old { ports = new.ports; names = new.names; handles = new.handles } }
    ensures asked_ports { let new = world.new.capacity in new.ports ≤ grown_ports world.old 1 }
    ensures asked_handles { let by = caller world.old.rows by in
        handle_places world.new.capacity by.process ≤ grown_handles world.old by.process 1 }
    ensures other_places { let by = caller world.old.rows by in
        KeepsOtherPlaces by.process world.old.capacity world.new.capacity }
{
    let caller = world.caller(by);
    if let Err(status) = create_test(world, &caller, name) {
        world.begin_call();
        return Ok(refuse(caller.number, CallName::NtCreatePort, status, out));
    }
    world.ports_reserve(1)?;
    world.handles_reserve(caller.process, 1)?;
    world.names_reserve(usize::from(name.is_some()))?;
    world.begin_call();
    create_guarded(world, &caller, name, dacl, out);
    Ok(Outcome::Answered(SUCCESS))
}
