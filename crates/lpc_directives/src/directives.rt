// The directives that make processes, threads, directories and links, and give tokens names: refusals in their order,
// else the steps.
ghost use Rattle.std.specs.Prelude.{◌≡◌, ◌<◌, ◌≤◌, Err, false, IfErr, IsErr, IsOk, length, MatchResult, Ok, OnErr, OnOk, option_copied, true};
ghost use Rattle.lpc_model.specs.Found.{was_process, was_thread};
ghost use Rattle.lpc_model.specs.Machine as model;
ghost use Rattle.lpc_model.specs.Machine.{boot_line, dir_line, link_line, thread_line, token_line};
ghost use Rattle.lpc_rows.specs.Bound.{status_of_binding};
ghost use Rattle.lpc_procs.specs.Procs.{IsNumber};
ghost use Rattle.lpc_rows.specs.Does.{Directs};
ghost use Rattle.lpc_rows.specs.Capacity.{KeepsPlaces, KeepsViewPlaces, but_names};
ghost use Rattle.lpc_rows.specs.Kept.{grown_messages, grown_processes, grown_threads, grown_waits, lacks_name_room, lacks_process_room, lacks_thread_room};
ghost use Rattle.lpc_directives.specs.Room.{lacks_token_name_room};
ghost use Rattle.lpc_base.specs.declared.limits.TheConstants.{LINES_LIMIT};
ghost use Rattle.lpc_tokens.specs.declared.names.TheConstants.{TOKEN_NAME_LIMIT};

use lpc_base::status::{OBJECT_NAME_COLLISION, OBJECT_NAME_NOT_FOUND, SUCCESS};
use lpc_base::{Birth, OutOfMemory, Status};
use lpc_names::{BindFault, status_of};
use lpc_sid::Token;
use lpc_steps::{thread_reserve, thread_test};
use lpc_tokens::TokenRef;
use lpc_world::World;

/// What a directive makes has maker 0 and its own number as ordinal, and is of its own process.
fn directive_birth(number: u32, process: u32) -> Birth
    ensures { result ≡ model.directive_birth number process }
{
    Birth {
        maker: 0,
        ordinal: number,
        process,
    }
}

/// The status of a directive that binds a name.
fn bound_status(bound: Result<(), BindFault>) -> Result<Status, OutOfMemory>
    ensures { result ≡ status_of_binding bound }
{
    match bound {
        Ok(()) => Ok(SUCCESS),
        Err(BindFault::Name(fault)) => Ok(status_of(fault)),
        Err(BindFault::OutOfMemory) => Err(OutOfMemory),
    }
}

/// A token has the name that a `boot` gives, where it gives one; OBJECT_NAME_NOT_FOUND where none has.
fn token_test(world: &World, name: Option<&[u8]>) -> Result<(), Status>
    ensures { let found = model.boot_token world.now.rows (option_copied name.entry) in
        MatchResult result (λ u. IsOk found) (λ s. found ≡ Err s) }
{
    match name {
        Some(name) => match world.named_token(name) {
            Some(_) => Ok(()),
            None => Err(OBJECT_NAME_NOT_FOUND),
        },
        None => Ok(()),
    }
}

/// The token that a `boot` names, which stands, and where it names none the local system's.
fn boot_token<'t>(world: &World<'t>, name: Option<&[u8]>) -> TokenRef<'t>
    requires { IsOk (model.boot_token world.now.rows (option_copied name)) }
    ensures { model.boot_token world.now.rows (option_copied name.entry) ≡ Ok result }
{
    let Some(name) = name else {
        return world.system_token();
    };
    match world.named_token(name) {
        Some(token) => token.copy(),
        None => unreachable!(),
    }
}

/// Why a `boot` makes no process: no token has the name that it gives, or a number was ever used.
#[tactic(auto, unfolding(lpc_model::specs::Machine::boot_line))]
fn boot_test(world: &World, pid: u32, tid: u32, token: Option<&[u8]>) -> Result<(), Status>
    ensures refused { let line = boot_line world.now.rows pid tid (option_copied token.entry) in
        IfErr result (λ s. line ≡ Err s) }
    ensures token { let found = model.boot_token world.now.rows (option_copied token.entry) in
        OnOk result (IsOk found) }
    ensures process { OnOk result (was_process world.now.rows pid ≡ false) }
    ensures thread { OnOk result (was_thread world.now.rows tid ≡ false) }
{
    token_test(world, token)?;
    if world.was_process(pid) || world.was_thread(tid) {
        return Err(OBJECT_NAME_COLLISION);
    }
    Ok(())
}

/// `boot`: makes a process without a maker, and its first thread. The process has the token of a name, and where none is
/// given that of the local system.
///
/// Refusals, in this order: OBJECT_NAME_NOT_FOUND where no token has the name that is given; OBJECT_NAME_COLLISION where
/// the number was ever used for a process, or the other for a thread. It wants for memory only where there is no room for
/// a process with a thread; then nothing has changed but the room.
#[tactic(auto, unfolding(lpc_model::specs::Machine::boot_line))]
pub fn boot(
    world: &mut World,
    pid: u32,
    tid: u32,
    token: Option<&[u8]>,
) -> Result<Status, OutOfMemory>
    requires calls { world.old.calls < LINES_LIMIT }
    requires process { IsNumber pid }
    requires thread { IsNumber tid }
    ensures directs { let line = boot_line world.old.rows pid tid (option_copied token.entry) in
        Directs result line world.old world.new }
    ensures room_stays { let line = boot_line world.old.rows pid tid (option_copied token.entry) in
        IsErr line → world.new.room ≡ world.old.room }
    ensures unasked { let line = boot_line world.old.rows pid tid (option_copied token.entry) in
        IsErr line → world.new.capacity ≡ world.old.capacity }
    ensures wanting { OnErr result (lacks_process_room world.old ≡ true) }
    ensures capacity { let new = world.new.capacity in
        let old = world.old.capacity in
        new ≡ record old {
          processes = new.processes;
          threads = new.threads;
          waits = new.waits;
          messages = new.messages;
          handles = new.handles;
          views = new.views;
        } }
    ensures places { KeepsPlaces world.old.capacity world.new.capacity }
    ensures view_places { KeepsViewPlaces world.old.capacity world.new.capacity }
    ensures asked_processes { let new = world.new.capacity in
        new.processes ≤ grown_processes world.old 1 }
    ensures asked_threads { let new = world.new.capacity in
        new.threads ≤ grown_threads world.old 1 }
    ensures asked_waits { let new = world.new.capacity in new.waits ≤ grown_waits world.old 1 }
    ensures asked_messages { let new = world.new.capacity in
        new.messages ≤ grown_messages world.old 1 }
{
    if let Err(status) = boot_test(world, pid, tid, token) {
        world.begin_call();
        return Ok(status);
    }
    thread_reserve(world)?;
    world.procs_reserve(1, 1)?;
    world.begin_call();
    let content = boot_token(world, token);
    world.procs_add_process(pid, None, directive_birth(pid, pid), &content);
    world.procs_add_thread(tid, pid, directive_birth(tid, pid));
    Ok(SUCCESS)
}

/// `token`: gives a token a name, of at most 32 bytes, by which `boot` finds it from then on.
///
/// Refusal: OBJECT_NAME_COLLISION where a token has the name. It wants for memory only where there is no room for the
/// name of a token; then nothing has changed but the room.
#[tactic(auto, unfolding(lpc_model::specs::Machine::token_line))]
pub fn token(world: &mut World, name: &[u8], content: &Token) -> Result<Status, OutOfMemory>
    requires calls { world.old.calls < LINES_LIMIT }
    requires short { length name.now ≤ TOKEN_NAME_LIMIT }
    ensures directs { let line = token_line world.old.rows name.now content.now in
        Directs result line world.old world.new }
    ensures room_stays { IsErr (token_line world.old.rows name.now content.now) →
        world.new.room ≡ world.old.room }
    ensures unasked { IsErr (token_line world.old.rows name.now content.now) →
        world.new.capacity ≡ world.old.capacity }
    ensures wanting { OnErr result (lacks_token_name_room world.old ≡ true) }
    ensures births { world.new.births ≡ world.old.births }
    ensures capacity { world.new.capacity ≡ world.old.capacity }
{
    if world.named_token(name).is_some() {
        world.begin_call();
        return Ok(OBJECT_NAME_COLLISION);
    }
    world.token_names_reserve(1)?;
    world.begin_call();
    world.names_token(name, content.copy());
    Ok(SUCCESS)
}

/// `thread`: makes a further thread of a live process.
///
/// Refusals, in this order: INVALID_CID without a live process of that number; OBJECT_NAME_COLLISION where the
/// number was ever used for a thread; QUOTA_EXCEEDED where the process has 64 live threads. It wants for memory only
/// where there is no room for a thread with its wait and its message; then nothing has changed but the room.
#[tactic(auto, unfolding(lpc_model::specs::Machine::thread_line))]
pub fn thread(world: &mut World, tid: u32, pid: u32) -> Result<Status, OutOfMemory>
    requires calls { world.old.calls < LINES_LIMIT }
    requires thread { IsNumber tid }
    ensures directs { Directs result (thread_line world.old.rows tid pid) world.old world.new }
    ensures room_stays { IsErr (thread_line world.old.rows tid pid) →
        world.new.room ≡ world.old.room }
    ensures unasked { IsErr (thread_line world.old.rows tid pid) →
        world.new.capacity ≡ world.old.capacity }
    ensures wanting { OnErr result (lacks_thread_room world.old ≡ true) }
    ensures capacity { let new = world.new.capacity in
        let old = world.old.capacity in
        new ≡ record old { threads = new.threads; waits = new.waits; messages = new.messages } }
    ensures asked_threads { let new = world.new.capacity in
        new.threads ≤ grown_threads world.old 1 }
    ensures asked_waits { let new = world.new.capacity in new.waits ≤ grown_waits world.old 1 }
    ensures asked_messages { let new = world.new.capacity in
        new.messages ≤ grown_messages world.old 1 }
{
    if let Err(status) = thread_test(world, tid, pid) {
        world.begin_call();
        return Ok(status);
    }
    thread_reserve(world)?;
    world.procs_reserve(0, 1)?;
    world.begin_call();
    world.procs_add_thread(tid, pid, directive_birth(tid, pid));
    Ok(SUCCESS)
}

/// `dir`: makes a directory of the name space.
///
/// Refusal: the fault of the path, or OBJECT_NAME_COLLISION where something stands there. It wants for memory only
/// where there is no room for a name; then nothing has changed but the room.
#[tactic(auto, unfolding(lpc_model::specs::Machine::dir_line))]
pub fn directory(world: &mut World, path: &[u8]) -> Result<Status, OutOfMemory>
    requires calls { world.old.calls < LINES_LIMIT }
    ensures directs { Directs result (dir_line world.old.rows path.now) world.old world.new }
    ensures room_stays { IsErr (dir_line world.old.rows path.now) →
        world.new.room ≡ world.old.room }
    ensures unasked { IsErr (dir_line world.old.rows path.now) →
        world.new.capacity ≡ world.old.capacity }
    ensures wanting { OnErr result (lacks_name_room world.old ≡ true) }
    ensures births { world.new.births ≡ world.old.births }
    ensures capacity { but_names world.new.capacity ≡ but_names world.old.capacity }
{
    let status = bound_status(world.names_add_directory(path))?;
    world.begin_call();
    Ok(status)
}

/// `link`: makes a link of the name space, to a target that need not stand.
///
/// Refusals, in this order: the fault of the target's form; the fault of the path, or OBJECT_NAME_COLLISION where
/// something stands there. It wants for memory only where there is no room for a name; then nothing has changed but
/// the room.
#[tactic(auto, unfolding(lpc_model::specs::Machine::link_line))]
pub fn link(world: &mut World, path: &[u8], target: &[u8]) -> Result<Status, OutOfMemory>
    requires calls { world.old.calls < LINES_LIMIT }
    ensures directs { Directs result
        (link_line world.old.rows path.now target.now) world.old world.new }
    ensures room_stays { IsErr (link_line world.old.rows path.now target.now) →
        world.new.room ≡ world.old.room }
    ensures unasked { IsErr (link_line world.old.rows path.now target.now) →
        world.new.capacity ≡ world.old.capacity }
    ensures wanting { OnErr result (lacks_name_room world.old ≡ true) }
    ensures births { world.new.births ≡ world.old.births }
    ensures capacity { but_names world.new.capacity ≡ but_names world.old.capacity }
{
    let status = bound_status(world.names_add_link(path, target))?;
    world.begin_call();
    Ok(status)
}
