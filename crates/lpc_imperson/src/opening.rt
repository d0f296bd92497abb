// The calls that make a token as an object: of the one as which a thread acts, and of its process's.
ghost use Rattle.std.specs.Prelude.{◌≡◌, ◌≤◌, ◌<◌, ◌+◌, Err, IfErr, IsErr, MatchResult, Ok, OnErr, OnOk, true};
ghost use Rattle.lpc_base.specs.Rows.{has};
ghost use Rattle.lpc_base.specs.declared.limits.TheConstants.{HANDLE_LIMIT, LINES_LIMIT};
ghost use Rattle.lpc_imperson.specs.Calls.{HasCaller, lacks_token_room, opening};
ghost use Rattle.lpc_model.specs.Found.{is_table};
ghost use Rattle.lpc_model.specs.Impersonation as impersonation;
ghost use Rattle.lpc_model.specs.Lines.{open_process_token, open_thread_token};
ghost use Rattle.lpc_model.specs.Tests as tests;
ghost use Rattle.lpc_model.specs.declared.entry.CallName.TheVariants.{NtOpenProcessToken, NtOpenThreadToken};
ghost use Rattle.lpc_rows.specs.Called.{MayServe, service};
ghost use Rattle.lpc_rows.specs.Callers.{shown_caller};
ghost use Rattle.lpc_rows.specs.Capacity.{KeepsOtherPlaces, handle_places};
ghost use Rattle.lpc_rows.specs.Clauses.{HasHandleRoom, HasSmallLoad};
ghost use Rattle.lpc_rows.specs.Does.{Took};
ghost use Rattle.lpc_rows.specs.Kept.{HasWholeBudget, Same, grown_handles, grown_tokens};
ghost use Rattle.lpc_rows.specs.Ready.{HasRoom, caller, is_ready};

use lpc_base::status::{CANT_OPEN_ANONYMOUS, NO_TOKEN, SUCCESS};
use lpc_base::{OutOfMemory, Status};
use lpc_model::{CallName, Entries, Entry, Outcome, handle_field, refuse};
use lpc_procs::Caller;
use lpc_steps::{give_handle, handles_test};
use lpc_tokens::level::ANONYMOUS;
use lpc_tokens::{Effective, Impersonation, TokenRow};
use lpc_world::{Object, World};

/// The rights of a handle that a call makes to a token.
const TOKEN_ACCESS: u32 = 1;

/// The token as which a thread acts for a client: NO_TOKEN where it has none of its own, CANT_OPEN_ANONYMOUS where
/// nobody may know its client by it.
fn own_test<'t>(world: &World<'t>, tid: u32) -> Result<Impersonation<'t>, Status>
    requires { is_ready world.now.rows tid ≡ true }
    ensures { result ≡ impersonation.own_test (caller world.now.rows tid) }
{
    // Called for its clause: the thread's row stands.
    world.caller(tid);
    let Some(own) = world.own_token(tid) else {
        return Err(NO_TOKEN);
    };
    if own.level == ANONYMOUS {
        return Err(CANT_OPEN_ANONYMOUS);
    }
    Ok(own.copy())
}

/// What the token shows that is made of the one as which a thread acts, unless it is refused.
#[tactic(auto, unfolding(lpc_model::specs::Impersonation::nt_open_thread_token))]
fn thread_content<'t>(world: &World<'t>, tid: u32) -> Result<Effective<'t>, Status>
    requires { is_ready world.now.rows tid ≡ true }
    ensures found { let by = caller world.now.rows tid in
        let found = service world.now.rows tid open_thread_token in
        MatchResult result
        (λ content. found ≡ Ok (opening world.now.rows by NtOpenThreadToken content))
        (λ s. found ≡ Err s) }
    ensures few { let by = caller world.now.rows tid in
        OnOk result (HasSmallLoad world.now.rows by.process) }
{
    let own = own_test(world, tid)?;
    handles_test(world, world.caller(tid).process, 1)?;
    Ok(Effective {
        token: own.token,
        level: Some(own.level),
    })
}

/// What the token shows that is made of the one of a thread's process, unless it is refused.
#[tactic(auto, unfolding(lpc_model::specs::Impersonation::nt_open_process_token))]
fn process_content<'t>(world: &World<'t>, tid: u32) -> Result<Effective<'t>, Status>
    requires { is_ready world.now.rows tid ≡ true }
    ensures found { let by = caller world.now.rows tid in
        let found = service world.now.rows tid open_process_token in
        MatchResult result
        (λ content. found ≡ Ok (opening world.now.rows by NtOpenProcessToken content))
        (λ s. found ≡ Err s) }
    ensures few { let by = caller world.now.rows tid in
        OnOk result (HasSmallLoad world.now.rows by.process) }
{
    let by = world.caller(tid);
    handles_test(world, by.process, 1)?;
    Ok(Effective {
        token: world.process_token(by.process).copy(),
        level: None,
    })
}

/// Makes room for a token and its maker's handle to it.
fn reserve(world: &mut World, by: &Caller) -> Result<(), OutOfMemory>
    requires { has (is_table by.now.process) world.old.rows.handles ≡ true }
    ensures same { Same world.old world.new }
    ensures token { OnOk result (0 < world.new.room.tokens) }
    ensures handle { OnOk result (HasHandleRoom world.new by.now.process) }
    ensures wanting { OnErr result
        (lacks_token_room world.old (shown_caller by.now) ≡ true) }
    ensures capacity { let new = world.new.capacity in
        let old = world.old.capacity in
        new ≡ record old { tokens = new.tokens; handles = new.handles } }
    ensures asked_tokens { let new = world.new.capacity in
        new.tokens ≤ grown_tokens world.old 1 }
    ensures asked_handles { let pid = by.now.process in
        handle_places world.new.capacity pid ≤ grown_handles world.old pid 1 }
    ensures other_places { KeepsOtherPlaces by.now.process world.old.capacity world.new.capacity }
{
    world.tokens_reserve(1)?;
    world.handles_reserve(by.process, 1)
}

/// A token enters the world under the next birth of its maker, with a handle for the maker's process.
fn open<'t>(
    world: &mut World<'t>,
    by: &Caller,
    call: CallName,
    content: Effective<'t>,
    out: &mut Entries,
)
    requires spare { 1 ≤ out.old.spare }
    requires room { 0 < world.old.room.tokens }
    requires handles { HasHandleRoom world.old by.now.process }
    requires budget { HasWholeBudget world.old }
    requires thread { HasCaller world.old.rows by.now }
    requires table { has (is_table by.now.process) world.old.rows.handles ≡ true }
    requires few { tests.handle_load world.old.rows by.now.process < HANDLE_LIMIT }
    ensures takes { let steps = opening world.old.rows (shown_caller by.now) call content.entry in
        Took steps world.old world.new out.old out.new }
    ensures calls { world.new.calls ≡ world.old.calls }
    ensures capacity { world.new.capacity ≡ world.old.capacity }
    ensures spare { out.new.spare + 1 ≡ out.old.spare }
{
    let birth = world.procs_draw_birth(by.number);
    let token = world.tokens_insert_reserved(TokenRow {
        birth,
        token: content.token,
        level: content.level,
    });
    let value = give_handle(world, by.process, Object::Token(token), TOKEN_ACCESS);
    out.push(Entry::Answer {
        tid: by.number,
        call,
        status: SUCCESS,
        fields: handle_field(value),
    });
}

/// `NtOpenThreadToken`: makes a token of the one as which the caller acts for a client, with a handle for the caller's
/// process.
///
/// Refusals, in this order: NO_TOKEN where the caller has no token of its own; CANT_OPEN_ANONYMOUS where that has level
/// 0; QUOTA_EXCEEDED where the process has 256 handles, with those that its waiting connects are to get. OutOfMemory
/// comes only where it isn't refused and there is no room for the token or for its handle; nothing has changed then but
/// the room.
pub fn nt_open_thread_token(
    world: &mut World,
    by: u32,
    out: &mut Entries,
) -> Result<Outcome, OutOfMemory>
    requires ready { is_ready world.old.rows by ≡ true }
    requires room { HasRoom world.old out.old }
    requires calls { world.old.calls < LINES_LIMIT }
    ensures serves { MayServe by open_thread_token result world.old world.new out.old out.new }
    ensures spare { OnOk result (out.new.spare + 1 ≡ out.old.spare) }
    ensures wanting { let by = caller world.old.rows by in
        OnErr result (lacks_token_room world.old by ≡ true) }
    ensures room_stays { IsErr (service world.old.rows by open_thread_token) →
        world.new.room ≡ world.old.room }
    ensures unasked { IsErr (service world.old.rows by open_thread_token) →
        world.new.capacity ≡ world.old.capacity }
    ensures capacity { let new = world.new.capacity in
        let old = world.old.capacity in
        new ≡ record old { tokens = new.tokens; handles = new.handles } }
    ensures asked_tokens { let new = world.new.capacity in
        new.tokens ≤ grown_tokens world.old 1 }
    ensures asked_handles { let by = caller world.old.rows by in
        handle_places world.new.capacity by.process ≤ grown_handles world.old by.process 1 }
    ensures other_places { let by = caller world.old.rows by in
        KeepsOtherPlaces by.process world.old.capacity world.new.capacity }
{
    let caller = world.caller(by);
    let content = match thread_content(world, by) {
        Ok(content) => content,
        Err(status) => {
            world.begin_call();
            return Ok(refuse(caller.number, CallName::NtOpenThreadToken, status, out));
        }
    };
    reserve(world, &caller)?;
    world.begin_call();
    open(world, &caller, CallName::NtOpenThreadToken, content, out);
    Ok(Outcome::Answered(SUCCESS))
}

/// `NtOpenProcessToken`: makes a token of the one of the caller's process, with a handle for that process.
///
/// Refusal: QUOTA_EXCEEDED where the process has 256 handles, with those that its waiting connects are to get.
/// OutOfMemory comes only where it isn't refused and there is no room for the token or for its handle; nothing has
/// changed then but the room.
pub fn nt_open_process_token(
    world: &mut World,
    by: u32,
    out: &mut Entries,
) -> Result<Outcome, OutOfMemory>
    requires ready { is_ready world.old.rows by ≡ true }
    requires room { HasRoom world.old out.old }
    requires calls { world.old.calls < LINES_LIMIT }
    ensures serves { MayServe by open_process_token result world.old world.new out.old out.new }
    ensures spare { OnOk result (out.new.spare + 1 ≡ out.old.spare) }
    ensures wanting { let by = caller world.old.rows by in
        OnErr result (lacks_token_room world.old by ≡ true) }
    ensures room_stays { IsErr (service world.old.rows by open_process_token) →
        world.new.room ≡ world.old.room }
    ensures unasked { IsErr (service world.old.rows by open_process_token) →
        world.new.capacity ≡ world.old.capacity }
    ensures capacity { let new = world.new.capacity in
        let old = world.old.capacity in
        new ≡ record old { tokens = new.tokens; handles = new.handles } }
    ensures asked_tokens { let new = world.new.capacity in
        new.tokens ≤ grown_tokens world.old 1 }
    ensures asked_handles { let by = caller world.old.rows by in
        handle_places world.new.capacity by.process ≤ grown_handles world.old by.process 1 }
    ensures other_places { let by = caller world.old.rows by in
        KeepsOtherPlaces by.process world.old.capacity world.new.capacity }
{
    let caller = world.caller(by);
    let content = match process_content(world, by) {
        Ok(content) => content,
        Err(status) => {
            world.begin_call();
            return Ok(refuse(caller.number, CallName::NtOpenProcessToken, status, out));
        }
    };
    reserve(world, &caller)?;
    world.begin_call();
    open(world, &caller, CallName::NtOpenProcessToken, content, out);
    Ok(Outcome::Answered(SUCCESS))
}
