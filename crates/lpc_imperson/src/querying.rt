// The call that tells of a token.
ghost use Rattle.std.specs.Prelude.{◌≡◌, ◌<◌, ◌+◌, [], ◌∷◌, Err, IfOk, IfSome, MatchResult, Ok, false, option_map, true};
ghost use Rattle.lpc_base.specs.declared.limits.TheConstants.{LINES_LIMIT};
ghost use Rattle.lpc_imperson.specs.Calls.{row_shown, telling};
ghost use Rattle.lpc_imperson.specs.Told.{is_plain, told_fields};
ghost use Rattle.lpc_model.specs.Fields as fields;
ghost use Rattle.lpc_model.specs.Impersonation as impersonation;
ghost use Rattle.lpc_model.specs.Lines.{query_information_token};
ghost use Rattle.lpc_rows.specs.Called.{Served, service};
ghost use Rattle.lpc_rows.specs.Clauses.{Answers};
ghost use Rattle.lpc_rows.specs.Ready.{HasRoom, caller, is_ready};

use arrayvec::ArrayVec;
use lpc_base::Status;
use lpc_base::status::{INVALID_PARAMETER, SUCCESS};
use lpc_model::{CallName, Entries, Entry, FieldName, Fields, Outcome, Value, refuse};
use lpc_sid::{Sid, Token};
use lpc_steps::token_at;
use lpc_tokens::{Level, TokenRow};
use lpc_world::World;

/// The right to a token that a query of one wants.
const TOKEN_RIGHT: u32 = 1;

/// The class of a token's user, of its groups, and of the level of an impersonation token; as published.
const TOKEN_USER: u32 = 1;

const TOKEN_GROUPS: u32 = 2;

const TOKEN_IMPERSONATION_LEVEL: u32 = 9;

/// What a token tells by a class: a field, or its groups, which lie in the list of entries then.
#[derive(Drop)]
enum Told {
    Fields(Fields),
    Groups(ArrayVec<Sid, 16>),
}

/// One field.
fn one_field(name: FieldName, value: Value) -> Fields
    ensures { result ≡ record { name = name; value = value } ∷ [] }
{
    let mut fields = Fields::none();
    fields.add(name, value);
    fields
}

/// The user of a token.
fn user_field(token: &Token) -> Fields
    ensures { result ≡ fields.user token.now ∷ [] }
{
    let mut sids: ArrayVec<Sid, 1> = ArrayVec::new();
    sids.push(token.copy().user);
    one_field(FieldName::User, Value::Sids(sids))
}

/// The level of an impersonation token.
fn level_field(level: Level) -> Fields
    ensures { result ≡ fields.level level ∷ [] }
{
    one_field(FieldName::Level, Value::Number(u64::from(level)))
}

/// What a token tells by a class: None for another class, and for the level of a process's token.
fn told_of(row: &TokenRow<'_>, class: u32) -> Option<Told>
    ensures told { option_map told_fields result ≡ option_map (λ field. field ∷ [])
        (impersonation.told_of (row_shown row.now) class) }
    ensures plain { IfSome result (λ told. is_plain told ≡ true) }
{
    match class {
        TOKEN_USER => Some(Told::Fields(user_field(row.token.get()))),
        TOKEN_GROUPS => Some(Told::Groups(row.token.get().copy().groups)),
        TOKEN_IMPERSONATION_LEVEL => match row.level {
            Some(level) => Some(Told::Fields(level_field(level))),
            None => None,
        },
        _ => None,
    }
}

/// The token that a handle of the thread's process names: the faults of the handle.
fn token_test<'a, 't>(
    world: &'a World<'t>,
    tid: u32,
    handle: u32,
) -> Result<&'a TokenRow<'t>, Status>
    requires { is_ready world.now.rows tid ≡ true }
    ensures { let by = caller world.now.rows tid in
        Answers result (λ row. row_shown row.now)
        (impersonation.token_test world.now.rows by handle) }
{
    let token = token_at(world, tid, handle, TOKEN_RIGHT)?;
    Ok(world.token(token))
}

/// What is told of the token of a handle by a class: the fault of the handle, INVALID_PARAMETER where the token tells
/// nothing by the class.
#[tactic(auto, unfolding(lpc_model::specs::Impersonation::nt_query_information_token))]
fn told_at(world: &World, tid: u32, handle: u32, class: u32) -> Result<Told, Status>
    requires { is_ready world.now.rows tid ≡ true }
    ensures told { let found = service world.now.rows tid
        (query_information_token handle class) in
        MatchResult result
        (λ told. found ≡ Ok (telling (caller world.now.rows tid) (told_fields told)))
        (λ s. found ≡ Err s) }
    ensures plain { IfOk result (λ told. is_plain told ≡ true) }
{
    let row = token_test(world, tid, handle)?;
    match told_of(row, class) {
        Some(told) => Ok(told),
        None => Err(INVALID_PARAMETER),
    }
}

/// `NtQueryInformationToken`: tells of the token that a handle names its user (class 1), its groups (2), or the level of
/// an impersonation token (9).
///
/// Refusals, in this order: INVALID_HANDLE where no handle of the caller's process has the value; OBJECT_TYPE_MISMATCH
/// where it names no token; ACCESS_DENIED where it lacks the right; INVALID_PARAMETER for another class, and for class 9
/// of a process's token. It takes no memory. No entry of `out` has the bytes of a memory read, or a token's groups.
pub fn nt_query_information_token(
    world: &mut World,
    by: u32,
    handle: u32,
    class: u32,
    out: &mut Entries,
) -> Outcome
    requires ready { is_ready world.old.rows by ≡ true }
    requires room { HasRoom world.old out.old }
    requires calls { world.old.calls < LINES_LIMIT }
    requires first { out.old.reads ≡ false }
    ensures served { let call = query_information_token handle class in
        Served by call result world.old world.new out.old out.new }
    ensures spare { out.new.spare + 1 ≡ out.old.spare }
    ensures capacity { world.new.capacity ≡ world.old.capacity }
{
    let caller = world.caller(by);
    world.begin_call();
    match told_at(world, by, handle, class) {
        Ok(Told::Fields(fields)) => {
            out.push(Entry::Answer {
                tid: caller.number,
                call: CallName::NtQueryInformationToken,
                status: SUCCESS,
                fields,
            });
            Outcome::Answered(SUCCESS)
        }
        Ok(Told::Groups(groups)) => {
            out.push_groups(caller.number, CallName::NtQueryInformationToken, groups);
            Outcome::Answered(SUCCESS)
        }
        Err(status) => refuse(
            caller.number,
            CallName::NtQueryInformationToken,
            status,
            out,
        ),
    }
}
