// Tokens with ample memory: one gets a name, a process has it, and a thread acts as a client. The entries are written out
// by hand.
ghost use Rattle.std.specs.Prelude.{◌≡◌, ◌≤◌, ◌<◌, ◌+◌, true};
ghost use Rattle.lpc_base.specs.declared.limits.TheConstants.{LINES_LIMIT};
ghost use Rattle.lpc_rows.specs.Ready.{is_ready};

use crate::common::{can_call, one};
use crate::memory::{answers, is_next};
use arrayvec::ArrayVec;
use lpc_base::Status;
use lpc_base::status::{OBJECT_NAME_COLLISION, OBJECT_NAME_NOT_FOUND, SUCCESS};
use lpc_directives::{boot, token};
use lpc_imperson::{
    nt_open_process_token, nt_open_thread_token, nt_query_information_token,
    nt_set_information_thread,
};
use lpc_machine::objects;
use lpc_model::{CallName, Entries, FieldName, Fields, Value};
use lpc_sid::{Sid, Token};
use lpc_tokens::level::IDENTIFICATION;
use lpc_tokens::{Impersonation, TokenArena, TokenRef};
use lpc_world::World;
use std::process::Abort;
use std::test::Fail;

// Someone who is in no group.
fn guest(rt: &impl Abort) -> Token {
    let Some(user) = Sid::read(b"S-1-5-21-9") else {
        panic!(rt; "the text is no SID");
    };
    Token {
        user,
        groups: ArrayVec::new(),
    }
}

// The line `token` ends so.
fn names_a_token(rt: &impl Abort, world: &mut World, status: Status) -> Result<(), Fail>
    requires few { world.old.calls < LINES_LIMIT }
    ensures calls { world.new.calls ≤ world.old.calls + 1 }
{
    let answer = token(world, b"guest", &guest(rt))?;
    assert!(rt; answer == status);
    Ok(())
}

// The line `boot` with a token's name ends so.
fn boots_as(rt: &impl Abort, world: &mut World, name: &[u8], status: Status) -> Result<(), Fail>
    requires few { world.old.calls < LINES_LIMIT }
    ensures calls { world.new.calls ≤ world.old.calls + 1 }
{
    let answer = boot(world, 20, 24, Some(name))?;
    assert!(rt; answer == status);
    Ok(())
}

// A process begins with a token that has a name.
fn begins_as_guest(rt: &impl Abort, world: &mut World) -> Result<(), Fail>
    requires few { world.old.calls < 1000 }
    ensures calls { world.new.calls ≤ world.old.calls + 4 }
{
    names_a_token(rt, world, SUCCESS)?;
    names_a_token(rt, world, OBJECT_NAME_COLLISION)?;
    boots_as(rt, world, b"nobody", OBJECT_NAME_NOT_FOUND)?;
    boots_as(rt, world, b"guest", SUCCESS)
}

// The token of thread 24's process gets handle 4.
fn opens_the_process_token(
    rt: &impl Abort,
    world: &mut World,
    out: &mut Entries,
) -> Result<(), Fail>
    requires few { world.old.calls < LINES_LIMIT }
    ensures calls { world.new.calls ≤ world.old.calls + 1 }
{
    is_next(rt, world, out)?;
    let outcome = nt_open_process_token(world, 24, out)?;
    let fields = one(FieldName::H, Value::Number(4));
    answers(rt, out, outcome, CallName::NtOpenProcessToken, fields);
    Ok(())
}

// Thread 24 acts as a client that may be known.
fn acts_as_a_client<'t>(rt: &impl Abort, world: &mut World<'t>, client: &'t Token)
    ensures calls { world.new.calls ≡ world.old.calls }
{
    can_call(rt, world, 24);
    let by = world.caller(24);
    let own = Impersonation {
        token: TokenRef::new(client),
        level: IDENTIFICATION,
    };
    world.procs_set_own(by.number, Some(own));
}

// The token as which it acts gets handle 8.
fn opens_its_own_token(rt: &impl Abort, world: &mut World, out: &mut Entries) -> Result<(), Fail>
    requires few { world.old.calls < LINES_LIMIT }
    ensures calls { world.new.calls ≤ world.old.calls + 1 }
{
    is_next(rt, world, out)?;
    let outcome = nt_open_thread_token(world, 24, out)?;
    let fields = one(FieldName::H, Value::Number(8));
    answers(rt, out, outcome, CallName::NtOpenThreadToken, fields);
    Ok(())
}

// A token tells this by a class.
fn tells(
    rt: &impl Abort,
    world: &mut World,
    out: &mut Entries,
    handle: u32,
    class: u32,
    fields: Fields,
) -> Result<(), Fail>
    requires few { world.old.calls < LINES_LIMIT }
    ensures calls { world.new.calls ≤ world.old.calls + 1 }
{
    is_next(rt, world, out)?;
    let outcome = nt_query_information_token(world, 24, handle, class, out);
    answers(rt, out, outcome, CallName::NtQueryInformationToken, fields);
    Ok(())
}

// It acts as itself again.
fn acts_as_itself(rt: &impl Abort, world: &mut World, out: &mut Entries) -> Result<(), Fail>
    requires few { world.old.calls < LINES_LIMIT }
{
    is_next(rt, world, out)?;
    let outcome = nt_set_information_thread(world, 24, 5, out);
    answers(
        rt,
        out,
        outcome,
        CallName::NtSetInformationThread,
        Fields::none(),
    );
    Ok(())
}

// The user of both tokens, one after the other.
fn user(rt: &impl Abort) -> Fields {
    let mut sids: ArrayVec<Sid, 1> = ArrayVec::new();
    sids.push(guest(rt).user);
    one(FieldName::User, Value::Sids(sids))
}

// Both tokens are opened, and tell what they are.
fn opens_two_tokens<'t>(
    rt: &impl Abort,
    world: &mut World<'t>,
    client: &'t Token,
    out: &mut Entries,
) -> Result<(), Fail>
    requires few { world.old.calls < 1000 }
{
    begins_as_guest(rt, world)?;
    opens_the_process_token(rt, world, out)?;
    tells(rt, world, out, 4, 1, user(rt))?;
    let groups = one(FieldName::Groups, Value::TokenGroups);
    tells(rt, world, out, 4, 2, groups)?;
    assert!(rt; out.groups().is_empty());
    acts_as_a_client(rt, world, client);
    opens_its_own_token(rt, world, out)?;
    let level = one(FieldName::Level, Value::Number(1));
    tells(rt, world, out, 8, 9, level)?;
    acts_as_itself(rt, world, out)?;
    assert!(rt; objects(world) == 4);
    Ok(())
}

#[test]
fn tokens_are_opened_and_tell_what_they_are(rt: HostRuntime) -> Result<(), Fail> {
    let alloc = rt.alloc();
    let client = guest(&rt);
    let arena = TokenArena::new(alloc);
    let mut world = World::empty(alloc, &arena);
    let mut out = Entries::new(alloc)?;
    opens_two_tokens(&rt, &mut world, &client, &mut out)
}
