// Effective tokens, what of them is passed on, and the names of tokens, against answers that the rules give.
ghost use Rattle.std.specs.Prelude.{◌≤◌, length};
ghost use Rattle.lpc_tokens.specs.declared.names.TheConstants.{TOKEN_NAME_LIMIT};

use crate::common::guest;
use lpc_sid::Token;
use lpc_tokens::level::{ANONYMOUS, DELEGATION, IDENTIFICATION, IMPERSONATION};
use lpc_tokens::{
    Effective, Impersonation, Level, Qos, TokenArena, TokenNames, TokenRef, Tracking,
    effective_token, pass_on,
};
use std::process::Abort;
use std::test::Fail;

// A thread acts with this token, of this level, which counts as that one.
fn acts_with(
    rt: &impl Abort,
    acting: &Effective<'_>,
    token: &Token,
    own: Option<Level>,
    level: Level,
) {
    assert!(rt; *acting.token.get() == *token);
    assert!(rt; acting.level == own);
    assert!(rt; acting.counts_as() == level);
}

// Without a token of its own it is its process's, and else the own one.
fn acts_with_its_own_first<'t>(
    rt: &impl Abort,
    process: &TokenRef<'t>,
    none: Option<&Impersonation<'t>>,
    own: &Impersonation<'t>,
) {
    let plain = effective_token(process, none);
    acts_with(rt, &plain, process.get(), None, DELEGATION);
    let acting = effective_token(process, Some(own)).copy();
    let level = Some(IDENTIFICATION);
    acts_with(rt, &acting, own.token.get(), level, IDENTIFICATION);
}

#[test]
fn thread_acts_with_its_own_token_first(rt: HostRuntime) {
    let (process, guest) = (Token::system(), guest());
    let own = Impersonation {
        token: TokenRef::new(&guest),
        level: IDENTIFICATION,
    };
    acts_with_its_own_first(&rt, &TokenRef::new(&process), None, &own.copy());
}

// Of a client with a token of this level, or its process's own, a connection of this level passes on that one.
fn passes_on(rt: &impl Abort, asked: Level, own: Option<Level>, level: Level) {
    let guest = guest();
    let client = Effective {
        token: TokenRef::new(&guest),
        level: own,
    };
    for tracking in [Tracking::Static, Tracking::Dynamic] {
        let qos = Qos {
            level: asked,
            tracking,
        };
        let passed = pass_on(&qos, &client);
        assert!(rt; *passed.token.get() == guest);
        assert!(rt; passed.level == level);
    }
}

#[test]
fn lesser_level_is_passed_on(rt: HostRuntime) {
    passes_on(&rt, IMPERSONATION, None, 2);
    passes_on(&rt, DELEGATION, None, 3);
    passes_on(&rt, ANONYMOUS, None, 0);
    passes_on(&rt, DELEGATION, Some(IDENTIFICATION), 1);
    passes_on(&rt, IDENTIFICATION, Some(DELEGATION), 1);
    passes_on(&rt, IMPERSONATION, Some(IMPERSONATION), 2);
    passes_on(&rt, IMPERSONATION, Some(ANONYMOUS), 0);
}

// A token gets a name, which no token has.
fn names_token(
    rt: &impl Abort,
    names: &mut TokenNames,
    name: &[u8],
    token: Token,
) -> Result<(), Fail>
    requires { length name.now ≤ TOKEN_NAME_LIMIT }
{
    names.reserve(1)?;
    if let Some(_) = names.find(name) {
        assert!(rt; false);
        return Ok(());
    }
    names.add(name, token);
    Ok(())
}

// The token of a name is this one.
fn finds(rt: &impl Abort, names: &TokenNames, name: &[u8], token: &Token) {
    match names.find(name) {
        Some(found) => assert!(rt; *found.get() == *token),
        None => assert!(rt; false),
    }
}

// Two names that differ in case, of which the later doesn't hide the earlier.
fn names_two(rt: &impl Abort, names: &mut TokenNames) -> Result<(), Fail> {
    names_token(rt, names, b"guest", guest())?;
    names_token(rt, names, b"Guest", Token::system())?;
    finds(rt, names, b"guest", &guest());
    finds(rt, names, b"Guest", &Token::system());
    assert!(rt; names.find(b"gues").is_none());
    assert!(rt;
        names
            .find(b"guest of this system, and of no other")
            .is_none()
    );
    Ok(())
}

#[test]
fn token_is_found_by_its_name(rt: HostRuntime) -> Result<(), Fail> {
    let arena = TokenArena::new(rt.alloc());
    let mut names = TokenNames::new(rt.alloc(), &arena);
    names_two(&rt, &mut names)
}
