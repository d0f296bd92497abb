// Tokens, and who may use a port, in JSON, each put behind the text so far. Each wants for memory only where there was no
// room for it behind the text; what stood before still begins the text then. The text's capacity never shrinks.
ghost use Rattle.std.specs.Prelude.{◌≤◌, ◌++◌, OnErr, vec_capacity, decimal};
ghost use Rattle.std.specs.List.{flat_map};
ghost use Rattle.lpc_transcript.specs.Printing.{BeginsWith, LacksRoom, Puts};
ghost use Rattle.lpc_states.specs.Values.{ace_text, allowed_text, behind_comma, effective_text, leveled_text, listed, security_text, sid_text, token_text, tracking_text};

use crate::values::{put_flag_under, put_hex_under, put_number_or_null_under};
use lpc_base::OutOfMemory;
use lpc_sid::{Ace, Sid, Token};
use lpc_tokens::{Effective, Level, Qos, Security, TokenRef, Tracking};
use lpc_transcript::{put, put_number, put_sid};

#[tactic(auto, using(std::proofs::Common::append_assoc, lpc_transcript::proofs::Begins::begins_before))]
fn put_quoted_sid(into: &mut Vec<u8>, sid: &Sid) -> Result<(), OutOfMemory>
    ensures ok { Puts into.old.items into.new.items (sid_text sid.now) result }
    ensures err { OnErr result (BeginsWith into.new.items into.old.items) }
    ensures capacity { vec_capacity into.old ≤ vec_capacity into.new }
    ensures wanting { OnErr result (LacksRoom into.old (sid_text sid.now)) }
{
    put(into, b"\"")?;
    put_sid(into, sid)?;
    put(into, b"\"")
}

#[tactic(auto, using(std::proofs::Common::append_assoc, lpc_transcript::proofs::Begins::begins_before))]
fn put_further_sid(into: &mut Vec<u8>, sid: &Sid) -> Result<(), OutOfMemory>
    ensures ok { Puts into.old.items into.new.items (behind_comma sid_text sid.now) result }
    ensures err { OnErr result (BeginsWith into.new.items into.old.items) }
    ensures capacity { vec_capacity into.old ≤ vec_capacity into.new }
    ensures wanting { OnErr result (LacksRoom into.old (behind_comma sid_text sid.now)) }
{
    put(into, b",")?;
    put_quoted_sid(into, sid)
}

#[tactic(auto, using(std::proofs::Common::append_assoc, lpc_transcript::proofs::Begins::begins_before))]
fn put_further_sids(into: &mut Vec<u8>, sids: &[Sid]) -> Result<(), OutOfMemory>
    ensures ok { Puts into.old.items into.new.items
        (flat_map (behind_comma sid_text) sids.now) result }
    ensures err { OnErr result (BeginsWith into.new.items into.old.items) }
    ensures capacity { vec_capacity into.old ≤ vec_capacity into.new }
    ensures wanting { OnErr result (LacksRoom into.old
        (flat_map (behind_comma sid_text) sids.now)) }
{
    for sid in sids {
        put_further_sid(into, sid)?;
    }
    Ok(())
}

fn put_sids(into: &mut Vec<u8>, sids: &[Sid]) -> Result<(), OutOfMemory>
    ensures ok { Puts into.old.items into.new.items (listed sid_text sids.now) result }
    ensures err { OnErr result (BeginsWith into.new.items into.old.items) }
    ensures capacity { vec_capacity into.old ≤ vec_capacity into.new }
    ensures wanting { OnErr result (LacksRoom into.old (listed sid_text sids.now)) }
{
    match sids {
        [] => put(into, b"[]"),
        [first, others @ ..] => {
            put(into, b"[")?;
            put_quoted_sid(into, first)?;
            put_further_sids(into, others)?;
            put(into, b"]")
        }
    }
}

/// A token: its user and its groups.
pub fn put_token(into: &mut Vec<u8>, token: &Token) -> Result<(), OutOfMemory>
    ensures ok { Puts into.old.items into.new.items (token_text token.now) result }
    ensures err { OnErr result (BeginsWith into.new.items into.old.items) }
    ensures capacity { vec_capacity into.old ≤ vec_capacity into.new }
    ensures wanting { OnErr result (LacksRoom into.old (token_text token.now)) }
{
    put(into, b"{\"user\":")?;
    put_quoted_sid(into, &token.user)?;
    put(into, b",\"groups\":")?;
    put_sids(into, token.groups.as_slice())?;
    put(into, b"}")
}

/// A key, and a token behind it.
#[tactic(auto, using(std::proofs::Common::append_assoc, lpc_transcript::proofs::Begins::begins_before))]
pub fn put_token_under(into: &mut Vec<u8>, key: &[u8], token: &Token) -> Result<(), OutOfMemory>
    ensures ok { Puts into.old.items into.new.items (key.now ++ token_text token.now) result }
    ensures err { OnErr result (BeginsWith into.new.items into.old.items) }
    ensures capacity { vec_capacity into.old ≤ vec_capacity into.new }
    ensures wanting { OnErr result (LacksRoom into.old (key.now ++ token_text token.now)) }
{
    put(into, key)?;
    put_token(into, token)
}

// A token with the level of an impersonation token, wherever the token lies.
fn put_token_and_level(
    into: &mut Vec<u8>,
    token: &Token,
    level: Option<Level>,
) -> Result<(), OutOfMemory>
    ensures ok { Puts into.old.items into.new.items (leveled_text token.now level) result }
    ensures err { OnErr result (BeginsWith into.new.items into.old.items) }
    ensures capacity { vec_capacity into.old ≤ vec_capacity into.new }
    ensures wanting { OnErr result (LacksRoom into.old (leveled_text token.now level)) }
{
    put_token_under(into, b"{\"token\":", token)?;
    put_number_or_null_under(into, b",\"level\":", level.map(u32::from))?;
    put(into, b"}")
}

/// A token with the level of an impersonation token, none where it is a process's.
pub fn put_leveled(
    into: &mut Vec<u8>,
    token: &TokenRef<'_>,
    level: Option<Level>,
) -> Result<(), OutOfMemory>
    ensures ok { Puts into.old.items into.new.items (leveled_text token.now level) result }
    ensures err { OnErr result (BeginsWith into.new.items into.old.items) }
    ensures capacity { vec_capacity into.old ≤ vec_capacity into.new }
    ensures wanting { OnErr result (LacksRoom into.old (leveled_text token.now level)) }
{
    put_token_and_level(into, token.get(), level)
}

fn put_ace(into: &mut Vec<u8>, ace: &Ace) -> Result<(), OutOfMemory>
    ensures ok { Puts into.old.items into.new.items (ace_text ace.now) result }
    ensures err { OnErr result (BeginsWith into.new.items into.old.items) }
    ensures capacity { vec_capacity into.old ≤ vec_capacity into.new }
    ensures wanting { OnErr result (LacksRoom into.old (ace_text ace.now)) }
{
    put_flag_under(into, b"{\"allow\":", ace.allow)?;
    put_hex_under(into, b",\"mask\":", ace.mask)?;
    put(into, b",\"sid\":")?;
    put_quoted_sid(into, &ace.sid)?;
    put(into, b"}")
}

#[tactic(auto, using(std::proofs::Common::append_assoc, lpc_transcript::proofs::Begins::begins_before))]
fn put_further_ace(into: &mut Vec<u8>, ace: &Ace) -> Result<(), OutOfMemory>
    ensures ok { Puts into.old.items into.new.items (behind_comma ace_text ace.now) result }
    ensures err { OnErr result (BeginsWith into.new.items into.old.items) }
    ensures capacity { vec_capacity into.old ≤ vec_capacity into.new }
    ensures wanting { OnErr result (LacksRoom into.old (behind_comma ace_text ace.now)) }
{
    put(into, b",")?;
    put_ace(into, ace)
}

#[tactic(auto, using(std::proofs::Common::append_assoc, lpc_transcript::proofs::Begins::begins_before))]
fn put_further_aces(into: &mut Vec<u8>, aces: &[Ace]) -> Result<(), OutOfMemory>
    ensures ok { Puts into.old.items into.new.items
        (flat_map (behind_comma ace_text) aces.now) result }
    ensures err { OnErr result (BeginsWith into.new.items into.old.items) }
    ensures capacity { vec_capacity into.old ≤ vec_capacity into.new }
    ensures wanting { OnErr result (LacksRoom into.old
        (flat_map (behind_comma ace_text) aces.now)) }
{
    for ace in aces {
        put_further_ace(into, ace)?;
    }
    Ok(())
}

fn put_aces(into: &mut Vec<u8>, aces: &[Ace]) -> Result<(), OutOfMemory>
    ensures ok { Puts into.old.items into.new.items (listed ace_text aces.now) result }
    ensures err { OnErr result (BeginsWith into.new.items into.old.items) }
    ensures capacity { vec_capacity into.old ≤ vec_capacity into.new }
    ensures wanting { OnErr result (LacksRoom into.old (listed ace_text aces.now)) }
{
    match aces {
        [] => put(into, b"[]"),
        [first, others @ ..] => {
            put(into, b"[")?;
            put_ace(into, first)?;
            put_further_aces(into, others)?;
            put(into, b"]")
        }
    }
}

fn put_tracking(into: &mut Vec<u8>, tracking: Tracking) -> Result<(), OutOfMemory>
    ensures ok { Puts into.old.items into.new.items (tracking_text tracking) result }
    ensures err { OnErr result (BeginsWith into.new.items into.old.items) }
    ensures capacity { vec_capacity into.old ≤ vec_capacity into.new }
    ensures wanting { OnErr result (LacksRoom into.old (tracking_text tracking)) }
{
    match tracking {
        Tracking::Static => put(into, b"\"static\""),
        Tracking::Dynamic => put(into, b"\"dynamic\""),
    }
}

fn put_level(into: &mut Vec<u8>, level: Level) -> Result<(), OutOfMemory>
    ensures ok { Puts into.old.items into.new.items (decimal level) result }
    ensures err { OnErr result (BeginsWith into.new.items into.old.items) }
    ensures capacity { vec_capacity into.old ≤ vec_capacity into.new }
    ensures wanting { OnErr result (LacksRoom into.old (decimal level)) }
{
    put_number(into, u64::from(level))
}

// What a client allows its server.
fn put_allowed(into: &mut Vec<u8>, quality: &Qos, kept: &Effective) -> Result<(), OutOfMemory>
    ensures ok { Puts into.old.items into.new.items (allowed_text quality.now kept.now) result }
    ensures err { OnErr result (BeginsWith into.new.items into.old.items) }
    ensures capacity { vec_capacity into.old ≤ vec_capacity into.new }
    ensures wanting { OnErr result (LacksRoom into.old (allowed_text quality.now kept.now)) }
{
    put(into, b"{\"level\":")?;
    put_level(into, quality.level)?;
    put(into, b",\"tracking\":")?;
    put_tracking(into, quality.tracking)?;
    put(into, b",\"connected_as\":")?;
    put_leveled(into, &kept.token, kept.level)?;
    put(into, b"}")
}

/// Who may use a port, and what it allows.
#[tactic(auto, using(std::proofs::Common::append_assoc, lpc_transcript::proofs::Begins::begins_before), unfolding(crate::specs::Values::security_text))]
pub fn put_security(into: &mut Vec<u8>, security: &Security) -> Result<(), OutOfMemory>
    ensures ok { Puts into.old.items into.new.items (security_text security.now) result }
    ensures err { OnErr result (BeginsWith into.new.items into.old.items) }
    ensures capacity { vec_capacity into.old ≤ vec_capacity into.new }
    ensures wanting { OnErr result (LacksRoom into.old (security_text security.now)) }
{
    match security {
        Security::Unsecured => put(into, b"null"),
        Security::Guarded(dacl) => {
            put(into, b"{\"dacl\":")?;
            put_aces(into, dacl.list.as_slice())?;
            put(into, b"}")
        }
        Security::Allows { quality, kept } => put_allowed(into, quality, kept),
    }
}
