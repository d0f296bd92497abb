// SIDs and access lists against answers that the rules give.
use arrayvec::{ArrayString, ArrayVec};
use lpc_sid::{Ace, Dacl, Sid, Token, access_check};
use std::process::Abort;

// The user and a group of the token that is checked, and somebody else.
const USER: &[u8] = b"S-1-5-21-1";

const GROUP: &[u8] = b"S-1-1-0";

const OTHER: &[u8] = b"S-1-5-21-2";

// The SID that a text spells.
fn sid(rt: &impl Abort, text: &[u8]) -> Sid {
    Sid::read(text).expect(rt, "a SID")
}

// A text spells the SID of this authority and these numbers, and that SID is written so.
fn spells(rt: &impl Abort, text: &[u8], authority: u64, numbers: &[u32]) {
    let sid = sid(rt, text);
    assert!(rt; sid.authority == authority);
    assert!(rt; sid.subs.as_slice() == numbers);
    let mut spelling = ArrayString::new();
    sid.write(&mut spelling);
    assert!(rt; spelling.as_str().as_bytes() == text);
}

#[test]
fn sids_are_spelled_in_one_way(rt: HostRuntime) {
    spells(&rt, b"S-1-5-18", 5, &[18]);
    spells(&rt, b"S-1-5-32-544", 5, &[32, 544]);
    spells(&rt, b"S-1-0-0", 0, &[0]);
    spells(
        &rt,
        b"S-1-281474976710655-4294967295",
        281_474_976_710_655,
        &[u32::MAX],
    );
    spells(
        &rt,
        b"S-1-1-1-2-3-4-5-6-7-8-9-10-11-12-13-14-15",
        1,
        &[1, 2, 3, 4, 5, 6, 7, 8, 9, 10, 11, 12, 13, 14, 15],
    );
}

// Texts that come close: another form in front, no number, an empty one, zeros in front, signs, hexadecimal digits, an
// authority and a number that are too great, what isn't text, and a 16th number.
#[test]
fn another_spelling_is_no_sid(rt: HostRuntime) {
    for (at, text) in [
        b"".as_slice(),
        b"S-1-",
        b"S-1-5",
        b"S-1-5-",
        b"S-1--5",
        b"S-1-5-18-",
        b"S-1-5--18",
        b"s-1-5-18",
        b"S-2-5-18",
        b"S-1-05-18",
        b"S-1-5-018",
        b"S-1-5-00",
        b"S-1-5-+18",
        b"S-1-+5-18",
        b"S-1-5-0x12",
        b"S-1-0x5-18",
        b" S-1-5-18",
        b"S-1-5-18 ",
        b"S-1-281474976710656-1",
        b"S-1-18446744073709551616-1",
        b"S-1-5-4294967296",
        b"S-1-5-\xff",
        b"S-1-1-1-2-3-4-5-6-7-8-9-10-11-12-13-14-15-16",
    ]
    .into_iter()
    .enumerate()
    {
        assert!(rt; Sid::read(text).is_none(), "text {at}");
    }
}

#[test]
fn longest_spelling_is_written(rt: HostRuntime) {
    let mut subs = ArrayVec::new();
    assert!(rt; subs.try_extend_from_slice(&[u32::MAX; 15]).is_ok());
    let sid = Sid {
        authority: u64::MAX,
        subs,
    };
    let mut spelling = ArrayString::new();
    sid.write(&mut spelling);
    assert!(rt; spelling.len() == 189);
    assert!(rt;
        spelling
            .as_str()
            .starts_with("S-1-18446744073709551615-4294967295-")
    );
    assert!(rt; Sid::read(spelling.as_str().as_bytes()).is_none());
}

// The user in one group.
fn token(rt: &impl Abort) -> Token {
    let mut groups = ArrayVec::new();
    groups.push(sid(rt, GROUP));
    Token {
        user: sid(rt, USER),
        groups,
    }
}

// A list of these entries: whether they allow, their rights, and for whom they count.
fn list(rt: &impl Abort, entries: &[(bool, u32, &[u8])]) -> Dacl {
    let mut list = ArrayVec::new();
    for (allow, mask, text) in entries {
        let entry = Ace {
            allow: *allow,
            mask: *mask,
            sid: sid(rt, text),
        };
        assert!(rt; list.try_push(entry).is_ok());
    }
    Dacl { list }
}

// The list grants the token these rights, or doesn't.
fn checks(rt: &impl Abort, entries: &[(bool, u32, &[u8])], wanted: u32, granted: bool) {
    assert!(rt; wanted != 0);
    let token = token(rt);
    let list = list(rt, entries);
    assert!(rt; access_check(&token, Some(&list.copy()), wanted) == granted);
}

#[test]
fn entries_count_for_the_user_and_its_groups(rt: HostRuntime) {
    checks(&rt, &[(true, 1, USER)], 1, true);
    checks(&rt, &[(true, 1, GROUP)], 1, true);
    checks(&rt, &[(true, 1, OTHER)], 1, false);
    checks(&rt, &[(false, 1, OTHER), (true, 1, USER)], 1, true);
    checks(&rt, &[], 1, false);
    assert!(rt; access_check(&token(&rt), None, u32::MAX));
}

#[test]
fn entries_are_read_in_order(rt: HostRuntime) {
    checks(&rt, &[(false, 1, USER), (true, 1, USER)], 1, false);
    checks(&rt, &[(true, 1, USER), (false, 1, USER)], 1, true);
    checks(&rt, &[(false, 2, USER), (true, 1, USER)], 1, true);
    checks(&rt, &[(true, 1, USER), (true, 2, GROUP)], 3, true);
    checks(&rt, &[(true, 1, USER)], 3, false);
    checks(
        &rt,
        &[(true, 1, USER), (false, 1, GROUP), (true, 2, USER)],
        3,
        true,
    );
    checks(
        &rt,
        &[(true, 1, USER), (false, 2, GROUP), (true, 2, USER)],
        3,
        false,
    );
}

#[test]
fn default_token_is_the_systems(rt: HostRuntime) {
    let token = Token::system();
    assert!(rt; token.copy() == token);
    assert!(rt; token.user == sid(&rt, b"S-1-5-18"));
    assert!(rt; token.groups.len() == 2);
    assert!(rt; token.has_sid(&sid(&rt, b"S-1-5-18")));
    assert!(rt; token.has_sid(&sid(&rt, b"S-1-5-32-544")));
    assert!(rt; token.has_sid(&sid(&rt, b"S-1-1-0")));
    assert!(rt; !token.has_sid(&sid(&rt, b"S-1-5-32-545")));
}
