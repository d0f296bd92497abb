// Lines about tokens and about who may connect, and the fields that tell of tokens, worked by hand.
ghost use Rattle.std.specs.Prelude.{◌≡◌, ◌≤◌, false, length};
ghost use Rattle.lpc_model.specs.Listed.{is_read};

use crate::script::{have_fault, run_of};
use crate::transcript::{one, printed};
use arrayvec::ArrayVec;
use lpc_base::status;
use lpc_model::{Call, CallName, Entries, Entry, FieldName, Fields, Line, LineFault, Value, Word};
use lpc_script::{Scratch, read_line};
use lpc_sid::{Ace, Dacl, Sid, Token};
use lpc_tokens::{Qos, Tracking};
use lpc_transcript::print;
use std::alloc::Global;
use std::process::Abort;
use std::test::Fail;

// The SID of an authority and numbers.
fn sid(authority: u64, numbers: &[u32]) -> Sid
    requires { length numbers.now ≤ 15 }
{
    let mut subs = ArrayVec::new();
    subs.try_extend_from_slice(numbers).unwrap();
    Sid { authority, subs }
}

// Tokens without groups and with 16, and the greatest numbers of a SID.
const TOKENS: &[u8] = b"token A S-1-5-18\n\
    token abcdefghijklmnopqrstuvwxyz_01234 S-1-281474976710655-4294967295\n\
    token 0 S-1-0-0 S-1-1-0 S-1-1-0 S-1-1-0 S-1-1-0 S-1-1-0 S-1-1-0 S-1-1-0 S-1-1-0 \
    S-1-1-0 S-1-1-0 S-1-1-0 S-1-1-0 S-1-1-0 S-1-1-0 S-1-1-0 S-1-1-0\n\
    token Z S-1-5-1-2-3-4-5-6-7-8-9-10-11-12-13-14-15";

// No user, and a 17th group.
const NO_TOKENS: &[u8] = b"token\n\
    token A\n\
    token a-b x 1 2 3 4 5 6 7 8 9 10 11 12 13 14 15 16 17";

// Names of 33 bytes, and with other signs than letters, digits and `_`.
const NO_NAMES: &[u8] = b"token abcdefghijklmnopqrstuvwxyz_012345 S-1-5-18\n\
    token a-b x\n\
    token A. S-1-5-18\n\
    boot 20 24 a,b\n\
    boot 20 24 abcdefghijklmnopqrstuvwxyz_012345";

// Texts that are not the one spelling of a SID.
const NO_SIDS: &[u8] = b"token A S-1-5\n\
    token A S-1-5-\n\
    token A S-1-5-018\n\
    token A S-1-05-18\n\
    token A s-1-5-18\n\
    token A S-2-5-18\n\
    token A 18\n\
    token A S-1-5-0x12\n\
    token A S-1-281474976710656-0\n\
    token A S-1-5-4294967296\n\
    token A S-1-5-1-2-3-4-5-6-7-8-9-10-11-12-13-14-15-16\n\
    token A S-1-5-18 S-1-1-0 S-1-1";

// The name and the token of a line.
fn named<'a>(rt: &impl Abort, scratch: &'a mut Scratch, line: &'a [u8]) -> (&'a [u8], &'a Token) {
    match read_line(line, scratch) {
        Ok(Some(Line::Token { name, token })) => (name, token),
        _ => panic!(rt; "no token"),
    }
}

// Three tokens: without a group, with one, and with two.
fn reads_tokens(rt: &impl Abort, scratch: &mut Scratch) {
    let (name, token) = named(rt, scratch, b"token A S-1-5-18");
    assert!(rt; name == b"A".as_slice() && token.user == sid(5, &[18]));
    assert!(rt; token.groups.is_empty());
    let line = b"token guest_1 S-1-5-21-7-1001 S-1-5-32-544 S-1-1-0";
    let (name, token) = named(rt, scratch, line);
    assert!(rt; name == b"guest_1".as_slice() && token.user == sid(5, &[21, 7, 1001]));
    assert!(rt; token.groups.as_slice() == [sid(5, &[32, 544]), sid(1, &[0])].as_slice());
}

#[test]
fn a_token_has_a_user_and_up_to_16_groups(rt: HostRuntime) -> Result<(), Fail> {
    let mut scratch = Scratch::new(rt.alloc())?;
    have_fault(&rt, &mut scratch, TOKENS, None);
    have_fault(&rt, &mut scratch, NO_TOKENS, Some(LineFault::Count));
    have_fault(&rt, &mut scratch, NO_NAMES, Some(LineFault::Word));
    have_fault(&rt, &mut scratch, NO_SIDS, Some(LineFault::Sid));
    reads_tokens(&rt, &mut scratch);
    Ok(())
}

// The line makes process 20 with thread 24, and the token of this name.
fn boots(rt: &impl Abort, scratch: &mut Scratch, line: &[u8], name: Option<&[u8]>) {
    match read_line(line, scratch) {
        Ok(Some(Line::Boot { pid, tid, token })) => {
            assert!(rt; pid == 20 && tid == 24);
            assert!(rt; token == name);
        }
        _ => assert!(rt; false, "no process"),
    }
}

#[test]
fn a_process_may_have_a_token_of_its_own(rt: HostRuntime) -> Result<(), Fail> {
    let mut scratch = Scratch::new(rt.alloc())?;
    let lines = b"boot 20\nboot 20 24 A B";
    have_fault(&rt, &mut scratch, lines, Some(LineFault::Count));
    let lines = b"boot 20 024 a-b\nboot 0 24 a-b";
    have_fault(&rt, &mut scratch, lines, Some(LineFault::Number));
    boots(&rt, &mut scratch, b"boot 20 24", None);
    boots(
        &rt,
        &mut scratch,
        b"boot 0x14 24  guest_1",
        Some(b"guest_1"),
    );
    Ok(())
}

// Words that are no list, a list of 17 entries, and entries that have not their form, whatever the others' parts are.
const NO_LISTS: &[u8] = b"24 NtCreatePort - -\n\
    24 NtCreatePort \\P \\B\n\
    24 NtCreatePort \\P Acl:\n\
    24 NtCreatePort \\P acl:,\n\
    24 NtCreatePort \\P acl:A/1/S-1-1-0,\n\
    24 NtCreatePort \\P acl:a/1/S-1-1-0\n\
    24 NtCreatePort \\P acl:A/1\n\
    24 NtCreatePort \\P acl:A/1/S-1-1-0/\n\
    24 NtCreatePort \\P acl:A/x/S-1-1-0,B\n\
    24 NtCreatePort \\P acl:A/1/x,A/1/x,A/1/x,A/1/x,A/1/x,A/1/x,A/1/x,A/1/x,A/1/x,A/1/x,A/1/x,\
    A/1/x,A/1/x,A/1/x,A/1/x,A/1/x,A/1/x";

// Of the parts the first that is none is the fault: a mask before its own SID, a SID before the next mask.
fn has_faults_of_lists(rt: &impl Abort, scratch: &mut Scratch) {
    have_fault(rt, scratch, NO_LISTS, Some(LineFault::Word));
    let lines = b"24 NtCreatePort\n24 NtCreatePort - acl: acl:";
    have_fault(rt, scratch, lines, Some(LineFault::Count));
    let lines = b"24 NtCreatePort \\P acl:A/08/x\n24 NtCreatePort - acl:A/1/S-1-1-0,D//S-1-1-0";
    have_fault(rt, scratch, lines, Some(LineFault::Number));
    let lines = b"24 NtCreatePort \\P acl:A/1/S-1-1\n24 NtCreatePort - acl:A/1/x,D/x/S-1-1-0";
    have_fault(rt, scratch, lines, Some(LineFault::Sid));
}

// The access list of the port that a line makes.
fn list_of<'a>(rt: &impl Abort, scratch: &'a mut Scratch, line: &'a [u8]) -> Option<&'a Dacl> {
    match run_of(rt, scratch, line).1 {
        Call::CreatePort { dacl, .. } => dacl,
        _ => panic!(rt; "no port"),
    }
}

// A list has these entries.
fn has_entries(rt: &impl Abort, dacl: Option<&Dacl>, entries: &[Ace]) {
    match dacl {
        Some(dacl) => assert!(rt; dacl.list.as_slice() == entries),
        None => assert!(rt; false, "no list"),
    }
}

// An entry that denies, and one that allows.
fn denied() -> Ace {
    Ace {
        allow: false,
        mask: 1,
        sid: sid(5, &[7]),
    }
}

fn allowed() -> Ace {
    Ace {
        allow: true,
        mask: 4294967295,
        sid: sid(1, &[0]),
    }
}

// Ports without a list, and with lists of no entry, of one and of two.
fn reads_lists(rt: &impl Abort, scratch: &mut Scratch) {
    assert!(rt; list_of(rt, scratch, b"24 NtCreatePort \\P").is_none());
    let dacl = list_of(rt, scratch, b"24 NtCreatePort \\P acl:");
    has_entries(rt, dacl, &[]);
    let dacl = list_of(rt, scratch, b"24 NtCreatePort - acl:D/0x1/S-1-5-7");
    has_entries(rt, dacl, &[denied()]);
    let line = b"24 NtCreatePort \\P acl:D/1/S-1-5-7,A/0xffffffff/S-1-1-0";
    let dacl = list_of(rt, scratch, line);
    has_entries(rt, dacl, &[denied(), allowed()]);
}

#[test]
fn a_port_may_have_an_access_list(rt: HostRuntime) -> Result<(), Fail> {
    let mut scratch = Scratch::new(rt.alloc())?;
    has_faults_of_lists(&rt, &mut scratch);
    reads_lists(&rt, &mut scratch);
    Ok(())
}

#[test]
fn an_access_list_has_at_most_16_entries(rt: HostRuntime) -> Result<(), Fail> {
    let alloc = rt.alloc();
    let mut scratch = Scratch::new(alloc)?;
    let mut line = b"24 NtCreatePort \\P acl:D/1/S-1-5-7".to_vec(alloc)?;
    for _ in 0..15 {
        line.extend_from_slice(b",A/4294967295/S-1-1-0")?;
    }
    let Some(dacl) = list_of(&rt, &mut scratch, &line) else {
        panic!(&rt; "no list");
    };
    assert!(&rt; dacl.list.len() == 16);
    assert!(&rt; dacl.list.as_slice().first() == Some(&denied()));
    assert!(&rt; dacl.list.as_slice().last() == Some(&allowed()));
    line.extend_from_slice(b",A/1/S-1-1-0")?;
    have_fault(&rt, &mut scratch, &line, Some(LineFault::Word));
    Ok(())
}

// Words that are not of the form of a quality of service.
const NO_QUALITIES: &[u8] = b"36 NtConnectPort \\P q - -\n\
    36 NtConnectPort \\P q: - -\n\
    36 NtConnectPort \\P q:2 - -\n\
    36 NtConnectPort \\P q:2:d: - -\n\
    36 NtConnectPort \\P Q:2:d - -\n\
    36 NtConnectPort \\P q:2:D - -\n\
    36 NtConnectPort \\P q:9:x - -";

// Levels that are none, also where further words are faulty.
const NO_LEVELS: &[u8] = b"36 NtConnectPort \\P q:4:s - -\n\
    36 NtConnectPort \\P q:9:s w x\n\
    36 NtConnectPort \\P q:02:d - -\n\
    36 NtConnectPort \\P q::d - -";

// The line connects with this level and this tracking.
fn asks_for(rt: &impl Abort, scratch: &mut Scratch, line: &[u8], level: u8, tracking: Tracking) {
    match run_of(rt, scratch, line).1 {
        Call::ConnectPort { quality, .. } => assert!(rt; quality == Qos { level, tracking }),
        _ => assert!(rt; false, "no connect"),
    }
}

#[test]
fn a_connect_has_a_quality_of_service(rt: HostRuntime) -> Result<(), Fail> {
    let mut scratch = Scratch::new(rt.alloc())?;
    have_fault(&rt, &mut scratch, NO_QUALITIES, Some(LineFault::Word));
    have_fault(&rt, &mut scratch, NO_LEVELS, Some(LineFault::Number));
    let line = b"36 NtConnectPort \\P - - -";
    asks_for(&rt, &mut scratch, line, 2, Tracking::Dynamic);
    let line = b"36 NtConnectPort \\P q:0:s - -";
    asks_for(&rt, &mut scratch, line, 0, Tracking::Static);
    let line = b"36 NtConnectPort \\P q:0x3:d - -";
    asks_for(&rt, &mut scratch, line, 3, Tracking::Dynamic);
    Ok(())
}

// Lines of the calls on tokens with a word too many or too few.
const NO_COUNTS: &[u8] = b"24 NtOpenThreadToken 4\n\
    24 NtOpenProcessToken self\n\
    24 NtSetInformationThread 5\n\
    24 NtSetInformationThread 5 null null\n\
    24 NtQueryInformationToken 4\n\
    24 NtImpersonateClientOfPort 8\n\
    24 NtImpersonateClientOfPort 8 d: d:";

fn has_faults_of_calls(rt: &impl Abort, scratch: &mut Scratch) {
    have_fault(rt, scratch, NO_COUNTS, Some(LineFault::Count));
    let lines = b"24 NtSetInformationThread x y\n24 NtQueryInformationToken 4 user";
    have_fault(rt, scratch, lines, Some(LineFault::Number));
    let lines = b"24 NtSetInformationThread 5 0\n24 NtSetInformationThread 5 Null";
    have_fault(rt, scratch, lines, Some(LineFault::Word));
    let lines = b"24 NtImpersonateClientOfPort 8 -";
    have_fault(rt, scratch, lines, Some(LineFault::Message));
}

// The calls that open tokens, end an impersonation and ask for what a token is.
fn reads_calls(rt: &impl Abort, scratch: &mut Scratch) {
    let run = run_of(rt, scratch, b"24 NtOpenThreadToken");
    assert!(rt; matches!(run.1, Call::OpenThreadToken));
    let run = run_of(rt, scratch, b"24 NtOpenProcessToken ");
    assert!(rt; matches!(run.1, Call::OpenProcessToken));
    let run = run_of(rt, scratch, b"24 NtSetInformationThread 0x5 null");
    assert!(rt; matches!(run.1, Call::SetInformationThread { class: 5 }));
    let run = run_of(rt, scratch, b"24 NtQueryInformationToken 4 9");
    assert!(rt;
        matches!(
            run.1,
            Call::QueryInformationToken {
                handle: 4,
                class: 9
            }
        )
    );
}

#[test]
fn a_thread_acts_as_a_client_and_asks_for_tokens(rt: HostRuntime) -> Result<(), Fail> {
    let mut scratch = Scratch::new(rt.alloc())?;
    has_faults_of_calls(&rt, &mut scratch);
    reads_calls(&rt, &mut scratch);
    let run = run_of(&rt, &mut scratch, b"24 NtImpersonateClientOfPort 8 m:4142");
    match run.1 {
        Call::ImpersonateClientOfPort { handle, message } => {
            assert!(&rt; handle == 8 && message == b"AB".as_slice());
        }
        _ => assert!(&rt; false, "no client"),
    }
    Ok(())
}

// The answer of a query that tells this has this text.
fn tells(
    rt: &impl Abort,
    alloc: Global,
    line: u32,
    name: FieldName,
    value: Value,
    text: &str,
) -> Result<(), Fail>
    requires { is_read value ≡ false }
{
    let entry = Entry::Answer {
        tid: 24,
        call: CallName::NtQueryInformationToken,
        status: status::SUCCESS,
        fields: one(name, value),
    };
    printed(rt, alloc, line, entry, text)
}

// The answer of a query that tells these groups has this text, and the list is without groups when it is emptied.
fn tells_groups(
    rt: &impl Abort,
    alloc: Global,
    line: u32,
    groups: ArrayVec<Sid, 16>,
    text: &str,
) -> Result<(), Fail> {
    let mut entries = Entries::new(alloc)?;
    entries.reserve(1)?;
    entries.push_groups(24, CallName::NtQueryInformationToken, groups);
    let mut into = Vec::new(alloc);
    print(line, &entries, &mut into)?;
    assert!(rt; into.as_slice() == text.as_bytes());
    entries.clear();
    assert!(rt; entries.groups().is_empty());
    Ok(())
}

// A user, two groups, none, and a level.
fn prints_what_a_token_is(rt: &impl Abort, alloc: Global) -> Result<(), Fail> {
    let mut user = ArrayVec::new();
    user.push(sid(5, &[21, 1]));
    let text = "27 24 NtQueryInformationToken 00000000 user=S-1-5-21-1\n";
    tells(rt, alloc, 27, FieldName::User, Value::Sids(user), text)?;
    let mut groups = ArrayVec::new();
    groups.push(sid(5, &[32, 544]));
    groups.push(sid(1, &[0]));
    let text = "19 24 NtQueryInformationToken 00000000 groups=S-1-5-32-544,S-1-1-0\n";
    tells_groups(rt, alloc, 19, groups, text)?;
    let text = "2 24 NtQueryInformationToken 00000000 groups=\n";
    tells_groups(rt, alloc, 2, ArrayVec::new(), text)?;
    let text = "34 24 NtQueryInformationToken 00000000 level=2\n";
    tells(rt, alloc, 34, FieldName::Level, Value::Number(2), text)
}

// The answers of the other calls, and the entry of a token line.
fn prints_calls(rt: &impl Abort, alloc: Global) -> Result<(), Fail> {
    let entry = Entry::Answer {
        tid: 24,
        call: CallName::NtImpersonateClientOfPort,
        status: status::SUCCESS,
        fields: Fields::none(),
    };
    let text = "25 24 NtImpersonateClientOfPort 00000000\n";
    printed(rt, alloc, 25, entry, text)?;
    let entry = Entry::Answer {
        tid: 24,
        call: CallName::NtOpenThreadToken,
        status: status::NO_TOKEN,
        fields: Fields::none(),
    };
    printed(rt, alloc, 20, entry, "20 24 NtOpenThreadToken c000007c\n")?;
    let entry = Entry::Directive {
        word: Word::Token,
        status: status::SUCCESS,
    };
    printed(rt, alloc, 1, entry, "1 - token 00000000\n")
}

#[test]
fn what_a_token_is_has_its_text(rt: HostRuntime) -> Result<(), Fail> {
    prints_what_a_token_is(&rt, rt.alloc())?;
    prints_calls(&rt, rt.alloc())
}
