// The values of rows and what becomes of rows, written out by hand.
use arrayvec::ArrayVec;
use lpc_base::{Birth, PortKind};
use lpc_model::ObjectKind;
use lpc_sid::{Ace, Dacl, Sid, Token};
use lpc_states::{
    header_in, print_changes, put_birth, put_decimal, put_flag, put_hex, put_hex_bytes,
    put_hex_or_null, put_leveled, put_message_fields, put_name, put_number_or_null, put_object,
    put_port_kind, put_port_or_null, put_security, put_token,
};
use lpc_tokens::{Security, TokenRef};
use std::alloc::Global;
use std::process::Abort;
use std::test::Fail;

// Of three rows one goes, one changes and one stays, and one comes.
const BEFORE: &[u8] = b"\"a\",\"n\":1\n\"b\",\"n\":2\n\"c\",\"n\":3\n";

const AFTER: &[u8] = b"\"b\",\"n\":4\n\"c\",\"n\":3\n\"d\",\"n\":5\n";

const CHANGES: &[u8] = b"{\"line\":7,\"went\":\"a\"}
{\"line\":7,\"changed\":\"b\",\"n\":4}
{\"line\":7,\"came\":\"d\",\"n\":5}
";

#[test]
fn a_row_that_stays_is_not_told(rt: HostRuntime) -> Result<(), Fail> {
    let mut text = Vec::new(rt.alloc());
    print_changes(7, BEFORE, AFTER, &mut text)?;
    assert!(rt; text.as_slice() == CHANGES);
    Ok(())
}

// Numbers of each form, none and some, a truth value, and bytes.
const NUMBERS: &[u8] = b"4096\"001f0001\"null\"00010000\"true\"610a\"";

fn puts_numbers(rt: &impl Abort, alloc: Global) -> Result<(), Fail> {
    let mut text = Vec::new(alloc);
    put_decimal(&mut text, 4096)?;
    put_hex(&mut text, 0x1f0001)?;
    put_number_or_null(&mut text, None)?;
    put_hex_or_null(&mut text, Some(65536))?;
    put_flag(&mut text, true)?;
    put_hex_bytes(&mut text, b"a\n")?;
    assert!(rt; text.as_slice() == NUMBERS);
    Ok(())
}

// A birth, the names that it is of, a kind of port, and a name with a sign of each sort.
const NAMES: &[u8] = b"24.3\"section 24.3\"\"port 24.3\"\"client\"\\\\a\\u002c\\\"\\u0009";

fn puts_names(rt: &impl Abort, alloc: Global) -> Result<(), Fail> {
    let birth = Birth {
        maker: 24,
        ordinal: 3,
        process: 20,
    };
    let mut text = Vec::new(alloc);
    put_birth(&mut text, birth)?;
    put_object(&mut text, ObjectKind::Section, birth)?;
    put_port_or_null(&mut text, Some(birth))?;
    put_port_kind(&mut text, PortKind::Client)?;
    put_name(&mut text, b"\\a,\"\t")?;
    assert!(rt; text.as_slice() == NAMES);
    Ok(())
}

#[test]
fn each_value_has_its_form(rt: HostRuntime) -> Result<(), Fail> {
    puts_numbers(&rt, rt.alloc())?;
    puts_names(&rt, rt.alloc())
}

// The user of a system's token, and its groups.
const SYSTEM: &[u8] = b"{\"user\":\"S-1-5-18\",\"groups\":[]}";

// The same at a level.
const LEVELED: &[u8] = b"{\"token\":{\"user\":\"S-1-5-18\",\"groups\":[]},\"level\":2}";

#[test]
fn a_token_shows_its_user(rt: HostRuntime) -> Result<(), Fail> {
    let token = Token {
        user: Sid::read(b"S-1-5-18").unwrap_or_default(),
        groups: ArrayVec::new(),
    };
    let mut text = Vec::new(rt.alloc());
    put_token(&mut text, &token)?;
    assert!(rt; text.as_slice() == SYSTEM);
    text.clear();
    put_leveled(&mut text, &TokenRef::new(&token), Some(2))?;
    assert!(rt; text.as_slice() == LEVELED);
    Ok(())
}

// An access list of one entry.
const LIST: &[u8] = b"{\"dacl\":[{\"allow\":false,\"mask\":\"00000001\",\"sid\":\"S-1-1-0\"}]}";

#[test]
fn an_access_list_shows_its_entries(rt: HostRuntime) -> Result<(), Fail> {
    let mut list = ArrayVec::new();
    list.push(Ace {
        allow: false,
        mask: 1,
        sid: Sid::read(b"S-1-1-0").unwrap_or_default(),
    });
    let mut text = Vec::new(rt.alloc());
    put_security(&mut text, &Security::Guarded(Dacl { list }))?;
    assert!(rt; text.as_slice() == LIST);
    Ok(())
}

// A datagram of thread 24 with the one byte 7, and what it shows.
const MESSAGE: &[u8] = &[
    1, 0, 25, 0, 3, 0, 0, 0, 20, 0, 0, 0, 24, 0, 0, 0, 5, 0, 0, 0, 0, 0, 0, 0, 7,
];

const FIELDS: &[u8] = b"\"type\":3,\"process\":20,\"thread\":24,\"identifier\":5,\
\"data_size\":1,\"message_size\":25,\"ranges_offset\":0,\"section_size\":0,\"data\":\"07\"";

#[test]
fn a_message_shows_its_fields(rt: HostRuntime) -> Result<(), Fail> {
    let mut text = Vec::new(rt.alloc());
    put_message_fields(&mut text, MESSAGE)?;
    assert!(rt; text.as_slice() == FIELDS);
    assert!(rt; header_in(&MESSAGE[..2]).data_size == 1);
    assert!(rt; header_in(&MESSAGE[..2]).message_id == 0);
    Ok(())
}
