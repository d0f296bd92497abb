// What a request asks for, read off its data.
ghost use Rattle.std.specs.Prelude.{◌≡◌, ◌+◌, ◌≤◌, length, option_map, IfSome};
ghost use Rattle.std.specs.Option.{option_copied};
ghost use Rattle.lpc_message.specs.Layout.{word_at};
ghost use Rattle.lpc_subsys.specs.Requests.{IsInBounds, asked, asked_atom, asked_by, asked_level, asked_of, asked_read, asked_telling, asked_text, asked_view, asked_write, part_of_view, request_of};

use crate::profile::{CONSOLE_LIMIT, LEVEL_LIMIT, READ_LIMIT, TEXT_LIMIT, WRITE_LIMIT};
use byteorder::{ByteOrder, LittleEndian};

// The numbers of the apis.
const ADD_ATOM: u32 = 1;

const ATOM_TEXT: u32 = 2;

const WRITE_CONSOLE: u32 = 3;

const WRITE_CONSOLE_FROM_VIEW: u32 = 4;

const READ_CONSOLE: u32 = 5;

const SET_LEVEL: u32 = 6;

const GET_LEVEL: u32 = 7;

// The number of an api, at the head of a request's data.
const API_SIZE: usize = 4;

/// What a request asks for. The bytes lie in the message, or in the client's view.
#[derive(Clone, Copy)]
pub enum Ask<'a> {
    /// The atom of a text, which is given one where it has none.
    AtomOf(&'a [u8]),
    /// The text of an atom.
    TextOf(u32),
    /// That these bytes be put behind those in the console.
    Write(&'a [u8]),
    /// The console's bytes from a place on, so many at most.
    Read {
        /// The place in the console.
        from: u32,
        /// How many bytes, at most.
        count: u32,
    },
    /// Another shutdown level.
    SetLevel(u32),
    /// The shutdown level.
    Level,
}

/// What a request with these data asks for, where its client has this view; None where the arguments are of another
/// length or out of bounds.
#[tactic(auto, unfolding(crate::specs::Requests::asked))]
pub fn read_ask<'a>(bytes: &'a [u8], view: Option<&'a [u8]>) -> Option<Ask<'a>>
    ensures what { option_map asked_of result
        ≡ asked (request_of bytes.now (option_copied view.entry)) }
    ensures bounds { IfSome result IsInBounds }
{
    if bytes.len() < API_SIZE {
        return None;
    }
    asked_by(word_at(bytes, 0), &bytes[API_SIZE..], view)
}

// What an api asks for with these arguments.
#[tactic(auto, unfolding(crate::specs::Requests::asked_by))]
fn asked_by<'a>(api: u32, arguments: &'a [u8], view: Option<&'a [u8]>) -> Option<Ask<'a>>
    ensures what { option_map asked_of result
        ≡ asked_by api arguments.now (option_copied view.entry) }
    ensures bounds { IfSome result IsInBounds }
{
    match api {
        ADD_ATOM => asked_atom(arguments),
        ATOM_TEXT => asked_text(arguments),
        WRITE_CONSOLE => asked_write(arguments),
        WRITE_CONSOLE_FROM_VIEW => asked_view(arguments, view),
        READ_CONSOLE => asked_read(arguments),
        SET_LEVEL => asked_level(arguments),
        GET_LEVEL => asked_telling(arguments),
        _ => None,
    }
}

// The atom of a text.
#[tactic(auto, unfolding(crate::specs::Requests::asked_atom))]
fn asked_atom<'a>(arguments: &'a [u8]) -> Option<Ask<'a>>
    ensures what { option_map asked_of result ≡ asked_atom arguments.now }
    ensures bounds { IfSome result IsInBounds }
{
    if arguments.is_empty() || arguments.len() > TEXT_LIMIT {
        return None;
    }
    Some(Ask::AtomOf(arguments))
}

// The text of an atom.
#[tactic(auto, unfolding(crate::specs::Requests::asked_text))]
fn asked_text<'a>(arguments: &[u8]) -> Option<Ask<'a>>
    ensures what { option_map asked_of result ≡ asked_text arguments.now }
    ensures bounds { IfSome result IsInBounds }
{
    if arguments.len() != 4 {
        return None;
    }
    Some(Ask::TextOf(word_at(arguments, 0)))
}

// A write of the arguments.
#[tactic(auto, unfolding(crate::specs::Requests::asked_write))]
fn asked_write<'a>(arguments: &'a [u8]) -> Option<Ask<'a>>
    ensures what { option_map asked_of result ≡ asked_write arguments.now }
    ensures bounds { IfSome result IsInBounds }
{
    if arguments.len() > WRITE_LIMIT {
        return None;
    }
    Some(Ask::Write(arguments))
}

// A write of a part of the view.
#[tactic(auto, unfolding(crate::specs::Requests::asked_view))]
fn asked_view<'a>(arguments: &[u8], view: Option<&'a [u8]>) -> Option<Ask<'a>>
    ensures what { option_map asked_of result
        ≡ asked_view arguments.now (option_copied view.entry) }
    ensures bounds { IfSome result IsInBounds }
{
    if arguments.len() != 8 {
        return None;
    }
    let bytes = part_of_view(view, word_at(arguments, 0), word_at(arguments, 4))?;
    Some(Ask::Write(bytes))
}

// A read of the console.
#[tactic(auto, unfolding(crate::specs::Requests::asked_read))]
fn asked_read<'a>(arguments: &[u8]) -> Option<Ask<'a>>
    ensures what { option_map asked_of result ≡ asked_read arguments.now }
    ensures bounds { IfSome result IsInBounds }
{
    if arguments.len() != 8 {
        return None;
    }
    let from = word_at(arguments, 0);
    let count = word_at(arguments, 4);
    if count > READ_LIMIT {
        return None;
    }
    Some(Ask::Read { from, count })
}

// A change of the level.
#[tactic(auto, unfolding(crate::specs::Requests::asked_level))]
fn asked_level<'a>(arguments: &[u8]) -> Option<Ask<'a>>
    ensures what { option_map asked_of result ≡ asked_level arguments.now }
    ensures bounds { IfSome result IsInBounds }
{
    if arguments.len() != 4 {
        return None;
    }
    let level = word_at(arguments, 0);
    if level > LEVEL_LIMIT {
        return None;
    }
    Some(Ask::SetLevel(level))
}

// The level.
#[tactic(auto, unfolding(crate::specs::Requests::asked_telling))]
fn asked_telling<'a>(arguments: &[u8]) -> Option<Ask<'a>>
    ensures what { option_map asked_of result ≡ asked_telling arguments.now }
    ensures bounds { IfSome result IsInBounds }
{
    if !arguments.is_empty() {
        return None;
    }
    Some(Ask::Level)
}

// So many bytes of a view from an offset.
fn part_of_view<'a>(view: Option<&'a [u8]>, offset: u32, size: u32) -> Option<&'a [u8]>
    ensures { option_copied result ≡ part_of_view (option_copied view.entry) offset size }
{
    let bytes = view?;
    let offset = offset as usize;
    let size = size as usize;
    if size == 0 || size > CONSOLE_LIMIT || offset + size > bytes.len() {
        return None;
    }
    Some(&bytes[offset..offset + size])
}

// A number of four bytes, its low byte first.
fn word_at(bytes: &[u8], at: usize) -> u32
    requires { at + 4 ≤ length bytes.now }
    ensures { result ≡ word_at bytes.now at }
{
    LittleEndian::read_u32(&bytes[at..])
}
