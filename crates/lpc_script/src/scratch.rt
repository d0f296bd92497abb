// The bytes that hexadecimal words stand for, and the messages that they make.
ghost use Rattle.std.specs.Prelude.{◌≡◌, ◌≤◌, ◌+◌, ◌/◌, length, take, IfOk};
ghost use Rattle.lpc_base.specs.declared.limits.TheConstants.{HEADER_SIZE, LINE_LIMIT};
ghost use Rattle.lpc_model.specs.Words.{hex_word, hex_message, info_word, reply_message, message_word};
ghost use Rattle.lpc_script.specs.Front.{behind, message_and_bytes};
ghost use Rattle.lpc_words.specs.Gives.{Gives};

use hex::decode_to_slice;
use lpc_base::OutOfMemory;
use lpc_base::limits::{HEADER_SIZE, LINE_LIMIT};
use lpc_message::{ClientId, Header, write_header};
use lpc_model::LineFault;
use lpc_sid::{Dacl, Token};
use lpc_words::{number, split_once, three_parts};
use std::alloc::Global;
use std::marker::Model;

/// Room for the bytes that the hexadecimal words of a line stand for, for its access list, and for its token.
///
/// It is made once and lent to each line in turn.
#[derive(Drop)]
pub struct Scratch {
    room: Vec<u8>,
    dacl: Dacl,
    token: Token,
}

impl Model for Scratch {
    ghost use Rattle.std.specs.Prelude.{◌≡◌, ℕ, List, length};
    ghost use Rattle.lpc_base.specs.declared.limits.TheConstants.{LINE_LIMIT};

    ghost Value = { List ℕ };

    ghost view = { λ s. s.room.items };

    ghost invariant = { λ s. length s.room.items ≡ LINE_LIMIT };
}

impl Scratch {
    /// Room for 16,384 bytes, an access list and a token.
    ///
    /// OutOfMemory comes where memory for it is wanting; no clause tells more of when it does.
    pub fn new(alloc: Global) -> Result<Scratch, OutOfMemory>
        ensures { IfOk result (λ s. length s ≡ LINE_LIMIT) }
    {
        let Ok(room) = vec![in alloc; 0u8; LINE_LIMIT] else {
            return Err(OutOfMemory);
        };
        Ok(Scratch {
            room,
            dacl: Dacl::default(),
            token: Token::default(),
        })
    }

    /// The message that a word spells.
    ///
    /// `Message` where the word has none of the forms; then `Number` for the first number of an `r:` that is none; then
    /// `Hex` where the digits are no pairs of hexadecimal digits.
    pub(crate) fn message(&mut self, word: &[u8]) -> Result<&[u8], LineFault>
        requires { length word.now ≤ LINE_LIMIT }
        ensures { Gives (λ bytes. bytes.now) result (message_word word.now) }
    {
        let end = fill_message(&mut self.room, word)?;
        Ok(&self.room[..end])
    }

    /// The message that a word spells, and behind it a number and bytes, each by the word that stands for it.
    ///
    /// The message's fault, then `Number` where the number is none, then `Hex` where the digits are no pairs of
    /// hexadecimal digits.
    pub(crate) fn message_and_bytes(
        &mut self,
        message: &[u8],
        index: &[u8],
        digits: &[u8],
    ) -> Result<(&[u8], u32, &[u8]), LineFault>
        requires { length message.now + length digits.now ≤ LINE_LIMIT }
        ensures { Gives (λ p. (p.0.now, p.1, p.2.now)) result
            (message_and_bytes message.now index.now digits.now) }
    {
        let end = fill_message(&mut self.room, message)?;
        let index = number(index)?;
        let size = fill(&mut self.room[end..], &[], digits)?;
        let room = self.room.as_slice();
        Ok((&room[..end], index, &room[end..end + size]))
    }

    /// The bytes that come with a connect, as a word spells them.
    ///
    /// `Message` where the word has none of the forms, `Hex` where its digits are no pairs of hexadecimal digits.
    #[tactic(auto, unfolding(lpc_model::specs::Words::info_word))]
    pub(crate) fn info(&mut self, word: &[u8]) -> Result<&[u8], LineFault>
        requires { length word.now ≤ LINE_LIMIT }
        ensures { Gives (λ bytes. bytes.now) result (info_word word.now) }
    {
        if word == b"-".as_slice() {
            return Ok(&[]);
        }
        if word.starts_with(b"d:") {
            return self.bytes(&word[2..]);
        }
        Err(LineFault::Message)
    }

    /// The bytes that a word stands for; `Hex` where it is no pairs of hexadecimal digits.
    pub(crate) fn bytes(&mut self, word: &[u8]) -> Result<&[u8], LineFault>
        requires { length word.now ≤ LINE_LIMIT }
        ensures { Gives (λ bytes. bytes.now) result (hex_word word.now) }
    {
        let end = fill(&mut self.room, &[], word)?;
        Ok(&self.room[..end])
    }

    /// Holds an access list for a line, and lends it.
    pub(crate) fn hold_dacl(&mut self, dacl: Dacl) -> &Dacl
        ensures { result.now ≡ dacl }
    {
        self.dacl = dacl;
        &self.dacl
    }

    /// Holds a token for a line, and lends it.
    pub(crate) fn hold_token(&mut self, token: Token) -> &Token
        ensures { result.now ≡ token }
    {
        self.token = token;
        &self.token
    }
}

/// Writes the message that a word spells over room; how many bytes it has.
///
/// `Message` where the word has none of the forms; then `Number` for the first number of an `r:` that is none; then
/// `Hex` where the digits are no pairs of hexadecimal digits.
#[tactic(auto, unfolding(lpc_model::specs::Words::message_word))]
fn fill_message(room: &mut [u8], word: &[u8]) -> Result<usize, LineFault>
    requires room { HEADER_SIZE + length word.now / 2 ≤ length room.old }
    requires word { length word.now ≤ LINE_LIMIT }
    ensures value { Gives (λ end. take end room.new) result (message_word word.now) }
    ensures end { IfOk result (λ end. end ≤ HEADER_SIZE + length word.now / 2) }
{
    if word.starts_with(b"m:") {
        return fill(room, &[], &word[2..]);
    }
    if word.starts_with(b"d:") {
        let none = ClientId {
            process: 0,
            thread: 0,
        };
        return fill_made(room, none, 0, &word[2..]);
    }
    if word.starts_with(b"r:") {
        return fill_reply(room, &word[2..]);
    }
    Err(LineFault::Message)
}

/// Writes the message that replies to the client and the identifier in front of the first colon; how many bytes it has.
///
/// `Message` where there is no colon, or not three parts in front of it; then `Number` for the first part that is
/// no number; then `Hex` where the digits are no pairs of hexadecimal digits.
#[tactic(auto, unfolding(lpc_model::specs::Words::reply_message))]
fn fill_reply(room: &mut [u8], text: &[u8]) -> Result<usize, LineFault>
    requires room { HEADER_SIZE + length text.now / 2 ≤ length room.old }
    requires text { length text.now ≤ LINE_LIMIT }
    ensures value { Gives (λ end. take end room.new) result (reply_message text.now) }
    ensures end { IfOk result (λ end. end ≤ HEADER_SIZE + length text.now / 2) }
{
    let (numbers, digits) = split_once(text, b':').ok_or(LineFault::Message)?;
    let (process, thread, message_id) = three_parts(numbers, b'.').ok_or(LineFault::Message)?;
    let process = number(process)?;
    let thread = number(thread)?;
    let message_id = number(message_id)?;
    fill_made(room, ClientId { process, thread }, message_id, digits)
}

/// Writes the message whose data digits stand for, with its header made; how many bytes it has. `Hex` where they are no
/// pairs of hexadecimal digits.
fn fill_made(
    room: &mut [u8],
    client: ClientId,
    message_id: u32,
    digits: &[u8],
) -> Result<usize, LineFault>
    requires room { HEADER_SIZE + length digits.now / 2 ≤ length room.old }
    requires digits { length digits.now ≤ LINE_LIMIT }
    ensures value { Gives (λ end. take end room.new) result
        (hex_message client message_id digits.now) }
    ensures end { IfOk result (λ end. end ≤ HEADER_SIZE + length digits.now / 2) }
{
    let size = (digits.len() / 2) as u16;
    let mut front = [0u8; HEADER_SIZE];
    write_header(
        &mut front,
        &Header {
            data_size: size,
            message_size: HEADER_SIZE as u16 + size,
            kind: 0,
            ranges_offset: 0,
            client,
            message_id,
            section_size: 0,
        },
    );
    fill(room, &front, digits)
}

/// Writes a front over room, and behind it the bytes that digits stand for; how many bytes there are then. `Hex` where
/// they are no pairs of hexadecimal digits.
fn fill(room: &mut [u8], front: &[u8], digits: &[u8]) -> Result<usize, LineFault>
    requires { length front.now + length digits.now / 2 ≤ length room.old }
    ensures value { Gives (λ end. take end room.new) result
        (behind front.now (hex_word digits.now)) }
    ensures end { IfOk result (λ end. end ≡ length front.now + length digits.now / 2) }
{
    let (head, tail) = room.split_at_mut(front.len());
    let size = digits.len() / 2;
    decode(digits, &mut tail[..size])?;
    head.copy_from_slice(front);
    Ok(front.len() + size)
}

/// Writes the bytes that digits stand for over room of half their number; `Hex` where they are no pairs of hexadecimal
/// digits.
#[tactic(auto, unfolding(lpc_model::specs::Words::hex_word))]
fn decode(digits: &[u8], room: &mut [u8]) -> Result<(), LineFault>
    requires { length room.old ≡ length digits.now / 2 }
    ensures { Gives (λ _. room.new) result (hex_word digits.now) }
{
    match decode_to_slice(digits, room) {
        Ok(()) => Ok(()),
        Err(_) => Err(LineFault::Hex),
    }
}
