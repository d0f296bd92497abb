// What the server keeps of one client.
ghost use Rattle.std.specs.Prelude.{◌≡◌, ◌≤◌, [], length, OnErr, OnOk};
ghost use Rattle.std.specs.Option.{option_copied};
ghost use Rattle.lpc_subsys.specs.Clients.{after_asked, after_request, new_row, reply_of, reply_of_asked};
ghost use Rattle.lpc_subsys.specs.Requests.{IsInBounds, asked, asked_of, request_of};

use crate::ask::{Ask, read_ask};
use crate::atoms::Atoms;
use crate::console::Console;
use crate::profile::FIRST_LEVEL;
use crate::reply::{Reply, grant, grant_number, grant_or, number_bytes, refuse};
use lpc_base::status::{INVALID_PARAMETER, OBJECT_NAME_NOT_FOUND, QUOTA_EXCEEDED};
use lpc_base::{OutOfMemory, Status};
use std::alloc::Global;
use std::marker::Model;

/// A client process, with its atoms, its console and its shutdown level.
#[derive(Drop)]
pub(crate) struct Client {
    process: u32,
    atoms: Atoms,
    console: Console,
    level: u32,
}

impl Model for Client {
    ghost use Rattle.lpc_subsys.specs.Clients.{ClientRow};

    ghost Value = { ClientRow };

    ghost view = { λ c. record { process = c.process; texts = c.atoms; console = c.console; level = c.level } };
}

impl Client {
    /// A client that has asked for nothing. It takes no memory, and keeps the allocator.
    pub(crate) fn new(alloc: Global, process: u32) -> Client
        ensures { result ≡ new_row process }
    {
        Client {
            process,
            atoms: Atoms::new(alloc),
            console: Console::new(alloc),
            level: FIRST_LEVEL,
        }
    }

    /// The number of the process.
    pub(crate) fn process(&self) -> u32
        ensures { result ≡ self.now.process }
    {
        self.process
    }

    /// Answers a request with these data, where the client has this view, into an empty reply.
    ///
    /// After `OutOfMemory` nothing has changed.
    pub(crate) fn answer(
        &mut self,
        bytes: &[u8],
        view: Option<&[u8]>,
        reply: &mut Reply,
    ) -> Result<(), OutOfMemory>
        requires { reply.old.items ≡ [] }
        ensures reply { let request = request_of bytes.now (option_copied view.entry) in
            OnOk result (reply.new.items ≡ reply_of self.old (asked request)) }
        ensures row { let request = request_of bytes.now (option_copied view.entry) in
            OnOk result (self.new ≡ after_request self.old (asked request)) }
        ensures same { OnErr result (self.new ≡ self.old) }
        ensures unanswered { OnErr result (reply.new.items ≡ []) }
    {
        match read_ask(bytes, view) {
            Some(ask) => self.answer_ask(ask, reply),
            None => {
                refuse(reply, INVALID_PARAMETER);
                Ok(())
            }
        }
    }

    // Answers what a request asks for.
    fn answer_ask(&mut self, ask: Ask<'_>, reply: &mut Reply) -> Result<(), OutOfMemory>
        requires empty { reply.old.items ≡ [] }
        requires bounds { IsInBounds ask }
        ensures reply { OnOk result
            (reply.new.items ≡ reply_of_asked self.old (asked_of ask.entry)) }
        ensures row { OnOk result (self.new ≡ after_asked self.old (asked_of ask.entry)) }
        ensures same { OnErr result (self.new ≡ self.old) }
        ensures unanswered { OnErr result (reply.new.items ≡ []) }
    {
        match ask {
            Ask::AtomOf(text) => grant_number(reply, QUOTA_EXCEEDED, self.atoms.atom_of(text)?),
            Ask::TextOf(atom) => grant_or(reply, OBJECT_NAME_NOT_FOUND, self.atoms.text_of(atom)),
            Ask::Write(bytes) => grant_number(reply, QUOTA_EXCEEDED, self.console.write(bytes)?),
            Ask::Read { from, count } => {
                grant_or(
                    reply,
                    INVALID_PARAMETER,
                    self.console.read(from as usize, count as usize),
                )
            }
            Ask::SetLevel(level) => {
                self.level = level;
                grant(reply, &[]);
            }
            Ask::Level => grant(reply, &number_bytes(self.level)),
        }
        Ok(())
    }
}
