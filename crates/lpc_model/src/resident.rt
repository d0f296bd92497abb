// What a server on a thread knows of its connections, and what it does next.
ghost use Rattle.std.specs.Prelude.{◌≡◌, ◌≤◌, ◌+◌, None, length};
ghost use Rattle.lpc_message.specs.Layout.{fault_of};
ghost use Rattle.lpc_model.specs.Requests.{lawful_message};

use arrayvec::ArrayVec;
use lpc_message::{ClientId, MessageRef};
use std::marker::Model;

/// A connect, by the client and the identifier of its connection request.
#[derive(Clone, Copy)]
pub struct Connect {
    /// The process and the thread that connect.
    pub client: ClientId,
    /// The identifier of the connection request.
    pub identifier: u32,
}

/// Where a server sees what a client offers.
#[derive(Clone, Copy)]
pub struct ClientView {
    /// Its base in the server's process.
    pub base: u32,
    /// How many bytes it shows.
    pub size: u32,
}

/// A connection that a server accepted.
#[derive(Clone, Copy)]
pub struct Connection {
    /// The connect that made it.
    pub connect: Connect,
    /// The handle to its server port.
    pub handle: u32,
    /// What the client offers, where it offers something.
    pub view: Option<ClientView>,
}

/// A message of lawful shape, of at most 256 bytes.
#[derive(Drop)]
pub struct Asked {
    bytes: ArrayVec<u8, 256>,
}

impl Model for Asked {
    ghost use Rattle.std.specs.Prelude.{ℕ, List, None, ◌≡◌, ◌≤◌, length};
    ghost use Rattle.lpc_message.specs.Layout.{fault_of};

    ghost Value = { List ℕ };

    ghost view = { λ a. a.bytes.items };

    ghost invariant = { λ a. (fault_of a.bytes.items ≡ None) × (length a.bytes.items ≤ 256) };
}

impl Asked {
    /// A copy of these bytes; none where they are no such message.
    pub fn read(bytes: &[u8]) -> Option<Asked>
        ensures { result ≡ lawful_message bytes.now }
    {
        if bytes.len() > 256 || MessageRef::read(bytes).is_err() {
            return None;
        }
        let mut kept = ArrayVec::new();
        kept.try_extend_from_slice(bytes).unwrap();
        Some(Asked { bytes: kept })
    }

    /// The message, where it is kept.
    pub fn message(&self) -> MessageRef<'_>
        ensures bytes { result.now ≡ self.now }
    {
        match MessageRef::read(self.bytes.as_slice()) {
            Ok(message) => message,
            Err(_) => unreachable!(),
        }
    }
}

/// What a server on a thread does at its next turn.
#[derive(Drop)]
pub enum Deed {
    /// It receives.
    Receives,
    /// It answers a connect.
    AnswersConnect(Connect),
    /// It completes a connection that it accepted.
    Completes(Connection),
    /// It closes a connection.
    Closes(Connection),
    /// It replies to a request, and receives.
    RepliesTo(Asked),
}
