// The lines of a storm, and how they are spelled.
ghost use Rattle.std.specs.Prelude.{◌≡◌, ◌++◌, OnOk};
ghost use Rattle.lpc_storm.specs.Generated.{head_text, line_text, sending_text};

use lpc_base::OutOfMemory;
use lpc_transcript::{put, put_digits, put_number};

/// A line of a storm. A server's thread 24 serves eight clients over one connection port. A client is named by its
/// number i from 1 to 8: its process is 100 + i, its thread 200 + i, and the handle of its server port 4 + 4i. Which
/// lines a storm has is this project's own.
#[derive(Clone, Copy)]
pub enum StormLine {
    /// The directory `\S` is made.
    Directory,
    /// The server's process and its thread are made.
    BootServer,
    /// The server makes the port `\S\P`, of handle 4.
    Create,
    /// A client's process and its thread are made.
    Boot {
        client: u32,
    },
    /// A client connects to the port.
    Connect {
        client: u32,
    },
    /// The server listens for a connect.
    Listen,
    /// The server accepts a client's connect. The context is the client's number.
    Accept {
        client: u32,
    },
    /// The server completes a client's connection.
    Complete {
        client: u32,
    },
    /// A client sends four bytes as a datagram.
    Datagram {
        client: u32,
        bytes: u32,
    },
    /// A client sends four bytes as a request.
    Request {
        client: u32,
        bytes: u32,
    },
    /// The server receives.
    Receive,
    /// The server replies with four bytes, through a handle, to a client's request of this identifier.
    Reply {
        handle: u32,
        client: u32,
        identifier: u32,
        bytes: u32,
    },
    /// The server's process ends.
    EndServer,
    /// A client's process ends.
    End {
        client: u32,
    },
}

/// The handle through which the server receives.
pub(crate) const PORT: u32 = 4;

/// What a client's number and its process's or thread's number differ by.
const PROCESSES: u64 = 100;

const THREADS: u64 = 200;

/// Appends whom a reply is for: the client's process and thread, and the identifier.
#[tactic(auto, using(std::proofs::Common::append_assoc))]
fn put_head(into: &mut Vec<u8>, client: u32, identifier: u32) -> Result<(), OutOfMemory>
    ensures { OnOk result (into.new.items ≡ into.old.items ++ head_text client identifier) }
{
    put(into, b" r:")?;
    put_number(into, PROCESSES + u64::from(client))?;
    put(into, b".")?;
    put_number(into, THREADS + u64::from(client))?;
    put(into, b".")?;
    put_number(into, u64::from(identifier))?;
    put(into, b":")
}

/// Appends a client's thread and its call with four bytes.
#[tactic(auto, using(std::proofs::Common::append_assoc))]
fn put_sending(into: &mut Vec<u8>, client: u32, call: &[u8], bytes: u32) -> Result<(), OutOfMemory>
    ensures { OnOk result (into.new.items
        ≡ into.old.items ++ sending_text client call.now bytes) }
{
    put_number(into, THREADS + u64::from(client))?;
    put(into, b" ")?;
    put(into, call)?;
    put(into, b" 4 d:")?;
    put_digits(into, bytes)
}

impl StormLine {
    /// Writes the line, without the byte 10 that ends it, in place of what the buffer held.
    ///
    /// OutOfMemory comes where memory for the buffer is wanting; no clause tells more of when it does.
    #[tactic(auto, using(std::proofs::Common::append_assoc), unfolding(crate::specs::Generated::line_text))]
    pub fn write(&self, into: &mut Vec<u8>) -> Result<(), OutOfMemory>
        ensures { OnOk result (into.new.items ≡ line_text self.now) }
    {
        into.clear();
        match *self {
            StormLine::Directory => put(into, b"dir \\S"),
            StormLine::BootServer => put(into, b"boot 20 24"),
            StormLine::Create => put(into, b"24 NtCreatePort \\S\\P"),
            StormLine::Boot { client } => {
                put(into, b"boot ")?;
                put_number(into, PROCESSES + u64::from(client))?;
                put(into, b" ")?;
                put_number(into, THREADS + u64::from(client))
            }
            StormLine::Connect { client } => {
                put_number(into, THREADS + u64::from(client))?;
                put(into, b" NtConnectPort \\S\\P - - -")
            }
            StormLine::Listen => put(into, b"24 NtListenPort 4"),
            StormLine::Accept { client } => {
                put(into, b"24 NtAcceptConnectPort ")?;
                put_number(into, u64::from(client))?;
                put_head(into, client, 1)?;
                put(into, b" accept -")
            }
            StormLine::Complete { client } => {
                put(into, b"24 NtCompleteConnectPort ")?;
                put_number(into, 4 + 4 * u64::from(client))
            }
            StormLine::Datagram { client, bytes } => {
                put_sending(into, client, b"NtRequestPort", bytes)
            }
            StormLine::Request { client, bytes } => {
                put_sending(into, client, b"NtRequestWaitReplyPort", bytes)
            }
            StormLine::Receive => put(into, b"24 NtReplyWaitReceivePort 4"),
            StormLine::Reply {
                handle,
                client,
                identifier,
                bytes,
            } => {
                put(into, b"24 NtReplyPort ")?;
                put_number(into, u64::from(handle))?;
                put_head(into, client, identifier)?;
                put_digits(into, bytes)
            }
            StormLine::EndServer => put(into, b"24 NtTerminateProcess self 0"),
            StormLine::End { client } => {
                put_number(into, THREADS + u64::from(client))?;
                put(into, b" NtTerminateProcess self 0")
            }
        }
    }
}
