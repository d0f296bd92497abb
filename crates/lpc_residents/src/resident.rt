// A server on a thread.
ghost use Rattle.std.specs.Prelude.{ℕ, List, ◌≡◌, ◌≤◌, [], ◌++◌, ◌∷◌, drop, length, map, true, false, OnErr, OnOk, IfOk};
ghost use Rattle.std.specs.Option.{option_copied};
ghost use Rattle.lpc_base.specs.Rows.{first, has, without};
ghost use Rattle.lpc_message.specs.Layout.{header_of};
ghost use Rattle.lpc_sid.specs.declared.sid.Sid.{Sid};
ghost use Rattle.lpc_model.specs.Residents as spec;
ghost use Rattle.lpc_model.specs.Residents.{begun, call_for, heard_by, is_made_by, is_with, joined, left, new_resident, offers_view, reply_message_to, resolved};
ghost use Rattle.lpc_model.specs.Words.{made_message};
ghost use Rattle.lpc_subsys.specs.Clients.{is_client};
ghost use Rattle.lpc_model.specs.Lines.{call_of};
ghost use Rattle.lpc_model.specs.World.{World};
ghost use Rattle.lpc_subsys.specs.Requests.{request_of};
ghost use Rattle.lpc_residents.specs.Kept.{AreClients, kept};
ghost use Rattle.lpc_residents.specs.Shown.{fields_with};
ghost use Rattle.lpc_residents.specs.Turns.{awaiting, behind_completion, bytes_wanted, gains, is_reply, makes_connection, own_call, view_wanted, view_with, with_deed};

use crate::fields::{handle_told, message, view};
use arrayvec::ArrayVec;
use lpc_base::limits::HEADER_SIZE;
use lpc_base::status::SUCCESS;
use lpc_base::{OutOfMemory, Status};
use lpc_message::kind::{CONNECTION_REQUEST, PORT_CLOSED, REQUEST};
use lpc_message::{ClientId, Header, write_header};
use lpc_model::{Asked, Call, ClientView, Connect, Connection, Deed, Fields};
use lpc_subsys::Server;
use std::alloc::Global;
use std::marker::Model;

/// How many connections of one server may stand.
const CONNECTION_LIMIT: usize = 64;

/// A call that a server makes, whose message, if it has one, stands in a buffer beside it.
#[derive(Clone, Copy)]
pub enum OwnCall {
    /// It receives on the port that it serves.
    Receives,
    /// It replies with the message, and receives.
    Replies,
    /// It answers the connect that the message names.
    Answers { context: u32, accept: bool },
    /// It completes the connection of a server port.
    Completes(u32),
    /// It closes a handle.
    Closes(u32),
}

/// A server on a thread.
#[derive(Drop)]
pub(crate) struct Resident {
    thread: u32,
    handle: u32,
    deed: Deed,
    awaits: bool,
    connections: Vec<Connection>,
    server: Server,
}

impl Model for Resident {
    ghost use Rattle.std.specs.Prelude.{List};
    ghost use Rattle.lpc_model.specs.Residents as spec;
    ghost use Rattle.lpc_residents.specs.Kept.{AreClients};
    ghost use Rattle.lpc_subsys.specs.Clients.{ClientRow};

    ghost Value = { spec.Resident (List ClientRow) };

    ghost view = { λ r. record {
      thread = r.thread;
      handle = r.handle;
      deed = r.deed;
      awaits = r.awaits;
      connections = r.connections.items;
      clients = r.server;
    } };

    ghost invariant = { λ r. AreClients r.server r.connections.items };
}

impl Resident {
    /// A server that has made no call yet, on a thread, for the port of a handle.
    pub(crate) fn new(alloc: Global, thread: u32, handle: u32) -> Resident
        ensures { result ≡ new_resident kept thread handle }
    {
        Resident {
            thread,
            handle,
            deed: Deed::Receives,
            awaits: false,
            connections: Vec::new(alloc),
            server: Server::new(alloc),
        }
    }

    /// The thread that it sits on.
    pub(crate) fn thread(&self) -> u32
        ensures { result ≡ self.now.thread }
    {
        self.thread
    }

    /// The handle of the port that it serves.
    pub(crate) fn handle(&self) -> u32
        ensures { result ≡ self.now.handle }
    {
        self.handle
    }

    /// Hears the outcome of a call of its thread: a status and fields, whose mark for a memory read stands for these
    /// bytes, and one for the groups of a token for whatever groups. It is that of its own call where it awaits one, and
    /// else nothing to it.
    ///
    /// OutOfMemory comes only where it hears of a connection that came of its own answer to a connect; no clause tells
    /// more of when it does, or of what is left then but the thread.
    pub(crate) fn hear(
        &mut self,
        status: Status,
        fields: &Fields,
        read: &[u8],
    ) -> Result<(), OutOfMemory>
        ensures heard { (groups : List Sid) → OnOk result (self.new ≡
            heard_by kept status (fields_with read.now groups fields.now) self.old) }
        ensures thread { self.new.thread ≡ self.old.thread }
        ensures wanting { OnErr result (gains fields.now self.old ≡ true) }
    {
        if self.awaits {
            self.resolve(status, fields, read)?;
        }
        Ok(())
    }

    /// The view whose bytes its next call may need: that of the client to whose request it replies, none where it
    /// replies to none or the client offers nothing.
    pub(crate) fn view_wanted(&self) -> Option<ClientView>
        ensures { result ≡ view_wanted self.now }
    {
        match &self.deed {
            Deed::RepliesTo(asked) => {
                view_with(&self.connections, asked.message().header().client.process)
            }
            _ => None,
        }
    }

    /// Begins its next call, with the bytes of the view that it wants, and with the message that it sends in an empty
    /// buffer.
    ///
    /// OutOfMemory comes only where it replies to a request, whose client may take memory; no clause tells more of when
    /// it does. The server is as it was then; what the buffer holds no clause tells.
    pub(crate) fn begin(
        &mut self,
        bytes: Option<&[u8]>,
        buffer: &mut ArrayVec<u8, 256>,
    ) -> Result<OwnCall, OutOfMemory>
        requires { buffer.old.items ≡ [] }
        ensures begun { (w : World) → option_copied bytes.entry ≡ bytes_wanted w self.old →
            OnOk result (self.new ≡ begun kept w self.old) }
        ensures call { (w : World) → option_copied bytes.entry ≡ bytes_wanted w self.old →
            IfOk result (λ own. own_call own self.old.handle buffer.new.items
            ≡ call_for kept w self.old self.old.deed) }
        ensures thread { self.new.thread ≡ self.old.thread }
        ensures handle { self.new.handle ≡ self.old.handle }
        ensures same { OnErr result (self.new ≡ self.old) }
        ensures wanting { OnErr result (is_reply self.old.deed ≡ true) }
    {
        let call = self.make_call(bytes, buffer)?;
        self.awaits = true;
        Ok(call)
    }

    // Makes its next call, whose outcome it awaits then.
    fn make_call(
        &mut self,
        bytes: Option<&[u8]>,
        buffer: &mut ArrayVec<u8, 256>,
    ) -> Result<OwnCall, OutOfMemory>
        requires { buffer.old.items ≡ [] }
        ensures begun { (w : World) → option_copied bytes.entry ≡ bytes_wanted w self.old →
            OnOk result (awaiting self.new ≡ begun kept w self.old) }
        ensures call { (w : World) → option_copied bytes.entry ≡ bytes_wanted w self.old →
            IfOk result (λ own. own_call own self.old.handle buffer.new.items
            ≡ call_for kept w self.old self.old.deed) }
        ensures thread { self.new.thread ≡ self.old.thread }
        ensures handle { self.new.handle ≡ self.old.handle }
        ensures same { OnErr result (self.new ≡ self.old) }
        ensures wanting { OnErr result (is_reply self.old.deed ≡ true) }
    {
        match &self.deed {
            Deed::Receives => Ok(OwnCall::Receives),
            Deed::AnswersConnect(connect) => {
                write_message(buffer, connect.client, connect.identifier, &[]);
                Ok(OwnCall::Answers {
                    context: connect.client.process,
                    accept: self.connections.len() < CONNECTION_LIMIT,
                })
            }
            Deed::Completes(connection) => Ok(OwnCall::Completes(connection.handle)),
            Deed::Closes(connection) => {
                let connection = *connection;
                let_go(&mut self.connections, &mut self.server, connection.connect);
                Ok(OwnCall::Closes(connection.handle))
            }
            Deed::RepliesTo(asked) => {
                reply(&mut self.server, asked, bytes, buffer)?;
                Ok(OwnCall::Replies)
            }
        }
    }

    // Takes the outcome of its call.
    fn resolve(&mut self, status: Status, fields: &Fields, read: &[u8]) -> Result<(), OutOfMemory>
        ensures resolved { (groups : List Sid) → OnOk result (self.new ≡
            resolved kept self.old.deed status (fields_with read.now groups fields.now) self.old) }
        ensures thread { self.new.thread ≡ self.old.thread }
        ensures wanting { OnErr result (makes_connection fields.now self.old.deed ≡ true) }
    {
        let deed = self.deed_behind(status, fields, read)?;
        self.deed = deed;
        self.awaits = false;
        Ok(())
    }

    // What it does next behind the outcome of its call; a connection that was accepted stands then.
    fn deed_behind(
        &mut self,
        status: Status,
        fields: &Fields,
        read: &[u8],
    ) -> Result<Deed, OutOfMemory>
        ensures resolved { (groups : List Sid) → IfOk result (λ deed. with_deed deed self.new ≡
            resolved kept self.old.deed status (fields_with read.now groups fields.now) self.old) }
        ensures thread { self.new.thread ≡ self.old.thread }
        ensures wanting { OnErr result (makes_connection fields.now self.old.deed ≡ true) }
    {
        match &self.deed {
            Deed::Receives => Ok(next_deed(&self.connections, message(fields, read))),
            Deed::RepliesTo(_) => Ok(next_deed(&self.connections, message(fields, read))),
            Deed::AnswersConnect(connect) => match handle_told(fields) {
                Some(handle) => {
                    let connection = Connection {
                        connect: *connect,
                        handle,
                        view: view(fields),
                    };
                    stand(&mut self.connections, &mut self.server, connection)?;
                    Ok(Deed::Completes(connection))
                }
                None => Ok(Deed::Receives),
            },
            Deed::Completes(connection) => Ok(completed(status, *connection)),
            Deed::Closes(_) => Ok(Deed::Receives),
        }
    }
}

impl OwnCall {
    /// The call itself, on the port of a handle where it is made on that.
    pub fn call<'a>(self, handle: u32, message: &'a [u8]) -> Call<'a>
        ensures { call_of result ≡ own_call self handle message.now }
    {
        match self {
            OwnCall::Receives => Call::ReplyWaitReceivePort {
                handle,
                reply: None,
            },
            OwnCall::Replies => Call::ReplyWaitReceivePort {
                handle,
                reply: Some(message),
            },
            OwnCall::Answers { context, accept } => Call::AcceptConnectPort {
                context,
                message,
                accept,
                view: None,
            },
            OwnCall::Completes(port) => Call::CompleteConnectPort { handle: port },
            OwnCall::Closes(port) => Call::Close { handle: port },
        }
    }
}

// The connect that a message names.
fn connect_of(asked: &Asked) -> Connect
    ensures { result ≡ spec.connect_of asked.now }
{
    let header = asked.message().header();
    Connect {
        client: header.client,
        identifier: header.message_id,
    }
}

fn is_made_by(connection: &Connection, connect: Connect) -> bool
    ensures { result ≡ is_made_by connect connection.now }
{
    connection.connect.client.process == connect.client.process
        && connection.connect.client.thread == connect.client.thread
        && connection.connect.identifier == connect.identifier
}

// A connection of a process stands.
fn has_with(connections: &[Connection], process: u32) -> bool
    ensures { result ≡ has (is_with process) connections.now }
{
    for connection in connections {
        if connection.connect.client.process == process {
            return true;
        }
    }
    false
}

// What is done behind a completion: a connection whose completion is refused is closed.
fn completed(status: Status, connection: Connection) -> Deed
    ensures { result ≡ behind_completion status connection }
{
    if status == SUCCESS {
        Deed::Receives
    } else {
        Deed::Closes(connection)
    }
}

// What is done behind a message.
#[tactic(auto, unfolding(lpc_model::specs::Residents::deed_for))]
fn next_deed(connections: &[Connection], asked: Option<Asked>) -> Deed
    ensures { result ≡ spec.deed_behind connections.now asked }
{
    let Some(asked) = asked else {
        return Deed::Receives;
    };
    let kind = asked.message().header().kind;
    if kind == CONNECTION_REQUEST {
        return Deed::AnswersConnect(connect_of(&asked));
    }
    if kind == REQUEST {
        return Deed::RepliesTo(asked);
    }
    if kind == PORT_CLOSED {
        return closing(made_by(connections, connect_of(&asked)));
    }
    Deed::Receives
}

// The connection of a connect.
fn made_by(connections: &[Connection], connect: Connect) -> Option<Connection>
    ensures { result ≡ first (is_made_by connect) connections.now }
{
    connections
        .iter()
        .copied()
        .find(|connection| is_made_by(connection, connect))
}

// A connection that is closed by now is let go; one that isn't known is nobody's.
fn closing(connection: Option<Connection>) -> Deed
    ensures { result ≡ spec.closing connection }
{
    match connection {
        Some(connection) => Deed::Closes(connection),
        None => Deed::Receives,
    }
}

// A connection stands; its process becomes a client with the first one. After OutOfMemory nothing has changed.
fn stand(
    connections: &mut Vec<Connection>,
    server: &mut Server,
    connection: Connection,
) -> Result<(), OutOfMemory>
    requires clients { AreClients server.old connections.old.items }
    ensures stands { OnOk result
        (connections.new.items ≡ connections.old.items ++ connection ∷ []) }
    ensures joined { let process = connection.connect.client.process in
        OnOk result (server.new ≡ joined kept process connections.old.items server.old) }
    ensures clients { AreClients server.new connections.new.items }
{
    let process = connection.connect.client.process;
    let is_client = has_with(connections, process);
    connections.reserve(1).map_err(|_| OutOfMemory)?;
    if !is_client {
        server.join(process)?;
    }
    connections.push_reserved(connection);
    Ok(())
}

// The connection of a connect stands no longer; its process is no client once none of it does.
fn let_go(connections: &mut Vec<Connection>, server: &mut Server, connect: Connect)
    requires clients { AreClients server.old connections.old.items }
    ensures others { connections.new.items ≡ without (is_made_by connect) connections.old.items }
    ensures left { let others = without (is_made_by connect) connections.old.items in
        server.new ≡ left kept connect.client.process others server.old }
    ensures clients { AreClients server.new connections.new.items }
{
    let process = connect.client.process;
    let was_client = has_with(connections, process);
    connections.retain(|connection| !is_made_by(connection, connect));
    if !was_client {
        return;
    }
    if !has_with(connections, process) {
        server.leave(process);
    }
}

// Answers a request by its client's requests and these bytes of the client's view, and writes the reply.
fn reply(
    server: &mut Server,
    asked: &Asked,
    bytes: Option<&[u8]>,
    buffer: &mut ArrayVec<u8, 256>,
) -> Result<(), OutOfMemory>
    requires { buffer.old.items ≡ [] }
    ensures answered { let process = (header_of asked.now).client.process in
        let request = request_of (drop 24 asked.now) (option_copied bytes.entry) in
        OnOk result (server.new ≡ kept.answers process request server.old) }
    ensures reply { let process = (header_of asked.now).client.process in
        let request = request_of (drop 24 asked.now) (option_copied bytes.entry) in
        OnOk result (buffer.new.items ≡
        reply_message_to asked.now (kept.replies server.old process request)) }
    ensures clients { (connections : List Connection) →
        AreClients server.old connections → AreClients server.new connections }
    ensures same { OnErr result (server.new ≡ server.old) }
{
    let request = asked.message();
    let header = request.header();
    let mut data = ArrayVec::new();
    server.turn(&request, bytes, &mut data)?;
    write_message(buffer, header.client, header.message_id, data.as_slice());
    Ok(())
}

// The view of a client: that of the oldest connection of the process that offers one.
fn view_with(connections: &[Connection], process: u32) -> Option<ClientView>
    ensures { result ≡ view_with process connections.now }
{
    let connection = offering(connections, process)?;
    connection.view
}

// The oldest connection of a process that offers a view.
fn offering(connections: &[Connection], process: u32) -> Option<Connection>
    ensures { result ≡ first (offers_view process) connections.now }
{
    connections.iter().copied().find(|connection| {
        connection.connect.client.process == process && connection.view.is_some()
    })
}

// Writes a message with this client, identifier and data, and else zeros, into an empty buffer.
fn write_message(buffer: &mut ArrayVec<u8, 256>, client: ClientId, identifier: u32, body: &[u8])
    requires empty { buffer.old.items ≡ [] }
    requires fits { length body.now ≤ 232 }
    ensures { buffer.new.items ≡ made_message client identifier body.now }
{
    let mut front = [0; 24];
    write_header(
        &mut front,
        &Header {
            data_size: body.len() as u16,
            message_size: (HEADER_SIZE + body.len()) as u16,
            kind: 0,
            ranges_offset: 0,
            client,
            message_id: identifier,
            section_size: 0,
        },
    );
    buffer.try_extend_from_slice(&front).unwrap();
    buffer.try_extend_from_slice(body).unwrap();
}
