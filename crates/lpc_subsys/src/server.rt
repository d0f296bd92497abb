// The server: its clients.
ghost use Rattle.std.specs.Prelude.{◌≡◌, ℕ, [], true, false, position, OnErr, OnOk};
ghost use Rattle.std.specs.Option.{option_copied};
ghost use Rattle.lpc_base.specs.Rows.{has};
ghost use Rattle.lpc_subsys.specs.Clients.{Follows, IsServed, RepliesByOwnRequests, Serves, client_in, is_client, request_in, with_client, with_request, without_client};
ghost use Rattle.lpc_subsys.specs.Replies.{IsGranted};

use crate::client::Client;
use crate::reply::refuse;
use arrayvec::ArrayVec;
use lpc_base::OutOfMemory;
use lpc_base::status::ACCESS_DENIED;
use lpc_message::MessageRef;
use std::alloc::Global;
use std::marker::Model;

/// A server of clients, each with atoms, a console and a shutdown level of its own.
///
/// A clause sees what is kept of each client. That always stands for some lists of requests, one for each client; and
/// whatever lists it stands for, a call says what they become, and a reply is told by the list of the one client.
#[derive(Drop)]
pub struct Server {
    alloc: Global,
    clients: Vec<Client>,
}

impl Model for Server {
    ghost use Rattle.std.specs.Prelude.{List};
    ghost use Rattle.lpc_subsys.specs.Clients.{ClientRow, IsSound};

    ghost Value = { List ClientRow };

    ghost view = { λ server. server.clients.items };

    ghost invariant = { λ server. IsSound server.clients.items };
}

impl Server {
    /// A server without clients. What it keeps later takes memory from `alloc`.
    pub fn new(alloc: Global) -> Server
        ensures nobody { Serves result [] }
        ensures no_states { (process : ℕ) → has (is_client process) result ≡ false }
    {
        Server {
            alloc,
            clients: Vec::new(alloc),
        }
    }

    /// Makes a process a client that has asked for nothing. It is none yet.
    ///
    /// After `OutOfMemory` nothing has changed.
    #[tactic(auto, using(crate::proofs::Rows::stands))]
    pub fn join(&mut self, process: u32) -> Result<(), OutOfMemory>
        requires { has (is_client process) self.old ≡ false }
        ensures joined { OnOk result (Follows (with_client process) self.old self.new) }
        ensures stands { OnOk result (has (is_client process) self.new ≡ true) }
        ensures same { OnErr result (self.new ≡ self.old) }
    {
        let client = Client::new(self.alloc, process);
        self.clients.push(client).map_err(|_| OutOfMemory)?;
        Ok(())
    }

    /// Takes a client away, with all that was kept of it.
    pub fn leave(&mut self, process: u32)
        requires { has (is_client process) self.old ≡ true }
        ensures left { Follows (without_client process) self.old self.new }
        ensures gone { has (is_client process) self.new ≡ false }
    {
        self.clients.retain(|client| client.process() != process);
    }

    /// Answers a request of the process that its ClientId names, into an empty reply: by that client's requests so far,
    /// each with the bytes of its view at its turn, and by this one, for which `view` has the bytes that the client's
    /// view has now. A process that is no client is refused.
    ///
    /// A refused request changes nothing. After `OutOfMemory` nothing has changed, and the reply is empty.
    pub fn turn(
        &mut self,
        m: &MessageRef<'_>,
        view: Option<&[u8]>,
        reply: &mut ArrayVec<u8, 232>,
    ) -> Result<(), OutOfMemory>
        requires { reply.old.items ≡ [] }
        ensures served { IsServed self.old }
        ensures reply { let request = request_in m.now.now (option_copied view.entry) in
            let process = client_in m.now.now in
            OnOk result (RepliesByOwnRequests self.old process request reply.new.items) }
        ensures answered { let request = request_in m.now.now (option_copied view.entry) in
            let process = client_in m.now.now in
            OnOk result (Follows (with_request process request) self.old self.new) }
        ensures clients { (other : ℕ)
            → has (is_client other) self.new ≡ has (is_client other) self.old }
        ensures refused { OnOk result (¬ IsGranted reply.new.items → self.new ≡ self.old) }
        ensures same { OnErr result (self.new ≡ self.old) }
        ensures unanswered { OnErr result (reply.new.items ≡ []) }
    {
        let process = client_in(m);
        match place_of(&self.clients, process) {
            Some(place) => self.clients[place].answer(m.body(), view, reply),
            None => {
                refuse(reply, ACCESS_DENIED);
                Ok(())
            }
        }
    }
}

// The process that a message's ClientId names.
#[tactic(auto, unfolding(crate::specs::Clients::client_in))]
fn client_in(m: &MessageRef<'_>) -> u32
    ensures { result ≡ client_in m.now.now }
{
    m.header().client.process
}

// Where a client stands.
fn place_of(clients: &[Client], process: u32) -> Option<usize>
    ensures { result ≡ position (is_client process) clients.now }
{
    clients
        .iter()
        .position(|client| client.process() == process)
}
