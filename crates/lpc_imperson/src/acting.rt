// The calls by which a thread acts as its client, and as itself again.
ghost use Rattle.std.specs.Prelude.{◌≡◌, ◌<◌, ◌+◌, Err, MatchResult, Ok, true};
ghost use Rattle.lpc_base.specs.declared.limits.TheConstants.{LINES_LIMIT};
ghost use Rattle.lpc_model.specs.Found.{is_server_port};
ghost use Rattle.lpc_model.specs.Impersonation.{impersonate_steps};
ghost use Rattle.lpc_model.specs.Lines.{impersonate_client_of_port, set_information_thread};
ghost use Rattle.lpc_rows.specs.Called.{Served, service};
ghost use Rattle.lpc_rows.specs.Clauses.{port_at};
ghost use Rattle.lpc_rows.specs.Names.{stands};
ghost use Rattle.lpc_rows.specs.Ready.{HasRoom, caller, is_ready};

use crate::clients::{allowed_by, served_client};
use lpc_base::status::{INVALID_PARAMETER, INVALID_PORT_HANDLE, REPLY_MESSAGE_MISMATCH, SUCCESS};
use lpc_base::{PortKind, Status};
use lpc_model::{CallName, Entries, Entry, Fields, Outcome, refuse};
use lpc_slots::Key;
use lpc_steps::{client_test, port_at, read_message};
use lpc_tokens::Impersonation;
use lpc_world::World;

/// The class by which a thread's own token is set; as published.
const THREAD_IMPERSONATION_TOKEN: u32 = 5;

/// The port is a server port.
fn is_server(world: &World, port: Key) -> bool
    requires { stands world.now.births.ports port ≡ true }
    ensures { result ≡ is_server_port (port_at world.now port) }
{
    matches!(world.port(port).kind, PortKind::Server)
}

/// The token as which a thread may act: that of a server port's client whose request a message names, or the first
/// refusal.
#[tactic(auto, unfolding(lpc_model::specs::Impersonation::nt_impersonate_client_of_port))]
fn client_token<'t>(
    world: &World<'t>,
    tid: u32,
    handle: u32,
    message: &[u8],
) -> Result<Impersonation<'t>, Status>
    requires { is_ready world.now.rows tid ≡ true }
    ensures { let found = service world.now.rows tid
        (impersonate_client_of_port handle message.now) in
        MatchResult result
        (λ own. found ≡ Ok (impersonate_steps (caller world.now.rows tid) own))
        (λ s. found ≡ Err s) }
{
    let port = port_at(world, tid, handle)?;
    let message = read_message(message)?;
    if !is_server(world, port) {
        return Err(INVALID_PORT_HANDLE);
    }
    client_test(world, message.header().client)?;
    let Some(thread) = served_client(world, port, message.header()) else {
        return Err(REPLY_MESSAGE_MISMATCH);
    };
    match allowed_by(world, thread) {
        Some(own) => Ok(own),
        None => Err(REPLY_MESSAGE_MISMATCH),
    }
}

/// `NtImpersonateClientOfPort`: the caller acts from then on as the client of a server port, whose request the message
/// names by its ClientId and its MessageId. Its token is by static tracking the one with which the client connected, by
/// dynamic tracking the one with which the request's thread acts now, and its level the lesser of the connection's and
/// of that token's own.
///
/// Refusals, in this order: INVALID_HANDLE where no handle of the caller's process has the value; OBJECT_TYPE_MISMATCH
/// where it names no port; ACCESS_DENIED where it lacks the right; INVALID_PARAMETER where the message has no lawful
/// shape; PORT_MESSAGE_TOO_LONG where its MessageSize is above 256; INVALID_PORT_HANDLE where the port is no server port;
/// INVALID_CID where no live thread has the message's process and thread; REPLY_MESSAGE_MISMATCH where no request of the
/// port's client has these identifiers that was received. It takes no memory.
pub fn nt_impersonate_client_of_port(
    world: &mut World,
    by: u32,
    handle: u32,
    message: &[u8],
    out: &mut Entries,
) -> Outcome
    requires ready { is_ready world.old.rows by ≡ true }
    requires room { HasRoom world.old out.old }
    requires calls { world.old.calls < LINES_LIMIT }
    ensures served { let call = impersonate_client_of_port handle message.now in
        Served by call result world.old world.new out.old out.new }
    ensures spare { out.new.spare + 1 ≡ out.old.spare }
    ensures capacity { world.new.capacity ≡ world.old.capacity }
{
    let caller = world.caller(by);
    world.begin_call();
    let own = match client_token(world, by, handle, message) {
        Ok(own) => own,
        Err(status) => {
            return refuse(
                caller.number,
                CallName::NtImpersonateClientOfPort,
                status,
                out,
            );
        }
    };
    world.procs_set_own(caller.number, Some(own));
    out.push(Entry::Answer {
        tid: caller.number,
        call: CallName::NtImpersonateClientOfPort,
        status: SUCCESS,
        fields: Fields::none(),
    });
    Outcome::Answered(SUCCESS)
}

/// `NtSetInformationThread` with the word `null`: the caller acts with its process's token again, also where it did.
///
/// Refusal: INVALID_PARAMETER for another class than 5. It takes no memory.
#[tactic(auto, unfolding(lpc_model::specs::Impersonation::nt_set_information_thread))]
pub fn nt_set_information_thread(
    world: &mut World,
    by: u32,
    class: u32,
    out: &mut Entries,
) -> Outcome
    requires ready { is_ready world.old.rows by ≡ true }
    requires room { HasRoom world.old out.old }
    requires calls { world.old.calls < LINES_LIMIT }
    ensures served { let call = set_information_thread class in
        Served by call result world.old world.new out.old out.new }
    ensures spare { out.new.spare + 1 ≡ out.old.spare }
    ensures capacity { world.new.capacity ≡ world.old.capacity }
{
    let caller = world.caller(by);
    world.begin_call();
    if class != THREAD_IMPERSONATION_TOKEN {
        return refuse(
            caller.number,
            CallName::NtSetInformationThread,
            INVALID_PARAMETER,
            out,
        );
    }
    world.procs_set_own(caller.number, None);
    out.push(Entry::Answer {
        tid: caller.number,
        call: CallName::NtSetInformationThread,
        status: SUCCESS,
        fields: Fields::none(),
    });
    Outcome::Answered(SUCCESS)
}
