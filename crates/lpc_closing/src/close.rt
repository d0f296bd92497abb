// The call that closes a handle, and a port with its last one.
ghost use Rattle.std.specs.Prelude.{◌≡◌, ◌≤◌, ◌<◌, ◌+◌, Some, true, false, length};
ghost use Rattle.lpc_base.specs.Rows.{has};
ghost use Rattle.lpc_base.specs.declared.limits.TheConstants.{LINES_LIMIT};
ghost use Rattle.lpc_closing.specs.Calls.{creator_of};
ghost use Rattle.lpc_closing.specs.Closing.{CanClose, closes_last, closing_rows, has_one_handle, is_told, last_rows};
ghost use Rattle.lpc_model.specs.Close as model;
ghost use Rattle.lpc_model.specs.Found.{handle_at, is_table};
ghost use Rattle.lpc_model.specs.Lines.{close};
ghost use Rattle.lpc_rows.specs.Called.{Served};
ghost use Rattle.lpc_rows.specs.Clauses.{birth_at, name_at, row_shown};
ghost use Rattle.lpc_rows.specs.Closing.{HasMutualPairs};
ghost use Rattle.lpc_rows.specs.Does.{Took};
ghost use Rattle.lpc_rows.specs.Capacity.{but_names};
ghost use Rattle.lpc_rows.specs.Kept.{CanMake};
ghost use Rattle.lpc_rows.specs.Names.{stands};
ghost use Rattle.lpc_rows.specs.Ready.{HasRoom, is_ready};
ghost use Rattle.lpc_rows.specs.Shown.{object_stands};
ghost use Rattle.lpc_steps.specs.Settling.{CanSettle};

use crate::messages::birth_message;
use lpc_base::status::SUCCESS;
use lpc_handles::Row;
use lpc_message::kind;
use lpc_model::{CallName, Entries, Entry, Fields, Message, Outcome, refuse};
use lpc_slots::Key;
use lpc_steps::{Closed, Ending, Marking, closing_post, deliver, end_all, mark_all, own_handle};
use lpc_world::{Object, World};

/// The message that tells of a closed port: it is of the connect that made the port, and names the port by its birth.
fn closed_message(closed: &Closed) -> Message
    ensures { result ≡ model.closed_message (creator_of closed.now) closed.now.birth }
{
    birth_message(
        kind::PORT_CLOSED,
        closed.client,
        closed.message_id,
        closed.birth,
    )
}

/// That a completed client port is closed is posted to its connection port, where that is open.
fn post_closed(world: &mut World, port: Key, out: &mut Entries)
    requires port { stands world.old.births.ports port ≡ true }
    requires untold { is_told world.old.rows (birth_at world.old port) ≡ false }
    requires spare { 0 < length world.old.rows.waits → 1 ≤ out.old.spare }
    requires budget { CanMake world.old }
    ensures takes { let steps = model.post_closed (birth_at world.old port) world.old.rows in
        Took steps world.old world.new out.old out.new }
    ensures births { world.new.births ≡ world.old.births }
    ensures calls { world.new.calls ≡ world.old.calls }
    ensures capacity { world.new.capacity ≡ world.old.capacity }
    ensures made { let rows = closing_rows world.old.rows (birth_at world.old port) in
        world.new.made ≤ world.old.made + rows }
    ensures spare { out.new.spare + length world.old.rows.waits
        ≡ out.old.spare + length world.new.rows.waits }
{
    if let Some(closed) = closing_post(world, port) {
        let message = closed_message(&closed);
        deliver(world, closed.queue, port, closed.context, &message, out);
    }
}

/// The queue of a port is emptied: the requests in it end, the events in it are marked, and the connects to it that
/// aren't accepted end; its other messages go.
fn empty_queue(world: &mut World, port: Key, out: &mut Entries)
    requires port { stands world.old.births.ports port ≡ true }
    requires pairs { HasMutualPairs world.old.rows }
    requires spare { length world.old.rows.waits ≤ out.old.spare }
    ensures takes { let steps = model.empty_queue (birth_at world.old port) world.old.rows in
        Took steps world.old world.new out.old out.new }
    ensures ports { world.new.rows.ports ≡ world.old.rows.ports }
    ensures births { world.new.births ≡ world.old.births }
    ensures calls { world.new.calls ≡ world.old.calls }
    ensures capacity { world.new.capacity ≡ world.old.capacity }
    ensures made { world.new.made ≤ world.old.made }
    ensures spare { out.new.spare + length world.old.rows.waits
        ≡ out.old.spare + length world.new.rows.waits }
{
    end_all(world, port, Ending::QueuedRequests, out);
    mark_all(world, port, Marking::Queued);
    end_all(world, port, Ending::Offers, out);
    world.messages_empty(port);
}

/// A port is cut off from its other end: requests that were sent there end, events that were sent there are marked,
/// receives that wait there on a client port end, and the connect that was accepted and isn't completed, with which the
/// views of its client port go.
pub fn cut_pair(world: &mut World, port: Key, out: &mut Entries)
    requires port { stands world.old.births.ports port ≡ true }
    requires pairs { HasMutualPairs world.old.rows }
    requires spare { length world.old.rows.waits ≤ out.old.spare }
    ensures takes { let steps = model.cut_pair (birth_at world.old port) world.old.rows in
        Took steps world.old world.new out.old out.new }
    ensures births { world.new.births ≡ world.old.births }
    ensures calls { world.new.calls ≡ world.old.calls }
    ensures capacity { world.new.capacity ≡ world.old.capacity }
    ensures made { world.new.made ≤ world.old.made }
    ensures spare { out.new.spare + length world.old.rows.waits
        ≡ out.old.spare + length world.new.rows.waits }
{
    end_all(world, port, Ending::RequestsAcross, out);
    mark_all(world, port, Marking::SentAcross);
    end_all(world, port, Ending::ReceivesAcross, out);
    end_all(world, port, Ending::AcceptedAcross, out);
    world.ports_cut(port);
}

/// A port is closed, in seven steps; its last handle still names it.
#[tactic(auto, unfolding(lpc_model::specs::Close::close_port))]
fn close_port(world: &mut World, port: Key, out: &mut Entries)
    requires port { stands world.old.births.ports port ≡ true }
    requires pairs { HasMutualPairs world.old.rows }
    requires untold { is_told world.old.rows (birth_at world.old port) ≡ false }
    requires spare { length world.old.rows.waits ≤ out.old.spare }
    requires budget { CanMake world.old }
    ensures takes { let steps = model.close_port (birth_at world.old port) world.old.rows in
        Took steps world.old world.new out.old out.new }
    ensures handles { world.new.rows.handles ≡ world.old.rows.handles }
    ensures calls { world.new.calls ≡ world.old.calls }
    ensures capacity { but_names world.new.capacity ≡ but_names world.old.capacity }
    ensures made { let rows = closing_rows world.old.rows (birth_at world.old port) in
        world.new.made ≤ world.old.made + rows }
    ensures spare { out.new.spare + length world.old.rows.waits
        ≡ out.old.spare + length world.new.rows.waits }
{
    world.names_unbind(port);
    end_all(world, port, Ending::Receives, out);
    end_all(world, port, Ending::Requests, out);
    mark_all(world, port, Marking::Sent);
    empty_queue(world, port, out);
    cut_pair(world, port, out);
    post_closed(world, port, out);
    world.views_drop_owned(port);
}

/// One handle alone names the object.
fn has_one_handle(world: &World, object: Object) -> bool
    requires { object_stands world.now.births object ≡ true }
    ensures { result ≡ has_one_handle world.now.rows (name_at world.now object) }
{
    world.handles_to(object) == 1
}

/// A port is closed where one handle alone names it.
fn close_last(world: &mut World, object: Object, out: &mut Entries)
    requires object { object_stands world.old.births object ≡ true }
    requires can { CanClose world.old.rows }
    requires spare { length world.old.rows.waits ≤ out.old.spare }
    requires budget { CanMake world.old }
    ensures takes { let steps = closes_last (name_at world.old object) world.old.rows in
        Took steps world.old world.new out.old out.new }
    ensures handles { world.new.rows.handles ≡ world.old.rows.handles }
    ensures calls { world.new.calls ≡ world.old.calls }
    ensures capacity { but_names world.new.capacity ≡ but_names world.old.capacity }
    ensures made { let rows = last_rows world.old.rows (name_at world.old object) in
        world.new.made ≤ world.old.made + rows }
    ensures spare { out.new.spare + length world.old.rows.waits
        ≡ out.old.spare + length world.new.rows.waits }
{
    let Object::Port(port) = object else {
        return;
    };
    if has_one_handle(world, object) {
        close_port(world, port, out);
    }
}

/// A handle of a process goes, and the port with its last one. It makes no row but the message that the port's closing
/// owed.
pub(crate) fn close_handle(
    world: &mut World,
    pid: u32,
    value: u32,
    row: Row<Object>,
    out: &mut Entries,
)
    requires object { object_stands world.old.births row.object ≡ true }
    requires table { has (is_table pid) world.old.rows.handles ≡ true }
    requires found { let handle = row_shown world.old value row in
        handle_at world.old.rows pid value ≡ Some handle }
    requires can { CanClose world.old.rows }
    requires spare { length world.old.rows.waits ≤ out.old.spare }
    requires budget { CanMake world.old }
    ensures takes { let handle = row_shown world.old value row in
        let steps = model.close_handle pid handle world.old.rows in
        Took steps world.old world.new out.old out.new }
    ensures calls { world.new.calls ≡ world.old.calls }
    ensures capacity { but_names world.new.capacity ≡ but_names world.old.capacity }
    ensures made { world.new.made ≤ world.old.made }
    ensures spare { out.new.spare + length world.old.rows.waits
        ≡ out.old.spare + length world.new.rows.waits }
{
    close_last(world, row.object, out);
    world.handles_close(pid, value);
}

/// `NtClose`: a handle goes. With the last handle of a port the port is closed: its name goes; receives and listens
/// made on it or waiting on its queue end; requests sent on it end, and events are marked; its queue is emptied, and
/// the connects that wait on it end; it is cut off from its other end, whose requests and receives end and whose events
/// are marked; that a completed client port is closed is posted to its connection port; and the views that it owns go.
///
/// Refusal: INVALID_HANDLE where no handle of the caller's process has the value. It takes no memory.
#[tactic(auto, unfolding(lpc_model::specs::Close::nt_close))]
pub fn nt_close(world: &mut World, by: u32, handle: u32, out: &mut Entries) -> Outcome
    requires ready { is_ready world.old.rows by ≡ true }
    requires room { HasRoom world.old out.old }
    requires calls { world.old.calls < LINES_LIMIT }
    requires can { CanClose world.old.rows }
    ensures served { let call = close handle in
        Served by call result world.old world.new out.old out.new }
    ensures spare { out.old.spare ≤ out.new.spare + length world.old.rows.waits + 2 }
    ensures settles { CanSettle world.new out.new }
    ensures capacity { but_names world.new.capacity ≡ but_names world.old.capacity }
{
    let caller = world.caller(by);
    world.begin_call();
    match own_handle(world, by, handle) {
        Ok(row) => {
            out.push(Entry::Answer {
                tid: caller.number,
                call: CallName::NtClose,
                status: SUCCESS,
                fields: Fields::none(),
            });
            close_handle(world, caller.process, handle, row, out);
            Outcome::Answered(SUCCESS)
        }
        Err(status) => refuse(caller.number, CallName::NtClose, status, out),
    }
}
