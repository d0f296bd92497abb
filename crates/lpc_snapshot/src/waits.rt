// Waits, and the marks of events.
ghost use Rattle.std.specs.Prelude.{◌≡◌, ◌<◌, ◌≤◌, Some, length, option_map, slice_get, true, OnErr, vec_capacity};
ghost use Rattle.lpc_base.specs.Rows.{every};
ghost use Rattle.lpc_model.specs.Message.{message_of};
ghost use Rattle.lpc_rows.specs.Shown.{all_pass, birth_of, call_of_wait, object_stands, offer_refs, section_in, shown_acceptance, shown_chance, shown_connect, shown_offer, shown_raised, shown_wait, wait_refs};
ghost use Rattle.lpc_rows.specs.Names.{stands};
ghost use Rattle.lpc_waits.specs.declared.WaitKind.TheVariants as wait;
ghost use Rattle.lpc_waits.specs.Lent.{waiting_of};
ghost use Rattle.lpc_transcript.specs.Printing.{BeginsWith, LacksRoom, Puts};
ghost use Rattle.lpc_states.specs.Rows.{awaited, lines, mark_row, wait_row};
ghost use Rattle.lpc_states.specs.Values.{acceptance_text, chance_text, message_text, offer_text, or_null, raised_text};

use crate::counts::put_name_of_under;
use lpc_base::OutOfMemory;
use lpc_model::CallName;
use lpc_states::{
    put_decimal_under, put_flag_under, put_hex_bytes, put_hex_or_null_under, put_hex_under,
    put_message_fields, put_number_or_null_under,
};
use lpc_transcript::put;
use lpc_waits::{Accepted, Chance, Offer, Raised, WaitKind, WaitRow};
use lpc_world::{Object, World};

// The call by which a wait of a kind is made.
fn call_of(kind: WaitKind) -> CallName
    ensures { result ≡ call_of_wait kind }
{
    match kind {
        WaitKind::Request => CallName::NtRequestWaitReplyPort,
        WaitKind::Receive => CallName::NtReplyWaitReceivePort,
        WaitKind::Listen => CallName::NtListenPort,
        WaitKind::Connect => CallName::NtConnectPort,
        WaitKind::Event(_) => CallName::Raise,
    }
}

#[tactic(auto, using(std::proofs::Common::append_assoc, lpc_transcript::proofs::Begins::begins_before))]
fn put_message(into: &mut Vec<u8>, bytes: &[u8]) -> Result<(), OutOfMemory>
    ensures ok { Puts into.old.items into.new.items (message_text (message_of bytes.now)) result }
    ensures err { OnErr result (BeginsWith into.new.items into.old.items) }
    ensures capacity { vec_capacity into.old ≤ vec_capacity into.new }
    ensures wanting { OnErr result (LacksRoom into.old (message_text (message_of bytes.now))) }
{
    put(into, b"{")?;
    put_message_fields(into, bytes)?;
    put(into, b"}")
}

fn put_offer(into: &mut Vec<u8>, world: &World, offer: &Offer) -> Result<(), OutOfMemory>
    requires { stands world.now.births.sections (offer.now).section ≡ true }
    ensures ok { Puts into.old.items into.new.items
        (offer_text (shown_offer (birth_of world.now.births) offer.now)) result }
    ensures err { OnErr result (BeginsWith into.new.items into.old.items) }
    ensures capacity { vec_capacity into.old ≤ vec_capacity into.new }
    ensures wanting { OnErr result (LacksRoom into.old
        (offer_text (shown_offer (birth_of world.now.births) offer.now))) }
{
    put_name_of_under(
        into,
        b"{\"section\":",
        world,
        Object::Section(offer.section),
    )?;
    put_decimal_under(into, b",\"offset\":", offer.offset)?;
    put_decimal_under(into, b",\"size\":", offer.size)?;
    put(into, b"}")
}

fn put_offer_or_null(
    into: &mut Vec<u8>,
    world: &World,
    offer: &Option<Offer>,
) -> Result<(), OutOfMemory>
    requires { every (object_stands world.now.births) (section_in offer.now) ≡ true }
    ensures ok { Puts into.old.items into.new.items
        (or_null offer_text (option_map (shown_offer (birth_of world.now.births)) offer.now))
        result }
    ensures err { OnErr result (BeginsWith into.new.items into.old.items) }
    ensures capacity { vec_capacity into.old ≤ vec_capacity into.new }
    ensures wanting { OnErr result (LacksRoom into.old
        (or_null offer_text (option_map (shown_offer (birth_of world.now.births)) offer.now))) }
{
    match offer {
        Some(offer) => put_offer(into, world, offer),
        None => put(into, b"null"),
    }
}

fn put_acceptance(into: &mut Vec<u8>, accepted: &Accepted) -> Result<(), OutOfMemory>
    ensures ok { Puts into.old.items into.new.items
        (acceptance_text (shown_acceptance accepted.now)) result }
    ensures err { OnErr result (BeginsWith into.new.items into.old.items) }
    ensures capacity { vec_capacity into.old ≤ vec_capacity into.new }
    ensures wanting { OnErr result (LacksRoom into.old
        (acceptance_text (shown_acceptance accepted.now))) }
{
    put(into, b"{\"info\":")?;
    put_hex_bytes(into, accepted.reply.as_slice())?;
    put_hex_or_null_under(into, b",\"target\":", accepted.target)?;
    put_hex_or_null_under(into, b",\"vbase\":", accepted.vbase)?;
    put_number_or_null_under(into, b",\"vsize\":", accepted.vsize)?;
    put(into, b"}")
}

fn put_chance(into: &mut Vec<u8>, chance: Chance) -> Result<(), OutOfMemory>
    ensures ok { Puts into.old.items into.new.items (chance_text (shown_chance chance)) result }
    ensures err { OnErr result (BeginsWith into.new.items into.old.items) }
    ensures capacity { vec_capacity into.old ≤ vec_capacity into.new }
    ensures wanting { OnErr result (LacksRoom into.old (chance_text (shown_chance chance))) }
{
    match chance {
        Chance::FirstDebug => put(into, b"\"first debug\""),
        Chance::LastDebug => put(into, b"\"last debug\""),
        Chance::LastException => put(into, b"\"last exception\""),
    }
}

fn put_raised(into: &mut Vec<u8>, raised: Raised) -> Result<(), OutOfMemory>
    ensures ok { Puts into.old.items into.new.items (raised_text (shown_raised raised)) result }
    ensures err { OnErr result (BeginsWith into.new.items into.old.items) }
    ensures capacity { vec_capacity into.old ≤ vec_capacity into.new }
    ensures wanting { OnErr result (LacksRoom into.old (raised_text (shown_raised raised))) }
{
    put_hex_under(into, b"{\"code\":", raised.code)?;
    put_flag_under(into, b",\"handled\":", raised.handled)?;
    put(into, b",\"chance\":")?;
    put_chance(into, raised.chance)?;
    put(into, b"}")
}

// What a connect waits for: its answer, or, once it is accepted, its completion.
fn put_connect(
    into: &mut Vec<u8>,
    world: &World,
    bytes: &[u8],
    offer: &Option<Offer>,
    accepted: &Option<Accepted>,
) -> Result<(), OutOfMemory>
    requires { every (object_stands world.now.births)
        (offer_refs wait.Connect offer.now accepted.now) ≡ true }
    ensures ok { let offered = option_map (shown_offer (birth_of world.now.births)) offer.now in
        Puts into.old.items into.new.items
        (awaited (shown_connect bytes.now offered accepted.now)) result }
    ensures err { OnErr result (BeginsWith into.new.items into.old.items) }
    ensures capacity { vec_capacity into.old ≤ vec_capacity into.new }
    ensures wanting { let births = birth_of world.now.births in
        let offered = option_map (shown_offer births) offer.now in
        OnErr result (LacksRoom into.old
        (awaited (shown_connect bytes.now offered accepted.now))) }
{
    match accepted {
        None => {
            put(into, b",\"for\":\"answer\",\"message\":")?;
            put_message(into, bytes)?;
            put(into, b",\"offer\":")?;
            put_offer_or_null(into, world, offer)
        }
        Some(accepted) => {
            put(into, b",\"for\":\"completion\",\"message\":")?;
            put_message(into, bytes)?;
            put(into, b",\"accepted\":")?;
            put_acceptance(into, accepted)
        }
    }
}

// What a wait is for, and what it keeps.
#[tactic(auto, using(std::proofs::Common::append_assoc, lpc_transcript::proofs::Begins::begins_before), unfolding(lpc_states::specs::Rows::awaited))]
fn put_awaited(into: &mut Vec<u8>, world: &World, row: &WaitRow) -> Result<(), OutOfMemory>
    requires { all_pass wait_refs (object_stands world.now.births) (waiting_of row.now) ≡ true }
    ensures ok { Puts into.old.items into.new.items
        (awaited (shown_wait (birth_of world.now.births) (waiting_of row.now)).kind) result }
    ensures err { OnErr result (BeginsWith into.new.items into.old.items) }
    ensures capacity { vec_capacity into.old ≤ vec_capacity into.new }
    ensures wanting { OnErr result (LacksRoom into.old
        (awaited (shown_wait (birth_of world.now.births) (waiting_of row.now)).kind)) }
{
    match row.wait.kind {
        WaitKind::Request => {
            put(into, b",\"for\":\"reply\",\"message\":")?;
            put_message(into, row.message())
        }
        WaitKind::Receive => put(into, b",\"for\":\"message\""),
        WaitKind::Listen => put(into, b",\"for\":\"connection request\""),
        WaitKind::Connect => put_connect(into, world, row.message(), row.offer(), row.accepted()),
        WaitKind::Event(raised) => {
            put(into, b",\"for\":\"event\",\"exception\":")?;
            put_raised(into, raised)
        }
    }
}

fn put_wait(into: &mut Vec<u8>, world: &World, row: &WaitRow) -> Result<(), OutOfMemory>
    requires { all_pass wait_refs (object_stands world.now.births) (waiting_of row.now) ≡ true }
    ensures ok { Puts into.old.items into.new.items
        (wait_row (shown_wait (birth_of world.now.births) (waiting_of row.now))) result }
    ensures err { OnErr result (BeginsWith into.new.items into.old.items) }
    ensures capacity { vec_capacity into.old ≤ vec_capacity into.new }
    ensures wanting { OnErr result (LacksRoom into.old
        (wait_row (shown_wait (birth_of world.now.births) (waiting_of row.now)))) }
{
    put_decimal_under(into, b"\"wait ", row.tid)?;
    put_decimal_under(into, b".", row.wait.identifier)?;
    put_decimal_under(into, b"\",\"process\":", row.wait.process)?;
    put_decimal_under(into, b",\"thread\":", row.tid)?;
    put(into, b",\"call\":\"")?;
    put(into, call_of(row.wait.kind).name())?;
    put_name_of_under(into, b"\",\"port\":", world, Object::Port(row.wait.port))?;
    put_name_of_under(into, b",\"queue\":", world, Object::Port(row.wait.queue))?;
    put_decimal_under(into, b",\"identifier\":", row.wait.identifier)?;
    put_flag_under(into, b",\"received\":", row.wait.received)?;
    put_awaited(into, world, row)?;
    put(into, b"\n")
}

// The wait at a place, in the order of waiting.
fn wait_at<'a>(world: &'a World<'_>, place: usize) -> &'a WaitRow
    requires { place < length world.now.rows.waits }
    ensures row { slice_get world.now.rows.waits place
        ≡ Some (shown_wait (birth_of world.now.births) (waiting_of result.now)) }
    ensures refs { all_pass wait_refs (object_stands world.now.births) (waiting_of result.now)
        ≡ true }
{
    let (_, row) = world.waits().rows().row(place);
    row
}

/// The waits, a line each.
pub(crate) fn put_waits(into: &mut Vec<u8>, world: &World) -> Result<(), OutOfMemory>
    ensures ok { Puts into.old.items into.new.items (lines wait_row world.now.rows.waits) result }
    ensures err { OnErr result (BeginsWith into.new.items into.old.items) }
    ensures capacity { vec_capacity into.old ≤ vec_capacity into.new }
    ensures wanting { OnErr result (LacksRoom into.old (lines wait_row world.now.rows.waits)) }
{
    for place in 0..world.waits().count() {
        put_wait(into, world, wait_at(world, place))?;
    }
    Ok(())
}

fn put_mark(into: &mut Vec<u8>, tid: u32) -> Result<(), OutOfMemory>
    ensures ok { Puts into.old.items into.new.items (mark_row tid) result }
    ensures err { OnErr result (BeginsWith into.new.items into.old.items) }
    ensures capacity { vec_capacity into.old ≤ vec_capacity into.new }
    ensures wanting { OnErr result (LacksRoom into.old (mark_row tid)) }
{
    put_decimal_under(into, b"\"mark ", tid)?;
    put_decimal_under(into, b"\",\"thread\":", tid)?;
    put(into, b"\n")
}

/// The marks, a line each.
pub(crate) fn put_marks(into: &mut Vec<u8>, world: &World) -> Result<(), OutOfMemory>
    ensures ok { Puts into.old.items into.new.items (lines mark_row world.now.rows.marks) result }
    ensures err { OnErr result (BeginsWith into.new.items into.old.items) }
    ensures capacity { vec_capacity into.old ≤ vec_capacity into.new }
    ensures wanting { OnErr result (LacksRoom into.old (lines mark_row world.now.rows.marks)) }
{
    let marks = world.marks();
    for tid in marks {
        put_mark(into, *tid)?;
    }
    Ok(())
}
