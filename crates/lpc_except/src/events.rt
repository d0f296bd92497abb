// Events, which tell a port of an exception.
ghost use Rattle.std.specs.Prelude.{◌≡◌, ◌+◌, ◌++◌, ◌≤◌, false, length, true};
ghost use Rattle.byteorder.specs.Endian.{little_bytes};
ghost use Rattle.lpc_base.specs.Rows.{has};
ghost use Rattle.lpc_except.specs.Chances.{CanSend, IsHeard, later_rows, shown_hearing};
ghost use Rattle.lpc_model.specs.Found.{is_live_thread, is_thread, waits_as};
ghost use Rattle.lpc_model.specs.Message.{asks};
ghost use Rattle.lpc_model.specs.Raise as model;
ghost use Rattle.lpc_rows.specs.Callers.{shown_caller};
ghost use Rattle.lpc_rows.specs.Does.{Took};
ghost use Rattle.lpc_rows.specs.Shown.{shown_chance};

use crate::chances::Hearing;
use byteorder::{ByteOrder, LittleEndian};
use lpc_base::limits::HEADER_SIZE;
use lpc_message::{ClientId, Header, kind};
use lpc_model::{Body, Entries, Message};
use lpc_procs::Caller;
use lpc_steps::{context, deliver};
use lpc_waits::{Chance, Raised, Wait, WaitKind};
use lpc_world::World;

/// The type of the event of a chance.
fn event_kind(chance: Chance) -> u16
    ensures { result ≡ model.event_kind (shown_chance chance) }
{
    match chance {
        Chance::FirstDebug | Chance::LastDebug => kind::DEBUG_EVENT,
        Chance::LastException => kind::EXCEPTION,
    }
}

/// The number of a chance as an event tells it.
fn chance_number(chance: Chance) -> u32
    ensures { result ≡ model.chance_number (shown_chance chance) }
{
    match chance {
        Chance::FirstDebug => 1,
        Chance::LastDebug | Chance::LastException => 2,
    }
}

/// The code of an exception and the number of its chance, 4 bytes each.
fn event_data(code: u32, chance: Chance) -> [u8; 8]
    ensures { result ≡ little_bytes 4 code
        ++ little_bytes 4 (model.chance_number (shown_chance chance)) }
{
    let mut data = [0u8; 8];
    LittleEndian::write_u32(&mut data, code);
    LittleEndian::write_u32(&mut data[4..], chance_number(chance));
    data
}

/// The message that tells of an exception of a thread at a chance.
fn event_message(client: ClientId, message_id: u32, code: u32, chance: Chance) -> Message
    ensures { result ≡ model.event_message client message_id code (shown_chance chance) }
{
    let data = event_data(code, chance);
    Message {
        header: Header {
            data_size: data.len() as u16,
            message_size: (HEADER_SIZE + data.len()) as u16,
            kind: event_kind(chance),
            ranges_offset: 0,
            client,
            message_id,
            section_size: 0,
        },
        body: Body::from_slice(&data),
    }
}

/// The event of a thread's exception is sent as a request: the thread draws its identifier, and waits, and the message
/// enters the queue. It takes no memory.
pub(crate) fn send_event(
    world: &mut World,
    by: &Caller,
    code: u32,
    handled: bool,
    hearing: Hearing,
    out: &mut Entries,
)
    requires spare { 1 ≤ out.old.spare }
    requires heard { IsHeard world.old hearing }
    requires thread { has (is_thread by.now.number) world.old.rows.threads ≡ true }
    requires live { has (is_live_thread by.now.number) world.old.rows.threads ≡ true }
    requires ready { has (waits_as by.now.number) world.old.rows.waits ≡ false }
    requires budget { CanSend world.old hearing.chance }
    ensures took { let steps = model.send_event (shown_caller by.now) code handled
        (shown_hearing world.old hearing) world.old.rows in
        Took steps world.old world.new out.old out.new }
    ensures births { world.new.births ≡ world.old.births }
    ensures calls { world.new.calls ≡ world.old.calls }
    ensures capacity { world.new.capacity ≡ world.old.capacity }
    ensures made { world.new.made ≤ world.old.made + (later_rows hearing.chance + 3) }
    ensures spare { out.old.spare ≤ out.new.spare + 1 }
    ensures entries { out.new.spare + (length world.old.rows.waits + 1)
        ≡ out.old.spare + length world.new.rows.waits }
{
    let context = context(world, hearing.port);
    let client = ClientId {
        process: by.process,
        thread: by.number,
    };
    let message = event_message(client, by.next_identifier, code, hearing.chance);
    let raised = Raised {
        code,
        handled,
        chance: hearing.chance,
    };
    world.events_add(
        by.number,
        Wait {
            process: by.process,
            kind: WaitKind::Event(raised),
            port: hearing.port,
            queue: hearing.queue,
            identifier: by.next_identifier,
            received: false,
        },
    );
    world.procs_draw_identifier(by.number);
    deliver(world, hearing.queue, hearing.port, context, &message, out);
}
