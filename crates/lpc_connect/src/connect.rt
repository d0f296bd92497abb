// The call that asks for a connection.
ghost use Rattle.lpc_rows.specs.Capacity.{KeepsOtherPlaces, KeepsOtherViewPlaces, handle_places, view_places};
ghost use Rattle.std.specs.Prelude.{◌≡◌, ◌≤◌, ◌<◌, ◌+◌, Ok, Err, None, Some, IfErr, IfOk, OnOk, OnErr, false, is_some, length, option_copied, true, IsErr};
ghost use Rattle.lpc_base.specs.Rows.{every, has};
ghost use Rattle.lpc_base.specs.declared.limits.TheConstants.{HANDLE_LIMIT, HEADER_SIZE, LINES_LIMIT, MESSAGE_LIMIT, VIEW_LIMIT};
ghost use Rattle.lpc_rows.specs.Clauses.{HasHandleRoom, birth_at, has_process, has_section};
ghost use Rattle.lpc_connect.specs.Calls.{HasCaller, allowing, allowing_with, beginning, connecting_with, draws, requesting, size_offered, token_test};
ghost use Rattle.lpc_connect.specs.Room.{KeepsHandleRoom, KeepsViewRoom, lacks_connect_room, lacks_room_of_view};
ghost use Rattle.lpc_model.specs.Basics.{basic, world_after, Makes};
ghost use Rattle.lpc_model.specs.Connect as connect;
ghost use Rattle.lpc_model.specs.Found as found;
ghost use Rattle.lpc_model.specs.Found.{is_live_thread, is_table, is_thread, port_row, views_of, waits_as};
ghost use Rattle.lpc_model.specs.Lines.{connect_port};
ghost use Rattle.lpc_model.specs.Message.{asks};
ghost use Rattle.lpc_model.specs.SoundViews.{HasSoundViews, is_sized};
ghost use Rattle.lpc_steps.specs.Offers.{CanLieAs, HasViewRoom};
ghost use Rattle.lpc_model.specs.Tests as tests;
ghost use Rattle.lpc_model.specs.Tests.{next_birth};
ghost use Rattle.lpc_rows.specs.Called.{MayServe, service};
ghost use Rattle.lpc_rows.specs.Does.{Took};
ghost use Rattle.lpc_rows.specs.Kept.{CanMake, HasWholeBudget, Roomy, Same, grown_handles, grown_messages, grown_ports, grown_views, is_unsent};
ghost use Rattle.lpc_rows.specs.Lawful.{drew};
ghost use Rattle.lpc_rows.specs.Names.{name_of, stands};
ghost use Rattle.lpc_rows.specs.Ready.{HasRoom, caller, is_ready};
ghost use Rattle.lpc_rows.specs.Callers.{as_caller, shown_caller};
ghost use Rattle.lpc_tokens.specs.declared.security.Security.TheVariants.{Allows};

use lpc_base::limits::{HEADER_SIZE, MESSAGE_LIMIT};
use lpc_base::status::{ACCESS_DENIED, BAD_IMPERSONATION_LEVEL, PORT_MESSAGE_TOO_LONG};
use lpc_base::{Birth, OutOfMemory, PortKind, Status};
use lpc_message::{ClientId, Header, kind};
use lpc_model::{
    Body, CallName, Entries, Entry, Message, Outcome, ViewWord, connect_fields, refuse,
};
use lpc_ports::Creator;
use lpc_procs::Caller;
use lpc_sid::{Dacl, access_check};
use lpc_slots::Key;
use lpc_steps::{
    base_of, deliver, handles_test, map_view, offer_test, view_test, wait_with, wanted_test,
};
use lpc_tokens::level::{DELEGATION, IMPERSONATION};
use lpc_tokens::{Level, Qos, Security, TokenRef, effective_token};
use lpc_views::View;
use lpc_waits::{Offer, Wait, WaitKind};
use lpc_world::World;

/// The right to a port that a connect wants of its access list.
const CONNECT_RIGHT: u32 = 1;

/// The bytes that go with a connect are no more than a message holds.
fn info_test(info: &[u8]) -> Result<(), Status>
    ensures test { result ≡ connect.info_test info.now }
    ensures bound { OnOk result (HEADER_SIZE + length info.now ≤ MESSAGE_LIMIT) }
{
    if info.len() > MESSAGE_LIMIT - HEADER_SIZE {
        return Err(PORT_MESSAGE_TOO_LONG);
    }
    Ok(())
}

/// The access list of a port, if it has one.
fn access_list<'a>(world: &'a World<'_>, port: Key) -> Option<&'a Dacl>
    requires { stands world.now.births.ports port ≡ true }
    ensures { option_copied result
        ≡ found.access_list world.now.rows (birth_at world.now port) }
{
    // Lent for its clause: the port's row stands.
    let _row = world.port(port);
    match world.port_security(port) {
        Security::Guarded(dacl) => Some(dacl),
        Security::Unsecured | Security::Allows { .. } => None,
    }
}

/// A thread that acts with a token of its own of this level, or with its process's, may connect to a port:
/// BAD_IMPERSONATION_LEVEL where the level is below 2; ACCESS_DENIED where the port's access list doesn't grant the token
/// the right to connect.
fn token_test(
    world: &World,
    level: Option<Level>,
    token: &TokenRef<'_>,
    connection: Key,
) -> Result<(), Status>
    requires { stands world.now.births.ports connection ≡ true }
    ensures { let port = birth_at world.now connection in
        result ≡ token_test world.now.rows (record { token = token.now; level = level }) port }
{
    if level.unwrap_or(DELEGATION) < IMPERSONATION {
        return Err(BAD_IMPERSONATION_LEVEL);
    }
    if !access_check(token.get(), access_list(world, connection), CONNECT_RIGHT) {
        return Err(ACCESS_DENIED);
    }
    Ok(())
}

/// A thread may connect to a port: BAD_IMPERSONATION_LEVEL where it acts with a token of its own of a level below 2;
/// ACCESS_DENIED where the port's access list doesn't grant the token with which it acts the right to connect.
fn access_test(world: &World, by: &Caller, connection: Key) -> Result<(), Status>
    requires live { has (is_live_thread by.now.number) world.now.rows.threads ≡ true }
    requires row { by.now ≡ as_caller (caller world.now.rows by.now.number) }
    requires process { has_process world.now.rows by.now.process ≡ true }
    requires connection { stands world.now.births.ports connection ≡ true }
    ensures test { let port = birth_at world.now connection in
        result ≡ connect.access_test world.now.rows (caller world.now.rows by.now.number) port }
{
    match world.own_token(by.number) {
        Some(own) => token_test(world, Some(own.level), &own.token, connection),
        None => token_test(world, None, world.process_token(by.process), connection),
    }
}

/// What a connect allows the server: the quality of service that it asks for, and with it the token with which its thread
/// acts.
fn allowed<'t>(world: &World<'t>, by: &Caller, quality: Qos) -> Security<'t>
    requires live { has (is_live_thread by.now.number) world.now.rows.threads ≡ true }
    requires row { by.now ≡ as_caller (caller world.now.rows by.now.number) }
    requires process { has_process world.now.rows by.now.process ≡ true }
    ensures { let own = caller world.now.rows by.now.number in
        result ≡ Allows quality (found.acting_token world.now.rows own) }
{
    Security::Allows {
        quality,
        kept: effective_token(world.process_token(by.process), world.own_token(by.number)),
    }
}

/// What a connect that isn't refused is to make: to which connection port, what it offers, and the view of that in its
/// own process.
#[derive(Clone, Copy)]
pub(crate) struct Connecting {
    /// The connection port.
    pub connection: Key,
    /// The part of a section that is offered.
    pub offer: Option<Offer>,
    /// The view of it, which goes with no port yet.
    pub own: Option<View<Key>>,
}

/// The tests of a connect: the handle of a view, too many bytes, what is offered, a fault of the name or a directory, the
/// access check, too many handles, then too many views or no place for one.
#[tactic(auto, unfolding(lpc_model::specs::Connect::nt_connect_port))]
fn connect_test(
    world: &World,
    by: &Caller,
    name: &[u8],
    quality: Qos,
    view: Option<ViewWord>,
    info: &[u8],
) -> Result<Connecting, Status>
    requires ready { is_ready world.now.rows by.now.number ≡ true }
    requires row { by.now ≡ as_caller (caller world.now.rows by.now.number) }
    requires process { has_process world.now.rows by.now.process ≡ true }
    requires table { has (is_table by.now.process) world.now.rows.handles ≡ true }
    requires live { has (is_live_thread by.now.number) world.now.rows.threads ≡ true }
    requires sizes { every is_sized world.now.rows.sections ≡ true }
    requires views { length (views_of world.now.rows by.now.process) ≤ VIEW_LIMIT }
    ensures refused { let call = connect_port name.now quality view info.now in
        IfErr result (λ s. service world.now.rows by.now.number call ≡ Err s) }
    ensures steps { let call = connect_port name.now quality view info.now in
        let own = caller world.now.rows by.now.number in
        let allowed = Allows quality (found.acting_token world.now.rows own) in
        IfOk result (λ c. service world.now.rows by.now.number call
        ≡ Ok (allowing world.now (shown_caller by.now) c info.now allowed)) }
    ensures stands { IfOk result (λ c. stands world.now.births.ports c.connection ≡ true) }
    ensures offer { IfOk result (λ c. has_section world.now c.offer ≡ true) }
    ensures lies { IfOk result (λ c. CanLieAs world.now by.now.process c.own) }
    ensures given { IfOk result (λ c. is_some c.own ≡ is_some view) }
    ensures few { OnOk result (tests.handle_load world.now.rows by.now.process < HANDLE_LIMIT) }
    ensures bound { OnOk result (HEADER_SIZE + length info.now ≤ MESSAGE_LIMIT) }
{
    // The contract alone speaks of it.
    let _ = quality;
    let wanted = wanted_test(world, by.number, view)?;
    info_test(info)?;
    let offer = offer_test(world, wanted)?;
    let connection = world.named_port(name)?;
    access_test(world, by, connection)?;
    handles_test(world, by.process, 1)?;
    let own = match view_test(world, by.process, offer) {
        Ok(own) => own,
        Err(status) => return Err(status),
    };
    Ok(Connecting {
        connection,
        offer,
        own,
    })
}

/// The client that a thread is.
fn client_of(by: &Caller) -> ClientId
    ensures { result ≡ tests.client_of (shown_caller by.now) }
{
    ClientId {
        process: by.process,
        thread: by.number,
    }
}

/// The size of what is offered, 0 where nothing is.
fn offered_size(offer: Option<Offer>) -> u32
    ensures { result ≡ size_offered offer }
{
    match offer {
        Some(offer) => offer.size,
        None => 0,
    }
}

/// The connection request, with the identifier that its sender draws, and the size of what is offered.
fn connection_request(by: &Caller, offer: Option<Offer>, info: &[u8]) -> Message
    requires { HEADER_SIZE + length info.now ≤ MESSAGE_LIMIT }
    ensures { result ≡ requesting (shown_caller by.now) offer info.now }
{
    Message {
        header: Header {
            data_size: info.len() as u16,
            message_size: (HEADER_SIZE + info.len()) as u16,
            kind: kind::CONNECTION_REQUEST,
            ranges_offset: 0,
            client: client_of(by),
            message_id: by.next_identifier,
            section_size: offered_size(offer),
        },
        body: Body::from_slice(info),
    }
}

/// A thread draws the identifier of its connection request, and the birth of its client port, which is answered.
#[tactic(auto, using(crate::proofs::Drawn::stands_behind_identifier, crate::proofs::Drawn::stands_behind_ordinal, crate::proofs::Drawn::lives_behind_identifier, crate::proofs::Drawn::lives_behind_ordinal, crate::proofs::Drawn::birth_behind_identifier))]
fn draw(world: &mut World, by: &Caller) -> Birth
    requires budget { HasWholeBudget world.old }
    requires thread { HasCaller world.old.rows by.now }
    requires live { has (is_live_thread by.now.number) world.old.rows.threads ≡ true }
    ensures birth { result ≡ next_birth (shown_caller by.now) }
    ensures fresh { port_row world.new.rows result ≡ None }
    ensures drawn { has (drew result) world.new.rows.threads ≡ true }
    ensures rows { world.new.rows ≡ world_after world.old.rows (draws by.now.number) }
    ensures thread { has (is_thread by.now.number) world.new.rows.threads ≡ true }
    ensures live { has (is_live_thread by.now.number) world.new.rows.threads ≡ true }
    ensures births { world.new.births ≡ world.old.births }
    ensures calls { world.new.calls ≡ world.old.calls }
    ensures capacity { world.new.capacity ≡ world.old.capacity }
    ensures loose { world.new.loose ≡ world.old.loose }
    ensures made { world.new.made ≡ world.old.made + 2 }
    ensures ports { world.old.room.ports ≤ world.new.room.ports }
    ensures messages { world.old.room.messages ≤ world.new.room.messages }
    ensures handles { KeepsHandleRoom world.old world.new }
    ensures views { KeepsViewRoom world.old world.new }
{
    world.procs_draw_identifier(by.number);
    world.procs_draw_birth(by.number)
}

/// A client port of a connection port is made, which isn't joined yet and keeps the connect that makes it; its key is
/// answered. It takes a place for the message that is to tell that it is closed.
fn make_client(world: &mut World, by: &Caller, birth: Birth, connection: Key) -> Key
    requires ports { 0 < world.old.room.ports }
    requires messages { 0 < world.old.room.messages }
    requires budget { CanMake world.old }
    requires connection { stands world.old.births.ports connection ≡ true }
    requires birth { birth ≡ next_birth (shown_caller by.now) }
    requires fresh { port_row world.old.rows birth ≡ None }
    requires drawn { has (drew birth) world.old.rows.threads ≡ true }
    ensures rows { let queue = birth_at world.old connection in
        let port = connect.client_port (shown_caller by.now) queue in
        world.new.rows ≡ basic world.old.rows (Makes port) }
    ensures name { name_of world.new.births.ports result ≡ birth }
    ensures stands { stands world.new.births.ports result ≡ true }
    ensures connection { birth_at world.new connection ≡ birth_at world.old connection }
    ensures connection_stands { stands world.new.births.ports connection ≡ true }
    ensures calls { world.new.calls ≡ world.old.calls }
    ensures capacity { world.new.capacity ≡ world.old.capacity }
    ensures loose { world.new.loose ≡ world.old.loose }
    ensures made { world.new.made ≡ world.old.made + 1 }
    ensures handles { KeepsHandleRoom world.old world.new }
    ensures views { KeepsViewRoom world.old world.new }
    ensures sections { world.new.births.sections ≡ world.old.births.sections }
{
    let creator = Creator {
        client: client_of(by),
        message_id: by.next_identifier,
    };
    world.ports_add(PortKind::Client, birth, Some(connection), Some(creator))
}

/// A connect begins: its thread draws the identifier, makes the client port, and waits there with what it offers. The
/// client port is answered.
fn begin(world: &mut World, by: &Caller, connect: Connecting, message: &Message) -> Key
    requires ports { 0 < world.old.room.ports }
    requires messages { 0 < world.old.room.messages }
    requires handles { HasHandleRoom world.old by.now.process }
    requires budget { HasWholeBudget world.old }
    requires thread { HasCaller world.old.rows by.now }
    requires live { has (is_live_thread by.now.number) world.old.rows.threads ≡ true }
    requires ready { has (waits_as by.now.number) world.old.rows.waits ≡ false }
    requires table { has (is_table by.now.process) world.old.rows.handles ≡ true }
    requires few { tests.handle_load world.old.rows by.now.process < HANDLE_LIMIT }
    requires connection { stands world.old.births.ports connect.connection ≡ true }
    requires offer { has_section world.old connect.offer ≡ true }
    ensures rows { let steps = beginning world.old (shown_caller by.now) connect message.now in
        world.new.rows ≡ world_after world.old.rows steps }
    ensures name { name_of world.new.births.ports result ≡ next_birth (shown_caller by.now) }
    ensures stands { stands world.new.births.ports result ≡ true }
    ensures connection { birth_at world.new connect.connection
        ≡ birth_at world.old connect.connection }
    ensures connection_stands { stands world.new.births.ports connect.connection ≡ true }
    ensures sections { world.new.births.sections ≡ world.old.births.sections }
    ensures unsent { is_unsent world.new.rows by.now.number ≡ true }
    ensures calls { world.new.calls ≡ world.old.calls }
    ensures capacity { world.new.capacity ≡ world.old.capacity }
    ensures loose { world.new.loose ≡ world.old.loose }
    ensures made { world.new.made ≤ world.old.made + 4 }
    ensures views { KeepsViewRoom world.old world.new }
{
    let birth = draw(world, by);
    let port = make_client(world, by, birth, connect.connection);
    wait_with(
        world,
        by.number,
        Wait {
            process: by.process,
            kind: WaitKind::Connect,
            port,
            queue: connect.connection,
            identifier: by.next_identifier,
            received: false,
        },
        message,
    );
    world.waits_set_offer(by.number, connect.offer);
    port
}

/// A connect begins, its view is mapped, and the connection request enters the queue of the connection port. The client
/// port is answered, which allows nothing yet.
fn start(
    world: &mut World,
    by: &Caller,
    connect: Connecting,
    message: &Message,
    out: &mut Entries,
) -> Key
    requires spare { 2 ≤ out.old.spare }
    requires ports { 0 < world.old.room.ports }
    requires messages { 0 < world.old.room.messages }
    requires handles { HasHandleRoom world.old by.now.process }
    requires budget { HasWholeBudget world.old }
    requires thread { HasCaller world.old.rows by.now }
    requires live { has (is_live_thread by.now.number) world.old.rows.threads ≡ true }
    requires ready { has (waits_as by.now.number) world.old.rows.waits ≡ false }
    requires table { has (is_table by.now.process) world.old.rows.handles ≡ true }
    requires few { tests.handle_load world.old.rows by.now.process < HANDLE_LIMIT }
    requires connection { stands world.old.births.ports connect.connection ≡ true }
    requires offer { has_section world.old connect.offer ≡ true }
    requires lies { CanLieAs world.old by.now.process connect.own }
    requires room { HasViewRoom world.old by.now.process connect.own }
    requires asks { asks message.now ≡ true }
    requires client { message.now.header.client.thread ≡ by.now.number }
    ensures takes { let by = shown_caller by.now in
        let steps = connecting_with world.old by connect message.now in
        Took steps world.old world.new out.old out.new }
    ensures name { name_of world.new.births.ports result ≡ next_birth (shown_caller by.now) }
    ensures stands { stands world.new.births.ports result ≡ true }
    ensures calls { world.new.calls ≡ world.old.calls }
    ensures capacity { world.new.capacity ≡ world.old.capacity }
    ensures spare { out.old.spare ≤ out.new.spare + 2 }
{
    out.push(Entry::Waits {
        tid: by.number,
        call: CallName::NtConnectPort,
        fields: connect_fields(by.next_identifier, base_of(connect.own)),
    });
    let port = begin(world, by, connect, message);
    map_view(world, by.process, port, connect.own);
    deliver(world, connect.connection, port, 0, message, out);
    port
}

/// A connect begins, and its client port keeps what the connect allows.
fn start_allowing<'t>(
    world: &mut World<'t>,
    by: &Caller,
    connect: Connecting,
    message: &Message,
    allowed: Security<'t>,
    out: &mut Entries,
)
    requires spare { 2 ≤ out.old.spare }
    requires ports { 0 < world.old.room.ports }
    requires messages { 0 < world.old.room.messages }
    requires handles { HasHandleRoom world.old by.now.process }
    requires budget { HasWholeBudget world.old }
    requires thread { HasCaller world.old.rows by.now }
    requires live { has (is_live_thread by.now.number) world.old.rows.threads ≡ true }
    requires ready { has (waits_as by.now.number) world.old.rows.waits ≡ false }
    requires table { has (is_table by.now.process) world.old.rows.handles ≡ true }
    requires few { tests.handle_load world.old.rows by.now.process < HANDLE_LIMIT }
    requires connection { stands world.old.births.ports connect.connection ≡ true }
    requires offer { has_section world.old connect.offer ≡ true }
    requires lies { CanLieAs world.old by.now.process connect.own }
    requires room { HasViewRoom world.old by.now.process connect.own }
    requires asks { asks message.now ≡ true }
    requires client { message.now.header.client.thread ≡ by.now.number }
    ensures takes { let by = shown_caller by.now in
        let steps = allowing_with world.old by connect message.now allowed.entry in
        Took steps world.old world.new out.old out.new }
    ensures calls { world.new.calls ≡ world.old.calls }
    ensures capacity { world.new.capacity ≡ world.old.capacity }
    ensures spare { out.old.spare ≤ out.new.spare + 2 }
{
    let port = start(world, by, connect, message, out);
    world.ports_set_security(port, allowed);
}

/// Makes room for a view of a process, where there is one.
fn reserve_view(world: &mut World, pid: u32, view: Option<View<Key>>) -> Result<(), OutOfMemory>
    requires { has (is_table pid) world.old.rows.handles ≡ true }
    ensures same { Same world.old world.new }
    ensures room { Roomy world.old.room world.new.room }
    ensures views { OnOk result (HasViewRoom world.new pid view) }
    ensures wanting { OnErr result (lacks_room_of_view world.old pid view ≡ true) }
    ensures others { let new = world.new.room in
        new ≡ record world.old.room { views = new.views } }
    ensures capacity { let new = world.new.capacity in
        new ≡ record world.old.capacity { views = new.views } }
    ensures asked { view_places world.new.capacity pid ≤ grown_views world.old pid 1 }
    ensures other_places { KeepsOtherViewPlaces pid world.old.capacity world.new.capacity }
{
    match view {
        Some(_) => world.views_reserve(pid, 1),
        None => Ok(()),
    }
}

/// `NtConnectPort`: asks for a connection to the port that a path leads to, with bytes that go with the request, and
/// waits for the end of the connect. A view word offers a part of a section to be seen by the server: it is mapped into
/// the caller's process, to be written, and goes with the client port. The client port keeps the quality of service that
/// the connect asks for, and the token with which its thread acts: that is how far the server may act for it. The
/// caller's process is to get a handle to the client port, for which there is room then, as there is for the message that
/// is to tell that the port is closed.
///
/// Refusals, in this order: of a view's handle, INVALID_HANDLE, OBJECT_TYPE_MISMATCH where it names no section, and
/// ACCESS_DENIED where it lacks the right 2; PORT_MESSAGE_TOO_LONG where there are more than 232 bytes; of a view,
/// MAPPED_ALIGNMENT where its offset is no multiple of 4096, SECTION_PROTECTION where the section may not be written,
/// and INVALID_VIEW_SIZE where it would pass the section; the fault of the name, or OBJECT_TYPE_MISMATCH where a
/// directory stands there; BAD_IMPERSONATION_LEVEL where the thread acts with a token of its own of a level below 2;
/// ACCESS_DENIED where the port's access list doesn't grant the token with which the thread acts the right to connect;
/// QUOTA_EXCEEDED where the process has 256 handles, with those that its waiting connects are to get; of a view,
/// QUOTA_EXCEEDED where the process has 128 views, or no place is left. OutOfMemory comes only where it isn't refused and
/// there is no room for the client port, for its handle, for the message that is to tell that it is closed, or for the
/// view; nothing has changed then but the room.
pub fn nt_connect_port(
    world: &mut World,
    by: u32,
    name: &[u8],
    quality: Qos,
    view: Option<ViewWord>,
    info: &[u8],
    out: &mut Entries,
) -> Result<Outcome, OutOfMemory>
    requires ready { is_ready world.old.rows by ≡ true }
    requires room { HasRoom world.old out.old }
    requires calls { world.old.calls < LINES_LIMIT }
    requires views { HasSoundViews world.old.rows }
    ensures serves { let call = connect_port name.now quality view info.now in
        MayServe by call result world.old world.new out.old out.new }
    ensures room_stays { let call = connect_port name.now quality view info.now in
        IsErr (service world.old.rows by call) → world.new.room ≡ world.old.room }
    ensures unasked { let call = connect_port name.now quality view info.now in
        IsErr (service world.old.rows by call) → world.new.capacity ≡ world.old.capacity }
    ensures spare { OnOk result (out.old.spare ≤ out.new.spare + 2) }
    ensures wanting { let row = caller world.old.rows by in
        OnErr result (lacks_connect_room world.old row view ≡ true) }
    ensures capacity { let new = world.new.capacity in
        let old = world.old.capacity in
        let most = record old { ports = new.ports; messages = new.messages } in
        new ≡ record most { handles = new.handles; views = new.views } }
    ensures asked_ports { let new = world.new.capacity in new.ports ≤ grown_ports world.old 1 }
    ensures asked_messages { let new = world.new.capacity in
        new.messages ≤ grown_messages world.old 1 }
    ensures asked_handles { let by = caller world.old.rows by in
        handle_places world.new.capacity by.process ≤ grown_handles world.old by.process 1 }
    ensures asked_views { let by = caller world.old.rows by in
        view_places world.new.capacity by.process ≤ grown_views world.old by.process 1 }
    ensures other_places { let by = caller world.old.rows by in
        KeepsOtherPlaces by.process world.old.capacity world.new.capacity }
    ensures other_views { let by = caller world.old.rows by in
        KeepsOtherViewPlaces by.process world.old.capacity world.new.capacity }
{
    let caller = world.caller(by);
    let connect = match connect_test(world, &caller, name, quality, view, info) {
        Ok(connect) => connect,
        Err(status) => {
            world.begin_call();
            return Ok(refuse(caller.number, CallName::NtConnectPort, status, out));
        }
    };
    world.ports_reserve(1)?;
    world.messages_reserve(1)?;
    world.handles_reserve(caller.process, 1)?;
    reserve_view(world, caller.process, connect.own)?;
    world.begin_call();
    let message = connection_request(&caller, connect.offer, info);
    let allowed = allowed(world, &caller, quality);
    start_allowing(world, &caller, connect, &message, allowed, out);
    Ok(Outcome::Waits)
}
