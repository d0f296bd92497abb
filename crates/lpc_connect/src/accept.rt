// The call that answers a connect: it accepts it, or refuses it.
ghost use Rattle.lpc_rows.specs.Capacity.{KeepsOtherPlaces, handle_places, view_places};
ghost use Rattle.std.specs.Prelude.{◌≡◌, ℕ, ◌≤◌, ◌<◌, ◌++◌, Ok, Err, true, false, IfErr, IfOk, IfSome, IsOk, OnOk, OnErr, MatchResult, ◌+◌, IsErr, is_some, length, option_to_list};
ghost use Rattle.lpc_base.specs.Rows.{every, has};
ghost use Rattle.lpc_base.specs.declared.limits.TheConstants.{HANDLE_LIMIT, LINES_LIMIT, VIEW_LIMIT};
ghost use Rattle.lpc_base.specs.declared.birth.Birth.{Birth};
ghost use Rattle.lpc_model.specs.Basics.{world_after};
ghost use Rattle.lpc_rows.specs.Clauses.{HasHandleRoom, IsOwnWait, birth_at, has_section};
ghost use Rattle.lpc_rows.specs.Names.{stands};
ghost use Rattle.lpc_connect.specs.Calls.{Answering, HasCaller, accepting, answer_with, shown_answer, was_received};
ghost use Rattle.lpc_connect.specs.Sharing.{AreGiven, CanShare, HasClientTable, HasSharedRoom, HasSpaces, KeepsSharedPlaces, KeepsUnansweredPlaces, SharesAs, lacks_accept_room, lacks_shared_room, shown_sharing};
ghost use Rattle.lpc_model.specs.Connect as connect;
ghost use Rattle.lpc_model.specs.Found.{is_offered, is_table, views_of, waits_as};
ghost use Rattle.lpc_model.specs.Lines.{accept_connect_port};
ghost use Rattle.lpc_model.specs.Offers as offers;
ghost use Rattle.lpc_model.specs.SoundViews.{HasSoundOffers, HasSoundViews, is_sized};
ghost use Rattle.lpc_views.specs.Views.{is_placed};
ghost use Rattle.lpc_model.specs.World.{ThreadRow};
ghost use Rattle.lpc_rows.specs.Shown.{shown_acceptance};
ghost use Rattle.lpc_steps.specs.Offers.{is_part, place_beside};
ghost use Rattle.lpc_model.specs.Tests as tests;
ghost use Rattle.lpc_rows.specs.Called.{MayServe, service};
ghost use Rattle.lpc_rows.specs.Does.{Took};
ghost use Rattle.lpc_rows.specs.Kept.{HasWholeBudget, Kept, Roomy, Same, grown_handles, grown_ports, grown_views, has_queued, is_pending_in};
ghost use Rattle.lpc_rows.specs.Ready.{HasRoom, caller, is_ready, waiter};
ghost use Rattle.lpc_rows.specs.Callers.{as_caller, shown_caller};

use crate::create::PORT_ACCESS;
use lpc_base::status::{REPLY_MESSAGE_MISMATCH, SUCCESS};
use lpc_base::{OutOfMemory, PortKind, Status, held};
use lpc_model::{
    CallName, Entries, Entry, Fields, Message, Outcome, ViewWord, accept_fields, kept, refuse,
};
use lpc_procs::Caller;
use lpc_slots::Key;
use lpc_steps::{
    answered_connect, base_of, client_test, end_connect, give_handle, handles_test, map_view,
    offer_test, read_message, size_of_view, view_beside, wanted_test,
};
use lpc_views::View;
use lpc_waits::{Accepted, Offer};
use lpc_world::{Object, World};

/// The message that answers a connect, and the thread that waits in that connect.
#[derive(Drop)]
pub struct ConnectAnswer {
    /// The number of the thread that waits.
    pub thread: u32,
    /// The message of the answer.
    pub message: Message,
}

/// The tests of an answer: the message, no such client, no connect that it names.
#[tactic(auto, using(crate::proofs::Accepted::received_when_idle))]
fn answer_test(world: &World, by: u32, bytes: &[u8]) -> Result<ConnectAnswer, Status>
    requires ready { is_ready world.now.rows by ≡ true }
    ensures found { let by = caller world.now.rows by in
        let found = connect.answer_test world.now.rows by bytes.now in
        MatchResult result (λ a. found ≡ Ok (shown_answer world.now.rows a)) (λ s. found ≡ Err s) }
    ensures waits { IfOk result (λ a. has (waits_as a.thread) world.now.rows.waits ≡ true) }
    ensures thread { IfOk result (λ a. IsOwnWait world.now.rows a.thread) }
    ensures idle { IfOk result (λ a. is_pending_in world.now.rows a.thread ≡ false) }
    ensures left { IfOk result (λ a. has_queued world.now.rows a.thread ≡ false) }
    ensures offered { IfOk result (λ a. is_offered (waiter world.now.rows a.thread) ≡ true) }
    ensures received { IfOk result (λ a. was_received world.now.rows a.thread ≡ true) }
    ensures client { IfOk result (λ a. HasClientTable world.now.rows a.thread) }
{
    let message = kept(&read_message(bytes)?);
    client_test(world, message.header.client)?;
    match answered_connect(world, by, message.header.client, message.header.message_id) {
        Some(thread) => Ok(ConnectAnswer { thread, message }),
        None => Err(REPLY_MESSAGE_MISMATCH),
    }
}

/// The views of a connection, which go with no port yet: that of what the caller offers in its own process, that of what
/// the client offers there, and that of what the caller offers in the client's process.
#[derive(Clone, Copy)]
pub(crate) struct Sharing {
    /// The caller's own view.
    pub own: Option<View<Key>>,
    /// The view of what the client offers.
    pub theirs: Option<View<Key>>,
    /// The client's view.
    pub across: Option<View<Key>>,
}

/// A connect that may be answered: the answer, and the views of the connection where it is accepted.
#[derive(Drop)]
struct Answerable {
    answer: ConnectAnswer,
    views: Sharing,
}

/// The connect that an answer names and the views of the connection, unless the call is refused: the handle of a view,
/// the tests of the answer, then, to accept, those of what is offered, of the caller's handles, and of each view.
#[tactic(auto, unfolding(lpc_model::specs::Connect::nt_accept_connect_port))]
fn accept_test(
    world: &World,
    by: &Caller,
    bytes: &[u8],
    accept: bool,
    view: Option<ViewWord>,
) -> Result<Answerable, Status>
    requires ready { is_ready world.now.rows by.now.number ≡ true }
    requires row { by.now ≡ as_caller (caller world.now.rows by.now.number) }
    requires table { has (is_table by.now.process) world.now.rows.handles ≡ true }
    requires sound { HasSoundViews world.now.rows }
    requires offers { HasSoundOffers world.now.rows }
    ensures refused { let n = by.now.number in
        IfErr result (λ s. Answering world.now.rows n bytes.now accept view (λ context. Err s)) }
    ensures refuses { let by = shown_caller by.now in
        IfOk result (λ a. accept ≡ false → Answering world.now.rows by.number bytes.now accept view
        (λ context. Ok (connect.refuse_steps by (shown_answer world.now.rows a.answer)))) }
    ensures accepts { let by = shown_caller by.now in
        IfOk result (λ a. accept ≡ true → (let answer = shown_answer world.now.rows a.answer in
        Answering world.now.rows by.number bytes.now accept view
        (λ context. Ok (accepting world.now by answer context a.views)))) }
    ensures few { let load = tests.handle_load world.now.rows by.now.process in
        OnOk result (accept ≡ true → load < HANDLE_LIMIT) }
    ensures waits { IfOk result (λ a. has (waits_as a.answer.thread) world.now.rows.waits ≡ true) }
    ensures thread { IfOk result (λ a. IsOwnWait world.now.rows a.answer.thread) }
    ensures idle { IfOk result (λ a. is_pending_in world.now.rows a.answer.thread ≡ false) }
    ensures left { IfOk result (λ a. has_queued world.now.rows a.answer.thread ≡ false) }
    ensures offered { IfOk result
        (λ a. is_offered (waiter world.now.rows a.answer.thread) ≡ true) }
    ensures received { IfOk result (λ a. was_received world.now.rows a.answer.thread ≡ true) }
    ensures client { IfOk result (λ a. HasClientTable world.now.rows a.answer.thread) }
    ensures answer { let by = caller world.now.rows by.now.number in
        let found = connect.answer_test world.now.rows by bytes.now in
        IfOk result (λ a. found ≡ Ok (shown_answer world.now.rows a.answer)) }
    ensures given { IfOk result (λ a. accept ≡ true →
        AreGiven (is_some view) (waiter world.now.rows a.answer.thread) a.views) }
    ensures lie { IfOk result (λ a. CanShare world.now by.now.process a.answer.thread a.views) }
{
    let wanted = wanted_test(world, by.number, if accept { view } else { None })?;
    let answer = answer_test(world, by.number, bytes)?;
    if !accept {
        let views = Sharing {
            own: None,
            theirs: None,
            across: None,
        };
        return Ok(Answerable { answer, views });
    }
    let offer = offer_test(world, wanted)?;
    handles_test(world, by.process, 1)?;
    let views = shared_test(world, by.process, answer.thread, offer)?;
    Ok(Answerable { answer, views })
}

/// The views of a connection, each beside those that stand and those that are mapped before it: QUOTA_EXCEEDED where a
/// process has too many, or no place is left.
fn shared_test(
    world: &World,
    pid: u32,
    thread: u32,
    offer: Option<Offer>,
) -> Result<Sharing, Status>
    requires table { has (is_table pid) world.now.rows.handles ≡ true }
    requires waits { has (waits_as thread) world.now.rows.waits ≡ true }
    requires offered { is_offered (waiter world.now.rows thread) ≡ true }
    requires client { HasClientTable world.now.rows thread }
    requires part { IfSome offer (λ o. is_part world.now o ≡ true) }
    requires stands { has_section world.now offer ≡ true }
    requires sound { HasSoundViews world.now.rows }
    requires offers { HasSoundOffers world.now.rows }
    ensures test { (by : ThreadRow) → by.process ≡ pid → SharesAs world.now by thread offer result }
    ensures lie { IfOk result (λ views. CanShare world.now pid thread views) }
    ensures given { IfOk result
        (λ views. AreGiven (is_some offer) (waiter world.now.rows thread) views) }
{
    let client = world.waiting(thread).process;
    let own = view_beside_two(world, pid, offer, None, None)?;
    let theirs = view_beside_two(world, pid, world.waits_offer(thread), own, None)?;
    let across = if client == pid {
        view_beside_two(world, pid, offer, own, theirs)?
    } else {
        view_beside_two(world, client, offer, None, None)?
    };
    Ok(Sharing {
        own,
        theirs,
        across,
    })
}

/// A view of what is offered, for a process, beside those of two further views that there are, which aren't mapped.
fn view_beside_two(
    world: &World,
    pid: u32,
    offer: Option<Offer>,
    one: Option<View<Key>>,
    other: Option<View<Key>>,
) -> Result<Option<View<Key>>, Status>
    requires table { has (is_table pid) world.now.rows.handles ≡ true }
    requires part { IfSome offer (λ o. is_part world.now o ≡ true) }
    requires sizes { every is_sized world.now.rows.sections ≡ true }
    requires others { every is_placed (option_to_list one ++ option_to_list other) ≡ true }
    requires within { let others = option_to_list one ++ option_to_list other in
        length (views_of world.now.rows pid) + length others ≤ VIEW_LIMIT }
    ensures view { let others = option_to_list one ++ option_to_list other in
        result ≡ offers.if_given (place_beside world.now pid others) offer }
    ensures placed { IfOk result (λ view. IfSome view (λ v. is_placed v ≡ true)) }
    ensures given { IfOk result (λ view. is_some view ≡ is_some offer) }
{
    match one {
        Some(one) => match other {
            Some(other) => view_beside(world, pid, offer, &[one, other]),
            None => view_beside(world, pid, offer, &[one]),
        },
        None => match other {
            Some(other) => view_beside(world, pid, offer, &[other]),
            None => view_beside(world, pid, offer, &[]),
        },
    }
}

/// How many of two views there are.
fn count_of(one: Option<View<Key>>, other: Option<View<Key>>) -> usize
    ensures count { result ≡ length (option_to_list one ++ option_to_list other) }
    ensures few { result ≤ 2 }
{
    usize::from(one.is_some()) + usize::from(other.is_some())
}

/// A connect is refused: it ends, with the data of the answer, and the views of its client port go.
fn refuse_connect(world: &mut World, by: &Caller, thread: u32, message: &Message, out: &mut Entries)
    requires spare { 2 ≤ out.old.spare }
    requires waits { has (waits_as thread) world.old.rows.waits ≡ true }
    requires left { has_queued world.old.rows thread ≡ false }
    requires offered { is_offered (waiter world.old.rows thread) ≡ true }
    ensures takes { let a = answer_with world.old.rows thread message.now in
        let steps = connect.refuse_steps (shown_caller by.now) a in
        Took steps world.old world.new out.old out.new }
    ensures calls { world.new.calls ≡ world.old.calls }
    ensures capacity { world.new.capacity ≡ world.old.capacity }
    ensures spare { out.old.spare ≤ out.new.spare + 2 }
{
    out.push(Entry::Answer {
        tid: by.number,
        call: CallName::NtAcceptConnectPort,
        status: SUCCESS,
        fields: Fields::none(),
    });
    end_connect(world, thread, message.body.as_slice(), out);
}

/// A connect is accepted: the server port is made, gets a handle, and is joined to the client port, and the views of the
/// connection are mapped.
#[tactic(auto, unfolding(lpc_rows::specs::Ready::waiter))]
fn accept_connect(
    world: &mut World,
    by: &Caller,
    context: u32,
    answer: &ConnectAnswer,
    views: Sharing,
    out: &mut Entries,
)
    requires spare { 1 ≤ out.old.spare }
    requires ports { 0 < world.old.room.ports }
    requires handles { HasHandleRoom world.old by.now.process }
    requires load { tests.handle_load world.old.rows by.now.process < HANDLE_LIMIT }
    requires budget { HasWholeBudget world.old }
    requires row { HasCaller world.old.rows by.now }
    requires table { has (is_table by.now.process) world.old.rows.handles ≡ true }
    requires waits { has (waits_as answer.now.thread) world.old.rows.waits ≡ true }
    requires offered { is_offered (waiter world.old.rows answer.now.thread) ≡ true }
    requires received { was_received world.old.rows answer.now.thread ≡ true }
    requires client { HasClientTable world.old.rows answer.now.thread }
    requires spaces { HasSpaces world.old.rows }
    requires thread { IsOwnWait world.old.rows answer.now.thread }
    requires lie { CanShare world.old by.now.process answer.now.thread views }
    requires places { HasSharedRoom world.old by.now.process answer.now.thread views }
    ensures takes { let a = shown_answer world.old.rows answer.now in
        let steps = accepting world.old (shown_caller by.now) a context views in
        Took steps world.old world.new out.old out.new }
    ensures calls { world.new.calls ≡ world.old.calls }
    ensures capacity { world.new.capacity ≡ world.old.capacity }
    ensures spare { out.old.spare ≤ out.new.spare + 2 }
{
    let wait = world.waiting(answer.thread);
    let birth = world.procs_draw_birth(by.number);
    let server = world.ports_add(PortKind::Server, birth, Some(wait.queue), None);
    map_shared(world, by, server, answer.thread, views);
    let value = give_handle(world, by.process, Object::Port(server), PORT_ACCESS);
    world.waits_set_accepted(answer.thread, Some(acceptance(&answer.message, views)));
    world.ports_join(wait.port, server, context);
    out.push(Entry::Answer {
        tid: by.number,
        call: CallName::NtAcceptConnectPort,
        status: SUCCESS,
        fields: shared_fields(value, views),
    });
}

/// Maps the views of a connection: those in the caller's process go with the server port, and that in the client's with
/// its client port.
fn map_shared(world: &mut World, by: &Caller, server: Key, thread: u32, views: Sharing)
    requires table { has (is_table by.now.process) world.old.rows.handles ≡ true }
    requires waits { has (waits_as thread) world.old.rows.waits ≡ true }
    requires client { HasClientTable world.old.rows thread }
    requires spaces { HasSpaces world.old.rows }
    requires server { stands world.old.births.ports server ≡ true }
    requires lie { CanShare world.old by.now.process thread views }
    requires places { HasSharedRoom world.old by.now.process thread views }
    ensures rows { let x = waiter world.old.rows thread in
        let shown = shown_sharing world.old (birth_at world.old server) x.port views in
        let steps = offers.shared_steps (shown_caller by.now) x shown in
        world.new.rows ≡ world_after world.old.rows steps }
    ensures waits { world.new.rows.waits ≡ world.old.rows.waits }
    ensures handles { world.new.rows.handles ≡ world.old.rows.handles }
    ensures births { world.new.births ≡ world.old.births }
    ensures calls { world.new.calls ≡ world.old.calls }
    ensures loose { world.new.loose ≡ world.old.loose }
    ensures made { world.new.made ≡ world.old.made }
    ensures others { let new = world.new.room in
        new ≡ record world.old.room { views = new.views } }
    ensures capacity { world.new.capacity ≡ world.old.capacity }
{
    let wait = world.waiting(thread);
    map_view(world, by.process, server, views.own);
    map_view(world, by.process, server, views.theirs);
    map_view(world, wait.process, wait.port, views.across);
}

/// What the client is told when the connection is completed: the data of the answer, and where the views lie.
fn acceptance(message: &Message, views: Sharing) -> Accepted
    ensures { (w : Kept) (server client : Birth) → shown_acceptance result
        ≡ offers.acceptance message.now.body (shown_sharing w server client views) }
{
    Accepted {
        reply: held(message.body.as_slice()),
        target: base_of(views.theirs),
        vbase: base_of(views.across),
        vsize: size_of_view(views.across),
    }
}

/// What the caller is told: its handle, and where the views lie.
fn shared_fields(value: u32, views: Sharing) -> Fields
    ensures { (w : Kept) (server client : Birth) → result
        ≡ connect.shared_fields value (shown_sharing w server client views) }
{
    accept_fields(
        value,
        base_of(views.own),
        base_of(views.across),
        base_of(views.theirs),
        size_of_view(views.theirs),
    )
}

/// Makes room for the views of a connection: those in the caller's process, and that in the client's.
fn reserve_views(
    world: &mut World,
    pid: u32,
    thread: u32,
    views: Sharing,
) -> Result<(), OutOfMemory>
    requires table { has (is_table pid) world.old.rows.handles ≡ true }
    requires waits { has (waits_as thread) world.old.rows.waits ≡ true }
    requires offered { is_offered (waiter world.old.rows thread) ≡ true }
    requires client { HasClientTable world.old.rows thread }
    ensures same { Same world.old world.new }
    ensures room { Roomy world.old.room world.new.room }
    ensures views { OnOk result (HasSharedRoom world.new pid thread views) }
    ensures wanting { OnErr result (lacks_shared_room world.old pid thread views ≡ true) }
    ensures others { let new = world.new.room in
        new ≡ record world.old.room { views = new.views } }
    ensures capacity { let new = world.new.capacity in
        new ≡ record world.old.capacity { views = new.views } }
    ensures asked { (owner : ℕ) →
        view_places world.new.capacity owner ≤ grown_views world.old owner 3 }
    ensures other_places { let x = waiter world.old.rows thread in
        KeepsSharedPlaces pid x.process world.old.capacity world.new.capacity }
{
    let client = world.waiting(thread).process;
    let own = count_of(views.own, views.theirs);
    let across = count_of(views.across, None);
    if client == pid {
        return world.views_reserve(pid, own + across);
    }
    world.views_reserve(pid, own)?;
    world.views_reserve(client, across)
}

/// `NtAcceptConnectPort`: accepts the connect that a message names, or refuses it. An accepted connect has a server
/// port then, with a handle for the caller's process; its client waits on, until the connection is completed. What the
/// caller offers by a view word is mapped into its own process and into the client's, and what the client offered into
/// the caller's, all to be written; the views go with the port of their process. A refused connect ends, and with it go
/// the views that its client port owns; where no row names that port, it goes at the end of the line.
///
/// Refusals, in this order: to accept, of a view's handle, INVALID_HANDLE, OBJECT_TYPE_MISMATCH where it names no
/// section, and ACCESS_DENIED where it lacks the right 2; INVALID_PARAMETER where the message has no lawful shape;
/// PORT_MESSAGE_TOO_LONG where its MessageSize is above 256; INVALID_CID where no live thread has the message's process
/// and thread; REPLY_MESSAGE_MISMATCH where the message names no connect that was received and isn't accepted, to a
/// connection port that the caller's process has a handle to; to accept, of a view, MAPPED_ALIGNMENT, SECTION_PROTECTION
/// and INVALID_VIEW_SIZE as in `NtConnectPort`; QUOTA_EXCEEDED where the process has 256 handles, with those that its
/// waiting connects are to get; and QUOTA_EXCEEDED where a view that is to be mapped would be the 129th of its process,
/// or has no place. To refuse takes no memory, and looks at no view word. To accept, OutOfMemory comes only where the
/// call isn't refused and there is no room for the server port, for its handle or for the views; nothing has changed then
/// but the room.
pub fn nt_accept_connect_port(
    world: &mut World,
    by: u32,
    context: u32,
    message: &[u8],
    accept: bool,
    view: Option<ViewWord>,
    out: &mut Entries,
) -> Result<Outcome, OutOfMemory>
    requires ready { is_ready world.old.rows by ≡ true }
    requires room { HasRoom world.old out.old }
    requires calls { world.old.calls < LINES_LIMIT }
    requires views { HasSoundViews world.old.rows }
    requires offers { HasSoundOffers world.old.rows }
    ensures serves { let call = accept_connect_port context message.now accept view in
        MayServe by call result world.old world.new out.old out.new }
    ensures room_stays { let call = accept_connect_port context message.now accept view in
        IsErr (service world.old.rows by call) → world.new.room ≡ world.old.room }
    ensures unasked { let call = accept_connect_port context message.now accept view in
        IsErr (service world.old.rows by call) → world.new.capacity ≡ world.old.capacity }
    ensures spare { OnOk result (out.old.spare ≤ out.new.spare + 2) }
    ensures answered { accept ≡ false → IsOk result }
    ensures capacity_stays { accept ≡ false → world.new.capacity ≡ world.old.capacity }
    ensures wanting { let row = caller world.old.rows by in
        OnErr result (lacks_accept_room world.old row message.now view ≡ true) }
    ensures capacity { let new = world.new.capacity in
        let old = world.old.capacity in
        new ≡ record old { ports = new.ports; handles = new.handles; views = new.views } }
    ensures asked_ports { let new = world.new.capacity in new.ports ≤ grown_ports world.old 1 }
    ensures asked_handles { let by = caller world.old.rows by in
        handle_places world.new.capacity by.process ≤ grown_handles world.old by.process 1 }
    ensures other_places { let by = caller world.old.rows by in
        KeepsOtherPlaces by.process world.old.capacity world.new.capacity }
    ensures asked_views { (pid : ℕ) →
        view_places world.new.capacity pid ≤ grown_views world.old pid 3 }
    ensures other_views { let by = caller world.old.rows by in
        KeepsUnansweredPlaces world.old world.new by message.now }
{
    let caller = world.caller(by);
    let found = match accept_test(world, &caller, message, accept, view) {
        Ok(found) => found,
        Err(status) => {
            world.begin_call();
            return Ok(refuse(caller.number, CallName::NtAcceptConnectPort, status, out));
        }
    };
    let answer = &found.answer;
    if !accept {
        world.begin_call();
        refuse_connect(world, &caller, answer.thread, &answer.message, out);
        return Ok(Outcome::Answered(SUCCESS));
    }
    world.ports_reserve(1)?;
    world.handles_reserve(caller.process, 1)?;
    reserve_views(world, caller.process, answer.thread, found.views)?;
    world.begin_call();
    accept_connect(world, &caller, context, answer, found.views, out);
    Ok(Outcome::Answered(SUCCESS))
}
