// Laws of the definitions alone.
ghost use Rattle.std.specs.Prelude.{ℕ, List};
ghost use Rattle.lpc_model.specs.World.{World, no_rows};
ghost use Rattle.lpc_model.specs.Accounts.{RunAccountsForDeaths, RunAccountsForMessages};
ghost use Rattle.lpc_model.specs.Linked.{IsLinked, RunHoldsRows};
ghost use Rattle.lpc_model.specs.Standing.{NamesWhatStands, RunNamesWhatStands};
ghost use Rattle.lpc_model.specs.OwnCalls.{RunHasOwnCalls};
ghost use Rattle.lpc_model.specs.PlainConnects.{RunHasPlainConnects};
ghost use Rattle.lpc_model.specs.OpenQueues.{HasOpenQueues, RunKeepsQueuesOpen};
ghost use Rattle.lpc_model.specs.Closings.{RunTellsClosings};
ghost use Rattle.lpc_model.specs.KeptPorts.{RunKeepsPorts, StepsKeepPorts};
ghost use Rattle.lpc_model.specs.Clients.{RefusesUnservedAlone, RunHasAllowingClients, RunHasClientEnds, RunRefusesUnservedAlone};
ghost use Rattle.lpc_model.specs.Creators.{RunKeepsConnects};
ghost use Rattle.lpc_model.specs.Deaths.{RunHasLivingRegistrations, RunHasSingleRegistrations, RunTellsDeaths};
ghost use Rattle.lpc_model.specs.AtRest.{StepsHoldRows, StepsKeepOffers, StepsKeepQueuesOpen, StepsKeepSingleClosings, StepsKeepViews, StepsNameWhatStands, StepsSettle, StepsStaySound};
ghost use Rattle.lpc_model.specs.Lawful.{IsLawfulWorld, StepsKeepLaws};
ghost use Rattle.lpc_model.specs.Leaving.{RunEmptiesWithHandles, RunWithdrawsWithWaits};
ghost use Rattle.lpc_model.specs.Left.{RunLeavesNothing};
ghost use Rattle.lpc_model.specs.SingleClosings.{HasSingleClosings, RunHasSingleClosings};
ghost use Rattle.lpc_model.specs.Limits.{LimitsChildren, LimitsDatagrams, LimitsHandles, LimitsInfo, LimitsMessages, LimitsRegistrations, LimitsSections, LimitsThreads, LimitsTwoHandles, LimitsViews};
ghost use Rattle.lpc_model.specs.Connected.{ConnectedPortsReachEachOther};
ghost use Rattle.lpc_model.specs.Queues.{FirstWaiterTakes, QueuesAreFirstInFirstOut};
ghost use Rattle.lpc_model.specs.SoundViews.{HasSoundOffers, HasSoundViews, RunKeepsOffers, RunKeepsViews};
ghost use Rattle.lpc_model.specs.SoundWaits.{HasSoundWaits, IsSoundWorld, RefusesCutPairsAlone, RunRefusesCutPairsAlone, RunStaysSound};

/// In every script each waiting thread waits for what can still come, and hasn't come.
///
/// Each wait is of a live thread. A request was sent on an open port; while it isn't received, its message stands in
/// its queue and that queue's port is open, and once it is, its answer has a way back. A receive or listen was made on
/// an open port, and its open queue holds nothing that it would take. A connect that isn't accepted has an open
/// connection port, in whose queue its request stands until it is received; an accepted one has a pair, whose server
/// port is open. That is so before the first line and behind each line. An event is a request
/// here: of one that wasn't handled the line's settling makes what comes next, so that behind each
/// line no event is marked, and no process that is to end lives.
pub fn law_sound_waits()
    ensures first { IsSoundWorld no_rows }
    ensures steps { StepsStaySound }
    ensures settles { StepsSettle }
    ensures waits { (w : World) → IsSoundWorld w → HasSoundWaits w }
    ensures runs { (script : List ℕ) → RunStaysSound script }
{}

/// In every script a completion is refused as disconnected only where the pair of its port is cut.
///
/// A server port whose connection isn't completed, and whose pair isn't cut, has an accepted connect that waits on its
/// client port. So a completion on it finds that connect.
pub fn law_completion_refuses_cut_pairs()
    ensures alone { (w : World) → IsSoundWorld w → RefusesCutPairsAlone w }
    ensures runs { (script : List ℕ) → RunRefusesCutPairsAlone script }
{}

/// In every script an impersonation is refused as a mismatch only where it names no request.
///
/// Where NtImpersonateClientOfPort answers C000021F, its handle leads to a server port, its message
/// is read, and no received request of the port's other end is found that the message names. For the
/// other end of a server port is a client port, and each client port allows its server something,
/// behind each line. So a request that is found is allowed something.
pub fn law_impersonation_refuses_unserved()
    ensures alone { (w : World) → IsLawfulWorld w → RefusesUnservedAlone w }
    ensures runs { (script : List ℕ) → RunRefusesUnservedAlone script }
    ensures clients { (script : List ℕ) → RunHasAllowingClients script }
    ensures ends { (script : List ℕ) → RunHasClientEnds script }
{}

/// In every script some row counts for each object that stands behind a line, and what rows name
/// stands.
///
/// An object that no row counts for any longer goes at the end of the line in two passes; two are
/// enough. Each handle names an object that stands, each queued message was sent on one, each wait
/// was made on one: its queue is that of this port, of its connection port or, for a request, of
/// its other end; live threads registered ports that stand, processes are told of by ports that
/// stand, where they raise exceptions, and each view shows a section that stands, and is owned by no
/// port or by one that stands. So no row is left that names a port or a
/// section that went. Before the first line none stands.
pub fn law_held_objects()
    ensures first { IsLinked no_rows }
    ensures steps { StepsHoldRows }
    ensures runs { (script : List ℕ) → RunHoldsRows script }
    ensures named_first { NamesWhatStands no_rows }
    ensures named_steps { StepsNameWhatStands }
    ensures named_runs { (script : List ℕ) → RunNamesWhatStands script }
{}

/// In every script messages stand in queues of open ports alone, and what waits to be received
/// waits there.
///
/// A port is open while a handle names it. A message enters a queue, and a thread begins to wait on
/// one, only where the queue's port is open. With its last handle a port is closed: its queue is
/// emptied, and what waits there to be received ends. So the queue of each message that stands, and
/// of each wait that isn't received, is that of an open port, before the first line and behind each
/// line. Of a request that was received it says nothing: its queue's port may be closed.
pub fn law_open_queues()
    ensures first { HasOpenQueues no_rows }
    ensures steps { StepsKeepQueuesOpen }
    ensures runs { (script : List ℕ) → RunKeepsQueuesOpen script }
{}

/// In every script the messages that tell of closed ports are, line by line, those of the ports
/// whose last handles go.
///
/// For each completed client port that loses its last handle while its connection port is open,
/// exactly one such message enters the queue of that connection port, whose data are the maker and
/// the ordinal of the port's birth, and no other does. It is in the name of the connect that the
/// client port keeps: behind each line each has a connection port and such a connect, of the thread
/// that made it. So of each closed port one message stands in a queue at most, and of an open port
/// none does, before the first line and behind each line.
pub fn law_closings_are_told()
    ensures runs { (script : List ℕ) → RunTellsClosings script }
    ensures creators { (script : List ℕ) → RunKeepsConnects script }
    ensures single_closings_first { HasSingleClosings no_rows }
    ensures single_closings_steps { StepsKeepSingleClosings }
    ensures single_closings_runs { (script : List ℕ) → RunHasSingleClosings script }
{}

/// In every script a port stays what it is as long as it stands.
///
/// What stands under a birth before a line and behind it has one kind, the same connection port, the
/// same security and the same connect that made it, or none; and where it was completed, it is so
/// still. Its context and its other end are given once, in the line in which the connect that made it
/// is accepted: where no connect waits on it for that before the line, or one still does behind it,
/// the context is the same, and another end is the one that it had. On a port that stands no connect
/// begins to wait for that. Two ports that are each other's other end are so behind the line too,
/// where both are open then. So it is with the step of each line in each lawful world, of a script's
/// or of any other.
pub fn law_ports_keep_what_they_are()
    ensures steps { StepsKeepPorts }
    ensures runs { (script : List ℕ) → RunKeepsPorts script }
{}

/// In every script the messages that tell of threads' ends are, line by line, those of the ports
/// that these threads registered.
///
/// For each thread that ends and each port that it registered exactly one such message enters the
/// port's route, where the port is then open and has one, and no other does. It is sent on that
/// port, in the name of the thread, and its data are the maker and the ordinal of the thread's
/// birth. The registrations go then, and all this comes behind the last thread that ends by the
/// line's own steps, and before a handle goes or a port begins to close by them; and so it is in
/// each turn of the line's settling, where one process ends behind the other. Behind each line no
/// port is registered twice with a thread, and a thread that has ended has no registrations. The
/// handles that go with processes close ports as others do: each is told of once, where it is to
/// be. Each message of either kind stands in the queue that it entered, was received from it, or
/// was lost when the queue's port closed. And where no process lives any longer, no row of a
/// process, thread, port, section or token is left, no message, no wait and no view.
pub fn law_death()
    ensures runs { (script : List ℕ) → RunTellsDeaths script }
    ensures closings { (script : List ℕ) → RunTellsClosings script }
    ensures accounted { (script : List ℕ) → RunAccountsForDeaths script }
    ensures nothing_left { (script : List ℕ) → RunLeavesNothing script }
    ensures living_registrations { (script : List ℕ) → RunHasLivingRegistrations script }
    ensures single_registrations { (script : List ℕ) → RunHasSingleRegistrations script }
{}

/// In every script views lie in their sections, and apart from each other.
///
/// Behind each line as many bytes stand for each section as its size says, which is whole pages,
/// up to 4 MiB. A view shows no more than its section has, and may be written only where the
/// section may. Its base is a multiple of 65536 from 00010000, and it ends at or below 7FFF0000.
/// No two views of a process have an address in common, and a process has at most 128. A process
/// has a table of views where it has one of handles. What a connect offers that isn't accepted is no
/// more than a section has that stands, and the section may be written. So before the first line,
/// where there are none.
pub fn law_views()
    ensures first { HasSoundViews no_rows }
    ensures steps { StepsKeepViews }
    ensures runs { (script : List ℕ) → RunKeepsViews script }
    ensures offers_first { HasSoundOffers no_rows }
    ensures offers_steps { StepsKeepOffers }
    ensures offers_runs { (script : List ℕ) → RunKeepsOffers script }
{}

/// In every script each message is accounted for.
///
/// Behind each line, for each queue, context and bytes of a message: as many were posted so far as
/// stand in the queue, were shown as received from it by a receive or a listen that succeeded, were
/// withdrawn as the wait of their thread ended or its event was marked, and were lost when the
/// queue's port closed. So it is with requests, events, connection requests, datagrams, and what tells
/// of closed ports and of threads that ended. A receive shows the context, and a listen none: what a
/// listen shows is received with context 0, and each connection request that is posted, or stands in a
/// queue, has that. Each line empties the queues of the ports that lose their last handles in it, once
/// for each, and no other: so no message is lost while its port is open. What settling shows as
/// received was waited for when it began. A line withdraws the message of a thread only where it
/// wakes or ends that thread, or marks its event. Each thread that waits does so in the call of its
/// wait's kind: for an answer in a request, for a message in a receive, for a connection request in a
/// listen, for either end of its connect in a connect, and with an event where it raised an exception.
pub fn law_messages_are_accounted_for()
    ensures runs { (script : List ℕ) → RunAccountsForMessages script }
    ensures emptied { (script : List ℕ) → RunEmptiesWithHandles script }
    ensures withdrawn { (script : List ℕ) → RunWithdrawsWithWaits script }
    ensures calls { (script : List ℕ) → RunHasOwnCalls script }
    ensures contexts { (script : List ℕ) → RunHasPlainConnects script }
{}

/// Each line keeps all that the calls ask of the world at once.
///
/// Waits are sound, ports linked, objects held, queues open; what rows name stands; of an open port
/// no message tells that it is closed, and each client port keeps a connect of its maker. A thread
/// has one row, an ended one has no registrations, and no port is registered twice with one. Only
/// living processes have handles, views and ports that are told of their exceptions, and a connection
/// has one open end at least. Views lie in their sections, and apart. A client port allows its server
/// something, and the other end of a server port is a client port. No event is marked, and no process
/// that is to end lives. What the calls that close and end ask of the rows is part of it.
pub fn law_lawful_worlds()
    ensures first { IsLawfulWorld no_rows }
    ensures steps { StepsKeepLaws }
{}

/// Nine limits are tested exactly: below a limit its test grants one more, from there on it refuses.
///
/// A process with fewer than 256 handles and waiting connects together is granted a further one, with 256 it is
/// refused, and two where they are fewer than 255; so with 64 live processes that a process made, with 64 live threads
/// of a process, with 32 datagrams of a port that aren't received, with 16 ports that a thread registered, with 128
/// views of a process, and with 4 MiB of sections that a process made, the new one among them. A
/// message of lawful shape is good with a MessageSize of at most 256, and the bytes of a connect where they are at most
/// 232. Which calls make which test stands with each call.
pub fn law_limits()
    ensures handles { LimitsHandles }
    ensures two_handles { LimitsTwoHandles }
    ensures children { LimitsChildren }
    ensures threads { LimitsThreads }
    ensures datagrams { LimitsDatagrams }
    ensures registrations { LimitsRegistrations }
    ensures views { LimitsViews }
    ensures sections { LimitsSections }
    ensures messages { LimitsMessages }
    ensures info { LimitsInfo }
{}

/// What is sent on one port of a connection enters the queue from which the other receives.
///
/// Where a client port and a server port are each other's other end, and they and their connection port are open, the
/// server port sends into the client port's own queue, and the client port into that of the connection port, from which
/// the server port receives.
pub fn law_connected_ports_reach_each_other()
    ensures reach { ConnectedPortsReachEachOther }
{}

/// What the basic steps do to a queue: its oldest message is taken, and what enters goes to its end.
///
/// The others stay in their order where one is taken, and those of other queues too. Of all waits, the first that takes
/// a message is the first receive or listen on its queue that takes it.
pub fn law_queues_keep_their_order()
    ensures messages { QueuesAreFirstInFirstOut }
    ensures waiters { FirstWaiterTakes }
{}
