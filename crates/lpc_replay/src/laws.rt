// Laws of the definitions alone.
ghost use Rattle.std.specs.Prelude.{ℕ, List};
ghost use Rattle.lpc_model.specs.Worked.{WorkedTranscripts};
ghost use Rattle.lpc_model.specs.WorkedConnections.{WorkedConnections};
ghost use Rattle.lpc_model.specs.WorkedClosings.{WorkedClosings};
ghost use Rattle.lpc_model.specs.WorkedCreations.{WorkedCreations};
ghost use Rattle.lpc_model.specs.WorkedEndings.{WorkedEndings};
ghost use Rattle.lpc_model.specs.WorkedExceptions.{WorkedExceptions};
ghost use Rattle.lpc_model.specs.WorkedNeighbours.{WorkedNeighbours};
ghost use Rattle.lpc_model.specs.WorkedOffers.{WorkedOffers};
ghost use Rattle.lpc_model.specs.WorkedRanges.{WorkedRanges};
ghost use Rattle.lpc_model.specs.WorkedResidents.{WorkedResidents};
ghost use Rattle.lpc_model.specs.WorkedTokens.{WorkedTokens};
ghost use Rattle.lpc_model.specs.WorkedViews.{WorkedViews};
ghost use Rattle.lpc_replay.specs.Laws.{ConnectsReturn, HandlesLead, LinesSettle, MisfitsRefused, RaisesReturn, RefusalsIdle, RefusalsStay, RequestsReturn, ThreadsEnd, WaitsEnd};

/// Completion by a fitting reply, a connect's return by its answer, an exception's by its handler, and the end of
/// each wait and of each thread, in every script.
///
/// A request that returns with success does so by a wake, in the step of a reply call whose message fits its wait
/// through the port that the call's handle names, and it shows that call's own bytes with type 2 and SectionSize 0 and
/// all others as they are. An exception that is continued, with DBG_CONTINUE, is so in the step of a reply call whose
/// message fits its event through that port, and whose data begin with 02000100. A reply call whose message fits no
/// wait through that port, or whose handle names no port, is refused, by a status or because its thread can't call. A
/// reply call that is refused for whatever cause changes nothing; where a line makes it itself, and isn't a turn that
/// comes to it, the others tell the same without that line, in a script of at most 1,000,000 lines with no faulty line
/// before it, line numbers aside.
///
/// A connect returns only by its answer or by a closing: one that wakes does so in the step of the call that
/// completes its connection, with success; or in the step of the call that refuses it and whose message names it,
/// with PORT_CONNECTION_REFUSED; or with the same status in the step that closes the last handle of the port that it
/// is to, or, once it is accepted, of an end of its connection; or in the step that ends another process, with its
/// last thread, where that process alone has handles to such a port; or so as the world settles behind a line, by the
/// end of such a process, which is to end. It is told what that call gives it: by a completion also where the view of
/// what it offered lies in the server's process, and where that of what the server offered lies in its own; and no
/// data where a port is closed. Its own call never answers success.
///
/// An exception returns otherwise only with success: at once, where its line says that its frame handlers handle it; or
/// as the world settles behind a line, where its wait keeps that they do, and the first chance, and its event is the
/// first that is marked.
///
/// A thread that waits before a line and doesn't behind it is woken in that line, or ends in it. It ends only by the
/// call that names it or its process, with that call's code, or as the world settles, with the code that the row of
/// its process keeps. Behind each line no event is marked, and no process that is to end lives.
pub fn law_completion()
    ensures returns { (script : List ℕ) → RequestsReturn script }
    ensures refused { (script : List ℕ) → MisfitsRefused script }
    ensures unchanged { (script : List ℕ) → RefusalsStay script }
    ensures idle { (script : List ℕ) → RefusalsIdle script }
    ensures answered { (script : List ℕ) → ConnectsReturn script }
    ensures raised { (script : List ℕ) → RaisesReturn script }
    ensures ended { (script : List ℕ) → WaitsEnd script }
    ensures died { (script : List ℕ) → ThreadsEnd script }
    ensures settled { (script : List ℕ) → LinesSettle script }
{}

/// The definitions compute transcripts that were worked by hand, from the bytes of a script to the bytes sent for it;
/// and of two such scripts that differ in what a neighbour does, the same for the client beside it and for its server.
pub fn law_worked_transcripts()
    ensures transcripts { WorkedTranscripts }
    ensures connections { WorkedConnections }
    ensures closings { WorkedClosings }
    ensures endings { WorkedEndings }
    ensures creations { WorkedCreations }
    ensures views { WorkedViews }
    ensures offers { WorkedOffers }
    ensures ranges { WorkedRanges }
    ensures tokens { WorkedTokens }
    ensures residents { WorkedResidents }
    ensures exceptions { WorkedExceptions }
    ensures neighbours { WorkedNeighbours }
{}

/// What a handle names has a row, in every script.
///
/// Before each line, where a handle of a thread's process names a port, a thread, a process, a token or a section, and
/// grants the right that the call wants, what it names has a row. The definitions have an answer for a row that is
/// missing, INVALID_HANDLE; it never comes: each refusal of these tests is one of the handle's own.
pub fn law_handles_lead_to_rows()
    ensures { (script : List ℕ) → HandlesLead script }
{}
