// What is looked for among the waits on a chain.
ghost use Rattle.std.specs.Prelude.{◌≡◌};
ghost use Rattle.lpc_waits.specs.Lent.{waiting_of};
ghost use Rattle.lpc_waits.specs.Sought.{is_sought, is_taking};

use crate::{WaitRow, is_accepted, is_offered};

/// What is looked for among the waits on a chain.
#[derive(Clone, Copy)]
pub(crate) enum Sought {
    /// A receive, and where listens count, a receive or a listen.
    Taker(bool),
    /// A receive.
    Receive,
    /// Neither a receive nor a listen.
    Sent,
    /// A request, received or not.
    Request,
    /// A request that isn't received.
    UnreceivedRequest,
    /// A connect that was accepted.
    Accepted,
    /// A connect that isn't accepted.
    Offered,
    /// An event, received or not.
    Event,
    /// An event that isn't received.
    UnreceivedEvent,
}

impl Sought {
    /// The wait of a row is such a one.
    pub fn is_met(self, row: &WaitRow) -> bool
        ensures { result ≡ is_sought self (waiting_of row.now) }
    {
        let wait = &row.wait;
        match self {
            Sought::Taker(with_listens) => wait.kind.takes(with_listens),
            Sought::Receive => wait.kind.is_receive(),
            Sought::Sent => !wait.kind.takes(true),
            Sought::Request => wait.kind.is_request(),
            Sought::UnreceivedRequest => wait.kind.is_request() && !wait.received,
            Sought::Accepted => is_accepted(row),
            Sought::Offered => is_offered(row),
            Sought::Event => wait.kind.is_event(),
            Sought::UnreceivedEvent => wait.kind.is_event() && !wait.received,
        }
    }

    /// Such a wait takes what comes.
    pub fn is_taking(self) -> bool
        ensures { result ≡ is_taking self }
    {
        matches!(self, Sought::Taker(_) | Sought::Receive)
    }
}
