//! How many messages and ports of some kinds there are.

ghost use Rattle.std.specs.Prelude.{◌≡◌, ◌+◌, ◌-◌, ◌<◌, ◌≤◌, ◌^◌};
ghost use Rattle.lpc_message.specs.declared.kind.TheConstants.{PORT_CLOSED};
ghost use Rattle.lpc_ports.specs.Table.{asks, is_client_kind, is_of_type};
ghost use Rattle.lpc_ports.specs.Totals.{gained, gained_port, lost, lost_port, one_if};

use crate::Message;
use lpc_base::PortKind;

/// How many messages and ports of some kinds there are.
#[derive(Clone, Copy)]
pub(crate) struct Totals {
    /// The messages that ask for an answer.
    pub asking: usize,
    /// The messages that tell of the closing of the port on which they were sent.
    pub closings: usize,
    /// The client ports.
    pub clients: usize,
}

impl Totals {
    /// A message comes.
    pub fn add_message(&mut self, message: &Message)
        requires asking { self.old.asking < 2 ^ 64 - 1 }
        requires closings { self.old.closings < 2 ^ 64 - 1 }
        ensures { self.new ≡ gained self.old message.now }
    {
        self.asking = plus(self.asking, message.asks());
        self.closings = plus(self.closings, message.tells_closing());
    }

    /// A message goes that was counted.
    pub fn remove_message(&mut self, message: &Message)
        requires asking { one_if (asks message.now) ≤ self.old.asking }
        requires closings { one_if (is_of_type PORT_CLOSED message.now) ≤ self.old.closings }
        ensures { self.new ≡ lost self.old message.now }
    {
        self.asking = minus(self.asking, message.asks());
        self.closings = minus(self.closings, message.tells_closing());
    }

    /// A port comes.
    pub fn add_port(&mut self, kind: PortKind)
        requires { self.old.clients < 2 ^ 64 - 1 }
        ensures { self.new ≡ gained_port self.old kind }
    {
        self.clients = plus(self.clients, is_client_kind(kind));
    }

    /// A port goes that was counted.
    pub fn remove_port(&mut self, kind: PortKind)
        requires { one_if (is_client_kind kind) ≤ self.old.clients }
        ensures { self.new ≡ lost_port self.old kind }
    {
        self.clients = minus(self.clients, is_client_kind(kind));
    }
}

// The kind is that of a client port.
fn is_client_kind(kind: PortKind) -> bool
    ensures { result ≡ is_client_kind kind }
{
    match kind {
        PortKind::Client => true,
        _ => false,
    }
}

/// One more where it is so.
pub(crate) fn plus(number: usize, so: bool) -> usize
    requires { number < 2 ^ 64 - 1 }
    ensures { result ≡ number + one_if so }
{
    if so { number + 1 } else { number }
}

/// One less where it is so.
pub(crate) fn minus(number: usize, so: bool) -> usize
    requires { one_if so ≤ number }
    ensures { result ≡ number - one_if so }
{
    if so { number - 1 } else { number }
}
