// The quality of service that a client asks for with its connection.

use crate::Level;

/// Which of a client's tokens its server gets.
#[derive(Clone, Copy, Debug, PartialEq, Eq)]
pub enum Tracking {
    /// The one that the client had when it connected.
    Static,
    /// The one that the client has when the server asks.
    Dynamic,
}

/// The security that a client allows its server. The published structure without its effective-only flag, which this
/// project leaves out.
#[derive(Clone, Copy, Debug, PartialEq, Eq)]
pub struct Qos {
    /// The level that the server gets at most.
    pub level: Level,
    /// Which of the client's tokens the server gets.
    pub tracking: Tracking,
}
