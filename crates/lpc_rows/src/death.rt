// The end of a thread that a port is to be told.
use lpc_base::Birth;
use lpc_message::ClientId;
use lpc_slots::Key;

/// The end of a thread that a port is to be told.
#[derive(Clone, Copy)]
pub struct Death {
    /// The process and the thread that ended.
    pub client: ClientId,
    /// The name of the thread.
    pub birth: Birth,
    /// The port that the thread registered.
    pub port: Key,
    /// The name of that port.
    pub registered: Birth,
}
