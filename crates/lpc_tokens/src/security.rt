// Who may use a port, and what it allows.
ghost use Rattle.std.specs.Prelude.{◌≡◌};

use crate::{Effective, Qos};
use lpc_sid::Dacl;

/// Who may use a port, and what it allows. Only a connection port may have an access list, and only a client port allows
/// anything.
#[derive(Drop)]
pub enum Security<'t> {
    /// Anyone may connect, and nothing is allowed.
    Unsecured,
    /// Who may connect to the port: those whom its access list lets.
    Guarded(Dacl),
    /// What the client allows its server.
    Allows {
        /// The quality of service that the connect asked for.
        quality: Qos,
        /// The token with which the client's thread acted then.
        kept: Effective<'t>,
    },
}

impl<'t> Security<'t> {
    /// The same once more. It takes no memory.
    pub fn copy(&self) -> Security<'t>
        ensures { result ≡ self.now }
    {
        match self {
            Security::Unsecured => Security::Unsecured,
            Security::Guarded(dacl) => Security::Guarded(dacl.copy()),
            Security::Allows { quality, kept } => Security::Allows {
                quality: *quality,
                kept: kept.copy(),
            },
        }
    }
}
