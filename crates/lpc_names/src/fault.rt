// Why a path names nothing, or can name nothing new. The order of the tests and the statuses are this project's own
// profile.
ghost use Rattle.std.specs.Prelude.{◌≡◌};
ghost use Rattle.lpc_names.specs.Faults as faults;

use lpc_base::Status;
use lpc_base::status::{
    OBJECT_NAME_COLLISION, OBJECT_NAME_INVALID, OBJECT_NAME_NOT_FOUND, OBJECT_PATH_NOT_FOUND,
    OBJECT_PATH_SYNTAX_BAD,
};
use thiserror::Error;

/// Why a path leads to nothing that the call can use.
#[derive(Clone, Copy, Debug, PartialEq, Eq, Error)]
pub enum NameFault {
    /// The path does not begin with a backslash.
    #[error("the path does not begin with a backslash")]
    PathSyntax,
    /// A component is empty, the path has more than 256 bytes, or a 33rd link would be followed.
    #[error("the path has an empty component, too many bytes or too many links")]
    NameInvalid,
    /// A component before the last is missing, or is no directory.
    #[error("an inner component is no directory")]
    PathNotFound,
    /// The last component is missing.
    #[error("nothing has the name")]
    NameNotFound,
    /// Something has the name already.
    #[error("something has the name already")]
    Collision,
}

/// Why a name was not bound.
#[derive(Clone, Copy, Debug, Error)]
pub enum BindFault {
    /// The path is at fault.
    #[error(transparent)]
    Name(NameFault),
    /// The path is free, and memory ran out.
    #[error("out of memory")]
    OutOfMemory,
}

/// The status that a call answers for the fault.
pub fn status_of(fault: NameFault) -> Status
    ensures { result ≡ faults.status_of fault }
{
    match fault {
        NameFault::PathSyntax => OBJECT_PATH_SYNTAX_BAD,
        NameFault::NameInvalid => OBJECT_NAME_INVALID,
        NameFault::PathNotFound => OBJECT_PATH_NOT_FOUND,
        NameFault::NameNotFound => OBJECT_NAME_NOT_FOUND,
        NameFault::Collision => OBJECT_NAME_COLLISION,
    }
}
