//! Why a text has no meaning.

ghost use Rattle.std.specs.Prelude.{◌≡◌};
ghost use Rattle.coll_parser.specs.declared.fault.LineFault.TheVariants.{Broken, NoMemory};
ghost use Rattle.coll_parser.specs.declared.fault.ScriptFault.TheVariants as script;

use crate::cause::Cause;
use std::alloc::{AllocError, AllocFailed};
use thiserror::Error;

/// The first rule that a text breaks, and the number of the line, from 1 on.
#[derive(Clone, Copy, Debug, PartialEq, Eq, Error)]
#[error("line {line}: {cause}")]
pub struct Fault {
    pub line: u32,
    pub cause: Cause,
}

/// Why a text couldn't be read.
#[derive(Clone, Copy, Debug, PartialEq, Eq, Error)]
pub enum ScriptFault {
    /// The text has a fault.
    #[error("{0}")]
    Text(Fault),
    /// Memory was refused.
    #[error("no memory")]
    NoMemory,
}

impl From<AllocError> for ScriptFault {
    ghost from_gives = { λ _ fault. fault ≡ script.NoMemory };

    fn from(_error: AllocError) -> ScriptFault {
        ScriptFault::NoMemory
    }
}

/// Why a line couldn't be read.
#[derive(Clone, Copy, Debug, PartialEq, Eq)]
pub(crate) enum LineFault {
    Broken(Cause),
    NoMemory,
}

impl LineFault {
    ghost use Rattle.coll_parser.specs.Code.{fault_in_line};

    /// The fault of the text, whose line of that number has this fault.
    pub(crate) fn in_line(self, line: u32) -> ScriptFault
        ensures { result ≡ fault_in_line line self }
    {
        match self {
            LineFault::Broken(cause) => ScriptFault::Text(Fault { line, cause }),
            LineFault::NoMemory => ScriptFault::NoMemory,
        }
    }
}

impl From<Cause> for LineFault {
    ghost from_gives = { λ cause fault. fault ≡ Broken cause };

    fn from(cause: Cause) -> LineFault {
        LineFault::Broken(cause)
    }
}

impl From<AllocError> for LineFault {
    ghost from_gives = { λ _ fault. fault ≡ NoMemory };

    fn from(_error: AllocError) -> LineFault {
        LineFault::NoMemory
    }
}

impl<T: Drop> From<AllocFailed<T>> for LineFault {
    ghost from_gives = { λ _ fault. fault ≡ NoMemory };

    fn from(_error: AllocFailed<T>) -> LineFault {
        LineFault::NoMemory
    }
}
