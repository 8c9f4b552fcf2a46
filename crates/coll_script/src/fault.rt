ghost use Rattle.std.specs.Prelude.{◌≡◌};

use coll_kinds::Refusal;
use coll_parser::{Fault, ScriptFault};
use std::io;
use std::io::Write;
use thiserror::Error;

/// Why the program ends without an answer. It prints as the line that the user reads.
#[derive(Clone, Copy, Debug, PartialEq, Eq, Error)]
pub enum JobFault {
    /// The reader returned an error.
    #[error("read fault")]
    Read,
    /// The writer returned an error, or took no byte.
    #[error("write fault")]
    Write,
    /// The text has a fault.
    #[error("{0}")]
    Text(Fault),
    /// No rank can go on: the run stalls.
    #[error("stalled")]
    Stalled,
    /// Another refusal of the engine.
    #[error("refused {} {}", .0.number(), .0)]
    Refused(Refusal),
    /// Memory was refused.
    #[error("no memory")]
    Memory,
    /// A thread couldn't be started.
    #[error("no thread")]
    NoThread,
    /// The report doesn't agree with the text or with the outcomes.
    #[error("torn")]
    Torn,
}

impl JobFault {
    ghost use Rattle.coll_script.specs.Faults.{status_of};

    /// The exit status: 1 for reading and writing, 2 for a text, 3 for a stall, 4 for another refusal, and 5 if memory or a
    /// thread was refused or the report is torn.
    pub fn status(self) -> u8
        ensures { result ≡ status_of self }
    {
        match self {
            JobFault::Read | JobFault::Write => 1,
            JobFault::Text(_) => 2,
            JobFault::Stalled => 3,
            JobFault::Refused(_) => 4,
            JobFault::Memory | JobFault::NoThread | JobFault::Torn => 5,
        }
    }

    /// Writes the fault's line and a line feed. Returns the writer's error, if it fails.
    pub fn print<W: Write>(self, out: &mut W) -> io::Result<()> {
        writeln!(out, "{self}")
    }
}

impl From<ScriptFault> for JobFault {
    ghost use Rattle.std.specs.Prelude.{◌≡◌};
    ghost use Rattle.coll_script.specs.Faults.{fault_of_script};

    ghost from_gives = { λ fault given. given ≡ fault_of_script fault };

    fn from(fault: ScriptFault) -> JobFault {
        match fault {
            ScriptFault::Text(fault) => JobFault::Text(fault),
            ScriptFault::NoMemory => JobFault::Memory,
        }
    }
}

impl From<Refusal> for JobFault {
    ghost use Rattle.std.specs.Prelude.{◌≡◌};
    ghost use Rattle.coll_script.specs.Faults.{fault_of_refusal};

    ghost from_gives = { λ why given. given ≡ fault_of_refusal why };

    fn from(why: Refusal) -> JobFault {
        match why {
            Refusal::NoMemory => JobFault::Memory,
            Refusal::Stalled => JobFault::Stalled,
            Refusal::Torn => JobFault::Torn,
            _ => JobFault::Refused(why),
        }
    }
}
