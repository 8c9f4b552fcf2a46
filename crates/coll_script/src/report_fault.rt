ghost use Rattle.std.specs.Prelude.{◌≡◌};
ghost use Rattle.coll_script.specs.declared.report_fault.ReportFault.TheVariants.{NoMemory};

use coll_kinds::Refusal;
use std::alloc::{AllocError, AllocFailed};
use thiserror::Error;

/// Why what a run did isn't printed.
#[derive(Clone, Copy, Debug, PartialEq, Eq, Error)]
pub enum ReportFault {
    /// The report isn't that of a run of the text, or its entries don't fit together: one names a request that its rank didn't make, or
    /// a communicator that isn't there; or a sum over them doesn't fit 64 bits.
    #[error("torn")]
    Torn,
    /// Memory was refused.
    #[error("no memory")]
    NoMemory,
}

impl From<AllocError> for ReportFault {
    ghost from_gives = { λ _ fault. fault ≡ NoMemory };

    fn from(_error: AllocError) -> ReportFault {
        ReportFault::NoMemory
    }
}

impl<T: Drop> From<AllocFailed<T>> for ReportFault {
    ghost from_gives = { λ _ fault. fault ≡ NoMemory };

    fn from(_error: AllocFailed<T>) -> ReportFault {
        ReportFault::NoMemory
    }
}

impl From<Refusal> for ReportFault {
    fn from(why: Refusal) -> ReportFault {
        match why {
            Refusal::NoMemory => ReportFault::NoMemory,
            _ => ReportFault::Torn,
        }
    }
}
