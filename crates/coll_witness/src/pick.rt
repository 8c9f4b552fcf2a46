use std::alloc::{AllocError, Global};

/// What a call completes whose effect depends on time.
#[derive(Debug, Drop)]
pub(crate) struct Pick {
    pub(crate) rank: u8,
    /// The number of steps of the rank before the call.
    pub(crate) at: usize,
    /// The requests that the call completes; of a test that says no, none.
    pub(crate) completes: Vec<usize>,
}

impl Pick {
    /// The pick of these requests.
    pub(crate) fn of(
        alloc: Global,
        rank: u8,
        at: usize,
        completes: &[usize],
    ) -> Result<Pick, AllocError> {
        Ok(Pick {
            rank,
            at,
            completes: Vec::from_slice(alloc, completes)?,
        })
    }
}
