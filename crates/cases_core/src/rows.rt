//! Worked rows of the core: calls with the answers that must come.
//!
//! | Module | Has |
//! |---|---|
//! | `signatures` | the signatures of the rows |
//! | `setup` | `CoreSetup`, the configuration of a row's engine |
//! | `call` | `CoreCall`, a call of a row |
//! | `values` | `Values`, the values of an outcome or an operand |
//! | `answer` | `CoreAnswer`, the answer to a call |
//! | `calls` | the core's calls, each with its answer |
//! | `driver` | `CoreDriver`, an engine that makes the calls of a row |
//! | `once_tests` | rows of posts |
//! | `persistent_tests` | rows of initialisations and starts |
//! | `refusal_tests` | rows of refusals |
//! | `work_tests` | rows of combinations that were handed out |

pub mod allgatherv_tests;
pub mod answer;
pub mod call;
pub mod calls;
pub mod driver;
pub mod once_tests;
pub mod persistent_tests;
pub mod refusal_tests;
pub mod setup;
pub mod signatures;
pub mod values;
pub mod work_tests;

use answer::CoreAnswer;
use call::CoreCall;
use coll_kinds::Refusal;
use driver::CoreDriver;
use setup::CoreSetup;
use std::alloc::Global;
use std::process::Abort;

/// A call, with the answer that must come.
pub type CoreRow = (CoreCall, CoreAnswer);

/// Makes the calls on a new engine. Returns the index and the answer of the first one that is answered otherwise; None if each
/// is answered as it must be.
///
/// # Errors
///
/// The engine's refusal to open.
pub fn first_misfit(
    alloc: Global,
    setup: &CoreSetup,
    rows: &[CoreRow],
) -> Result<Option<(usize, CoreAnswer)>, Refusal> {
    let mut driver = CoreDriver::open(alloc, setup)?;
    let misfit = misfit_of(&mut driver, rows);
    driver.close();
    Ok(misfit)
}

/// The index and the answer of the first call that the driver answers otherwise.
fn misfit_of(driver: &mut CoreDriver, rows: &[CoreRow]) -> Option<(usize, CoreAnswer)> {
    for (index, (call, want)) in rows.iter().enumerate() {
        let got = driver.answer(*call);
        if got != *want {
            return Some((index, got));
        }
    }
    None
}

/// Ends the test if a call is answered otherwise.
pub fn assert_answers(rt: &impl Abort, alloc: Global, setup: &CoreSetup, rows: &[CoreRow]) {
    assert_eq!(rt; first_misfit(alloc, setup, rows), Ok(None));
}
