//! Worked rows of ports, in one thread: calls with the answers that must come, and the closing of engines after them.
//!
//! | Module | Has |
//! |---|---|
//! | `setup` | `PortSetup`, the configuration of a row's engine |
//! | `call` | `PortCall`, a call of a row |
//! | `noted` | `Noted`, the outcomes of a call |
//! | `answer` | `PortAnswer`, the answer to a call |
//! | `completions` | the completion calls of a port, each with its answer |
//! | `driver` | `PortDriver`, an engine that makes the calls of rows |
//! | `closed` | `Closed`, the result of the closing of an engine |
//! | `trace_tests` | traces that fill up |
//! | `completion_tests` | each completion call, if all requests are Done and if no rank can go on |
//! | `closing_tests` | engines that are closed, and engines that can't be |
//! | `foreign_tests` | calls that name requests of another rank |

pub mod answer;
pub mod call;
pub mod closed;
pub mod closing_tests;
pub mod completion_tests;
pub mod completions;
pub mod driver;
pub mod foreign_tests;
pub mod noted;
pub mod setup;
pub mod trace_tests;

ghost use Rattle.std.specs.Prelude.{◌≡◌};
ghost use Rattle.coll_core.specs.Configs.{setting_by};

use answer::PortAnswer;
use call::PortCall;
use closed::Closed;
use coll_core::Config;
use coll_kinds::Refusal;
use coll_traced::{Entries, ledger_for};
use driver::PortDriver;
use setup::PortSetup;
use std::alloc::Global;
use std::marker::Brand;
use std::process::Abort;
use std::rt::Clock;
use std::sync::Wait;
use std::sync::ledger::Blank;

/// A call, with the answer that must come.
pub type PortRow = (PortCall, PortAnswer);

/// The first call that was answered otherwise, by its index in its list.
#[derive(Clone, Copy, Debug)]
pub struct Misfit {
    pub index: usize,
    pub got: PortAnswer,
}

fn first_misfit_in<L: Entries, R: Wait + Clock>(
    rt: &R,
    alloc: Global,
    config: Config,
    parts: &[&[PortRow]],
    entries: Blank,
) -> Result<Option<Misfit>, Refusal>
    requires name { entries.name ≡ L.name }
    requires parts { (entries.parts ≡ L.parts) × (L.parts ≡ config.ranks) }
    requires setting { L.setting ≡ setting_by config }
{
    let mut driver = PortDriver::<L>::open(alloc, config, entries)?;
    Ok(driver.first_misfit(rt, parts))
}

/// Makes the calls of some lists on a new engine, one list after another. Returns the first call that was answered otherwise;
/// None if each was answered as it must be.
///
/// # Errors
///
/// The engine's refusal to open.
pub fn first_misfit<R: Wait + Clock>(
    rt: &R,
    alloc: Global,
    setup: &PortSetup,
    parts: &[&[PortRow]],
) -> Result<Option<Misfit>, Refusal> {
    let config = setup.config(alloc)?;
    let entries = ledger_for(config.ranks);
    first_misfit_in::<Brand, R>(rt, alloc, config, parts, entries)
}

/// Makes the calls of some lists on a new engine, and ends the test if one is answered otherwise.
pub fn assert_answers<R: Abort + Wait + Clock>(
    rt: &R,
    alloc: Global,
    setup: &PortSetup,
    parts: &[&[PortRow]],
) {
    let misfit = first_misfit(rt, alloc, setup, parts);
    assert!(rt; matches!(misfit, Ok(None)), "{misfit:?}");
}

fn closed_after_in<L: Entries, R: Wait + Clock>(
    rt: &R,
    alloc: Global,
    config: Config,
    rows: &[PortRow],
    entries: Blank,
) -> Result<Closed, Refusal>
    requires name { entries.name ≡ L.name }
    requires parts { (entries.parts ≡ L.parts) × (L.parts ≡ config.ranks) }
    requires setting { L.setting ≡ setting_by config }
{
    let mut driver = PortDriver::<L>::open(alloc, config, entries)?;
    if driver.first_misfit(rt, &[rows]).is_some() {
        return Err(Refusal::Torn);
    }
    driver.close(rt)
}

/// Makes the calls on a new engine, ends its ports except one that was put aside, and closes it.
///
/// # Errors
///
/// `Torn` if a call was answered otherwise; the engine's refusal to open; `NoMemory`.
pub fn closed_after<R: Wait + Clock>(
    rt: &R,
    alloc: Global,
    setup: &PortSetup,
    rows: &[PortRow],
) -> Result<Closed, Refusal> {
    let config = setup.config(alloc)?;
    let entries = ledger_for(config.ranks);
    closed_after_in::<Brand, R>(rt, alloc, config, rows, entries)
}
