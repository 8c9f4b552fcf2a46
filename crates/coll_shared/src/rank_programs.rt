//! An engine from its opening to its report, with a thread for each rank.

ghost use Rattle.std.specs.Prelude.{◌≡◌, ◌⊎◌, ℕ, Some, IfErr, IfOk, map, vec_len};
ghost use Rattle.coll_core.specs.Configs.{setting_by};
ghost use Rattle.coll_shared.specs.RankPrograms.{AreGiven, IsLeftOpen, IsNoRun};

use crate::closing::close;
use crate::engine::{Engine, open};
use crate::gate::Gate;
use crate::port::Port;
use crate::rank_threads::{RankTask, run_rank_threads};
use coll_core::Config;
use coll_kinds::Refusal;
use coll_report::Report;
use coll_traced::{Entries, Spent, ledger_for};
use std::alloc::{AllocError, Global};
use std::marker::Brand;
use std::rt::Clock;
use std::sync::Wait;
use std::sync::ledger::Blank;
use std::thread::Threads;

/// What the thread of a rank does.
pub trait RankProgram<T> {
    /// What it may return, with the port of that rank.
    ghost Gives: { Self → ℕ → T → Type 0 } = { λ _ _ _. Unit {0} };

    /// Uses the port of its rank. The engine can be closed only if no request is active at the end.
    fn run<L: Entries, R: Wait + Clock>(self, rt: &R, port: &mut Port<L>) -> T
        ensures { Gives self port.old.rank result };
}

/// How the thread of a rank ended.
#[derive(Drop)]
struct RankEnd<L: Entries, T> {
    spent: Spent<L>,
    /// None if some thread couldn't be started.
    value: Option<T>,
}

/// A rank's program with its port.
#[derive(Drop)]
struct Running<'x, L: Entries, R, P> {
    rt: &'x R,
    port: Port<L>,
    program: P,
}

impl<L: Entries, R: Wait + Clock, T: Drop, P: RankProgram<T> + Drop> RankTask<RankEnd<L, T>>
    for Running<'_, L, R, P> {
    ghost use Rattle.std.specs.Prelude.{IfSome};

    ghost IsEnd = { λ task end. IfSome end.value (P.Gives task.program task.port.rank) };

    fn run(self, all_started: bool) -> RankEnd<L, T> {
        let Running {
            rt,
            mut port,
            program,
        } = self;
        let value = if all_started {
            Some(program.run(rt, &mut port))
        } else {
            drop(program);
            None
        };
        RankEnd {
            spent: port.finish(rt),
            value,
        }
    }
}

/// Opens an engine, runs a program for each of its ranks in a thread of its own, and closes the
/// engine. `workers` progress threads run beside them; `gate` may hold one up at a combination.
/// Returns the programs' values in the order of ranks, and the report of all calls that the engine
/// accepted.
///
/// # Errors
///
/// - BadConfig with the first field that is out of its range.
/// - NoMemory, also if a thread couldn't be started; then no program was run.
/// - Why a progress thread ended before it was to.
/// - StillActive with the lowest rank that left a request active.
pub fn run_ranks<
    R: Threads + Wait + Clock + Sync,
    G: Gate + Sync,
    T: Send + Drop,
    P: RankProgram<T> + Send + Drop,
>(
    rt: &R,
    alloc: Global,
    config: Config,
    workers: u8,
    gate: &G,
    programs: Vec<P>,
) -> Result<(Vec<T>, Report), Refusal>
    requires { vec_len programs ≡ config.ranks }
    ensures setting { IfOk result (λ r. r.1.setting ≡ setting_by config) }
    ensures values { IfOk result (λ r. AreGiven P.Gives 0 programs.items r.0.items) }
    ensures refused { IfErr result (IsNoRun config) }
{
    let entries = ledger_for(config.ranks);
    run_in::<Brand, R, G, T, P>(rt, alloc, config, workers, gate, programs, entries)
}

/// `run_ranks` with the ledger of the engine's entries.
fn run_in<
    L: Entries + Send + Sync,
    R: Threads + Wait + Clock + Sync,
    G: Gate + Sync,
    T: Send + Drop,
    P: RankProgram<T> + Send + Drop,
>(
    rt: &R,
    alloc: Global,
    config: Config,
    workers: u8,
    gate: &G,
    programs: Vec<P>,
    entries: Blank,
) -> Result<(Vec<T>, Report), Refusal>
    requires programs { vec_len programs ≡ config.ranks }
    requires name { entries.name ≡ L.name }
    requires parts { (entries.parts ≡ L.parts) × (L.parts ≡ config.ranks) }
    requires setting { L.setting ≡ setting_by config }
    ensures setting { IfOk result (λ r. r.1.setting ≡ setting_by config) }
    ensures values { IfOk result (λ r. AreGiven P.Gives 0 programs.items r.0.items) }
    ensures refused { IfErr result (IsNoRun config) }
{
    let (engine, ports) = open::<L>(alloc, config, entries)?;
    let tasks = tasks_of(rt, alloc, ports, programs)?;
    let ends = run_rank_threads(rt, alloc, gate, &engine, tasks, workers)?.into_ranks()?;
    concluded(rt, alloc, engine, ends)
}

/// Gives each program the port of its rank.
fn tasks_of<'x, L: Entries, R, P: Drop>(
    rt: &'x R,
    alloc: Global,
    ports: Vec<Port<L>>,
    programs: Vec<P>,
) -> Result<Vec<Running<'x, L, R, P>>, AllocError>
    requires { vec_len programs ≡ vec_len ports }
    ensures ports { IfOk result (λ tasks. map (λ task. task.port) tasks.items ≡ ports.items) }
    ensures programs { IfOk result (λ tasks. map (λ task. task.program) tasks.items ≡ programs.items) }
{
    let mut tasks = Vec::with_capacity(alloc, ports.len())?;
    let mut rest = programs.into_iter();
    for port in ports {
        let Some(program) = rest.next() else {
            unreachable!()
        };
        tasks.push_reserved(Running { rt, port, program });
    }
    Ok(tasks)
}

/// Closes the engine with the ends of its ports, and returns the values of their programs.
fn concluded<L: Entries, R: Wait, T: Drop>(
    rt: &R,
    alloc: Global,
    engine: Engine<L>,
    ends: Vec<RankEnd<L, T>>,
) -> Result<(Vec<T>, Report), Refusal>
    requires { L.parts ≡ L.setting.ranks }
    ensures setting { IfOk result (λ r. r.1.setting ≡ L.setting) }
    ensures values { IfOk result (λ r. map Some r.0.items ≡ map (λ end. end.value) ends.items) }
    ensures refused { IfErr result (λ why. (why ≡ Refusal.NoMemory) ⊎ IsLeftOpen L.setting why) }
{
    let (spents, values) = apart(alloc, ends)?;
    match close(rt, engine, spents) {
        Ok(report) => Ok((values, report)),
        Err(refused) => Err(refused.why),
    }
}

/// Separates the ends of the ports from the values of the programs.
///
/// # Errors
///
/// NoMemory, also if a program wasn't run.
fn apart<L: Entries, T: Drop>(
    alloc: Global,
    ends: Vec<RankEnd<L, T>>,
) -> Result<(Vec<Spent<L>>, Vec<T>), Refusal>
    ensures spents { IfOk result (λ r. r.0.items ≡ map (λ end. end.spent) ends.items) }
    ensures values { IfOk result (λ r. map Some r.1.items ≡ map (λ end. end.value) ends.items) }
    ensures refused { IfErr result (λ why. why ≡ Refusal.NoMemory) }
{
    let mut spents = Vec::with_capacity(alloc, ends.len())?;
    let mut values = Vec::with_capacity(alloc, ends.len())?;
    for RankEnd { spent, value } in ends {
        let Some(value) = value else {
            return Err(Refusal::NoMemory);
        };
        spents.push(spent)?;
        values.push(value)?;
    }
    Ok((spents, values))
}
