//! The threads of the ranks.

ghost use Rattle.std.specs.Prelude.{◌≡◌, All, IfOk, IfSome, length, map};
ghost use Rattle.std.specs.Bool.{OnTrue};
ghost use Rattle.coll_traced.specs.Awaiting.{IsSetback};

use crate::caller::{Caller, Left};
use crate::observing::Observer;
use crate::spans::RankSpans;
use coll_core::Outcome;
use coll_kinds::Refusal;
use coll_report::Span;
use coll_script::{Command, Script};
use coll_shared::{Ends, Engine, Gate, Port, RankTask, run_rank_threads};
use coll_traced::{Entries, Spent};
use std::alloc::{AllocError, Global};
use std::rt::Clock;
use std::sync::Wait;
use std::thread::Threads;

/// The outcomes that a rank got, in the order in which it got them.
#[derive(Drop)]
pub(crate) struct Got {
    pub(crate) rank: u8,
    pub(crate) outcomes: Vec<Outcome>,
}

/// How the thread of a rank ended.
#[derive(Drop)]
pub(crate) struct ThreadEnd<L: Entries> {
    /// What remains of its port.
    pub(crate) spent: Spent<L>,
    pub(crate) got: Got,
    pub(crate) spans: RankSpans,
    /// The refusal that ended its commands early, if there was one.
    pub(crate) refusal: Option<Refusal>,
}

/// Carries out the commands of a port's rank, and ends the port, even if a command is refused. `gate` may hold a thread up at a
/// combination; `observer` gets reports of the commands.
#[derive(Drop)]
struct Commands<'x, L: Entries, R, G, O> {
    rt: &'x R,
    alloc: Global,
    gate: &'x G,
    observer: &'x O,
    script: &'x Script,
    port: Port<L>,
}

impl<L: Entries, R: Wait + Clock, G: Gate, O: Observer> RankTask<ThreadEnd<L>>
    for Commands<'_, L, R, G, O> {
    ghost use Rattle.std.specs.Prelude.{◌≡◌};

    // The outcomes are those of the port's rank.
    ghost IsEnd = { λ task end. end.got.rank ≡ task.port.rank };

    fn run(self, all_started: bool) -> ThreadEnd<L> {
        let Commands {
            rt,
            alloc,
            gate,
            observer,
            script,
            port,
        } = self;
        let rank = port.rank();
        let mut caller = Caller::new(alloc, port);
        let mut refusal = None;
        if all_started {
            refusal = carry_out_all(rt, alloc, gate, observer, script, rank, &mut caller).err();
        }
        observer.ended();
        let Left {
            spent,
            outcomes,
            spans,
        } = caller.finish(rt);
        ThreadEnd {
            spent,
            got: Got { rank, outcomes },
            spans,
            refusal,
        }
    }
}

/// Carries out the commands of a rank, up to the first one that is refused.
fn carry_out_all<L: Entries, R: Wait + Clock, G: Gate, O: Observer>(
    rt: &R,
    alloc: Global,
    gate: &G,
    observer: &O,
    script: &Script,
    rank: u8,
    caller: &mut Caller<L>,
) -> Result<(), Refusal> {
    let lines = lines_of(alloc, script, rank)?;
    for (index, command) in script.commands_of(rank)?.into_iter().enumerate() {
        let line = lines.get(index).copied().unwrap_or(0);
        carry_out(rt, gate, observer, line, command, caller)?;
    }
    Ok(())
}

/// Carries out a command, notes its span for each entry that it made, and reports how many outcomes it got.
fn carry_out<L: Entries, R: Wait + Clock, G: Gate, O: Observer>(
    rt: &R,
    gate: &G,
    observer: &O,
    line: u32,
    command: Command,
    caller: &mut Caller<L>,
) -> Result<(), Refusal> {
    let Some(from) = observer.now() else {
        return caller.carry_out(rt, gate, command);
    };
    let got = caller.got();
    let own = own_entries(&command);
    caller.carry_out(rt, gate, command)?;
    let until = observer.now().unwrap_or(from);
    let completed = caller.got().saturating_sub(got);
    observer.completed(completed);
    caller.note(Span { line, from, until }, completed.max(own))
}

/// The number of entries that the command makes, beside those of completions.
fn own_entries(command: &Command) -> usize {
    match command {
        Command::Post { .. } | Command::Init { .. } | Command::Start { .. } | Command::Free(_) => 1,
        Command::Wait(_)
        | Command::Test(_)
        | Command::WaitAny(_)
        | Command::WaitSome(_)
        | Command::WaitAll(_) => 0,
    }
}

/// The lines of a rank's commands, in their order.
fn lines_of(alloc: Global, script: &Script, rank: u8) -> Result<Vec<u32>, AllocError> {
    let mut lines = Vec::new(alloc);
    for issued in script.history().commands() {
        if issued.rank == rank {
            lines.push(issued.line)?;
        }
    }
    Ok(lines)
}

/// Carries out the commands of each port's rank in a thread of its own, with `workers` progress threads beside. `ports` are in
/// rising rank, and so are the ends of their threads.
///
/// # Errors
///
/// Memory was refused before the first thread was started.
pub(crate) fn run_ranks<
    L: Entries + Send + Sync,
    R: Threads + Wait + Clock + Sync,
    G: Gate + Sync,
    O: Observer + Sync,
>(
    rt: &R,
    alloc: Global,
    gate: &G,
    observer: &O,
    script: &Script,
    engine: &Engine<L>,
    ports: Vec<Port<L>>,
    workers: u8,
) -> Result<Ends<ThreadEnd<L>>, AllocError>
    // If all threads were started, there is an end for each port's rank, in the order of the ports,
    ensures ranks { IfOk result (λ ends. OnTrue ends.all_started (map (λ end. end.got.rank) ends.ranks ≡ map (λ port. port.rank) ports.items)) }
    // and one for each progress thread;
    ensures workers { IfOk result (λ ends. OnTrue ends.all_started (length ends.workers ≡ workers)) }
    // such a thread ended early only for a reason that a progress thread has.
    ensures setbacks { IfOk result (λ ends. All (λ end. IfSome end IsSetback) ends.workers) }
{
    let tasks = tasks_of(rt, alloc, gate, observer, script, ports)?;
    run_rank_threads(rt, alloc, gate, engine, tasks, workers)
}

/// What the thread of each port's rank does, in the order of the ports.
fn tasks_of<'x, L: Entries, R, G, O>(
    rt: &'x R,
    alloc: Global,
    gate: &'x G,
    observer: &'x O,
    script: &'x Script,
    ports: Vec<Port<L>>,
) -> Result<Vec<Commands<'x, L, R, G, O>>, AllocError>
    ensures { IfOk result (λ tasks. map (λ task. task.port) tasks.items ≡ ports.items) }
{
    let mut tasks = Vec::with_capacity(alloc, ports.len())?;
    for port in ports {
        tasks.push(Commands {
            rt,
            alloc,
            gate,
            observer,
            script,
            port,
        })?;
    }
    Ok(tasks)
}
