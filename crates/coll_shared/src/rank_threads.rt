//! Threads that begin together: one for each rank of an engine, and progress threads for all. They
//! are started and joined here.

ghost use Rattle.std.specs.Prelude.{◌≡◌, ◌≤◌, [], All, IfOk, IfSome, length, map, vec_capacity, vec_len};
ghost use Rattle.std.specs.Bool.{OnTrue};
ghost use Rattle.coll_traced.specs.Awaiting.{IsSetback};
ghost use Rattle.coll_shared.specs.RankThreads.{AreEnds};

mod ends;
mod start;
mod task;

use crate::engine::Engine;
use crate::gate::Gate;
use coll_kinds::Refusal;
use coll_traced::Entries;
pub use ends::Ends;
use start::Start;
use std::alloc::{AllocError, Global};
use std::rt::Clock;
use std::snapshot::Snapshot;
use std::sync::Wait;
use std::thread;
use std::thread::{Promise, PromisedHandle, Scope, Threads};
pub use task::RankTask;

/// What the thread of a rank promises: an end of its task.
#[derive(Drop)]
struct EndOf<K>(Snapshot<K>);

impl<T, K: RankTask<T>> Promise<T> for EndOf<K> {
    ghost kept_by = { λ p end. K.IsEnd p.0.value end };
}

/// What a progress thread promises: it was stopped, or ended for a reason that `Engine::work`
/// returns.
#[derive(Clone, Copy)]
struct Progress;

impl Promise<Option<Refusal>> for Progress {
    ghost use Rattle.std.specs.Prelude.{IfSome};
    ghost use Rattle.coll_traced.specs.Awaiting.{IsSetback};

    ghost kept_by = { λ _ end. IfSome end IsSetback };
}

/// Runs each rank's task in a thread of its own, with `workers` progress threads beside them, and
/// joins them all. `tasks` are in rising rank. The threads begin together, once all have been
/// started. `gate` may hold a progress thread up at a combination. If all could be started, each
/// task ended as its `IsEnd` says, in the order of the tasks, and each progress thread has an end.
///
/// # Errors
///
/// No memory, before the first thread was started.
pub fn run_rank_threads<
    L: Entries + Send + Sync,
    R: Threads + Wait + Clock + Sync,
    G: Gate + Sync,
    T: Send + Drop,
    K: RankTask<T> + Send + Drop,
>(
    rt: &R,
    alloc: Global,
    gate: &G,
    engine: &Engine<L>,
    tasks: Vec<K>,
    workers: u8,
) -> Result<Ends<T>, AllocError>
    ensures ranks { IfOk result (λ ends. OnTrue ends.all_started (AreEnds K.IsEnd tasks.items ends.ranks)) }
    ensures workers { IfOk result (λ ends. OnTrue ends.all_started (length ends.workers ≡ workers)) }
    ensures setbacks { IfOk result (λ ends. All (λ end. IfSome end IsSetback) ends.workers) }
{
    let start = Start::new();
    let held = &start;
    thread::scope(thread::scope_env(), rt, |scope| {
        run_in_scope(rt, scope, alloc, gate, held, engine, tasks, workers)
    })
}

fn run_in_scope<
    's,
    E,
    L: Entries + Send + Sync,
    R: Threads + Wait + Clock + Sync,
    G: Gate + Sync,
    T: Send + Drop + 's,
    K: RankTask<T> + Send + Drop + 's,
>(
    rt: &'s R,
    scope: &Scope<'s, E>,
    alloc: Global,
    gate: &'s G,
    start: &'s Start,
    engine: &'s Engine<L>,
    tasks: Vec<K>,
    workers: u8,
) -> Result<Ends<T>, AllocError>
    ensures ranks { IfOk result (λ ends. OnTrue ends.all_started (AreEnds K.IsEnd tasks.items ends.ranks)) }
    ensures workers { IfOk result (λ ends. OnTrue ends.all_started (length ends.workers ≡ workers)) }
    ensures setbacks { IfOk result (λ ends. All (λ end. IfSome end IsSetback) ends.workers) }
{
    let mut ranks = Vec::with_capacity(alloc, tasks.len())?;
    let mut rank_threads = Vec::with_capacity(alloc, tasks.len())?;
    let mut worker_threads = Vec::with_capacity(alloc, workers as usize)?;
    let mut worker_ends = Vec::with_capacity(alloc, workers as usize)?;
    fit(rt, engine, tasks.len(), workers);
    let all_started = start_ranks(rt, scope, start, tasks, &mut rank_threads)
        && start_workers(rt, scope, gate, start, engine, workers, &mut worker_threads);
    start.give(rt, all_started);
    join_ranks(rt, rank_threads, &mut ranks);
    engine.stop(rt);
    join_workers(rt, worker_threads, &mut worker_ends);
    Ok(Ends::of(all_started, ranks, worker_ends))
}

/// Tells the engine how many threads use it, on how many processors. If the system doesn't say, the
/// threads count as sharing processors.
fn fit<L: Entries, R: Threads>(rt: &R, engine: &Engine<L>, ranks: usize, workers: u8) {
    let processors = thread::available_parallelism(rt).map_or(1, |count| count.get());
    let threads = ranks.saturating_add(usize::from(workers));
    engine.combiner.processors.fit(threads, processors);
}

/// Starts the threads of the ranks, in the order of ranks, up to one that can't be started. Returns
/// whether all were.
fn start_ranks<
    's,
    E,
    R: Threads + Wait + Sync,
    T: Send + Drop + 's,
    K: RankTask<T> + Send + Drop + 's,
>(
    rt: &'s R,
    scope: &Scope<'s, E>,
    start: &'s Start,
    tasks: Vec<K>,
    threads: &mut Vec<PromisedHandle<T, EndOf<K>>>,
) -> bool
    requires none { threads.old.items ≡ [] }
    requires room { vec_len tasks ≤ vec_capacity threads.old }
    ensures few { vec_len threads.new ≤ vec_len tasks }
    ensures all { OnTrue result (map (λ thread. thread.promise.0.value) threads.new.items ≡ tasks.items) }
{
    for task in tasks {
        let promise = EndOf(Snapshot::of(&task));
        match scope.spawn_with(promise, move || run_rank(rt, start, task)) {
            Ok(thread) => threads.push_reserved(thread),
            Err(_) => return false,
        }
    }
    true
}

/// Starts `workers` progress threads, up to one that can't be started. Returns whether all were.
fn start_workers<'s, E, L: Entries + Send + Sync, R: Threads + Wait + Clock + Sync, G: Gate + Sync>(
    rt: &'s R,
    scope: &Scope<'s, E>,
    gate: &'s G,
    start: &'s Start,
    engine: &'s Engine<L>,
    workers: u8,
    threads: &mut Vec<PromisedHandle<Option<Refusal>, Progress>>,
) -> bool
    requires none { threads.old.items ≡ [] }
    requires room { workers ≤ vec_capacity threads.old }
    ensures few { vec_len threads.new ≤ workers }
    ensures all { OnTrue result (vec_len threads.new ≡ workers) }
{
    for _ in 0..workers {
        match scope.spawn_with(Progress, move || run_worker(rt, gate, start, engine)) {
            Ok(thread) => threads.push_reserved(thread),
            Err(_) => return false,
        }
    }
    true
}

/// Does a rank's task, once it is known whether all threads were started.
fn run_rank<R: Wait, T, K: RankTask<T>>(rt: &R, start: &Start, task: K) -> T
    ensures { K.IsEnd task result }
{
    let all_started = start.wait(rt);
    task.run(all_started)
}

/// Makes progress until the engine is stopped, once all threads were started. Returns why it ended
/// before that.
fn run_worker<L: Entries, R: Wait + Clock, G: Gate>(
    rt: &R,
    gate: &G,
    start: &Start,
    engine: &Engine<L>,
) -> Option<Refusal>
    ensures { IfSome result IsSetback }
{
    if start.wait(rt) {
        engine.work(rt, gate).err()
    } else {
        None
    }
}

/// Waits for the threads of the ranks, in the order of ranks.
fn join_ranks<T: Drop, K: RankTask<T> + Drop, R: Threads>(
    rt: &R,
    threads: Vec<PromisedHandle<T, EndOf<K>>>,
    ends: &mut Vec<T>,
)
    requires none { ends.old.items ≡ [] }
    requires room { vec_len threads ≤ vec_capacity ends.old }
    ensures { AreEnds (λ thread end. K.IsEnd thread.promise.0.value end) threads.items ends.new.items }
{
    for thread in threads {
        ends.push_reserved(thread.join(rt));
    }
}

/// Waits for the progress threads.
fn join_workers<R: Threads>(
    rt: &R,
    threads: Vec<PromisedHandle<Option<Refusal>, Progress>>,
    ends: &mut Vec<Option<Refusal>>,
)
    requires none { ends.old.items ≡ [] }
    requires room { vec_len threads ≤ vec_capacity ends.old }
    ensures all { vec_len ends.new ≡ vec_len threads }
    ensures setbacks { All (λ end. IfSome end IsSetback) ends.new.items }
{
    for thread in threads {
        ends.push_reserved(thread.join(rt));
    }
}
