ghost use Rattle.std.specs.Prelude.{◌≡◌};
ghost use Rattle.coll_run.specs.Faults.{fault_of, graver};

use coll_kinds::Refusal;
use coll_script::JobFault;

/// The fault that is reported if several threads end with one: first that a thread couldn't be started; then the fault of the
/// lowest rank whose fault isn't `Stalled`; then that of a progress thread; then `Stalled`. `ranks` are in rising rank.
pub(crate) fn first_fault(
    all_started: bool,
    ranks: &[Option<Refusal>],
    workers: &[Option<Refusal>],
) -> Option<JobFault>
    ensures { result ≡ fault_of all_started ranks.now workers.now }
{
    if !all_started {
        return Some(JobFault::NoThread);
    }
    let of_ranks = ranks
        .iter()
        .fold(None, |earlier, end| graver(earlier, *end));
    let of_all = workers
        .iter()
        .fold(of_ranks, |earlier, end| graver(earlier, *end));
    of_all.map(JobFault::from)
}

/// Which of two threads' refusals is reported: `later`, if there is one and `earlier` is `Stalled` or None; else `earlier`.
fn graver(earlier: Option<Refusal>, later: Option<Refusal>) -> Option<Refusal>
    ensures { result ≡ graver earlier later }
{
    match earlier {
        None | Some(Refusal::Stalled) => later.or(earlier),
        Some(_) => earlier,
    }
}
