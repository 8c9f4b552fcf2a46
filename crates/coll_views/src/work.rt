//! What a member does by its schedule.

ghost use Rattle.std.specs.Prelude.{◌≡◌, ◌++◌, ◌∷◌, [], ◌<◌, ◌^◌, List, count_by, flat_map, map, sum, IfOk, OnOk};
ghost use Rattle.coll_sched.specs.declared.action.Action.{Action as AnAction};
ghost use Rattle.coll_sched.specs.Families.{is_send};
ghost use Rattle.coll_draw.specs.Counts.{is_combine, sent_len};
ghost use Rattle.coll_views.specs.Works.{actions_in, work_in};

use coll_sched::{Action, Round};
use coll_script::ReportFault;
use std::alloc::{AllocError, Global};

/// What a member sends and combines in one collective.
#[derive(Clone, Copy, Debug, PartialEq, Eq)]
pub struct MessageCounts {
    /// The messages that it sends.
    pub messages: u64,
    /// The bytes of these messages.
    pub bytes: u64,
    /// The pieces that it combines.
    pub combinations: u64,
}

/// The work of these rounds. Linear in their actions.
pub(crate) fn work_of(alloc: Global, rounds: &[Round]) -> Result<MessageCounts, ReportFault>
    ensures { IfOk result (λ work. work ≡ work_in rounds.now) }
{
    let actions = all_actions(alloc, rounds)?;
    let sent: Vec<u64> = actions
        .iter()
        .map(|action| sent_len(*action))
        .collect(alloc)?;
    Ok(MessageCounts {
        messages: count_sends(&actions),
        bytes: sum_of(&sent)?,
        combinations: count_combinations(&actions),
    })
}

/// The actions of all rounds.
fn all_actions(alloc: Global, rounds: &[Round]) -> Result<Vec<Action>, AllocError>
    ensures { IfOk result (λ actions. actions.items ≡ actions_in rounds.now) }
{
    let mut actions = Vec::new(alloc);
    for round in rounds {
        push_all(round.actions(), &mut actions)?;
    }
    Ok(actions)
}

/// Appends these actions.
fn push_all(more: &[Action], actions: &mut Vec<Action>) -> Result<(), AllocError>
    ensures { OnOk result (actions.new.items ≡ actions.old.items ++ more.now) }
{
    for action in more {
        push_one(action, actions)?;
    }
    Ok(())
}

fn push_one(action: &Action, actions: &mut Vec<Action>) -> Result<(), AllocError>
    ensures { OnOk result (actions.new.items ≡ actions.old.items ++ action.now ∷ []) }
{
    actions.push(*action)?;
    Ok(())
}

fn count_sends(actions: &[Action]) -> u64
    ensures { result ≡ count_by is_send actions.now }
{
    actions.iter().filter(|action| is_send(**action)).count() as u64
}

fn count_combinations(actions: &[Action]) -> u64
    ensures { result ≡ count_by is_combine actions.now }
{
    actions.iter().filter(|action| is_combine(**action)).count() as u64
}

fn is_send(action: Action) -> bool
    ensures { result ≡ is_send action }
{
    matches!(action, Action::Send { .. })
}

fn is_combine(action: Action) -> bool
    ensures { result ≡ is_combine action }
{
    matches!(action, Action::Combine { .. })
}

/// The bytes that an action sends.
fn sent_len(action: Action) -> u64
    ensures { result ≡ sent_len action }
{
    match action {
        Action::Send { from, .. } => u64::from(from.len),
        Action::Copy { .. } => 0,
        Action::Combine { .. } => 0,
        Action::Recv { .. } => 0,
    }
}

/// The sum of these numbers. `Torn` if it doesn't fit into 64 bits.
pub(crate) fn sum_of(numbers: &[u64]) -> Result<u64, ReportFault>
    ensures { IfOk result (λ total. total ≡ sum numbers.now) }
{
    let mut total: u64 = 0;
    for number in numbers {
        let Some(more) = total.checked_add(*number) else {
            return Err(ReportFault::Torn);
        };
        total = more;
    }
    Ok(total)
}
