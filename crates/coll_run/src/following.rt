//! Compares a report with a script.

ghost use Rattle.std.specs.Prelude.{◌≡◌, ◌↔◌, [], ◌∷◌, ◌++◌, List, IsTrue, IfOk, unwrap_or};
ghost use Rattle.coll_parser.specs.Histories.{commands_of, issued_by};
ghost use Rattle.coll_report.specs.Scripts.{Command as ScriptCommand, Says};
ghost use Rattle.coll_report.specs.Comparisons.{SaysLeft, said};
ghost use Rattle.coll_report.specs.Posts.{posts_left};
ghost use Rattle.coll_run.specs.Commands.{all_traced, traced};
ghost use Rattle.coll_run.specs.Runs.{AllFollow, IsRun};

use coll_parser::{History, IssuedCommand};
use coll_report::{Command as Shown, Comparison, Posts, Report};
use coll_script::{Command, Script};
use std::alloc::{AllocError, Global};

/// Whether the report is that of a run of the script: the engine had the script's ranks and communicators, and each rank
/// posted, initialised and started what its lines say.
pub(crate) fn is_run(alloc: Global, script: &Script, report: &Report) -> Result<bool, AllocError>
    ensures { IfOk result (λ is. IsTrue is ↔ IsRun script.now report.now) }
{
    let history = script.history();
    if !report.has_groups(history.ranks(), history.groups()) {
        return Ok(false);
    }
    all_follow(alloc, script, report)
}

/// Whether each rank posted, initialised and started what its lines say.
fn all_follow(alloc: Global, script: &Script, report: &Report) -> Result<bool, AllocError>
    ensures { IfOk result
        (λ all. IsTrue all ↔ AllFollow (unwrap_or script.now.ranks 0) script.now report.now) }
{
    let history = script.history();
    for rank in 0..history.ranks() {
        if !rank_follows(alloc, report.posts(rank), history, rank)? {
            return Ok(false);
        }
    }
    Ok(true)
}

/// Whether these posts, initialisations and starts are those of the rank's commands, one for one and in their order.
fn rank_follows(
    alloc: Global,
    posts: Posts<'_>,
    history: &History,
    rank: u8,
) -> Result<bool, AllocError>
    ensures { IfOk result (λ same. IsTrue same ↔ Says [] (all_traced (commands_of history.now rank)) (posts_left posts.entry)) }
{
    let mut comparison = Comparison::new(alloc, posts);
    let commands = history.commands();
    for issued in commands {
        if !goes_on(&mut comparison, issued, rank)? {
            return Ok(false);
        }
    }
    Ok(comparison.is_over())
}

/// Whether the next of them is the command's, or the command has none or is another rank's.
fn goes_on(
    comparison: &mut Comparison<'_>,
    issued: &IssuedCommand,
    rank: u8,
) -> Result<bool, AllocError>
    ensures { IfOk result (λ same. (rest : List ScriptCommand) →
        SaysLeft comparison.old (all_traced (issued_by rank (issued.now ∷ [])) ++ rest) ↔ (IsTrue same × SaysLeft comparison.new rest)) }
{
    if issued.rank != rank {
        return Ok(true);
    }
    comparison.next_is(shown(&issued.command))
}

/// The command as far as a trace shows it.
fn shown(command: &Command) -> Shown<'_>
    ensures { said result ≡ traced command.now }
{
    match command {
        Command::Post { comm, sig, given } => Shown::Post {
            comm: u32::from(*comm),
            sig: *sig.sig(),
            given: given.as_slice(),
        },
        Command::Init { comm, sig } => Shown::Init {
            comm: u32::from(*comm),
            sig: *sig.sig(),
        },
        Command::Start { req, given } => Shown::Start {
            request: *req,
            given: given.as_slice(),
        },
        Command::Wait(_) => Shown::Other,
        Command::Test(_) => Shown::Other,
        Command::Free(_) => Shown::Other,
        Command::WaitAny(_) => Shown::Other,
        Command::WaitSome(_) => Shown::Other,
        Command::WaitAll(_) => Shown::Other,
    }
}
