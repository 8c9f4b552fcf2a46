ghost use Rattle.std.specs.Prelude.{◌≡◌, ◌↔◌, ℕ, All, IsTrue, List};
ghost use Rattle.std.specs.Bool.{OnTrue};
ghost use Rattle.std.specs.List.{list_any};
ghost use Rattle.coll_machine.specs.Reports.{posts_of};
ghost use Rattle.coll_report.specs.Scripts.{Command, asked};
ghost use Rattle.coll_core.specs.Configs.{setting_by};
ghost use Rattle.coll_report.specs.Attested.{HandedOut, IsAttested, attests, key_of};
ghost use Rattle.coll_report.specs.Posts.{posts_left};
ghost use Rattle.coll_report.specs.Reports.{Closed, EndsWith, IsClosed, closed_by};
ghost use Rattle.coll_report.specs.Scripted.{Follows, Tells};
ghost use Rattle.coll_report.specs.Traces.{entries_of};
ghost use Rattle.coll_report.specs.Views.{groups_seen, seen, trace_seen};

use crate::entry::Entry;
use crate::posts::Posts;
use coll_core::{Config, Core, Outcome};
use std::marker::Model;

/// How many entries of a trace are a rank's. Linear in the trace.
pub fn count_entries(trace: &[Entry], rank: u8) -> usize
    ensures { result ≡ entries_of rank (trace_seen trace.now) }
{
    trace.iter().filter(|entry| entry.rank() == rank).count()
}

/// Whether some entry is the completion that handed out the outcome.
pub(crate) fn any_attests(trace: &[Entry], outcome: &Outcome) -> bool
    ensures { result
        ≡ list_any (λ e. attests outcome.now.rank (key_of outcome.now) outcome.now.bytes (seen e)) trace.now }
{
    trace.iter().any(|entry| entry.attests(outcome))
}

/// Whether the rank's completions handed out these outcomes, in this order.
pub(crate) fn hands_out(trace: &[Entry], rank: u8, outcomes: &[Outcome]) -> bool
    ensures { IsTrue result ↔ HandedOut (trace_seen trace.now) rank outcomes.now }
{
    let mut left = outcomes;
    for entry in trace {
        if entry.is_completion_of(rank) {
            let Some((outcome, rest)) = left.split_first() else {
                return false;
            };
            if !entry.hands_out(outcome) {
                return false;
            }
            left = rest;
        }
    }
    left.is_empty()
}

fn same_groups(one: &[Vec<u8>], other: &[Vec<u8>]) -> bool
    ensures { IsTrue result ↔ (groups_seen one.now ≡ groups_seen other.now) }
{
    one == other
}

/// The whole trace of an engine that was closed: a legal one, at whose end no request is active.
#[derive(Debug, Drop)]
pub struct Report {
    config: Config,
    trace: Vec<Entry>,
}

impl Model for Report {
    ghost use Rattle.coll_report.specs.Reports.{Closed, IsClosed, closed_by};

    ghost Value = { Closed };

    ghost view = { λ r. closed_by r.config r.trace.items };

    ghost invariant = { λ r. IsClosed (closed_by r.config r.trace.items) };
}

impl Report {
    /// The report of an engine that is closed. It takes the engine's core, which has come to the end of the trace, so only who closes an
    /// engine makes a report. `config` is what the engine was opened with.
    pub fn new(engine: Core, config: Config, trace: Vec<Entry>) -> Report
        requires { EndsWith engine (closed_by config trace.items) }
        ensures { result ≡ closed_by config trace.items }
    {
        let _engine = engine;
        Report { config, trace }
    }

    /// What the engine was opened with.
    pub fn config(&self) -> &Config
        ensures { setting_by result.now ≡ self.now.setting }
    {
        &self.config
    }

    /// How many world ranks there are.
    pub fn ranks(&self) -> u8
        ensures { result ≡ self.now.setting.ranks }
    {
        self.config.ranks
    }

    /// The world ranks of each communicator, in the order of their member numbers.
    pub fn groups(&self) -> &[Vec<u8>]
        ensures { groups_seen result.now ≡ self.now.setting.groups }
    {
        self.config.groups.as_slice()
    }

    /// Whether the engine had that many ranks and these communicators.
    pub fn has_groups(&self, ranks: u8, groups: &[Vec<u8>]) -> bool
        ensures { IsTrue result
            ↔ ((self.now.setting.ranks ≡ ranks) × (self.now.setting.groups ≡ groups_seen groups.now)) }
    {
        self.ranks() == ranks && same_groups(self.groups(), groups)
    }

    /// All entries, in their order.
    pub fn entries(&self) -> &[Entry]
        ensures { trace_seen result.now ≡ self.now.entries }
    {
        self.trace.as_slice()
    }

    /// A rank's posts, initialisations and starts, in their order. Takes no memory.
    pub fn posts(&self, rank: u8) -> Posts<'_>
        ensures { posts_left result ≡ posts_of rank self.now.entries }
    {
        Posts::of_rank(rank, self.entries())
    }

    /// Whether the engine handed out this outcome. Linear in the trace; takes no memory.
    pub fn attests(&self, outcome: &Outcome) -> bool
        ensures { IsTrue result
            ↔ IsAttested self.now.entries outcome.now.rank (key_of outcome.now) outcome.now.bytes }
    {
        any_attests(self.entries(), outcome)
    }

    /// Whether a rank's completions handed out these outcomes, in this order. Linear in the trace; takes no memory.
    pub fn attests_all(&self, rank: u8, outcomes: &[Outcome]) -> bool
        ensures exact { IsTrue result ↔ HandedOut self.now.entries rank outcomes.now }
        ensures attested { OnTrue result
            (All (λ o. IsAttested self.now.entries o.rank (key_of o) o.bytes) outcomes.now) }
    {
        hands_out(self.entries(), rank, outcomes)
    }

    /// Where each rank did what a script says, the engine handed out exactly the outcomes that the script asks for and
    /// fixes, each once, whatever order the ranks acted in.
    pub fn tells(&self)
        ensures { (script : ℕ → List Command) → Follows self.now script
            → Tells self.now (λ rank. asked (script rank)) }
    {
        let _trace = &self.trace;
    }
}
