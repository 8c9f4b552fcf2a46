use coll_core::{About, Contribution, Outcome, Phase};
use coll_kinds::{Refusal, Refused, Ticket};

/// An engine whose requests are tested, completed, started and freed: a core, or a core that keeps
/// more beside it. The calls over it are written once, for every such engine.
pub trait Requests {
    ghost use Rattle.std.specs.Prelude.{◌≡◌, List, [], ◌++◌, IfErr, IfOk, IfSome, IsNone, OnErr, OnOk, Some};
    ghost use Rattle.std.specs.Result.{result_err};
    ghost use Rattle.coll_kinds.specs.declared.refusal.Refusal.{Refusal as Why};
    ghost use Rattle.coll_machine.specs.Calls.{Call, Free, Nothing, Retire, Start};
    ghost use Rattle.coll_machine.specs.Machines.{MachineStep, StepsTo};
    ghost use Rattle.coll_machine.specs.Refusals.{refusal};
    ghost use Rattle.coll_machine.specs.Runs.{Event, Runs};
    ghost use Rattle.coll_machine.specs.Settings.{Setting};
    ghost use Rattle.coll_machine.specs.States.{Machine};
    ghost use Rattle.coll_core.specs.Phases.{about_in, phase_in};
    ghost use Rattle.coll_complete.specs.Completing.{completion, freeing};

    /// What a caller holds beside the engine, where completions and frees are noted too.
    type Own;

    ghost setting: { Self → Setting };

    ghost machine: { Self → Machine };

    /// These calls with their answers, and nothing else, led the engine and what its caller holds from the one to the other.
    ghost Did: { Self → Self.Own → List Event → Self → Self.Own → Type 0 };

    /// It refuses such a start.
    ghost Denies: { Self → Call → Why → Type 0 };

    /// How far a request is.
    fn phase(&self, rank: u8, ticket: Ticket) -> Result<Phase, Refusal>
        ensures refused { result_err result ≡ refusal (setting self.now) (machine self.now).state (Retire rank ticket) }
        ensures phase { IfOk result (λ phase. phase_in (machine self.now) ticket ≡ Some phase) };

    /// What a ticket names.
    fn about(&self, ticket: Ticket) -> Option<About>
        ensures { result ≡ about_in (machine self.now) ticket };

    /// Completes a request that is Done; none where it isn't.
    fn retire(
        &mut self,
        own: &mut Self::Own,
        rank: u8,
        ticket: Ticket,
    ) -> Result<Option<Outcome>, Refusal>
        ensures refused { result_err result ≡ refusal (setting self.old) (machine self.old).state (Retire rank ticket) }
        ensures err { OnErr result ((self.new ≡ self.old) × (own.new ≡ own.old)) }
        ensures setting { setting self.new ≡ setting self.old }
        ensures none { IfOk result (λ found. IsNone found → (self.new ≡ self.old) × (own.new ≡ own.old)) }
        ensures waits { IfOk result
            (λ found. IsNone found → MachineStep (setting self.old) (machine self.old) (Retire rank ticket) Nothing (machine self.new)) }
        ensures completes { IfOk result (λ found. IfSome found (λ outcome. Did self.old own.old (completion rank (Some ticket) outcome) self.new own.new)) };

    /// Gives up a persistent request that isn't active.
    fn free(&mut self, own: &mut Self::Own, rank: u8, ticket: Ticket) -> Result<(), Refusal>
        ensures refused { result_err result ≡ refusal (setting self.old) (machine self.old).state (Free rank ticket) }
        ensures err { OnErr result ((self.new ≡ self.old) × (own.new ≡ own.old)) }
        ensures setting { setting self.new ≡ setting self.old }
        ensures frees { OnOk result (Did self.old own.old (freeing rank (Some ticket)) self.new own.new) };

    /// Starts a persistent request. Where it is refused, the contribution is handed back.
    fn start(
        &mut self,
        own: &mut Self::Own,
        rank: u8,
        ticket: Ticket,
        bytes: Contribution,
    ) -> Result<(), Refused<Contribution>>
        ensures setting { setting self.new ≡ setting self.old }
        ensures starts { OnOk result (StepsTo (setting self.old) (machine self.old) (Start rank ticket bytes) Nothing (machine self.new)) }
        ensures back { IfErr result (λ refused. refused.back ≡ bytes) }
        ensures denied { IfErr result (λ refused. Denies self.new (Start rank ticket bytes) refused.why) }
        ensures unchanged { OnErr result (machine self.new ≡ machine self.old) };

    /// Nothing happened.
    ghost did_nothing: { (s : Self) (a : Self.Own) → Did s a [] s a };

    /// Something happened, and then more.
    ghost did_more: { (s t u : Self) (a b c : Self.Own) (es fs : List Event) → Did s a es t b → Did t b fs u c → Did s a (es ++ fs) u c };

    /// What happened is a run of the machine.
    ghost did_runs: { (s t : Self) (a b : Self.Own) (es : List Event) → Did s a es t b → Runs (setting s) (machine s) es (machine t) };
}
