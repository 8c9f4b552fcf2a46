//! Runs the script of a job text, from the text to its lines.

ghost use Rattle.std.specs.Prelude.{◌≡◌, ◌≤◌, ◌⊎◌, Ok, All, IfErr, IfOk, IfSome, IsErrOf, IsOkUnless, IsTrue, OnOk, length, map, vec_len};
ghost use Rattle.std.specs.Bool.{OnTrue};
ghost use Rattle.std.specs.List.{range_with_len};
ghost use Rattle.std.specs.Prelude.{◌↔◌};
ghost use Rattle.coll_core.specs.Configs.{setting_by};
ghost use Rattle.coll_core.specs.declared.config.Config.{Config as TheConfig};
ghost use Rattle.coll_script.specs.Jobs.{job_of, script_of};
ghost use Rattle.coll_script.specs.Meaning.{job_lines, meaning};
ghost use Rattle.coll_script.specs.Plain.{IsFaultOf};
ghost use Rattle.coll_report.specs.Scripts.{asked};
ghost use Rattle.coll_report.specs.Attested.{HandedOut};
ghost use Rattle.coll_report.specs.Scripted.{Tells};
ghost use Rattle.coll_run.specs.Commands.{commands_by};
ghost use Rattle.coll_run.specs.Lines.{told, told_lines};
ghost use Rattle.coll_run.specs.Opened.{setting_for};
ghost use Rattle.coll_run.specs.Runs.{IsRun};
ghost use Rattle.coll_run.specs.Faults.{IsEnd, fault_of};

use crate::attested::attested_lines;
use crate::ends::first_fault;
use crate::observing::{NoObserver, Observer, Recorder, Watch};
use crate::rank::{Got, ThreadEnd, run_ranks};
use crate::spans::{RankSpans, spans_along};
use coll_core::Config;
use coll_kinds::Refusal;
use coll_report::{Report, Span};
use coll_script::{Command, JobFault, ReportFault, Script};
use coll_shared::{Ends, Engine, Gate, NoGate, close, open};
use coll_traced::{Entries, Spent, copied_groups, ledger_for};
use std::alloc::{AllocError, Global};
use std::marker::Brand;
use std::rt::Clock;
use std::sync::Wait;
use std::sync::ledger::Blank;
use std::thread::Threads;

/// The result of a run that ended well.
#[derive(Debug, Drop)]
pub struct Recording {
    /// The output lines.
    pub lines: Vec<u8>,
    pub report: Report,
    /// For each of the report's entries, in their order, which call made it, and when.
    pub spans: Vec<Span>,
}

/// Runs a job text like [`run_job`], and also returns which call made each entry, and when. Each rank's thread notes this by
/// the clock of `rt`, and reports to `watch` how far it is.
///
/// # Errors
///
/// Those of [`run_job`].
pub fn recorded_job<R: Threads + Wait + Clock + Sync, W: Watch + Sync>(
    rt: &R,
    alloc: Global,
    text: &[u8],
    workers: u8,
    watch: &W,
) -> Result<Recording, JobFault>
    requires { workers ≤ 8 }
    ensures meaning { IfOk result (λ done. meaning text.now ≡ Ok done.lines.items) }
    ensures opened { IfOk result (λ done. IfOk (script_of text.now) (λ script. done.report.setting ≡ setting_for script)) }
    ensures run { IfOk result (λ done. IfOk (script_of text.now) (λ script. IsRun script done.report)) }
    ensures tells { IfOk result (λ done. IfOk (script_of text.now) (λ script.
        Tells done.report (λ rank. asked (commands_by script rank)))) }
    ensures told { IfOk result (λ done. IfOk (script_of text.now) (λ script.
        done.lines.items ≡ told_lines (told done.report.entries) (job_of script))) }
    // Each entry has a span.
    ensures spans { IfOk result (λ done. vec_len done.spans ≡ length done.report.entries) }
    ensures faults { IfErr result (IsFaultOf text.now) }
{
    let script = Script::read(alloc, text)?;
    watch.begin(script.history().ranks(), starts_in(&script));
    let recorder = Recorder::begin(rt, watch);
    let (lines, report, ranks) = run_script(rt, alloc, &script, workers, &NoGate, &recorder)?;
    let spans = spans_along(alloc, report.entries(), &ranks)?;
    Ok(Recording {
        lines,
        report,
        spans,
    })
}

/// The number of posts and starts of all ranks.
fn starts_in(script: &Script) -> usize {
    script
        .history()
        .commands()
        .iter()
        .filter(|issued| matches!(issued.command, Command::Post { .. } | Command::Start { .. }))
        .count()
}

/// Runs a job text with a thread for each rank and `workers` progress threads. Returns its output lines and the report of the
/// run. `gate` may hold a thread up at a combination.
///
/// # Errors
///
/// The first of these that applies: the text's fault; `NoThread` if a thread couldn't be started, and then no rank has carried
/// out a command; the fault of the lowest rank whose fault isn't `Stalled`; that of a progress thread; `Stalled`; `Torn` if the
/// report doesn't agree with the text or with what the ranks got. `Memory` if memory was refused, at any of these points.
pub fn run_job<R: Threads + Wait + Clock + Sync, G: Gate + Sync>(
    rt: &R,
    alloc: Global,
    text: &[u8],
    workers: u8,
    gate: &G,
) -> Result<(Vec<u8>, Report), JobFault>
    requires { workers ≤ 8 }
    // The lines are the text's meaning,
    ensures meaning { IfOk result (λ told. meaning text.now ≡ Ok told.0.items) }
    // and the engine was opened with the ranks, communicators and sizes that the script asks for,
    ensures opened { IfOk result (λ done. IfOk (script_of text.now) (λ script. done.1.setting ≡ setting_for script)) }
    // the report is that of a run of the text's script,
    ensures run { IfOk result (λ told. IfOk (script_of text.now) (λ script. IsRun script told.1)) }
    // in which each start was completed once, with its value,
    ensures tells { IfOk result (λ done. IfOk (script_of text.now) (λ script.
        Tells done.1 (λ rank. asked (commands_by script rank)))) }
    // and the lines are read from its completions.
    ensures told { IfOk result (λ done. IfOk (script_of text.now) (λ script.
        done.0.items ≡ told_lines (told done.1.entries) (job_of script))) }
    ensures faults { IfErr result (IsFaultOf text.now) }
{
    let script = Script::read(alloc, text)?;
    let (lines, report, _ranks) = run_script(rt, alloc, &script, workers, gate, &NoObserver)?;
    Ok((lines, report))
}

/// Opens an engine as large as the script needs, and runs the script on it.
fn run_script<R: Threads + Wait + Clock + Sync, G: Gate + Sync, O: Observer + Sync>(
    rt: &R,
    alloc: Global,
    script: &Script,
    workers: u8,
    gate: &G,
    observer: &O,
) -> Result<(Vec<u8>, Report, Vec<RankSpans>), JobFault>
    ensures opened { IfOk result (λ done. done.1.setting ≡ setting_for script.now) }
    ensures run { IfOk result (λ done. IsRun script.now done.1) }
    ensures tells { IfOk result (λ done. Tells done.1 (λ rank. asked (commands_by script.now rank))) }
    ensures told { IfOk result (λ done. done.0.items ≡ told_lines (told done.1.entries) (job_of script.now)) }
    ensures meaning { IfOk result (λ done. done.0.items ≡ job_lines (job_of script.now)) }
    ensures faults { IfErr result IsEnd }
{
    let config = config_of(alloc, script)?;
    let entries = ledger_for(config.ranks);
    run_in::<Brand, R, G, O>(rt, alloc, script, config, workers, gate, observer, entries)
}

/// The configuration of an engine for a script.
fn config_of(alloc: Global, script: &Script) -> Result<Config, Refusal>
    ensures setting { IfOk result (λ config. setting_by config ≡ setting_for script.now) }
    ensures refusal { IsOkUnless result Refusal.NoMemory }
{
    let history = script.history();
    let sizes = script.config();
    Ok(Config {
        ranks: history.ranks(),
        groups: copied_groups(alloc, history.groups())?,
        slots: sizes.slots,
        places: sizes.places,
        wear: sizes.wear,
        starts: sizes.starts,
        trace: sizes.trace,
    })
}

/// Runs a script on an engine of its own. `entries` names the ledger of the engine's entries.
fn run_in<
    L: Entries + Send + Sync,
    R: Threads + Wait + Clock + Sync,
    G: Gate + Sync,
    O: Observer + Sync,
>(
    rt: &R,
    alloc: Global,
    script: &Script,
    config: Config,
    workers: u8,
    gate: &G,
    observer: &O,
    entries: Blank,
) -> Result<(Vec<u8>, Report, Vec<RankSpans>), JobFault>
    requires name { entries.name ≡ L.name }
    requires parts { (entries.parts ≡ L.parts) × (L.parts ≡ config.ranks) }
    requires setting { L.setting ≡ setting_by config }
    ensures opened { IfOk result (λ done. done.1.setting ≡ setting_by config) }
    ensures run { IfOk result (λ done. IsRun script.now done.1) }
    ensures tells { IfOk result (λ done. Tells done.1 (λ rank. asked (commands_by script.now rank))) }
    ensures told { IfOk result (λ done. done.0.items ≡ told_lines (told done.1.entries) (job_of script.now)) }
    ensures meaning { IfOk result (λ done. done.0.items ≡ job_lines (job_of script.now)) }
    ensures faults { IfErr result IsEnd }
{
    let (engine, ports) = open::<L>(alloc, config, entries)?;
    let Ok(ends) = run_ranks(rt, alloc, gate, observer, script, &engine, ports, workers) else {
        return Err(JobFault::Memory);
    };
    concluded(rt, alloc, script, engine, ends, workers)
}

/// The answer of a run whose threads ended in this way, `count` progress threads among them: the fault that the threads report, or else
/// what the engine's report attests.
fn concluded<L: Entries, R: Wait>(
    rt: &R,
    alloc: Global,
    script: &Script,
    engine: Engine<L>,
    ends: Ends<ThreadEnd<L>>,
    count: u8,
) -> Result<(Vec<u8>, Report, Vec<RankSpans>), JobFault>
    requires parts { L.parts ≡ L.setting.ranks }
    // If all threads were started, these are the ends of all ranks and of all progress threads.
    requires ranks { OnTrue ends.all_started (map (λ end. end.got.rank) ends.ranks ≡ range_with_len 0 L.setting.ranks) }
    requires workers { OnTrue ends.all_started (length ends.workers ≡ count) }
    // If the threads report a fault, the result is that fault, or `Memory` if memory is refused before it is found;
    ensures ends { IfSome (fault_of ends.all_started (map (λ end. end.refusal) ends.ranks) ends.workers)
        (λ fault. IsErrOf result fault ⊎ IsErrOf result JobFault.Memory) }
    // if they report none, each rank got exactly what its completions handed out.
    ensures got { IfOk result (λ done.
        All (λ got. HandedOut done.1.entries got.rank got.outcomes.items) (map (λ end. end.got) ends.ranks)) }
    ensures opened { IfOk result (λ done. done.1.setting ≡ L.setting) }
    ensures run { IfOk result (λ done. IsRun script.now done.1) }
    ensures tells { IfOk result (λ done. Tells done.1 (λ rank. asked (commands_by script.now rank))) }
    ensures told { IfOk result (λ done. done.0.items ≡ told_lines (told done.1.entries) (job_of script.now)) }
    ensures meaning { IfOk result (λ done. done.0.items ≡ job_lines (job_of script.now)) }
    ensures faults { IfErr result IsEnd }
{
    let (all_started, ranks, workers) = ends.into_parts();
    let Ok((refusals, spents, got, spans)) = apart(alloc, ranks) else {
        return Err(JobFault::Memory);
    };
    if let Some(fault) = first_fault(all_started, &refusals, &workers) {
        return Err(fault);
    }
    match close(rt, engine, spents) {
        Ok(report) => judge(alloc, script, &got, report, spans),
        Err(refused) => Err(JobFault::from(refused.why)),
    }
}

/// Splits the ends of the ranks into the refusals, the ports' ends, the outcomes and the spans.
fn apart<L: Entries>(
    alloc: Global,
    ranks: Vec<ThreadEnd<L>>,
) -> Result<
    (
        Vec<Option<Refusal>>,
        Vec<Spent<L>>,
        Vec<Got>,
        Vec<RankSpans>,
    ),
    AllocError,
>
    ensures refusals { IfOk result (λ parts. parts.0.items ≡ map (λ end. end.refusal) ranks.items) }
    ensures spents { IfOk result (λ parts. parts.1.items ≡ map (λ end. end.spent) ranks.items) }
    ensures got { IfOk result (λ parts. parts.2.items ≡ map (λ end. end.got) ranks.items) }
{
    let mut refusals = Vec::new(alloc);
    let mut spents = Vec::new(alloc);
    let mut all_got = Vec::new(alloc);
    let mut all_spans = Vec::new(alloc);
    for end in ranks {
        let ThreadEnd {
            spent,
            got,
            spans,
            refusal,
        } = end;
        refusals.push(refusal)?;
        spents.push(spent)?;
        all_got.push(got)?;
        all_spans.push(spans)?;
    }
    Ok((refusals, spents, all_got, all_spans))
}

/// The lines of the job, if the report agrees with what the ranks got and with the script.
fn judge(
    alloc: Global,
    script: &Script,
    got: &[Got],
    report: Report,
    spans: Vec<RankSpans>,
) -> Result<(Vec<u8>, Report, Vec<RankSpans>), JobFault>
    ensures got { IfOk result (λ done. All (λ got. HandedOut done.1.entries got.rank got.outcomes.items) got.now) }
    ensures report { IfOk result (λ done. done.1 ≡ report) }
    ensures run { IfOk result (λ done. IsRun script.now done.1) }
    ensures tells { IfOk result (λ done. Tells done.1 (λ rank. asked (commands_by script.now rank))) }
    ensures told { IfOk result (λ done. done.0.items ≡ told_lines (told done.1.entries) (job_of script.now)) }
    ensures meaning { IfOk result (λ done. done.0.items ≡ job_lines (job_of script.now)) }
    ensures faults { IfErr result IsEnd }
{
    if !all_handed_out(&report, got) {
        return Err(JobFault::Torn);
    }
    match attested_lines(alloc, script, &report) {
        Ok(lines) => Ok((lines, report, spans)),
        Err(ReportFault::Torn) => Err(JobFault::Torn),
        Err(ReportFault::NoMemory) => Err(JobFault::Memory),
    }
}

/// Whether the ranks got exactly what their completions handed out.
fn all_handed_out(report: &Report, got: &[Got]) -> bool
    ensures { IsTrue result
        ↔ All (λ got. HandedOut report.now.entries got.rank got.outcomes.items) got.now }
{
    for one in got {
        if !report.attests_all(one.rank, &one.outcomes) {
            return false;
        }
    }
    true
}
