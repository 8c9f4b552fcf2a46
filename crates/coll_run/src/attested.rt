ghost use Rattle.std.specs.Prelude.{◌≡◌, IfErr, IfOk, OnOk};
ghost use Rattle.coll_parser.specs.Sound.{IsSound};
ghost use Rattle.coll_script.specs.Jobs.{job_of};
ghost use Rattle.coll_script.specs.Meaning.{job_lines};
ghost use Rattle.coll_report.specs.Scripts.{asked};
ghost use Rattle.coll_report.specs.Scripted.{Tells};
ghost use Rattle.coll_run.specs.Commands.{commands_by};
ghost use Rattle.coll_run.specs.Lines.{told, told_lines};
ghost use Rattle.coll_run.specs.Missing.{JobLacks};
ghost use Rattle.coll_run.specs.Runs.{IsRun};

use crate::following::is_run;
use crate::index::index_completions;
use crate::printing::print_rank;
use coll_report::Report;
use coll_script::{ReportFault, Script};
use std::alloc::Global;

/// The output lines of a job, in rising rank, request and start, with the bytes that the completions of the report handed out.
/// Nothing is computed again: the report is compared with the script, rank by rank, and then read. The cost is linear in the
/// output, the script's commands for each rank, and the report for each rank; each completion is found in constant time on
/// average.
///
/// # Errors
///
/// [`ReportFault::Torn`] if the report isn't that of a run of the script: it has other ranks or communicators, or a rank didn't
/// post, initialise and start what its lines say. [`ReportFault::NoMemory`] if memory was refused.
pub fn attested_lines(
    alloc: Global,
    script: &Script,
    report: &Report,
) -> Result<Vec<u8>, ReportFault>
    // The report is that of a run of the script,
    ensures run { OnOk result (IsRun script.now report.now) }
    // so each start that the script asks for was completed once, with its value, and nothing else was.
    ensures tells { OnOk result (Tells report.now (λ rank. asked (commands_by script.now rank))) }
    // The lines have the bytes that the completions handed out,
    ensures told { IfOk result (λ out. out.items ≡ told_lines (told report.now.entries) (job_of script.now)) }
    // and are those that the text means.
    ensures meaning { IfOk result (λ out. out.items ≡ job_lines (job_of script.now)) }
    // The fault is Torn only if the report isn't that of a run.
    ensures torn { IfErr result (λ fault. fault ≡ ReportFault.Torn → ¬ IsRun script.now report.now) }
{
    if !is_run(alloc, script, report)? {
        return Err(ReportFault::Torn);
    }
    report.tells();
    told_by(alloc, script, report)
}

/// The lines, if the report has a completion for each start.
fn told_by(alloc: Global, script: &Script, report: &Report) -> Result<Vec<u8>, ReportFault>
    ensures told { IfOk result (λ out. out.items ≡ told_lines (told report.now.entries) (job_of script.now)) }
    ensures sound { OnOk result (IsSound script.now) }
    ensures torn { IfErr result (λ fault. fault ≡ ReportFault.Torn
        → IsSound script.now × JobLacks (told report.now.entries) (job_of script.now)) }
{
    let index = index_completions(alloc, report.entries())?;
    let ranks = script.history().requests(alloc)?;
    let mut out = Vec::new(alloc);
    for (rank, requests) in ranks.iter().enumerate() {
        print_rank(alloc, rank as u8, requests, &index, &mut out)?;
    }
    Ok(out)
}
