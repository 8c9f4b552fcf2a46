ghost use Rattle.std.specs.Prelude.{◌≡◌, ◌<◌, ◌≤◌, length, Err, IfOk, OnOk, IsOkUnless};
ghost use Rattle.coll_kinds.specs.Limits.{max_text};
ghost use Rattle.coll_parser.specs.Code.{FailsText, GivesText};
ghost use Rattle.coll_parser.specs.Cutting.{lines_of};
ghost use Rattle.coll_parser.specs.Histories.{History, commands_of};
ghost use Rattle.coll_parser.specs.Judging.{fault_at};
ghost use Rattle.coll_script.specs.Configs.{sizes_of};
ghost use Rattle.coll_script.specs.Jobs.{job_of, script_of, belonging, completed};
ghost use Rattle.coll_script.specs.Meaning.{job_lines};
ghost use Rattle.coll_script.specs.Scripts.{IsJob};

use crate::evaluation::all_values;
use crate::matching::{all_have_places, all_have_starts, mismatch};
use crate::postings::all_postings;
use crate::rank_lines::print_rank;
use crate::sizes::{Sizes, sizes_of};
use coll_kinds::{MAX_TEXT, Refusal};
use coll_parser::{Cause, Command, Fault, History, ScriptFault, line_count};
use std::alloc::{AllocError, Global};
use std::marker::Model;

/// The history of a text without a fault, in which the requests of all ranks belong together.
#[derive(Debug, Drop)]
pub struct Script {
    alloc: Global,
    history: History,
}

impl Model for Script {
    ghost use Rattle.coll_parser.specs.Histories.{History};

    ghost Value = { History };

    ghost use Rattle.coll_script.specs.Jobs.{job_of};
    ghost use Rattle.coll_script.specs.Scripts.{IsJob};

    ghost view = { λ s. s.history };

    ghost invariant = { λ s. IsJob (job_of s.history) };
}

impl Script {
    /// Reads a job text: its script, or the first rule that it breaks. It accepts any bytes as a text. The cost is linear in
    /// the text, and for each communicator in the requests of its members.
    ///
    /// # Errors
    ///
    /// [`ScriptFault::Text`] is the text's fault; [`ScriptFault::NoMemory`] means that memory was refused.
    pub fn read(alloc: Global, text: &[u8]) -> Result<Script, ScriptFault>
        ensures read { GivesText (λ script. script) result (script_of text.now) }
        // A text that is too long gets this fault even if there is no memory.
        ensures long { max_text < length text.now → result ≡ Err (ScriptFault.Text (record { line = 1; cause = Cause.TooLong })) }
    {
        if text.len() > MAX_TEXT {
            return Err(fault(1, Cause::TooLong));
        }
        let history = History::read(alloc, text)?;
        completed(alloc, text, history)
    }

    /// What the lines have said: the ranks, their communicators, and the commands of all ranks in the order of their lines.
    pub fn history(&self) -> &History
        ensures { result.now ≡ self.now }
    {
        &self.history
    }

    /// The commands of a rank, in the order of their lines, and after them the unwritten `waitall` of all its requests; even a
    /// rank without a line has it. Linear in all commands, and in the bytes that those of the rank give.
    pub fn commands_of(&self, rank: u8) -> Result<Vec<Command>, AllocError>
        ensures { IfOk result (λ commands. commands.items ≡ commands_of self.now rank) }
    {
        self.history.commands_of(self.alloc, rank)
    }

    /// The size of an engine for the job. Linear in the commands.
    pub fn config(&self) -> Sizes
        ensures { result ≡ sizes_of self.now.commands }
    {
        sizes_of(self.history.commands())
    }

    /// The output lines of the job, in rising rank, request and start: the value of each start, computed directly from what all
    /// members give. The only refusal is [`Refusal::NoMemory`]. The cost is linear in the output and in the bytes that the
    /// members give, and for each communicator in the requests of its members.
    pub fn plain_lines(&self) -> Result<Vec<u8>, Refusal>
        ensures ok { IfOk result (λ out. out.items ≡ job_lines (job_of self.now)) }
        ensures refusal { IsOkUnless result Refusal.NoMemory }
    {
        let alloc = self.alloc;
        let ranks = self.history.requests(alloc)?;
        let all = all_postings(alloc, &ranks, self.history.groups())?;
        let values = all_values(alloc, &all)?;
        let mut out = Vec::new(alloc);
        for (rank, requests) in ranks.iter().enumerate() {
            print_rank(alloc, rank as u8, requests, &values, &mut out)?;
        }
        Ok(out)
    }
}

fn fault(line: u32, cause: Cause) -> ScriptFault
    ensures { result ≡ ScriptFault.Text (record { line = line; cause = cause }) }
{
    ScriptFault::Text(Fault { line, cause })
}

/// A fault of the whole text, which names its last line. The lines are counted only for such a fault. Linear in the text.
fn fault_of_all(text: &[u8], cause: Cause) -> ScriptFault
    requires { length text.now ≤ max_text }
    ensures { FailsText result (fault_at {A = History} (length (lines_of text.now)) cause) }
{
    fault(line_count(text) as u32, cause)
}

/// The script of a text's history, or the fault that is judged after the last line.
fn completed(alloc: Global, text: &[u8], history: History) -> Result<Script, ScriptFault>
    requires { length text.now ≤ max_text }
    ensures { GivesText (λ script. script) result (completed (length (lines_of text.now)) history) }
{
    if !history.has_ranks() {
        return Err(fault_of_all(text, Cause::MissingRanks));
    }
    check(alloc, text, &history)?;
    Ok(Script { alloc, history })
}

/// Checks that the requests at each place belong together.
fn check(alloc: Global, text: &[u8], history: &History) -> Result<(), ScriptFault>
    requires { length text.now ≤ max_text }
    ensures fault { GivesText (λ _. history.now) result (belonging (length (lines_of text.now)) history.now) }
    ensures job { OnOk result (IsJob (job_of history.now)) }
{
    let ranks = history.requests(alloc)?;
    let all = all_postings(alloc, &ranks, history.groups())?;
    if let Some(line) = mismatch(alloc, &all)? {
        return Err(fault(line, Cause::PlaceMismatch));
    }
    if !all_have_places(&all) {
        return Err(fault_of_all(text, Cause::PlaceMissing));
    }
    if !all_have_starts(&all) {
        return Err(fault_of_all(text, Cause::StartMissing));
    }
    Ok(())
}
