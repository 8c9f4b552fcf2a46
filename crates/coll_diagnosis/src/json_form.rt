//! An explanation as JSON, an object in each line.

ghost use Rattle.std.specs.Prelude.{◌≡◌, ◌++◌, ℕ, List, IfOk, codes, flat_map};
ghost use Rattle.std.specs.String.{string_bytes};
ghost use Rattle.coll_diagnosis.specs.Details.{AreWaits, IsWait, TellDetails, behind_in, circle_in, comma_rank, ended_in, moves_text, ranks_text};
ghost use Rattle.coll_diagnosis.specs.Details.{shortest_in, standing_text, stuck_in, told_text, wait_head};
ghost use Rattle.coll_diagnosis.specs.Verdicts.{EndsExplained, EndsTelling, IsExplained, explained_object, word};

use crate::cure::Move;
use crate::explanation::{Explanation, ShownStall};
use crate::pending::Pending;
use crate::stuck::Stuck;
use crate::text_form::headline;
use crate::verdict::Verdict;
use coll_snippet::{Source, has_line_feed};
use serde::Serialize;
use serde_json::Error;
use std::alloc::{AllocError, Global};

/// What is known of a rank that waits, beside its number and its line.
#[derive(Drop, Serialize)]
struct Wait<'e> {
    /// The words of the call; empty for the unwritten `waitall`.
    command: &'e str,
    requests: &'e [Pending],
}

/// An object for each rank that waits, and a last one for the verdict.
pub(crate) fn json_form(
    alloc: Global,
    text: &[u8],
    explanation: &Explanation,
    status: u8,
) -> Result<String, Error>
    ensures object { IfOk result (λ lines. EndsExplained explanation.now.verdict status (string_bytes lines)) }
    // That object tells what is shown, and the cure.
    ensures told { IfOk result (λ lines. EndsTelling explanation.now.verdict status explanation.now.shown explanation.now.cure (string_bytes lines)) }
{
    let mut out = waits_json(alloc, text, explanation)?;
    let end = explained_json(alloc, explanation, status)?;
    out.push_str(end.as_str())?;
    Ok(out)
}

/// The last object.
fn explained_json(alloc: Global, explanation: &Explanation, status: u8) -> Result<String, Error>
    ensures object { IfOk result (λ line. IsExplained explanation.now.verdict status (string_bytes line)) }
    ensures told { IfOk result
        (λ line. (details : List ℕ) × (string_bytes line ≡ explained_object explanation.now.verdict details status)
        × TellDetails explanation.now.verdict explanation.now.shown explanation.now.cure details) }
{
    let details = details_json(alloc, explanation)?;
    // No proof says that `serde_json` writes no line feed.
    if has_line_feed(details.as_str().as_bytes()) {
        return Err(Error::from(AllocError));
    }
    let line = explained_object(alloc, explanation.verdict, details.as_str(), status)?;
    Ok(line)
}

/// The object with that verdict, these details and that exit status.
fn explained_object(
    alloc: Global,
    verdict: Verdict,
    details: &str,
    status: u8,
) -> Result<String, AllocError>
    ensures { IfOk result (λ line. string_bytes line ≡ explained_object verdict details.now status) }
{
    let word = word(verdict);
    let is_proved = verdict.is_proved();
    format!(in alloc;
        "{{\"reason\":\"explained\",\"verdict\":\"{word}\",\"proved\":{is_proved},{details},\"status\":{status}}}\n"
    )
}

/// The first line for a reader, which says what the verdict means, the ranks, and the cure.
fn details_json(alloc: Global, explanation: &Explanation) -> Result<String, AllocError>
    ensures { IfOk result (λ details. TellDetails explanation.now.verdict explanation.now.shown explanation.now.cure (string_bytes details)) }
{
    let head = headline(explanation);
    let standing = standing_json(alloc, &explanation.shown)?;
    let moves = moves_json(alloc, explanation.cure)?;
    let details = told(alloc, head, standing.as_str(), moves.as_str())?;
    Ok(details)
}

/// The details of which these are the parts.
fn told(alloc: Global, head: &str, standing: &str, moves: &str) -> Result<String, AllocError>
    ensures { IfOk result (λ text. string_bytes text ≡ told_text head.now standing.now moves.now) }
{
    format!(in alloc; "\"headline\":\"{head}\",{standing},\"moves\":{moves}")
}

/// The fewest ranks that wait for one another, those that do, those that wait for them, and those at their ends.
fn standing_json(alloc: Global, shown: &Option<ShownStall>) -> Result<String, AllocError>
    ensures { IfOk result (λ text. string_bytes text ≡ standing_text shown.now) }
{
    let shortest = ranks_json(alloc, shortest_in(shown))?;
    let circle = ranks_json(alloc, circle_in(shown))?;
    let behind = ranks_json(alloc, behind_in(shown))?;
    let ended = ranks_json(alloc, ended_in(shown))?;
    format!(in alloc;
        "\"shortest\":{shortest},\"circle\":{circle},\"behind\":{behind},\"ended\":{ended}"
    )
}

fn shortest_in(shown: &Option<ShownStall>) -> &[u8]
    ensures { result.now ≡ shortest_in shown.now }
{
    match shown {
        Some(shown) => shown.ring.as_slice(),
        None => &[],
    }
}

fn circle_in(shown: &Option<ShownStall>) -> &[u8]
    ensures { result.now ≡ circle_in shown.now }
{
    match shown {
        Some(shown) => shown.standstill.circle.as_slice(),
        None => &[],
    }
}

fn behind_in(shown: &Option<ShownStall>) -> &[u8]
    ensures { result.now ≡ behind_in shown.now }
{
    match shown {
        Some(shown) => shown.standstill.behind.as_slice(),
        None => &[],
    }
}

fn ended_in(shown: &Option<ShownStall>) -> &[u8]
    ensures { result.now ≡ ended_in shown.now }
{
    match shown {
        Some(shown) => shown.standstill.ended.as_slice(),
        None => &[],
    }
}

/// Ranks as a list.
fn ranks_json(alloc: Global, ranks: &[u8]) -> Result<String, AllocError>
    ensures { IfOk result (λ text. string_bytes text ≡ ranks_text ranks.now) }
{
    match ranks {
        [] => String::from_str(alloc, "[]"),
        [first, rest @ ..] => {
            let rest = after_commas(alloc, rest)?;
            format!(in alloc; "[{first}{rest}]")
        }
    }
}

/// Ranks, each after a comma.
fn after_commas(alloc: Global, ranks: &[u8]) -> Result<String, AllocError>
    ensures { IfOk result (λ text. string_bytes text ≡ flat_map comma_rank ranks.now) }
{
    let mut text = String::new(alloc);
    for rank in ranks {
        write!(text, ",{rank}")?;
    }
    Ok(text)
}

/// A move as a list of at most one.
fn moves_json(alloc: Global, cure: Option<Move>) -> Result<String, AllocError>
    ensures { IfOk result (λ text. string_bytes text ≡ moves_text cure) }
{
    match cure {
        None => String::from_str(alloc, "[]"),
        Some(Move { rank, line, behind }) => {
            format!(in alloc; "[{{\"rank\":{rank},\"line\":{line},\"behind\":{behind}}}]")
        }
    }
}

/// The verdict in a word.
fn word(verdict: Verdict) -> &'static str
    ensures { result.now ≡ word verdict }
{
    match verdict {
        Verdict::Never => "never",
        Verdict::NeverHere => "never here",
        Verdict::Perhaps => "perhaps",
        Verdict::AlwaysHere => "always here",
        Verdict::Always => "always",
    }
}

/// An object for each rank that waits.
fn waits_json(alloc: Global, text: &[u8], explanation: &Explanation) -> Result<String, Error>
    ensures { IfOk result (λ lines. AreWaits (stuck_in explanation.now.shown) (string_bytes lines)) }
{
    match &explanation.shown {
        Some(shown) => {
            let source = Source::new(alloc, text)?;
            all_waits(alloc, &source, &shown.standstill.stuck)
        }
        None => Ok(String::new(alloc)),
    }
}

fn all_waits(alloc: Global, source: &Source<'_>, ranks: &[Stuck]) -> Result<String, Error>
    ensures { IfOk result (λ lines. AreWaits ranks.now (string_bytes lines)) }
{
    let mut lines = String::new(alloc);
    for stuck in ranks {
        let line = wait_json(alloc, source, stuck)?;
        lines.push_str(line.as_str())?;
    }
    Ok(lines)
}

/// The object of a rank that waits, as a line.
fn wait_json(alloc: Global, source: &Source<'_>, stuck: &Stuck) -> Result<String, Error>
    ensures { IfOk result (λ line. IsWait stuck.now (string_bytes line)) }
{
    let head = wait_head(alloc, stuck)?;
    let known = wait_fields(alloc, source, stuck)?;
    // No proof says that `serde_json` writes no line feed.
    if has_line_feed(known.as_str().as_bytes()) {
        return Err(Error::from(AllocError));
    }
    let line = ended(alloc, head.as_str(), known.as_str())?;
    Ok(line)
}

/// How the object begins.
fn wait_head(alloc: Global, stuck: &Stuck) -> Result<String, AllocError>
    ensures { IfOk result (λ head. string_bytes head ≡ wait_head stuck.now) }
{
    let rank = stuck.rank;
    match stuck.line {
        Some(line) => format!(in alloc; "{{\"reason\":\"waits\",\"rank\":{rank},\"line\":{line},"),
        None => format!(in alloc; "{{\"reason\":\"waits\",\"rank\":{rank},\"line\":null,"),
    }
}

/// Its further fields, and the brace that ends it.
fn wait_fields(alloc: Global, source: &Source<'_>, stuck: &Stuck) -> Result<String, Error> {
    let excerpt = source.excerpt(alloc, stuck.line.unwrap_or(0))?;
    let wait = Wait {
        command: excerpt.words(),
        requests: stuck.requests.as_slice(),
    };
    let json = serde_json::to_string(alloc, &wait)?;
    let fields = String::from_str(alloc, json.as_str().trim_start_matches('{'))?;
    Ok(fields)
}

/// The head and the fields, as a line.
fn ended(alloc: Global, head: &str, fields: &str) -> Result<String, AllocError>
    ensures { IfOk result (λ line. string_bytes line ≡ head.now ++ (fields.now ++ codes "\n")) }
{
    format!(in alloc; "{head}{fields}\n")
}
