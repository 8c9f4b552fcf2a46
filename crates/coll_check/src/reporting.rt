//! Reports the faults of a text: each by its line and the words of its cause, and their number at the end.

ghost use Rattle.std.specs.Prelude.{◌≡◌, ◌<◌, ◌++◌, false, codes, length, IfOk};
ghost use Rattle.std.specs.List.{list_any};
ghost use Rattle.std.specs.String.{string_bytes};
ghost use Rattle.coll_parser.specs.Cutting.{is_line_feed};
ghost use Rattle.coll_check.specs.Reports.{AreReports, IsKnown, IsReport, ReportsAll, begins_line, checked_object, count_line, end_of_paint};
ghost use Rattle.coll_check.specs.Reports.{fault_line, fault_mark, fault_noun, faults_in, is_marked, is_marked_later, object_head, paint_of_fault};
ghost use Rattle.coll_check.specs.Reports.{report_end, report_head, unjudged};

use crate::cause::words_of;
use crate::checking::{CheckForm, FAULTY};
use crate::json_form::known_fields;
use crate::text_form::known_lines;
use coll_faults::{Faults, Finding};
use coll_parser::line_count;
use coll_script::Fault;
use coll_snippet::{Source, has_line_feed};
use std::alloc::{AllocError, Global};

/// What is written of the faults of the text that has this name. The only error is refused memory.
pub(crate) fn faults_report(
    alloc: Global,
    name: &str,
    form: CheckForm,
    text: &[u8],
    faults: &Faults,
) -> Result<String, AllocError>
    ensures { IfOk result (λ lines. ReportsAll form name.now (faults_in faults.now) faults.now.is_cut (string_bytes lines)) }
{
    let mut out = reports(alloc, name, form, text, faults)?;
    let count = faults.further.len() + 1;
    let end = report_end(alloc, name, form, count, faults.is_cut)?;
    out.push_str(end.as_str())?;
    Ok(out)
}

/// A report of each fault, one after the other.
fn reports(
    alloc: Global,
    name: &str,
    form: CheckForm,
    text: &[u8],
    faults: &Faults,
) -> Result<String, AllocError>
    ensures { IfOk result (λ reports. AreReports form (faults_in faults.now) (string_bytes reports)) }
{
    let reporter = Reporter {
        alloc,
        name,
        form,
        source: Source::new(alloc, text)?,
        last_line: line_count(text),
    };
    let mut out = reporter.report(&faults.first)?;
    for finding in &faults.further {
        let report = reporter.report(finding)?;
        out.push_str(report.as_str())?;
    }
    Ok(out)
}

/// What the report of a fault is made from.
#[derive(Drop)]
struct Reporter<'t> {
    alloc: Global,
    /// The text's name.
    name: &'t str,
    form: CheckForm,
    source: Source<'t>,
    /// The number of the text's last line.
    last_line: usize,
}

impl Reporter<'_> {
    /// How the report of a fault begins, what is known of the fault, and a line feed.
    fn report(&self, finding: &Finding) -> Result<String, AllocError>
        ensures { IfOk result (λ report. IsReport self.now.form finding.now.fault (string_bytes report)) }
    {
        let head = report_head(self.alloc, self.form, finding.fault)?;
        let known = self.known(finding)?;
        joined(self.alloc, head.as_str(), known.as_str())
    }

    /// What is known of a fault, in the form of the report, such that it reports no other fault.
    fn known(&self, finding: &Finding) -> Result<String, AllocError>
        ensures { IfOk result (λ known. IsKnown self.now.form (string_bytes known)) }
    {
        let known = self.details(finding)?;
        match self.form {
            CheckForm::Text { is_colored } => Ok(unmarked(
                self.alloc,
                fault_mark(is_colored),
                known,
            )),
            CheckForm::Json => in_one_line(known),
        }
    }

    fn details(&self, finding: &Finding) -> Result<String, AllocError> {
        match self.form {
            CheckForm::Text { is_colored } => known_lines(
                self.alloc,
                self.name,
                is_colored,
                &self.source,
                self.last_line,
                finding,
            ),
            CheckForm::Json => known_fields(self.alloc, &self.source, finding),
        }
    }
}

/// How the line for a reader begins that reports a fault.
fn fault_mark(is_colored: bool) -> &'static str
    ensures mark { result.now ≡ fault_mark is_colored }
    ensures long { 0 < length result.now }
{
    if is_colored {
        "\x1b[1;31mline "
    } else {
        "line "
    }
}

/// These lines, or nothing where one of them begins with the mark of a report. Lines begin so only below a file's name with a line feed.
#[tactic(auto, using(crate::proofs::Marking::none_marked))]
fn unmarked(alloc: Global, mark: &str, lines: String) -> String
    requires { 0 < length mark.now }
    ensures { is_marked mark.now (string_bytes result) ≡ false }
{
    if is_marked(mark.as_bytes(), lines.as_str().as_bytes()) {
        return String::new(alloc);
    }
    lines
}

/// Whether some line begins with the mark.
fn is_marked(mark: &[u8], bytes: &[u8]) -> bool
    ensures { result ≡ is_marked mark.now bytes.now }
{
    bytes.starts_with(mark) || is_marked_later(mark, bytes)
}

/// Whether some line after the first begins with the mark.
#[tactic(auto, using(crate::proofs::Marking::marked_at))]
fn is_marked_later(mark: &[u8], bytes: &[u8]) -> bool
    ensures { result ≡ is_marked_later mark.now bytes.now }
{
    for (index, byte) in bytes.iter().enumerate() {
        if begins_line(mark, *byte, &bytes[index + 1..]) {
            return true;
        }
    }
    false
}

/// Whether the byte ends a line, and the mark begins the next one.
fn begins_line(mark: &[u8], byte: u8, rest: &[u8]) -> bool
    ensures { result ≡ begins_line mark.now byte rest.now }
{
    byte == b'\n' && rest.starts_with(mark)
}

/// JSON without a line feed. No proof says that `serde_json` writes none.
fn in_one_line(json: String) -> Result<String, AllocError>
    ensures { IfOk result (λ line. list_any is_line_feed (string_bytes line) ≡ false) }
{
    if has_line_feed(json.as_str().as_bytes()) {
        return Err(AllocError);
    }
    Ok(json)
}

/// The head of a report, and what follows it.
fn joined(alloc: Global, head: &str, known: &str) -> Result<String, AllocError>
    ensures { IfOk result (λ report. string_bytes report ≡ head.now ++ (known.now ++ codes "\n")) }
{
    format!(in alloc; "{head}{known}\n")
}

/// How the report of a fault begins: with its line, and the words of its cause.
fn report_head(alloc: Global, form: CheckForm, fault: Fault) -> Result<String, AllocError>
    ensures { IfOk result (λ head. string_bytes head ≡ report_head form fault) }
{
    match form {
        CheckForm::Text { is_colored } => fault_line(alloc, is_colored, fault),
        CheckForm::Json => object_head(alloc, fault),
    }
}

/// The line for a reader that reports a fault.
fn fault_line(alloc: Global, is_colored: bool, fault: Fault) -> Result<String, AllocError>
    ensures { IfOk result (λ line. string_bytes line ≡ fault_line is_colored fault) }
{
    let paint = paint_of_fault(is_colored);
    let line = fault.line;
    let words = words_of(fault.cause);
    let end = end_of_paint(is_colored);
    format!(in alloc; "{paint}line {line}: {words}{end}\n")
}

/// What begins the colour of a fault's line, if lines have colours.
fn paint_of_fault(is_colored: bool) -> &'static str
    ensures { result.now ≡ paint_of_fault is_colored }
{
    if is_colored { "\x1b[1;31m" } else { "" }
}

/// What ends the colour of a fault's line.
fn end_of_paint(is_colored: bool) -> &'static str
    ensures { result.now ≡ end_of_paint is_colored }
{
    if is_colored { "\x1b[0m" } else { "" }
}

/// How the object begins that reports a fault.
fn object_head(alloc: Global, fault: Fault) -> Result<String, AllocError>
    ensures { IfOk result (λ head. string_bytes head ≡ object_head fault) }
{
    let line = fault.line;
    let words = words_of(fault.cause);
    format!(in alloc; "{{\"reason\":\"fault\",\"line\":{line},\"cause\":\"{words}\",")
}

/// What stands after the reports: how many they are.
fn report_end(
    alloc: Global,
    name: &str,
    form: CheckForm,
    count: usize,
    is_cut: bool,
) -> Result<String, AllocError>
    ensures { IfOk result (λ end. string_bytes end ≡ report_end form name.now count is_cut) }
{
    match form {
        CheckForm::Text { .. } => count_line(alloc, name, count, is_cut),
        CheckForm::Json => checked_object(alloc, count, is_cut, FAULTY),
    }
}

/// The line for a reader with the number of faults, and whether some lines weren't judged.
fn count_line(alloc: Global, name: &str, count: usize, is_cut: bool) -> Result<String, AllocError>
    ensures { IfOk result (λ line. string_bytes line ≡ count_line name.now count is_cut) }
{
    let noun = fault_noun(count);
    let unjudged = unjudged(is_cut);
    format!(in alloc; "{name}: {count} {noun}{unjudged}\n")
}

fn fault_noun(count: usize) -> &'static str
    ensures { result.now ≡ fault_noun count }
{
    if count == 1 { "fault" } else { "faults" }
}

fn unjudged(is_cut: bool) -> &'static str
    ensures { result.now ≡ unjudged is_cut }
{
    if is_cut {
        "; the lines that follow weren't judged"
    } else {
        ""
    }
}

/// The object with the number of faults, whether some lines weren't judged, and the exit status.
pub(crate) fn checked_object(
    alloc: Global,
    count: usize,
    is_cut: bool,
    status: u8,
) -> Result<String, AllocError>
    ensures { IfOk result (λ line. string_bytes line ≡ checked_object count is_cut status) }
{
    format!(in alloc;
        "{{\"reason\":\"checked\",\"faults\":{count},\"cut\":{is_cut},\"status\":{status}}}\n"
    )
}
