//! The words of the command line.

ghost use Rattle.std.specs.Prelude.{◌≡◌, ◌≤◌, IfOk};
ghost use Rattle.coll_job.specs.Tasks.{workers_of};

use crate::draw_words::{draw_command, draw_task};
use crate::screen::Colors;
use crate::task::{Explaining, RunOptions, Task, Way};
use crate::views::{PAGE, page_argument, views_of, with_views};
use clap::builder::ValueParser;
use clap::{Arg, ArgAction, ArgMatches, Command, Error};
use coll_check::CheckForm;
use coll_diagnosis::{ExplainOptions, Form};
use coll_witness::DEPTH;
use std::alloc::{AllocError, Global};

const MAX_WORKERS: u8 = 8;

const WORKERS: &str = "workers";

/// The number of progress threads of a run if the words don't give one.
const DEFAULT_WORKERS: u8 = 2;

const QUIET: &str = "quiet";

const FILE: &str = "file";

const STRICT: &str = "strict";

const ALL: &str = "all";

const STATES: &str = "depth";

const FORM: &str = "form";

const EXPLANATION: &str = "explain";

const COLOR: &str = "color";

/// The forms in which an explanation can be written.
static FORMS: [&str; 3] = ["text", "json", "dot"];

/// The forms in which the faults of a text can be written.
static CHECK_FORMS: [&str; 2] = ["text", "json"];

/// When colours are wanted.
static COLORS: [&str; 3] = ["auto", "always", "never"];

const NAME: &str = "colljob";

/// The text below the help.
const FORMAT: &str = "\
A job text begins so; docs/JOB_TEXT.md has the whole format:
  ranks 3
  rank 0
  post 0 allreduce sum i32 1 : 1
  rank 1
  post 0 allreduce sum i32 1 : 2
  rank 2
  post 0 allreduce sum i32 1 : 3

Its lines are `rank R req Q start S : VALUES`, here with the value 6 three times:
  colljob run --workers 2 examples/sum_of_three.job

The schedules of a collective are drawn without a text; what a run did is drawn too:
  colljob draw allreduce sum i32 1 --members 6
  colljob draw run examples/sum_of_three.job

Exit status: 0 done; 1 a file can't be opened, read fault, write fault; 2 a fault of the text or of the words;
3 a deadlock (stalled); 4 another refusal of the engine; 5 no memory, no thread, or a report that doesn't agree with the text;
6 may deadlock: neither proved to end nor proved to deadlock.
At a fault standard output stays empty, and standard error has one line, after the name of FILE; `check` reports all
faults of a text, each with its line.";

/// The one command of the program, with its subcommands.
fn command<'a>(alloc: Global) -> Result<Command<'a>, AllocError> {
    // The name in usage lines, from whatever file the program was started.
    Command::new(alloc, NAME)
        .bin_name(NAME)?
        .version("0.1.0")
        .about(
            "Computes the results of MPI's nonblocking and persistent collectives, finds mismatched calls, explains deadlocks",
        )
        .after_help(FORMAT)
        .subcommand_required(true)
        .subcommand(run_command(alloc)?)?
        .subcommand(plain_command(alloc)?)?
        .subcommand(explain_command(alloc)?)?
        .subcommand(check_command(alloc)?)?
        .subcommand(draw_command(alloc)?)
}

fn run_command<'a>(alloc: Global) -> Result<Command<'a>, AllocError> {
    let quiet = Arg::new(alloc, QUIET)
        .short('q')
        .long(QUIET)
        .action(ArgAction::SetTrue)
        .help(
            "Shows no progress; without it a run of more than a second shows some where standard error is a terminal",
        );
    let explanation = Arg::new(alloc, EXPLANATION)
        .long("explain")
        .value_name("OUT")
        .help("If the run deadlocks, writes to the file OUT why");
    let run = Command::new(alloc, "run")
        .about(
            "Runs a job text with a thread for each rank, and writes the values that the ranks receive",
        )
        .arg(workers_argument(alloc))?
        .arg(quiet)?
        .arg(explanation)?;
    with_views(alloc, run)?.arg(text_file(alloc))
}

pub(crate) fn workers_argument<'a>(alloc: Global) -> Arg<'a> {
    Arg::new(alloc, WORKERS)
        .long(WORKERS)
        .value_name("W")
        .value_parser(ValueParser::unsigned(0, u64::from(MAX_WORKERS)))
        .default_value("2")
        .help("Progress threads beside a thread for each rank, 0 to 8")
}

fn plain_command<'a>(alloc: Global) -> Result<Command<'a>, AllocError> {
    Command::new(alloc, "plain")
        .about("Writes the value of every post and start of a job text, each computed directly")
        .arg(text_file(alloc))
}

fn explain_command<'a>(alloc: Global) -> Result<Command<'a>, AllocError> {
    let form = Arg::new(alloc, FORM)
        .long("format")
        .value_name("FORMAT")
        .value_parser(ValueParser::Names(&FORMS))
        .default_value("text")
        .help("text for a reader, json with an object in each line, or dot for a graph");
    let strict = Arg::new(alloc, STRICT)
        .long("strict")
        .action(ArgAction::SetTrue)
        .help("Exit status 6 also if only runs with another MPI library may deadlock");
    let depth = Arg::new(alloc, STATES)
        .long(STATES)
        .value_name("N")
        .value_parser(ValueParser::unsigned(0, u64::from(u32::MAX)))
        .default_value("200")
        .help("How many states a search for a run that deadlocks looks at, at most");
    Command::new(alloc, "explain")
        .about(
            "Reports whether a job can deadlock, and shows the cycle: which rank waits in which line for whom",
        )
        .arg(form)?
        .arg(color_argument(
            alloc,
            "Whether text has colours; auto where standard output is a terminal and NO_COLOR isn't set",
        ))?
        .arg(strict)?
        .arg(depth)?
        .arg(all_ranks(alloc))?
        .arg(page_argument(
            alloc,
            "Writes to the file OUT a page for a browser too, with a picture of which rank waits for which",
        ))?
        .arg(text_file(alloc))
}

/// The argument for all ranks that wait.
pub(crate) fn all_ranks<'a>(alloc: Global) -> Arg<'a> {
    Arg::new(alloc, ALL)
        .long(ALL)
        .action(ArgAction::SetTrue)
        .help("Shows every waiting rank in full, not only a shortest cycle; json always has all")
}

fn check_command<'a>(alloc: Global) -> Result<Command<'a>, AllocError> {
    let form = Arg::new(alloc, FORM)
        .long("format")
        .value_name("FORMAT")
        .value_parser(ValueParser::Names(&CHECK_FORMS))
        .default_value("text")
        .help(
            "text for a reader on standard error, or json with an object in each line on standard output",
        );
    Command::new(alloc, "check")
        .about(
            "Reports all faults of a job text, such as mismatched calls, with what may be meant; without a fault, whether it can deadlock",
        )
        .arg(form)?
        .arg(color_argument(
            alloc,
            "Whether text has colours; auto where standard error is a terminal and NO_COLOR isn't set",
        ))?
        .arg(text_file(alloc))
}

/// The word for colours.
fn color_argument<'a>(alloc: Global, help: &'a str) -> Arg<'a> {
    Arg::new(alloc, COLOR)
        .long(COLOR)
        .value_name("WHEN")
        .value_parser(ValueParser::Names(&COLORS))
        .default_value("auto")
        .help(help)
}

/// The argument for a file.
pub(crate) fn text_file<'a>(alloc: Global) -> Arg<'a> {
    Arg::new(alloc, FILE).value_name("FILE").help(
        "The job text; standard input where there is no FILE, or where it is -",
    )
}

/// The task that the words name. Else the error has the message for the user. Whether colours are wanted is said by the words, or
/// left to whether the stream takes them. The words of a signature are put together in `signature`.
pub fn task_of<'w>(
    alloc: Global,
    colors: Colors,
    words: &'w [String],
    signature: &'w mut String,
) -> Result<Task<'w>, Error>
    ensures { IfOk result (λ task. workers_of task.way ≤ 8) }
{
    let matches = command(alloc)?.try_get_matches_from(words)?;
    if let Some(run) = matches.subcommand_matches("run") {
        return Ok(run_task(run));
    }
    if let Some(explain) = matches.subcommand_matches("explain") {
        let options = ExplainOptions {
            form: form_of(explain),
            is_strict: explain.get_flag(STRICT),
            is_whole: is_whole(explain),
            is_colored: is_colored(explain, colors.output),
        };
        let explaining = Explaining {
            options,
            depth: explain.get_one::<u32>(STATES).unwrap_or(DEPTH),
            page: explain.get_str(PAGE),
        };
        return Ok(task_on(Way::Explain(explaining), explain));
    }
    if let Some(check) = matches.subcommand_matches("check") {
        return Ok(task_on(Way::Check(check_form_of(check, colors.errors)), check));
    }
    if let Some(draw) = matches.subcommand_matches("draw") {
        return Ok(draw_task(draw, signature)?);
    }
    match matches.subcommand_matches("plain") {
        Some(plain) => Ok(task_on(Way::Plain, plain)),
        None => Ok(Task {
            way: Way::Plain,
            file: None,
        }),
    }
}

/// The run for which the words after `run` ask.
fn run_task<'w>(matches: &ArgMatches<'w>) -> Task<'w>
    ensures { workers_of result.way ≤ 8 }
{
    let options = RunOptions {
        workers: workers_in(matches),
        is_quiet: matches.get_flag(QUIET),
        explanation: matches.get_str(EXPLANATION),
        views: views_of(matches),
    };
    task_on(Way::Run(options), matches)
}

/// The number of progress threads that the words after a subcommand name.
pub(crate) fn workers_in(matches: &ArgMatches<'_>) -> u8
    ensures { result ≤ 8 }
{
    matches
        .get_one::<u8>(WORKERS)
        .unwrap_or(DEFAULT_WORKERS)
        .min(MAX_WORKERS)
}

/// The task with the file that the words after a subcommand name.
pub(crate) fn task_on<'w>(way: Way<'w>, matches: &ArgMatches<'w>) -> Task<'w>
    ensures { result.way ≡ way.entry }
{
    Task {
        way,
        file: file_of(matches),
    }
}

/// Whether the words after a subcommand ask for all ranks that wait.
pub(crate) fn is_whole(matches: &ArgMatches<'_>) -> bool {
    matches.get_flag(ALL)
}

/// The form that the words after `check` name.
fn check_form_of(matches: &ArgMatches<'_>, takes_colors: bool) -> CheckForm {
    if matches.get_str(FORM) == Some("json") {
        return CheckForm::Json;
    }
    CheckForm::Text {
        is_colored: is_colored(matches, takes_colors),
    }
}

/// Whether colours are wanted, on a stream that takes them or doesn't.
fn is_colored(matches: &ArgMatches<'_>, takes_colors: bool) -> bool {
    match matches.get_str(COLOR) {
        Some("always") => true,
        Some("never") => false,
        _ => takes_colors,
    }
}

/// The form that the words after `explain` name.
fn form_of(matches: &ArgMatches<'_>) -> Form {
    match matches.get_str(FORM) {
        Some("json") => Form::Json,
        Some("dot") => Form::Dot,
        _ => Form::Text,
    }
}

/// The file that the words after a subcommand name.
fn file_of<'w>(matches: &ArgMatches<'w>) -> Option<&'w str> {
    match matches.get_str(FILE) {
        Some("-") | None => None,
        file => file,
    }
}
