//! The words after `draw`.

ghost use Rattle.std.specs.Prelude.{◌≤◌, IfOk};
ghost use Rattle.coll_job.specs.Tasks.{workers_of};

use crate::drawing::{DrawForm, DrawingTask};
use crate::task::{Explaining, Task, Way};
use crate::words::{all_ranks, is_whole, task_on, text_file, workers_argument, workers_in};
use clap::builder::ValueParser;
use clap::{Arg, ArgAction, ArgMatches, Command};
use coll_diagnosis::{ExplainOptions, Form};
use coll_witness::DEPTH;
use std::alloc::{AllocError, Global};

const SIGNATURE: &str = "signature";

const MEMBERS: &str = "members";

const MAX_MEMBERS: u8 = 64;

const SVG: &str = "svg";

const DOT: &str = "dot";

const OUT: &str = "out";

/// The command that draws a collective, with subcommands that draw a run or waits.
pub(crate) fn draw_command<'a>(alloc: Global) -> Result<Command<'a>, AllocError> {
    let signature = Arg::new(alloc, SIGNATURE)
        .value_name("SIGNATURE")
        .required(true)
        .num_args(1..)
        .action(ArgAction::Append)
        .help(
            "A collective as after `post C` in a job text, with quotes or without: allreduce sum i32 1",
        );
    let members = Arg::new(alloc, MEMBERS)
        .long("members")
        .value_name("N")
        .value_parser(ValueParser::unsigned(1, u64::from(MAX_MEMBERS)))
        .required(true)
        .help("How many members there are, 1 to 64");
    let svg = Arg::new(alloc, SVG)
        .long("svg")
        .action(ArgAction::SetTrue)
        .help("Draws a vector picture in place of lines");
    Command::new(alloc, "draw")
        .about(
            "Draws the schedules of a collective: who sends what to whom in which round, and where it is combined; or a run, or waits",
        )
        .subcommand_negates_reqs(true)
        .args_conflicts_with_subcommands(true)
        .arg(signature)?
        .arg(members)?
        .arg(svg)?
        .arg(out_file(alloc))?
        .subcommand(draw_run_command(alloc)?)?
        .subcommand(draw_waits_command(alloc)?)
}

fn draw_run_command<'a>(alloc: Global) -> Result<Command<'a>, AllocError> {
    Command::new(alloc, "run")
        .about(
            "Draws what a run of a job text did: a column for each rank, with a bar from each post or start to its completion",
        )
        .arg(workers_argument(alloc))?
        .arg(out_file(alloc))?
        .arg(text_file(alloc))
}

fn draw_waits_command<'a>(alloc: Global) -> Result<Command<'a>, AllocError> {
    let dot = Arg::new(alloc, DOT)
        .long(DOT)
        .action(ArgAction::SetTrue)
        .help("Draws a graph in the DOT language, which Graphviz reads, in place of lines");
    Command::new(alloc, "waits")
        .about("Draws who waits for whom in a job that can deadlock, as `explain` reports it")
        .arg(dot)?
        .arg(all_ranks(alloc))?
        .arg(text_file(alloc))
}

/// The argument that names the file of a drawing.
fn out_file<'a>(alloc: Global) -> Arg<'a> {
    Arg::new(alloc, OUT)
        .long(OUT)
        .value_name("OUT")
        .help("Writes to the file OUT, all of it or nothing")
}

/// The task for the words after `draw`: to draw a run, waits, or else a collective, whose words are joined in `signature`.
pub(crate) fn draw_task<'w>(
    matches: &ArgMatches<'w>,
    signature: &'w mut String,
) -> Result<Task<'w>, AllocError>
    ensures { IfOk result (λ task. workers_of task.way ≤ 8) }
{
    if let Some(run) = matches.subcommand_matches("run") {
        let way = Way::DrawRun {
            workers: workers_in(run),
            file: run.get_str(OUT),
        };
        return Ok(task_on(way, run));
    }
    if let Some(waits) = matches.subcommand_matches("waits") {
        return Ok(task_on(Way::Explain(waits_options(waits)), waits));
    }
    join(matches.get_strs(SIGNATURE), signature)?;
    Ok(Task {
        way: Way::Draw(draft_of(matches, signature.as_str())),
        file: None,
    })
}

/// Joins words, with a space between each two.
fn join(words: Option<&[&str]>, joined: &mut String) -> Result<(), AllocError> {
    for word in words.unwrap_or(&[]) {
        if !joined.is_empty() {
            joined.push(' ')?;
        }
        joined.push_str(word)?;
    }
    Ok(())
}

/// How waits are drawn, by the words after `draw waits`.
fn waits_options<'w>(matches: &ArgMatches<'w>) -> Explaining<'w> {
    let form = if matches.get_flag(DOT) {
        Form::Dot
    } else {
        Form::Text
    };
    let options = ExplainOptions {
        form,
        is_strict: false,
        is_whole: is_whole(matches),
        is_colored: false,
    };
    Explaining {
        options,
        depth: DEPTH,
        page: None,
    }
}

/// How the collective with that signature is drawn, by the words after `draw`.
fn draft_of<'w>(matches: &ArgMatches<'w>, words: &'w str) -> DrawingTask<'w> {
    let form = if matches.get_flag(SVG) {
        DrawForm::Svg
    } else {
        DrawForm::Text
    };
    DrawingTask {
        words,
        members: matches.get_one::<u8>(MEMBERS).unwrap_or(1),
        form,
        file: matches.get_str(OUT),
    }
}
