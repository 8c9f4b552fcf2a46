//! The words that ask `run` for files on what it did.

ghost use Rattle.std.specs.Prelude.{◌≡◌};
ghost use Rattle.coll_job.specs.Pages.{are_wanted};

use clap::builder::ValueParser;
use clap::{Arg, ArgMatches, Command};
use std::alloc::{AllocError, Global};

/// The files that get what a run did, each if it is named.
#[derive(Clone, Copy, Debug, PartialEq, Eq)]
pub struct Views<'w> {
    /// The file of the trace's entries, one in each line.
    pub trace: Option<&'w str>,
    /// The file of the tables by rank and by collective.
    pub stats: Option<&'w str>,
    /// The file of the timeline, in the JSON format of trace events.
    pub timeline: Option<&'w str>,
    /// The file of the picture with a column for each rank.
    pub picture: Option<&'w str>,
    /// The file of the page for a browser.
    pub page: Option<&'w str>,
    /// The file of the outcomes.
    pub outcomes: Option<&'w str>,
    /// How the outcomes are written.
    pub form: OutcomeForm,
}

/// How outcomes are written to a file.
#[derive(Clone, Copy, Debug, PartialEq, Eq)]
pub enum OutcomeForm {
    /// As on standard output.
    Text,
    /// An object in each line.
    Json,
}

const TRACE: &str = "trace";

const STATS: &str = "stats";

const TIMELINE: &str = "timeline";

const PICTURE: &str = "picture";

pub(crate) const PAGE: &str = "html";

const OUT: &str = "out";

const OUT_FORM: &str = "format";

static OUT_FORMS: [&str; 2] = ["text", "json"];

impl<'w> Views<'w> {
    /// Whether some file is named.
    pub fn are_wanted(&self) -> bool
        ensures { result ≡ are_wanted self.now }
    {
        self.trace.is_some()
            || self.stats.is_some()
            || self.timeline.is_some()
            || self.picture.is_some()
            || self.page.is_some()
            || self.outcomes.is_some()
    }
}

/// The text below the help of `run`.
const WHEN: &str = "\
Each file is written whole or not at all. Those of --trace, --stats, --timeline, --picture, --html and --out are written where the
run ends well, before standard output; where one of them can't be written, standard output stays empty. Where the run deadlocks,
the page of --html shows why.";

/// The command, with the arguments of these files added.
pub(crate) fn with_views<'a>(
    alloc: Global,
    command: Command<'a>,
) -> Result<Command<'a>, AllocError> {
    let form = Arg::new(alloc, OUT_FORM)
        .long("format")
        .value_name("FORMAT")
        .value_parser(ValueParser::Names(&OUT_FORMS))
        .requires_arg(OUT)?
        .help(
            "How the file of --out is written: text as standard output, or json with an object in each line; text where it isn't said",
        );
    command
        .after_help(WHEN)
        .arg(file(
            alloc,
            TRACE,
            "Writes each accepted call to the file OUT, in one order, with its line in the job text",
        ))?
        .arg(file(
            alloc,
            STATS,
            "Writes to the file OUT what each rank and each collective posted, gave, got and sent",
        ))?
        .arg(file(
            alloc,
            TIMELINE,
            "Writes to the file OUT when each collective was under way, as trace events that Perfetto opens",
        ))?
        .arg(file(
            alloc,
            PICTURE,
            "Draws to the file OUT a column for each rank, with a bar from each post or start to its completion",
        ))?
        .arg(page_argument(
            alloc,
            "Writes to the file OUT a page for a browser: the timeline and the tables, or, if the run deadlocks, why",
        ))?
        .arg(form)?
        .arg(
            Arg::new(alloc, OUT)
                .long("out")
                .value_name("OUT")
                .help("Writes the values to the file OUT too"),
        )
}

/// The argument that names the file of the page.
pub(crate) fn page_argument<'a>(alloc: Global, help: &'static str) -> Arg<'a> {
    file(alloc, PAGE, help)
}

/// An argument that names a file.
fn file<'a>(alloc: Global, name: &'static str, help: &'static str) -> Arg<'a> {
    Arg::new(alloc, name)
        .long(name)
        .value_name("OUT")
        .help(help)
}

/// The files that the words after `run` name.
pub(crate) fn views_of<'w>(run: &ArgMatches<'w>) -> Views<'w> {
    Views {
        trace: run.get_str(TRACE),
        stats: run.get_str(STATS),
        timeline: run.get_str(TIMELINE),
        picture: run.get_str(PICTURE),
        page: run.get_str(PAGE),
        outcomes: run.get_str(OUT),
        form: match run.get_str(OUT_FORM) {
            Some("json") => OutcomeForm::Json,
            _ => OutcomeForm::Text,
        },
    }
}
