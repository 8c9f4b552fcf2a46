ghost use Rattle.std.specs.Prelude.{◌≡◌, ◌≤◌, ◌*◌, length, count_by, is_some};
ghost use Rattle.coll_parser.specs.Histories.{posting, is_start};
ghost use Rattle.coll_script.specs.Configs.{sizes_of};

use coll_parser::IssuedCommand;

/// The size of an engine for a job, beside its ranks and its communicators.
#[derive(Clone, Copy, Debug, PartialEq, Eq)]
pub struct Sizes {
    /// The greatest number of live requests at one time.
    pub slots: u32,
    /// The greatest number of posts and initialisations of one member on one communicator.
    pub places: u32,
    /// The number of requests to which one slot is given, one after the other.
    pub wear: u32,
    /// The greatest number of starts of one request.
    pub starts: u32,
    /// The greatest number of entries of the trace.
    pub trace: u32,
}

/// The sizes that these commands need. Linear in the commands.
pub(crate) fn sizes_of(issued: &[IssuedCommand]) -> Sizes
    requires { length issued.now ≤ 1048577 }
    ensures { result ≡ sizes_of issued.now }
{
    let made = made(issued);
    let begun = made + started(issued);
    Sizes {
        slots: made.max(1),
        places: made.max(1),
        wear: u32::MAX,
        starts: 1_048_576,
        trace: (2 * begun).max(2),
    }
}

/// The number of requests that the commands make.
fn made(issued: &[IssuedCommand]) -> u32
    requires { length issued.now ≤ 1048577 }
    ensures count { result ≡ count_by (λ t. is_some (posting t.command)) issued.now }
    ensures few { result ≤ 1048577 }
{
    issued
        .iter()
        .filter(|issued| issued.command.is_posting())
        .count() as u32
}

/// The number of starts among the commands.
fn started(issued: &[IssuedCommand]) -> u32
    requires { length issued.now ≤ 1048577 }
    ensures count { result ≡ count_by (λ t. is_start t.command) issued.now }
    ensures few { result ≤ 1048577 }
{
    issued
        .iter()
        .filter(|issued| issued.command.is_start())
        .count() as u32
}
