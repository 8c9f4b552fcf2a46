//! Whether the members of all collectives have something to give.

ghost use Rattle.std.specs.Prelude.{◌≡◌, nat_lt, slice_get};
ghost use Rattle.std.specs.List.{list_all, range_with_len};
ghost use Rattle.coll_kinds.specs.Checks.{is_barrier};
ghost use Rattle.coll_kinds.specs.Lengths.{count_at};
ghost use Rattle.coll_verdict.specs.Checking.{all_issue, gives_at, issues_at, size_at};
ghost use Rattle.coll_verdict.specs.Stalls.{has_elements};

use crate::library::Library;
use coll_kinds::{Kind, Signature};
use coll_parser::{Command, IssuedCommand};

/// Whether an empty contribution is waited for, or there is none.
pub(crate) fn all_issue(library: &Library, groups: &[Vec<u8>], commands: &[IssuedCommand]) -> bool
    ensures { result ≡ all_issue library.now groups.now commands.now }
{
    match library {
        Library::Any => all_give(groups, commands),
        Library::Hears(_) => true,
    }
}

/// Whether no contribution is empty, but to a barrier. Linear in the commands, and in the members of each allgatherv.
fn all_give(groups: &[Vec<u8>], commands: &[IssuedCommand]) -> bool
    ensures { result ≡ list_all (issues_at groups.now) commands.now }
{
    commands.iter().all(|issued| gives(groups, &issued.command))
}

fn gives(groups: &[Vec<u8>], command: &Command) -> bool
    ensures { result ≡ gives_at groups.now command.now }
{
    match command {
        Command::Post { comm, sig, .. } => has_elements(sig.sig(), size_of(groups, *comm)),
        Command::Init { comm, sig } => has_elements(sig.sig(), size_of(groups, *comm)),
        Command::Start { .. } | Command::Wait(_) | Command::Test(_) | Command::Free(_) => true,
        Command::WaitAny(_) | Command::WaitSome(_) | Command::WaitAll(_) => true,
    }
}

fn size_of(groups: &[Vec<u8>], comm: u8) -> usize
    ensures { result ≡ size_at (slice_get groups.now comm) }
{
    match groups.get(comm as usize) {
        Some(group) => group.len(),
        None => 0,
    }
}

/// Whether each of `n` members from whom others may need something has elements to give.
fn has_elements(sig: &Signature, n: usize) -> bool
    ensures { result ≡ has_elements sig.now n }
{
    if sig.kind.has_counts() {
        all_rows(sig, n)
    } else {
        is_barrier(sig.kind) || sig.count > 0
    }
}

fn is_barrier(kind: Kind) -> bool
    ensures { result ≡ is_barrier kind }
{
    matches!(kind, Kind::Barrier)
}

fn all_rows(sig: &Signature, n: usize) -> bool
    ensures { result ≡ list_all (λ i. nat_lt 0 (count_at sig.now.each i)) (range_with_len 0 n) }
{
    (0..n).all(|i| has_row(sig, i))
}

fn has_row(sig: &Signature, i: usize) -> bool
    ensures { result ≡ nat_lt 0 (count_at sig.now.each i) }
{
    match &sig.each {
        Some(counts) => match counts.get(i) {
            Some(count) => *count > 0,
            None => false,
        },
        None => false,
    }
}
