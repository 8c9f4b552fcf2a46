//! Prints the lines of a rank, with what its completions handed out.

ghost use Rattle.std.specs.Prelude.{◌≡◌, ◌≤◌, ◌++◌, [], length, map, unwrap_or, None, IfErr, OnOk};
ghost use Rattle.std.specs.List.{AllByRecursion};
ghost use Rattle.coll_parser.specs.Code.{request_view};
ghost use Rattle.coll_script.specs.Meaning.{outcome_line};
ghost use Rattle.coll_run.specs.Index.{IsFew, handed_at, handed_in};
ghost use Rattle.coll_run.specs.Lines.{told_behind, told_request};
ghost use Rattle.coll_run.specs.Missing.{Lacks, LacksStart};

use crate::index::{Completion, find};
use coll_kinds::{MAX_COMMUNICATORS, Signature};
use coll_parser::Request;
use coll_script::{ReportFault, print_outcome};
use std::alloc::Global;
use std::collections::HashMap;

/// Appends the lines of a rank. A request's place is the number of the rank's requests on the same communicator before
/// it.
pub(crate) fn print_rank(
    alloc: Global,
    rank: u8,
    requests: &[Request],
    index: &HashMap<Completion, &[u8]>,
    out: &mut Vec<u8>,
) -> Result<(), ReportFault>
    requires few { length requests.now ≤ 4096 }
    requires each { AllByRecursion IsFew (map request_view requests.now) }
    ensures ok { OnOk result (out.new.items
        ≡ out.old.items ++ told_behind (handed_in index.now.entries) rank [] (map request_view requests.now)) }
    ensures torn { IfErr result (λ fault. fault ≡ ReportFault.Torn
        → Lacks (handed_in index.now.entries) rank (map request_view requests.now)) }
{
    let mut places = [0; MAX_COMMUNICATORS];
    for (number, request) in requests.iter().enumerate() {
        let comm = usize::from(request.comm);
        let place: u32 = places[comm];
        print_request(alloc, rank, number as u32, place, request, index, out)?;
        places[comm] = place + 1;
    }
    Ok(())
}

/// Appends the lines of the starts of a request.
fn print_request(
    alloc: Global,
    rank: u8,
    number: u32,
    place: u32,
    request: &Request,
    index: &HashMap<Completion, &[u8]>,
    out: &mut Vec<u8>,
) -> Result<(), ReportFault>
    requires { IsFew (request_view request.now) }
    ensures ok { OnOk result (out.new.items
        ≡ out.old.items ++ told_request (handed_in index.now.entries) rank number place (request_view request.now)) }
    ensures torn { IfErr result (λ fault. fault ≡ ReportFault.Torn
        → LacksStart (handed_in index.now.entries) rank place (request_view request.now)) }
{
    let comm = u32::from(request.comm);
    for start in 0..request.starts.len() {
        let completion = Completion {
            rank,
            comm,
            place,
            start: start as u32,
        };
        print_start(alloc, number, request.sig, completion, index, out)?;
    }
    Ok(())
}

/// Appends the line of a start.
fn print_start(
    alloc: Global,
    number: u32,
    sig: Signature,
    completion: Completion,
    index: &HashMap<Completion, &[u8]>,
    out: &mut Vec<u8>,
) -> Result<(), ReportFault>
    ensures ok { OnOk result (out.new.items ≡ out.old.items
        ++ outcome_line completion.rank number completion.start sig.ty
        (unwrap_or (handed_at index.now.entries completion) [])) }
    ensures torn { IfErr result (λ fault. fault ≡ ReportFault.Torn → handed_at index.now.entries completion ≡ None) }
{
    let Some(bytes) = find(index, completion) else {
        return Err(ReportFault::Torn);
    };
    let (rank, start) = (completion.rank, completion.start);
    match print_outcome(alloc, rank, number, start, sig, bytes, out) {
        Ok(()) => Ok(()),
        Err(_) => Err(ReportFault::NoMemory),
    }
}
