//! Prints the lines of the requests, from their values.

ghost use Rattle.coll_kinds.specs.Limits.{max_communicators};
ghost use Rattle.std.specs.Prelude.{◌≡◌, ◌<◌, ◌≤◌, ◌++◌, length, [], map, OnOk, IsOkUnless};
ghost use Rattle.std.specs.List.{AllByRecursion};
ghost use Rattle.coll_parser.specs.Code.{request_view};
ghost use Rattle.coll_script.specs.Outcomes.{place_view, values_view};
ghost use Rattle.coll_script.specs.Prints.{printed_request, printed_behind, HaveValues};

use crate::outcome::print_outcome;
use crate::values::MemberValues;
use coll_kinds::{MAX_COMMUNICATORS, Refusal};
use coll_parser::Request;
use std::alloc::Global;

/// Appends the lines of a rank. The values are by communicator, place, start and member. A request's place is the number of the
/// rank's requests on the same communicator before it. Linear in the output.
pub(crate) fn print_rank(
    alloc: Global,
    rank: u8,
    requests: &[Request],
    values: &[Vec<Vec<MemberValues>>],
    out: &mut Vec<u8>,
) -> Result<(), Refusal>
    requires groups { length values.now ≤ max_communicators }
    requires few { length requests.now ≤ 4096 }
    requires values { HaveValues (values_view values.now) (map request_view requests.now) }
    ensures ok { OnOk result (out.new.items ≡ out.old.items ++ printed_behind (values_view values.now) rank [] (map request_view requests.now)) }
    ensures refusal { IsOkUnless result Refusal.NoMemory }
{
    let mut places = [0; MAX_COMMUNICATORS];
    for (number, request) in requests.iter().enumerate() {
        let comm = usize::from(request.comm);
        let place: usize = places[comm];
        print_request(
            alloc,
            rank,
            number as u32,
            request,
            &values[comm][place],
            out,
        )?;
        places[comm] = place + 1;
    }
    Ok(())
}

/// Appends the lines of a request. The values are those of all members at each start.
fn print_request(
    alloc: Global,
    rank: u8,
    number: u32,
    request: &Request,
    starts: &[MemberValues],
    out: &mut Vec<u8>,
) -> Result<(), Refusal>
    requires few { length starts.now ≤ 4294967295 }
    requires members { AllByRecursion (λ rows. request.now.member < length rows) (place_view starts.now) }
    ensures ok { OnOk result (out.new.items ≡ out.old.items ++ printed_request rank number (request_view request.now) (place_view starts.now)) }
    ensures refusal { IsOkUnless result Refusal.NoMemory }
{
    for (start, rows) in starts.iter().enumerate() {
        let value = rows.of(usize::from(request.member));
        print_outcome(alloc, rank, number, start as u32, request.sig, value, out)?;
    }
    Ok(())
}
