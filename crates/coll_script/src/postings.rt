//! The posting lists of communicators.

ghost use Rattle.std.specs.Prelude.{◌≡◌, ◌<◌, ◌≤◌, ℕ, length, map, slice_index, IfOk};
ghost use Rattle.std.specs.List.{AllByRecursion};
ghost use Rattle.coll_parser.specs.Code.{request_view, requests_view, rows_view};
ghost use Rattle.coll_script.specs.Postings.{posted_on, postings, postings_from};
ghost use Rattle.coll_script.specs.PostingViews.{list_view, lists_view, all_lists_view};

use coll_parser::Request;
use std::alloc::{AllocError, Global};

/// For each member of a communicator, in member order, its requests there in the order of their places.
pub(crate) type Postings<'a> = Vec<Vec<Request<'a>>>;

/// A rank's requests on a communicator, in their order. Linear in the requests and their starts.
fn posted_on<'a>(
    alloc: Global,
    requests: &[Request<'a>],
    comm: u8,
) -> Result<Vec<Request<'a>>, AllocError>
    ensures { IfOk result (λ list. list_view list.items ≡ posted_on comm (map request_view requests.now)) }
{
    let mut list = Vec::new(alloc);
    for request in requests {
        if request.comm == comm {
            list.push(request.copied(alloc)?)?;
        }
    }
    Ok(list)
}

/// The posting lists of the communicator with these members. Linear in the requests of the members.
fn postings<'a>(
    alloc: Global,
    ranks: &[Vec<Request<'a>>],
    comm: u8,
    group: &[u8],
) -> Result<Postings<'a>, AllocError>
    requires { (m : ℕ) → m < length group.now → slice_index group.now m < length ranks.now }
    ensures { IfOk result (λ lists. lists_view lists.items ≡ postings (requests_view ranks.now) comm group.now) }
{
    let mut lists = Vec::with_capacity(alloc, group.len())?;
    for rank in group {
        lists.push(posted_on(alloc, &ranks[usize::from(*rank)], comm)?)?;
    }
    Ok(lists)
}

/// The posting lists of all communicators. For each communicator linear in the requests.
pub(crate) fn all_postings<'a>(
    alloc: Global,
    ranks: &[Vec<Request<'a>>],
    groups: &[Vec<u8>],
) -> Result<Vec<Postings<'a>>, AllocError>
    requires few { length groups.now ≤ 16 }
    requires members { AllByRecursion (λ group. (m : ℕ) → m < length group → slice_index group m < length ranks.now) (rows_view groups.now) }
    ensures { IfOk result (λ all. all_lists_view all.items ≡ postings_from (requests_view ranks.now) 0 (rows_view groups.now)) }
{
    let mut all = Vec::with_capacity(alloc, groups.len())?;
    for (comm, group) in groups.iter().enumerate() {
        all.push(postings(alloc, ranks, comm as u8, group)?)?;
    }
    Ok(all)
}
