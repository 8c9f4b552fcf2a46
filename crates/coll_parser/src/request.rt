ghost use Rattle.std.specs.Prelude.{◌≡◌, ◌≤◌, map, length, IfOk, OnOk};
ghost use Rattle.std.specs.List.{AllByRecursion};
ghost use Rattle.coll_parser.specs.Requests.{place_on, request, requests_after, started};
ghost use Rattle.coll_parser.specs.Code.{rows_view, request_view, ArePlaced, IsNamed};

use crate::command::Command;
use crate::communicators::group_of;
use crate::issued_command::IssuedCommand;
use coll_kinds::{Signature, member_of};
use std::alloc::{AllocError, Global};

/// A start of a request; a post is one.
#[derive(Clone, Copy, Debug)]
pub struct Start<'a> {
    /// The number of its line, from 1 on.
    pub line: u32,
    /// The bytes that the rank gives.
    pub given: &'a [u8],
}

/// A request of a rank.
#[derive(Debug, Drop)]
pub struct Request<'a> {
    /// The number, from 1 on, of the line that made it.
    pub line: u32,
    /// The communicator that it is on: 0 for that of all ranks, then in the order of the `comm` lines.
    pub comm: u8,
    /// Its index in the rank's posting list on the communicator: the number of requests that the rank made there before.
    pub place: usize,
    /// The rank's member number in the communicator, from 0 on.
    pub member: u8,
    /// The signature, with the mode.
    pub sig: Signature,
    /// Its starts, in the order of their lines.
    pub starts: Vec<Start<'a>>,
}

impl<'a> Request<'a> {
    /// The request that a line makes at that place of a communicator, without a start.
    fn new(
        alloc: Global,
        groups: &[Vec<u8>],
        issued: &IssuedCommand,
        comm: u8,
        place: usize,
        sig: Signature,
    ) -> Request<'a>
        requires { AllByRecursion (λ group. length group ≤ 64) (rows_view groups.now) }
        ensures { request_view result ≡ request (rows_view groups.now) issued.now.line issued.now.rank comm place sig }
    {
        let member = member_of(issued.rank, group_of(groups, comm)).unwrap_or(0) as u8;
        Request {
            line: issued.line,
            comm,
            place,
            member,
            sig,
            starts: Vec::new(alloc),
        }
    }

    /// A copy of the request. Linear in its starts.
    pub fn copied(&self, alloc: Global) -> Result<Request<'a>, AllocError>
        ensures { IfOk result (λ request. request_view request ≡ request_view self.now) }
    {
        Ok(Request {
            line: self.line,
            comm: self.comm,
            place: self.place,
            member: self.member,
            sig: self.sig,
            starts: Vec::from_slice(alloc, &self.starts)?,
        })
    }

    /// Adds a start in that line, with these bytes.
    fn start(&mut self, line: u32, given: &'a [u8]) -> Result<(), AllocError>
        ensures { OnOk result (request_view self.new ≡ started line given.now (request_view self.old)) }
    {
        self.starts.push(Start { line, given })?;
        Ok(())
    }
}

/// The place of the rank's next request on the communicator. Looks back to the last request there alone: for each communicator,
/// the cost of all places is linear in the rank's requests.
fn place_on(requests: &[Request], comm: u8) -> usize
    requires { ArePlaced (map request_view requests.now) }
    ensures { result ≡ place_on comm (map request_view requests.now) }
{
    for index in (0..requests.len()).rev() {
        let request = &requests[index];
        if request.comm == comm {
            return request.place + 1;
        }
    }
    0
}

/// Takes in what a line says about the requests of its rank. The cost is linear in the line, and that of a request is that of
/// its place.
pub(crate) fn note<'a>(
    alloc: Global,
    groups: &[Vec<u8>],
    issued: &'a IssuedCommand,
    requests: &mut Vec<Request<'a>>,
) -> Result<(), AllocError>
    requires groups { AllByRecursion (λ group. length group ≤ 64) (rows_view groups.now) }
    requires known { IsNamed (length requests.old.items) issued.now.command }
    requires placed { ArePlaced (map request_view requests.old.items) }
    ensures { OnOk result (map request_view requests.new.items
        ≡ requests_after (rows_view groups.now) issued.now.line issued.now.rank issued.now.command (map request_view requests.old.items)) }
{
    match &issued.command {
        Command::Post { comm, sig, given } => {
            let place = place_on(requests, *comm);
            let mut made = Request::new(alloc, groups, issued, *comm, place, *sig.sig());
            made.start(issued.line, given.as_slice())?;
            requests.push(made)?;
        }
        Command::Init { comm, sig } => {
            let place = place_on(requests, *comm);
            requests.push(Request::new(alloc, groups, issued, *comm, place, *sig.sig()))?;
        }
        Command::Start { req, given } => {
            requests[*req as usize].start(issued.line, given.as_slice())?
        }
        Command::Wait(_) => {}
        Command::Test(_) => {}
        Command::Free(_) => {}
        Command::WaitAny(_) => {}
        Command::WaitSome(_) => {}
        Command::WaitAll(_) => {}
    }
    Ok(())
}
