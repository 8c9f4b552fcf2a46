ghost use Rattle.std.specs.Prelude.{◌≡◌, ◌==◌, ◌∷◌, ◌++◌, [], false, count_by, IsTrue, IfOk, IfSome, OnOk};
ghost use Rattle.coll_verdict.specs.Checking.{late_at};
ghost use Rattle.coll_verdict.specs.Code.{IsSketch};
ghost use Rattle.coll_verdict.specs.Sketches.{Sketch, sketched, starting, naming, resting, sketch_at};

use coll_kinds::Signature;
use coll_parser::{Command, Named};
use std::alloc::{AllocError, Global};

/// What the commands of a rank say of a request.
#[derive(Debug, Drop)]
pub struct KnownRequest {
    pub comm: u8,
    /// How many requests the rank made on the communicator before.
    pub place: usize,
    pub sig: Signature,
    /// How often it was started; a post is a start.
    pub starts: usize,
    /// Whether a `wait` or a `waitall` has named it since.
    pub is_rested: bool,
    /// Whether any call that completes requests has named it since.
    pub is_named: bool,
}

impl KnownRequest {
    /// Whether this isn't a request at that place, or was not started so often.
    pub(crate) fn is_late(&self, comm: u8, place: usize, starts: usize) -> bool
        ensures { result ≡ late_at comm place starts self.now }
    {
        if self.comm == comm && self.place == place {
            self.starts < starts
        } else {
            true
        }
    }
}

/// What the first `stand` of a rank's commands say of its requests, in the order in which they are made; none where they
/// aren't that many, or start a request that isn't made. For each request the cost is linear in those made before.
pub fn known_requests(
    alloc: Global,
    commands: &[Command],
    stand: usize,
) -> Result<Option<Vec<KnownRequest>>, AllocError>
    ensures { IfOk result (λ found. IfSome found (λ requests. IsSketch requests.items (sketch_at commands.now stand))) }
{
    let mut requests = Vec::new(alloc);
    for index in 0..stand {
        let Some(command) = commands.get(index) else {
            return Ok(None);
        };
        if !note(&mut requests, command)? {
            return Ok(None);
        }
    }
    Ok(Some(requests))
}

/// Takes in what one more command says. Returns whether the request that it starts was made.
pub(crate) fn note(requests: &mut Vec<KnownRequest>, command: &Command) -> Result<bool, AllocError>
    ensures { IfOk result (λ is_known. IsTrue is_known → (k : Sketch) → IsSketch requests.old.items k → IsSketch requests.new.items (sketched command.now k)) }
{
    match command {
        Command::Post { comm, sig, .. } => make(requests, *comm, *sig.sig(), 1)?,
        Command::Init { comm, sig } => make(requests, *comm, *sig.sig(), 0)?,
        Command::Start { req, .. } => return Ok(start(requests, *req as usize)),
        Command::Wait(q) => rest(requests, *q as usize),
        Command::WaitAll(named) => rest_all(requests, named),
        Command::Test(q) => name(requests, *q as usize),
        Command::WaitAny(named) => name_all(requests, named),
        Command::WaitSome(named) => name_all(requests, named),
        Command::Free(_) => {}
    }
    Ok(true)
}

/// Notes a request that is made.
fn make(
    requests: &mut Vec<KnownRequest>,
    comm: u8,
    sig: Signature,
    starts: usize,
) -> Result<(), AllocError>
    ensures { OnOk result (requests.new.items ≡ requests.old.items
        ++ record { comm = comm; place = count_by (λ x. x.comm == comm) requests.old.items; sig = sig; starts = starts; is_rested = false; is_named = false }
        ∷ []) }
{
    let place = place_on(requests, comm);
    requests.push(KnownRequest {
        comm,
        place,
        sig,
        starts,
        is_rested: false,
        is_named: false,
    })?;
    Ok(())
}

/// How many of the requests are on the communicator.
pub(crate) fn place_on(requests: &[KnownRequest], comm: u8) -> usize
    ensures { result ≡ count_by (λ x. x.comm == comm) requests.now }
{
    requests
        .iter()
        .filter(|request| request.comm == comm)
        .count()
}

/// Notes a start of a request. Returns whether there is one of that number.
fn start(requests: &mut Vec<KnownRequest>, q: usize) -> bool
    ensures { IsTrue result → (k : Sketch) → IsSketch requests.old.items k → IsSketch requests.new.items (starting k q) }
{
    if q >= requests.len() {
        return false;
    }
    let request = &mut requests[q];
    if request.starts == usize::MAX {
        return false;
    }
    request.starts += 1;
    request.is_rested = false;
    request.is_named = false;
    true
}

/// Notes that a request has been waited for.
fn rest(requests: &mut Vec<KnownRequest>, q: usize)
    ensures { (k : Sketch) → IsSketch requests.old.items k → IsSketch requests.new.items (resting k (q ∷ [])) }
{
    if q < requests.len() {
        let request = &mut requests[q];
        request.is_rested = true;
        request.is_named = true;
    }
}

/// Notes that these requests have been waited for, one after another.
fn rest_all(requests: &mut Vec<KnownRequest>, named: &Named)
    ensures { (k : Sketch) → IsSketch requests.old.items k → IsSketch requests.new.items (resting k named.now) }
{
    for index in 0..named.len() {
        rest(requests, named.get(index));
    }
}

/// Notes that a call which completes requests has named this one.
fn name(requests: &mut Vec<KnownRequest>, q: usize)
    ensures { (k : Sketch) → IsSketch requests.old.items k → IsSketch requests.new.items (naming k (q ∷ [])) }
{
    if q < requests.len() {
        let request = &mut requests[q];
        request.is_named = true;
    }
}

/// Notes that a call which completes requests has named these, one after another.
fn name_all(requests: &mut Vec<KnownRequest>, named: &Named)
    ensures { (k : Sketch) → IsSketch requests.old.items k → IsSketch requests.new.items (naming k named.now) }
{
    for index in 0..named.len() {
        name(requests, named.get(index));
    }
}
