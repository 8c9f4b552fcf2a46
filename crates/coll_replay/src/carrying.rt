//! Each command of a rank as calls on a core.

ghost use Rattle.std.specs.Prelude.{◌≡◌, IfOk, IfSome, IsTrue};
ghost use Rattle.coll_replay.specs.Calls.{CarriesOut};
ghost use Rattle.coll_kinds.specs.Groups.{is_among};
ghost use Rattle.coll_replay.specs.Playing.{holding};
ghost use Rattle.coll_parser.specs.declared.command.Command.TheVariants.{Post, Init, Start, Wait, Test, Free, WaitAny, WaitSome, WaitAll};

use crate::completing::{complete, surveyed, sweep};
use crate::player::{held_at, hold, kept};
use coll_core::{Contribution, Core, Offer};
use coll_kinds::{MAX_RANKS, Refusal, Signature, Ticket, member_of};
use coll_parser::{Command, Named};
use coll_plans::{Plan, plan};
use std::alloc::Global;

/// Carries a command of a rank out. Returns whether the call returned: if it didn't, or was refused, the core is of no use for this
/// replay any longer. At a `waitany` with an active request, the rank takes the request of that number.
pub(crate) fn carry_out(
    alloc: Global,
    core: &mut Core,
    groups: &[Vec<u8>],
    rank: u8,
    command: &Command,
    held: &mut Vec<Option<Ticket>>,
    takes: Option<u32>,
) -> Result<bool, Refusal>
    ensures { IfOk result (λ is_done. IsTrue is_done → CarriesOut core.old core.new rank command.now (holding held.old.items) (holding held.new.items)) }
{
    match command {
        Command::Post { comm, sig, given } => {
            post(
                alloc,
                core,
                groups,
                rank,
                *comm,
                sig.sig(),
                given.as_slice(),
                held,
            )
        }
        Command::Init { comm, sig } => init(alloc, core, groups, rank, *comm, sig.sig(), held),
        Command::Start { req, given } => {
            start(
                alloc,
                core,
                rank,
                *req as usize,
                given.as_slice(),
                held.as_slice(),
            )
        }
        Command::Free(req) => free(core, rank, *req as usize, held.as_mut_slice()),
        Command::Wait(req) => wait(core, rank, *req, held.as_mut_slice()),
        Command::Test(req) => test(core, rank, *req, held.as_mut_slice()),
        Command::WaitAll(named) => wait_all(core, rank, named, held.as_mut_slice()),
        Command::WaitSome(named) => wait_some(core, rank, named, held.as_mut_slice()),
        Command::WaitAny(named) => wait_any(core, rank, named, held.as_mut_slice(), takes),
    }
}

/// The plan of a rank's part in a collective; None if the rank isn't a member.
fn plan_of(
    alloc: Global,
    groups: &[Vec<u8>],
    rank: u8,
    comm: u8,
    sig: &Signature,
) -> Result<Option<Plan>, Refusal>
    ensures { IfOk result (λ found. IfSome found (λ plan. plan.sig ≡ sig.now)) }
{
    let Some(group) = groups.get(usize::from(comm)) else {
        return Ok(None);
    };
    let Some(member) = member_of(rank, group) else {
        return Ok(None);
    };
    if group.len() > MAX_RANKS || member >= group.len() {
        return Ok(None);
    }
    let made = plan(alloc, *sig, group.len() as u8, member as u8)?;
    Ok(Some(made))
}

fn post(
    alloc: Global,
    core: &mut Core,
    groups: &[Vec<u8>],
    rank: u8,
    comm: u8,
    sig: &Signature,
    given: &[u8],
    held: &mut Vec<Option<Ticket>>,
) -> Result<bool, Refusal>
    ensures { IfOk result
        (λ is_done. IsTrue is_done → CarriesOut core.old core.new rank (Post comm sig.now given.now) (holding held.old.items) (holding held.new.items)) }
{
    let Some(plan) = plan_of(alloc, groups, rank, comm, sig)? else {
        return Ok(false);
    };
    let bytes = Contribution::copy(alloc, given)?;
    match core.post(rank, u32::from(comm), Offer { plan, bytes }) {
        Ok(ticket) => {
            held.push(Some(ticket))?;
            Ok(true)
        }
        Err(_) => Ok(false),
    }
}

fn init(
    alloc: Global,
    core: &mut Core,
    groups: &[Vec<u8>],
    rank: u8,
    comm: u8,
    sig: &Signature,
    held: &mut Vec<Option<Ticket>>,
) -> Result<bool, Refusal>
    ensures { IfOk result
        (λ is_done. IsTrue is_done → CarriesOut core.old core.new rank (Init comm sig.now) (holding held.old.items) (holding held.new.items)) }
{
    let Some(plan) = plan_of(alloc, groups, rank, comm, sig)? else {
        return Ok(false);
    };
    match core.init(rank, u32::from(comm), plan) {
        Ok(ticket) => {
            held.push(Some(ticket))?;
            Ok(true)
        }
        Err(_) => Ok(false),
    }
}

fn start(
    alloc: Global,
    core: &mut Core,
    rank: u8,
    q: usize,
    given: &[u8],
    held: &[Option<Ticket>],
) -> Result<bool, Refusal>
    ensures { IfOk result (λ is_done. IsTrue is_done → CarriesOut core.old core.new rank (Start q given.now) (holding held.now) (holding held.now)) }
{
    let Some(ticket) = held_at(held, q) else {
        return Ok(false);
    };
    let bytes = Contribution::copy(alloc, given)?;
    match core.start(rank, ticket, bytes) {
        Ok(()) => Ok(true),
        Err(_) => Ok(false),
    }
}

fn free(core: &mut Core, rank: u8, q: usize, held: &mut [Option<Ticket>]) -> Result<bool, Refusal>
    ensures { IfOk result (λ is_done. IsTrue is_done → CarriesOut core.old core.new rank (Free q) (holding held.old) (holding held.new)) }
{
    let Some(ticket) = held_at(held, q) else {
        return Ok(false);
    };
    match core.free(rank, ticket) {
        Ok(()) => {
            let left = kept(core, ticket);
            Ok(hold(held, q, left))
        }
        Err(_) => Ok(false),
    }
}

fn wait(core: &mut Core, rank: u8, q: u32, held: &mut [Option<Ticket>]) -> Result<bool, Refusal>
    ensures { IfOk result (λ is_done. IsTrue is_done → CarriesOut core.old core.new rank (Wait q) (holding held.old) (holding held.new)) }
{
    let named = Named::one(q);
    match sweep(core, rank, held, &named)? {
        Some(before) => Ok(!before.has_pending),
        None => Ok(false),
    }
}

fn test(core: &mut Core, rank: u8, q: u32, held: &mut [Option<Ticket>]) -> Result<bool, Refusal>
    ensures { IfOk result (λ is_done. IsTrue is_done → CarriesOut core.old core.new rank (Test q) (holding held.old) (holding held.new)) }
{
    let named = Named::one(q);
    match sweep(core, rank, held, &named)? {
        Some(_) => Ok(true),
        None => Ok(false),
    }
}

fn wait_all(
    core: &mut Core,
    rank: u8,
    named: &Named,
    held: &mut [Option<Ticket>],
) -> Result<bool, Refusal>
    ensures { IfOk result (λ is_done. IsTrue is_done → CarriesOut core.old core.new rank (WaitAll named.now) (holding held.old) (holding held.new)) }
{
    match sweep(core, rank, held, named)? {
        Some(before) => Ok(!before.has_pending),
        None => Ok(false),
    }
}

fn wait_some(
    core: &mut Core,
    rank: u8,
    named: &Named,
    held: &mut [Option<Ticket>],
) -> Result<bool, Refusal>
    ensures { IfOk result (λ is_done. IsTrue is_done → CarriesOut core.old core.new rank (WaitSome named.now) (holding held.old) (holding held.new)) }
{
    match sweep(core, rank, held, named)? {
        Some(before) => Ok(before.has_done || !before.has_active),
        None => Ok(false),
    }
}

fn wait_any(
    core: &mut Core,
    rank: u8,
    named: &Named,
    held: &mut [Option<Ticket>],
    takes: Option<u32>,
) -> Result<bool, Refusal>
    ensures { IfOk result (λ is_done. IsTrue is_done → CarriesOut core.old core.new rank (WaitAny named.now) (holding held.old) (holding held.new)) }
{
    match takes {
        Some(request) => take(core, rank, named, held, request as usize),
        None => {
            let found = surveyed(core, rank, held, named)?;
            Ok(!found.has_active)
        }
    }
}

/// Takes that request at a `waitany`.
fn take(
    core: &mut Core,
    rank: u8,
    named: &Named,
    held: &mut [Option<Ticket>],
    q: usize,
) -> Result<bool, Refusal>
    ensures { IfOk result (λ is_done. IsTrue is_done → CarriesOut core.old core.new rank (WaitAny named.now) (holding held.old) (holding held.new)) }
{
    if !names(named, q) {
        return Ok(false);
    }
    complete(core, rank, held, q)
}

fn names(named: &Named, q: usize) -> bool
    ensures { result ≡ is_among q named.now }
{
    let mut is_found = false;
    for index in 0..named.len() {
        is_found = is_found || named.get(index) == q;
    }
    is_found
}
