//! An engine that makes the calls of rows.

ghost use Rattle.std.specs.Prelude.{◌≡◌};
ghost use Rattle.coll_core.specs.Configs.{setting_by};

use crate::calls;
use crate::ports::answer::PortAnswer;
use crate::ports::call::{ListCall, PortCall};
use crate::ports::closed::Closed;
use crate::ports::noted::OutcomeBytes;
use crate::ports::{Misfit, PortRow, completions};
use coll_complete::Request;
use coll_core::{Config, Contribution, Offer, Outcome};
use coll_kinds::{Refusal, Signature, Ticket};
use coll_report::Report;
use coll_shared::{Engine, NoGate, Port, close, open};
use coll_traced::{Entries, Spent};
use std::alloc::Global;
use std::rt::Clock;
use std::sync::Wait;
use std::sync::ledger::Blank;

pub const NO_MEMORY: PortAnswer = PortAnswer::Refused(Refusal::NoMemory);

/// An engine with its ports, and with the requests that rows made.
#[derive(Drop)]
pub struct PortDriver<L: Entries> {
    alloc: Global,
    engine: Engine<L>,
    /// The ports that haven't ended, by their ranks.
    ports: Vec<Port<L>>,
    aside: Option<Port<L>>,
    /// The ends of the ports that have ended, the highest rank's first.
    ended: Vec<Spent<L>>,
    requests: Vec<Request>,
    /// The ticket that each request had when it was made.
    tickets: Vec<Option<Ticket>>,
    /// The outcomes of the waits for one request.
    outcomes: Vec<Outcome>,
}

impl<L: Entries> PortDriver<L> {
    pub fn open(alloc: Global, config: Config, entries: Blank) -> Result<PortDriver<L>, Refusal>
        requires name { entries.name ≡ L.name }
        requires parts { (entries.parts ≡ L.parts) × (L.parts ≡ config.ranks) }
        requires setting { L.setting ≡ setting_by config }
    {
        let (engine, ports) = open::<L>(alloc, config, entries)?;
        PortDriver::of(alloc, engine, ports)
    }

    /// A driver of an engine that was opened. To end its ports and to close it, it needs no further memory.
    pub fn of(
        alloc: Global,
        engine: Engine<L>,
        ports: Vec<Port<L>>,
    ) -> Result<PortDriver<L>, Refusal> {
        let ended = Vec::with_capacity(alloc, ports.len())?;
        Ok(PortDriver {
            alloc,
            engine,
            ports,
            aside: None,
            ended,
            requests: Vec::new(alloc),
            tickets: Vec::new(alloc),
            outcomes: Vec::new(alloc),
        })
    }

    /// Makes the calls of some lists. Returns the first call that was answered otherwise.
    pub fn first_misfit<R: Wait + Clock>(
        &mut self,
        rt: &R,
        parts: &[&[PortRow]],
    ) -> Option<Misfit> {
        for rows in parts {
            let misfit = self.misfit_among(rt, rows);
            if misfit.is_some() {
                return misfit;
            }
        }
        None
    }

    /// Makes the calls of a list. A call that is refused memory and may take some is made a second time. Returns the number of
    /// these refusals, or the first call that was answered otherwise.
    pub fn refusals_among<R: Wait + Clock>(
        &mut self,
        rt: &R,
        rows: &[PortRow],
    ) -> Result<u32, Misfit> {
        let mut refusals = 0u32;
        for (index, (call, want)) in rows.iter().enumerate() {
            let mut got = self.answer(rt, *call);
            if got == NO_MEMORY && call.takes_memory() {
                refusals = refusals.saturating_add(1);
                got = self.answer(rt, *call);
            }
            if got != *want {
                return Err(Misfit { index, got });
            }
        }
        Ok(refusals)
    }

    fn misfit_among<R: Wait + Clock>(&mut self, rt: &R, rows: &[PortRow]) -> Option<Misfit> {
        for (index, (call, want)) in rows.iter().enumerate() {
            let got = self.answer(rt, *call);
            if got != *want {
                return Some(Misfit { index, got });
            }
        }
        None
    }

    /// Makes a call, and returns its answer.
    pub fn answer<R: Wait + Clock>(&mut self, rt: &R, call: PortCall) -> PortAnswer {
        match self.carry_out(rt, call) {
            Ok(answer) => answer,
            Err(why) => PortAnswer::Refused(why),
        }
    }

    /// Makes a call. An error is its refusal; `Torn` if there is no such port or request.
    fn carry_out<R: Wait + Clock>(
        &mut self,
        rt: &R,
        call: PortCall,
    ) -> Result<PortAnswer, Refusal> {
        match call {
            PortCall::Null => self.number(Request::null()),
            PortCall::Post(rank, comm, sig, bytes) => {
                let request = self.post(rt, rank, comm, sig, bytes)?;
                self.number(request)
            }
            PortCall::Init(rank, comm, sig) => self.init(rt, rank, comm, sig),
            PortCall::Start(rank, number, bytes) => self.start(rt, rank, number, bytes),
            PortCall::Free(rank, number) => self.free(rt, rank, number),
            PortCall::Test(rank, number) => self.test(rt, rank, number),
            PortCall::TestTicket(rank, number) => self.test_ticket(rt, rank, number),
            PortCall::Wait(rank, number) => self.wait(rt, rank, number),
            PortCall::PostAndWait(comm, sig, bytes) => self.post_and_wait(rt, comm, sig, bytes),
            PortCall::IsNull(number) => self.is_null(number),
            PortCall::Left => Ok(self.left()),
            PortCall::Made(rank) => self.made(rank),
            PortCall::Finish => self.finish(rt),
            PortCall::PutAside => self.put_aside(),
            PortCall::Over(call) => {
                let count = self.count();
                self.complete(rt, call, 0, count)
            }
            PortCall::OverSome(call, from, count) => self.complete(rt, call, from, count),
            PortCall::Stop => Ok(self.stop(rt)),
            PortCall::Work => self.work(rt),
        }
    }

    /// Gives a request the next number. `room_for_one` has made room for it.
    pub fn number(&mut self, request: Request) -> Result<PortAnswer, Refusal> {
        self.tickets.push(request.ticket())?;
        self.requests.push(request)?;
        Ok(PortAnswer::Accepted)
    }

    /// Makes room for one more request and for its outcome, so that no refusal of memory can lose it.
    pub fn room_for_one(&mut self) -> Result<(), Refusal> {
        self.tickets.reserve(1)?;
        self.requests.reserve(1)?;
        self.outcomes.reserve(1)?;
        Ok(())
    }

    /// The port of a rank. `Torn` if it has none.
    pub fn port(&mut self, rank: u8) -> Result<&mut Port<L>, Refusal> {
        self.ports.get_mut(usize::from(rank)).ok_or(Refusal::Torn)
    }

    /// The port of a rank, and the request of that number. `Torn` if one of them doesn't exist.
    pub fn port_and_request(
        &mut self,
        rank: u8,
        number: usize,
    ) -> Result<(&mut Port<L>, &Request), Refusal> {
        let port = self.ports.get_mut(usize::from(rank)).ok_or(Refusal::Torn)?;
        let request = self.requests.get(number).ok_or(Refusal::Torn)?;
        Ok((port, request))
    }

    fn post<R: Wait + Clock>(
        &mut self,
        rt: &R,
        rank: u8,
        comm: u32,
        sig: Signature,
        bytes: &[u8],
    ) -> Result<Request, Refusal> {
        self.room_for_one()?;
        let port = self.ports.get_mut(usize::from(rank)).ok_or(Refusal::Torn)?;
        let plan = port.ready_plan(comm, &sig)?;
        let offer = Offer {
            plan,
            bytes: Contribution::copy(self.alloc, bytes)?,
        };
        match port.post(rt, comm, offer) {
            Ok((request, _receipt)) => Ok(request),
            Err(refused) if refused.back.bytes.as_slice() == bytes => Err(refused.why),
            Err(_) => Err(Refusal::Torn),
        }
    }

    fn init<R: Wait>(
        &mut self,
        rt: &R,
        rank: u8,
        comm: u32,
        sig: Signature,
    ) -> Result<PortAnswer, Refusal> {
        self.room_for_one()?;
        let port = self.ports.get_mut(usize::from(rank)).ok_or(Refusal::Torn)?;
        let plan = port.ready_plan(comm, &sig)?;
        let request = calls::init(rt, port, comm, plan)?;
        self.number(request)
    }

    fn start<R: Wait + Clock>(
        &mut self,
        rt: &R,
        rank: u8,
        number: usize,
        bytes: &[u8],
    ) -> Result<PortAnswer, Refusal> {
        let port = self.ports.get_mut(usize::from(rank)).ok_or(Refusal::Torn)?;
        let request = self.requests.get(number).ok_or(Refusal::Torn)?;
        let own = Contribution::copy(self.alloc, bytes)?;
        match port.start(rt, request, own) {
            Ok(_receipt) => Ok(PortAnswer::Accepted),
            Err(refused) if refused.back.as_slice() == bytes => Err(refused.why),
            Err(_) => Err(Refusal::Torn),
        }
    }

    fn free<R: Wait>(&mut self, rt: &R, rank: u8, number: usize) -> Result<PortAnswer, Refusal> {
        let port = self.ports.get_mut(usize::from(rank)).ok_or(Refusal::Torn)?;
        let request = self.requests.get_mut(number).ok_or(Refusal::Torn)?;
        calls::free(rt, port, request)?;
        Ok(PortAnswer::Accepted)
    }

    fn test<R: Wait>(&mut self, rt: &R, rank: u8, number: usize) -> Result<PortAnswer, Refusal> {
        let port = self.ports.get_mut(usize::from(rank)).ok_or(Refusal::Torn)?;
        let request = self.requests.get_mut(number).ok_or(Refusal::Torn)?;
        completions::test(rt, port, number, request)
    }

    fn test_ticket<R: Wait>(
        &mut self,
        rt: &R,
        rank: u8,
        number: usize,
    ) -> Result<PortAnswer, Refusal> {
        let port = self.ports.get_mut(usize::from(rank)).ok_or(Refusal::Torn)?;
        let Some(Some(ticket)) = self.tickets.get(number) else {
            return Err(Refusal::Torn);
        };
        completions::test(rt, port, number, &mut Request::of(*ticket))
    }

    fn wait<R: Wait + Clock>(
        &mut self,
        rt: &R,
        rank: u8,
        number: usize,
    ) -> Result<PortAnswer, Refusal> {
        let port = self.ports.get_mut(usize::from(rank)).ok_or(Refusal::Torn)?;
        let request = self.requests.get_mut(number).ok_or(Refusal::Torn)?;
        self.outcomes.reserve(1)?;
        let outcome = calls::wait(rt, &NoGate, port, request)?;
        self.keep(outcome)
    }

    fn post_and_wait<R: Wait + Clock>(
        &mut self,
        rt: &R,
        comm: u32,
        sig: Signature,
        bytes: &[u8],
    ) -> Result<PortAnswer, Refusal> {
        let mut request = self.post(rt, 0, comm, sig, bytes)?;
        let port = self.ports.get_mut(0).ok_or(Refusal::Torn)?;
        let outcome = calls::wait(rt, &NoGate, port, &mut request)?;
        self.keep(outcome)
    }

    /// Keeps the outcome of a wait, if it had one.
    fn keep(&mut self, outcome: Option<Outcome>) -> Result<PortAnswer, Refusal> {
        let Some(outcome) = outcome else {
            return Ok(PortAnswer::NoOutcome);
        };
        let answer = PortAnswer::Outcome(OutcomeBytes::of(&outcome));
        self.outcomes.push(outcome)?;
        Ok(answer)
    }

    /// The number of requests that have a number.
    fn count(&self) -> usize {
        self.requests.len()
    }

    /// Makes a call of rank 0 over `count` requests, from the number `from` on.
    fn complete<R: Wait + Clock>(
        &mut self,
        rt: &R,
        call: ListCall,
        from: usize,
        count: usize,
    ) -> Result<PortAnswer, Refusal> {
        let port = self.ports.get_mut(0).ok_or(Refusal::Torn)?;
        let (_, rest) = self
            .requests
            .split_at_mut_checked(from)
            .ok_or(Refusal::Torn)?;
        let (list, _) = rest.split_at_mut_checked(count).ok_or(Refusal::Torn)?;
        match call {
            ListCall::TestAny => completions::test_any(rt, port, list),
            ListCall::WaitAny => completions::wait_any(rt, port, list),
            ListCall::TestAll => completions::test_all(rt, self.alloc, port, list),
            ListCall::WaitAll => completions::wait_all(rt, self.alloc, port, list),
            ListCall::TestSome => completions::test_some(rt, self.alloc, port, list),
            ListCall::WaitSome => completions::wait_some(rt, self.alloc, port, list),
        }
    }

    fn is_null(&self, number: usize) -> Result<PortAnswer, Refusal> {
        let request = self.requests.get(number).ok_or(Refusal::Torn)?;
        Ok(PortAnswer::IsNull(request.is_null()))
    }

    fn left(&self) -> PortAnswer {
        let left = self.requests.iter().filter(|request| !request.is_null());
        PortAnswer::Left(left.count())
    }

    fn made(&self, rank: u8) -> Result<PortAnswer, Refusal> {
        let port = self.ports.get(usize::from(rank)).ok_or(Refusal::Torn)?;
        Ok(PortAnswer::Made(port.rank(), port.made()))
    }

    fn finish<R: Wait>(&mut self, rt: &R) -> Result<PortAnswer, Refusal> {
        self.ended.reserve(1)?;
        let port = self.ports.pop().ok_or(Refusal::Torn)?;
        let spent = port.finish(rt);
        let answer = PortAnswer::Ended(spent.rank(), spent.made());
        self.ended.push(spent)?;
        Ok(answer)
    }

    fn put_aside(&mut self) -> Result<PortAnswer, Refusal> {
        self.aside = self.ports.pop();
        Ok(PortAnswer::Accepted)
    }

    fn stop<R: Wait>(&self, rt: &R) -> PortAnswer {
        self.engine.stop(rt);
        PortAnswer::Accepted
    }

    fn work<R: Wait + Clock>(&self, rt: &R) -> Result<PortAnswer, Refusal> {
        Ok(PortAnswer::Worked(self.engine.work(rt, &NoGate)?))
    }

    /// Ends all ports that haven't ended, except one that was put aside, and closes the engine with their ends, that of the highest rank first.
    pub fn close<R: Wait>(self, rt: &R) -> Result<Closed, Refusal>
        requires { L.parts ≡ L.setting.ranks }
    {
        let mut driver = self;
        for _port in 0..driver.ports.len() {
            driver.finish(rt)?;
        }
        let PortDriver {
            engine,
            aside: _aside,
            ended,
            outcomes,
            ..
        } = driver;
        Ok(Closed {
            outcomes,
            report: report_of(rt, engine, ended),
        })
    }
}

/// Closes an engine with these ends of its ports.
fn report_of<L: Entries, R: Wait>(
    rt: &R,
    engine: Engine<L>,
    spents: Vec<Spent<L>>,
) -> Result<Report, (Refusal, usize)>
    requires { L.parts ≡ L.setting.ranks }
{
    match close(rt, engine, spents) {
        Ok(report) => Ok(report),
        Err(refused) => {
            let (_engine, spents) = refused.back;
            Err((refused.why, spents.len()))
        }
    }
}
