ghost use Rattle.std.specs.Prelude.{◌≡◌, ◌≤◌, IfOk, length, vec_len};

use crate::spans::RankSpans;
use coll_complete::{Request, are_distinct};
use coll_core::{Contribution, Offer, Outcome};
use coll_kinds::{Refusal, Signature};
use coll_report::Span;
use coll_script::{Command, Named};
use coll_shared::{Gate, Port};
use coll_traced::{Entries, Spent};
use std::alloc::Global;
use std::mem;
use std::rt::Clock;
use std::sync::Wait;

/// A rank's port, with the rank's requests by their numbers, the outcomes that it got, and the spans of the calls that made its entries.
#[derive(Drop)]
pub(crate) struct Caller<L: Entries> {
    alloc: Global,
    port: Port<L>,
    requests: Vec<Request>,
    outcomes: Vec<Outcome>,
    spans: Vec<Span>,
}

/// What a caller leaves when it ends.
#[derive(Drop)]
pub(crate) struct Left<L: Entries> {
    pub(crate) spent: Spent<L>,
    pub(crate) outcomes: Vec<Outcome>,
    pub(crate) spans: RankSpans,
}

impl<L: Entries> Caller<L> {
    /// The caller of a rank that has no request yet.
    pub(crate) fn new(alloc: Global, port: Port<L>) -> Self {
        Caller {
            alloc,
            port,
            requests: Vec::new(alloc),
            outcomes: Vec::new(alloc),
            spans: Vec::new(alloc),
        }
    }

    /// The number of outcomes that it got so far.
    pub(crate) fn got(&self) -> usize {
        self.outcomes.len()
    }

    /// Notes the span of the call that made the rank's next entries.
    pub(crate) fn note(&mut self, span: Span, entries: usize) -> Result<(), Refusal> {
        for _ in 0..entries {
            self.spans.push(span)?;
        }
        Ok(())
    }

    /// Carries out the command of a line. A number that names no request is refused as a null request is.
    ///
    /// # Errors
    ///
    /// The refusal of the call, and `NoMemory`. What was done before the refusal stays.
    pub(crate) fn carry_out<R: Wait + Clock, G: Gate>(
        &mut self,
        rt: &R,
        gate: &G,
        command: Command,
    ) -> Result<(), Refusal> {
        match command {
            Command::Post { comm, sig, given } => {
                self.post(
                    rt,
                    u32::from(comm),
                    sig.sig(),
                    Contribution::new(given.into_vec()),
                )
            }
            Command::Init { comm, sig } => self.init(rt, u32::from(comm), sig.sig()),
            Command::Start { req, given } => self.start(
                rt,
                req as usize,
                Contribution::new(given.into_vec()),
            ),
            Command::Wait(req) => self.wait(rt, gate, req as usize),
            Command::Test(req) => self.test(rt, req as usize),
            Command::Free(req) => self.free(rt, req as usize),
            Command::WaitAny(named) => self.wait_any(rt, gate, &named),
            Command::WaitSome(named) => self.wait_some(rt, gate, &named),
            Command::WaitAll(named) => self.wait_all(rt, gate, &named),
        }
    }

    /// Ends the port.
    pub(crate) fn finish<R: Wait>(self, rt: &R) -> Left<L> {
        let Caller {
            port,
            outcomes,
            spans,
            ..
        } = self;
        let rank = port.rank();
        Left {
            spent: port.finish(rt),
            outcomes,
            spans: RankSpans { rank, spans },
        }
    }

    fn post<R: Wait + Clock>(
        &mut self,
        rt: &R,
        comm: u32,
        sig: &Signature,
        bytes: Contribution,
    ) -> Result<(), Refusal> {
        self.requests.reserve(1)?;
        let plan = self.port.ready_plan(comm, sig)?;
        let (request, _receipt) = match self.port.post(rt, comm, Offer { plan, bytes }) {
            Ok(posted) => posted,
            Err(refused) => return Err(refused.why),
        };
        self.requests.push_reserved(request);
        Ok(())
    }

    fn init<R: Wait>(&mut self, rt: &R, comm: u32, sig: &Signature) -> Result<(), Refusal> {
        self.requests.reserve(1)?;
        let plan = self.port.ready_plan(comm, sig)?;
        let (request, _receipt) = match self.port.init(rt, comm, plan) {
            Ok(made) => made,
            Err(refused) => return Err(refused.why),
        };
        self.requests.push_reserved(request);
        Ok(())
    }

    fn start<R: Wait + Clock>(
        &mut self,
        rt: &R,
        number: usize,
        bytes: Contribution,
    ) -> Result<(), Refusal> {
        let Some(request) = self.requests.get(number) else {
            return Err(Refusal::Stale);
        };
        match self.port.start(rt, request, bytes) {
            Ok(_) => Ok(()),
            Err(refused) => Err(refused.why),
        }
    }

    fn free<R: Wait>(&mut self, rt: &R, number: usize) -> Result<(), Refusal> {
        let Some(request) = self.requests.get_mut(number) else {
            return Err(Refusal::Stale);
        };
        self.port.free(rt, request)?;
        Ok(())
    }

    fn test<R: Wait>(&mut self, rt: &R, number: usize) -> Result<(), Refusal> {
        let Some(request) = self.requests.get_mut(number) else {
            return Err(Refusal::Stale);
        };
        let (tested, _) = self.port.test(rt, request)?;
        self.keep(tested.outcome)
    }

    fn wait<R: Wait + Clock, G: Gate>(
        &mut self,
        rt: &R,
        gate: &G,
        number: usize,
    ) -> Result<(), Refusal> {
        let Some(request) = self.requests.get_mut(number) else {
            return Err(Refusal::Stale);
        };
        let (found, _) = self.port.wait(rt, gate, request)?;
        self.keep(found)
    }

    /// Keeps the outcome of a request, if it has one.
    fn keep(&mut self, found: Option<Outcome>) -> Result<(), Refusal> {
        if let Some(outcome) = found {
            self.outcomes.push(outcome)?;
        }
        Ok(())
    }

    /// Waits for one of the named requests. If none of them is active, it doesn't wait.
    fn wait_any<R: Wait + Clock, G: Gate>(
        &mut self,
        rt: &R,
        gate: &G,
        named: &Named,
    ) -> Result<(), Refusal> {
        let mut list = self.taken(named)?;
        let answer = self.port.wait_any(rt, gate, &mut list);
        self.put_back(named, list);
        let (found, _receipts) = answer?;
        if let Some((_, outcome)) = found {
            self.outcomes.push(outcome)?;
        }
        Ok(())
    }

    /// Waits for one or more of the named requests. If none of them is active, it doesn't wait. A list with a request twice is
    /// refused as a null request is.
    fn wait_some<R: Wait + Clock, G: Gate>(
        &mut self,
        rt: &R,
        gate: &G,
        named: &Named,
    ) -> Result<(), Refusal> {
        let mut list = self.taken(named)?;
        if !are_distinct(&list) {
            return Err(Refusal::Stale);
        }
        let mut got = Vec::with_capacity(self.alloc, list.len())?;
        let answer = self.port.wait_some(rt, gate, &mut list, &mut got);
        self.put_back(named, list);
        answer?;
        for (_, outcome) in got {
            self.outcomes.push(outcome)?;
        }
        Ok(())
    }

    /// Waits for all named requests, one after the other (MPI 4.1, 3.7.5).
    fn wait_all<R: Wait + Clock, G: Gate>(
        &mut self,
        rt: &R,
        gate: &G,
        named: &Named,
    ) -> Result<(), Refusal> {
        for at in 0..named.len() {
            self.wait(rt, gate, named.get(at))?;
        }
        Ok(())
    }

    /// Takes the named requests out, as a list. Null requests stand in their places.
    fn taken(&mut self, named: &Named) -> Result<Vec<Request>, Refusal>
        ensures { IfOk result (λ list. vec_len list ≡ length named.now) }
    {
        let mut list = Vec::with_capacity(self.alloc, named.len())?;
        for at in 0..named.len() {
            let Some(request) = self.requests.get_mut(named.get(at)) else {
                return Err(Refusal::Stale);
            };
            list.push_reserved(mem::replace(request, Request::null()));
        }
        Ok(list)
    }

    /// Puts the named requests back.
    fn put_back(&mut self, named: &Named, list: Vec<Request>)
        requires { vec_len list ≤ length named.now }
    {
        let mut list = list;
        while let Some(request) = list.pop() {
            if let Some(place) = self.requests.get_mut(named.get(list.len())) {
                *place = request;
            }
        }
    }
}
