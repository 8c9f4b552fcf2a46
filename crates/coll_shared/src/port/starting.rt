//! A port's starts of persistent requests.

ghost use Rattle.std.specs.Prelude.{◌≡◌, ◌+◌, ◌<◌, ◌≤◌, [], IfErr, IfOk, None, OnErr, OnOk, length, slice_index_or, take, vec_capacity, vec_len};
ghost use Rattle.std.specs.List.{zip};
ghost use Rattle.coll_complete.specs.Starting.{unused};
ghost use Rattle.coll_traced.specs.Calls.{IsStarted};
ghost use Rattle.coll_traced.specs.Denials.{DeniesStart};
ghost use Rattle.coll_shared.specs.Starts.{PushesStarts};

use crate::port::Port;
use coll_complete::{Halted, Request};
use coll_core::Contribution;
use coll_kinds::{Refusal, Refused};
use coll_traced::{Entries, Receipt};
use std::mem;
use std::rt::Clock;
use std::sync::Wait;

impl<L: Entries> Port<L> {
    /// Starts a persistent request (`MPI_Start`; MPI 4.1, 3.9).
    ///
    /// # Errors
    ///
    /// Stale if the request is null; then those of `TracedCore::start`, in its order. The
    /// contribution is handed back.
    pub fn start<R: Wait + Clock>(
        &mut self,
        rt: &R,
        request: &Request,
        bytes: Contribution,
    ) -> Result<Receipt, Refused<Contribution>>
        ensures rank { self.new.rank ≡ self.old.rank }
        ensures groups { self.new.groups ≡ self.old.groups }
        ensures made { OnOk result (self.new.made ≡ self.old.made + 1) }
        ensures receipt { IfOk result (λ receipt. IsStarted self.old.rank request.now bytes receipt) }
        ensures err { OnErr result (self.new.made ≡ self.old.made) }
        ensures refused { IfErr result (λ refused. DeniesStart L.setting self.old.made self.old.rank request.now bytes refused.why) }
        ensures back { IfErr result (λ refused. refused.back ≡ bytes) }
    {
        let Some(ticket) = request.ticket() else {
            return Err(Refused {
                why: Refusal::Stale,
                back: bytes,
            });
        };
        let Some(tally) = self.tally.take() else {
            unreachable!()
        };
        let (tally, started) = self
            .combiner
            .start(rt, self.alloc, self.rank, ticket, bytes, tally);
        self.tally = Some(tally);
        started
    }

    /// Starts a persistent request and takes the bytes; if the start is refused, the bytes stay.
    fn start_taking<R: Wait + Clock>(
        &mut self,
        rt: &R,
        request: &Request,
        bytes: &mut Contribution,
    ) -> Result<Receipt, Refusal>
        ensures rank { self.new.rank ≡ self.old.rank }
        ensures groups { self.new.groups ≡ self.old.groups }
        ensures made { OnOk result (self.new.made ≡ self.old.made + 1) }
        ensures receipt { IfOk result (λ receipt. IsStarted self.old.rank request.now bytes.old receipt) }
        ensures taken { OnOk result (bytes.new ≡ []) }
        ensures err { OnErr result (self.new.made ≡ self.old.made) }
        ensures refused { IfErr result (λ why. DeniesStart L.setting self.old.made self.old.rank request.now bytes.old why) }
        ensures back { OnErr result (bytes.new ≡ bytes.old) }
    {
        match self.start(rt, request, mem::replace(bytes, Contribution::empty())) {
            Ok(receipt) => Ok(receipt),
            Err(refused) => {
                *bytes = refused.back;
                Err(refused.why)
            }
        }
    }

    /// Starts the requests of a list in rising position, each with the contribution at its position
    /// (`MPI_Startall`; MPI 4.1, 3.9). Pushes what shows each start to `receipts`.
    ///
    /// # Errors
    ///
    /// The first refusal, as `start` returns it, with its position. The requests before it stay
    /// started, with their receipts in `receipts`, and unused contributions come back.
    pub fn start_all<R: Wait + Clock>(
        &mut self,
        rt: &R,
        requests: &[Request],
        mut given: Vec<Contribution>,
        receipts: &mut Vec<Receipt>,
    ) -> Result<(), Halted>
        requires given { vec_len given ≡ length requests.now }
        requires room { vec_len receipts.old + length requests.now ≤ vec_capacity receipts.old }
        ensures rank { self.new.rank ≡ self.old.rank }
        ensures groups { self.new.groups ≡ self.old.groups }
        ensures made { OnOk result (self.new.made ≡ self.old.made + length requests.now) }
        ensures starts { OnOk result (PushesStarts self.old.rank (zip requests.now given.items) receipts.old.items receipts.new.items) }
        ensures within { IfErr result (λ halted. halted.at < length requests.now) }
        ensures err { IfErr result (λ halted. self.new.made ≡ self.old.made + halted.at) }
        ensures before { IfErr result
            (λ halted. PushesStarts self.old.rank (take halted.at (zip requests.now given.items)) receipts.old.items receipts.new.items) }
        ensures refused { IfErr result
            (λ halted. DeniesStart L.setting (self.old.made + halted.at) self.old.rank
            (slice_index_or requests.now halted.at None) (slice_index_or given.items halted.at []) halted.why) }
        ensures back { IfErr result (λ halted. halted.back.items ≡ unused halted.at given.items) }
    {
        for (at, request) in requests.iter().enumerate() {
            match self.start_taking(rt, request, &mut given[at]) {
                Ok(receipt) => receipts.push_reserved(receipt),
                Err(why) => {
                    return Err(Halted {
                        at,
                        why,
                        back: given,
                    });
                }
            }
        }
        Ok(())
    }
}
