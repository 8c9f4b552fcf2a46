//! A core with its trace, as `coll_complete`'s calls see it.

use crate::tally::{Entries, Tally};
use crate::traced_core::TracedCore;
use coll_complete::Requests;
use coll_core::{About, Contribution, Outcome, Phase};
use coll_kinds::{Refusal, Refused, Ticket};

impl<L: Entries> Requests for TracedCore<L> {
    ghost use Rattle.coll_core.specs.Cores.{seen, setting as setting_of};
    ghost use Rattle.coll_traced.specs.Doing.{DidTraced, did_more as did_more_of, did_nothing as did_nothing_of};
    ghost use Rattle.coll_traced.specs.Traced.{Denies as Denied};

    type Own = Tally<L>;

    ghost setting = { λ s. setting_of s.core };

    ghost machine = { λ s. seen s.core };

    ghost Did = { DidTraced };

    ghost Denies = { λ s call why. Denied s call why };

    fn phase(&self, rank: u8, ticket: Ticket) -> Result<Phase, Refusal> {
        self.core.phase(rank, ticket)
    }

    fn about(&self, ticket: Ticket) -> Option<About> {
        self.core.about(ticket)
    }

    fn retire(
        &mut self,
        own: &mut Tally<L>,
        rank: u8,
        ticket: Ticket,
    ) -> Result<Option<Outcome>, Refusal> {
        match TracedCore::retire(self, own, rank, ticket) {
            Ok(Some((outcome, _receipt))) => Ok(Some(outcome)),
            Ok(None) => Ok(None),
            Err(why) => Err(why),
        }
    }

    fn free(&mut self, own: &mut Tally<L>, rank: u8, ticket: Ticket) -> Result<(), Refusal> {
        match TracedCore::free(self, own, rank, ticket) {
            Ok(_receipt) => Ok(()),
            Err(why) => Err(why),
        }
    }

    fn start(
        &mut self,
        own: &mut Tally<L>,
        rank: u8,
        ticket: Ticket,
        bytes: Contribution,
    ) -> Result<(), Refused<Contribution>> {
        match TracedCore::start(self, own, rank, ticket, bytes) {
            Ok(_receipt) => Ok(()),
            Err(refused) => Err(refused),
        }
    }

    ghost did_nothing = { λ s a. did_nothing_of s a };

    ghost did_more = { λ s t u a b c es fs h k. did_more_of s t u a b c es fs h k };

    ghost did_runs = { λ s t a b es h. h.core_did.1 };
}
