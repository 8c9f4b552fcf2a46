//! Starts of a list of requests, on any engine with requests.

ghost use Rattle.std.specs.Prelude.{◌≡◌, ◌<◌, [], IfErr, None, OnErr, OnOk, length, slice_index_or, take, vec_len};
ghost use Rattle.std.specs.List.{zip};
ghost use Rattle.coll_complete.specs.Starting.{DeniesAt, StartsAll, StartsAt, unused};

use crate::halted::Halted;
use crate::request::Request;
use crate::requests::Requests;
use coll_core::Contribution;
use coll_kinds::Refusal;
use std::mem;

/// Starts a request with bytes that are taken; where it is refused, they are left.
fn start_one<C: Requests>(
    core: &mut C,
    own: &mut C::Own,
    rank: u8,
    request: &Request,
    bytes: &mut Contribution,
) -> Result<(), Refusal>
    ensures setting { C.setting core.new ≡ C.setting core.old }
    ensures starts { OnOk result (StartsAt (C.setting core.old) rank (C.machine core.old) (request.now, bytes.old) (C.machine core.new)) }
    ensures taken { OnOk result (bytes.new ≡ []) }
    ensures refused { IfErr result (λ why. DeniesAt (C.Denies core.new) rank (request.now, bytes.old) why) }
    ensures err { OnErr result (C.machine core.new ≡ C.machine core.old) }
    ensures left { OnErr result (bytes.new ≡ bytes.old) }
{
    let Some(ticket) = request.ticket() else {
        return Err(Refusal::Stale);
    };
    match core.start(
        own,
        rank,
        ticket,
        mem::replace(bytes, Contribution::empty()),
    ) {
        Ok(()) => Ok(()),
        Err(refused) => {
            *bytes = refused.back;
            Err(refused.why)
        }
    }
}

/// `start_all` on any engine with requests, of which the caller holds `own` beside it.
///
/// # Errors
///
/// Those of `start_all`.
pub fn start_all_on<C: Requests>(
    core: &mut C,
    own: &mut C::Own,
    rank: u8,
    requests: &[Request],
    mut given: Vec<Contribution>,
) -> Result<(), Halted>
    requires { vec_len given ≡ length requests.now }
    ensures setting { C.setting core.new ≡ C.setting core.old }
    ensures starts { OnOk result (StartsAll (C.setting core.old) rank (C.machine core.old) (zip requests.now given.items) (C.machine core.new)) }
    ensures within { IfErr result (λ halted. halted.at < length requests.now) }
    ensures before { IfErr result
        (λ halted. StartsAll (C.setting core.old) rank (C.machine core.old) (take halted.at (zip requests.now given.items)) (C.machine core.new)) }
    ensures refused { IfErr result
        (λ halted. DeniesAt (C.Denies core.new) rank (slice_index_or requests.now halted.at None, slice_index_or given.items halted.at []) halted.why) }
    ensures back { IfErr result (λ halted. halted.back.items ≡ unused halted.at given.items) }
{
    for (at, request) in requests.iter().enumerate() {
        if let Err(why) = start_one(core, own, rank, request, &mut given[at]) {
            return Err(Halted {
                at,
                why,
                back: given,
            });
        }
    }
    Ok(())
}
