//! The end of a persistent request, on any engine with requests.

ghost use Rattle.std.specs.Prelude.{◌≡◌, None, OnErr, OnOk};
ghost use Rattle.std.specs.Result.{result_err};
ghost use Rattle.coll_complete.specs.Completing.{freeing};
ghost use Rattle.coll_complete.specs.Requests.{free_refusal};

use crate::request::Request;
use crate::requests::Requests;
use coll_kinds::Refusal;

/// `request_free` on any engine with requests, of which the caller holds `own` beside it.
///
/// # Errors
///
/// Those of `request_free`.
pub fn request_free_on<C: Requests>(
    core: &mut C,
    own: &mut C::Own,
    rank: u8,
    request: &mut Request,
) -> Result<(), Refusal>
    ensures refused { result_err result ≡ free_refusal (C.setting core.old) (C.machine core.old).state rank request.old }
    ensures err { OnErr result ((core.new ≡ core.old) × (own.new ≡ own.old) × (request.new ≡ request.old)) }
    ensures setting { C.setting core.new ≡ C.setting core.old }
    ensures frees { OnOk result (C.Did core.old own.old (freeing rank request.old) core.new own.new) }
    ensures null { OnOk result (request.new ≡ None) }
{
    let Some(ticket) = request.ticket() else {
        return Err(Refusal::Stale);
    };
    match core.free(own, rank, ticket) {
        Err(why) => Err(why),
        Ok(()) => {
            *request = Request::null();
            Ok(())
        }
    }
}
