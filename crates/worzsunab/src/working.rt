//! Combinations that are computed outside an engine, and outside its lock.

ghost use Rattle.std.specs.Prelude.{◌≡◌, ◌≢◌, ◌⊎◌, [], None, Some, IfNone, IfOk, IfSome, IsOkUnless, IsSome, OnErr, if◌then◌else◌, is_some, pos, true, false};
ghost use Rattle.coll_kinds.specs.declared.refusal.Refusal.TheVariants.{NoMemory, Stale};
ghost use Rattle.coll_core.specs.Cores.{seen, setting};
ghost use Rattle.coll_core.specs.Steps.{Finishings, ready, running};
ghost use Rattle.coll_serial.specs.Combinations.{IsHandedOut, TakesBack};
ghost use Rattle.worzsunab.specs.Answers.{Answers};
ghost use Rattle.worzsunab.specs.Reasons.{reason_of};
ghost use Rattle.worzsunab.specs.Works.{Computes};

use crate::codes::{CLOSED, DONE, HAS_WORK, NO_MEMORY, NO_WORK};
use crate::handle::Handle;
use crate::work_handle::WorkHandle;
use coll_serial::{Combination, Engine, Refusal};
use std::alloc::Global;

#[unsafe(no_mangle)]
pub extern "C" fn wz_take_work(alloc: Global, handle: &mut Handle, work: &mut WorkHandle) -> i32
    ensures full { is_some work.old.held.combination ≡ true → (result ≡ pos 23) × (work.new ≡ work.old) × (handle.new ≡ handle.old) }
    ensures closed { is_some work.old.held.combination ≡ false → handle.old.held.engine ≡ None → (result ≡ pos 20) × (handle.new.held.engine ≡ None) }
    ensures out { result ≡ pos 0
        → IfSome handle.new.held.engine (λ r. IfSome work.new.held.combination (IsHandedOut r)) × (is_some work.new.held.combination ≡ true) }
    ensures open { is_some work.old.held.combination ≡ false → IsSome handle.old.held.engine → (result ≡ pos 0) ⊎ (result ≡ pos 17) ⊎ (result ≡ pos 22) }
    // An engine that is open stays open, and the refusal that is noted is that of this call or the last one.
    ensures stays { IsSome handle.old.held.engine → IsSome handle.new.held.engine }
    ensures noted { result ≡ pos 17 → handle.new.reason ≡ reason_of NoMemory }
    ensures same_reason { result ≢ pos 17 → handle.new.reason ≡ handle.old.reason }
    ensures not_taken { result ≢ pos 0 → work.new.held.combination ≡ work.old.held.combination }
    ensures kept { (result ≡ pos 0) ⊎ (work.new.held.combination ≡ work.old.held.combination) }
    ensures quiet { result ≡ pos 22 → IfSome handle.new.held.engine (λ r. ready r ≡ []) × (work.new.held.combination ≡ None) }
    // Where none is handed out, the same ones are outside as before.
    ensures outside { result ≢ pos 0 → IfSome handle.old.held.engine (λ p. IfSome handle.new.held.engine (λ r. running r ≡ running p)) }
    ensures finishes { IfSome handle.old.held.engine
        (λ p. IfSome handle.new.held.engine (λ r. (setting r ≡ setting p) × Finishings (setting p) (seen p) (seen r))) }
{
    if work.is_full() {
        return HAS_WORK;
    }
    let Some(mut engine) = handle.take(alloc) else {
        return CLOSED;
    };
    let answer = hand_out(alloc, &mut engine);
    handle.put(engine);
    match answer {
        Ok(Some(combination)) => {
            work.put(combination);
            DONE
        }
        Ok(None) => NO_WORK,
        Err(why) => handle.refuse(why),
    }
}

/// Hands a combination out in a box, which is made first, so that none is handed out without memory
/// for it.
fn hand_out(alloc: Global, engine: &mut Engine) -> Result<Option<Box<Combination>>, Refusal>
    ensures setting { setting engine.new ≡ setting engine.old }
    ensures finishes { Finishings (setting engine.old) (seen engine.old) (seen engine.new) }
    ensures out { IfOk result (λ found. IfSome found (λ boxed. IsHandedOut engine.new boxed.value)) }
    ensures quiet { IfOk result (λ found. IfNone found ((ready engine.new ≡ []) × (running engine.new ≡ running engine.old))) }
    ensures err { OnErr result (running engine.new ≡ running engine.old) }
    ensures refusal { IsOkUnless result Refusal.NoMemory }
{
    let mut boxed = Box::new(alloc, Combination::none())?;
    match engine.hand_out()? {
        Some(combination) => {
            *boxed.as_mut() = combination;
            Ok(Some(boxed))
        }
        None => Ok(None),
    }
}

#[unsafe(no_mangle)]
pub extern "C" fn wz_run_work(alloc: Global, work: &mut WorkHandle) -> i32
    ensures { Computes work.old.held.combination work.new.held.combination result }
{
    let Some(mut combination) = work.take(alloc) else {
        return NO_WORK;
    };
    let answer = combination.compute();
    work.put(combination);
    match answer {
        Ok(()) => DONE,
        Err(_) => NO_MEMORY,
    }
}

#[unsafe(no_mangle)]
pub extern "C" fn wz_return_work(alloc: Global, handle: &mut Handle, work: &mut WorkHandle) -> i32
    ensures empty { work.old.held.combination ≡ None → (result ≡ pos 22) × (handle.new ≡ handle.old) × (work.new ≡ work.old) }
    ensures answers { IfSome work.old.held.combination
        (λ combination. Answers handle.old.held.engine handle.new.held.engine handle.old.reason handle.new.reason result
        (Unit {0}) (λ p why. why ≡ Stale) (λ p r. TakesBack p r combination)) }
    ensures work { (result ≡ pos 20) ⊎ (work.new.held.combination ≡ None) }
    ensures closed { result ≡ pos 20 → work.new.held.combination ≡ work.old.held.combination }
{
    if !work.is_full() {
        return NO_WORK;
    }
    let Some(mut engine) = handle.take(alloc) else {
        return CLOSED;
    };
    let Some(combination) = work.take(alloc) else {
        unreachable!()
    };
    let answer = engine.take_back(Box::into_inner(combination));
    handle.put(engine);
    match answer {
        Ok(()) => DONE,
        Err(why) => handle.refuse(why),
    }
}

#[unsafe(no_mangle)]
pub extern "C" fn wz_drop_work(alloc: Global, work: &mut WorkHandle) -> i32
    ensures empty { work.new.held.combination ≡ None }
    ensures answers { result ≡ (if is_some work.old.held.combination then pos 0 else pos 22) }
{
    match work.take(alloc) {
        Some(combination) => {
            drop(combination);
            DONE
        }
        None => NO_WORK,
    }
}
