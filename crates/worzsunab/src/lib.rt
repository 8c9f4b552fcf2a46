//! The engine for C: the functions of include/worzsunab.h. An engine goes to one call at a time, so its callers have a lock.
//!
//! | Module | Has |
//! |---|---|
//! | `parts` | `Parts`, a box as its pointer |
//! | `held` | `Held`, the pointer to an engine, and to none |
//! | `handle` | `Handle`, what C holds of an engine |
//! | `held_work`, `work_handle` | the same of a combination that is computed outside |
//! | `held_bytes`, `bytes_handle` | the same of bytes that are copied outside |
//! | `call` | `Call`, a collective as C gives it, and the counts of an allgatherv |
//! | `forms` | requests and configurations as C gives them |
//! | `reason` | `Reason`, a refusal with its data |
//! | `codes` | what functions answer |
//! | `posting` | the functions that post and initialise |
//! | `working` | the functions over combinations |
//! | `giving` | the functions over bytes that are copied outside |
//! | `listing` | the functions over lists of requests |
//! | `posted` | `Posted`, what stands in a place of posting lists |
//! | `lib` | the other functions |
#![tactic(auto)]

ghost use Rattle.std.specs.Prelude.{◌≡◌, ◌≢◌, ◌<◌, ◌≤◌, ◌⊎◌, [], None, Some, IfErr, IfOk, IfSome, IsSome, if◌then◌else◌, is_some, pos};
ghost use Rattle.coll_kinds.specs.declared.refusal.Refusal.TheVariants.{NoMemory, Stale};
ghost use Rattle.coll_machine.specs.Lents.{lent_bytes};
ghost use Rattle.coll_machine.specs.Runs.{Runs};
ghost use Rattle.coll_core.specs.Configs.{idle};
ghost use Rattle.coll_core.specs.Cores.{seen, setting};
ghost use Rattle.coll_core.specs.Steps.{Finishings, ready};
ghost use Rattle.coll_complete.specs.Completing.{freeing};
ghost use Rattle.coll_complete.specs.Requests.{free_refusal, phase_at};
ghost use Rattle.coll_serial.specs.Calls.{DeniesStart, about_at, naming_refusal};
ghost use Rattle.coll_serial.specs.Lengths.{IsOutcomeLengthAt};
ghost use Rattle.coll_serial.specs.Progress.{Advances};
ghost use Rattle.worzsunab.specs.Answers.{Answers, IsPhase, Tests, phase_number};
ghost use Rattle.worzsunab.specs.Beginnings.{StartsOne};
ghost use Rattle.worzsunab.specs.Forms.{IsAbout, named_by, request_of};
ghost use Rattle.worzsunab.specs.Openings.{DeniesOpen, IsOpened, Opens};
ghost use Rattle.coll_serial.specs.Signatures.{signature_at};
ghost use Rattle.worzsunab.specs.Posted.{Tells};
ghost use Rattle.worzsunab.specs.Reasons.{no_reason, reason_of};

mod bytes_handle;
mod call;
mod codes;
mod forms;
mod giving;
mod handle;
mod held;
mod held_bytes;
mod held_work;
mod listing;
mod parts;
mod posted;
mod posting;
mod reason;
mod work_handle;
mod working;

use codes::{CLOSED, DONE, NO_PLACE, OPEN, PENDING};
use coll_serial::{Engine, Phase, Refusal, Test};
use forms::{About, Limits, Request, groups_of};
use handle::Handle;
use posted::Posted;
use std::alloc::Global;

#[unsafe(no_mangle)]
pub extern "C" fn wz_open(
    alloc: Global,
    handle: &mut Handle,
    limits: &Limits,
    sizes: &[u8],
    members: &[u8],
) -> i32
    ensures open { IsSome handle.old.held.engine → (result ≡ pos 21) × (handle.new ≡ handle.old) }
    ensures opens { Opens handle.old.held.engine handle.new.held.engine handle.old.reason handle.new.reason result limits.now sizes.now members.now }
{
    if handle.is_open() {
        return OPEN;
    }
    match open_engine(alloc, *limits, sizes, members) {
        Ok(engine) => {
            handle.put(engine);
            DONE
        }
        Err(why) => handle.refuse(why),
    }
}

fn open_engine(
    alloc: Global,
    limits: Limits,
    sizes: &[u8],
    members: &[u8],
) -> Result<Box<Engine>, Refusal>
    ensures idle { IfOk result (λ engine. seen engine.value ≡ idle) }
    ensures opened { IfOk result (λ engine. IsOpened limits sizes.now members.now engine.value) }
    ensures refused { IfErr result (DeniesOpen limits sizes.now members.now) }
{
    let groups = groups_of(alloc, sizes, members)?;
    let engine = Engine::open(alloc, limits.config(groups))?;
    Ok(Box::new(alloc, engine)?)
}

#[unsafe(no_mangle)]
pub extern "C" fn wz_close(alloc: Global, handle: &mut Handle) -> i32
    ensures closed { handle.new.held.engine ≡ None }
    ensures answers { result ≡ (if is_some handle.old.held.engine then pos 0 else pos 20) }
    ensures reason { handle.new.reason ≡ (if is_some handle.old.held.engine then no_reason else handle.old.reason) }
{
    match handle.take(alloc) {
        Some(engine) => {
            drop(engine);
            handle.forget();
            DONE
        }
        None => CLOSED,
    }
}

#[unsafe(no_mangle)]
pub extern "C" fn wz_start(
    alloc: Global,
    handle: &mut Handle,
    rank: u8,
    request: &Request,
    bytes: &[u8],
) -> i32
    ensures answers { Answers handle.old.held.engine handle.new.held.engine handle.old.reason handle.new.reason result (Unit {0})
        (λ p. DeniesStart (setting p) rank (seen p) (named_by request.now, bytes.now)) (λ p r. StartsOne p r rank (named_by request.now) bytes.now) }
{
    let Some(mut engine) = handle.take(alloc) else {
        return CLOSED;
    };
    let answer = engine.start(rank, &request.held(), bytes);
    handle.put(engine);
    match answer {
        Ok(()) => DONE,
        Err(why) => handle.refuse(why),
    }
}

#[unsafe(no_mangle)]
pub extern "C" fn wz_free(
    alloc: Global,
    handle: &mut Handle,
    rank: u8,
    request: &mut Request,
) -> i32
    ensures answers { Answers handle.old.held.engine handle.new.held.engine handle.old.reason handle.new.reason result
        (request.new ≡ request.old) (λ p why. free_refusal (setting p) (seen p).state rank (named_by request.old) ≡ Some why)
        (λ p r. Runs (setting p) (seen p) (freeing rank (named_by request.old)) (seen r) × (request.new ≡ request_of None)) }
{
    let Some(mut engine) = handle.take(alloc) else {
        return CLOSED;
    };
    let mut held = request.held();
    let answer = engine.free(rank, &mut held);
    handle.put(engine);
    match answer {
        Ok(()) => {
            *request = Request::of(&held);
            DONE
        }
        Err(why) => handle.refuse(why),
    }
}

#[unsafe(no_mangle)]
pub extern "C" fn wz_test(
    alloc: Global,
    handle: &mut Handle,
    rank: u8,
    request: &mut Request,
    out: &mut [u8],
    count: &mut usize,
) -> i32
    ensures tests { Tests handle.old.held.engine handle.new.held.engine handle.old.reason handle.new.reason result rank
        request.old request.new out.old out.new count.old count.new }
{
    let Some(mut engine) = handle.take(alloc) else {
        return CLOSED;
    };
    let mut held = request.held();
    let answer = engine.test(rank, &mut held, out);
    handle.put(engine);
    let test = match answer {
        Ok(test) => test,
        Err(why) => return handle.refuse(why),
    };
    match test {
        Test::Completed(bytes) => {
            *request = Request::of(&held);
            *count = bytes;
            DONE
        }
        Test::Inactive => {
            *count = 0;
            DONE
        }
        Test::Pending => PENDING,
    }
}

#[unsafe(no_mangle)]
pub extern "C" fn wz_phase(
    alloc: Global,
    handle: &mut Handle,
    rank: u8,
    request: &Request,
    phase: &mut u8,
) -> i32
    ensures answers { Answers handle.old.held.engine handle.new.held.engine handle.old.reason handle.new.reason result
        (phase.new ≡ phase.old) (λ p why. naming_refusal (setting p) (seen p).state rank (named_by request.now) ≡ Some why)
        (λ p r. (r ≡ p) × IsPhase (phase_at (seen p) (named_by request.now)) phase.new) }
{
    let Some(engine) = handle.take(alloc) else {
        return CLOSED;
    };
    let answer = engine.phase(rank, &request.held());
    handle.put(engine);
    match answer {
        Ok(found) => {
            *phase = phase_number(found);
            DONE
        }
        Err(why) => handle.refuse(why),
    }
}

fn phase_number(phase: Phase) -> u8
    ensures { result ≡ phase_number phase }
{
    match phase {
        Phase::Idle => 0,
        Phase::Pending => 1,
        Phase::Done => 2,
    }
}

#[unsafe(no_mangle)]
pub extern "C" fn wz_outcome_length(
    alloc: Global,
    handle: &mut Handle,
    rank: u8,
    request: &Request,
    bytes: &mut usize,
) -> i32
    ensures answers { Answers handle.old.held.engine handle.new.held.engine handle.old.reason handle.new.reason result
        (bytes.new ≡ bytes.old) (λ p why. naming_refusal (setting p) (seen p).state rank (named_by request.now) ≡ Some why)
        (λ p r. (r ≡ p) × IsOutcomeLengthAt (setting p) (seen p).state (named_by request.now) bytes.new) }
{
    let Some(engine) = handle.take(alloc) else {
        return CLOSED;
    };
    let answer = engine.outcome_len(rank, &request.held());
    handle.put(engine);
    match answer {
        Ok(len) => {
            *bytes = len;
            DONE
        }
        Err(why) => handle.refuse(why),
    }
}

#[unsafe(no_mangle)]
pub extern "C" fn wz_step(alloc: Global, handle: &mut Handle, budget: u32, actions: &mut u32) -> i32
    ensures closed { handle.old.held.engine ≡ None → (handle.new.held.engine ≡ None) × (result ≡ pos 20) }
    ensures open { IsSome handle.old.held.engine → (result ≡ pos 0) ⊎ (result ≡ pos 17) }
    // An engine that is open stays open, and the refusal that is noted is that of this call or the last one.
    ensures stays { IsSome handle.old.held.engine → IsSome handle.new.held.engine }
    ensures noted { result ≡ pos 17 → handle.new.reason ≡ reason_of NoMemory }
    ensures same_reason { result ≢ pos 17 → handle.new.reason ≡ handle.old.reason }
    ensures kept { result ≢ pos 0 → actions.new ≡ actions.old }
    ensures quiet { (result ≡ pos 17) ⊎ IfSome handle.new.held.engine (λ r. actions.new < budget → ready r ≡ []) }
    ensures steps { (result ≡ pos 17)
        ⊎ IfSome handle.old.held.engine (λ p. IfSome handle.new.held.engine (λ r. Advances p r actions.new × (actions.new ≤ budget))) }
    ensures finishes { IfSome handle.old.held.engine
        (λ p. IfSome handle.new.held.engine (λ r. (setting r ≡ setting p) × Finishings (setting p) (seen p) (seen r))) }
{
    let Some(mut engine) = handle.take(alloc) else {
        return CLOSED;
    };
    let answer = engine.step(budget);
    handle.put(engine);
    match answer {
        Ok(made) => {
            *actions = made;
            DONE
        }
        Err(why) => handle.refuse(why),
    }
}

#[unsafe(no_mangle)]
pub extern "C" fn wz_settle(alloc: Global, handle: &mut Handle) -> i32
    ensures closed { handle.old.held.engine ≡ None → (handle.new.held.engine ≡ None) × (result ≡ pos 20) }
    ensures open { IsSome handle.old.held.engine → (result ≡ pos 0) ⊎ (result ≡ pos 17) }
    // An engine that is open stays open, and the refusal that is noted is that of this call or the last one.
    ensures stays { IsSome handle.old.held.engine → IsSome handle.new.held.engine }
    ensures noted { result ≡ pos 17 → handle.new.reason ≡ reason_of NoMemory }
    ensures same_reason { result ≢ pos 17 → handle.new.reason ≡ handle.old.reason }
    ensures quiet { (result ≡ pos 17) ⊎ IfSome handle.new.held.engine (λ r. ready r ≡ []) }
    ensures settles { IfSome handle.old.held.engine
        (λ p. IfSome handle.new.held.engine (λ r. (setting r ≡ setting p) × Finishings (setting p) (seen p) (seen r))) }
{
    let Some(mut engine) = handle.take(alloc) else {
        return CLOSED;
    };
    let answer = engine.settle();
    handle.put(engine);
    match answer {
        Ok(()) => DONE,
        Err(why) => handle.refuse(why),
    }
}

#[unsafe(no_mangle)]
pub extern "C" fn wz_lent(alloc: Global, handle: &mut Handle, bytes: &mut u64) -> i32
    ensures answers { Answers handle.old.held.engine handle.new.held.engine handle.old.reason handle.new.reason result
        (bytes.new ≡ bytes.old) (λ p why. ⊥) (λ p r. (r ≡ p) × (bytes.new ≡ lent_bytes (setting p) (seen p).state)) }
{
    let Some(engine) = handle.take(alloc) else {
        return CLOSED;
    };
    *bytes = engine.lent();
    handle.put(engine);
    DONE
}

#[unsafe(no_mangle)]
pub extern "C" fn wz_about(
    alloc: Global,
    handle: &mut Handle,
    request: &Request,
    about: &mut About,
) -> i32
    ensures answers { Answers handle.old.held.engine handle.new.held.engine handle.old.reason handle.new.reason result
        (about.new ≡ about.old) (λ p why. (why ≡ Stale) × (about_at (seen p) (named_by request.now) ≡ None))
        (λ p r. (r ≡ p) × IsAbout (about_at (seen p) (named_by request.now)) about.new) }
{
    let Some(engine) = handle.take(alloc) else {
        return CLOSED;
    };
    let answer = engine.about(&request.held());
    handle.put(engine);
    match answer {
        Some(told) => {
            *about = About::of(&told);
            DONE
        }
        None => handle.refuse(Refusal::Stale),
    }
}

#[unsafe(no_mangle)]
pub extern "C" fn wz_posted_at(
    alloc: Global,
    handle: &mut Handle,
    comm: u32,
    place: u32,
    posted: &mut Posted,
) -> i32
    ensures closed { handle.old.held.engine ≡ None → (result ≡ pos 20) × (posted.new ≡ posted.old) }
    ensures engine { handle.new.held.engine ≡ handle.old.held.engine }
    ensures reason { handle.new.reason ≡ handle.old.reason }
    ensures tells { IfSome handle.old.held.engine (λ p. Tells (signature_at (setting p) (seen p).state comm place) posted.old posted.new result) }
{
    let Some(engine) = handle.take(alloc) else {
        return CLOSED;
    };
    let code = tell(&engine, comm, place, posted);
    handle.put(engine);
    code
}

/// Tells what stands in a place.
fn tell(engine: &Engine, comm: u32, place: u32, posted: &mut Posted) -> i32
    ensures { Tells (signature_at (setting engine.now) (seen engine.now).state comm place) posted.old posted.new result }
{
    match engine.signature(comm, place) {
        Some(sig) => {
            *posted = Posted::of(sig);
            DONE
        }
        None => NO_PLACE,
    }
}
