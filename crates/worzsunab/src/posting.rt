//! Posts and initialisations: by a call, or of an allgatherv by its counts.

ghost use Rattle.std.specs.Prelude.{◌≡◌, ◌⊎◌, pos};
ghost use Rattle.coll_kinds.specs.declared.kind.Mode.TheVariants.{Once, Persistent};
ghost use Rattle.coll_kinds.specs.declared.signature.Signature.{Signature};
ghost use Rattle.coll_core.specs.Cores.{seen, setting};
ghost use Rattle.coll_serial.specs.Calls.{Denies, init_by, post_by};
ghost use Rattle.worzsunab.specs.Answers.{Answers};
ghost use Rattle.worzsunab.specs.Calls.{AreCounts, AreNames, IsCall, IsCounted};
ghost use Rattle.worzsunab.specs.Beginnings.{Inits, Posts};
ghost use Rattle.worzsunab.specs.Forms.{IsMade};

use crate::call::{Call, counted_signature};
use crate::codes::{BAD_NUMBER, CLOSED, DONE};
use crate::forms::Request;
use crate::handle::Handle;
use coll_serial::{Mode, Signature};
use std::alloc::Global;

#[unsafe(no_mangle)]
pub extern "C" fn wz_post(
    alloc: Global,
    handle: &mut Handle,
    rank: u8,
    comm: u32,
    call: &Call,
    bytes: &[u8],
    request: &mut Request,
) -> i32
    ensures answers { AreNames call.now
        → (sig : Signature) × IsCall call.now Once sig
        × Answers handle.old.held.engine handle.new.held.engine handle.old.reason handle.new.reason result
        (request.new ≡ request.old) (λ p. Denies (setting p) (seen p) (post_by (setting p) rank comm sig bytes.now))
        (λ p r. IsMade (Posts p r rank comm sig bytes.now) request.new) }
    ensures unnamed { (AreNames call.now → ⊥) → (result ≡ pos 19) × (handle.new ≡ handle.old) × (request.new ≡ request.old) }
{
    match call.signature(Mode::Once) {
        Some(sig) => post(alloc, handle, rank, comm, sig, bytes, request),
        None => BAD_NUMBER,
    }
}

#[unsafe(no_mangle)]
pub extern "C" fn wz_post_allgatherv(
    alloc: Global,
    handle: &mut Handle,
    rank: u8,
    comm: u32,
    ty: u8,
    counts: &[u32],
    bytes: &[u8],
    request: &mut Request,
) -> i32
    ensures answers { AreCounts ty counts.now
        → (sig : Signature) × IsCounted ty counts.now Once sig
        × Answers handle.old.held.engine handle.new.held.engine handle.old.reason handle.new.reason result
        (request.new ≡ request.old) (λ p. Denies (setting p) (seen p) (post_by (setting p) rank comm sig bytes.now))
        (λ p r. IsMade (Posts p r rank comm sig bytes.now) request.new) }
    ensures unnamed { (AreCounts ty counts.now → ⊥) → (result ≡ pos 19) × (handle.new ≡ handle.old) × (request.new ≡ request.old) }
{
    match counted_signature(ty, counts, Mode::Once) {
        Some(sig) => post(alloc, handle, rank, comm, sig, bytes, request),
        None => BAD_NUMBER,
    }
}

/// A post by its signature.
fn post(
    alloc: Global,
    handle: &mut Handle,
    rank: u8,
    comm: u32,
    sig: Signature,
    bytes: &[u8],
    request: &mut Request,
) -> i32
    ensures { Answers handle.old.held.engine handle.new.held.engine handle.old.reason handle.new.reason result
        (request.new ≡ request.old) (λ p. Denies (setting p) (seen p) (post_by (setting p) rank comm sig bytes.now))
        (λ p r. IsMade (Posts p r rank comm sig bytes.now) request.new) }
{
    let Some(mut engine) = handle.take(alloc) else {
        return CLOSED;
    };
    let answer = engine.post(rank, comm, sig, bytes);
    handle.put(engine);
    match answer {
        Ok(made) => {
            *request = Request::of(&made);
            DONE
        }
        Err(why) => handle.refuse(why),
    }
}

#[unsafe(no_mangle)]
pub extern "C" fn wz_init(
    alloc: Global,
    handle: &mut Handle,
    rank: u8,
    comm: u32,
    call: &Call,
    request: &mut Request,
) -> i32
    ensures answers { AreNames call.now
        → (sig : Signature) × IsCall call.now Persistent sig
        × Answers handle.old.held.engine handle.new.held.engine handle.old.reason handle.new.reason result
        (request.new ≡ request.old) (λ p. Denies (setting p) (seen p) (init_by (setting p) rank comm sig))
        (λ p r. IsMade (Inits p r rank comm sig) request.new) }
    ensures unnamed { (AreNames call.now → ⊥) → (result ≡ pos 19) × (handle.new ≡ handle.old) × (request.new ≡ request.old) }
{
    match call.signature(Mode::Persistent) {
        Some(sig) => init(alloc, handle, rank, comm, sig, request),
        None => BAD_NUMBER,
    }
}

#[unsafe(no_mangle)]
pub extern "C" fn wz_init_allgatherv(
    alloc: Global,
    handle: &mut Handle,
    rank: u8,
    comm: u32,
    ty: u8,
    counts: &[u32],
    request: &mut Request,
) -> i32
    ensures answers { AreCounts ty counts.now
        → (sig : Signature) × IsCounted ty counts.now Persistent sig
        × Answers handle.old.held.engine handle.new.held.engine handle.old.reason handle.new.reason result
        (request.new ≡ request.old) (λ p. Denies (setting p) (seen p) (init_by (setting p) rank comm sig))
        (λ p r. IsMade (Inits p r rank comm sig) request.new) }
    ensures unnamed { (AreCounts ty counts.now → ⊥) → (result ≡ pos 19) × (handle.new ≡ handle.old) × (request.new ≡ request.old) }
{
    match counted_signature(ty, counts, Mode::Persistent) {
        Some(sig) => init(alloc, handle, rank, comm, sig, request),
        None => BAD_NUMBER,
    }
}

/// An initialisation by its signature.
fn init(
    alloc: Global,
    handle: &mut Handle,
    rank: u8,
    comm: u32,
    sig: Signature,
    request: &mut Request,
) -> i32
    ensures { Answers handle.old.held.engine handle.new.held.engine handle.old.reason handle.new.reason result
        (request.new ≡ request.old) (λ p. Denies (setting p) (seen p) (init_by (setting p) rank comm sig))
        (λ p r. IsMade (Inits p r rank comm sig) request.new) }
{
    let Some(mut engine) = handle.take(alloc) else {
        return CLOSED;
    };
    let answer = engine.init(rank, comm, sig);
    handle.put(engine);
    match answer {
        Ok(made) => {
            *request = Request::of(&made);
            DONE
        }
        Err(why) => handle.refuse(why),
    }
}
