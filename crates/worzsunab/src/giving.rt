//! Bytes that are copied without an engine, and so without its lock: contributions before a post or a start, outcomes after a test.

ghost use Rattle.std.specs.Prelude.{◌≡◌, None, IfOk, IfSome, if◌then◌else◌, is_some, pos, true};
ghost use Rattle.coll_kinds.specs.declared.kind.Mode.TheVariants.{Once};
ghost use Rattle.coll_kinds.specs.declared.signature.Signature.{Signature};
ghost use Rattle.worzsunab.specs.Calls.{AreCounts, AreNames, IsCall, IsCounted};
ghost use Rattle.worzsunab.specs.Forms.{named_by};
ghost use Rattle.worzsunab.specs.Givings.{CopiesOut, Gives, PostsGiven, StartsGiven, TakesOutcome};

use crate::bytes_handle::BytesHandle;
use crate::call::{Call, counted_signature};
use crate::codes::{BAD_LENGTH, BAD_NUMBER, CLOSED, DONE, HAS_BYTES, NO_BYTES, NO_MEMORY, PENDING};
use crate::forms::Request;
use crate::handle::Handle;
use coll_serial::{Contribution, Mode, Refusal, Signature, Taken};
use std::alloc::Global;
use std::mem;

#[unsafe(no_mangle)]
pub extern "C" fn wz_give(alloc: Global, held: &mut BytesHandle, bytes: &[u8]) -> i32
    ensures { Gives held.old.held.bytes held.new.held.bytes result bytes.now }
{
    if held.is_full() {
        return HAS_BYTES;
    }
    match boxed_copy(alloc, bytes) {
        Ok(boxed) => {
            held.put(boxed);
            DONE
        }
        Err(_) => NO_MEMORY,
    }
}

/// A copy of bytes in a box.
fn boxed_copy(alloc: Global, bytes: &[u8]) -> Result<Box<Contribution>, Refusal>
    ensures { IfOk result (λ boxed. boxed.value ≡ bytes.now) }
{
    let copy = Contribution::copy(alloc, bytes)?;
    Ok(Box::new(alloc, copy)?)
}

#[unsafe(no_mangle)]
pub extern "C" fn wz_drop_bytes(alloc: Global, held: &mut BytesHandle) -> i32
    ensures empty { held.new.held.bytes ≡ None }
    ensures answers { result ≡ (if is_some held.old.held.bytes then pos 0 else pos 26) }
{
    match held.take(alloc) {
        Some(bytes) => {
            drop(bytes);
            DONE
        }
        None => NO_BYTES,
    }
}

#[unsafe(no_mangle)]
pub extern "C" fn wz_copy_out(
    alloc: Global,
    held: &mut BytesHandle,
    out: &mut [u8],
    count: &mut usize,
) -> i32
    ensures { CopiesOut held.old.held.bytes held.new.held.bytes result out.old out.new count.old count.new }
{
    let Some(bytes) = held.take(alloc) else {
        return NO_BYTES;
    };
    let len = bytes.len();
    if out.len() < len {
        held.put(bytes);
        return BAD_LENGTH;
    }
    out[..len].copy_from_slice(bytes.as_slice());
    *count = len;
    DONE
}

#[unsafe(no_mangle)]
pub extern "C" fn wz_post_given(
    alloc: Global,
    handle: &mut Handle,
    rank: u8,
    comm: u32,
    call: &Call,
    held: &mut BytesHandle,
    request: &mut Request,
) -> i32
    ensures empty { held.old.held.bytes ≡ None → (result ≡ pos 26) × (handle.new ≡ handle.old) × (held.new ≡ held.old) × (request.new ≡ request.old) }
    ensures answers { AreNames call.now
        → IfSome held.old.held.bytes
        (λ bytes. (sig : Signature) × IsCall call.now Once sig
        × PostsGiven handle.old handle.new result rank comm sig bytes request.old request.new held.new.held.bytes) }
    ensures unnamed { is_some held.old.held.bytes ≡ true → (AreNames call.now → ⊥)
        → (result ≡ pos 19) × (handle.new ≡ handle.old) × (request.new ≡ request.old) × (held.new ≡ held.old) }
{
    if !held.is_full() {
        return NO_BYTES;
    }
    match call.signature(Mode::Once) {
        Some(sig) => post_given(alloc, handle, rank, comm, sig, held, request),
        None => BAD_NUMBER,
    }
}

#[unsafe(no_mangle)]
pub extern "C" fn wz_post_allgatherv_given(
    alloc: Global,
    handle: &mut Handle,
    rank: u8,
    comm: u32,
    ty: u8,
    counts: &[u32],
    held: &mut BytesHandle,
    request: &mut Request,
) -> i32
    ensures empty { held.old.held.bytes ≡ None → (result ≡ pos 26) × (handle.new ≡ handle.old) × (held.new ≡ held.old) × (request.new ≡ request.old) }
    ensures answers { AreCounts ty counts.now
        → IfSome held.old.held.bytes
        (λ bytes. (sig : Signature) × IsCounted ty counts.now Once sig
        × PostsGiven handle.old handle.new result rank comm sig bytes request.old request.new held.new.held.bytes) }
    ensures unnamed { is_some held.old.held.bytes ≡ true → (AreCounts ty counts.now → ⊥)
        → (result ≡ pos 19) × (handle.new ≡ handle.old) × (request.new ≡ request.old) × (held.new ≡ held.old) }
{
    if !held.is_full() {
        return NO_BYTES;
    }
    match counted_signature(ty, counts, Mode::Once) {
        Some(sig) => post_given(alloc, handle, rank, comm, sig, held, request),
        None => BAD_NUMBER,
    }
}

/// A post of bytes that were given, by its signature. Where it is refused, they go back into their box.
fn post_given(
    alloc: Global,
    handle: &mut Handle,
    rank: u8,
    comm: u32,
    sig: Signature,
    held: &mut BytesHandle,
    request: &mut Request,
) -> i32
    requires { is_some held.old.held.bytes ≡ true }
    ensures { IfSome held.old.held.bytes (λ bytes. PostsGiven handle.old handle.new result rank comm sig bytes request.old request.new held.new.held.bytes) }
{
    let Some(mut engine) = handle.take(alloc) else {
        return CLOSED;
    };
    let Some(mut boxed) = held.take(alloc) else {
        unreachable!()
    };
    let bytes = mem::replace(boxed.as_mut(), Contribution::empty());
    let answer = engine.post_given(rank, comm, sig, bytes);
    handle.put(engine);
    match answer {
        Ok(made) => {
            *request = Request::of(&made);
            DONE
        }
        Err(refused) => {
            *boxed.as_mut() = refused.back;
            held.put(boxed);
            handle.refuse(refused.why)
        }
    }
}

#[unsafe(no_mangle)]
pub extern "C" fn wz_start_given(
    alloc: Global,
    handle: &mut Handle,
    rank: u8,
    request: &Request,
    held: &mut BytesHandle,
) -> i32
    ensures empty { held.old.held.bytes ≡ None → (result ≡ pos 26) × (handle.new ≡ handle.old) × (held.new ≡ held.old) }
    ensures answers { IfSome held.old.held.bytes (λ bytes. StartsGiven handle.old handle.new result rank (named_by request.now) bytes held.new.held.bytes) }
{
    if !held.is_full() {
        return NO_BYTES;
    }
    let Some(mut engine) = handle.take(alloc) else {
        return CLOSED;
    };
    let Some(mut boxed) = held.take(alloc) else {
        unreachable!()
    };
    let bytes = mem::replace(boxed.as_mut(), Contribution::empty());
    let answer = engine.start_given(rank, &request.held(), bytes);
    handle.put(engine);
    match answer {
        Ok(()) => DONE,
        Err(refused) => {
            *boxed.as_mut() = refused.back;
            held.put(boxed);
            handle.refuse(refused.why)
        }
    }
}

#[unsafe(no_mangle)]
pub extern "C" fn wz_take_outcome(
    alloc: Global,
    handle: &mut Handle,
    rank: u8,
    request: &mut Request,
    room: usize,
    held: &mut BytesHandle,
) -> i32
    ensures { TakesOutcome handle.old.held.engine handle.new.held.engine handle.old.reason handle.new.reason result rank
        request.old request.new room held.old.held.bytes held.new.held.bytes }
{
    if !held.is_full() {
        return NO_BYTES;
    }
    let Some(mut engine) = handle.take(alloc) else {
        return CLOSED;
    };
    let mut named = request.held();
    let answer = engine.take(rank, &mut named, room);
    handle.put(engine);
    let taken = match answer {
        Ok(taken) => taken,
        Err(why) => return handle.refuse(why),
    };
    match taken {
        Taken::Completed(outcome) => {
            held.set(alloc, Contribution::of_bytes(outcome.bytes));
            *request = Request::of(&named);
            DONE
        }
        Taken::Inactive => {
            held.set(alloc, Contribution::empty());
            DONE
        }
        Taken::Pending => PENDING,
    }
}
