//! Tests and starts of lists of requests.

ghost use Rattle.std.specs.Prelude.{◌≡◌, ◌⊎◌, length};
ghost use Rattle.worzsunab.specs.Listing.{CompletesAll, CompletesLowest, CompletesSome, ListTests, NoneIsActive, NoneIsDone, Starts, told_of};
ghost use Rattle.coll_core.specs.Cores.{seen};
ghost use Rattle.coll_complete.specs.Requests.{is_pending};
ghost use Rattle.coll_serial.specs.Parts.{tickets_of};
ghost use Rattle.std.specs.List.{list_any};
ghost use Rattle.std.specs.Prelude.{true};

use crate::codes::{CLOSED, DONE, PENDING, TWICE};
use crate::handle::Handle;
use coll_serial::{First, Part, are_distinct};
use std::alloc::Global;

/// No position, and no number: no request of the list is active.
const UNDEFINED: usize = usize::MAX;

#[unsafe(no_mangle)]
pub extern "C" fn wz_test_any(
    alloc: Global,
    handle: &mut Handle,
    rank: u8,
    parts: &mut [Part],
    out: &mut [u8],
    index: &mut usize,
) -> i32
    ensures tests { ListTests handle.old.held.engine handle.new.held.engine handle.old.reason handle.new.reason result rank
        parts.old (length out.old) ((parts.new ≡ parts.old) × (out.new ≡ out.old) × (index.new ≡ index.old))
        (NoneIsDone rank parts.old)
        (λ p r. NoneIsActive p r parts.old parts.new out.old out.new index.new ⊎ CompletesLowest rank p r parts.old parts.new out.old out.new index.new) }
{
    let Some(mut engine) = handle.take(alloc) else {
        return CLOSED;
    };
    let answer = engine.test_any(rank, parts, out);
    handle.put(engine);
    let first = match answer {
        Ok(first) => first,
        Err(why) => return handle.refuse(why),
    };
    match first {
        First::At(position) => {
            *index = position;
            DONE
        }
        First::Undefined => {
            *index = UNDEFINED;
            DONE
        }
        First::Unfinished => PENDING,
    }
}

#[unsafe(no_mangle)]
pub extern "C" fn wz_test_some(
    alloc: Global,
    handle: &mut Handle,
    rank: u8,
    parts: &mut [Part],
    out: &mut [u8],
    completed: &mut usize,
) -> i32
    ensures tests { ListTests handle.old.held.engine handle.new.held.engine handle.old.reason handle.new.reason result rank
        parts.old (length out.old) ((parts.new ≡ parts.old) × (out.new ≡ out.old) × (completed.new ≡ completed.old)) (λ p. ⊥)
        (λ p r. NoneIsActive p r parts.old parts.new out.old out.new completed.new ⊎ CompletesSome rank p r parts.old parts.new out.old out.new completed.new) }
{
    if !are_distinct(parts) {
        return TWICE;
    }
    let Some(mut engine) = handle.take(alloc) else {
        return CLOSED;
    };
    let answer = engine.test_some(rank, parts, out);
    handle.put(engine);
    let found = match answer {
        Ok(found) => found,
        Err(why) => return handle.refuse(why),
    };
    *completed = told(found);
    DONE
}

/// How many were completed, as a number for C.
fn told(found: Option<usize>) -> usize
    ensures { result ≡ told_of found }
{
    found.unwrap_or(UNDEFINED)
}

#[unsafe(no_mangle)]
pub extern "C" fn wz_test_all(
    alloc: Global,
    handle: &mut Handle,
    rank: u8,
    parts: &mut [Part],
    out: &mut [u8],
) -> i32
    ensures tests { ListTests handle.old.held.engine handle.new.held.engine handle.old.reason handle.new.reason result rank
        parts.old (length out.old) ((parts.new ≡ parts.old) × (out.new ≡ out.old))
        (λ p. list_any (is_pending (seen p)) (tickets_of parts.old) ≡ true) (λ p r. CompletesAll rank p r parts.old parts.new out.old out.new) }
{
    if !are_distinct(parts) {
        return TWICE;
    }
    let Some(mut engine) = handle.take(alloc) else {
        return CLOSED;
    };
    let answer = engine.test_all(rank, parts, out);
    handle.put(engine);
    match answer {
        Ok(true) => DONE,
        Ok(false) => PENDING,
        Err(why) => handle.refuse(why),
    }
}

#[unsafe(no_mangle)]
pub extern "C" fn wz_start_all(
    alloc: Global,
    handle: &mut Handle,
    rank: u8,
    parts: &[Part],
    given: &[u8],
    started: &mut usize,
) -> i32
    ensures starts { Starts handle.old.held.engine handle.new.held.engine handle.old.reason handle.new.reason result rank
        parts.now given.now started.old started.new }
{
    let Some(mut engine) = handle.take(alloc) else {
        return CLOSED;
    };
    let answer = engine.start_all(rank, parts, given);
    handle.put(engine);
    match answer {
        Ok(()) => {
            *started = parts.len();
            DONE
        }
        Err(stopped) => {
            *started = stopped.at;
            handle.refuse(stopped.why)
        }
    }
}
