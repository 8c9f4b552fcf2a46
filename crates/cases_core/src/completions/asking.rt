//! The calls of the rows, with their answers in short.

use super::making::byte;
use coll_complete::{
    Any, Halted, Request, Tested, are_distinct, request_free, start_all, test, test_all, test_any,
    test_some,
};
use coll_core::{Contribution, Core, Outcome};
use coll_kinds::Refusal;
use std::alloc::Global;

/// A call over a list, or over its first request.
#[derive(Clone, Copy)]
pub(super) enum CompletionCall {
    Test,
    Any,
    All,
    Some,
    Start,
    Free,
}

/// The answer to a call.
#[derive(Clone, Copy, PartialEq)]
pub(super) enum CompletionAnswer {
    Flag(bool),
    Undefined,
    Unfinished,
    At(usize),
    Count(Option<usize>),
    Ok,
    Refused(Refusal),
    Halted(usize, Refusal),
}

/// An outcome's value.
fn value_of(outcome: &Outcome) -> u8 {
    match outcome.bytes.as_slice().first() {
        Some(value) => *value,
        None => 0,
    }
}

/// Positions in the list: of each outcome, with its value; of bytes that came back, with the first byte, or 0 if there is none.
pub(super) type CompletionNoted = Vec<(usize, u8)>;

fn ask_test(
    core: &mut Core,
    list: &mut [Request],
    noted: &mut CompletionNoted,
) -> Result<CompletionAnswer, Refusal> {
    let Some(request) = list.first_mut() else {
        return Err(Refusal::Torn);
    };
    match test(core, 0, request) {
        Ok(
            Tested {
                flag,
                outcome: Some(outcome),
            },
        ) => {
            noted.push((0, value_of(&outcome)))?;
            Ok(CompletionAnswer::Flag(flag))
        }
        Ok(
            Tested {
                flag,
                outcome: None,
            },
        ) => Ok(CompletionAnswer::Flag(flag)),
        Err(why) => Ok(CompletionAnswer::Refused(why)),
    }
}

fn ask_any(
    core: &mut Core,
    list: &mut [Request],
    noted: &mut CompletionNoted,
) -> Result<CompletionAnswer, Refusal> {
    match test_any(core, 0, list) {
        Ok(Any::Undefined) => Ok(CompletionAnswer::Undefined),
        Ok(Any::Unfinished) => Ok(CompletionAnswer::Unfinished),
        Ok(Any::At(position, outcome)) => {
            noted.push((position, value_of(&outcome)))?;
            Ok(CompletionAnswer::At(position))
        }
        Err(why) => Ok(CompletionAnswer::Refused(why)),
    }
}

fn note_all(out: &[(usize, Outcome)], noted: &mut CompletionNoted) -> Result<(), Refusal> {
    for (position, outcome) in out {
        noted.push((*position, value_of(outcome)))?;
    }
    Ok(())
}

fn ask_all(
    alloc: Global,
    core: &mut Core,
    list: &mut [Request],
    noted: &mut CompletionNoted,
) -> Result<CompletionAnswer, Refusal> {
    if !are_distinct(list) {
        return Err(Refusal::Torn);
    }
    let mut out = Vec::with_capacity(alloc, list.len())?;
    let answer = test_all(core, 0, list, &mut out);
    note_all(&out, noted)?;
    match answer {
        Ok(flag) => Ok(CompletionAnswer::Flag(flag)),
        Err(why) => Ok(CompletionAnswer::Refused(why)),
    }
}

fn ask_some(
    alloc: Global,
    core: &mut Core,
    list: &mut [Request],
    noted: &mut CompletionNoted,
) -> Result<CompletionAnswer, Refusal> {
    if !are_distinct(list) {
        return Err(Refusal::Torn);
    }
    let mut out = Vec::with_capacity(alloc, list.len())?;
    let answer = test_some(core, 0, list, &mut out);
    note_all(&out, noted)?;
    match answer {
        Ok(count) => Ok(CompletionAnswer::Count(count)),
        Err(why) => Ok(CompletionAnswer::Refused(why)),
    }
}

fn note_back(back: &[Contribution], noted: &mut CompletionNoted) -> Result<(), Refusal> {
    for (position, bytes) in back.iter().enumerate() {
        noted.push((position, bytes.as_slice().first().copied().unwrap_or(0)))?;
    }
    Ok(())
}

fn ask_start(
    alloc: Global,
    core: &mut Core,
    list: &[Request],
    noted: &mut CompletionNoted,
) -> Result<CompletionAnswer, Refusal> {
    let mut given = Vec::new(alloc);
    let mut value: u8 = 1;
    for _ in list {
        given.push(byte(alloc, value)?)?;
        value = value.wrapping_add(1);
    }
    if given.len() != list.len() {
        return Err(Refusal::Torn);
    }
    match start_all(core, 0, list, given) {
        Ok(()) => Ok(CompletionAnswer::Ok),
        Err(Halted { at, why, back }) => {
            note_back(&back, noted)?;
            Ok(CompletionAnswer::Halted(at, why))
        }
    }
}

fn ask_free(core: &mut Core, list: &mut [Request]) -> Result<CompletionAnswer, Refusal> {
    let Some(request) = list.first_mut() else {
        return Err(Refusal::Torn);
    };
    match request_free(core, 0, request) {
        Ok(()) => Ok(CompletionAnswer::Ok),
        Err(why) => Ok(CompletionAnswer::Refused(why)),
    }
}

pub(super) fn ask(
    alloc: Global,
    core: &mut Core,
    call: CompletionCall,
    list: &mut [Request],
    noted: &mut CompletionNoted,
) -> Result<CompletionAnswer, Refusal> {
    match call {
        CompletionCall::Test => ask_test(core, list, noted),
        CompletionCall::Any => ask_any(core, list, noted),
        CompletionCall::All => ask_all(alloc, core, list, noted),
        CompletionCall::Some => ask_some(alloc, core, list, noted),
        CompletionCall::Start => ask_start(alloc, core, list, noted),
        CompletionCall::Free => ask_free(core, list),
    }
}
