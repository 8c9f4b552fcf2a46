//! The outcomes of a call, as rows have them.

use coll_core::Outcome;

/// The bytes of an outcome.
#[derive(Clone, Copy, Debug, PartialEq)]
pub enum OutcomeBytes {
    One(u8),
    Two(u8, u8),
    Four(u8, u8, u8, u8),
    /// The same byte, this number of times.
    Same(usize, u8),
    /// No byte, or a number of bytes that no row has.
    Other(usize),
}

/// The outcomes of a call, each with its position in the list.
#[derive(Clone, Copy, Debug, PartialEq)]
pub enum Outcomes {
    Nothing,
    One(usize, OutcomeBytes),
    Two((usize, OutcomeBytes), (usize, OutcomeBytes)),
    /// More than any row has.
    Many(usize),
}

impl OutcomeBytes {
    pub fn of(outcome: &Outcome) -> OutcomeBytes {
        match outcome.bytes.as_slice() {
            [one] => OutcomeBytes::One(*one),
            [one, two] => OutcomeBytes::Two(*one, *two),
            [one, two, three, four] => OutcomeBytes::Four(*one, *two, *three, *four),
            [first, rest @ ..] if rest.iter().all(|byte| byte == first) => {
                OutcomeBytes::Same(rest.len().saturating_add(1), *first)
            }
            bytes => OutcomeBytes::Other(bytes.len()),
        }
    }
}

impl Outcomes {
    pub fn of(out: &[(usize, Outcome)]) -> Outcomes {
        match out {
            [] => Outcomes::Nothing,
            [(at, outcome)] => Outcomes::One(*at, OutcomeBytes::of(outcome)),
            [(at, first), (next, second)] => {
                Outcomes::Two(
                    (*at, OutcomeBytes::of(first)),
                    (*next, OutcomeBytes::of(second)),
                )
            }
            out => Outcomes::Many(out.len()),
        }
    }

    /// The outcome of the test of one request, which stands at that position.
    pub fn of_one(at: usize, outcome: Option<&Outcome>) -> Outcomes {
        match outcome {
            Some(outcome) => Outcomes::One(at, OutcomeBytes::of(outcome)),
            None => Outcomes::Nothing,
        }
    }
}
