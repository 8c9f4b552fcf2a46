//! The words of causes.

ghost use Rattle.std.specs.Prelude.{◌≡◌};
ghost use Rattle.coll_check.specs.Causes.{words_of};

use coll_script::Cause;

/// The words by which a user knows the rule that a text breaks: those that the cause prints as.
pub(crate) fn words_of(cause: Cause) -> &'static str
    ensures { result.now ≡ words_of cause }
{
    match cause {
        Cause::TooLong => "text too long",
        Cause::MissingRanks => "missing ranks",
        Cause::UnknownCommand => "unknown command",
        Cause::OutOfPlace => "out of place",
        Cause::BadWords => "bad words",
        Cause::BadNumber => "bad number",
        Cause::BadRank => "bad rank",
        Cause::BadCommunicator => "bad communicator",
        Cause::BadSignature => "bad signature",
        Cause::WrongValueCount => "wrong value count",
        Cause::BadValue => "bad value",
        Cause::UnknownRequest => "unknown request",
        Cause::NamedTwice => "named twice",
        Cause::NotStartable => "not startable",
        Cause::TooManyRequests => "too many requests",
        Cause::PlaceMismatch => "place mismatch",
        Cause::PlaceMissing => "place missing",
        Cause::StartMissing => "start missing",
    }
}
