//! Laws over the definitions. Each is the contract of a function that does nothing, so a crate above may
//! cite it.

ghost use Rattle.coll_kinds.specs.Checks.{AreLengthsSmall};

/// What a member gives to a collective whose signature is checked, gets from it and lends is within the
/// limits.
pub fn lengths_are_small()
    ensures { AreLengthsSmall }
{}
