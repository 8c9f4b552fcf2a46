//! Theorems about the records of a port's answers. A call does nothing at run time; its contract is
//! the theorem.

ghost use Rattle.coll_traced.specs.Rows.{AnswersCanBeWrong};

/// None of the records of tests, refusals and denials is true of everything: all are false of a
/// worked engine that accepts no call.
pub fn answers_can_be_wrong()
    ensures { AnswersCanBeWrong }
{}
