//! Laws of the engine's tables. A call does nothing; its contract is the law.

ghost use Rattle.coll_refinement.specs.Rows.{RowsAreSound};
ghost use Rattle.coll_refinement.specs.StartRows.{StartRowsAreSound};

/// The condition can be met: the tables of a small engine, from its opening to the end of a scatter.
pub fn rows_are_sound()
    ensures { RowsAreSound }
{}

/// So can it with a persistent collective, a request that waits and is woken, and a combination that goes out.
pub fn start_rows_are_sound()
    ensures { StartRowsAreSound }
{}
