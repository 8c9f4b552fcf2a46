//! Laws of arenas. A call does nothing; its contract is the law.

ghost use Rattle.std.specs.Prelude.{ℕ, ◌<◌, Some, length};
ghost use Rattle.coll_lists.specs.WellLinked.{IsWellLinked};
ghost use Rattle.coll_arena.specs.Changes.{rewritten};
ghost use Rattle.coll_arena.specs.Homes.{StandsAtHome};
ghost use Rattle.coll_arena.specs.ListNames.{list_count, number_of};
ghost use Rattle.coll_arena.specs.Lookups.{PutsSlot};
ghost use Rattle.coll_arena.specs.Slots.{count, generation_of, home, weight_of};
ghost use Rattle.coll_arena.specs.Sound.{IsSound};
ghost use Rattle.coll_arena.specs.Totals.{ChangesTotal};

use crate::arena::Arena;
use crate::list_name::ListName;
use coll_lists::{Columns, laws as links};

/// Each slot lies on exactly one list; a slot has a record exactly where it lies on neither Free nor Worn; slots on
/// Free can be given out again, those on Worn can't.
pub fn is_sound<R: Drop>(arena: &Arena<R>)
    ensures { IsSound arena.now }
{
    arena.check();
}

/// A slot stands in a list's sequence exactly where that list is its home; from list 2 on its ticket is live.
pub fn stands_at_home<R: Drop>(arena: &Arena<R>)
    ensures { (slot list : ℕ) → list < length arena.now.lists → StandsAtHome arena.now slot list }
{
    arena.check();
}

/// A list reads alike forwards and backwards, in the columns of the arena's own links: the next nodes from its first slot
/// give its sequence, the previous nodes from its last slot give the reverse, and both end.
pub fn is_well_linked<R: Drop>(arena: &Arena<R>, list: ListName) -> &Columns
    requires { number_of list < list_count arena.now.comms }
    ensures { IsWellLinked result.now arena.now.lists (number_of list) }
{
    arena.check();
    links::is_well_linked(arena.links(), list.number())
}

/// A record that was written through `get_mut` changes the look-ups of that slot's record alone.
pub fn writing_puts<R: Drop>(arena: &Arena<R>)
    ensures { (slot : ℕ) (written : R) → slot < count arena.now
        → PutsSlot arena.now (rewritten arena.now slot written) slot (generation_of arena.now slot) (weight_of arena.now slot)
        (Some written) (home arena.now slot) }
{
    arena.check();
}

/// A sum over all slots of what their records count for: a change of one slot changes one term of it.
pub fn changes_one_term<R: Drop>(arena: &Arena<R>)
    ensures { ChangesTotal R }
{
    let _arena = arena;
}
