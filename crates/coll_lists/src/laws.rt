//! Laws of layouts. A call does nothing; its contract is the law.

ghost use Rattle.std.specs.Prelude.{ℕ, ◌<◌, List, length};
ghost use Rattle.coll_lists.specs.Keeping.{KeepsTheRest};
ghost use Rattle.coll_lists.specs.Layouts.{IsLawful, size};
ghost use Rattle.coll_lists.specs.Moves.{moved_back, moved_front};
ghost use Rattle.coll_lists.specs.WellLinked.{IsWellLinked};

use crate::columns::Columns;
use crate::links::Links;

/// Every node stands exactly once over all lists.
pub fn is_lawful(links: &Links)
    ensures { IsLawful (size links.now) links.now }
{
    let _columns = links.columns();
}

/// A list reads alike forwards and backwards: in the columns that the readers read, the next nodes from the first one
/// give its sequence, the previous nodes from the last one give the reverse, and both end.
pub fn is_well_linked(links: &Links, list: u32) -> &Columns
    requires { list < length links.now }
    ensures { IsWellLinked result.now links.now list }
{
    links.columns()
}

/// A move to the back leaves every list as it was with that node taken out, save for the node's new place.
pub fn move_back_keeps_the_rest()
    ensures { (node list : ℕ) (lists : List (List ℕ)) → list < length lists → KeepsTheRest node list lists (moved_back node list lists) }
{}

/// A move to the front leaves every list as it was with that node taken out, save for the node's new place.
pub fn move_front_keeps_the_rest()
    ensures { (node list : ℕ) (lists : List (List ℕ)) → list < length lists → KeepsTheRest node list lists (moved_front node list lists) }
{}
