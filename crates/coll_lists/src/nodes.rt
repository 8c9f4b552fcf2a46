ghost use Rattle.std.specs.Prelude.{◌<◌};
ghost use Rattle.std.specs.Option.{ForSome};
ghost use Rattle.coll_lists.specs.Layouts.{IsLawful, size};

use crate::links::Links;

/// Walks the nodes of a list, from its first to its last or from its last to its first. Each step takes constant
/// time.
#[derive(Drop)]
pub struct Nodes<'a> {
    pub(crate) links: &'a Links,
    pub(crate) at: Option<u32>,
    pub(crate) backwards: bool,
    ghost lawful: { IsLawful (size links.now) links.now },
    ghost in_range: { ForSome at (λ node. node < size links.now) },
}

impl<'a> Iterator for Nodes<'a> {
    type Item = u32;

    ghost use Rattle.std.specs.Iterator.{YieldsFirst, item_count};
    ghost use Rattle.coll_lists.specs.Walks.{nodes_left};

    ghost next_gives = { YieldsFirst nodes_left };

    ghost remaining = { item_count nodes_left };

    fn next(&mut self) -> Option<u32> {
        let node = self.at?;
        self.at = if self.backwards {
            self.links.prev(node)
        } else {
            self.links.next(node)
        };
        Some(node)
    }
}
