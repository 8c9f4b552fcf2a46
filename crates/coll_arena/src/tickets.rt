ghost use Rattle.std.specs.Prelude.{◌<◌};
ghost use Rattle.std.specs.List.{All};
ghost use Rattle.coll_lists.specs.Walks.{nodes_left};
ghost use Rattle.coll_arena.specs.Slots.{count};

use crate::arena::Arena;
use coll_kinds::Ticket;
use coll_lists::Nodes;

/// Walks the tickets of a list, from its first to its last or from its last to its first. Each step takes constant
/// time.
#[derive(Drop)]
pub struct Tickets<'a, R> {
    pub(crate) arena: &'a Arena<R>,
    pub(crate) nodes: Nodes<'a>,
    ghost in_range: { All (λ slot. slot < count arena.now) (nodes_left nodes) },
}

impl<'a, R: Drop> Iterator for Tickets<'a, R> {
    type Item = Ticket;

    ghost use Rattle.std.specs.Iterator.{YieldsFirst, item_count};
    ghost use Rattle.coll_arena.specs.TicketLists.{tickets_left};

    ghost next_gives = { YieldsFirst tickets_left };

    ghost remaining = { item_count tickets_left };

    fn next(&mut self) -> Option<Ticket> {
        let slot = self.nodes.next()?;
        Some(self.arena.ticket_of(slot))
    }
}
