ghost use Rattle.std.specs.Prelude.{◌≡◌, ◌↔◌, [], IsTrue};
ghost use Rattle.coll_machine.specs.Reports.{posts_of};
ghost use Rattle.coll_report.specs.Posts.{posts_left};
ghost use Rattle.coll_report.specs.Views.{trace_seen};

use crate::entry::Entry;

/// Walks a rank's posts, initialisations and starts, in their order. The whole walk is linear in the trace and takes
/// no memory.
#[derive(Drop)]
pub struct Posts<'a> {
    rest: &'a [Entry],
    rank: u8,
}

impl<'a> Iterator for Posts<'a> {
    ghost use Rattle.std.specs.Iterator.{YieldsFirstBy, item_count};
    ghost use Rattle.coll_report.specs.Posts.{posts_left};
    ghost use Rattle.coll_report.specs.Views.{seen};

    type Item = &'a Entry;

    ghost next_gives = { YieldsFirstBy (λ x. seen x.now) posts_left };

    ghost remaining = { item_count posts_left };

    fn next(&mut self) -> Option<&'a Entry> {
        while let Some((first, rest)) = self.rest.split_first() {
            self.rest = rest;
            if first.is_post_of(self.rank) {
                return Some(first);
            }
        }
        None
    }
}

impl<'a> Posts<'a> {
    /// Those of a rank in a trace.
    pub fn of_rank(rank: u8, trace: &'a [Entry]) -> Posts<'a>
        ensures { posts_left result ≡ posts_of rank (trace_seen trace.now) }
    {
        Posts { rest: trace, rank }
    }

    /// Whether it has come to all of them. Linear in what is left of the trace.
    pub fn is_over(&self) -> bool
        ensures { IsTrue result ↔ (posts_left self.now ≡ []) }
    {
        let mut left = Posts {
            rest: self.rest,
            rank: self.rank,
        };
        left.next().is_none()
    }
}
