ghost use Rattle.std.specs.Prelude.{◌≡◌, [], ◌∷◌, drop, length};
ghost use Rattle.coll_report.specs.Views.{trace_seen};

use crate::tally::Entries;
use crate::traced_core::Completed;
use coll_core::Outcome;
use coll_kinds::Ticket;
use coll_report::Entry;
use std::marker::Model;
use std::snapshot::Snapshot;

/// Shows which entries a call appended to the trace. Only the trace makes one, or a completion.
/// Contracts see the list of entries.
#[derive(Drop)]
pub struct Receipts {
    shown: Shown,
}

/// What shows the entries.
#[derive(Drop)]
pub(crate) enum Shown {
    /// Two snapshots of the trace, between which the entries were appended.
    Between {
        before: Snapshot<Vec<Entry>>,
        after: Snapshot<Vec<Entry>>,
    },
    /// A completion with this outcome.
    Completion {
        rank: u8,
        ticket: Ticket,
        outcome: Snapshot<Outcome>,
    },
}

impl Model for Receipts {
    ghost use Rattle.std.specs.Prelude.{List};
    ghost use Rattle.coll_machine.specs.Entries.{Entry};
    ghost use Rattle.coll_traced.specs.Receipts.{entries_shown};

    ghost Value = { List Entry };

    ghost view = { λ r. entries_shown r.shown };
}

impl Receipts {
    /// Makes the receipts of what was appended between two snapshots.
    pub(super) fn between(before: Snapshot<Vec<Entry>>, after: Snapshot<Vec<Entry>>) -> Self
        ensures { result ≡ drop (length (trace_seen before.value.items)) (trace_seen after.value.items) }
    {
        Receipts {
            shown: Shown::Between { before, after },
        }
    }

    /// Makes the receipt of a request that was completed for its port.
    pub(crate) fn of<L: Entries>(completed: &Completed<L>) -> Self
        ensures { result ≡ completed.now.entry ∷ [] }
    {
        Receipts {
            shown: Shown::Completion {
                rank: completed.rank,
                ticket: completed.ticket,
                outcome: Snapshot::of(&completed.outcome),
            },
        }
    }
}
