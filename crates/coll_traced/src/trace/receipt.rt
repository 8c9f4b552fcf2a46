ghost use Rattle.std.specs.Prelude.{◌≡◌};
ghost use Rattle.coll_report.specs.Views.{seen};

use crate::trace::Appended;
use coll_report::Entry;
use std::marker::Model;
use std::snapshot::Snapshot;

/// Shows which entry a call appended to the trace. Takes no bytes. Only the trace makes one, or an
/// entry that the trace appended. Contracts see the entry.
#[derive(Drop)]
pub struct Receipt {
    entry: Snapshot<Entry>,
}

impl Model for Receipt {
    ghost use Rattle.coll_machine.specs.Entries.{Entry as Named};
    ghost use Rattle.coll_report.specs.Views.{seen};

    ghost Value = { Named };

    ghost view = { λ r. seen r.entry.value };
}

impl Receipt {
    /// Makes the receipt of an entry that is about to be appended.
    pub(super) fn of_entry(entry: &Entry) -> Self
        ensures { result ≡ seen entry.now }
    {
        Receipt {
            entry: Snapshot::of(entry),
        }
    }

    /// Makes the receipt of an entry that another thread appended for the caller.
    pub fn of(appended: &Appended) -> Self
        ensures { result ≡ appended.now }
    {
        Receipt::of_entry(appended.entry())
    }
}
