ghost use Rattle.std.specs.Prelude.{◌≡◌};
ghost use Rattle.coll_report.specs.Views.{seen};

use coll_report::Entry;
use std::marker::Model;

/// A copy of the entry that a call appended. Only the trace makes one. It can go to another thread,
/// which a `Receipt` can't do beside a tally. Contracts see the entry.
#[derive(Drop)]
pub struct Appended {
    entry: Entry,
}

impl Model for Appended {
    ghost use Rattle.coll_machine.specs.Entries.{Entry as Named};
    ghost use Rattle.coll_report.specs.Views.{seen};

    ghost Value = { Named };

    ghost view = { λ a. seen a.entry };
}

impl Appended {
    /// Makes the copy of an appended entry.
    pub(super) fn of(entry: Entry) -> Self
        ensures { result ≡ seen entry }
    {
        Appended { entry }
    }

    /// Returns the entry.
    pub fn entry(&self) -> &Entry
        ensures { seen result.now ≡ self.now }
    {
        &self.entry
    }
}
