/// What runs show that were replayed.
#[derive(Clone, Copy, Debug, PartialEq, Eq)]
pub enum Finding {
    /// By this engine's schedules some run deadlocks; nothing is said of other runs.
    InSome,
    /// By this engine's schedules some run deadlocks, and some run ends.
    Sometimes,
}

impl Finding {
    ghost use Rattle.std.specs.Prelude.{◌≡◌};
    ghost use Rattle.coll_witness.specs.Findings.{heading, word};

    /// The first line for a reader.
    pub(crate) fn heading(self) -> &'static str
        ensures { result.now ≡ heading self }
    {
        match self {
            Finding::InSome => "stalls in some runs (proved), and none was found that ends",
            Finding::Sometimes => "stalls in some runs (proved), and ends in others (proved)",
        }
    }

    /// The verdict in a word of JSON.
    pub(crate) fn word(self) -> &'static str
        ensures { result.now ≡ word self }
    {
        match self {
            Finding::InSome => "in some",
            Finding::Sometimes => "sometimes",
        }
    }
}
