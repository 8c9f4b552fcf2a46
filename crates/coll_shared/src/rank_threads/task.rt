/// What the thread of a rank does with the rank's port; it ends with a `T`.
pub trait RankTask<T> {
    /// How the task may end.
    ghost IsEnd: { Self → T → Type 0 } = { λ _ _. Unit {0} };

    /// Uses the port, and ends it. If some thread couldn't be started, `all_started` is false, and
    /// the task only ends the port.
    fn run(self, all_started: bool) -> T
        ensures { IsEnd self result };
}
