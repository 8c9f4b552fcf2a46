ghost use Rattle.std.specs.Prelude.{◌≡◌, ◌^◌, ◌<◌};
ghost use Rattle.coll_arena.specs.ListNames.{number_of};

/// The lists of an arena. A live request lies on one of the last five.
#[derive(Clone, Copy, Debug, PartialEq, Eq)]
pub enum ListName {
    /// Slots without a request.
    Free,
    /// Slots that are never used again.
    Worn,
    /// Requests whose next step can be taken.
    Ready,
    /// Requests whose next step is out.
    Running,
    /// Persistent requests of a communicator that aren't active.
    Idle(u32),
    /// Requests of a communicator that wait.
    Queue(u32),
    /// Requests of a communicator that are complete.
    Done(u32),
}

impl ListName {
    /// The number of the list.
    pub fn number(self) -> u32
        requires { number_of self < 2 ^ 32 }
        ensures { result ≡ number_of self }
    {
        match self {
            ListName::Free => 0,
            ListName::Worn => 1,
            ListName::Ready => 2,
            ListName::Running => 3,
            ListName::Idle(comm) => 4 + 3 * comm,
            ListName::Queue(comm) => 5 + 3 * comm,
            ListName::Done(comm) => 6 + 3 * comm,
        }
    }
}
