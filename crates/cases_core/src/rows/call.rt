use coll_kinds::Signature;

/// A call of a row. The row's requests are numbered from 0 in the order in which they were made; any other number stands for a
/// ticket of a slot that the engine doesn't have.
#[derive(Clone, Copy)]
pub enum CoreCall {
    /// A rank posts i32 values on communicator 0, with its own rank as the member number.
    Post(u8, Signature, &'static [u8]),
    /// A rank posts as many i32 values as the signature's count on communicator 0, each of them this value.
    PostEqual(u8, Signature, u8),
    /// A rank posts this number of bytes on communicator 0.
    PostBytes(u8, Signature, u8),
    /// A rank posts i32 values on a communicator, with a plan for that number of members and that member.
    Offer(u8, u32, (Signature, u8, u8), &'static [u8]),
    /// A rank initialises on communicator 0, with its own rank as the member number.
    Init(u8, Signature),
    /// A rank starts a request with i32 values.
    Start(u8, usize, &'static [u8]),
    /// A rank frees a request.
    Free(u8, usize),
    /// A rank asks how far a request is.
    Phase(u8, usize),
    /// Asks what a request is.
    About(usize),
    /// A rank completes a request.
    Retire(u8, usize),
    Lent,
    Quiet,
    /// Makes a step. A combination that it hands out is held.
    Step,
    /// Makes at most 20 steps, until one hands out a combination, which is held.
    StepsToWork,
    Settle,
    /// Settles, without the number of actions in the answer.
    Rest,
    /// Computes the combination that is held, and commits it.
    Commit,
    /// Abandons the combination that is held.
    Abandon,
    /// Computes a combination of another engine, of the same ticket, and commits it here. It is that engine's first, where
    /// ranks 0 and 1 have posted equal values with this signature, each its own.
    CommitForeign(Signature, [u8; 2]),
    /// Abandons such a combination of another engine here.
    AbandonForeign(Signature, [u8; 2]),
}
