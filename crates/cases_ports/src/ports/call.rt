use coll_kinds::Signature;

/// A call of a row. Requests are numbered from 0 in the order in which they were made.
#[derive(Clone, Copy)]
pub enum PortCall {
    /// Adds a null request.
    Null,
    /// A rank posts on a communicator, and gives these bytes.
    Post(u8, u32, Signature, &'static [u8]),
    /// A rank initialises on a communicator.
    Init(u8, u32, Signature),
    /// A rank starts a request with these bytes.
    Start(u8, usize, &'static [u8]),
    /// A rank frees a request.
    Free(u8, usize),
    /// A rank tests a request.
    Test(u8, usize),
    /// A rank tests the ticket that a request had when it was made.
    TestTicket(u8, usize),
    /// A rank waits for a request.
    Wait(u8, usize),
    /// Rank 0 posts a request, which gets no number, and waits for it.
    PostAndWait(u32, Signature, &'static [u8]),
    /// Rank 0 makes a call over all requests.
    Over(ListCall),
    /// Rank 0 makes a call over requests: the number of the first, and how many there are.
    OverSome(ListCall, usize, usize),
    /// Asks whether a request is null.
    IsNull(usize),
    /// Asks how many requests aren't null.
    Left,
    /// Asks the port of a rank for its rank and the number of entries that it made.
    Made(u8),
    /// Ends the port of the highest rank that has one.
    Finish,
    /// Puts aside the port of the highest rank that has one, without ending it.
    PutAside,
    /// Asks progress threads to end.
    Stop,
    /// Does what a progress thread does.
    Work,
}

impl PortCall {
    /// Whether the call may take memory. A test of one request and a free take none.
    pub fn takes_memory(self) -> bool {
        !matches!(
            self,
            PortCall::Test(..) | PortCall::TestTicket(..) | PortCall::Free(..) | PortCall::Made(_)
        )
    }
}

/// A completion call over a list of requests.
#[derive(Clone, Copy)]
pub enum ListCall {
    TestAny,
    WaitAny,
    TestAll,
    WaitAll,
    TestSome,
    WaitSome,
}
