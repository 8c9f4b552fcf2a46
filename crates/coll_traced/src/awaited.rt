use coll_complete::Request;

/// What a port waits for.
#[derive(Clone, Copy)]
pub enum Awaited<'a> {
    /// The request is no longer Pending.
    One(&'a Request),
    /// At least one of the requests is Done.
    Any(&'a [Request]),
    /// None of the requests is Pending.
    All(&'a [Request]),
}
