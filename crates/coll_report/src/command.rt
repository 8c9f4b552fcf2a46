use coll_kinds::Signature;

/// What a rank has to do, as far as a trace shows it.
#[derive(Clone, Copy, Debug)]
pub enum Command<'a> {
    /// A nonblocking collective on a communicator, with what the rank gives.
    Post {
        comm: u32,
        sig: Signature,
        given: &'a [u8],
    },
    /// A persistent collective on a communicator.
    Init {
        comm: u32,
        sig: Signature,
    },
    /// The start of a persistent request, with what the rank gives this time. It names the request by its number among
    /// the rank's posts and initialisations, from 0.
    Start {
        request: u32,
        given: &'a [u8],
    },
    /// A wait, a test or a free: the rank gives nothing by it.
    Other,
}
