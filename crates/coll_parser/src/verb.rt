/// The first word of a command.
#[derive(Clone, Copy, Debug)]
pub(crate) enum Verb {
    Post,
    Init,
    Start,
    Wait,
    Test,
    Free,
    WaitAny,
    WaitSome,
    WaitAll,
}
