ghost use Rattle.std.specs.Prelude.{◌≡◌, ◌↔◌, IsTrue};
ghost use Rattle.coll_core.specs.declared.stepped.Stepped.TheVariants.{Finished};
ghost use Rattle.coll_core.specs.Steps.{IsWork, stepped_by};

use crate::work::Work;

/// What a step did. It can't be dropped, since it may have a combination.
#[derive(Debug)]
pub enum Stepped {
    /// Nothing, because no request is ready.
    Quiet,
    /// One action of one request, which has more to do.
    Moved,
    /// The last action of one request, which is Done now.
    Finished,
    /// It handed a combination out, which is to be committed or abandoned.
    Out(Work),
}

impl Stepped {
    /// Returns `Finished` or `Moved`.
    pub(crate) fn by(finished: bool) -> Stepped
        ensures { result ≡ stepped_by finished }
    {
        if finished {
            Stepped::Finished
        } else {
            Stepped::Moved
        }
    }

    /// Whether the request is Done; for a step that handed nothing out, as that of a commit.
    pub fn has_finished(self) -> bool
        requires { IsWork self → ⊥ }
        ensures { IsTrue result ↔ (self ≡ Finished) }
    {
        match self {
            Stepped::Quiet | Stepped::Moved => false,
            Stepped::Finished => true,
            Stepped::Out(_work) => unreachable!(),
        }
    }
}
