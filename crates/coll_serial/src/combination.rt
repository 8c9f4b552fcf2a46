ghost use Rattle.std.specs.Prelude.{◌≡◌, None, Some, false, IsOkUnless, OnErr, OnOk};
ghost use Rattle.coll_serial.specs.Combinations.{is_due, piece_of};

use coll_core::{DoneWork, Work};
use coll_kinds::{Refusal, Refused};
use std::marker::Model;
use std::mem;

/// How far a combination outside an engine is.
#[derive(Debug)]
pub enum Stage {
    /// It is to be computed.
    Due(Work),
    /// It has its result.
    Computed(DoneWork),
}

/// A combination that an engine handed out, so that it is computed outside the engine, and outside its lock. `take_back` takes
/// it. C holds it behind a pointer, and may drop it, where its engine is gone. Contracts see its stage; one that has none is of no use.
#[derive(Debug)]
pub struct Combination {
    stage: Option<Stage>,
}

impl Drop for Combination {
    fn drop(self) {
        let Combination { stage } = self;
        match stage {
            None => {}
            Some(Stage::Due(work)) => work.discard(),
            Some(Stage::Computed(done)) => done.discard(),
        }
    }
}

impl Model for Combination {
    ghost use Rattle.std.specs.Prelude.{Option};
    ghost use Rattle.coll_serial.specs.declared.combination.Stage.{Stage as How};

    ghost Value = { Option How };

    ghost view = { λ c. c.stage };
}

impl Combination {
    /// No combination, in whose place one comes.
    pub fn none() -> Combination
        ensures { result ≡ None }
    {
        Combination { stage: None }
    }

    /// One that is to be computed.
    pub(crate) fn due(work: Work) -> Combination
        ensures { result ≡ Some (Stage.Due work) }
    {
        Combination {
            stage: Some(Stage::Due(work)),
        }
    }

    /// Computes it, unless that was done.
    ///
    /// # Errors
    ///
    /// NoMemory, and it is as it was; rows of up to 16 bytes take none.
    pub fn compute(&mut self) -> Result<(), Refusal>
        ensures piece { OnOk result (piece_of self.new ≡ piece_of self.old) }
        ensures computed { OnOk result (is_due self.new ≡ false) }
        ensures err { OnErr result (self.new ≡ self.old) }
        ensures refusal { IsOkUnless result Refusal.NoMemory }
    {
        let (stage, answer) = match self.stage.take() {
            None => (None, Ok(())),
            Some(Stage::Computed(done)) => (Some(Stage::Computed(done)), Ok(())),
            Some(Stage::Due(work)) => match work.run() {
                Ok(done) => (Some(Stage::Computed(done)), Ok(())),
                Err(Refused { why, back }) => (Some(Stage::Due(back)), Err(why)),
            },
        };
        match mem::replace(&mut self.stage, stage) {
            None => answer,
            Some(_taken) => unreachable!(),
        }
    }

    pub(crate) fn into_stage(self) -> Option<Stage>
        ensures { result ≡ self }
    {
        let Combination { stage } = self;
        stage
    }
}
