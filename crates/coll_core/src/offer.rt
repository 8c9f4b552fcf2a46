ghost use Rattle.std.specs.Prelude.{◌≡◌, IfErr, IfOk};
ghost use Rattle.coll_core.specs.Posts.{IsLaid};
ghost use Rattle.coll_core.specs.Numbers.{number_bytes};

use crate::buffer::Laid;
use crate::contribution::Contribution;
use coll_kinds::Refusal;
use coll_plans::Plan;
use std::alloc::Global;

/// What a post hands in: the member's plan of the collective, and its contribution.
#[derive(Debug, Drop)]
pub struct Offer {
    pub plan: Plan,
    /// As many bytes as the plan's member gives.
    pub bytes: Contribution,
}

impl Offer {
    /// Offers these numbers, four bytes each.
    ///
    /// # Errors
    ///
    /// NoMemory. The plan is dropped then; a plan can be made again at any time.
    pub fn of_i32s(alloc: Global, plan: Plan, numbers: &[i32]) -> Result<Offer, Refusal>
        ensures plan { IfOk result (λ offer. offer.plan ≡ plan) }
        ensures bytes { IfOk result (λ offer. offer.bytes ≡ number_bytes numbers.now) }
        ensures refused { IfErr result (λ why. why ≡ Refusal.NoMemory) }
    {
        let mut bytes = Vec::new(alloc);
        for number in numbers {
            bytes.extend_from_slice(&number.to_le_bytes())?;
        }
        Ok(Offer {
            plan,
            bytes: Contribution::new(bytes),
        })
    }

    /// Makes the schedule's buffer with the contribution, for `Core::post_laid`. A long buffer
    /// shares the contribution, a short one copies it. No engine is needed, so the buffer can be
    /// made before a lock is taken. If the contribution has the wrong length, which a post refuses,
    /// the buffer is empty.
    ///
    /// # Errors
    ///
    /// NoMemory.
    pub fn lay_in(&mut self, alloc: Global) -> Result<Laid, Refusal>
        ensures laid { IfOk result (λ laid. IsLaid self.old laid) }
        ensures refused { IfErr result (λ why. why ≡ Refusal.NoMemory) }
        ensures same { self.new ≡ self.old }
    {
        let schedule = self.plan.schedule();
        if self.bytes.len() != schedule.input().len as usize {
            return Ok(Laid::empty(alloc));
        }
        Laid::lay_in(alloc, schedule, &mut self.bytes)
    }
}
