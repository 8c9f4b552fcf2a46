//! The plans that a rank made last, so that a collective which it posts again and again is planned once.
//!
//! | Module | Has |
//! |---|---|
//! | `plans` | `Plans`, up to eight plans, looked up by signature, size and member |
//! | `made_plan` | one plan, and a second one of the same for what another thread does by it |
//!
//! ```
//! let mut plans = Plans::new(alloc);
//! let plan = plans.plan_of(&Signature::allreduce(Op::Sum, Datatype::U8, 1), 4, 0)?;
//! ```
#![tactic(auto)]

mod made_plan;
mod plans;

pub use plans::Plans;
