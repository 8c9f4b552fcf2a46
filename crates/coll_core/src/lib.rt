//! The engine: requests for collectives, their matching, their progress action by action, and their
//! completion. Each call is proved to be a step of `coll_machine`'s abstract machine.
//!
//! | Module | Has |
//! |---|---|
//! | `config` | `Config`: what an engine is opened with |
//! | `communicators` | `Communicators`: the groups; `Seat`: a rank's membership in one |
//! | `contribution` | `Contribution`: what a member gives to a collective |
//! | `offer` | `Offer`: what a post hands in |
//! | `phase` | `Phase`: how far a request is |
//! | `about` | `About`: what a ticket's request is |
//! | `outcome` | `Outcome`: what a completion hands out |
//! | `buffer` | `Buffer`: the bytes that a schedule's actions read and write; `Laid`: the same before a lock is taken |
//! | `row` | `Row`: a short buffer's bytes, in place |
//! | `long` | `Long`: a long buffer's bytes, and the combination whose result is awaited |
//! | `request` | `Request`: what the engine keeps of a live request |
//! | `sent` | `Sent`: the path of a message |
//! | `shared_result` | long results that several members need |
//! | `combined` | the combination of two operands, as `Bytes` |
//! | `work` | `Work`, `DoneWork`: a combination that is computed outside the engine |
//! | `short_work` | `ShortWork`, `DoneShortWork`: one of up to eight bytes, by value |
//! | `word` | `Word`: up to eight bytes |
//! | `stepped` | `Stepped`: what a step did |
//! | `engine` | `Core`, with its calls by what they do |
//! | `laws` | theorems about an engine between its calls |
//!
//! ```
//! let plan = plan(alloc, Signature::allreduce(Op::Sum, Datatype::I32, 1), 1, 0)?;
//! let offer = Offer::of_i32s(alloc, plan, &[7])?;
//! let ticket = core.post(0, 0, offer).map_err(|refused| refused.why)?;
//! core.settle()?;
//! let outcome = core.retire(0, ticket)?;
//! ```
#![tactic(auto)]

mod about;
mod buffer;
mod combined;
mod communicators;
mod config;
mod contribution;
mod engine;
pub mod laws;
mod long;
mod offer;
mod outcome;
mod phase;
mod request;
mod row;
mod sent;
mod shared_result;
mod short_work;
mod stepped;
mod word;
mod work;

pub use about::About;
pub use buffer::{Buffer, Laid};
pub use communicators::{Communicators, Seat, copied_groups};
pub use config::Config;
pub use contribution::Contribution;
pub use engine::Core;
pub use offer::Offer;
pub use outcome::Outcome;
pub use phase::Phase;
pub use short_work::{DoneShortWork, ShortWork};
pub use stepped::Stepped;
pub use word::WORD;
pub use work::{DoneWork, Work};
