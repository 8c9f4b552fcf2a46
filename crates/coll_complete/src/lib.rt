//! The completion calls of the core: over one request, and over lists of them (MPI 4.1, 3.7.3, 3.7.5 and 3.9).
//!
//! | Module | Has |
//! |---|---|
//! | `requests` | `Requests`, an engine whose requests these calls are over: a core, or one that keeps more |
//! | `core_calls` | the calls on a core alone: `test`, `test_any`, `test_all`, `test_some`, `request_free`, `start_all` |
//! | `request` | `Request`, a caller's hold on a request: null, or a ticket |
//! | `tested` | `Tested`, the result of a test of one request |
//! | `testing` | `test_on`, the test of one request on any engine |
//! | `freeing` | `request_free_on` |
//! | `distinct` | `are_distinct`, what `test_all` and `test_some` ask of a list |
//! | `survey` | `Survey`, what a list of requests has |
//! | `completing` | the completion of a list's requests |
//! | `any` | `Any`, the result of a test of a list for one request, and `test_any_on` |
//! | `all` | `test_all_on` |
//! | `some` | `test_some_on` |
//! | `halted` | `Halted`, where the starts of a list stopped |
//! | `starting` | `start_all_on` |
//!
//! ```
//! let mut requests = [Request::of(ticket), Request::null()];
//! if let Any::At(position, outcome) = test_any(core, 0, &mut requests)? {
//!     println!(rt; "request {position}: {} bytes", outcome.bytes.len())?;
//! }
//! ```
#![tactic(auto)]

mod all;
mod any;
mod completing;
mod core_calls;
mod distinct;
mod freeing;
mod halted;
mod request;
mod requests;
mod some;
mod starting;
mod survey;
mod tested;
mod testing;

pub use all::test_all_on;
pub use any::{Any, test_any_on};
pub use core_calls::{request_free, start_all, test, test_all, test_any, test_some};
pub use distinct::are_distinct;
pub use freeing::request_free_on;
pub use halted::Halted;
pub use request::Request;
pub use requests::Requests;
pub use some::test_some_on;
pub use starting::start_all_on;
pub use survey::Survey;
pub use tested::Tested;
pub use testing::{rest, test_on};
