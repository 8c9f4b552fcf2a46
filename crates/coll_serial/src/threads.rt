//! What may go from one thread to another, so that a lock round an engine is enough, and a combination is computed wherever one
//! likes. A function does nothing; that it is proved is the statement.

use crate::combination::Combination;
use crate::engine::Engine;
use coll_core::{Contribution, Core, DoneWork, Offer, Outcome, Work};
use coll_plans::Plan;

/// A type whose values may go to another thread.
fn goes<T: Send>() {}

/// An engine may, and what it hands out.
pub fn engines_go() {
    goes::<Engine>();
    goes::<Option<Box<Engine>>>();
    goes::<Option<Box<Combination>>>();
    goes::<Option<Box<Contribution>>>();
}

/// So may a core, and what is handed to it and by it.
pub fn cores_go() {
    goes::<Core>();
    goes::<Plan>();
    goes::<Offer>();
    goes::<Contribution>();
    goes::<Outcome>();
    goes::<Work>();
    goes::<DoneWork>();
}
