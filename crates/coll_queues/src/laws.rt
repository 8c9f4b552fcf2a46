//! Laws of posting lists. A call does nothing; its contract is the law.

ghost use Rattle.coll_queues.specs.Sound.{IsSound};

use crate::queues::Queues;

/// Any two lists of one communicator are equal at each place that both have.
pub fn is_sound(queues: &Queues)
    ensures { IsSound queues.now }
{
    queues.check();
}
