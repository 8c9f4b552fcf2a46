//! Laws of all drawings, as contracts of functions that do nothing, so that a crate above may cite them.

ghost use Rattle.coll_draw.specs.Laws.{ArrowsAreMessages, DrawnArrowsAreMessages};

/// Each arrow of a lawful family is a message: in its round its sender sends the arrow's bytes to its receiver, and the
/// receiver takes as many from the sender.
pub fn arrows_are_messages()
    ensures { ArrowsAreMessages }
{}

/// The same holds for the arrows of every checked signature, for 1 to 64 members.
pub fn drawn_arrows_are_messages()
    ensures { DrawnArrowsAreMessages }
{}
