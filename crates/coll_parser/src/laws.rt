//! Laws of all texts: each is the contract of a function without a body.

ghost use Rattle.std.specs.Prelude.{◌≡◌, ℕ, ◌+◌, ◌≤◌, ◌↔◌, false, List, ◌∷◌, length, Ok, Err, Some};
ghost use Rattle.coll_parser.specs.declared.command.Command.{Command};
ghost use Rattle.coll_parser.specs.declared.fault.Fault.{Fault};
ghost use Rattle.coll_parser.specs.Cutting.{lines_of};
ghost use Rattle.coll_parser.specs.Histories.{History, may_be_active, beginning};
ghost use Rattle.coll_parser.specs.Judging.{judged};
ghost use Rattle.coll_parser.specs.Writing.{Tells, text_of};
ghost use Rattle.coll_parser.specs.Laws.{IsFirst, CanBeSaid, EachStartIsOver};

/// What is written is read: if each of a text's lines says the next step of a history, the lines have no fault, and they read
/// as that history.
pub fn reads_what_is_written()
    ensures { (first : List (List ℕ)) (lines : List (List (List ℕ))) (h : History) → Tells 1 beginning (first ∷ lines) h
        → judged 1 beginning (lines_of (text_of (first ∷ lines))) ≡ Ok h }
{}

/// What is accepted can be written: the history that a text's lines say is one of which [`reads_what_is_written`] speaks. The
/// text may write it otherwise, with blanks, comments or leading zeros; but some lines say it, and they read as the same
/// history.
pub fn accepted_can_be_said()
    ensures { (lines : List (List ℕ)) (h : History) → judged 1 beginning lines ≡ Ok h → CanBeSaid h }
{}

/// The fault of a text's lines is that of one line: the lines before it are accepted by themselves, and all texts that begin
/// with the lines up to it have the same fault.
pub fn first_fault_is_first()
    ensures { (lines : List (List ℕ)) (fault : Fault) → judged 1 beginning lines ≡ Err fault → IsFirst 1 beginning lines fault }
{}

/// A request is surely inactive exactly if it has had no start, or a wait has named it since its last start.
pub fn inactive_is_waited_for()
    ensures { (q : ℕ) (commands : List Command) → (may_be_active q commands ≡ false) ↔ EachStartIsOver q commands }
{}
