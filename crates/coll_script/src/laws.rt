//! Laws of all texts: each is the contract of a function without a body.

ghost use Rattle.std.specs.Prelude.{◌≡◌, ℕ, List, Ok, Err, Some};
ghost use Rattle.coll_parser.specs.declared.fault.Fault.{Fault};
ghost use Rattle.coll_parser.specs.declared.cause.Cause.TheVariants.{PlaceMismatch};
ghost use Rattle.coll_parser.specs.Histories.{History, beginning};
ghost use Rattle.coll_parser.specs.Judging.{judged, fault_at};
ghost use Rattle.coll_script.specs.Matching.{mismatch};
ghost use Rattle.coll_script.specs.Jobs.{job_of, all_postings, belonging};
ghost use Rattle.coll_script.specs.Belonging.{SaysOf, Belong};

/// A fault that is judged after the last line is true of the requests. By its cause it is the first request that differs from
/// the earliest at its place, a place that one member has and another lacks, or a place with different numbers of starts.
pub fn faults_say_so()
    ensures { (last : ℕ) (h : History) (fault : Fault) → belonging last h ≡ Err fault
        → SaysOf (all_postings (job_of h)) last fault.line fault.cause }
{}

/// If there is no such fault, the requests of all ranks belong together.
pub fn scripts_belong()
    ensures { (last : ℕ) (h : History) (made : History) → belonging last h ≡ Ok made
        → Belong (all_postings (job_of h)) }
{}

/// Lines with a place mismatch have one however the text goes on, unless a line that follows has a fault of its own.
pub fn mismatch_is_final()
    ensures { (lines : List (List ℕ)) (h : History) (line number : ℕ) (more : List (List ℕ)) (next : History) (last : ℕ)
        → judged 1 beginning lines ≡ Ok h → mismatch (all_postings (job_of h)) ≡ Some line → judged number h more ≡ Ok next
        → (other : ℕ) × (belonging last next ≡ fault_at other PlaceMismatch) }
{}
