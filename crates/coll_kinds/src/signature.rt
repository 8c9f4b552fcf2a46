ghost use Rattle.std.specs.Prelude.{◌≡◌, ◌≤◌, ◌^◌, ◌↔◌, length, IsTrue, MatchOption, IsOk, IsErrOf};
ghost use Rattle.coll_kinds.specs.Checks.{counts_below_fit};

use crate::datatype::Datatype;
use crate::kind::{Kind, Mode};
use crate::limits::{MAX_COUNT, MAX_LEN, MAX_RANKS};
use crate::operation::Op;
use crate::refusal::{Refusal, SignatureFault};
use crate::same_signature::same_signature;
use std::fmt;

/// What all members of a communicator have to agree on at one place of their posting lists.
#[derive(Clone, Copy, Debug, PartialEq, Eq)]
pub struct Signature {
    pub kind: Kind,
    pub mode: Mode,
    /// The root's member number; 0 for a kind without a root.
    pub root: u8,
    /// The operation of a reduction; none for the other kinds.
    pub op: Option<Op>,
    pub ty: Datatype,
    /// The elements in a block; 0 where each member's are counted.
    pub count: u32,
    /// The elements of each member's row in an allgatherv, and 0 after the last member; none for the other kinds.
    pub each: Option<[u32; MAX_RANKS]>,
}

impl Signature {
    ghost use Rattle.coll_kinds.specs.Lengths.{block_len, row_len, total, given_len, got_len, lent};
    ghost use Rattle.coll_kinds.specs.Needs.{needs};
    ghost use Rattle.coll_kinds.specs.Sameness.{same_signature};
    ghost use Rattle.coll_kinds.specs.Checks.{broken, root_fits, operation_fits, one_count_fits, count_fits, size_fits, sizes_fit};

    /// Tests the signature for `n` members. Of the rules that it breaks, the first is returned, in the
    /// order [`SignatureFault::Root`], `Operation`, `Count`, `Size`.
    pub fn check(&self, n: u8) -> Result<(), Refusal>
        ensures { MatchOption (broken self.now n)
            (IsOk result)
            (λ cause. IsErrOf result (Refusal.BadSignature cause)) }
    {
        if !self.root_fits(n) {
            return Err(refused(SignatureFault::Root));
        }
        if !self.operation_fits() {
            return Err(refused(SignatureFault::Operation));
        }
        if !self.count_fits(n) {
            return Err(refused(SignatureFault::Count));
        }
        if !self.sizes_fit(n) {
            return Err(refused(SignatureFault::Size));
        }
        Ok(())
    }

    /// Whether two signatures are the same, the mode included.
    pub fn is_same(&self, other: &Signature) -> bool
        ensures computed { result ≡ same_signature self.now other.now }
        ensures decides { IsTrue result ↔ (self.now ≡ other.now) }
    {
        same_signature(self, other)
    }

    /// The bytes of one block: the count times the element's width.
    pub fn block_len(&self) -> usize
        ensures { result ≡ block_len self.now }
    {
        self.count as usize * self.ty.width()
    }

    /// The bytes of member `i`'s row of an allgatherv; 0 for the other kinds.
    pub fn row_len(&self, i: u8) -> usize
        ensures len { result ≡ row_len self.now i }
        ensures small { result ≤ 2 ^ 35 }
    {
        match &self.each {
            Some(counts) => match counts.get(usize::from(i)) {
                Some(count) => *count as usize * self.ty.width(),
                None => 0,
            },
            None => 0,
        }
    }

    /// The bytes of the first `k` rows of an allgatherv, at a cost linear in `k`; 0 for the other kinds, at none.
    pub fn rows_len(&self, k: u8) -> usize
        ensures len { result ≡ total (row_len self.now) k }
        ensures small { result ≤ 2 ^ 43 }
    {
        if self.each.is_none() {
            return 0;
        }
        let mut len = 0;
        for i in 0..k {
            len += self.row_len(i);
        }
        len
    }

    /// The bytes that member `r` of `n` gives.
    pub fn given_len(&self, n: u8, r: u8) -> usize
        ensures len { result ≡ given_len self.now n r }
        ensures small { result ≤ 2 ^ 48 }
    {
        let block = self.block_len();
        match self.kind {
            Kind::Barrier => 0,
            Kind::Bcast if r == self.root => block,
            Kind::Scatter if r == self.root => usize::from(n) * block,
            Kind::Bcast | Kind::Scatter => 0,
            Kind::Alltoall | Kind::Rsblock => usize::from(n) * block,
            Kind::Allgatherv => self.row_len(r),
            Kind::Gather
            | Kind::Allgather
            | Kind::Reduce
            | Kind::Allreduce
            | Kind::Scan
            | Kind::Exscan => block,
        }
    }

    /// The bytes that member `r` of `n` gets.
    pub fn got_len(&self, n: u8, r: u8) -> usize
        ensures len { result ≡ got_len self.now n r }
        ensures small { result ≤ 2 ^ 48 }
    {
        let block = self.block_len();
        match self.kind {
            Kind::Barrier => 0,
            Kind::Gather if r == self.root => usize::from(n) * block,
            Kind::Reduce if r == self.root => block,
            Kind::Gather | Kind::Reduce => 0,
            Kind::Exscan if r == 0 => 0,
            Kind::Allgather | Kind::Alltoall => usize::from(n) * block,
            Kind::Allgatherv => self.rows_len(n),
            Kind::Bcast
            | Kind::Scatter
            | Kind::Allreduce
            | Kind::Rsblock
            | Kind::Scan
            | Kind::Exscan => block,
        }
    }

    /// The bytes that an active request of member `r` lends to the engine: given and got together.
    pub fn lent(&self, n: u8, r: u8) -> usize
        ensures { result ≡ lent self.now n r }
    {
        self.given_len(n, r) + self.got_len(n, r)
    }

    /// Whether `p` is one of the `n` members, and member `r`'s outcome rests on what it gives.
    pub fn needs(&self, n: u8, r: u8, p: u8) -> bool
        ensures { result ≡ needs self.now n r p }
    {
        p < n
            && match self.kind {
                Kind::Bcast | Kind::Scatter => p == self.root,
                Kind::Gather | Kind::Reduce => r == self.root || p == r,
                Kind::Scan => p <= r,
                Kind::Exscan => p < r,
                Kind::Barrier
                | Kind::Allgather
                | Kind::Allgatherv
                | Kind::Alltoall
                | Kind::Allreduce
                | Kind::Rsblock => true,
            }
    }

    fn root_fits(&self, n: u8) -> bool
        ensures { result ≡ root_fits self.now n }
    {
        if self.kind.has_root() {
            self.root < n
        } else {
            self.root == 0
        }
    }

    fn operation_fits(&self) -> bool
        ensures { result ≡ operation_fits self.now }
    {
        if !self.kind.has_operation() {
            return self.op.is_none();
        }
        match self.op {
            Some(op) => op.is_allowed_on(self.ty),
            None => false,
        }
    }

    fn count_fits(&self, n: u8) -> bool
        ensures { result ≡ count_fits self.now n }
    {
        self.one_count_fits()
            && match &self.each {
                Some(counts) => self.kind.has_counts() && counts_fit(counts, n),
                None => !self.kind.has_counts(),
            }
    }

    fn one_count_fits(&self) -> bool
        ensures { result ≡ one_count_fits self.now }
    {
        match self.kind {
            Kind::Barrier | Kind::Allgatherv => self.count == 0,
            _ => self.count <= MAX_COUNT,
        }
    }

    /// Nobody gives or gets more than a block or a row of each member. Only where that is too much is each member asked,
    /// at a cost linear in `n`, and quadratic for an allgatherv.
    fn sizes_fit(&self, n: u8) -> bool
        ensures { result ≡ sizes_fit self.now n n }
    {
        let all = usize::from(n) * self.block_len() + self.rows_len(n);
        if all <= MAX_LEN {
            return true;
        }
        self.each_size_fits(n)
    }

    fn each_size_fits(&self, n: u8) -> bool
        ensures { result ≡ sizes_fit self.now n n }
    {
        let mut fits = true;
        for r in 0..n {
            fits = fits && self.size_fits(n, r);
        }
        fits
    }

    fn size_fits(&self, n: u8, r: u8) -> bool
        ensures { result ≡ size_fits self.now n r }
    {
        self.given_len(n, r) <= MAX_LEN && self.got_len(n, r) <= MAX_LEN
    }
}

/// Whether each of the `n` members has a count within the limit, and 0 stands after them.
fn counts_fit(counts: &[u32; MAX_RANKS], n: u8) -> bool
    ensures { result ≡ counts_below_fit counts.now n (length counts.now) }
{
    let mut fits = true;
    for i in 0..64 {
        let count = counts[i];
        fits = fits
            && if i < usize::from(n) {
                count <= MAX_COUNT
            } else {
                count == 0
            };
    }
    fits
}

fn refused(cause: SignatureFault) -> Refusal
    ensures { result ≡ Refusal.BadSignature cause }
{
    Refusal::BadSignature { cause }
}

/// The words of a job text: the kind, then, where it has them, the root, the operation, the type and the count. Of an
/// allgatherv's counts the last one written isn't 0. A persistent one has `persistent` before them.
impl fmt::Display for Signature {
    fn fmt<W: fmt::Write>(&self, f: &mut fmt::Formatter<W>) -> fmt::Result {
        if let Mode::Persistent = self.mode {
            f.write_str("persistent ")?;
        }
        write!(f, "{}", self.kind)?;
        if let Kind::Barrier = self.kind {
            return Ok(());
        }
        if self.kind.has_root() {
            write!(f, " {}", self.root)?;
        }
        if let Some(op) = self.op {
            write!(f, " {op}")?;
        }
        write!(f, " {}", self.ty)?;
        match &self.each {
            Some(counts) => write_counts(counts, f),
            None => write!(f, " {}", self.count),
        }
    }
}

fn write_counts<W: fmt::Write>(
    counts: &[u32; MAX_RANKS],
    f: &mut fmt::Formatter<W>,
) -> fmt::Result {
    let told = counts.iter().rposition(|count| *count != 0);
    for count in counts.iter().take(told.map_or(0, |last| last + 1)) {
        write!(f, " {count}")?;
    }
    Ok(())
}
