//! Which members' rows the combinations of an allreduce join.

ghost use Rattle.std.specs.Prelude.{◌≡◌, ◌+◌, ◌<◌, ◌≤◌, None, IfNone, IfSome};
ghost use Rattle.coll_kinds.specs.declared.kind.Kind.TheVariants.{Allreduce};
ghost use Rattle.coll_kinds.specs.Checks.{broken};
ghost use Rattle.coll_plans.specs.Joins.{CombinesNothing, JoinsRows};

use crate::recursive_doubling_hypercube::Hypercube;
use coll_kinds::{Kind, Signature};

/// Neighbouring members, in member order.
#[derive(Clone, Copy, Debug, PartialEq, Eq)]
pub struct Neighbours {
    /// The lowest of them.
    pub first: u8,
    /// How many they are.
    pub count: u8,
}

/// The members whose rows member `r`'s combination in that round joins: members who get the same answer combine the same rows.
/// The answer is None only for a collective that is no allreduce, and for a round in which the member combines nothing. It takes
/// constant time.
pub(crate) fn joined_rows(sig: &Signature, n: u8, r: u8, round: usize) -> Option<Neighbours>
    requires checked { broken sig.now n ≡ None }
    requires member { r < n }
    requires few { n ≤ 64 }
    ensures joins { IfSome result (λ joined. JoinsRows sig.now n r round joined.first joined.count) }
    ensures few { IfSome result (λ joined. joined.first + joined.count ≤ 64) }
    ensures none { sig.now.kind ≡ Allreduce → IfNone result (CombinesNothing sig.now n r round) }
{
    if sig.kind != Kind::Allreduce || round % 2 == 0 {
        return None;
    }
    let cube = Hypercube::new(n);
    let step = round / 2;
    if step > usize::from(cube.dimension) {
        return None;
    }
    let size = 2u8.pow(step as u32);
    let begin = cube.corner(r) / size * size;
    let first = cube.lowest(begin);
    Some(Neighbours {
        first,
        count: cube.lowest(begin + size) - first,
    })
}
