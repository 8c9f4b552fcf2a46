ghost use Rattle.std.specs.Prelude.{◌≡◌, ◌≤◌, ◌<◌, ◌%◌, ◌+◌, nat_lt};
ghost use Rattle.coll_plans.specs.RecursiveDoublingHypercube.{dimension};

/// The greatest hypercube whose corners members fill: as many corners as the greatest power of two that `n`
/// members reach. The first `extra` corners stand for two neighbours each, the others for one member.
#[derive(Clone, Copy, Debug)]
pub(crate) struct Hypercube {
    /// How many dimensions.
    pub dimension: u8,
    /// How many corners stand for two members.
    pub extra: u8,
    ghost low: { dimension ≤ 6 },
    ghost few: { extra ≤ 64 },
}

impl Hypercube {
    ghost use Rattle.coll_plans.specs.RecursiveDoublingHypercube.{extra, corner, lowest, across};

    /// The hypercube of `n` members.
    pub fn new(n: u8) -> Self
        requires some { 0 < n }
        requires few { n ≤ 64 }
        ensures dimension { result.dimension ≡ dimension n }
        ensures extra { result.extra ≡ extra n }
    {
        let dimension = dimension_of(n);
        Hypercube {
            dimension,
            extra: n - 2u8.pow(u32::from(dimension)),
        }
    }

    /// The corner that stands for member `r`.
    pub fn corner(self, r: u8) -> u8
        requires { r < 64 }
        ensures corner { result ≡ corner self.extra r }
        ensures low { result ≤ 64 }
    {
        if r < self.extra + self.extra {
            r / 2
        } else {
            r - self.extra
        }
    }

    /// The member with whom that corner exchanges at a distance: the lowest of the corner across.
    pub fn mate(self, corner: u8, distance: u8) -> u8
        requires near { distance ≤ 32 }
        requires low { corner ≤ 64 }
        requires some { 0 < distance }
        ensures { result ≡ lowest self.extra (across corner distance) }
    {
        if is_before(corner, distance) {
            self.lowest(corner + distance)
        } else {
            self.lowest(corner - distance)
        }
    }

    /// The lowest member of a corner.
    pub fn lowest(self, corner: u8) -> u8
        requires { corner ≤ 96 }
        ensures { result ≡ lowest self.extra corner }
    {
        if corner < self.extra {
            corner + corner
        } else {
            corner + self.extra
        }
    }
}

/// Whether a corner comes before the one with which it exchanges at that distance.
pub(crate) fn is_before(corner: u8, distance: u8) -> bool
    requires some { 0 < distance }
    requires near { distance ≤ 32 }
    ensures { result ≡ nat_lt (corner % (distance + distance)) distance }
{
    corner % (distance + distance) < distance
}

// The greatest k with 2^k ≤ n.
fn dimension_of(n: u8) -> u8
    requires some { 0 < n }
    requires few { n ≤ 64 }
    ensures dimension { result ≡ dimension n }
    ensures low { result ≤ 6 }
{
    for dimension in 0..6 {
        if n < 2u8.pow(u32::from(dimension + 1)) {
            return dimension;
        }
    }
    6
}
