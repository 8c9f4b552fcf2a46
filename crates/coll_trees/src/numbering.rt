ghost use Rattle.std.specs.Prelude.{◌≡◌, ◌<◌, ◌≤◌};
ghost use Rattle.coll_trees.specs.BinomialTreeBcast.{from_root, member_at};

/// Member `r`'s number among `n` members, counted round from the root, which has number 0.
pub fn from_root(n: u8, root: u8, r: u8) -> u8
    requires few { n ≤ 64 }
    requires root { root < n }
    requires member { r < n }
    ensures number { result ≡ from_root n root r }
    ensures low { result < n }
{
    if root <= r { r - root } else { r + n - root }
}

/// The member with that number.
pub fn member_at(n: u8, root: u8, number: u8) -> u8
    requires few { n ≤ 64 }
    requires root { root < n }
    requires member { number < n }
    ensures { result ≡ member_at n root number }
{
    if number + root < n {
        number + root
    } else {
        number + root - n
    }
}
