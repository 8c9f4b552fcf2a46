ghost use Rattle.std.specs.Prelude.{◌≡◌, ◌≤◌};
ghost use Rattle.coll_trees.specs.Depths.{depth};

/// The least number of steps, each at twice the distance of the one before, that reach `n` members: the
/// least d with 2^d ≥ n.
pub fn depth_of(n: u8) -> u8
    requires { n ≤ 64 }
    ensures depth { result ≡ depth n }
    ensures few { result ≤ 6 }
{
    for depth in 0..6 {
        if n <= 2u8.pow(u32::from(depth)) {
            return depth;
        }
    }
    6
}
