//! How high trees are.
ghost use Rattle.std.specs.Prelude.{◌≡◌};
ghost use Rattle.merkle.specs.Height.{height};

const MOST_LEVELS: usize = 64;

/// The height of the tree of `count` leaves, and so the length of its chains: the least `h` at which
/// `count` is at most 2 to the power `h`, as 0 for one leaf and 4 for ten. It hashes nothing.
pub fn height(count: usize) -> usize
    ensures { result ≡ height count }
{
    for levels in 0..MOST_LEVELS {
        if count <= 1 << levels {
            return levels;
        }
    }
    MOST_LEVELS
}
