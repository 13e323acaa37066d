//! What can be wrong with the blocks that are given to be decoded.
ghost use Rattle.std.specs.Prelude.{◌↔◌, ◌<◌, IsTrue, All};
ghost use Rattle.erasure.specs.Given.{numbered_of, numbers_of, blocks_of, Repeats, HasAnotherLength};

/// Whether a number stands twice.
pub(crate) fn repeats(given: &[(u16, &[u8])]) -> bool
    requires { All (λ g. g.0 < 256) given.now }
    ensures { IsTrue result ↔ Repeats (numbers_of (numbered_of given.now)) }
{
    let mut seen = [false; 256];
    for (number, _) in given {
        if seen[*number as usize] {
            return true;
        }
        seen[*number as usize] = true;
    }
    false
}

/// Whether a block is longer or shorter than the first.
pub(crate) fn has_another_length(given: &[(u16, &[u8])]) -> bool
    ensures { IsTrue result ↔ HasAnotherLength (blocks_of (numbered_of given.now)) }
{
    for (_, block) in given {
        if block.len() != given[0].1.len() {
            return true;
        }
    }
    false
}
