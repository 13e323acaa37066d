//! How many shares are enough of how many.
ghost use Rattle.std.specs.Prelude.{◌↔◌, IsTrue};
ghost use Rattle.octets.specs.Sharing.{IsSharing};

/// The most shares that are made of one file.
const MOST_SHARES: u16 = 256;

/// Whether `k` shares can be enough of `n` that are made: `1 <= k <= n <= 256`.
pub fn is_sharing(k: u16, n: u16) -> bool
    ensures { IsTrue result ↔ IsSharing k n }
{
    1 <= k && k <= n && n <= MOST_SHARES
}
