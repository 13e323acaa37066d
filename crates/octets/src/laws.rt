//! What holds of the definitions.
ghost use Rattle.std.specs.Prelude.{◌≡◌, ◌↔◌, ◌<◌, ◌≤◌, ◌^◌, ℕ, List, Some, decimal};
ghost use Rattle.octets.specs.Decimal.{number_to};

/// A number has one text, and a text writes one number: the number up to `most` of a text is that whose decimal text
/// it is.
pub fn numbers_have_one_text()
    ensures { (most number : ℕ) (text : List ℕ) → most < 2 ^ 64
        → ((number_to most text ≡ Some number) ↔ ((number ≤ most) × (text ≡ decimal number))) }
{}
