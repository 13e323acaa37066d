//! What holds in the field, whatever the elements. Bits of a number past the lowest eight never count in a product.
ghost use Rattle.std.specs.Prelude.{◌≡◌, ◌≢◌, ◌<◌, ℕ, bit_xor};
ghost use Rattle.gf_field.specs.Field.{mul_of, power_of, inverse_of};

/// The laws of a field, addition being `^`.
pub fn is_a_field()
    ensures closed { (a b : ℕ) → mul_of a b < 256 }
    ensures commutative { (a b : ℕ) → mul_of a b ≡ mul_of b a }
    ensures associative { (a b c : ℕ) → mul_of (mul_of a b) c ≡ mul_of a (mul_of b c) }
    ensures distributive { (a b c : ℕ)
        → mul_of a (bit_xor b c) ≡ bit_xor (mul_of a b) (mul_of a c) }
    ensures one { (a : ℕ) → a < 256 → mul_of 1 a ≡ a }
    ensures inverse { (a : ℕ) → 0 < a → a < 256 → mul_of a (inverse_of a) ≡ 1 }
    ensures inverse_closed { (a : ℕ) → inverse_of a < 256 }
{}

/// 2 has order 255, and its first 255 powers are all elements but 0, each once.
pub fn two_generates()
    ensures returns { power_of 2 255 ≡ 1 }
    ensures no_earlier { (i : ℕ) → 0 < i → i < 255 → power_of 2 i ≢ 1 }
    ensures elements { (i : ℕ) → (0 < power_of 2 i) × (power_of 2 i < 256) }
    ensures once { (i j : ℕ) → i < 255 → j < 255 → power_of 2 i ≡ power_of 2 j → i ≡ j }
    ensures each { (a : ℕ) → 0 < a → a < 256 → (i : ℕ) × (i < 255) × (power_of 2 i ≡ a) }
{}
