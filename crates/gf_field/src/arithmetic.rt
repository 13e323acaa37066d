//! Products, inverses and powers of two.
ghost use Rattle.std.specs.Prelude.{◌≡◌, ◌↔◌, IsNone, IfSome};
ghost use Rattle.gf_field.specs.Field.{mul_of, power_of, inverse_of};

/// What x^8 leaves by the modulus: x^4 + x^3 + x^2 + 1.
pub(crate) const REDUCTION: u8 = 0x1d;

/// Twice `a` in the field: `a` by x.
fn double(a: u8) -> u8
    ensures { result ≡ mul_of 2 a }
{
    let shifted = a << 1;
    if a < 128 {
        shifted
    } else {
        shifted ^ REDUCTION
    }
}

/// The product of two elements.
pub fn mul(a: u8, b: u8) -> u8
    ensures { result ≡ mul_of a b }
{
    let mut product = 0;
    let mut term = a;
    for i in 0..8u8 {
        if (b >> i) & 1 == 1 {
            product ^= term;
        }
        term = double(term);
    }
    product
}

/// The inverse of an element, `None` for 0, which has none: `a` to the 254, by seven squares.
pub fn inv(a: u8) -> Option<u8>
    ensures none { IsNone result ↔ (a ≡ 0) }
    ensures product { IfSome result (λ b. mul_of a b ≡ 1) }
    ensures value { IfSome result (λ b. b ≡ inverse_of a) }
{
    if a == 0 {
        return None;
    }
    let mut square = a;
    let mut product = 1;
    for _i in 0..7u8 {
        square = mul(square, square);
        product = mul(product, square);
    }
    Some(product)
}

/// 2 to the `e`.
pub fn exp(e: u8) -> u8
    ensures { result ≡ power_of 2 e }
{
    let mut power = 1;
    for _i in 0..e {
        power = double(power);
    }
    power
}
