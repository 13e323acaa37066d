//! The parts of a Range field's value.
ghost use Rattle.std.specs.Prelude.{◌≡◌, ◌==◌, ◌+◌, take, drop, position, MatchOption, ℕ, Some, None};
ghost use Rattle.std.specs.Option.{option_copied};
ghost use Rattle.range_view.specs.Asked.{set_of};

use octets::split_at_byte;

/// What follows the unit, where the unit is `bytes`.
pub fn set_of(value: &[u8]) -> Option<&[u8]>
    ensures { option_copied result ≡ set_of value.now }
{
    if value.len() < 6 {
        return None;
    }
    let (unit, set) = value.split_at(6);
    if !unit.eq_ignore_ascii_case(b"bytes=") {
        return None;
    }
    Some(set)
}

/// What stands before and after the first dash.
pub fn cut_at_dash(set: &[u8]) -> Option<(&[u8], &[u8])>
    ensures { MatchOption result (position (λ b. b == 45) set.now ≡ None)
        (λ parts. (place : ℕ) × (position (λ b. b == 45) set.now ≡ Some place)
        × (parts.0.now ≡ take place set.now) × (parts.1.now ≡ drop (place + 1) set.now)) }
{
    split_at_byte(set, b'-')
}
