//! Numbers as `serde_json` reads them.
ghost use Rattle.std.specs.Prelude.{◌≡◌, ◌==◌, ◌<◌, slice_index, IsTrue, length, true, false, option_map};
ghost use Rattle.serde_json.specs.Read.{number_of, number_from, float_of};
ghost use Rattle.serde_json.specs.View.{number_view};

use fast_float::Numeral;
use serde_json::Number;

/// The number that a token writes: a whole one of 64 bits exactly, else the nearest float. None where that is not finite.
pub(crate) fn number_in(text: &str) -> Option<Number>
    ensures { option_map number_view result ≡ number_of text.now }
{
    let bytes = text.as_bytes();
    if is_negative(bytes) {
        negative_in(&Numeral::scan(&bytes[1..]))
    } else {
        unsigned_in(&Numeral::scan(bytes))
    }
}

/// Whether a number's text begins with a minus.
fn is_negative(text: &[u8]) -> bool
    ensures value { result ≡ (slice_index text.now 0 == 45) }
    ensures some { IsTrue result → 0 < length text.now }
{
    !text.is_empty() && text[0] == b'-'
}

/// The number that a text without a sign writes.
fn unsigned_in(numeral: &Numeral<'_>) -> Option<Number>
    ensures { option_map number_view result ≡ number_from false numeral.now }
{
    match numeral.to_u64() {
        Some(n) => Some(Number::from(n)),
        None => float_in(false, numeral),
    }
}

/// The number that a text behind a minus writes.
fn negative_in(numeral: &Numeral<'_>) -> Option<Number>
    ensures { option_map number_view result ≡ number_from true numeral.now }
{
    if let Some(n) = numeral.to_i64(true) {
        if n < 0 {
            return Some(Number::from(n));
        }
    }
    float_in(true, numeral)
}

/// The nearest float, where it is finite.
fn float_in(negative: bool, numeral: &Numeral<'_>) -> Option<Number>
    ensures { option_map number_view result ≡ float_of negative numeral.now }
{
    Number::from_f64(numeral.to_float::<f64>(negative))
}
