//! The spaces and tabs around a text.
ghost use Rattle.std.specs.Prelude.{◌≡◌, reverse};
ghost use Rattle.httparse.specs.Grammar.{skip_ows, trim_ows};

use httparse::is_space_or_tab;

/// What stands behind the spaces and tabs in front.
fn without_blanks_before(value: &[u8]) -> &[u8]
    ensures { result.now ≡ skip_ows value.now }
{
    let mut rest = value;
    while let Some((byte, behind)) = rest.split_first() {
        if !is_space_or_tab(*byte) {
            break;
        }
        rest = behind;
    }
    rest
}

/// What stands in front of the spaces and tabs at the end.
fn without_blanks_behind(value: &[u8]) -> &[u8]
    ensures { result.now ≡ reverse (skip_ows (reverse value.now)) }
{
    let mut rest = value;
    while let Some((byte, before)) = rest.split_last() {
        if !is_space_or_tab(*byte) {
            break;
        }
        rest = before;
    }
    rest
}

/// A field line's value, or a piece of it, without the optional whitespace around it (RFC 9110, section 5.6.3).
pub fn without_blanks(value: &[u8]) -> &[u8]
    ensures { result.now ≡ trim_ows value.now }
{
    without_blanks_behind(without_blanks_before(value))
}
