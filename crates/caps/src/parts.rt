//! Fields parted by `:`.
ghost use Rattle.std.specs.Prelude.{◌≡◌, List, [], ◌∷◌, length, MatchOption};
ghost use Rattle.caps.specs.Refusals.{parts};

use octets::split_at_byte;

/// The texts of a cap's five fields.
#[derive(Drop)]
pub struct FieldTexts<'a> {
    pub name: &'a [u8],
    pub ueb: &'a [u8],
    pub k: &'a [u8],
    pub n: &'a [u8],
    pub size: &'a [u8],
}

/// The five fields of the text, None where their number differs.
pub fn five_fields(text: &[u8]) -> Option<FieldTexts<'_>>
    ensures { MatchOption result (¬ (length (parts text.now) ≡ 5))
        (λ f. parts text.now ≡ f.name.now ∷ f.ueb.now ∷ f.k.now ∷ f.n.now ∷ f.size.now ∷ []) }
{
    let (name, rest) = cut(text)?;
    let (ueb, rest) = cut(rest)?;
    let (k, rest) = cut(rest)?;
    let (n, size) = cut(rest)?;
    if let Some(_) = cut(size) {
        return None;
    }
    Some(FieldTexts {
        name,
        ueb,
        k,
        n,
        size,
    })
}

/// The first field, and what stands after its `:`. None where the text is one field.
fn cut(text: &[u8]) -> Option<(&[u8], &[u8])>
    ensures { MatchOption result (parts text.now ≡ text.now ∷ [])
        (λ p. parts text.now ≡ p.0.now ∷ parts p.1.now) }
{
    split_at_byte(text, b':')
}
