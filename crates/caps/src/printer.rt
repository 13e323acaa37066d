//! From a cap to its text.
ghost use Rattle.std.specs.Prelude.{◌≡◌, ◌++◌, ◌∷◌, ℕ, List, length, decimal, IfOk, OnOk, string_bytes};
ghost use Rattle.base32_text.specs.Base32.{Spells};
ghost use Rattle.octets.specs.Sharing.{IsSharing};
ghost use Rattle.caps.specs.CapTexts.{IsCapText, IsFieldsText};

use crate::cap::Cap;
use base32_text::push_encoded;
use std::alloc::{AllocError, Global};

/// The bytes of the longest text of a cap of stored bytes.
const LONGEST_STORED: usize = 22 + 26 + 1 + 52 + 1 + 3 + 1 + 3 + 1 + 20;

/// The one text of the cap, in ASCII.
pub fn print(alloc: Global, cap: &Cap) -> Result<String, AllocError>
    ensures { IfOk result (λ text. IsCapText cap.now (string_bytes text)) }
{
    match cap {
        Cap::Chk(f) => stored_text(alloc, "URI:CHK:", &f.key, &f.ueb, f.k, f.n, f.size),
        Cap::Lit(bytes) => literal_text(alloc, "URI:LIT:", bytes.as_slice()),
        Cap::DirChk(f) => stored_text(alloc, "URI:DIR2-CHK:", &f.key, &f.ueb, f.k, f.n, f.size),
        Cap::DirLit(bytes) => literal_text(alloc, "URI:DIR2-LIT:", bytes.as_slice()),
        Cap::ChkVerify(f) => stored_text(
            alloc,
            "URI:CHK-Verifier:",
            &f.si,
            &f.ueb,
            f.k,
            f.n,
            f.size,
        ),
        Cap::DirChkVerify(f) => {
            stored_text(
                alloc,
                "URI:DIR2-CHK-Verifier:",
                &f.si,
                &f.ueb,
                f.k,
                f.n,
                f.size,
            )
        }
    }
}

/// The text of a cap that holds its bytes.
fn literal_text(alloc: Global, beginning: &str, bytes: &[u8]) -> Result<String, AllocError>
    ensures { IfOk result (λ text. (rest : List ℕ) × (string_bytes text ≡ beginning.now ++ rest)
        × Spells rest bytes.now) }
{
    let mut text = String::with_capacity(alloc, bytes.len() / 5 * 8 + 32)?;
    text.push_str(beginning)?;
    push_encoded(&mut text, bytes)?;
    Ok(text)
}

/// The text of a cap of stored bytes.
fn stored_text(
    alloc: Global,
    beginning: &str,
    name: &[u8],
    ueb: &[u8],
    k: u16,
    n: u16,
    size: u64,
) -> Result<String, AllocError>
    requires name_long { length name.now ≡ 16 }
    requires ueb_long { length ueb.now ≡ 32 }
    requires sharing { IsSharing k n }
    ensures { IfOk result (λ text. (rest : List ℕ) × (string_bytes text ≡ beginning.now ++ rest)
        × IsFieldsText name.now ueb.now k n size rest) }
{
    let mut text = String::with_capacity(alloc, LONGEST_STORED)?;
    text.push_str(beginning)?;
    push_encoded(&mut text, name)?;
    text.push_str(":")?;
    push_encoded(&mut text, ueb)?;
    push_number(&mut text, u64::from(k))?;
    push_number(&mut text, u64::from(n))?;
    push_number(&mut text, size)?;
    Ok(text)
}

/// Writes `:` and the number after a text.
fn push_number(text: &mut String, number: u64) -> Result<(), AllocError>
    ensures { OnOk result (string_bytes text.new ≡ string_bytes text.old ++ 58 ∷ decimal number) }
{
    write!(text, ":{number}")
}
