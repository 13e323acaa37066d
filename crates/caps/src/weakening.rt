//! From a cap to the one that verifies what it reads.
ghost use Rattle.std.specs.Prelude.{◌≡◌};
ghost use Rattle.caps.specs.Weakening.{verify_fields, weakened};

use crate::cap::{Cap, VerifyCap};
use crate::fields::{ReadFields, VerifyFields};
use crate::index::storage_index;

/// The verify cap of a cap: the key is replaced by the storage index, and the other fields and the kind stay. A verify
/// cap is its own, and a cap that holds its bytes has none. Takes no memory.
pub fn weaken(cap: &Cap) -> Option<VerifyCap>
    ensures { result ≡ weakened cap.now }
{
    let (directory, fields) = match cap {
        Cap::Chk(fields) => (false, verify_fields(fields)),
        Cap::DirChk(fields) => (true, verify_fields(fields)),
        Cap::ChkVerify(fields) => (false, *fields),
        Cap::DirChkVerify(fields) => (true, *fields),
        Cap::Lit(_) | Cap::DirLit(_) => return None,
    };
    Some(VerifyCap { directory, fields })
}

/// The fields of a read cap's verify cap.
fn verify_fields(read: &ReadFields) -> VerifyFields
    ensures { result ≡ verify_fields read.now }
{
    VerifyFields {
        si: storage_index(&read.key),
        ueb: read.ueb,
        k: read.k,
        n: read.n,
        size: read.size,
    }
}
