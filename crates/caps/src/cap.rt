//! Caps.
ghost use Rattle.std.specs.Prelude.{◌≡◌, IfOk};
ghost use Rattle.caps.specs.Kinds.{is_verify_cap};

use crate::fields::{ReadFields, VerifyFields};
use octets::Bytes;
use std::alloc::{AllocError, Global};

/// A cap: holding it is the whole authority over what it names.
#[derive(Drop)]
pub enum Cap {
    /// Reads a stored file.
    Chk(ReadFields),
    /// A file whose bytes stand in the cap.
    Lit(Bytes),
    /// Reads a stored directory.
    DirChk(ReadFields),
    /// A directory whose bytes stand in the cap.
    DirLit(Bytes),
    /// Verifies the shares of a stored file.
    ChkVerify(VerifyFields),
    /// Verifies the shares of a stored directory.
    DirChkVerify(VerifyFields),
}

/// A verify cap: holding it is the authority to fetch and verify the shares of a file, and to read nothing of it.
#[derive(Clone, Copy, PartialEq, Eq, Hash)]
pub struct VerifyCap {
    /// Whether the file is a directory's.
    pub directory: bool,
    /// What it verifies.
    pub fields: VerifyFields,
}

impl From<VerifyCap> for Cap {
    ghost use Rattle.std.specs.Prelude.{◌≡◌};
    ghost use Rattle.caps.specs.Weakening.{cap_of};

    ghost from_gives = { λ verify cap. cap ≡ cap_of verify };

    fn from(verify: VerifyCap) -> Cap {
        if verify.directory {
            Cap::DirChkVerify(verify.fields)
        } else {
            Cap::ChkVerify(verify.fields)
        }
    }
}

/// Whether a cap tells good shares from bad and reads nothing.
pub fn is_verify_cap(cap: &Cap) -> bool
    ensures { result ≡ is_verify_cap cap.now }
{
    match cap {
        Cap::ChkVerify(_) | Cap::DirChkVerify(_) => true,
        Cap::Chk(_) | Cap::Lit(_) | Cap::DirChk(_) | Cap::DirLit(_) => false,
    }
}

/// The same cap again.
///
/// # Errors
/// Only where memory is refused, which a cap takes whose bytes stand in it.
pub fn copy_cap(alloc: Global, cap: &Cap) -> Result<Cap, AllocError>
    ensures { IfOk result (λ copy. copy ≡ cap.now) }
{
    match cap {
        Cap::Chk(fields) => Ok(Cap::Chk(*fields)),
        Cap::Lit(bytes) => Ok(Cap::Lit(Bytes::from_slice(alloc, bytes.as_slice())?)),
        Cap::DirChk(fields) => Ok(Cap::DirChk(*fields)),
        Cap::DirLit(bytes) => Ok(Cap::DirLit(Bytes::from_slice(alloc, bytes.as_slice())?)),
        Cap::ChkVerify(fields) => Ok(Cap::ChkVerify(*fields)),
        Cap::DirChkVerify(fields) => Ok(Cap::DirChkVerify(*fields)),
    }
}
