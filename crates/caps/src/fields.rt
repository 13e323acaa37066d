//! What the caps of stored bytes hold.
use std::marker::Model;

/// The fields of a read cap.
#[derive(Clone, Copy, PartialEq, Eq, Hash)]
pub struct ReadFields {
    /// The key of the cipher, from which the storage index is made.
    pub key: [u8; 16],
    /// The hash of the URI extension block.
    pub ueb: [u8; 32],
    /// How many shares are enough, at least 1.
    pub k: u16,
    /// How many shares were made, at least `k` and at most 256.
    pub n: u16,
    /// The size of the file in bytes.
    pub size: u64,
}

impl Model for ReadFields {
    ghost use Rattle.octets.specs.Sharing.{IsSharing};
    ghost use Rattle.caps.specs.Fields.{ReadValue};

    ghost Value = { ReadValue };

    ghost view = { λ f. record { key = f.key; ueb = f.ueb; k = f.k; n = f.n; size = f.size } };

    ghost invariant = { λ f. IsSharing f.k f.n };

    ghost inverse = { λ v. record { key = v.key; ueb = v.ueb; k = v.k; n = v.n; size = v.size } };
}

/// The fields of a verify cap.
#[derive(Clone, Copy, PartialEq, Eq, Hash)]
pub struct VerifyFields {
    /// The storage index, under which the shares lie.
    pub si: [u8; 16],
    /// The hash of the URI extension block.
    pub ueb: [u8; 32],
    /// How many shares are enough, at least 1.
    pub k: u16,
    /// How many shares were made, at least `k` and at most 256.
    pub n: u16,
    /// The size of the file in bytes.
    pub size: u64,
}

impl Model for VerifyFields {
    ghost use Rattle.octets.specs.Sharing.{IsSharing};
    ghost use Rattle.caps.specs.Fields.{VerifyValue};

    ghost Value = { VerifyValue };

    ghost view = { λ f. record { si = f.si; ueb = f.ueb; k = f.k; n = f.n; size = f.size } };

    ghost invariant = { λ f. IsSharing f.k f.n };

    ghost inverse = { λ v. record { si = v.si; ueb = v.ueb; k = v.k; n = v.n; size = v.size } };
}
