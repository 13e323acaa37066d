//! A share with the pair that it stands under.
use std::rc::RcSlice;

/// A share as a store gives it: the storage index and the number that it stands under, and its bytes.
#[derive(Drop)]
pub struct Share {
    /// The storage index.
    pub index: [u8; 16],
    /// The share's number.
    pub number: u16,
    /// The share's bytes, lent without a copy.
    pub bytes: RcSlice<u8>,
}
