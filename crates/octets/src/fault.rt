//! Why not all was written.

use std::fmt;

/// The writer failed, took no byte, or had no call left.
#[derive(Clone, Copy, Debug, PartialEq, Eq)]
pub struct WriteFault;

impl fmt::Display for WriteFault {
    fn fmt<W: fmt::Write>(&self, f: &mut fmt::Formatter<W>) -> fmt::Result {
        f.write_str("the writer took no more bytes")
    }
}
