//! How large a reply may be.

/// How large a reply may be: what is larger is a fault, as soon as that can be seen.
#[derive(Clone, Copy, PartialEq, Eq)]
pub struct Limits {
    /// How many bytes a line may have, without its mark and its end.
    pub line: usize,
    /// How many bytes a bulk string may have.
    pub bulk: u32,
    /// How many elements an array may have.
    pub elements: u32,
}
