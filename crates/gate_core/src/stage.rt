//! How far a connection's calls went.

#[derive(Clone, Copy, PartialEq, Eq)]
pub enum Stage {
    /// It takes bytes.
    Open,
    /// Its end came: what waits can still be taken.
    Ended,
    /// Memory ran out on it, and nothing is left of it.
    Cut,
}
