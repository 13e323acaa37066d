//! The kinds of caps.
ghost use Rattle.std.specs.Prelude.{◌≡◌, ◌++◌, MatchOption, false};

/// What a cap names, and with which authority.
#[derive(Clone, Copy, PartialEq, Eq)]
pub enum Kind {
    /// A stored file, to be read.
    ReadFile,
    /// A file whose bytes stand in the cap.
    LiteralFile,
    /// A stored directory, to be read.
    ReadDirectory,
    /// A directory whose bytes stand in the cap.
    LiteralDirectory,
    /// A stored file, to be verified.
    VerifyFile,
    /// A stored directory, to be verified.
    VerifyDirectory,
}
