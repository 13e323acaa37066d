//! What a reply holds in memory while it waits.
ghost use Rattle.std.specs.Prelude.{◌≡◌, ◌≤◌, ◌+◌, ◌^◌, ◌-◌, ◌↔◌, IsTrue, min, max};
ghost use Rattle.gate_base.specs.Holds.{held_while};

/// How many bytes of a file are made at a time, at most: a segment. Of a listing a child is made at a time, which may be
/// longer.
const PIECE: usize = 131_072;

/// From how many bytes on a reply holds much: as many as are much of a request to the loop that counts both.
const MUCH: usize = 16_384;

/// What a reply holds besides the bytes of it that are made, in bytes.
#[derive(Clone, Copy, Drop, PartialEq, Eq)]
pub struct Holds {
    /// Of a file, or of shares: they are held until its last byte is made.
    shares: usize,
    /// Of a directory's text, of which what was given is let go of; or of the segment of a lent file that is made.
    text: usize,
}

/// What is known of a connection's next request before it is carried out.
#[derive(Clone, Copy, Drop, PartialEq, Eq)]
pub enum Prospect {
    /// It had better wait: steps of its work are left, or others' come first.
    Waits,
    /// It can be carried out. Its reply will hold so much, as far as is known.
    Ready(Holds),
}

impl Holds {
    /// Nothing.
    pub fn nothing() -> Holds
        ensures shares { result.shares ≡ 0 }
        ensures text { result.text ≡ 0 }
    {
        Holds { shares: 0, text: 0 }
    }

    /// Shares of so many bytes, or a file of so many.
    pub fn shares(bytes: u64) -> Holds
        ensures shares { result.shares ≡ bytes }
        ensures text { result.text ≡ 0 }
    {
        Holds {
            shares: bytes as usize,
            text: 0,
        }
    }

    /// The text of a directory, of so many bytes.
    pub fn text(bytes: u64) -> Holds
        ensures shares { result.shares ≡ 0 }
        ensures text { result.text ≡ bytes }
    {
        Holds {
            shares: 0,
            text: bytes as usize,
        }
    }

    /// What is made at a time of a file of so many bytes whose shares stores have in memory anyway.
    pub fn segment(bytes: u64) -> Holds
        ensures shares { result.shares ≡ 0 }
        ensures text { result.text ≡ min bytes 131072 }
    {
        Holds {
            shares: 0,
            text: (bytes as usize).min(PIECE),
        }
    }

    /// Whether these are so many bytes that the reply may have to wait for memory.
    pub fn is_much(&self) -> bool
        ensures { IsTrue result ↔ (16384 ≤ min (self.now.shares + self.now.text) (2 ^ 64 - 1)) }
    {
        self.len() >= MUCH
    }

    /// How many bytes these are, up to 2^64 - 1.
    pub fn len(&self) -> usize
        ensures { result ≡ min (self.now.shares + self.now.text) (2 ^ 64 - 1) }
    {
        self.shares.saturating_add(self.text)
    }

    /// How many bytes are held while so many bytes of the reply wait, up to 2^64 - 1: none where nothing waits; else the
    /// shares, and of what waits no more than the text has, or than are made at a time, which are 131,072.
    pub fn held_while(&self, waiting: usize) -> usize
        ensures { result ≡ min (held_while self.now.shares self.now.text waiting) (2 ^ 64 - 1) }
    {
        if waiting == 0 {
            return 0;
        }
        self.shares
            .saturating_add(waiting.min(self.text.max(PIECE)))
    }
}
