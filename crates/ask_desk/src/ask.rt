//! What is asked at a desk.
ghost use Rattle.std.specs.Prelude.{◌≡◌};
ghost use Rattle.ask_desk.specs.Asks.{disowned, is_asked_by};

use octets::Bytes;

/// A command, and for whom its reply is.
#[derive(Drop)]
pub struct Ask {
    /// For whom: a number that the caller gives. `None` once that one forsook what it asked.
    pub owner: Option<u64>,
    /// Its number: no two that were asked at a desk have the same.
    pub ticket: u64,
    /// The bytes of its command. One that has none is never written, nor what waits behind it.
    pub command: Bytes,
    /// How many bytes a bulk string may have that is its reply.
    pub most: u32,
}

impl Ask {
    /// Whether it is this owner's.
    pub(crate) fn is_of(&self, owner: u64) -> bool
        ensures { result ≡ is_asked_by owner self.now }
    {
        self.owner == Some(owner)
    }

    /// It is nobody's any more, where it was this owner's.
    pub(crate) fn disown(&mut self, owner: u64)
        ensures { self.new ≡ disowned owner self.old }
    {
        if self.is_of(owner) {
            self.owner = None;
        }
    }
}

/// What came of bytes that were heard.
#[derive(Clone, Copy, PartialEq, Eq)]
pub struct Heard {
    /// So many of them were taken, one at least.
    pub count: usize,
    /// For whom a reply is whole with them, where one is and somebody waits for it.
    pub owner: Option<u64>,
}
