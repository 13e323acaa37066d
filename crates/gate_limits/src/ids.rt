//! The ids of connections.
ghost use Rattle.std.specs.Prelude.{◌≡◌, ◌+◌, ◌-◌, ◌^◌, ◌<◌, IfSome, IfNone};

/// The largest id: the 65 numbers behind it are the listeners' tokens.
const LAST: u64 = u64::MAX - 65;

/// Where ids come from. They rise, so none is given twice.
#[derive(Clone, Copy, PartialEq, Eq)]
pub struct Ids {
    next: u64,
}

impl Ids {
    /// The first id is 1.
    pub fn new() -> Ids
        ensures { result.next ≡ 1 }
    {
        Ids { next: 1 }
    }

    /// The id that is given next, if one is.
    pub fn coming(&self) -> u64
        ensures { result ≡ self.now.next }
    {
        self.next
    }

    /// An id that was not given before, and is no listener's token. `None` once all were.
    pub fn take(&mut self) -> Option<u64>
        ensures given { IfSome result (λ id. id ≡ self.old.next) }
        ensures rises { IfSome result (λ id. self.new.next ≡ id + 1) }
        ensures no_listener { IfSome result (λ id. id < 2 ^ 64 - 65) }
        ensures none { IfNone result (self.new ≡ self.old) }
    {
        if self.next > LAST {
            return None;
        }
        let id = self.next;
        self.next = id + 1;
        Some(id)
    }
}
