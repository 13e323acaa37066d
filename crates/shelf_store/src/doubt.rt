//! A change that a shelf may have done or not.
ghost use Rattle.std.specs.Prelude.{◌≡◌, ◌<◌, ◌↔◌, IsTrue, IfOk, length};
ghost use Rattle.std.specs.Option.{ForSome, option_map};
ghost use Rattle.std.specs.Rc.{rc_slice_items};

use std::alloc::AllocError;
use std::rc::RcSlice;

/// A change in which a shelf failed: the share that it was of, and the bytes that stood there before it, not none.
#[derive(Drop)]
pub(crate) struct Doubt {
    pub(crate) index: [u8; 16],
    pub(crate) number: u16,
    pub(crate) before: Option<RcSlice<u8>>,
    ghost some: { ForSome before (λ bytes. 0 < length (rc_slice_items bytes)) },
}

impl Doubt {
    /// Whether the change was of this share.
    pub(crate) fn is_of(&self, index: [u8; 16], number: u16) -> bool
        ensures { IsTrue result ↔ ((index ≡ self.now.index) × (number ≡ self.now.number)) }
    {
        index == self.index && number == self.number
    }

    /// The bytes that stood there before the change. Refused where there was no memory to lend them.
    pub(crate) fn lent(&self) -> Result<Option<RcSlice<u8>>, AllocError>
        ensures same { IfOk result (λ bytes. option_map rc_slice_items bytes
            ≡ option_map rc_slice_items self.now.before) }
        ensures some { IfOk result (λ bytes.
            ForSome bytes (λ b. 0 < length (rc_slice_items b))) }
    {
        match &self.before {
            None => Ok(None),
            Some(bytes) => Ok(Some(bytes.clone()?)),
        }
    }
}
