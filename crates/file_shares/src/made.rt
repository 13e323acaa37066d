//! What was made for an upload that is awaited.
ghost use Rattle.std.specs.Prelude.{◌≡◌, map, IfOk};
ghost use Rattle.std.specs.Rc.{rc_slice_items};
ghost use Rattle.file_shares.specs.Prepared.{fields_under, shares_under};

use crate::awaited::Awaited;
use caps::ReadFields;
use share_codec::Params;
use std::rc::RcSlice;

/// An upload that is awaited, with a copy of all its bytes, its read fields and its shares.
#[derive(Drop)]
pub struct Made {
    awaited: Awaited,
    fields: ReadFields,
    shares: Vec<RcSlice<u8>>,
    ghost fields_are: { fields ≡ fields_under awaited.params awaited.secret awaited.bytes.items },
    ghost shares_are: { map rc_slice_items shares.items
        ≡ shares_under awaited.params awaited.secret awaited.bytes.items },
}

impl Made {
    /// What was made of the bytes.
    pub(crate) fn new(awaited: Awaited, fields: ReadFields, shares: Vec<RcSlice<u8>>) -> Made
        requires fields { fields ≡ fields_under awaited.params awaited.secret awaited.bytes.items }
        requires shares { map rc_slice_items shares.items
            ≡ shares_under awaited.params awaited.secret awaited.bytes.items }
    {
        Made {
            awaited,
            fields,
            shares,
        }
    }

    /// The upload that is awaited.
    pub(crate) fn awaited(&self) -> &Awaited {
        &self.awaited
    }

    /// The read fields and the shares, where these are its numbers, its secret and its bytes; else itself.
    pub(crate) fn give(
        self,
        params: &Params,
        secret: &[u8],
        bytes: &[u8],
    ) -> Result<(ReadFields, Vec<RcSlice<u8>>), Made>
        ensures fields { IfOk result (λ made.
            made.0 ≡ fields_under params.now secret.now bytes.now) }
        ensures shares { IfOk result (λ made.
            map rc_slice_items made.1.items ≡ shares_under params.now secret.now bytes.now) }
    {
        if !self.awaited.is_of(params, secret) {
            return Err(self);
        }
        if self.awaited.bytes.as_slice() != bytes {
            return Err(self);
        }
        let Made {
            awaited: _,
            fields,
            shares,
        } = self;
        Ok((fields, shares))
    }
}
