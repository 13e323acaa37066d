//! Good shares of a file that is prepared.
ghost use Rattle.std.specs.Prelude.{◌≡◌, map};
ghost use Rattle.std.specs.Rc.{rc_slice_items};
ghost use Rattle.file_shares.specs.Gathered.{found_string};
ghost use Rattle.file_shares.specs.Ahead.{AreChosen, file_params};

use caps::ReadFields;
use share_codec::{Params, Share};
use std::rc::RcSlice;

/// K good shares of a file, with its fields and the strings among which they were found.
#[derive(Drop)]
pub(crate) struct Picked {
    pub(crate) fields: ReadFields,
    pub(crate) found: Vec<(usize, u16, RcSlice<u8>)>,
    pub(crate) shares: Vec<Share>,
    ghost chosen: { AreChosen fields (map (found_string rc_slice_items) found.items) shares.items },
}

impl Picked {
    /// The shares that are read of these strings.
    pub(crate) fn new(
        fields: ReadFields,
        found: Vec<(usize, u16, RcSlice<u8>)>,
        shares: Vec<Share>,
    ) -> Picked
        requires { AreChosen fields (map (found_string rc_slice_items) found.items) shares.items }
        ensures { result.fields ≡ fields }
    {
        Picked {
            fields,
            found,
            shares,
        }
    }
}

/// The numbers of a file, by the fields of its cap.
pub fn file_params(fields: &ReadFields) -> Params
    ensures { result ≡ file_params fields.now }
{
    Params::new(fields.k, fields.n, fields.size)
}
