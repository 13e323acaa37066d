//! Strings that are judged as shares of a file that is prepared.
ghost use Rattle.std.specs.Prelude.{◌≡◌, IfOk, IfSome};
ghost use Rattle.file_shares.specs.Ahead.{file_params};

use crate::picked::{Picked, file_params};
use crate::readings::Readings;
use crate::verify::choose;
use caps::ReadFields;
use share_codec::Params;
use std::alloc::{AllocError, Global};
use std::rc::RcSlice;

/// Strings that stores lent or gave, and of each number below k the first one while its blocks are hashed.
#[derive(Drop)]
pub struct Judging {
    fields: ReadFields,
    found: Vec<(usize, u16, RcSlice<u8>)>,
    readings: Readings,
    ghost readings_are: { readings ≡ file_params fields },
}

impl Judging {
    /// Of these strings of a file, if each number below k has one. No block is hashed yet.
    pub(crate) fn new(
        alloc: Global,
        fields: &ReadFields,
        found: Vec<(usize, u16, RcSlice<u8>)>,
    ) -> Option<Judging> {
        let params = file_params(fields);
        let readings = readings_of(alloc, &found, fields.k, &params).ok()??;
        Some(Judging {
            fields: *fields,
            found,
            readings,
        })
    }

    /// The fields of the file.
    pub(crate) fn fields(&self) -> &ReadFields {
        &self.fields
    }

    /// Whether all blocks are hashed.
    pub(crate) fn is_hashed(&self) -> bool {
        self.readings.is_hashed()
    }

    /// With some more blocks hashed. None where memory is refused.
    pub(crate) fn step(self) -> Option<Judging> {
        let Judging {
            fields,
            found,
            readings,
        } = self;
        Some(Judging {
            fields,
            found,
            readings: readings.step().ok()?,
        })
    }

    /// The k good shares, if there are as many.
    pub(crate) fn finish(self, alloc: Global) -> Option<Picked> {
        let Judging {
            fields,
            found,
            readings,
        } = self;
        match choose(alloc, &found, &readings, &fields) {
            Ok(shares) => Some(Picked::new(fields, found, shares)),
            Err(_) => None,
        }
    }
}

/// The first string of each number below k, to be judged; none where a number has no string.
fn readings_of(
    alloc: Global,
    found: &[(usize, u16, RcSlice<u8>)],
    k: u16,
    params: &Params,
) -> Result<Option<Readings>, AllocError>
    ensures { IfOk result (λ made. IfSome made (λ readings. readings ≡ params.now)) }
{
    let mut readings = Readings::new(alloc, params);
    for number in 0..k {
        let Some((server, bytes)) = first_of(found, number) else {
            return Ok(None);
        };
        readings.add(server, number, bytes.clone()?)?;
    }
    Ok(Some(readings))
}

/// Whether each number below k has a string.
pub fn has_each(found: &[(usize, u16, RcSlice<u8>)], k: u16) -> bool {
    for number in 0..k {
        if first_of(found, number).is_none() {
            return false;
        }
    }
    true
}

/// The first of these strings that has a number, with its server.
fn first_of(found: &[(usize, u16, RcSlice<u8>)], number: u16) -> Option<(usize, &RcSlice<u8>)> {
    for (server, other, bytes) in found {
        if *other == number {
            return Some((*server, bytes));
        }
    }
    None
}
