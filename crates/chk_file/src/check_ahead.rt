//! Checks of long files that are prepared: the strings that stores have in memory, while their blocks are hashed.
ghost use Rattle.std.specs.Prelude.{◌≡◌, IfOk};
ghost use Rattle.file_shares.specs.Numbers.{params_of};

use caps::VerifyFields;
use file_shares::Readings;
use grid::Grid;
use share_codec::Params;
use share_store::Store;
use std::alloc::{AllocError, Global};

/// What a check that verifies will need of a file, as far as it is prepared: the strings that stores had in memory of all
/// its numbers.
#[derive(Drop)]
pub(crate) struct CheckAhead {
    fields: VerifyFields,
    readings: Readings,
    ghost readings_are: { readings ≡ params_of fields.k fields.n fields.size },
}

impl CheckAhead {
    /// Of what stores have in memory of a file, if there is a string that has to be hashed. No block is hashed yet.
    pub(crate) fn new<S: Store>(
        alloc: Global,
        grid: &Grid<S>,
        fields: &VerifyFields,
    ) -> Option<CheckAhead> {
        let readings = readings_of(alloc, grid, fields, &checked_params(fields)).ok()?;
        if readings.is_hashed() {
            return None;
        }
        Some(CheckAhead {
            fields: *fields,
            readings,
        })
    }

    /// Whether it is for the file with these fields.
    pub(crate) fn is_of(&self, fields: &VerifyFields) -> bool {
        self.fields == *fields
    }

    /// Whether all blocks are hashed.
    pub(crate) fn is_hashed(&self) -> bool {
        self.readings.is_hashed()
    }

    /// With some more blocks hashed. None where memory is refused.
    pub(crate) fn step(self) -> Option<CheckAhead> {
        let CheckAhead { fields, readings } = self;
        Some(CheckAhead {
            fields,
            readings: readings.step().ok()?,
        })
    }

    /// What was hashed, where it is of the file with these fields. Else itself is given back.
    pub(crate) fn give(self, fields: &VerifyFields) -> Result<Readings, CheckAhead>
        ensures { IfOk result (λ readings.
            readings ≡ params_of fields.now.k fields.now.n fields.now.size) }
    {
        if self.fields != *fields {
            return Err(self);
        }
        let CheckAhead {
            fields: _,
            readings,
        } = self;
        Ok(readings)
    }
}

/// The numbers of a file, by the fields of its verify cap.
pub(crate) fn checked_params(fields: &VerifyFields) -> Params
    ensures { result ≡ params_of fields.now.k fields.now.n fields.now.size }
{
    Params::new(fields.k, fields.n, fields.size)
}

/// The strings of the numbers below n that stores have in memory. One that is too short to have the blocks of a share is
/// left out, since nothing of it is hashed.
fn readings_of<S: Store>(
    alloc: Global,
    grid: &Grid<S>,
    fields: &VerifyFields,
    params: &Params,
) -> Result<Readings, AllocError>
    ensures { IfOk result (λ readings. readings ≡ params.now) }
{
    let mut readings = Readings::new(alloc, params);
    for (server, number, bytes) in grid.peek_below(fields.si, fields.n)? {
        if bytes.len() > params.blocks_size() {
            readings.add(server, number, bytes)?;
        }
    }
    Ok(readings)
}
