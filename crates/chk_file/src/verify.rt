//! What the stores have of a file, verified.
ghost use Rattle.std.specs.Prelude.{◌≡◌, IfOk, IsErrOf, Some, None};
ghost use Rattle.aes_ctr.specs.Crypt.{crypt};
ghost use Rattle.grid.specs.GridState.{IsHonest};
ghost use Rattle.grid.specs.Leaves.{Leaves, IsUnchanged};
ghost use Rattle.grid.specs.Views.{AllTell, StandStill, TellOn};
ghost use Rattle.caps.specs.StorageIndex.{index_of};
ghost use Rattle.chk_file.specs.Amid.{SeesReached};
ghost use Rattle.file_shares.specs.Numbers.{params_of};
ghost use Rattle.file_shares.specs.Taken.{AreTaken};
ghost use Rattle.file_shares.specs.Fit.{fit, crypttext_from};
ghost use Rattle.file_shares.specs.Bound.{Bound};

use caps::{ReadFields, storage_index};
use file_shares::{ReadFault, verify_found};
use grid::Grid;
use grid::laws::found_laws;
use share_codec::Share;
use share_store::Store;
use std::alloc::Global;

/// The k good shares of a file that are read of those that the stores have, and the crypttext that they are of. Where
/// those of the numbers below k are good, no store is asked for the bytes of another. What is said of the answer is said of
/// what the call saw, whether the stores are honest or changed by others too.
pub(crate) fn verify<S: Store>(
    alloc: Global,
    grid: &mut Grid<S>,
    fields: &ReadFields,
) -> Result<(Vec<Share>, Vec<u8>), ReadFault>
    ensures leaves { Leaves grid.old grid.new }
    ensures stamps { grid.new.stamps ≡ grid.old.stamps }
    ensures unchanged { IsHonest grid.old → IsUnchanged grid.old grid.new }
    ensures stand_still { StandStill grid.old grid.new }
    ensures told { TellOn grid.old grid.new }
    ensures taken { IfOk result (λ read.
        AreTaken (params_of fields.now.k fields.now.n fields.now.size) read.0.items) }
    ensures crypttext { IfOk result (λ read. read.1.items
        ≡ crypttext_from (params_of fields.now.k fields.now.n fields.now.size) read.0.items) }
    ensures bound { IfOk result (λ read.
        Bound fields.now (crypt fields.now.key read.1.items)) }
    ensures seen { AllTell grid.old → IfOk result (λ read.
        SeesReached grid.old grid.new (index_of fields.now.key) (λ row.
        fit row fields.now ≡ Some (crypt fields.now.key read.1.items))) }
    ensures seen_missing { AllTell grid.old → IsErrOf result ReadFault.NotEnoughShares →
        SeesReached grid.old grid.new (index_of fields.now.key) (λ row. fit row fields.now ≡ None) }
{
    match verify_low(alloc, grid, fields) {
        Ok(read) => Ok(read),
        Err(ReadFault::NotEnoughShares) => verify_all(alloc, grid, fields),
        Err(ReadFault::NoMemory) => Err(ReadFault::NoMemory),
    }
}

/// The same where the shares of the numbers below k give them. Where they don't, nothing is said of all shares.
fn verify_low<S: Store>(
    alloc: Global,
    grid: &mut Grid<S>,
    fields: &ReadFields,
) -> Result<(Vec<Share>, Vec<u8>), ReadFault>
    ensures leaves { Leaves grid.old grid.new }
    ensures stamps { grid.new.stamps ≡ grid.old.stamps }
    ensures unchanged { IsHonest grid.old → IsUnchanged grid.old grid.new }
    ensures stand_still { StandStill grid.old grid.new }
    ensures told { TellOn grid.old grid.new }
    ensures taken { IfOk result (λ read.
        AreTaken (params_of fields.now.k fields.now.n fields.now.size) read.0.items) }
    ensures crypttext { IfOk result (λ read. read.1.items
        ≡ crypttext_from (params_of fields.now.k fields.now.n fields.now.size) read.0.items) }
    ensures bound { IfOk result (λ read.
        Bound fields.now (crypt fields.now.key read.1.items)) }
    ensures seen { AllTell grid.old → IfOk result (λ read.
        SeesReached grid.old grid.new (index_of fields.now.key) (λ row.
        fit row fields.now ≡ Some (crypt fields.now.key read.1.items))) }
{
    found_laws();
    // There are at most 256 servers: a row has no more.
    let _ = grid.servers();
    let found = grid.gather_below(storage_index(&fields.key), fields.k)?;
    match verify_found(alloc, &found, fields) {
        Ok(read) => Ok(read),
        Err(fault) => Err(fault),
    }
}

/// The same of all shares.
fn verify_all<S: Store>(
    alloc: Global,
    grid: &mut Grid<S>,
    fields: &ReadFields,
) -> Result<(Vec<Share>, Vec<u8>), ReadFault>
    ensures leaves { Leaves grid.old grid.new }
    ensures stamps { grid.new.stamps ≡ grid.old.stamps }
    ensures unchanged { IsHonest grid.old → IsUnchanged grid.old grid.new }
    ensures stand_still { StandStill grid.old grid.new }
    ensures told { TellOn grid.old grid.new }
    ensures taken { IfOk result (λ read.
        AreTaken (params_of fields.now.k fields.now.n fields.now.size) read.0.items) }
    ensures crypttext { IfOk result (λ read. read.1.items
        ≡ crypttext_from (params_of fields.now.k fields.now.n fields.now.size) read.0.items) }
    ensures bound { IfOk result (λ read.
        Bound fields.now (crypt fields.now.key read.1.items)) }
    ensures seen { AllTell grid.old → IfOk result (λ read.
        SeesReached grid.old grid.new (index_of fields.now.key) (λ row.
        fit row fields.now ≡ Some (crypt fields.now.key read.1.items))) }
    ensures seen_missing { AllTell grid.old → IsErrOf result ReadFault.NotEnoughShares →
        SeesReached grid.old grid.new (index_of fields.now.key) (λ row. fit row fields.now ≡ None) }
{
    found_laws();
    // There are at most 256 servers: a row has no more.
    let _ = grid.servers();
    let found = grid.gather(storage_index(&fields.key))?;
    match verify_found(alloc, &found, fields) {
        Ok(read) => Ok(read),
        Err(fault) => Err(fault),
    }
}
