//! Laws for the layers above. Each takes no memory and does nothing.
ghost use Rattle.grid.specs.Changes.{SpoilLaws};
ghost use Rattle.grid.specs.GatherLaws.{GatherLaws};
ghost use Rattle.grid.specs.FoundLaws.{FoundLaws};
ghost use Rattle.grid.specs.ImageFaults.{FaultLaws};
ghost use Rattle.grid.specs.ImageLaws.{ImageLaws};

/// A share that is spoiled twice at one place stands as before.
pub fn spoil_laws()
    ensures { SpoilLaws }
{
    share_store::laws::toggle_laws();
}

/// What the shares that were gathered say.
pub fn gather_laws()
    ensures { GatherLaws }
{}

/// What is found under a storage index is told by what stands there, and is all that stands there.
pub fn found_laws()
    ensures { FoundLaws }
{}

/// In each layout the image of rows that it can hold is read as those rows. Bytes that are read without a fault are the
/// image of what was read, in the layout that they name. As many stores with the same rows hold the same shares.
pub fn image_laws()
    ensures { ImageLaws }
{}

/// Where an image is read with a fault, its first bytes name no layout, or the field there is cut off, out of its range
/// or out of order, or bytes stand there after the last share; and all before it is whole and good.
pub fn fault_laws()
    ensures { FaultLaws }
{}
