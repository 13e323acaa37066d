//! Laws for the layers above. Each takes no memory and does nothing.
ghost use Rattle.share_store.specs.SizeLaws.{SizeLaws};
ghost use Rattle.share_store.specs.Toggle.{ToggleLaws};
ghost use Rattle.share_store.specs.Toggles.{TogglesLaws};

/// What two changed bits do to bytes.
pub fn toggle_laws()
    ensures { ToggleLaws }
{}

/// How many bytes the shares of a store have after a put, a loss and a changed bit.
pub fn size_laws()
    ensures { SizeLaws }
{}

/// What bits changed at a set of places do to bytes.
pub fn toggles_laws()
    ensures { TogglesLaws }
{}
