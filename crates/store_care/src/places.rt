//! Places of a grid's servers.
ghost use Rattle.std.specs.Prelude.{◌≡◌, ◌≢◌, ◌<◌, ◌⊎◌, ℕ, All, Contains, IfOk, IsFalse, IsTrue};
ghost use Rattle.store_care.specs.Places.{IsWithout};

use std::alloc::{AllocError, Global};

/// The places of so many servers that aren't among these, in their order. `Err` only where memory is refused.
pub fn missing_places(alloc: Global, servers: u16, places: &[u16]) -> Result<Vec<u16>, AllocError>
    ensures only { IfOk result (λ missing.
        All (λ place. (place < servers) × IsWithout places.now place) missing.items) }
    ensures all { IfOk result (λ missing. (place : ℕ) → place < servers →
        Contains places.now place ⊎ Contains missing.items place) }
{
    let mut missing = Vec::new(alloc);
    for place in 0..servers {
        if !has_place(places, place) {
            missing.push(place)?;
        }
    }
    Ok(missing)
}

/// Whether a place is among these.
pub fn has_place(places: &[u16], place: u16) -> bool
    ensures yes { IsTrue result → Contains places.now place }
    ensures no { IsFalse result → IsWithout places.now place }
{
    for other in places {
        if *other == place {
            return true;
        }
    }
    false
}
