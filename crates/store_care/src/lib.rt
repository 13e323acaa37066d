//! Care for the stores of a server: looking through folders, repair, images of grids, and moving a grid into another number of
//! folders.
#![tactic(auto)]

/// Looking through folders.
mod checking;
/// What is counted of the files whose shares stand in folders.
mod file_tally;
/// A store that forgets what it is put.
mod forgetful_store;
/// Images of a grid in folders.
mod images;
/// Places of a grid's servers.
pub mod places;
/// What was found and done in a repair.
mod repair_tally;
/// Repair of a grid, by the names of files in its folders.
mod repairing;
/// Laying a grid's shares into another number of folders.
mod reshaping;

pub use checking::check;
pub use images::{restore, write_image};
pub use repairing::repair;
pub use reshaping::reshape;
