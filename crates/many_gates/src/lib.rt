//! Many gateways over one grid: laws on what is told, whatever others do to the grid meanwhile.
//!
//! Each change of a grid that many gateways share is one command of one server: a share is put where none stands, or
//! the operator loses or spoils one. An item is carried out by looks at many places, each at a moment of its own,
//! while others change them. What it finds is what a run leaves: of all items that were under way some whole, some
//! with a part of their shares, and some not begun.
#![tactic(auto)]

/// Laws, each on a function that does nothing.
pub mod laws;
