//! A grid of stores.
//!
//! A grid is 1 to 256 servers with a store each. It places the shares of a file, one server after the other from the
//! one that the storage index's last byte names, and gathers what stands; an operator loses and spoils single shares.
#![tactic(auto)]

// How often what stands under each storage index may have changed.
mod counts;
// The grid and its calls.
mod server_grid;
// Why a grid refuses.
mod fault;
// Writing an image.
mod image_writer;
// Reading an image.
mod image_reader;
// The fields of an image.
mod image_fields;
// The two layouts of an image.
mod image_layout;
// Laws of spoiling, of what is gathered, and of images.
pub mod laws;

pub use fault::GridFault;
pub use server_grid::Grid;
