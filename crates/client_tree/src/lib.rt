//! Trees of files and folders: what a directory's cap leads to, written into a folder, and a folder, stored.
#![tactic(auto)]

/// Names that files can have.
mod file_name;
/// Paths: the names below a folder.
mod path;
/// Folders that files are written into.
mod folder;
/// Folders that files are read from.
mod source;
/// Why a tree isn't written or stored whole.
mod fault;
/// Files that are too long for one upload: directories of their parts.
mod parts;
/// Rows of small files in a directory.
mod row;
/// Writing what a cap leads to.
mod get;
/// Directories that are made of what stands under names.
mod children;
/// Files that are stored while they are read, piece after piece.
mod pieces;
/// Files that are on their way, several at once.
mod window;
/// Storing a folder.
mod put;
/// What holds of the definitions.
pub mod laws;

pub use children::{Child, child_of, directory_of};
pub use fault::{LocalFault, TreeFault};
pub use file_name::is_file_name;
pub use folder::Folder;
pub use get::{get_file, get_tree};
pub use parts::{PART_BYTES, parts_size, size_of_file};
pub use pieces::put_whole;
pub use put::put_tree;
pub use source::{Item, Source};
