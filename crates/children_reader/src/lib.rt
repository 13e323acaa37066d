//! The JSON that a client names a directory's children with, read into their directory, or into its text.
#![tactic(auto)]

/// From the JSON that a client names children with to their directory.
mod children;
/// The text of the directory of the children that JSON names, made some members at a time.
mod text_maker;
/// Reads children JSON some members at a time.
mod collecting;
/// Reads members of children JSON a piece of their text at a time.
mod piecewise;
/// What takes the tokens of members, a piece of their text at a time.
mod part_reader;
/// What is made of members is taken from the tree of their values, some members at a time.
mod taking;
/// Reads the members of children JSON whose tokens come one at a time.
mod member_reader;
/// Where children JSON is cut.
mod cutting;
/// The children of members, by their names.
mod naming;
/// What is made of a child in JSON.
mod child;
/// What is kept of a child in JSON.
mod fields;
/// Reads the members of children JSON in one pass over their tokens.
mod members;

/// What holds of children JSON.
pub mod laws;

pub use children::from_children_json;
pub use text_maker::{TextMaker, TextMaking, make_text};
