//! Entries of a directory.

use caps::Cap;
use octets::Text;

/// An entry of a directory: a child under its name.
#[derive(Drop)]
pub struct Entry {
    /// The name: UTF-8, not empty, in NFC.
    pub name: Text,
    /// The cap that reads the child.
    pub cap: Cap,
    /// A JSON object in its one spelling, `serde_json`'s compact text.
    pub metadata: Text,
}
