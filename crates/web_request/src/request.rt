//! What a request asks for.

use caps::Cap;
use octets::Bytes;
use path_names::Names;

/// What a request asks for.
#[derive(Drop)]
pub enum Request {
    /// To store these bytes as a file.
    Put(Bytes),
    /// To make a directory of these children, in JSON.
    Mkdir(Bytes),
    /// What a path leads to: its bytes or its JSON.
    Get {
        /// The cap at which the path begins.
        cap: Cap,
        /// The names on the way.
        names: Names,
        /// Whether its JSON is asked for, in place of its bytes.
        json: bool,
        /// Whether the head of the answer is asked for alone.
        head_only: bool,
        /// The value of the one Range field, where no If-Range field stands.
        range: Option<Bytes>,
    },
    /// How many good shares there are of what a path leads to.
    Check {
        /// The cap at which the path begins.
        cap: Cap,
        /// The names on the way.
        names: Names,
        /// Whether the shares are verified.
        verify: bool,
    },
}

/// What the path of a target names.
#[derive(Clone, Copy, PartialEq, Eq)]
pub enum Resource {
    /// `/uri`, which takes PUT and POST.
    Uploads,
    /// What begins with `/uri/`, which takes GET, HEAD and POST.
    Node,
}
