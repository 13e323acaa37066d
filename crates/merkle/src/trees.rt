//! Roots of trees.
ghost use Rattle.std.specs.Prelude.{◌≡◌, ◌+◌, ◌^◌, ◌<◌, ◌≤◌, length, take, drop};
ghost use Rattle.merkle.specs.Node.{node, empty_leaf};
ghost use Rattle.merkle.specs.Tree.{root, tree_root};
ghost use Rattle.merkle.specs.Filled.{filled};

use crate::heights::height;
use tag_hash::{Decimal, pair, tagged};

const NODE_TAG: &[u8; 20] = b"webgate_tree_node_v1";

const EMPTY_LEAF_TAG: &[u8; 26] = b"webgate_tree_empty_leaf_v1";

/// The root of the tree of these leaves.
///
/// It takes no memory and keeps no level, but a hash for each level above the leaf it is at. Of n leaves,
/// padded to a power of two m, it makes m - 1 hashes of pairs and m - n hashes of padding leaves.
pub fn root(leaves: &[[u8; 32]]) -> [u8; 32]
    requires { 0 < length leaves.now }
    ensures { result ≡ root leaves.now }
{
    subtree_root(leaves, 0, height(leaves.len()))
}

/// The root of the subtree of this height whose first leaf has the index `first`. These are its leaves;
/// those that are missing at its end are padding leaves.
pub(crate) fn subtree_root(leaves: &[[u8; 32]], first: usize, height: usize) -> [u8; 32]
    requires within { length leaves.now ≤ 2 ^ height }
    requires room { first + 2 ^ height ≤ 2 ^ 64 }
    ensures { result ≡ tree_root height (filled leaves.now first height) }
{
    if height == 0 {
        return padded_leaf(leaves, first);
    }
    let half = leaf_count(height - 1);
    let (left, right) = halves(leaves, half);
    node(
        &subtree_root(left, first, height - 1),
        &subtree_root(right, first + half, height - 1),
    )
}

/// The leaf of a subtree of one leaf that has this index: a padding leaf where it is missing.
pub(crate) fn padded_leaf(leaves: &[[u8; 32]], index: usize) -> [u8; 32]
    ensures { result ≡ tree_root 0 (filled leaves.now index 0) }
{
    match leaves.first() {
        Some(leaf) => *leaf,
        None => empty_leaf(index),
    }
}

/// How many leaves a subtree of this height has.
pub(crate) fn leaf_count(height: usize) -> usize
    requires { height < 64 }
    ensures { result ≡ 2 ^ height }
{
    1 << height
}

/// The leaves of both halves, `half` being the number of the left one's with its padding.
pub(crate) fn halves(leaves: &[[u8; 32]], half: usize) -> (&[[u8; 32]], &[[u8; 32]])
    ensures left { result.0.now ≡ take half leaves.now }
    ensures right { result.1.now ≡ drop half leaves.now }
{
    if half < leaves.len() {
        leaves.split_at(half)
    } else {
        (leaves, &[])
    }
}

/// The node over two others.
pub(crate) fn node(left: &[u8; 32], right: &[u8; 32]) -> [u8; 32]
    ensures { result ≡ node left.now right.now }
{
    pair(NODE_TAG, left, right)
}

/// The padding leaf at an index.
fn empty_leaf(index: usize) -> [u8; 32]
    ensures { result ≡ empty_leaf index }
{
    let text = Decimal::new(index as u64);
    tagged(EMPTY_LEAF_TAG, text.as_bytes())
}
