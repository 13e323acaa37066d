//! Chains that lead from a leaf to the root.
ghost use Rattle.std.specs.Prelude.{◌≡◌, ◌+◌, ◌^◌, ◌<◌, ◌≤◌, ◌++◌, ◌↔◌, length, IfOk, OnOk, IsTrue};
ghost use Rattle.merkle.specs.Chain.{chain, tree_chain};
ghost use Rattle.merkle.specs.Filled.{filled};
ghost use Rattle.merkle.specs.Leads.{Leads, parent};

use crate::heights::height;
use crate::trees::{halves, leaf_count, node, subtree_root};
use std::alloc::{AllocError, Global};

/// The chain of the leaf at `place`: the hashes that stand beside its path to the root, from the leaf
/// up, as many as the tree is high. `Err` only where memory is refused.
///
/// No node is hashed twice, and none on the path: of n leaves, padded to m, which is 2 to the power h,
/// it makes m - 1 - h hashes of pairs and m - n hashes of padding leaves.
pub fn chain(alloc: Global, leaves: &[[u8; 32]], place: usize) -> Result<Vec<[u8; 32]>, AllocError>
    requires { place < length leaves.now }
    ensures { IfOk result (λ hashes. hashes.items ≡ chain leaves.now place) }
{
    let height = height(leaves.len());
    let mut hashes = Vec::with_capacity(alloc, height)?;
    push_chain(&mut hashes, leaves, 0, height, place)?;
    Ok(hashes)
}

/// Appends the chain of the leaf at `place` in the subtree of this height whose first leaf has the index
/// `first`. These are its leaves; those that are missing at its end are padding leaves.
fn push_chain(
    hashes: &mut Vec<[u8; 32]>,
    leaves: &[[u8; 32]],
    first: usize,
    height: usize,
    place: usize,
) -> Result<(), AllocError>
    requires within { length leaves.now ≤ 2 ^ height }
    requires room { first + 2 ^ height ≤ 2 ^ 64 }
    requires inside { place < 2 ^ height }
    ensures { OnOk result (hashes.new.items
        ≡ hashes.old.items ++ tree_chain height (filled leaves.now first height) place) }
{
    if height == 0 {
        return Ok(());
    }
    let half = leaf_count(height - 1);
    let (left, right) = halves(leaves, half);
    if place < half {
        push_chain(hashes, left, first, height - 1, place)?;
        hashes.push(subtree_root(right, first + half, height - 1))?;
    } else {
        push_chain(hashes, right, first + half, height - 1, place - half)?;
        hashes.push(subtree_root(left, first, height - 1))?;
    }
    Ok(())
}

/// Whether the leaf at `place` leads to the root by this chain, in a tree that is as high as the chain
/// is long: `false` too where that tree has no such place. That the chain is as long as the caller's
/// tree is high is for the caller to ask, by [`height`].
///
/// It makes one hash of a pair for each hash of the chain.
pub fn check(root: &[u8; 32], place: usize, leaf: &[u8; 32], chain: &[[u8; 32]]) -> bool
    ensures { IsTrue result ↔ Leads root.now place leaf.now chain.now }
{
    let mut hash = *leaf;
    let mut rest = place;
    for beside in chain {
        hash = parent(rest, &hash, beside);
        rest /= 2;
    }
    rest == 0 && hash == *root
}

/// The node over a hash at a place and the one beside it.
fn parent(place: usize, hash: &[u8; 32], beside: &[u8; 32]) -> [u8; 32]
    ensures { result ≡ parent place hash.now beside.now }
{
    if place % 2 == 0 {
        node(hash, beside)
    } else {
        node(beside, hash)
    }
}
