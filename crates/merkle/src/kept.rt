//! Trees whose nodes are kept.
ghost use Rattle.std.specs.Prelude.{◌≡◌, ◌+◌, ◌^◌, ◌<◌, ◌≤◌, ◌*◌, ◌++◌, ℕ, List, length, take, drop, vec_len, IfOk, OnOk};
ghost use Rattle.merkle.specs.Chain.{chain, tree_chain};
ghost use Rattle.merkle.specs.Filled.{filled};
ghost use Rattle.merkle.specs.Height.{height};
ghost use Rattle.merkle.specs.Nodes.{tree_nodes};
ghost use Rattle.merkle.specs.Tree.{padded, root, tree_root};

use crate::heights::height;
use crate::trees::{halves, leaf_count, node, padded_leaf};
use std::alloc::AllocError;
use std::marker::Model;

/// A tree whose nodes are kept, so that the root and the chains of all leaves are had for one hashing:
/// a contract sees it as the list of its leaves.
#[derive(Drop)]
pub struct Tree {
    leaves: Vec<[u8; 32]>,
    nodes: Vec<[u8; 32]>,
}

impl Model for Tree {
    ghost Value = { List (List ℕ) };

    ghost view = { λ tree. tree.leaves.items };

    ghost invariant = { λ tree. tree.nodes.items
        ≡ tree_nodes (height (length tree.leaves.items)) (padded tree.leaves.items) };
}

impl Tree {
    /// The tree of these leaves. `Err` only where memory is refused, and then the leaves are gone.
    ///
    /// Of n leaves, padded to a power of two m, it makes m - 1 hashes of pairs and m - n hashes of padding
    /// leaves, and keeps 2m - 1 hashes beside the leaves.
    pub fn new(leaves: Vec<[u8; 32]>) -> Result<Self, AllocError>
        requires { 0 < vec_len leaves }
        ensures { IfOk result (λ tree. tree ≡ leaves.items) }
    {
        let height = height(leaves.len());
        let mut nodes = Vec::with_capacity(*leaves.allocator(), node_count(height))?;
        push_nodes(&mut nodes, leaves.as_slice(), 0, height)?;
        Ok(Tree { leaves, nodes })
    }

    /// The root. It hashes nothing.
    pub fn root(&self) -> [u8; 32]
        ensures { result ≡ root self.now }
    {
        self.nodes[self.nodes.len() - 1]
    }

    /// The chain of the leaf at `place`, as the function `chain` gives it. It hashes nothing.
    /// `Err` only where memory is refused.
    pub fn chain(&self, place: usize) -> Result<Vec<[u8; 32]>, AllocError>
        requires { place < length self.now }
        ensures { IfOk result (λ hashes. hashes.items ≡ chain self.now place) }
    {
        let height = height(self.leaves.len());
        let mut hashes = Vec::with_capacity(*self.leaves.allocator(), height)?;
        push_beside(&mut hashes, self.nodes.as_slice(), height, place)?;
        Ok(hashes)
    }
}

/// How many nodes a tree of this height has.
fn node_count(height: usize) -> usize
    requires { height < 63 }
    ensures { result + 1 ≡ 2 ^ (height + 1) }
{
    leaf_count(height + 1) - 1
}

/// Appends all nodes of the subtree of this height whose first leaf has the index `first`, and gives its root.
/// These are its leaves; those that are missing at its end are padding leaves.
fn push_nodes(
    nodes: &mut Vec<[u8; 32]>,
    leaves: &[[u8; 32]],
    first: usize,
    height: usize,
) -> Result<[u8; 32], AllocError>
    requires within { length leaves.now ≤ 2 ^ height }
    requires room { first + 2 ^ height ≤ 2 ^ 64 }
    ensures top { IfOk result (λ top. top ≡ tree_root height (filled leaves.now first height)) }
    ensures nodes { OnOk result (nodes.new.items
        ≡ nodes.old.items ++ tree_nodes height (filled leaves.now first height)) }
{
    if height == 0 {
        let leaf = padded_leaf(leaves, first);
        nodes.push(leaf)?;
        return Ok(leaf);
    }
    let half = leaf_count(height - 1);
    let (left, right) = halves(leaves, half);
    let left_top = push_nodes(nodes, left, first, height - 1)?;
    let right_top = push_nodes(nodes, right, first + half, height - 1)?;
    let top = node(&left_top, &right_top);
    nodes.push(top)?;
    Ok(top)
}

/// Appends the chain of the leaf at `place` in the tree of this height with these nodes.
fn push_beside(
    hashes: &mut Vec<[u8; 32]>,
    nodes: &[[u8; 32]],
    height: usize,
    place: usize,
) -> Result<(), AllocError>
    requires low { height < 63 }
    requires inside { place < 2 ^ height }
    requires sized { length nodes.now + 1 ≡ 2 ^ (height + 1) }
    ensures { (leaves : List (List ℕ)) → nodes.now ≡ tree_nodes height leaves →
        OnOk result (hashes.new.items ≡ hashes.old.items ++ tree_chain height leaves place) }
{
    if height == 0 {
        return Ok(());
    }
    let half = leaf_count(height - 1);
    let count = node_count(height - 1);
    let (left, right) = parts(nodes, count);
    if place < half {
        push_beside(hashes, left, height - 1, place)?;
        hashes.push(right[count - 1])?;
    } else {
        push_beside(hashes, right, height - 1, place - half)?;
        hashes.push(left[count - 1])?;
    }
    Ok(())
}

/// The first `count` nodes, and the next as many.
fn parts(nodes: &[[u8; 32]], count: usize) -> (&[[u8; 32]], &[[u8; 32]])
    requires { length nodes.now ≡ 2 * count + 1 }
    ensures left { result.0.now ≡ take count nodes.now }
    ensures right { result.1.now ≡ take count (drop count nodes.now) }
{
    (&nodes[..count], &nodes[count..2 * count])
}
