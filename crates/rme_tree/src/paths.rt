//! The paths of the workers through a tree.
//!
//! The nodes are 1 up to one less than the leaves, in heap order: the parent of a node is its half. A
//! worker's leaf is the number of leaves plus the worker, and its path goes up from there to the root, 1.

ghost use Rattle.std.specs.Prelude.{◌≡◌, ◌<◌, ◌≤◌};
ghost use Rattle.rme_tree.specs.Paths.{node, side};

use rme_words::Shape;

/// The side from which worker `w` reaches its node at `level`: 1 from an even child, 2 from an odd one. It is the value
/// of the node's word while that worker holds the node.
///
/// `w` is below the shape's workers and `level` is 1 up to its height.
pub fn side(shape: Shape, w: u32, level: u32) -> u64
    requires worker { w < shape.workers }
    requires from_leaf { 1 ≤ level }
    requires to_root { level ≤ shape.height }
    ensures side { result ≡ side shape.leaves w level }
    ensures not_free { 1 ≤ result }
    ensures small { result ≤ 2 }
{
    let child = (shape.leaves + w) >> (level - 1);
    u64::from(1 + child % 2)
}

/// The node of worker `w`'s path at `level`: the parent of its leaf at level 1, the root at the shape's
/// height.
///
/// `w` is below the shape's workers and `level` is 1 up to its height.
pub fn node(shape: Shape, w: u32, level: u32) -> u32
    requires worker { w < shape.workers }
    requires from_leaf { 1 ≤ level }
    requires to_root { level ≤ shape.height }
    ensures node { result ≡ node shape.leaves w level }
    ensures is_node { 1 ≤ result }
    ensures below_leaves { result < shape.leaves }
{
    (shape.leaves + w) >> level
}
