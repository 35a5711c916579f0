//! The tree of ready positions, which gives the least.
ghost use Rattle.std.specs.Prelude.{◌≡◌, ℕ, ◌+◌, ◌*◌, ◌^◌, ◌<◌, ◌≤◌, ◌⊎◌, length, replicate, IfOk};
ghost use Rattle.prio_graph.specs.Trees.{IsTree, leaf, LeafIsSet, IsALeaf};

use sol_base::OutOfMemory;
use std::alloc::Global;

/// What a leaf has that shows no position.
pub(crate) const NONE: u32 = u32::MAX;

/// A tree over so many leaves that show nothing.
pub(crate) fn empty_tree(alloc: Global, count: usize) -> Result<Vec<u32>, OutOfMemory>
    requires { count < 2 ^ 32 }
    ensures { IfOk result (λ tree. tree.items ≡ replicate (2 * count) NONE) }
{
    Ok(vec![in alloc; NONE; 2 * count]?)
}

/// Writes the leaf of a position, and the least of both children into each node above it.
pub(crate) fn write_leaf(tree: &mut [u32], count: usize, position: usize, value: u32)
    requires length { length tree.old ≡ 2 * count }
    requires few { count < 2 ^ 32 }
    requires below { position < count }
    requires is_tree { IsTree tree.old count }
    ensures is_tree { IsTree tree.new count }
    ensures leaves { LeafIsSet count position value tree.old tree.new }
{
    let mut at = count + position;
    tree[at] = value;
    while at > 1 {
        at /= 2;
        let least = tree[2 * at].min(tree[2 * at + 1]);
        if tree[at] == least {
            break;
        }
        tree[at] = least;
    }
}

/// The least of all leaves, and `NONE` where there are none.
pub(crate) fn least_leaf(tree: &[u32], count: usize) -> u32
    requires length { length tree.now ≡ 2 * count }
    requires is_tree { IsTree tree.now count }
    ensures least { (i : ℕ) → i < count → result ≤ leaf tree.now count i }
    ensures shown { (result ≡ NONE) ⊎ IsALeaf tree.now count result }
{
    if tree.len() > 1 { tree[1] } else { NONE }
}
