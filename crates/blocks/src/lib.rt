// The first pass, over several characters side by side: a block, which the crate `rows` tells of. The whole subtree of a node is finished before the
// node.
#![tactic(auto)]

ghost use Rattle.blocks.specs.Blocks.{Walkable, Walked};

use rows::Block;
use shapes::Shape;

// Finishes the whole subtree of a node, and then the node. At most `allowed` nodes are still allowed below one another.
pub fn walk(node: usize, allowed: usize, n: usize, w: usize, shape: &Shape, block: &mut Block)
    requires { Walkable node allowed n w shape.now.left shape.now.right block.old.lows block.old.highs block.old.lengths }
    ensures { Walked node n w shape.now.left shape.now.right block.old.lows block.old.highs block.old.lengths
        block.new.lows block.new.highs block.new.lengths }
{
    if node <= n {
        return;
    }
    let at = node - n - 1;
    let a = usize::from(shape.left[at]);
    let b = usize::from(shape.right[at]);
    walk(a, allowed - 1, n, w, shape, block);
    walk(b, allowed - 1, n, w, shape, block);
    rows::settle(node, a, b, w, block);
}
