// The length of the tree: the sum of the lengths of all characters.
#![tactic(auto)]

ghost use Rattle.std.specs.Prelude.{◌≡◌};
ghost use Rattle.totals.specs.Totals.{Given, HasLength, GivenBlocks, LengthIn, Adds, added};

use rows::Block;
use shapes::Shape;

// Adds the lengths of the w characters of a block to a sum.
fn add_block(root: usize, top: usize, w: usize, block: &Block, sum: u32) -> u32
    requires { Adds root top w block.now.lows block.now.highs block.now.lengths sum }
    ensures { result ≡ added root top w block.now.lows block.now.highs block.now.lengths sum w }
{
    let mut total = sum;
    for i in 0..w {
        total += entry_lists::length_of(root, top, w, i + 1, block);
    }
    total
}

// The length of the tree, one block of characters after the other.
fn sum_blocks(n: usize, c: usize, root: usize, top: usize, shape: &Shape, matrix: &[u16]) -> u32
    requires { GivenBlocks n c root top shape.now.left shape.now.right matrix.now }
    ensures { LengthIn n c root top shape.now.left shape.now.right matrix.now result }
{
    let mut block = Block::new();
    let mut sum: u32 = 0;
    for done in (0..c).step_by(8) {
        let w = passes::width(c - done);
        passes::first_pass(n, c, done, w, top, shape, matrix, &mut block);
        sum = add_block(root, top, w, &block, sum);
    }
    sum
}

// The length of the tree: the sum of the characters' lengths. At most 2,549,745 for each character, so 1,305,469,440 in all.
pub fn total_length(
    n: usize,
    c: usize,
    root: usize,
    top: usize,
    tree: &[u16],
    matrix: &[u16],
) -> u32
    requires { Given n c root top tree.now matrix.now }
    ensures { HasLength n c tree.now matrix.now result }
{
    let shape = shapes::descendants(n, tree);
    sum_blocks(n, c, root, top, &shape, matrix)
}
