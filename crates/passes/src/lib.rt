// The first pass over a block of characters: the taxa's rows are loaded, and the tree is walked.
#![tactic(auto)]

ghost use Rattle.std.specs.Prelude.{◌≡◌, ◌≤◌, min};
ghost use Rattle.passes.specs.Passes.{Loads, LoadedRow, Loaded, Passable, Passed};

use rows::Block;
use shapes::Shape;

// The number of characters in the next block: 8, or as many as are left.
pub fn width(left: usize) -> usize
    ensures { result ≡ min left 8 }
{
    left.min(8)
}

// Writes a taxon's row: in each of w characters its state alone, at no length. `past` characters come before the block.
fn load_row(taxon: usize, c: usize, past: usize, w: usize, matrix: &[u16], block: &mut Block)
    requires { Loads taxon c past w matrix.now block.old.lows block.old.highs block.old.lengths × (1 ≤ taxon) }
    ensures { LoadedRow taxon c past w w matrix.now block.old.lows block.old.highs block.old.lengths
        block.new.lows block.new.highs block.new.lengths }
{
    let from = (taxon - 1) * c + past;
    let at = (taxon - 1) * w;
    for i in 0..w {
        let state = matrix[from + i];
        block.lows[at + i] = state;
        block.highs[at + i] = state;
        block.lengths[at + i] = 0;
    }
}

// Writes the rows of all taxa.
fn load(n: usize, c: usize, past: usize, w: usize, matrix: &[u16], block: &mut Block)
    requires { Loads n c past w matrix.now block.old.lows block.old.highs block.old.lengths }
    ensures { Loaded n c past w matrix.now block.new.lows block.new.highs block.new.lengths }
{
    for t in 0..n {
        load_row(t + 1, c, past, w, matrix, block);
    }
}

// The first pass: every interior node is settled, in each of w characters.
pub fn first_pass(
    n: usize,
    c: usize,
    past: usize,
    w: usize,
    top: usize,
    shape: &Shape,
    matrix: &[u16],
    block: &mut Block,
)
    requires { Passable n c past w top shape.now.left shape.now.right matrix.now block.old.lows block.old.highs block.old.lengths }
    ensures { Passed n c past w top shape.now.left shape.now.right matrix.now block.new.lows block.new.highs block.new.lengths }
{
    load(n, c, past, w, matrix, block);
    blocks::walk(top, 2 * n - 1, n, w, shape, block);
}
