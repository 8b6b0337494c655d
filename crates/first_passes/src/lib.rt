// The first pass of one character: a block of one.
#![tactic(auto)]

ghost use Rattle.std.specs.Prelude.{◌≡◌, ◌-◌, length};
ghost use Rattle.first_passes.specs.FirstPasses.{Given, Begun};

use rows::Block;
use shapes::Shape;

// The first pass of one character, into three slices with an entry for each interior node; and its length.
pub fn begin(
    n: usize,
    c: usize,
    character: usize,
    root: usize,
    top: usize,
    shape: &Shape,
    matrix: &[u16],
    lows: &mut [u16],
    highs: &mut [u16],
    lengths: &mut [u32],
) -> u32
    requires { Given n c character root top shape.now.left shape.now.right matrix.now
        × (length lows.old ≡ n - 2) × (length highs.old ≡ n - 2) × (length lengths.old ≡ n - 2) }
    ensures { Begun n c character root top shape.now.left shape.now.right matrix.now
        lows.new highs.new lengths.new result }
{
    let mut block = Block::new();
    passes::first_pass(n, c, character - 1, 1, top, shape, matrix, &mut block);
    entry_lists::take(n, 1, 1, &block.lows, lows);
    entry_lists::take(n, 1, 1, &block.highs, highs);
    entry_lists::take(n, 1, 1, &block.lengths, lengths);
    entry_lists::length_of(root, top, 1, 1, &block)
}
