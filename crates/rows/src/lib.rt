// One interior node settled, for all characters of a block. A block has w characters, 8 at the most. Its three lists have a row for each node, taxa
// among them, and in a row an entry for each character: the low end, the high end, and the length below the node.
#![tactic(auto)]

ghost use Rattle.std.specs.Prelude.{◌≡◌, replicate};
ghost use Rattle.rows.specs.Rows.{Placed, SettledAt, Settleable, SettledRow};

use ranges::Range;

// The rows of a block: the low ends, the high ends and the lengths. There is room for 8 characters at 510 nodes.
#[derive(Clone, Copy)]
pub struct Block {
    pub lows: [u16; 4080],
    pub highs: [u16; 4080],
    pub lengths: [u32; 4080],
}

impl Block {
    // A block with nothing in its rows yet.
    pub fn new() -> Block
        ensures { (result.lows ≡ replicate 4080 0) × (result.highs ≡ replicate 4080 0) × (result.lengths ≡ replicate 4080 0) }
    {
        Block {
            lows: [0; 4080],
            highs: [0; 4080],
            lengths: [0; 4080],
        }
    }
}

// Settles one entry from two others: the join of their ranges, and their lengths with its cost.
fn settle_one(at: usize, a: usize, b: usize, block: &mut Block)
    requires { Placed at a b block.old.lows block.old.highs block.old.lengths }
    ensures { SettledAt at a b block.old.lows block.old.highs block.old.lengths
        block.new.lows block.new.highs block.new.lengths }
{
    let x = Range {
        low: block.lows[a],
        high: block.highs[a],
    };
    let y = Range {
        low: block.lows[b],
        high: block.highs[b],
    };
    let joined = ranges::join(x, y);
    let cost = ranges::cost(x, y);
    block.lows[at] = joined.low;
    block.highs[at] = joined.high;
    block.lengths[at] = block.lengths[a] + block.lengths[b] + u32::from(cost);
}

// Settles a node from its two descendants, in each of w characters.
pub fn settle(node: usize, left: usize, right: usize, w: usize, block: &mut Block)
    requires { Settleable node left right w block.old.lows block.old.highs block.old.lengths }
    ensures { SettledRow node left right w w block.old.lows block.old.highs block.old.lengths
        block.new.lows block.new.highs block.new.lengths }
{
    let at = (node - 1) * w;
    let a = (left - 1) * w;
    let b = (right - 1) * w;
    for i in 0..w {
        settle_one(at + i, a + i, b + i, block);
    }
}
