// One character's entries out of a block, and its length: what a first pass over a block leaves, taken for one character.
#![tactic(auto)]

ghost use Rattle.std.specs.Prelude.{◌≡◌};
ghost use Rattle.entry_lists.specs.EntryLists.{Takes, Copied, Ends, length_at};

use ranges::Range;
use rows::Block;

// Takes one of the w characters out of a list of a block: its entries at the interior nodes, the node n + 1 first.
pub fn take<T: Copy>(n: usize, w: usize, i: usize, list: &[T; 4080], entries: &mut [T])
    requires { Takes n w i entries.old }
    ensures { Copied n w i list.now entries.new }
{
    for k in 0..n - 2 {
        entries[k] = list[(n + k) * w + (i - 1)];
    }
}

// The length of one of the w characters: what is below the root's descendant, and the distance from there to the root's state.
pub fn length_of(root: usize, top: usize, w: usize, i: usize, block: &Block) -> u32
    requires { Ends root top w i block.now.lows block.now.highs block.now.lengths }
    ensures { result ≡ length_at root top w i block.now.lows block.now.highs block.now.lengths }
{
    let at = (root - 1) * w + (i - 1);
    let below = (top - 1) * w + (i - 1);
    let state = Range {
        low: block.lows[at],
        high: block.highs[at],
    };
    let range = Range {
        low: block.lows[below],
        high: block.highs[below],
    };
    block.lengths[below] + u32::from(ranges::cost(state, range))
}
