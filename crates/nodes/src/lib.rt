// One node and one character: the node's range, the range that it sees from above, and its final range.
#![tactic(auto)]

ghost use Rattle.std.specs.Prelude.{◌≡◌, ℕ};
ghost use Rattle.nodes.specs.Nodes.{Readable, IsAt, other_of, Seeing, Seen, Finished, Finishing};

use cells::state_of;
use ranges::Range;
use shapes::Shape;

// The range of a node: a taxon's state alone, and an interior node's entries.
pub fn range_at(
    n: usize,
    c: usize,
    character: usize,
    node: usize,
    matrix: &[u16],
    lows: &[u16],
    highs: &[u16],
) -> Range
    requires { Readable n c character node matrix.now lows.now highs.now }
    ensures { IsAt n c character node matrix.now lows.now highs.now result }
{
    if node <= n {
        let state = state_of(c, character, node, matrix);
        return Range {
            low: state,
            high: state,
        };
    }
    let at = node - n - 1;
    Range {
        low: lows[at],
        high: highs[at],
    }
}

// Of two nodes, the one that is not `node`.
fn other_of(node: usize, a: usize, b: usize) -> usize
    ensures { result ≡ other_of node a b }
{
    if a == node { b } else { a }
}

// The range that a node sees from above: the root's state, if it is the root's descendant; else the join of its sister's range with what its
// ancestor sees from above.
pub fn see(
    n: usize,
    c: usize,
    character: usize,
    root: usize,
    top: usize,
    node: usize,
    tree: &[u16],
    matrix: &[u16],
    shape: &Shape,
    lows: &[u16],
    highs: &[u16],
    above: &[Range; 254],
) -> Range
    requires { Seeing n c character root top node tree.now matrix.now shape.now.left shape.now.right lows.now highs.now above.now }
    ensures { Seen n c character root top node tree.now matrix.now lows.now highs.now above.now result }
{
    if node == top {
        let state = state_of(c, character, root, matrix);
        return Range {
            low: state,
            high: state,
        };
    }
    let at = usize::from(tree[node - 1]) - n - 1;
    let sister = other_of(
        node,
        usize::from(shape.left[at]),
        usize::from(shape.right[at]),
    );
    let beside = range_at(n, c, character, sister, matrix, lows, highs);
    ranges::join(beside, above[at])
}

// Writes the final range of a node: the join of its descendants' ranges and of the range that it sees from above.
pub fn finish(
    n: usize,
    c: usize,
    character: usize,
    node: usize,
    above: Range,
    matrix: &[u16],
    shape: &Shape,
    lows: &[u16],
    highs: &[u16],
    final_lows: &mut [u16],
    final_highs: &mut [u16],
)
    requires { Finishing n c character node above matrix.now shape.now.left shape.now.right lows.now highs.now
        final_lows.old final_highs.old }
    ensures { Finished n c character node above matrix.now shape.now.left shape.now.right lows.now
        highs.now final_lows.old final_highs.old final_lows.new final_highs.new }
{
    let at = node - n - 1;
    let a = range_at(
        n,
        c,
        character,
        usize::from(shape.left[at]),
        matrix,
        lows,
        highs,
    );
    let b = range_at(
        n,
        c,
        character,
        usize::from(shape.right[at]),
        matrix,
        lows,
        highs,
    );
    let last = ranges::final_range(a, b, above);
    final_lows[at] = last.low;
    final_highs[at] = last.high;
}
