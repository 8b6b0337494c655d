// A corrected cell: the entries of one character on the path from the taxon to the root are settled anew, from the taxon up.
#![tactic(auto)]

ghost use Rattle.std.specs.Prelude.{◌≡◌, ℕ, ◌-◌, ◌≤◌, ◌<◌, length};
ghost use Rattle.parsimony.specs.Matrix.{state_of};
ghost use Rattle.parsimony.specs.Character.{sizes};
ghost use Rattle.mending.specs.Mending.{MendsNode, MendedNode, MendsPath, Mended};

use paths::Path;
use shapes::Shape;

// The length below a node: none at a taxon.
fn length_at(n: usize, node: usize, lengths: &[u32]) -> u32
    requires { (n < node → node - n - 1 < length lengths.now) × (node ≤ 510) }
    ensures { result ≡ sizes n (λ k. 0) lengths.now node }
{
    if node <= n { 0 } else { lengths[node - n - 1] }
}

// Settles one node from its two descendants, as their entries stand.
fn mend_node(
    n: usize,
    c: usize,
    character: usize,
    node: usize,
    matrix: &[u16],
    shape: &Shape,
    lows: &mut [u16],
    highs: &mut [u16],
    lengths: &mut [u32],
)
    requires { MendsNode n c character node matrix.now shape.now.left shape.now.right lows.old highs.old lengths.old }
    ensures { MendedNode n c character node matrix.now shape.now.left shape.now.right
        lows.old highs.old lengths.old lows.new highs.new lengths.new }
{
    let at = node - n - 1;
    let a = usize::from(shape.left[at]);
    let b = usize::from(shape.right[at]);
    let x = nodes::range_at(n, c, character, a, matrix, lows, highs);
    let y = nodes::range_at(n, c, character, b, matrix, lows, highs);
    let joined = ranges::join(x, y);
    let cost = ranges::cost(x, y);
    let below = length_at(n, a, lengths) + length_at(n, b, lengths);
    lows[at] = joined.low;
    highs[at] = joined.high;
    lengths[at] = below + u32::from(cost);
}

// Settles each node of a path, from the taxon up.
pub fn mend_path(
    n: usize,
    c: usize,
    character: usize,
    taxon: usize,
    tree: &[u16],
    matrix: &[u16],
    shape: &Shape,
    path: &Path,
    lows: &mut [u16],
    highs: &mut [u16],
    lengths: &mut [u32],
)
    requires { MendsPath n c character taxon path.now.count tree.now matrix.now shape.now.left shape.now.right path.now.nodes
        lows.old highs.old lengths.old }
    ensures { Mended n c character taxon tree.now matrix.now lows.old highs.old lengths.old
        lows.new highs.new lengths.new }
{
    // By the index: for `&path.nodes[..path.count]` the check leaves its bound open, under a name that it says may change.
    for i in 0..path.count {
        let node = usize::from(path.nodes[i]);
        mend_node(n, c, character, node, matrix, shape, lows, highs, lengths);
    }
}
