// From the root down, for one character: the final ranges of a second pass. It goes over the interior nodes in an order in which every node stands
// behind its ancestor, and takes the ranges of the pass before as they stand.
#![tactic(auto)]

ghost use Rattle.std.specs.Prelude.{◌≡◌, ℕ, ◌-◌, length};
ghost use Rattle.shapes.specs.Shape.{Filled};
ghost use Rattle.descents.specs.Descents.{Descends, Finals};

use ranges::Range;
use shapes::Shape;

// The second pass: the final ranges, from the ranges of the first pass.
pub fn final_ranges(
    n: usize,
    c: usize,
    character: usize,
    root: usize,
    top: usize,
    tree: &[u16],
    matrix: &[u16],
    shape: &Shape,
    order: &[u16; 254],
    lows: &[u16],
    highs: &[u16],
    final_lows: &mut [u16],
    final_highs: &mut [u16],
)
    requires { Descends n c character root top tree.now matrix.now order.now lows.now highs.now
        × Filled n tree.now shape.now.left shape.now.right
        × (length final_lows.old ≡ n - 2) × (length final_highs.old ≡ n - 2) }
    ensures { Finals n c character root top tree.now matrix.now lows.now highs.now
        final_lows.new final_highs.new }
{
    let mut above = [Range { low: 0, high: 0 }; 254];
    for i in 0..n - 2 {
        let node = usize::from(order[i]);
        let seen = nodes::see(
            n, c, character, root, top, node, tree, matrix, shape, lows, highs, &above,
        );
        above[node - n - 1] = seen;
        nodes::finish(
            n,
            c,
            character,
            node,
            seen,
            matrix,
            shape,
            lows,
            highs,
            final_lows,
            final_highs,
        );
    }
}
