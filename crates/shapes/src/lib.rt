// The shape of an accepted table: the two descendants of each interior node.
#![tactic(auto)]

ghost use Rattle.std.specs.Prelude.{◌≡◌, ℕ, ◌+◌, ◌≤◌, ◌<◌};
ghost use Rattle.shapes.specs.Shape.{Filled};
ghost use Rattle.shapes.specs.Filling.{noted, Fillable};

// Each interior node's two descendants, the lower in `left` and the higher in `right`; the node n + 1 comes first.
#[derive(Clone, Copy)]
pub struct Shape {
    pub left: [u16; 254],
    pub right: [u16; 254],
}

// Notes a descendant of a node, where the node is interior: the last that is noted stays.
fn note(n: usize, ancestor: usize, node: usize, list: &mut [u16; 254])
    requires { (n < 257) × (ancestor ≤ n + 254) × (node < 65536) }
    ensures { list.new ≡ noted n ancestor node list.old }
{
    if n < ancestor {
        list[ancestor - n - 1] = node as u16;
    }
}

// The two descendants of each interior node: the last that is noted from the highest node down is the lower one, and from node 1 up the higher. No turn
// reads what another wrote, so none waits for the one before it.
pub fn descendants(n: usize, tree: &[u16]) -> Shape
    requires { Fillable n tree.now }
    ensures { Filled n tree.now result.left result.right }
{
    let mut shape = Shape {
        left: [0; 254],
        right: [0; 254],
    };
    for k in 0..tree.len() {
        let down = tree.len() - 1 - k;
        note(n, usize::from(tree[down]), down + 1, &mut shape.left);
        note(n, usize::from(tree[k]), k + 1, &mut shape.right);
    }
    shape
}
