// The path from a node to the root: the interior nodes between them.
#![tactic(auto)]

ghost use Rattle.std.specs.Prelude.{replicate};
ghost use Rattle.paths.specs.Paths.{Pathable, IsPath};

// So many interior nodes, from a node's ancestor up.
#[derive(Clone, Copy)]
pub struct Path {
    pub nodes: [u16; 254],
    pub count: usize,
}

// The interior nodes between a node and the root, from the node's ancestor up.
pub fn path_of(n: usize, tree: &[u16], node: usize) -> Path
    requires { Pathable n tree.now node }
    ensures { IsPath n tree.now node (replicate 254 0) result.nodes result.count }
{
    let mut nodes = [0; 254];
    let mut count = 0;
    let mut at = tree[node - 1];
    // A `while`: how far the root is shows only where the climb ends.
    'climb: while n < usize::from(at) {
        nodes[count] = at;
        count += 1;
        at = tree[usize::from(at) - 1];
    }
    Path { nodes, count }
}
