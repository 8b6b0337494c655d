// The faults of a tree table beside the root's, that its entries show one by one: refusals 4 and 5, each with the search for its place.
#![tactic(auto)]

ghost use Rattle.std.specs.Prelude.{ℕ, ◌≤◌, length};
ghost use Rattle.refusals.specs.Search.{Finds, Tells};
ghost use Rattle.faults.specs.Faults.{StrayEntry, WrongCount};
ghost use Rattle.faults.specs.Finding.{Strays, Wrong, InTable, Counted};

// Whether an entry is above the nodes, or names a taxon that is not the root.
fn strays(n: usize, root: usize, nodes: usize, entry: usize) -> bool
    ensures { Tells (Strays n root nodes entry) result }
{
    nodes < entry || (1 <= entry && entry <= n && entry != root)
}

// The lowest node whose entry is above the nodes or names a taxon that is not the root.
pub fn stray_entry(n: usize, root: usize, tree: &[u16]) -> Option<usize>
    ensures { Finds (StrayEntry n tree.now root) (length tree.now) result }
{
    for (k, entry) in tree.iter().enumerate() {
        if strays(n, root, tree.len(), usize::from(*entry)) {
            return Some(k + 1);
        }
    }
    None
}

// Counts the descendants of each node: entry v of the list is that of the node v.
fn count_descendants(tree: &[u16]) -> [u16; 511]
    requires { InTable tree.now }
    ensures { Counted tree.now result }
{
    let mut counts = [0u16; 511];
    for entry in tree {
        counts[usize::from(*entry)] += 1;
    }
    counts
}

// Whether a node has a wrong number of descendants: the root, but not one; an interior node, but not two.
fn is_wrong(n: usize, root: usize, node: usize, count: u16) -> bool
    requires { root ≤ n }
    ensures { Tells (Wrong n root node count) result }
{
    if node == root {
        count != 1
    } else {
        n < node && count != 2
    }
}

// The lowest node with a wrong number of descendants.
pub fn wrong_count(n: usize, root: usize, tree: &[u16]) -> Option<usize>
    requires { InTable tree.now × (root ≤ n) }
    ensures { Finds (WrongCount n tree.now root) (length tree.now) result }
{
    let counts = count_descendants(tree);
    for k in 0..tree.len() {
        let node = k + 1;
        if is_wrong(n, root, node, counts[node]) {
            return Some(node);
        }
    }
    None
}
