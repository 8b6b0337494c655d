// The search for a node whose ancestors never reach the root: refusal 6.
#![tactic(auto)]

ghost use Rattle.std.specs.Prelude.{◌≡◌, ℕ, ◌≤◌, ◌<◌, length};
ghost use Rattle.climbs.specs.Climbs.{Climbable, FindsLost, Marked, Climbed};

// Climbs from the node k, marking the nodes that it passes with k, and tells whether the climb leads to the root. It does if it comes to the root, or
// to a node with an earlier mark; if it comes to a node with the mark k, it goes round for ever.
fn climbs_out(root: usize, k: usize, tree: &[u16], marks: &mut [u16]) -> bool
    requires { Climbable root tree.now × Marked root tree.now k marks.old × (1 ≤ k) × (k ≤ length tree.now) }
    ensures { Climbed root tree.now k marks.new result }
{
    let mut at = k;
    while at != root {
        let mark = usize::from(marks[at]);
        if mark == k {
            return false;
        }
        if mark != 0 {
            return true;
        }
        marks[at] = k as u16;
        at = usize::from(tree[at - 1]);
    }
    true
}

// The lowest node whose ancestors never reach the root. Each node is marked once, by the first climb that passes it.
pub fn lost_node(root: usize, tree: &[u16]) -> Option<usize>
    requires { Climbable root tree.now }
    ensures { FindsLost root tree.now result }
{
    let mut marks = [0u16; 511];
    for k in 0..tree.len() {
        let node = k + 1;
        if !climbs_out(root, node, tree, &mut marks) {
            return Some(node);
        }
    }
    None
}
