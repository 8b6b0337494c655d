// The root of a tree table: where it is, or where refusal 3 is; and the root's descendant.
#![tactic(auto)]

ghost use Rattle.std.specs.Prelude.{◌≡◌, ℕ, ◌≤◌, length};
ghost use Rattle.parsimony.specs.Table.{ancestor};
ghost use Rattle.roots.specs.Roots.{FindsRoot, Named};

// Why a table has no root: the lowest 0 entry that is interior or follows another 0, or there is no 0 entry.
#[derive(Clone, Copy, Debug, PartialEq, Eq)]
pub enum NoRoot {
    Stray(usize),
    Missing,
}

// The root of a table, or why it has none.
pub fn find_root(n: usize, tree: &[u16]) -> Result<usize, NoRoot>
    ensures { FindsRoot n tree.now result }
{
    let mut root = None;
    for (k, entry) in tree.iter().enumerate() {
        if *entry == 0 {
            if root.is_some() || n <= k {
                return Err(NoRoot::Stray(k + 1));
            }
            root = Some(k + 1);
        }
    }
    root.ok_or(NoRoot::Missing)
}

// The lowest descendant of the root, which has one.
pub fn descendant_of(root: usize, tree: &[u16]) -> usize
    requires { Named root tree.now }
    ensures { (1 ≤ result) × (result ≤ length tree.now) × (ancestor tree.now result ≡ root) }
{
    let first = tree.iter().position(|entry| usize::from(*entry) == root);
    first.unwrap() + 1
}
