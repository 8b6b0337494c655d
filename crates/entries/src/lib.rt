// The search for kept entries that no pass leaves: refusal 10.
// Three slices of entries, of one character or of all, stay three parameters: the C interface lends each apart.
#![tactic(auto)]

ghost use Rattle.std.specs.Prelude.{◌≡◌, ℕ, ◌+◌, ◌-◌, ◌*◌, ◌≤◌, ◌<◌, length};
ghost use Rattle.refusals.specs.Search.{Tells, Finds};
ghost use Rattle.entries.specs.Entries.{Bad, BadAt, OneCharacter, AllCharacters, FindsEntry, Marks, Marked, Beside, BadMarked, Besides};

// Is an entry one that no pass leaves: low above high, high above 9999, or a length above 5,089,491?
fn is_bad(low: u16, high: u16, length: u32) -> bool
    ensures { Tells (Bad low high length) result }
{
    high < low || 9999 < high || 5089491 < length
}

// The lowest node of a character whose entry is bad.
pub fn bad_node(n: usize, lows: &[u16], highs: &[u16], lengths: &[u32]) -> Option<usize>
    requires { OneCharacter n lows.now highs.now lengths.now }
    ensures { Finds (BadAt n lows.now highs.now lengths.now) (2 * n - 2) result }
{
    for k in 0..n - 2 {
        if is_bad(lows[k], highs[k], lengths[k]) {
            return Some(n + k + 1);
        }
    }
    None
}

// The lowest node with a bad entry, of the lowest character that has one.
pub fn bad_entry(n: usize, c: usize, lows: &[u16], highs: &[u16], lengths: &[u32]) -> Option<usize>
    requires { AllCharacters n c lows.now highs.now lengths.now }
    ensures { FindsEntry n c lows.now highs.now lengths.now result }
{
    for j in 0..c {
        let from = j * (n - 2);
        let to = from + (n - 2);
        if let Some(node) = bad_node(n, &lows[from..to], &highs[from..to], &lengths[from..to]) {
            return Some(node);
        }
    }
    None
}

// Marks the nodes of a path, each at its place. A mark is a number, 0 or 1: the definition `Marked` reads marks as it reads entries.
pub fn mark(n: usize, path: &[u16]) -> [u16; 254]
    requires { Marks n (length path.now) path.now }
    ensures { Marked n (length path.now) path.now result }
{
    let mut marks = [0u16; 254];
    for node in path {
        marks[usize::from(*node) - n - 1] = 1;
    }
    marks
}

// Is an interior node beside the path: not marked, below an interior node that is marked? `up` is its ancestor.
fn beside(n: usize, node: usize, up: usize, marks: &[u16; 254]) -> bool
    requires { (n < node) × (node ≤ n + 254) × (up ≤ n + 254) × (n ≤ 256) }
    ensures { Tells (Beside n node up marks.now) result }
{
    n < up && marks[up - n - 1] != 0 && marks[node - n - 1] == 0
}

// Is a node beside the path, and its entry bad?
fn bad_here(
    n: usize,
    node: usize,
    tree: &[u16],
    marks: &[u16; 254],
    lows: &[u16],
    highs: &[u16],
    lengths: &[u32],
) -> bool
    requires { Besides n tree.now lows.now highs.now lengths.now × (n < node) × (node ≤ 2 * n - 2) }
    ensures { Tells (BadMarked n tree.now marks.now lows.now highs.now lengths.now node) result }
{
    let up = usize::from(tree[node - 1]);
    let at = node - n - 1;
    beside(n, node, up, marks) && is_bad(lows[at], highs[at], lengths[at])
}

// The lowest node beside the path whose entry is bad.
pub fn bad_beside(
    n: usize,
    tree: &[u16],
    marks: &[u16; 254],
    lows: &[u16],
    highs: &[u16],
    lengths: &[u32],
) -> Option<usize>
    requires { Besides n tree.now lows.now highs.now lengths.now }
    ensures { Finds (BadMarked n tree.now marks.now lows.now highs.now lengths.now)
        (2 * n - 2) result }
{
    for node in n + 1..2 * n - 1 {
        if bad_here(n, node, tree, marks, lows, highs, lengths) {
            return Some(node);
        }
    }
    None
}
