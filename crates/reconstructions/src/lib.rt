// From the root down, for one character: the states that are chosen. It goes over the interior nodes in an order in which every node stands behind its
// ancestor, and takes ranges as they stand: those of the first pass, or the final ranges.
#![tactic(auto)]

ghost use Rattle.std.specs.Prelude.{◌≡◌, ℕ, ◌-◌, length};
ghost use Rattle.descents.specs.Descents.{Descends};
ghost use Rattle.reconstructions.specs.Reconstructions.{Choosing, ChosenAt, Chooses, list_of};

use cells::state_of;
use choices::Resolve;
use ranges::Range;

// The state of a node's ancestor: a taxon's own, and an interior node's among those that are chosen.
fn state_above(
    n: usize,
    c: usize,
    character: usize,
    node: usize,
    tree: &[u16],
    matrix: &[u16],
    states: &[u16],
) -> u16
    requires { Choosing n c character node tree.now matrix.now states.now }
    ensures { ChosenAt n c character node tree.now matrix.now states.now result }
{
    let ancestor = usize::from(tree[node - 1]);
    if ancestor <= n {
        return state_of(c, character, ancestor, matrix);
    }
    states[ancestor - n - 1]
}

// Chooses a state for each interior node, from the root down: of its range, the state nearest its ancestor's state.
pub fn choose_states(
    n: usize,
    c: usize,
    character: usize,
    root: usize,
    top: usize,
    tree: &[u16],
    matrix: &[u16],
    order: &[u16; 254],
    lows: &[u16],
    highs: &[u16],
    states: &mut [u16],
)
    requires { Descends n c character root top tree.now matrix.now order.now lows.now highs.now × (length states.old ≡ n - 2) }
    ensures { Chooses n c character root tree.now matrix.now lows.now highs.now
        states.new }
{
    for i in 0..n - 2 {
        let node = usize::from(order[i]);
        let at = node - n - 1;
        let from = state_above(n, c, character, node, tree, matrix, states);
        let range = Range {
            low: lows[at],
            high: highs[at],
        };
        states[at] = ranges::nearest(range, from);
    }
}

// The states of one reconstruction: of the first-pass ranges for ACCTRAN, of the final ranges for DELTRAN.
pub fn reconstruct(
    n: usize,
    c: usize,
    character: usize,
    root: usize,
    top: usize,
    resolve: Resolve,
    tree: &[u16],
    matrix: &[u16],
    order: &[u16; 254],
    first_lows: &[u16],
    first_highs: &[u16],
    final_lows: &[u16],
    final_highs: &[u16],
    states: &mut [u16],
)
    requires { Descends n c character root top tree.now matrix.now order.now first_lows.now first_highs.now
        × Descends n c character root top tree.now matrix.now order.now final_lows.now final_highs.now × (length states.old ≡ n - 2) }
    ensures { Chooses n c character root tree.now matrix.now
        (list_of resolve first_lows.now final_lows.now)
        (list_of resolve first_highs.now final_highs.now) states.new }
{
    let (lows, highs) = match resolve {
        Resolve::Acctran => (first_lows, first_highs),
        Resolve::Deltran => (final_lows, final_highs),
    };
    choose_states(
        n, c, character, root, top, tree, matrix, order, lows, highs, states,
    );
}
