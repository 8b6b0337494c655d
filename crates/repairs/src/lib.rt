// The path of a corrected cell: what stands beside it is looked at, and then the cell is written and the path settled anew.
#![tactic(auto)]

ghost use Rattle.std.specs.Prelude.{◌*◌, ◌-◌};
ghost use Rattle.refusals.specs.Search.{Finds};
ghost use Rattle.entries.specs.Entries.{BadBeside};
ghost use Rattle.repairs.specs.Repairs.{Mended, Looks, Mends};

use paths::Path;

// The lowest interior node with a bad entry that is beside the path: below a node of the path, and not on it.
pub fn look_beside(
    n: usize,
    taxon: usize,
    tree: &[u16],
    path: &Path,
    lows: &[u16],
    highs: &[u16],
    lengths: &[u32],
) -> Option<usize>
    requires { Looks n taxon path.now.count tree.now path.now.nodes lows.now highs.now lengths.now }
    ensures { Finds (BadBeside n taxon tree.now lows.now highs.now lengths.now) (2 * n - 2) result }
{
    let marks = entries::mark(n, &path.nodes[..path.count]);
    entries::bad_beside(n, tree, &marks, lows, highs, lengths)
}

// Writes the cell, and settles the path anew.
pub fn write_path(
    n: usize,
    c: usize,
    taxon: usize,
    character: usize,
    state: u16,
    tree: &[u16],
    path: &Path,
    matrix: &mut [u16],
    lows: &mut [u16],
    highs: &mut [u16],
    lengths: &mut [u32],
)
    requires { Mends n c taxon character state path.now.count tree.now path.now.nodes matrix.old lows.old highs.old lengths.old }
    ensures { Mended n c taxon character state tree.now matrix.old
        lows.old highs.old lengths.old matrix.new lows.new highs.new lengths.new }
{
    let shape = shapes::descendants(n, tree);
    matrix[(taxon - 1) * c + (character - 1)] = state;
    mending::mend_path(
        n, c, character, taxon, tree, matrix, &shape, path, lows, highs, lengths,
    );
}
