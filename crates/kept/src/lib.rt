// The kept table: build it, correct a cell, and ask it for the tree's length. The slices of a table stay apart: the C interface lends each by itself.
#![tactic(auto)]

ghost use Rattle.std.specs.Prelude.{ℕ, ◌≤◌};
ghost use Rattle.histories.specs.Kept.{Builds, Corrects, HasLengths};
ghost use Rattle.kept.specs.Steps.{LendsTable, AdmitsTable, Wanted};

use refusals::{Reason, Refusal};
use trees::Rooted;

// The three slices of the table, before the others: which is the first that has not (n - 2) c entries.
pub fn lend_table(
    n: usize,
    c: usize,
    third: usize,
    fourth: usize,
    fifth: usize,
    others: Option<u32>,
) -> Option<u32>
    requires { (3 ≤ n) × (n ≤ 256) × (c ≤ 512) }
    ensures { LendsTable n c third fourth fifth others result }
{
    let asked = (n - 2) * c;
    let from5 = limits::lend(5, fifth, asked, others);
    let from4 = limits::lend(4, fourth, asked, from5);
    limits::lend(3, third, asked, from4)
}

// The checks of a call about all characters, whose table has slices of these lengths: 1, 2, 3 to 6, and 7 in all cells.
fn admit_table(
    n: usize,
    c: usize,
    tree: &[u16],
    matrix: &[u16],
    third: usize,
    fourth: usize,
    fifth: usize,
) -> Result<Rooted, Refusal>
    ensures { AdmitsTable n c tree.now matrix.now third fourth fifth result }
{
    if limits::outside(n, c) {
        return Err(Refusal {
            reason: Reason::Limits,
            place: 0,
        });
    }
    let from3 = lend_table(n, c, third, fourth, fifth, None);
    let from2 = limits::lend(2, matrix.len(), n * c, from3);
    let from1 = limits::lend(1, tree.len(), 2 * n - 2, from2);
    checks::admit_matrix(n, c, tree, matrix, from1)
}

// ---- build

// Builds the kept table: each entry gets its meaning. Refusals, in this order: 1, 2, 3 to 6, and 7 in all cells. A refusal changes nothing.
pub fn build(
    n: usize,
    c: usize,
    tree: &[u16],
    matrix: &[u16],
    lows: &mut [u16],
    highs: &mut [u16],
    lengths: &mut [u32],
) -> Result<(), Refusal>
    ensures { Builds n c tree.now matrix.now
        (record { lows = lows.old; highs = highs.old; lengths = lengths.old })
        (record { lows = lows.new; highs = highs.new; lengths = lengths.new }) result }
{
    let rooted = admit_table(n, c, tree, matrix, lows.len(), highs.len(), lengths.len())?;
    let root = usize::from(rooted.root);
    let top = usize::from(rooted.top);
    tables::fill_table(n, c, root, top, tree, matrix, lows, highs, lengths);
    Ok(())
}

// ---- correct one cell

// The character, if there is such a taxon, and else 0, which is no character.
fn wanted(n: usize, taxon: usize, character: usize) -> usize
    ensures { Wanted n taxon character result }
{
    if taxon < 1 || n < taxon { 0 } else { character }
}

// Corrects one cell: the cell is written and, for its character, the entries of the interior nodes between its taxon and the root, and nothing else.
// The answer is how many these are. Refusals, in this order: 1, 2, 3 to 6, 8, 7 in the character's cells, 9, and 10 in the interior descendants, off the
// path, of the nodes that are written. A refusal changes nothing.
pub fn correct(
    n: usize,
    c: usize,
    taxon: usize,
    character: usize,
    state: u16,
    tree: &[u16],
    matrix: &mut [u16],
    lows: &mut [u16],
    highs: &mut [u16],
    lengths: &mut [u32],
) -> Result<u32, Refusal>
    ensures { Corrects n c taxon character state tree.now matrix.old
        (record { lows = lows.old; highs = highs.old; lengths = lengths.old })
        matrix.new
        (record { lows = lows.new; highs = highs.new; lengths = lengths.new }) result }
{
    if limits::outside(n, c) {
        return Err(Refusal {
            reason: Reason::Limits,
            place: 0,
        });
    }
    let from3 = lend_table(n, c, lows.len(), highs.len(), lengths.len(), None);
    let from2 = limits::lend(2, matrix.len(), n * c, from3);
    let from1 = limits::lend(1, tree.len(), 2 * n - 2, from2);
    let looked = wanted(n, taxon, character);
    // A `match` in place of a `?`: the edit `refused_and_acknowledged` plants in its second arm.
    match checks::admit_character(n, c, looked, tree, matrix, from1) {
        Ok(_) => table_corrections::correct_in(
            n, c, taxon, character, state, tree, matrix, lows, highs, lengths,
        ),
        Err(refusal) => Err(refusal),
    }
}

// ---- the kept tree length

// The tree's length, from the kept table. Refusals, in this order: 1, 2, 3 to 6, 7 in all cells, and 10 in all entries.
pub fn kept_length(
    n: usize,
    c: usize,
    tree: &[u16],
    matrix: &[u16],
    lows: &[u16],
    highs: &[u16],
    lengths: &[u32],
) -> Result<u32, Refusal>
    ensures { HasLengths n c tree.now matrix.now
        (record { lows = lows.now; highs = highs.now; lengths = lengths.now }) result }
{
    let rooted = admit_table(n, c, tree, matrix, lows.len(), highs.len(), lengths.len())?;
    let root = usize::from(rooted.root);
    let top = usize::from(rooted.top);
    tallies::sum_or(n, c, root, top, matrix, lows, highs, lengths)
}
