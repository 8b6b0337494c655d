// Builds the kept table of a matrix: the first pass of every character, each into its own stretch.
#![tactic(auto)]

ghost use Rattle.tables.specs.Tables.{TableLong, TableMeans, TakenAll};
ghost use Rattle.totals.specs.Totals.{Given};
ghost use Rattle.entry_lists.specs.EntryLists as lists;
ghost use Rattle.std.specs.Prelude.{ℕ};

use rows::Block;

// Takes one of the w characters of a block into its stretch of the table.
fn take_character(
    n: usize,
    w: usize,
    i: usize,
    block: &Block,
    lows: &mut [u16],
    highs: &mut [u16],
    lengths: &mut [u32],
)
    requires { lists.Takes n w i lows.old × lists.Takes n w i highs.old × lists.Takes n w i lengths.old }
    ensures { TakenAll n w i block.now.lows block.now.highs block.now.lengths
        lows.new highs.new lengths.new }
{
    entry_lists::take(n, w, i, &block.lows, lows);
    entry_lists::take(n, w, i, &block.highs, highs);
    entry_lists::take(n, w, i, &block.lengths, lengths);
}

// Fills the kept table of an accepted tree and a matrix, one block of characters after the other: each entry gets its meaning. Each character's
// stretch is lent on from the middle of the whole.
pub fn fill_table(
    n: usize,
    c: usize,
    root: usize,
    top: usize,
    tree: &[u16],
    matrix: &[u16],
    lows: &mut [u16],
    highs: &mut [u16],
    lengths: &mut [u32],
)
    requires { Given n c root top tree.now matrix.now × TableLong n c lows.old highs.old lengths.old }
    ensures { TableMeans n c tree.now matrix.now lows.new highs.new lengths.new }
{
    let shape = shapes::descendants(n, tree);
    let mut block = Block::new();
    for done in (0..c).step_by(8) {
        let w = passes::width(c - done);
        passes::first_pass(n, c, done, w, top, &shape, matrix, &mut block);
        for i in 0..w {
            let from = (done + i) * (n - 2);
            let to = from + (n - 2);
            take_character(
                n,
                w,
                i + 1,
                &block,
                &mut lows[from..to],
                &mut highs[from..to],
                &mut lengths[from..to],
            );
        }
    }
}
