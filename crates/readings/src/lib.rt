// One kept character: its final ranges and its length, from its entries as they stand.
#![tactic(auto)]

ghost use Rattle.readings.specs.Readings.{Readable, Clean, IsRead, ReadsOr};

use refusals::{Reason, Refusal};
use trees::Rooted;

// The final ranges go into two slices; the answer is the length.
fn read_entries(
    n: usize,
    c: usize,
    character: usize,
    rooted: Rooted,
    tree: &[u16],
    matrix: &[u16],
    lows: &[u16],
    highs: &[u16],
    lengths: &[u32],
    final_lows: &mut [u16],
    final_highs: &mut [u16],
) -> u32
    requires { Clean n c character rooted.root rooted.top tree.now matrix.now lows.now highs.now lengths.now final_lows.old final_highs.old }
    ensures { IsRead n c character rooted.root rooted.top tree.now matrix.now lows.now highs.now lengths.now
        final_lows.new final_highs.new result }
{
    let shape = shapes::descendants(n, tree);
    let order = orders::order(n, rooted.top, &shape);
    let root = usize::from(rooted.root);
    let top = usize::from(rooted.top);
    descents::final_ranges(
        n,
        c,
        character,
        root,
        top,
        tree,
        matrix,
        &shape,
        &order,
        lows,
        highs,
        final_lows,
        final_highs,
    );
    tallies::length_here(n, c, character, root, top, matrix, lows, highs, lengths)
}

// 10 in the character's entries, and else its length and final ranges.
pub fn read_or(
    n: usize,
    c: usize,
    character: usize,
    rooted: Rooted,
    tree: &[u16],
    matrix: &[u16],
    lows: &[u16],
    highs: &[u16],
    lengths: &[u32],
    final_lows: &mut [u16],
    final_highs: &mut [u16],
) -> Result<u32, Refusal>
    requires { Readable n c character rooted.root rooted.top tree.now matrix.now lows.now highs.now lengths.now final_lows.old final_highs.old }
    ensures { ReadsOr n c character rooted.root rooted.top tree.now matrix.now lows.now highs.now lengths.now
        final_lows.old final_highs.old final_lows.new final_highs.new result }
{
    match entries::bad_node(n, lows, highs, lengths) {
        Some(node) => Err(Refusal {
            reason: Reason::Kept,
            place: node as u32,
        }),
        None => Ok(read_entries(
            n,
            c,
            character,
            rooted,
            tree,
            matrix,
            lows,
            highs,
            lengths,
            final_lows,
            final_highs,
        )),
    }
}
