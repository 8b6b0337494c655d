// Lengths from kept entries: that of one character, and the sum over all.
#![tactic(auto)]

ghost use Rattle.tallies.specs.Tallies.{HasTop, IsLength, AllSound, IsTotal, Totals, SumsOr};

use refusals::{Reason, Refusal};

// The length of one character: what is below the root's descendant, and the distance from there to the root's state.
pub fn length_here(
    n: usize,
    c: usize,
    character: usize,
    root: usize,
    top: usize,
    matrix: &[u16],
    lows: &[u16],
    highs: &[u16],
    lengths: &[u32],
) -> u32
    requires { HasTop n c character root top matrix.now lows.now highs.now lengths.now }
    ensures { IsLength n c character root top matrix.now lows.now highs.now lengths.now result }
{
    let here = nodes::range_at(n, c, character, root, matrix, lows, highs);
    let below = nodes::range_at(n, c, character, top, matrix, lows, highs);
    lengths[top - n - 1] + u32::from(ranges::cost(here, below))
}

// The sum of the lengths of all characters, each from its stretch of the kept table.
fn sum_lengths(
    n: usize,
    c: usize,
    root: usize,
    top: usize,
    matrix: &[u16],
    lows: &[u16],
    highs: &[u16],
    lengths: &[u32],
) -> u32
    requires { AllSound n c root top matrix.now lows.now highs.now lengths.now }
    ensures { IsTotal n c root top matrix.now lows.now highs.now lengths.now result }
{
    let mut total: u32 = 0;
    for j in 0..c {
        let start = j * (n - 2);
        let end = start + (n - 2);
        total += length_here(
            n,
            c,
            j + 1,
            root,
            top,
            matrix,
            &lows[start..end],
            &highs[start..end],
            &lengths[start..end],
        );
    }
    total
}

// 10 in all entries, and else the sum.
pub fn sum_or(
    n: usize,
    c: usize,
    root: usize,
    top: usize,
    matrix: &[u16],
    lows: &[u16],
    highs: &[u16],
    lengths: &[u32],
) -> Result<u32, Refusal>
    requires { Totals n c root top matrix.now lows.now highs.now lengths.now }
    ensures { SumsOr n c root top matrix.now lows.now highs.now lengths.now result }
{
    match entries::bad_entry(n, c, lows, highs, lengths) {
        Some(node) => Err(Refusal {
            reason: Reason::Kept,
            place: node as u32,
        }),
        None => Ok(sum_lengths(n, c, root, top, matrix, lows, highs, lengths)),
    }
}
