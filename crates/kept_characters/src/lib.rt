// The kept table is asked for one character.
#![tactic(auto)]

ghost use Rattle.std.specs.Prelude.{ℕ};
ghost use Rattle.histories.specs.Kept.{AnswersKept};

use refusals::{Reason, Refusal};

// One character's length and final ranges, from the kept table. Refusals, in this order: 1, 2, 3 to 6, 8, 7 in the character's cells, and 10 in its entries.
// A refusal changes nothing.
pub fn kept_character(
    n: usize,
    c: usize,
    character: usize,
    tree: &[u16],
    matrix: &[u16],
    lows: &[u16],
    highs: &[u16],
    lengths: &[u32],
    final_lows: &mut [u16],
    final_highs: &mut [u16],
) -> Result<u32, Refusal>
    ensures { AnswersKept n c character tree.now matrix.now
        (record { lows = lows.now; highs = highs.now; lengths = lengths.now })
        final_lows.old final_highs.old final_lows.new final_highs.new result }
{
    if limits::outside(n, c) {
        return Err(Refusal {
            reason: Reason::Limits,
            place: 0,
        });
    }
    let from7 = limits::lend(7, final_highs.len(), n - 2, None);
    let from6 = limits::lend(6, final_lows.len(), n - 2, from7);
    let from3 = kept::lend_table(n, c, lows.len(), highs.len(), lengths.len(), from6);
    let from2 = limits::lend(2, matrix.len(), n * c, from3);
    let from1 = limits::lend(1, tree.len(), 2 * n - 2, from2);
    let rooted = checks::admit_character(n, c, character, tree, matrix, from1)?;
    let start = (character - 1) * (n - 2);
    let end = start + (n - 2);
    readings::read_or(
        n,
        c,
        character,
        rooted,
        tree,
        matrix,
        &lows[start..end],
        &highs[start..end],
        &lengths[start..end],
        final_lows,
        final_highs,
    )
}
