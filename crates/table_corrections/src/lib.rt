// One corrected cell in a kept table: the stretch of its character is lent on from the middle of the whole.
#![tactic(auto)]

ghost use Rattle.table_corrections.specs.TableCorrections.{CorrectsIn, CorrectableIn};

use refusals::Refusal;

// Corrects a cell in a kept table: 9 and 10, or how many entries were written, all in the stretch of the cell's character.
pub fn correct_in(
    n: usize,
    c: usize,
    taxon: usize,
    character: usize,
    state: u16,
    tree: &[u16],
    matrix: &mut [u16],
    lows: &mut [u16],
    highs: &mut [u16],
    lengths: &mut [u32],
) -> Result<u32, Refusal>
    requires { CorrectableIn n c taxon character tree.now matrix.old lows.old highs.old lengths.old }
    ensures { CorrectsIn n c taxon character state tree.now matrix.old
        lows.old highs.old lengths.old matrix.new lows.new highs.new lengths.new result }
{
    let start = (character - 1) * (n - 2);
    let end = start + (n - 2);
    corrections::correct_character(
        n,
        c,
        taxon,
        character,
        state,
        tree,
        matrix,
        &mut lows[start..end],
        &mut highs[start..end],
        &mut lengths[start..end],
    )
}
