// One corrected cell, in the entries of its character alone: refusals 9 and 10, and then the cell and the entries on the path.
#![tactic(auto)]

ghost use Rattle.repairs.specs.Repairs.{Correctable};
ghost use Rattle.corrections.specs.Corrections.{Admits, Corrects};

use paths::Path;
use refusals::{Reason, Refusal};

// The path of a cell that may be corrected: 9, and 10 beside the path.
fn admit(
    n: usize,
    c: usize,
    taxon: usize,
    character: usize,
    state: u16,
    tree: &[u16],
    matrix: &[u16],
    lows: &[u16],
    highs: &[u16],
    lengths: &[u32],
) -> Result<Path, Refusal>
    requires { Correctable n c taxon character tree.now matrix.now lows.now highs.now lengths.now }
    ensures { Admits n c taxon character state tree.now matrix.now lows.now highs.now lengths.now result }
{
    if 9999 < state {
        return Err(Refusal {
            reason: Reason::Correction,
            place: 0,
        });
    }
    let path = paths::path_of(n, tree, taxon);
    match repairs::look_beside(n, taxon, tree, &path, lows, highs, lengths) {
        Some(node) => Err(Refusal {
            reason: Reason::Kept,
            place: node as u32,
        }),
        None => Ok(path),
    }
}

// Corrects a cell: 9, and 10 beside the path; then the cell and the entries of the interior nodes between the taxon and the root are written. The
// answer is how many these are.
pub fn correct_character(
    n: usize,
    c: usize,
    taxon: usize,
    character: usize,
    state: u16,
    tree: &[u16],
    matrix: &mut [u16],
    lows: &mut [u16],
    highs: &mut [u16],
    lengths: &mut [u32],
) -> Result<u32, Refusal>
    requires { Correctable n c taxon character tree.now matrix.old lows.old highs.old lengths.old }
    ensures { Corrects n c taxon character state tree.now matrix.old
        lows.old highs.old lengths.old matrix.new lows.new highs.new lengths.new result }
{
    let path = admit(
        n, c, taxon, character, state, tree, matrix, lows, highs, lengths,
    )?;
    repairs::write_path(
        n, c, taxon, character, state, tree, &path, matrix, lows, highs, lengths,
    );
    Ok(path.count as u32)
}
