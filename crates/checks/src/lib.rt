// The checks that several calls share, once the sizes are in their limits, in the order of document 01: what is told of the slices (2), the tree
// (3 to 6), the character (8) and its cells, or all cells (7).
#![tactic(auto)]

ghost use Rattle.std.specs.Prelude.{◌≡◌, ℕ, ◌*◌, ◌≤◌, ◌<◌, length};
ghost use Rattle.limits.specs.Limits.{InLimits};
ghost use Rattle.checks.specs.Calls.{Admissible, AdmitsCharacter, AdmitsMatrix, AdmitsCells, AdmitsAll};

use refusals::{Reason, Refusal};
use trees::Rooted;

fn refuse(reason: Reason, place: u32) -> Refusal
    ensures { result ≡ record { reason = reason; place = place } }
{
    Refusal { reason, place }
}

// 8, and 7 in the character's cells.
fn admit_cells(n: usize, c: usize, character: usize, matrix: &[u16]) -> Result<(), Refusal>
    requires { InLimits n c × (length matrix.now ≡ n * c) }
    ensures { AdmitsCells n c character matrix.now result }
{
    if character < 1 || c < character {
        return Err(refuse(Reason::Character, 0));
    }
    match cells::taxon_above(n, c, character, matrix) {
        Some(taxon) => Err(refuse(Reason::State, ((taxon - 1) * c + character) as u32)),
        None => Ok(()),
    }
}

// A call about one character, once the sizes are in their limits and the slices are looked at: 2, 3 to 6, 8, and 7 in the character's cells.
pub fn admit_character(
    n: usize,
    c: usize,
    character: usize,
    tree: &[u16],
    matrix: &[u16],
    lent: Option<u32>,
) -> Result<Rooted, Refusal>
    requires { Admissible n c tree.now matrix.now lent }
    ensures { AdmitsCharacter n c character tree.now matrix.now lent result }
{
    if let Some(place) = lent {
        return Err(refuse(Reason::Length, place));
    }
    let rooted = trees::check_tree(n, tree)?;
    admit_cells(n, c, character, matrix)?;
    Ok(rooted)
}

// 7 in all cells.
fn admit_all(n: usize, c: usize, matrix: &[u16]) -> Result<(), Refusal>
    requires { InLimits n c × (length matrix.now ≡ n * c) }
    ensures { AdmitsAll n c matrix.now result }
{
    match cells::state_above(n, c, matrix) {
        Some(cell) => Err(refuse(Reason::State, cell as u32)),
        None => Ok(()),
    }
}

// A call about all characters: 2, 3 to 6, and 7 in all cells.
pub fn admit_matrix(
    n: usize,
    c: usize,
    tree: &[u16],
    matrix: &[u16],
    lent: Option<u32>,
) -> Result<Rooted, Refusal>
    requires { Admissible n c tree.now matrix.now lent }
    ensures { AdmitsMatrix n c tree.now matrix.now lent result }
{
    if let Some(place) = lent {
        return Err(refuse(Reason::Length, place));
    }
    let rooted = trees::check_tree(n, tree)?;
    admit_all(n, c, matrix)?;
    Ok(rooted)
}
