// One character afresh, and all characters afresh.
#![tactic(auto)]

ghost use Rattle.std.specs.Prelude.{◌≤◌};
ghost use Rattle.characters.specs.Afresh.{six, OneAnswers, AllAnswers};
ghost use Rattle.limits.specs.Limits.{Told};

use choices::Resolve;
use refusals::{Reason, Refusal};
use scores::Scores;

// ---- one character

// The six slices of results: which is the first that has not an entry for each interior node.
// The six lengths stay parameters: the C functions of `editions` have them one by one, and a list of them would have to be built at each call.
pub fn lend_results(
    n: usize,
    third: usize,
    fourth: usize,
    fifth: usize,
    sixth: usize,
    seventh: usize,
    eighth: usize,
) -> Option<u32>
    requires { 3 ≤ n }
    ensures { Told 3 (six n third fourth fifth sixth seventh eighth) result }
{
    let from8 = limits::lend(8, eighth, n - 2, None);
    let from7 = limits::lend(7, seventh, n - 2, from8);
    let from6 = limits::lend(6, sixth, n - 2, from7);
    let from5 = limits::lend(5, fifth, n - 2, from6);
    let from4 = limits::lend(4, fourth, n - 2, from5);
    limits::lend(3, third, n - 2, from4)
}

// One character afresh. The first-pass ranges and subtree lengths, the final ranges and the chosen states go into slices of n - 2 entries.
// Refusals, in this order: 1, 2, 3 to 6, 8, and 7 in the character's cells. A refusal changes nothing.
// The six slices stay parameters: `OneAnswers` speaks of each, and the C function lends them one by one.
pub fn one_character(
    n: usize,
    c: usize,
    character: usize,
    resolve: Resolve,
    tree: &[u16],
    matrix: &[u16],
    first_lows: &mut [u16],
    first_highs: &mut [u16],
    subtree: &mut [u32],
    final_lows: &mut [u16],
    final_highs: &mut [u16],
    states: &mut [u16],
) -> Result<Scores, Refusal>
    ensures { OneAnswers n c character resolve tree.now matrix.now
        (record {
          first_lows = first_lows.old;
          first_highs = first_highs.old;
          subtree = subtree.old;
          final_lows = final_lows.old;
          final_highs = final_highs.old;
          states = states.old;
        })
        (record {
          first_lows = first_lows.new;
          first_highs = first_highs.new;
          subtree = subtree.new;
          final_lows = final_lows.new;
          final_highs = final_highs.new;
          states = states.new;
        }) result }
{
    if limits::outside(n, c) {
        return Err(Refusal {
            reason: Reason::Limits,
            place: 0,
        });
    }
    let results = lend_results(
        n,
        first_lows.len(),
        first_highs.len(),
        subtree.len(),
        final_lows.len(),
        final_highs.len(),
        states.len(),
    );
    let from2 = limits::lend(2, matrix.len(), n * c, results);
    let from1 = limits::lend(1, tree.len(), 2 * n - 2, from2);
    let rooted = checks::admit_character(n, c, character, tree, matrix, from1)?;
    Ok(character_scores::score_one(
        n,
        c,
        character,
        rooted.root,
        rooted.top,
        resolve,
        tree,
        matrix,
        first_lows,
        first_highs,
        subtree,
        final_lows,
        final_highs,
        states,
    ))
}

// ---- all characters

// All characters afresh: the length of the tree and its indices. Refusals, in this order: 1, 2, 3 to 6, and 7 in all cells.
pub fn all_characters(n: usize, c: usize, tree: &[u16], matrix: &[u16]) -> Result<Scores, Refusal>
    ensures { AllAnswers n c tree.now matrix.now result }
{
    if limits::outside(n, c) {
        return Err(Refusal {
            reason: Reason::Limits,
            place: 0,
        });
    }
    let from2 = limits::lend(2, matrix.len(), n * c, None);
    let from1 = limits::lend(1, tree.len(), 2 * n - 2, from2);
    let rooted = checks::admit_matrix(n, c, tree, matrix, from1)?;
    Ok(scores::score_all(n, c, rooted.root, rooted.top, tree, matrix))
}
