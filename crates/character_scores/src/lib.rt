// What one character scores, once no check applies: the passes over it, one after the other.
#![tactic(auto)]

ghost use Rattle.parsimony.specs.Matrix.{state_of};
ghost use Rattle.scores.specs.Scores.{CharacterMeans};
ghost use Rattle.character_scores.specs.CharacterScores.{GivenOne};

use choices::Resolve;
use scores::Scores;

// The passes over one character, once no check applies.
pub fn score_one(
    n: usize,
    c: usize,
    character: usize,
    root: u16,
    top: u16,
    resolve: Resolve,
    tree: &[u16],
    matrix: &[u16],
    first_lows: &mut [u16],
    first_highs: &mut [u16],
    subtree: &mut [u32],
    final_lows: &mut [u16],
    final_highs: &mut [u16],
    states: &mut [u16],
) -> Scores
    requires { GivenOne n c character root top tree.now matrix.now (record {
      first_lows = first_lows.old;
      first_highs = first_highs.old;
      subtree = subtree.old;
      final_lows = final_lows.old;
      final_highs = final_highs.old;
      states = states.old;
    }) }
    ensures { CharacterMeans n (state_of matrix.now c character) tree.now root resolve
        (record {
          first_lows = first_lows.new;
          first_highs = first_highs.new;
          subtree = subtree.new;
          final_lows = final_lows.new;
          final_highs = final_highs.new;
          states = states.new;
        }) result }
{
    let shape = shapes::descendants(n, tree);
    let order = orders::order(n, top, &shape);
    let root = usize::from(root);
    let top = usize::from(top);
    let length = first_passes::begin(
        n,
        c,
        character,
        root,
        top,
        &shape,
        matrix,
        first_lows,
        first_highs,
        subtree,
    );
    descents::final_ranges(
        n,
        c,
        character,
        root,
        top,
        tree,
        matrix,
        &shape,
        &order,
        first_lows,
        first_highs,
        final_lows,
        final_highs,
    );
    reconstructions::reconstruct(
        n,
        c,
        character,
        root,
        top,
        resolve,
        tree,
        matrix,
        &order,
        first_lows,
        first_highs,
        final_lows,
        final_highs,
        states,
    );
    let m = u32::from(indices::m(n, c, character, matrix));
    let g = indices::g(n, c, character, root, matrix);
    scores::score(length, m, g)
}
