// What a character or a tree scores; and what all characters score, once no check applies.
#![tactic(auto)]

ghost use Rattle.std.specs.Prelude.{◌≤◌};
ghost use Rattle.scores.specs.Scores.{TreeScores};
ghost use Rattle.totals.specs.Totals as totals;
ghost use Rattle.scores.specs.Steps.{HasScores};

use indices::Fraction;

// What a character or a tree scores: its length, m, g, and its indices.
#[derive(Clone, Copy, Debug, PartialEq, Eq)]
pub struct Scores {
    pub length: u32,
    pub m: u32,
    pub g: u32,
    pub ci: Option<Fraction>,
    pub ri: Option<Fraction>,
}

// The scores from the three numbers.
pub fn score(length: u32, m: u32, g: u32) -> Scores
    requires { m ≤ g }
    ensures { HasScores length m g result }
{
    Scores {
        length,
        m,
        g,
        ci: indices::ci(m, length),
        ri: indices::ri(m, length, g),
    }
}

// The sums over all characters, once no check applies.
pub fn score_all(n: usize, c: usize, root: u16, top: u16, tree: &[u16], matrix: &[u16]) -> Scores
    requires { totals.Given n c root top tree.now matrix.now }
    ensures { TreeScores n c matrix.now tree.now root result }
{
    let root = usize::from(root);
    let top = usize::from(top);
    let length = totals::total_length(n, c, root, top, tree, matrix);
    let m = extents::total_m(n, c, matrix);
    let g = extents::total_g(n, c, root, matrix);
    score(length, m, g)
}
