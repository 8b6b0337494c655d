// Sums of m and of g over all characters.
#![tactic(auto)]

ghost use Rattle.std.specs.Prelude.{◌≡◌, ◌≤◌};
ghost use Rattle.parsimony.specs.Lists.{sum, from};
ghost use Rattle.parsimony.specs.Matrix.{state_of};
ghost use Rattle.parsimony.specs.Index as index;
ghost use Rattle.extents.specs.Extents.{Cells};

// The sum of the characters' m: at most 9999 each.
pub fn total_m(n: usize, c: usize, matrix: &[u16]) -> u32
    requires { Cells n c matrix.now }
    ensures { result ≡ sum (λ j. index.m n (state_of matrix.now c j)) (from 1 c) }
{
    let mut total = 0;
    for j in 0..c {
        total += u32::from(indices::m(n, c, j + 1, matrix));
    }
    total
}

// The sum of the characters' g: at most 9999 for each taxon.
pub fn total_g(n: usize, c: usize, root: usize, matrix: &[u16]) -> u32
    requires { Cells n c matrix.now × (1 ≤ root) × (root ≤ n) }
    ensures { result ≡ sum (λ j. index.g n (state_of matrix.now c j) root) (from 1 c) }
{
    let mut total = 0;
    for j in 0..c {
        total += indices::g(n, c, j + 1, root, matrix);
    }
    total
}
