// The indices of a character or a tree: m and g from the states of one character, CI and RI from m, s and g.
#![tactic(auto)]

ghost use Rattle.std.specs.Prelude.{◌≡◌, ◌≤◌};
ghost use Rattle.parsimony.specs.Matrix.{state_of};
ghost use Rattle.parsimony.specs.Index as index;
ghost use Rattle.indices.specs.Indices.{index_of, Readable};

use cells::state_of;

// A fraction, not reduced. An index is one, or none.
#[derive(Clone, Copy, Debug, PartialEq, Eq)]
pub struct Fraction {
    pub over: u32,
    pub under: u32,
}

// m: the highest minus the lowest state of a character, over all taxa.
pub fn m(n: usize, c: usize, character: usize, matrix: &[u16]) -> u16
    requires { Readable n c character matrix.now }
    ensures { result ≡ index.m n (state_of matrix.now c character) }
{
    let mut lowest = state_of(c, character, 1, matrix);
    let mut highest = lowest;
    for t in 0..n {
        let state = state_of(c, character, t + 1, matrix);
        lowest = lowest.min(state);
        highest = highest.max(state);
    }
    highest - lowest
}

// g: the sum over all taxa of the distance from the root taxon's state. It fits: 256 distances of at most 65535 are less than 2^32.
pub fn g(n: usize, c: usize, character: usize, root: usize, matrix: &[u16]) -> u32
    requires { Readable n c character matrix.now × (1 ≤ root) × (root ≤ n) }
    ensures { result ≡ index.g n (state_of matrix.now c character) root }
{
    let hub = state_of(c, character, root, matrix);
    let mut sum = 0;
    for t in 0..n {
        sum += u32::from(state_of(c, character, t + 1, matrix).abs_diff(hub));
    }
    sum
}

// CI: m / s; none if s is 0.
pub fn ci(m: u32, s: u32) -> Option<Fraction>
    ensures { index_of result ≡ index.ci m s }
{
    if s == 0 {
        None
    } else {
        Some(Fraction { over: m, under: s })
    }
}

// RI: (g - s) / (g - m); none if g is m, or g is below s. No m is above its g (`m-most`), nor a sum of m's above that of the g's.
pub fn ri(m: u32, s: u32, g: u32) -> Option<Fraction>
    requires { m ≤ g }
    ensures { index_of result ≡ index.ri m s g }
{
    if g == m || g < s {
        None
    } else {
        Some(Fraction {
            over: g - s,
            under: g - m,
        })
    }
}
