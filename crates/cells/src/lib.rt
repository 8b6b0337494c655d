// The cells of a matrix: the state of one, and the search for a state above 9999, in the whole matrix and in the cells of one character.
#![tactic(auto)]

ghost use Rattle.std.specs.Prelude.{ℕ, ◌*◌, ◌≤◌, ◌<◌, ◌≡◌, length};
ghost use Rattle.refusals.specs.Search.{Finds};
ghost use Rattle.parsimony.specs.Matrix.{state_of};
ghost use Rattle.cells.specs.Above.{InMatrix, AboveAt, AboveIn};

// The state of a taxon in a character.
pub fn state_of(c: usize, character: usize, taxon: usize, matrix: &[u16]) -> u16
    requires { InMatrix c character taxon matrix.now }
    ensures { result ≡ state_of matrix.now c character taxon }
{
    let row = (taxon - 1) * c;
    matrix[row + (character - 1)]
}

// The lowest cell whose state is above 9999.
pub fn state_above(n: usize, c: usize, matrix: &[u16]) -> Option<usize>
    requires { length matrix.now ≡ n * c }
    ensures { Finds (AboveAt matrix.now) (n * c) result }
{
    // two nested loops, left by a label: document 01 names this form
    let mut found = None;
    'search: for t in 0..n {
        for j in 0..c {
            let cell = t * c + j;
            if 9999 < matrix[cell] {
                found = Some(cell + 1);
                break 'search;
            }
        }
    }
    found
}

// The lowest taxon whose state in the character is above 9999.
pub fn taxon_above(n: usize, c: usize, character: usize, matrix: &[u16]) -> Option<usize>
    requires { (length matrix.now ≡ n * c) × (1 ≤ character) × (character ≤ c) }
    ensures { Finds (AboveIn matrix.now c character) n result }
{
    for t in 0..n {
        if 9999 < matrix[t * c + (character - 1)] {
            return Some(t + 1);
        }
    }
    None
}
