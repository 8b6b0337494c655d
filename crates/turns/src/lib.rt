// The lines for the characters of a report: each is scored, and its lines are written, one after another.
#![tactic(auto)]

ghost use Rattle.std.specs.Prelude.{◌+◌, ◌-◌, ◌*◌, ◌≤◌, length};
ghost use Rattle.scores.specs.Scores.{Results};
ghost use Rattle.layouts.specs.Rooms.{character_room};
ghost use Rattle.turns.specs.Lines.{Ready, One, Some};

use choices::Resolve;

// Scores one character, and writes its lines. It is not refused: all characters were scored before.
fn put_one(
    n: u16,
    c: u16,
    character: u16,
    resolve: Resolve,
    tree: &[u16],
    matrix: &[u16],
    out: &mut [u8],
    at: usize,
) -> usize
    requires { Ready n c tree.now matrix.now × (1 ≤ character) × (character ≤ c)
        × (at + character_room (n - 2) ≤ length out.old) }
    ensures { (results : Results) × One n c character resolve tree.now matrix.now results out.old out.new at result }
{
    let w = usize::from(n) - 2;
    let mut first_lows = [0u16; 254];
    let mut first_highs = [0u16; 254];
    let mut subtree = [0u32; 254];
    let mut final_lows = [0u16; 254];
    let mut final_highs = [0u16; 254];
    let mut states = [0u16; 254];
    let first_lows = &mut first_lows[..w];
    let first_highs = &mut first_highs[..w];
    let subtree = &mut subtree[..w];
    let final_lows = &mut final_lows[..w];
    let final_highs = &mut final_highs[..w];
    let states = &mut states[..w];
    let got = characters::one_character(
        usize::from(n),
        usize::from(c),
        usize::from(character),
        resolve,
        tree,
        matrix,
        first_lows,
        first_highs,
        subtree,
        final_lows,
        final_highs,
        states,
    );
    let scores = got.unwrap();
    layouts::put_character(
        out,
        at,
        character,
        scores,
        first_lows,
        first_highs,
        final_lows,
        final_highs,
        states,
    )
}

// The lines for all characters.
pub fn put_characters(
    n: u16,
    c: u16,
    resolve: Resolve,
    tree: &[u16],
    matrix: &[u16],
    out: &mut [u8],
    at: usize,
) -> usize
    requires { Ready n c tree.now matrix.now × (at + c * character_room (n - 2) ≤ length out.old) }
    ensures { Some n c c resolve tree.now matrix.now out.old out.new at result }
{
    let mut next = at;
    for j in 0..c {
        next = put_one(n, c, j + 1, resolve, tree, matrix, out, next);
    }
    next
}
