// The functions that programs in other languages call. `include/badrumello.h` declares them for C: a slice is a pointer and its length there. Each
// answers one number: below 2^32 it is the answer, and otherwise 2^32 times the number of the refusal and its place.
#![tactic(auto)]

ghost use Rattle.std.specs.Prelude.{◌≡◌, ◌≢◌, [], ◌∷◌, ◌++◌};
ghost use Rattle.refusals.specs.Checks.{Refuses};
ghost use Rattle.characters.specs.Afresh.{six};
ghost use Rattle.outcomes.specs.Outcomes.{seven_slice, last_wrong, size_checks, lent, TreeOutcome, CharacterOutcome};
ghost use Rattle.outcomes.specs.Kept.{BuildOutcome, CorrectOutcome, LengthOutcome, KeptOutcome};
ghost use Rattle.outcomes.specs.Sheets.{SheetOutcome, ReportOutcome};

use answers::{code, give, resolve_of};
use kept_answers::{give_built, give_count, give_length};
use refusals::{Reason, Refusal};
use sheet_answers::{give_report, give_sheet, refuse_sheet};

// ---- a result slice of the wrong length: it is the last of the slices

fn refuse_last(earlier: Option<u32>, last: u32) -> Refusal
    ensures { result ≡ last_wrong earlier last }
{
    Refusal {
        reason: Reason::Length,
        place: earlier.unwrap_or(last),
    }
}

fn refuse_tree(n: usize, c: usize, tree: usize, matrix: usize, res: usize) -> Refusal
    requires { res ≢ 7 }
    ensures { Refuses (size_checks n c (lent n c tree matrix (seven_slice res ∷ []))) result }
{
    if limits::outside(n, c) {
        return Refusal {
            reason: Reason::Limits,
            place: 0,
        };
    }
    let from2 = limits::lend(2, matrix, n * c, None);
    let from1 = limits::lend(1, tree, 2 * n - 2, from2);
    refuse_last(from1, 3)
}

fn refuse_character(
    n: usize,
    c: usize,
    tree: usize,
    matrix: usize,
    third: usize,
    fourth: usize,
    fifth: usize,
    sixth: usize,
    seventh: usize,
    eighth: usize,
    res: usize,
) -> Refusal
    requires { res ≢ 7 }
    ensures { Refuses (size_checks n c (lent n c tree matrix
        (six n third fourth fifth sixth seventh eighth ++ (seven_slice res ∷ [])))) result }
{
    if limits::outside(n, c) {
        return Refusal {
            reason: Reason::Limits,
            place: 0,
        };
    }
    let from3 = characters::lend_results(n, third, fourth, fifth, sixth, seventh, eighth);
    let from2 = limits::lend(2, matrix, n * c, from3);
    let from1 = limits::lend(1, tree, 2 * n - 2, from2);
    refuse_last(from1, 9)
}

// ---- afresh

// All characters afresh: `characters::all_characters`.
#[unsafe(no_mangle)]
pub extern "C" fn badrumello_tree(
    n: usize,
    c: usize,
    tree: &[u16],
    matrix: &[u16],
    res: &mut [u32],
) -> u64
    ensures { TreeOutcome n c tree.now matrix.now res.old res.new result }
{
    if res.len() != 7 {
        let refusal = refuse_tree(n, c, tree.len(), matrix.len(), res.len());
        return code(refusal);
    }
    let answer = characters::all_characters(n, c, tree, matrix);
    give(answer, res)
}

// One character afresh: `characters::one_character`.
#[unsafe(no_mangle)]
pub extern "C" fn badrumello_character(
    n: usize,
    c: usize,
    character: usize,
    resolve: u8,
    tree: &[u16],
    matrix: &[u16],
    first_low: &mut [u16],
    first_high: &mut [u16],
    subtree: &mut [u32],
    final_low: &mut [u16],
    final_high: &mut [u16],
    states: &mut [u16],
    res: &mut [u32],
) -> u64
    ensures { CharacterOutcome n c character resolve tree.now matrix.now
        (record {
          first_lows = first_low.old;
          first_highs = first_high.old;
          subtree = subtree.old;
          final_lows = final_low.old;
          final_highs = final_high.old;
          states = states.old;
        })
        (record {
          first_lows = first_low.new;
          first_highs = first_high.new;
          subtree = subtree.new;
          final_lows = final_low.new;
          final_highs = final_high.new;
          states = states.new;
        }) res.old res.new result }
{
    if res.len() != 7 {
        let refusal = refuse_character(
            n,
            c,
            tree.len(),
            matrix.len(),
            first_low.len(),
            first_high.len(),
            subtree.len(),
            final_low.len(),
            final_high.len(),
            states.len(),
            res.len(),
        );
        return code(refusal);
    }
    let choice = resolve_of(resolve);
    let answer = characters::one_character(
        n, c, character, choice, tree, matrix, first_low, first_high, subtree, final_low,
        final_high, states,
    );
    give(answer, res)
}

// ---- the kept table

// Builds the table: `kept::build`.
#[unsafe(no_mangle)]
pub extern "C" fn badrumello_build(
    n: usize,
    c: usize,
    tree: &[u16],
    matrix: &[u16],
    low: &mut [u16],
    high: &mut [u16],
    lengths: &mut [u32],
) -> u64
    ensures { BuildOutcome n c tree.now matrix.now
        (record { lows = low.old; highs = high.old; lengths = lengths.old })
        (record { lows = low.new; highs = high.new; lengths = lengths.new }) result }
{
    let built = kept::build(n, c, tree, matrix, low, high, lengths);
    give_built(built)
}

// Corrects one cell: `kept::correct`.
#[unsafe(no_mangle)]
pub extern "C" fn badrumello_correct(
    n: usize,
    c: usize,
    taxon: usize,
    character: usize,
    state: u16,
    tree: &[u16],
    matrix: &mut [u16],
    low: &mut [u16],
    high: &mut [u16],
    lengths: &mut [u32],
) -> u64
    ensures { CorrectOutcome n c taxon character state tree.now matrix.old
        (record { lows = low.old; highs = high.old; lengths = lengths.old })
        matrix.new
        (record { lows = low.new; highs = high.new; lengths = lengths.new }) result }
{
    let count = kept::correct(
        n, c, taxon, character, state, tree, matrix, low, high, lengths,
    );
    give_count(count)
}

// The tree's length: `kept::kept_length`.
#[unsafe(no_mangle)]
pub extern "C" fn badrumello_kept_length(
    n: usize,
    c: usize,
    tree: &[u16],
    matrix: &[u16],
    low: &[u16],
    high: &[u16],
    lengths: &[u32],
) -> u64
    ensures { LengthOutcome n c tree.now matrix.now
        (record { lows = low.now; highs = high.now; lengths = lengths.now }) result }
{
    let length = kept::kept_length(n, c, tree, matrix, low, high, lengths);
    give_length(length)
}

// One character's length and final ranges: `kept_characters::kept_character`.
#[unsafe(no_mangle)]
pub extern "C" fn badrumello_kept_character(
    n: usize,
    c: usize,
    character: usize,
    tree: &[u16],
    matrix: &[u16],
    low: &[u16],
    high: &[u16],
    lengths: &[u32],
    final_low: &mut [u16],
    final_high: &mut [u16],
) -> u64
    ensures { KeptOutcome n c character tree.now matrix.now
        (record { lows = low.now; highs = high.now; lengths = lengths.now })
        final_low.old final_high.old final_low.new final_high.new result }
{
    let length = kept_characters::kept_character(
        n, c, character, tree, matrix, low, high, lengths, final_low, final_high,
    );
    give_length(length)
}

// ---- sheets and reports

// Reads a sheet: `sheets::read_sheet`.
#[unsafe(no_mangle)]
pub extern "C" fn badrumello_read_sheet(
    text: &[u8],
    tree: &mut [u16],
    matrix: &mut [u16],
    res: &mut [u32],
) -> u64
    ensures { SheetOutcome text.now tree.old matrix.old res.old
        tree.new matrix.new res.new result }
{
    if res.len() != 3 {
        let refusal = refuse_sheet(tree.len(), matrix.len(), res.len());
        return code(refusal);
    }
    let answer = sheets::read_sheet(text, tree, matrix);
    give_sheet(answer, res)
}

// The report of a sheet: `reports::report`.
#[unsafe(no_mangle)]
pub extern "C" fn badrumello_report(text: &[u8], out: &mut [u8]) -> u64
    ensures { ReportOutcome text.now out.old out.new result }
{
    let answer = reports::report(text, out);
    give_report(answer)
}
