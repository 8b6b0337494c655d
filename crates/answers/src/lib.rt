// An answer in C's way: one number, below 2^32 the answer and otherwise 2^32 times the number of the refusal and its place; and seven numbers in a
// slice.
#![tactic(auto)]

ghost use Rattle.std.specs.Prelude.{◌≡◌, length, ◌<◌};
ghost use Rattle.answers.specs.Coded as coded;
ghost use Rattle.answers.specs.Coded.{limit, Gives};

use choices::Resolve;
use indices::Fraction;
use refusals::Refusal;
use scores::Scores;

// A refusal as one number.
pub fn code(refusal: Refusal) -> u64
    ensures { (result ≡ coded.code refusal) × (refusal.place < limit) }
{
    u64::from(u32::from(refusal.reason)) * 4294967296 + u64::from(refusal.place)
}

// An index in two numbers: both are 0 if there is none.
fn ends(index: Option<Fraction>) -> Fraction
    ensures { (result.over ≡ coded.over index) × (result.under ≡ coded.under index) }
{
    index.unwrap_or(Fraction { over: 0, under: 0 })
}

// The scores into a slice of seven entries.
fn put_scores(scores: Scores, res: &mut [u32])
    requires { length res.old ≡ 7 }
    ensures { res.new ≡ coded.seven scores }
{
    let ci = ends(scores.ci);
    let ri = ends(scores.ri);
    res.copy_from_slice(&[
        scores.length,
        scores.m,
        scores.g,
        ci.over,
        ci.under,
        ri.over,
        ri.under,
    ]);
}

// An answer as one number, with its scores in the slice.
pub fn give(answer: Result<Scores, Refusal>, res: &mut [u32]) -> u64
    requires { length res.old ≡ 7 }
    ensures { Gives answer res.old res.new result }
{
    match answer {
        Ok(scores) => {
            put_scores(scores, res);
            u64::from(scores.length)
        }
        Err(refusal) => code(refusal),
    }
}

// The choice: 0 is ACCTRAN, any other number DELTRAN.
// No `From`: the type is of the crate `choices`, and this number is C's alone.
pub fn resolve_of(number: u8) -> Resolve
    ensures { result ≡ coded.resolve_of number }
{
    if number == 0 {
        Resolve::Acctran
    } else {
        Resolve::Deltran
    }
}
