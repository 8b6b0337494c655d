// What a C caller is given of a sheet: one number, and n, c and the choice in a slice of three; and of its report.
#![tactic(auto)]

ghost use Rattle.std.specs.Prelude.{◌≡◌, ◌≢◌, length};
ghost use Rattle.refusals.specs.Checks.{Refuses, slices};
ghost use Rattle.answers.specs.Coded.{Tells};
ghost use Rattle.sheet_answers.specs.Replies.{number_of, three, GivesSheet, of_report, Short, sheet_slices};

use answers::code;
use bodies::Head;
use choices::Resolve;
use refusals::{Reason, Refusal};

// ---- reading a sheet

// The choice: ACCTRAN is 0, DELTRAN 1.
// No `From`: the type is of the crate `choices`, and this number is C's alone.
fn number_of(resolve: Resolve) -> u32
    ensures { result ≡ number_of resolve }
{
    match resolve {
        Resolve::Acctran => 0,
        Resolve::Deltran => 1,
    }
}

// The three numbers into a slice of three entries.
fn put_three(head: Head, res: &mut [u32])
    requires { length res.old ≡ 3 }
    ensures { res.new ≡ three head.n head.c head.resolve }
{
    res.copy_from_slice(&[
        u32::from(head.n),
        u32::from(head.c),
        number_of(head.resolve),
    ]);
}

// 0 if the sheet is read, with its three numbers in the slice.
pub fn give_sheet(answer: Result<Head, Refusal>, res: &mut [u32]) -> u64
    requires { length res.old ≡ 3 }
    ensures { GivesSheet answer res.old res.new result }
{
    match answer {
        Ok(head) => {
            put_three(head, res);
            0
        }
        Err(refusal) => code(refusal),
    }
}

// Refusal 2, where the result slice has not three entries: it is the third of the slices, and the first that is wrong is named.
pub fn refuse_sheet(tree: usize, matrix: usize, res: usize) -> Refusal
    requires { res ≢ 3 }
    ensures { Refuses (slices 1 (sheet_slices tree matrix res)) result }
{
    let place = if tree != 510 {
        1
    } else if matrix != 16384 {
        2
    } else {
        3
    };
    Refusal {
        reason: Reason::Length,
        place,
    }
}

// ---- the report of a sheet

// The number of bytes. There is no `From<usize>` for u64, so it is `as`.
pub fn give_report(answer: Result<usize, Refusal>) -> u64
    requires { Short answer }
    ensures { Tells (of_report answer) result }
{
    match answer {
        Ok(size) => size as u64,
        Err(refusal) => code(refusal),
    }
}
