// A sheet's text to a tree and a matrix, or a refusal. The whole text is read before anything lent is written.
#![tactic(auto)]

ghost use Rattle.sheets.specs.Answers.{Answers};

use bodies::Head;
use refusals::{Reason, Refusal};

// Reads a sheet into a tree slice of 510 entries and a matrix slice of 16,384 cells: refusals 2, 12, 11 and 1. A refused text changes neither.
pub fn read_sheet(text: &[u8], tree: &mut [u16], matrix: &mut [u16]) -> Result<Head, Refusal>
    ensures { Answers text.now tree.old matrix.old result tree.new matrix.new }
{
    if tree.len() != 510 {
        return Err(bodies::refuse(Reason::Length, 1));
    }
    if matrix.len() != 16384 {
        return Err(bodies::refuse(Reason::Length, 2));
    }
    let mut scratch = [0u16; 16384];
    let head = scans::scan(text, &mut scratch)?;
    let n = usize::from(head.n);
    let c = usize::from(head.c);
    let nodes = 2 * n - 2;
    let cells = n * c;
    tree[..nodes].copy_from_slice(&scratch[..nodes]);
    matrix[..cells].copy_from_slice(&scratch[nodes..nodes + cells]);
    Ok(head)
}
