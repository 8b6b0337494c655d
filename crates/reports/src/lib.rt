// From a sheet's text to its report: one function from bytes to bytes. The sheet is read, all characters are scored, so that a state above 9999 is
// named by the lowest cell of the whole matrix, and then each character is.
#![tactic(auto)]

ghost use Rattle.std.specs.Prelude.{◌≡◌, length};
ghost use Rattle.reports.specs.Says.{Reports};
ghost use Rattle.reports.specs.Steps.{Sized, Whole, Told};

use bodies::Head;
use refusals::{Reason, Refusal};

// The report on a sheet's tree and matrix, or the line of the refusal that they get. A `match` here and below: each of two edits plants in one of the
// two places where a refusal's line is written.
fn put_report(head: Head, tree: &[u16], matrix: &[u16], out: &mut [u8]) -> usize
    requires { Sized head.n head.c tree.now matrix.now × (length out.old ≡ 524288) }
    ensures { Whole head.n head.c head.resolve tree.now matrix.now out.old out.new result }
{
    let n = usize::from(head.n);
    let c = usize::from(head.c);
    match characters::all_characters(n, c, tree, matrix) {
        Ok(scores) => {
            let next = summaries::put_tree(out, 0, head.n, head.c, scores, head.resolve);
            turns::put_characters(head.n, head.c, head.resolve, tree, matrix, out, next)
        }
        Err(refused) => {
            let number = u32::from(refused.reason);
            summaries::put_refusal(out, 0, number, refused.place)
        }
    }
}

// The report on a text, or the line of its refusal.
fn put_text(text: &[u8], out: &mut [u8]) -> usize
    requires { length out.old ≡ 524288 }
    ensures { Told text.now out.old out.new result }
{
    let mut tree = [0u16; 510];
    let mut matrix = [0u16; 16384];
    match sheets::read_sheet(text, &mut tree, &mut matrix) {
        Ok(head) => {
            let n = usize::from(head.n);
            let c = usize::from(head.c);
            put_report(head, &tree[..2 * n - 2], &matrix[..n * c], out)
        }
        Err(refusal) => {
            let number = u32::from(refusal.reason);
            summaries::put_refusal(out, 0, number, refusal.place)
        }
    }
}

// The report on a text, at the front of a slice of 524,288 bytes; the rest of the slice keeps its values. Refusal 2 if the slice has another length;
// a text that is refused gets a report of one line.
pub fn report(text: &[u8], out: &mut [u8]) -> Result<usize, Refusal>
    ensures { Reports text.now out.old out.new result }
{
    if out.len() != 524288 {
        return Err(Refusal {
            reason: Reason::Length,
            place: 1,
        });
    }
    Ok(put_text(text, out))
}
