// The lines of a report for the tree, and the line of a refusal, written into a lent slice.
#![tactic(auto)]

ghost use Rattle.std.specs.Prelude.{◌+◌, ◌≤◌, length};
ghost use Rattle.forms.specs.Sheets.{resolve_line};
ghost use Rattle.summaries.specs.Report as text;
ghost use Rattle.fields.specs.Fitting.{Fitting};
ghost use Rattle.summaries.specs.Rooms.{Indexed, index_room, tree_room, refused_room};

use choices::Resolve;
use fields::{put_byte, put_count, put_index};
use printing::{put_bytes, put_number};
use scores::Scores;

// The resolve line.
fn put_resolve(out: &mut [u8], at: usize, resolve: Resolve) -> usize
    requires { at + 16 ≤ length out.old }
    ensures { Fitting out.old out.new at result (resolve_line resolve) 16 }
{
    let line = match resolve {
        Resolve::Acctran => b"resolve=acctran\n",
        Resolve::Deltran => b"resolve=deltran\n",
    };
    put_bytes(out, at, line)
}

// CI and RI, of the tree here and of a character in the crate `layouts`.
pub fn put_indices(out: &mut [u8], at: usize, scores: Scores) -> usize
    requires { Indexed scores × (at + index_room ≤ length out.old) }
    ensures { Fitting out.old out.new at result (text.index_lines scores) index_room }
{
    let next = put_index(out, at, b"ci=", scores.ci);
    put_index(out, next, b"ri=", scores.ri)
}

// The six lines for the tree.
pub fn put_tree(
    out: &mut [u8],
    at: usize,
    n: u16,
    c: u16,
    scores: Scores,
    resolve: Resolve,
) -> usize
    requires { Indexed scores × (at + tree_room ≤ length out.old) }
    ensures { Fitting out.old out.new at result (text.tree_lines n c scores resolve) tree_room }
{
    let second = put_count(out, at, b"taxa=", u32::from(n));
    let third = put_count(out, second, b"characters=", u32::from(c));
    let fourth = put_count(out, third, b"length=", scores.length);
    let sixth = put_indices(out, fourth, scores);
    put_resolve(out, sixth, resolve)
}

// The line of a refusal, by its number and its place.
pub fn put_refusal(out: &mut [u8], at: usize, number: u32, place: u32) -> usize
    requires { at + refused_room ≤ length out.old }
    ensures { Fitting out.old out.new at result (text.refused_line number place) refused_room }
{
    let first = put_bytes(out, at, b"refused=");
    let comma = put_number(out, first, number);
    let second = put_byte(out, comma, b',');
    let end = put_number(out, second, place);
    put_byte(out, end, b'\n')
}
