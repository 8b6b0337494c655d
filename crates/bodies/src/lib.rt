// What follows the first two lines of a text: the ancestors, the rows and the resolve line, read one after the other into a list.
#![tactic(auto)]

ghost use Rattle.std.specs.Prelude.{◌≡◌, true, ℕ, ◌≤◌, length, drop};
ghost use Rattle.refusals.specs.declared.Reason.{Reason};
ghost use Rattle.numbers.specs.Numbers.{starts_at};
ghost use Rattle.forms.specs.Sheets.{Within, resolve_line};
ghost use Rattle.forms.specs.Parts.{Heads};
ghost use Rattle.bodies.specs.Scanned.{Ends, Scanned};

use choices::Resolve;
use refusals::{Reason, Refusal};

// What a sheet says beside its tree and its matrix: n, c and the resolve choice.
#[derive(Clone, Copy, Debug, PartialEq, Eq)]
pub struct Head {
    pub n: u16,
    pub c: u16,
    pub resolve: Resolve,
}

// A refusal, by its reason and its place.
pub fn refuse(reason: Reason, place: u32) -> Refusal
    ensures { result ≡ record { reason = reason; place = place } }
{
    Refusal { reason, place }
}

// The refusal of a text in which this line is not in form.
fn not_in_form(line: u32) -> Refusal
    ensures { result ≡ record { reason = Reason.Form; place = line } }
{
    refuse(Reason::Form, line)
}

// What a resolve line at `at`, as line `line`, is: the choice, if nothing follows it; else the number of the line that is not in form.
fn read_choice(text: &[u8], at: usize, line: u32, choice: Resolve) -> Result<Option<Resolve>, u32>
    requires { (at ≤ length text.now) × (length text.now ≤ 32768) × (line ≤ 4096) × (starts_at text.now at (resolve_line choice) ≡ true) }
    ensures { Ends (drop at text.now) line result }
{
    if at + 16 == text.len() {
        Ok(Some(choice))
    } else {
        Err(line + 1)
    }
}

// What stands at `at`, after the rows, where the next line is line `line`: nothing, the resolve line and nothing more, or something else, at a line
// that is not in form.
fn read_end(text: &[u8], at: usize, line: u32) -> Result<Option<Resolve>, u32>
    requires { (at ≤ length text.now) × (length text.now ≤ 32768) × (line ≤ 4096) }
    ensures { Ends (drop at text.now) line result }
{
    if at == text.len() {
        Ok(None)
    } else if numbers::starts(text, at, b"resolve=acctran\n") {
        read_choice(text, at, line, Resolve::Acctran)
    } else if numbers::starts(text, at, b"resolve=deltran\n") {
        read_choice(text, at, line, Resolve::Deltran)
    } else {
        Err(line)
    }
}

// Reads what follows the first two lines; the ancestors and then the cells go to `out`.
pub fn read_body(
    text: &[u8],
    at: usize,
    n: u16,
    c: u16,
    out: &mut [u16; 16384],
) -> Result<Head, Refusal>
    requires { Heads text.now n c at × Within n c × (length text.now ≤ 32768) × (length out.old ≡ 16384) }
    ensures { Scanned text.now result out.new }
{
    let taxa = usize::from(n);
    let nodes = 2 * taxa - 2;
    let third = lines::read_line(text, at, b"ancestors=", nodes, out, 0);
    let after_tree = third.ok_or(not_in_form(3))?;
    let rest = lines::read_rows(text, after_tree, taxa, usize::from(c), 4, out, nodes);
    let after_rows = rest.map_err(not_in_form)?;
    let last = read_end(text, after_rows, 4 + u32::from(n)).map_err(not_in_form)?;
    // A `match` in place of `unwrap_or`: the edit `constant_answer` plants in its first arm.
    match last {
        Some(resolve) => Ok(Head { n, c, resolve }),
        None => Ok(Head {
            n,
            c,
            resolve: Resolve::Acctran,
        }),
    }
}
