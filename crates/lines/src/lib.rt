// The lines of a sheet, each read at a position: a key, numbers with commas between, and LF. The numbers of a line, and of the rows one after
// another, are stored in a lent list.
#![tactic(auto)]

ghost use Rattle.std.specs.Prelude.{◌≡◌, ℕ, ◌+◌, ◌*◌, ◌≤◌, ◌<◌, length};
ghost use Rattle.lines.specs.Lines.{mark_of, values_at, head_at, line_at, rows_at, Stored, StoredRows};

use numbers::Parsed;

// The byte after a number with which `left` numbers are left: a comma, and LF after the last.
#[tactic(auto, unfolding(crate::specs::Lines::mark_of))]
fn mark(left: usize) -> u8
    ensures { result ≡ mark_of left }
{
    if left == 1 { b'\n' } else { b',' }
}

// Reads `count` numbers at `at` and stores them from `from` on. A number takes two bytes or more, so the list has room for those of any sheet.
// The answer is the position after them, if they are in form.
fn values(
    text: &[u8],
    at: usize,
    count: usize,
    out: &mut [u16; 16384],
    from: usize,
) -> Option<usize>
    requires { (2 * from ≤ at) × (length text.now ≤ 32768) }
    ensures { Stored (values_at text.now count at) out.old from result out.new }
{
    let mut next = at;
    for k in 0..count {
        let item = numbers::item(text, next, mark(count - k))?;
        out[from + k] = item.value;
        next = item.next;
    }
    Some(next)
}

// The one number of the line at `at` that has this key.
pub fn head(text: &[u8], at: usize, key: &[u8]) -> Option<Parsed>
    requires { (at ≤ 32768) × (length key.now ≤ 64) }
    ensures { result ≡ head_at text.now key.now at }
{
    if numbers::starts(text, at, key) {
        numbers::item(text, at + key.len(), b'\n')
    } else {
        None
    }
}

// Reads the line at `at` that has this key and `count` numbers, and stores them from `from` on. The answer is the position after the line, if it is
// in form.
pub fn read_line(
    text: &[u8],
    at: usize,
    key: &[u8],
    count: usize,
    out: &mut [u16; 16384],
    from: usize,
) -> Option<usize>
    requires { (2 * from ≤ at) × (length text.now ≤ 32768) × (at ≤ 32768) × (length key.now ≤ 64) }
    ensures { Stored (line_at text.now key.now count at) out.old from result out.new }
{
    if numbers::starts(text, at, key) {
        values(text, at + key.len(), count, out, from)
    } else {
        None
    }
}

// Reads `count` rows of `width` numbers at `at`, the first of them line `first` of the sheet, and stores their numbers from `from` on. The answer is
// the position after them, or the number of the first line that is not in form.
pub fn read_rows(
    text: &[u8],
    at: usize,
    count: usize,
    width: usize,
    first: u32,
    out: &mut [u16; 16384],
    from: usize,
) -> Result<usize, u32>
    requires { (2 * from ≤ at) × (length text.now ≤ 32768) × (at ≤ 32768) × (0 < width) × (count + first ≤ 4096) }
    ensures { StoredRows (rows_at text.now width count first at) out.old from result out.new }
{
    let mut next = at;
    let mut put = from;
    for k in 0..count {
        next = read_line(text, next, b"row=", width, out, put).ok_or(first + k as u32)?;
        put += width;
    }
    Ok(next)
}
