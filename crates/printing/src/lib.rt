// Text written into a lent slice, piece after piece: each function writes from a position on and returns the position after what it wrote.
#![tactic(auto)]

ghost use Rattle.std.specs.Prelude.{◌≡◌, ℕ, ◌+◌, ◌≤◌, ◌<◌, length};
ghost use Rattle.numbers.specs.Printed.{decimal, commas};
ghost use Rattle.printing.specs.Writing.{Written};

// Writes a number in decimal.
pub fn put_number(out: &mut [u8], at: usize, v: u32) -> usize
    requires { at + length (decimal v) ≤ length out.old }
    ensures { Written out.old out.new at result (decimal v) }
{
    if v < 10 {
        out[at] = b'0' + v as u8;
        return at + 1;
    }
    let next = put_number(out, at, v / 10);
    out[next] = b'0' + (v % 10) as u8;
    next + 1
}

// Writes these bytes.
pub fn put_bytes(out: &mut [u8], at: usize, text: &[u8]) -> usize
    requires { at + length text.now ≤ length out.old }
    ensures { Written out.old out.new at result text.now }
{
    // A loop: with `copy_from_slice` here the archive for C would need `memmove` from outside.
    for k in 0..text.len() {
        out[at + k] = text[k];
    }
    at + text.len()
}

// Writes these numbers, with commas between.
pub fn put_numbers(out: &mut [u8], at: usize, values: &[u16]) -> usize
    requires { (0 < length values.now) × (at + length (commas values.now) ≤ length out.old) }
    ensures { Written out.old out.new at result (commas values.now) }
{
    let mut next = put_number(out, at, u32::from(values[0]));
    for v in &values[1..] {
        out[next] = b',';
        next = put_number(out, next + 1, u32::from(*v));
    }
    next
}
