// The lines of a report, one at a time, written into a lent slice: a key, a value, LF. Here the value is a number or an index; those that list the
// interior nodes are in the crate `listings`.
#![tactic(auto)]

ghost use Rattle.std.specs.Prelude.{◌≡◌, ◌+◌, ◌≤◌, length};
ghost use Rattle.numbers.specs.Printed.{decimal};
ghost use Rattle.printing.specs.Writing.{Written};
ghost use Rattle.fields.specs.Fields as text;
ghost use Rattle.fields.specs.Proper.{AtMost, Proper};
ghost use Rattle.fields.specs.Fitting.{Fitting};

use indices::Fraction;
use printing::{put_bytes, put_number};

// Writes a byte.
pub fn put_byte(out: &mut [u8], at: usize, byte: u8) -> usize
    requires { at + 1 ≤ length out.old }
    ensures { Written out.old out.new at result (text.byte byte) }
{
    out[at] = byte;
    at + 1
}

// Writes a line with a number.
pub fn put_count(out: &mut [u8], at: usize, key: &[u8], v: u32) -> usize
    requires { at + (length key.now + 11) ≤ length out.old }
    ensures { Fitting out.old out.new at result (text.field key.now (decimal v))
        (length key.now + 11) }
{
    let value = put_bytes(out, at, key);
    let end = put_number(out, value, v);
    put_byte(out, end, b'\n')
}

// ---- an index

// A fraction in thousandths, halves up. They fit, so `as` loses nothing: there is no `From<u64>` for u32.
fn thousandths(fraction: Fraction) -> u32
    requires { AtMost fraction.over fraction.under }
    ensures { result ≡ text.thousandths fraction.over fraction.under }
{
    let over = u64::from(fraction.over);
    let under = u64::from(fraction.under);
    ((2000 * over + under) / (2 * under)) as u32
}

// Writes a fraction, and its thousandths after a comma.
fn put_fraction(out: &mut [u8], at: usize, fraction: Fraction) -> usize
    requires { AtMost fraction.over fraction.under × (at + 26 ≤ length out.old) }
    ensures { Fitting out.old out.new at result (text.fraction fraction.over fraction.under) 26 }
{
    let slash = put_number(out, at, fraction.over);
    let second = put_byte(out, slash, b'/');
    let comma = put_number(out, second, fraction.under);
    let third = put_byte(out, comma, b',');
    put_number(out, third, thousandths(fraction))
}

// Writes an index, or none.
fn put_value(out: &mut [u8], at: usize, index: Option<Fraction>) -> usize
    requires { Proper index × (at + 26 ≤ length out.old) }
    ensures { Fitting out.old out.new at result (text.index index) 26 }
{
    match index {
        Some(fraction) => put_fraction(out, at, fraction),
        None => put_bytes(out, at, b"none"),
    }
}

// Writes a line with an index.
pub fn put_index(out: &mut [u8], at: usize, key: &[u8], index: Option<Fraction>) -> usize
    requires { Proper index × (at + (length key.now + 27) ≤ length out.old) }
    ensures { Fitting out.old out.new at result (text.field key.now (text.index index))
        (length key.now + 27) }
{
    let value = put_bytes(out, at, key);
    let end = put_value(out, value, index);
    put_byte(out, end, b'\n')
}
