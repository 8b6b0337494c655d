// The lines of a report that list the interior nodes, one at a time, written into a lent slice: a key, ranges or numbers with commas between, LF.
#![tactic(auto)]

ghost use Rattle.std.specs.Prelude.{◌≡◌, ◌+◌, ◌*◌, ◌≤◌, ◌<◌, length, drop};
ghost use Rattle.numbers.specs.Printed.{commas};
ghost use Rattle.printing.specs.Writing.{Written};
ghost use Rattle.fields.specs.Fields as fields;
ghost use Rattle.fields.specs.Fitting.{Fitting};
ghost use Rattle.listings.specs.Ranges as text;

use fields::put_byte;
use printing::{put_bytes, put_number};

// Writes a range: its ends with a hyphen between.
fn put_range(out: &mut [u8], at: usize, low: u16, high: u16) -> usize
    requires { at + length (text.range low high) ≤ length out.old }
    ensures { Written out.old out.new at result (text.range low high) }
{
    let hyphen = put_number(out, at, u32::from(low));
    let second = put_byte(out, hyphen, b'-');
    put_number(out, second, u32::from(high))
}

// Writes the ranges after the first, each after a comma.
fn put_more_ranges(out: &mut [u8], at: usize, lows: &[u16], highs: &[u16]) -> usize
    requires { (0 < length lows.now) × (length lows.now ≡ length highs.now)
        × (at + length (text.more_ranges (drop 1 lows.now) (drop 1 highs.now)) ≤ length out.old) }
    ensures { Written out.old out.new at result
        (text.more_ranges (drop 1 lows.now) (drop 1 highs.now)) }
{
    let mut next = at;
    for k in 1..lows.len() {
        let first = put_byte(out, next, b',');
        next = put_range(out, first, lows[k], highs[k]);
    }
    next
}

// Writes a line with ranges.
pub fn put_ranges(out: &mut [u8], at: usize, key: &[u8], lows: &[u16], highs: &[u16]) -> usize
    requires { (0 < length lows.now) × (length lows.now ≡ length highs.now)
        × (at + (length key.now + (12 * length lows.now + 1)) ≤ length out.old) }
    ensures { Fitting out.old out.new at result
        (fields.field key.now (text.ranges lows.now highs.now))
        (length key.now + (12 * length lows.now + 1)) }
{
    let value = put_bytes(out, at, key);
    let next = put_range(out, value, lows[0], highs[0]);
    let end = put_more_ranges(out, next, lows, highs);
    put_byte(out, end, b'\n')
}

// Writes a line with numbers.
pub fn put_list(out: &mut [u8], at: usize, key: &[u8], values: &[u16]) -> usize
    requires { (0 < length values.now) × (at + (length key.now + (6 * length values.now + 1)) ≤ length out.old) }
    ensures { Fitting out.old out.new at result (fields.field key.now (commas values.now))
        (length key.now + (6 * length values.now + 1)) }
{
    let value = put_bytes(out, at, key);
    let end = printing::put_numbers(out, value, values);
    put_byte(out, end, b'\n')
}
