// What the programs that run cases share: numbers and lists read out of a text one after the other, and lists printed, in full or as a digest.
#![tactic(auto)]

ghost use Rattle.std.specs.Prelude.{◌≡◌, ◌≤◌, ◌↔◌, IsTrue, min, length, EachIndex, slice_index};
ghost use Rattle.cases.specs.Reading.{value_at, place};
ghost use Rattle.cases.specs.Printing.{spaced, Digests};

use std::fmt;
use std::fmt::Display;

// A text that holds cases, each a row of numbers with one byte behind each that is no digit, and the position of what is read next.
#[derive(Drop)]
pub struct Cases<'a> {
    pub text: &'a [u8],
    pub at: usize,
}

impl<'a> Cases<'a> {
    // Nothing is read yet.
    pub fn new(text: &'a [u8]) -> Cases<'a>
        ensures text { result.text.now ≡ text.now }
        ensures start { result.at ≡ 0 }
    {
        Cases { text, at: 0 }
    }

    // Whether all is read.
    pub fn are_read(&self) -> bool
        ensures { IsTrue result ↔ (length self.now.text.now ≤ self.now.at) }
    {
        self.at >= self.text.len()
    }

    // The next number. What is no number is read as 0, and ends the text.
    pub fn number(&mut self) -> u16
        ensures text { self.new.text.now ≡ self.old.text.now }
        ensures value { result ≡ value_at self.old.text.now self.old.at }
        ensures next { self.new.at ≡ place self.old.text.now self.old.at 1 }
    {
        match numbers::number(self.text, self.at) {
            Some(number) => {
                self.at = number.next;
                if self.at < self.text.len() {
                    self.at += 1;
                }
                number.value
            }
            None => {
                self.at = self.text.len();
                0
            }
        }
    }

    // The next number, but at most `most`: how long a slice is lent.
    pub fn at_most(&mut self, most: usize) -> usize
        ensures text { self.new.text.now ≡ self.old.text.now }
        ensures value { result ≡ min (value_at self.old.text.now self.old.at) most }
        ensures next { self.new.at ≡ place self.old.text.now self.old.at 1 }
    {
        usize::from(self.number()).min(most)
    }

    // Fills a list with the next numbers.
    pub fn fill(&mut self, list: &mut [u16])
        ensures text { self.new.text.now ≡ self.old.text.now }
        ensures values { EachIndex list.new (λ k. slice_index list.new k ≡ value_at self.old.text.now (place self.old.text.now self.old.at k)) }
        ensures next { self.new.at ≡ place self.old.text.now self.old.at (length list.old) }
    {
        for entry in list {
            *entry = self.number();
        }
    }
}

// A list whose entries are printed with a blank before each.
#[derive(Drop)]
pub struct List<'a, T>(pub &'a [T]);

impl<T: Display> Display for List<'_, T> {
    ghost output = { λ l. spaced T.output l.0.now };

    fn fmt<W: fmt::Write>(&self, f: &mut fmt::Formatter<W>) -> fmt::Result {
        for value in self.0 {
            write!(f, " {value}")?;
        }
        Ok(())
    }
}

// A digest of a list, which begins with `start`: each entry counts with its place, and as `more` more than it is.
pub fn digest<T: Copy + Into<u32>>(values: &[T], start: u32, more: u32) -> u64
    ensures { Digests T.converts more values.now start result }
{
    let mut sum = u64::from(start);
    for value in values {
        let value: u32 = (*value).into();
        sum = (sum * 31 + u64::from(value) + u64::from(more)) % 65521;
    }
    sum
}
