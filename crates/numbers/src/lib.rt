// Bytes, numbers and keys of a text, each read at a position. A byte past the end counts as 0, which is no digit, so nothing has to be asked of
// a position.
#![tactic(auto)]

ghost use Rattle.std.specs.Prelude.{◌≡◌, ℕ, ◌+◌, ◌≤◌, ◌<◌, length, get_or};
ghost use Rattle.numbers.specs.Numbers.{digit_of, number_at, item_at, starts_at};

// A number below 65536 and the position after it.
#[derive(Clone, Copy, Debug, PartialEq, Eq)]
pub struct Parsed {
    pub value: u16,
    pub next: usize,
}

// The byte at `at`, or 0 past the end.
pub fn byte(text: &[u8], at: usize) -> u8
    ensures { result ≡ get_or text.now at 0 }
{
    text.get(at).copied().unwrap_or(0)
}

// The value of a digit; none for another byte.
#[tactic(auto, unfolding(crate::specs::Numbers::digit_of))]
pub fn digit(b: u8) -> Option<u32>
    ensures { result ≡ digit_of b }
{
    match b {
        b'0'..=b'9' => Some(u32::from(b - b'0')),
        _ => None,
    }
}

// The number that starts at `at`.
pub fn number(text: &[u8], at: usize) -> Option<Parsed>
    ensures { result ≡ number_at text.now at }
{
    let first = digit(byte(text, at))?;
    let mut next = at + 1;
    if first == 0 {
        return Some(Parsed { value: 0, next });
    }
    let mut value = first;
    while let Some(d) = digit(byte(text, next)) {
        value = value * 10 + d;
        if 65535 < value {
            return None;
        }
        next += 1;
    }
    Some(Parsed {
        value: value as u16,
        next,
    })
}

// The number that starts at `at`, with the byte `end` after it; the position is past that byte.
pub fn item(text: &[u8], at: usize, end: u8) -> Option<Parsed>
    requires { 0 < end }
    ensures { result ≡ item_at text.now end at }
{
    let Parsed { value, next } = number(text, at)?;
    if byte(text, next) != end {
        return None;
    }
    Some(Parsed {
        value,
        next: next + 1,
    })
}

// Whether the bytes of `key` stand at `at`.
pub fn starts(text: &[u8], at: usize, key: &[u8]) -> bool
    requires { (at ≤ 32768) × (length key.now ≤ 64) }
    ensures { result ≡ starts_at text.now at key.now }
{
    // By the index: the edit `first_byte_of_the_key_unread` begins at 1 here, and beside an iterator it would be refused for its form alone.
    for j in 0..key.len() {
        if byte(text, at + j) != key[j] {
            return false;
        }
    }
    true
}
