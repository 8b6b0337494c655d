// The limits of n and c, and the lengths of lent slices: refusals 1 and 2. Each slice is looked at by itself, from the last to the first.
#![tactic(auto)]

ghost use Rattle.refusals.specs.Search.{Tells};
ghost use Rattle.limits.specs.Limits.{Outside, LentTo};

// Are there too few or too many taxa or characters?
pub fn outside(n: usize, c: usize) -> bool
    ensures { Tells (Outside n c) result }
{
    n < 3 || 256 < n || c < 1 || 512 < c
}

// One slice more, before the others: its number, the length it has, and the length that is asked. The first that has another length is told, or none.
pub fn lend(number: u32, has: usize, asked: usize, others: Option<u32>) -> Option<u32>
    ensures { LentTo number has asked others result }
{
    if has != asked { Some(number) } else { others }
}
