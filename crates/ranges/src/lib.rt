// Ranges of states as numbers: the join of two, how far two are apart, the state of one nearest a state, and the final range of three.
// Every layer above stands on these contracts, so they say what the paper means and nothing of how it is computed.
#![tactic(auto)]

ghost use Rattle.std.specs.Prelude.{◌≡◌, [], ◌∷◌, pos};
ghost use Prim.Native.Nat.{ℕ, ◌≤◌};
ghost use Rattle.parsimony.specs.Ordered as ordered;
ghost use Rattle.ranges.specs.Ranges.{range_of, IsRange, Joined};

// The states from low to high, both among them. That low is not above high is asked by each function that needs it, and is no ghost field: who makes
// a Range is then asked nothing.
#[derive(Clone, Copy)]
pub struct Range {
    pub low: u16,
    pub high: u16,
}

// The join of two ranges: their overlap if they meet; else the gap from the nearer end of one to the nearer end of the other, both included.
pub fn join(a: Range, b: Range) -> Range
    requires { IsRange a × IsRange b }
    ensures { Joined (range_of a ∷ range_of b ∷ []) result }
{
    let from = a.low.max(b.low);
    let to = a.high.min(b.high);
    // Two arms, and no smaller and larger of the two: the edit `join_of_far_ends` changes the gap alone.
    if from <= to {
        Range {
            low: from,
            high: to,
        }
    } else {
        Range {
            low: to,
            high: from,
        }
    }
}

// How far two ranges are apart: 0 if they meet.
pub fn cost(a: Range, b: Range) -> u16
    requires { IsRange a × IsRange b }
    ensures { result ≡ ordered.cost (range_of a ∷ range_of b ∷ []) }
{
    a.low.max(b.low).saturating_sub(a.high.min(b.high))
}

// The state of a range nearest a state.
pub fn nearest(a: Range, state: u16) -> u16
    requires { IsRange a }
    ensures { pos result ≡ ordered.nearest (range_of a) (pos state) }
{
    state.clamp(a.low, a.high)
}

// The final range of a node: the join of its two descendants' ranges and the range from above, so the third and fourth of their six ends.
// Of two of the ranges the outer two ends are joined with the third range, and the result with the inner two ends.
pub fn final_range(a: Range, b: Range, above: Range) -> Range
    requires { IsRange a × IsRange b × IsRange above }
    ensures { Joined (range_of a ∷ range_of b ∷ range_of above ∷ []) result }
{
    let outer = Range {
        low: above.low.min(b.low),
        high: above.high.max(b.high),
    };
    let inner = join(b, above);
    join(join(a, outer), inner)
}
