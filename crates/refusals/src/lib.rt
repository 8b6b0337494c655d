// What every layer shares: a refusal, which says its reason and its place.
#![tactic(auto)]

ghost use Rattle.std.specs.Prelude.{Some};
ghost use Rattle.refusals.specs.Reasons.{Numbered};
ghost use Rattle.refusals.specs.Printed.{refusal_text};

use std::fmt;

// Why a call is refused, by document 01's numbers.
#[derive(Clone, Copy, Debug, PartialEq, Eq)]
pub enum Reason {
    // 1: n or c is outside its limits
    Limits,
    // 2: a lent slice has another length than is asked
    Length,
    // 3: there is no root, or more than one, or it is no taxon
    Root,
    // 4: an entry is above the nodes, or names a taxon that is not the root
    Entry,
    // 5: a node has a wrong number of descendants
    Count,
    // 6: a node's ancestors never reach the root
    Lost,
    // 7: a cell holds a state above 9999
    State,
    // 8: there is no such character, or no such taxon
    Character,
    // 9: the corrected state is above 9999
    Correction,
    // 10: a kept entry is one that no pass leaves
    Kept,
    // 11: a line of a text is not in form
    Form,
    // 12: a text is too long
    Long,
}

impl From<Reason> for u32 {
    ghost from_gives = { Numbered };

    fn from(reason: Reason) -> u32 {
        match reason {
            Reason::Limits => 1,
            Reason::Length => 2,
            Reason::Root => 3,
            Reason::Entry => 4,
            Reason::Count => 5,
            Reason::Lost => 6,
            Reason::State => 7,
            Reason::Character => 8,
            Reason::Correction => 9,
            Reason::Kept => 10,
            Reason::Form => 11,
            Reason::Long => 12,
        }
    }
}

// A refusal: why, and where. The place is 0 where document 01 gives none.
#[derive(Clone, Copy, Debug, PartialEq, Eq)]
pub struct Refusal {
    pub reason: Reason,
    pub place: u32,
}

impl fmt::Display for Refusal {
    ghost output = { λ r. Some (refusal_text r) };

    fn fmt<W: fmt::Write>(&self, f: &mut fmt::Formatter<W>) -> fmt::Result {
        write!(f, "{},{}", u32::from(self.reason), self.place)
    }
}
