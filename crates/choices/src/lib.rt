// The choice of document 01's resolve line: which of the two reconstructions is asked for.
#![tactic(auto)]

#[derive(Clone, Copy, Debug, PartialEq, Eq)]
pub enum Resolve {
    Acctran,
    Deltran,
}
