// What the calls of the kept table promise (specs/Kept.antt), what lists of corrections leave (specs/Histories.antt), and that each call has one
// outcome (proofs/). No code: the calls are in the crates `kept` and `kept_characters`.
#![tactic(auto)]
