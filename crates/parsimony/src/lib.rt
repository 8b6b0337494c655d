// What the library means, and the paper's theorems about it: specs/ and proofs/. There is no code here.
#![tactic(auto)]
