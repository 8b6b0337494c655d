// Which texts are sheets: definitions in specs/, and what is proved of them in proofs/. No code; the crate `scans` reads the texts.
#![tactic(auto)]
