// The improver's round on values: definitions (`specs/`) and theorems (`proofs/`), no code.
#![tactic(auto)]
