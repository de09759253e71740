// `improve` of triangles.rs as definitions (`specs/`), and that it gives what the rounds of crate oracle give (`proofs/`); no code.
#![tactic(auto)]
