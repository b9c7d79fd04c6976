// Demand 3 (for any order of posts and steps after set-up, refused ones included), as theorems about the definitions: this
// crate has no code. `specs/` has histories and what is read off them, `proofs/` the theorems.
#![tactic(auto)]
