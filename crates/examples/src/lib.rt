// The examples of document 01, computed by the checker from the definitions, and the law that no two differing outcomes satisfy
// the statement of a public function: this crate has no code. `specs/` has what sheetrun prints for a sheet, `proofs/` the
// examples and the law.
#![tactic(auto)]
