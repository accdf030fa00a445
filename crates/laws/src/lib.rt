// Statements and proofs alone: which formulas of forward numbers may be reordered. The code that they speak of is in
// crate `forward`.
#![tactic(auto)]
