//! Laws that follow from the definitions of the batch book. It has no code: what stands in `proofs`
//! is cited by the crates above.
#![tactic(auto)]
