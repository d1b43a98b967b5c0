//! Tests of papers by their public calls: the papers of worked books, and the batches that have
//! none.
#![tactic(auto)]

#[cfg(test)]
mod papers;
