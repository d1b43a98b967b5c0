//! Tests of the public calls of `batch_sums`, beside a plain list of the same packs. All masses are
//! in mg.
#![tactic(auto)]

#[cfg(test)]
mod hall;
#[cfg(test)]
mod plain;
#[cfg(test)]
mod row;
#[cfg(test)]
mod tests;
