//! Tests of the register by the public calls of `pack_register`.
#![tactic(auto)]

#[cfg(test)]
mod names;
#[cfg(test)]
mod packs;
#[cfg(test)]
mod records;
