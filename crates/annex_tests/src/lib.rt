//! Rows worked out by hand for the calls that judge packs, samples and tares. All masses are in mg.
#![tactic(auto)]

#[cfg(test)]
mod checks;
#[cfg(test)]
mod draws;
#[cfg(test)]
mod judging;
#[cfg(test)]
mod tables;
#[cfg(test)]
mod tares;
