//! Tests of plans, by the public calls of `hall_plan`.
#![tactic(auto)]

#[cfg(test)]
mod bad;
#[cfg(test)]
mod good;
#[cfg(test)]
mod long;
