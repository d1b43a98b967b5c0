//! The batch book beside a second and plainer reading of its rules: both get the same drawn asks,
//! and every answer is compared.
#![tactic(auto)]

#[cfg(test)]
mod comparison;
#[cfg(test)]
mod drawn_acts;
#[cfg(test)]
mod likely_acts;
#[cfg(test)]
mod met;
#[cfg(test)]
mod pair;
#[cfg(test)]
mod plans;
