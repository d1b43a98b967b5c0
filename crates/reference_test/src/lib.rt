//! The two checks of the reference test of Directive 76/211/EEC, Annex II: the contents check and
//! the mean check. Masses are whole milligrams, volumes microlitres, densities mg a litre.
#![tactic(auto)]

mod contents;
mod means;
mod types;

pub use contents::contents_check;
pub use means::{UNIT_DENSITY, mean_check, mean_check_at};
pub use types::{Contents, Sums};
