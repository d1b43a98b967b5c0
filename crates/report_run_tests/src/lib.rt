//! Tests of reports and of the register by the public calls of `report_run`: worked books, and
//! outputs of which each write fails.
#![tactic(auto)]

#[cfg(test)]
mod books;
#[cfg(test)]
mod printing;
#[cfg(test)]
mod texts;
