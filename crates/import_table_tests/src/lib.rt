//! Tests of imports by the public calls of `import_table`.
#![tactic(auto)]

#[cfg(test)]
mod ending;
#[cfg(test)]
mod long;
#[cfg(test)]
mod tables;
