//! Tests of JSON values, maps and texts, which call these crates as their users do.
//!
//! They stand apart because a crate with tests is proved twice, once with them and once without: here the second proof
//! is of nothing. Each module tests one crate or one concern of it, and shows what no clause says.
//!
//! A test makes the values that it needs, and lends them to a function `check_..` that asserts. What a function owns is
//! dropped at each of its exits, and each of these drops is proved; what it borrows costs nothing there.
#![tactic(auto)]

#[cfg(test)]
mod fixtures;
#[cfg(test)]
mod map;
#[cfg(test)]
mod members;
#[cfg(test)]
mod places;
#[cfg(test)]
mod text;
#[cfg(test)]
mod tree;
