//! Tests of syntax trees: what each definition, value and type of a text stands for, with its fields and its place.
//!
//! They stand apart because a crate with tests is proved once with them and once without. Each module has the tests of
//! one crate or of one subject, over what that crate gives to everyone.
#![tactic(auto)]

#[cfg(test)]
mod documents;
#[cfg(test)]
mod same;
#[cfg(test)]
mod trees;
