//! Tests of the crates that read GraphQL texts, from places in a text to concrete trees, and of the program over them.
//!
//! They stand apart because a crate with tests is proved once with them and once without. Each module has the tests of
//! one crate or of one subject, over what that crate gives to everyone.
#![tactic(auto)]

#[cfg(test)]
mod cuts;
#[cfg(test)]
mod grammar;
#[cfg(test)]
mod lexer;
#[cfg(test)]
mod program;
#[cfg(test)]
mod same;
#[cfg(test)]
mod sentences;
#[cfg(test)]
mod source;
#[cfg(test)]
mod strings;
