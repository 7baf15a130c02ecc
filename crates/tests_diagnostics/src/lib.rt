//! Tests of rules and their messages, of lists of diagnostics and reports, of guards of recursion, of responses, and of what is told
//! of schemas and of single parts of documents.
//!
//! They stand apart because a crate with tests is proved once with them and once without. Each module has the tests of
//! one subject, over what the crates give to everyone.
#![tactic(auto)]

#[cfg(test)]
mod diagnostics;
#[cfg(test)]
mod fixtures;
#[cfg(test)]
mod guards;
#[cfg(test)]
mod report;
#[cfg(test)]
mod response;
#[cfg(test)]
mod rules;
#[cfg(test)]
mod schemas;
