//! Tests of requests that validation would have refused, or whose resolvers give what does not fit, of what parsers make of texts,
//! and of operations without spreads (GraphQL October 2021, sections 2, 3 and 6).
//!
//! They stand apart because a crate with tests is proved once with them and once without. Each expected answer was worked out
//! by hand. What is parsed or expanded is held in a `ManuallyDrop` and not dropped: a test ends with its process, and a drop of a
//! schema or a document on each way out of a function makes its proof dear. The types in `sample` alone are no tests, since a
//! definition of `specs/` names them.
#![tactic(auto)]

#[cfg(test)]
mod documents;
#[cfg(test)]
mod echo;
#[cfg(test)]
mod execution;
#[cfg(test)]
mod expansion;
#[cfg(test)]
mod fixtures;
#[cfg(test)]
mod inputs;
pub mod sample;
#[cfg(test)]
mod sample_answers;
