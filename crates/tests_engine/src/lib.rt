//! Tests of the engine as its users have it: of the program in memory, on devices that fail at one call each and on requests that
//! are cut, of what clients are told, of services that are asked more than once, and of the validation of texts by themselves, of
//! documents without a schema, and of texts that are a schema and a document in one (GraphQL October 2021, section 5).
//!
//! They stand apart because a crate with tests is proved once with them and once without. Each expected report was worked out by
//! hand. What is parsed is held in a `ManuallyDrop` and not dropped: a test ends with its process, and a drop of a schema or a
//! document on each way out of a function makes its proof dear.
#![tactic(auto)]

#[cfg(test)]
mod cuts;
#[cfg(test)]
mod devices;
#[cfg(test)]
mod in_memory;
#[cfg(test)]
mod mixed;
#[cfg(test)]
mod refusals;
#[cfg(test)]
mod runs;
#[cfg(test)]
mod services;
#[cfg(test)]
mod standalone;
