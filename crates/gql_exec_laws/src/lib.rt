//! Laws of execution: expansion changes nothing (GraphQL October 2021, sections 2.8 and 6.3), what collecting gives of each selection
//! (section 6.3.2), and worked examples (section 6.4.4).
//!
//! The functions of [`laws`], [`collecting`] and [`examples`] do nothing when they run: their contracts say this. An operation and
//! the operation that `expand_fragments` makes of it are executed alike. Each example says what the definition of execution gives
//! for a small schema, query and resolver, as the JSON text that was worked out by hand from the standard, or what another
//! definition gives. So the definitions, which the engine is proved to meet, are seen to mean what a reader of the standard expects.
//! Two more show what is counted where fields are collected.
#![tactic(auto)]

pub mod collecting;
pub mod examples;
pub mod laws;
