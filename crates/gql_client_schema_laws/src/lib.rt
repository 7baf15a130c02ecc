//! Laws of schemas that are read back from introspection: what is shown of one, and what is shown of the schema that is built of
//! definitions that say just that; schemas that tell each other again, the same types and directives, places aside; and the full query,
//! which document its text is, what it builds against a schema, and what it is answered with.
//!
//! Where nothing is wrong with a schema by the rules of section 3 of GraphQL October 2021, nothing is wrong with one that tells it again,
//! as long as it uses directives only to tell what introspection shows.
//!
//! The functions of [`laws`], [`alike_laws`] and [`full_query_laws`] do nothing when they run: their contracts are these laws.
#![tactic(auto)]

pub mod alike_laws;
pub mod full_query_laws;
pub mod laws;
