//! Laws of what is valid: of schemas and documents that texts mean, of the coercion of their input values, and of what resolvers answer.
//!
//! The functions of [`rule_laws`], [`coercion_laws`], [`completion_laws`] and [`examples`] do nothing when they run: their contracts are
//! these laws, and small examples of the definitions. In a document that a text means against a schema, the fields of one response key
//! that one object can have are one field (GraphQL October 2021, section 5.3.2). In a schema that a text means, an object type has the
//! fields of what it stands for, with types that fit (sections 3.6, 3.7 and 3.8). Where all is of input types, and defaults are constant,
//! coercing values to variables never ends in a fault that is marked as a suspected fault of validation (section 6.1.2); and nothing that
//! an execution reaches is at a type that validation should have refused, so no fault of completing is marked so either (section 6.4.3).
#![tactic(auto)]

pub mod coercion_laws;
pub mod completion_laws;
pub mod examples;
pub mod rule_laws;
