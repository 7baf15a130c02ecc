//! The rules on GraphQL documents (GraphQL October 2021, section 5), by a schema and without one.
//!
//! [`validate_document`] lists what is wrong with a document by its schema: one diagnostic for each fault of each rule, in the
//! order of lists. Spreads that lead nowhere, back or too far come first: where there are some, nothing else is looked at. Each
//! rule has a file of its own here and in the crates below, and in `specs/`, named after it. [`validate_document_with`] takes the
//! [`PossibleTypes`] of the schema, which are made once where many documents are checked.
//!
//! The rules on the uses of variables (sections 5.8.3 to 5.8.5) are those of this crate: uses of variables that are not defined,
//! variables that are not used, and uses where values of the variable's type may not stand, or null may not, as in a literal of a
//! one-of input object (GraphQL September 2025). A use in a fragment is judged for each
//! operation that reaches it. Uses are gathered once; then each operation takes time that is linear in the number of fragments
//! and in the uses in it and in the fragments that it reaches.
//!
//! [`validate_standalone`] lists what is wrong with a syntax tree, whatever the schema. No rule is written a second time for
//! it: the tree becomes a document in which no type is known, each field with a definition that says nothing, and the rules on
//! documents read that one. Each takes time that is linear in the tree, but for the uses of variables in fragments, which are
//! judged for each operation that reaches them.
#![tactic(auto)]

mod disallowed_variable_usage;
mod document_faults;
mod document_uses;
mod judged;
mod no_schema;
mod one_of_variable;
mod operations;
mod rows;
mod standalone;
mod types_into;
mod undefined_variable;
mod unique_arguments;
mod unique_variables;
mod untyped_document;
mod untyped_faults;
mod untyped_selections;
mod unused_variable;
mod uses;
mod validate;
mod value_uses;
mod variable_faults;
mod variables;

pub use gql_rules_nodes::PossibleTypes;
pub use jb_text::Memory;
pub use standalone::validate_standalone;
pub use validate::{validate_document, validate_document_with};
