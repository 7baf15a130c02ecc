//! The rules on schemas (GraphQL October 2021, section 3).
//!
//! [`validate_schema`] lists what is wrong with a schema: one diagnostic for each fault of each rule, in the order of lists. Each
//! rule has a file of its own, named after it, here or in the crates below. Those on literals, arguments and directives hold in
//! schemas and documents alike (sections 5.4, 5.6 and 5.7), and can be asked by themselves: [`check_literal`],
//! [`check_arguments`] and [`check_directives`].
//!
//! Here are the rules on what may not lead back to itself: interfaces, input objects and directives (sections 3.7, 3.10 and 3.13).
//! For each a graph says which name leads to which. What is on a cycle is told, and so is a name from which a chain of more than
//! 32 names begins though it reaches no cycle.
#![tactic(auto)]

mod checks;
mod cycle_faults;
mod recursive_directive_definition;
mod recursive_input_object_definition;
mod recursive_interface_definition;
mod scalars;
mod schema_faults;
mod validate;

pub use checks::{check_arguments, check_directives, check_literal};
pub use jb_text::Memory;
pub use validate::validate_schema;
