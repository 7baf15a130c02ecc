//! Coercion of input values (GraphQL October 2021, section 3.10): the values of variables and of arguments, made of what a
//! request and a document give and of defaults.
//!
//! [`coerce_variables`] takes the JSON values of a request as variables of an operation (section 6.1.2),
//! [`coerce_arguments`] takes the literals and variables at a field as its arguments (section 6.4.1). Both answer the
//! values in order of definition, or the first fault: its message, its place, and whether validation should have found it.
//! A value of a one-of input object has exactly one member, which is not null (GraphQL September 2025, section 3.10.1).
//! [`scalar_takes`] and [`enum_takes`] tell which values are leaves of a type. Resolvers' answers are judged by the same.
//!
//! A schema is only assumed to be valid: types that are undefined or no input types are faults of their own.
#![tactic(auto)]

mod arguments;
mod fault;
mod given_arguments;
mod input_types;
mod input_value;
pub mod laws;
mod literal_members;
mod literal_value;
mod messages;
mod missing;
mod one_of;
mod outcome;
mod scalar;
mod subject;
mod told;
mod translation;
mod variables;
mod wanted;
mod wrapped;

pub use arguments::coerce_arguments;
pub use jb_text::Memory;
pub use scalar::{enum_takes, scalar_takes};
pub use told::{ArgumentFault, InputCoercionError};
pub use variables::coerce_variables;
