//! Resolvers: what a user of the engine writes to answer requests (GraphQL October 2021, section 6.4.2); and whether what they give
//! fits the type of its field, with the text of what does not (sections 6.4.3 and 6.4.4).
//!
//! An [`ObjectValue`] is an object of the data. It knows the name of its type and answers field by field with a
//! [`ResolvedValue`]: a leaf, a further object or a list, or a failure with a text. What it answers is a matter of the
//! schema, the object type, the object, the name of the field and its arguments alone. [`DataObject`] answers out of plain
//! JSON data.
//!
//! [`leaf_misfit`], [`list_misfit`] and [`fitting_object`] judge a leaf, a list and an object by a type. A schema is only
//! assumed to be valid: a type that is not defined, or is an input object type, is a misfit that validation should have
//! found.
//!
//! The theory of execution (sections 6.3 and 6.4) stands here too: the places of a response, which of them are reached, where a
//! null falls, when data and errors are explained, and what execution gives. Its definitions are generic in a world, which tells
//! what groups a selection has and what comes of a group on an object. So they know nothing of documents, schemas or
//! introspection, nor of how fields are collected. The functions of [`laws`] do nothing when they run: their contracts are the
//! laws of these definitions.
#![tactic(auto)]

mod data_object;
mod data_shape;
mod fitting;
pub mod laws;
mod leaf;
mod messages;
mod misfit;
mod objects;
mod resolve_error;
mod resolve_info;
mod resolved_value;
mod resolver;
mod scalar;

pub use data_object::DataObject;
pub use fitting::{fitting_object, list_misfit};
pub use jb_text::Memory;
pub use leaf::leaf_misfit;
pub use messages::resolver_error;
pub use misfit::Misfit;
pub use resolve_error::{FieldError, ResolveError};
pub use resolve_info::{RequestInfo, ResolveInfo};
pub use resolved_value::ResolvedValue;
pub use resolver::ObjectValue;
