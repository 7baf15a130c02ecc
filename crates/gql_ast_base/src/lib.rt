//! The trait [`Convert`], and what the syntax trees of GraphQL documents begin with: names, texts, operation types, values,
//! references to types, arguments and directives, each with its conversion.
//!
//! What a concrete tree stands for is a definition, kind by kind of its nodes, and a conversion gives exactly that. A
//! [`Source`] is what trees are read by: their text, the number of its file, and where memory comes from.
//! [`gather`] and [`first`] convert the trees of a row, [`child`] and [`inside`] find one by its kind, [`nth_name`] and its
//! like find one by its place among the names. [`location`] runs from the first to the last token that is not ignored.
//! [`both`] and its like bring together the parts of a tree. [`Copying`] gives an equal tree, locations included. The kinds of nodes
//! and the concrete trees themselves are passed on.
//!
//! Each tree is plain data with public fields. A tree has a `location` where it was read from a text, and none where
//! it was made.
#![tactic(auto)]

mod boxed;
mod convert;
mod copying;
mod directive;
mod literal;
mod literal_value;
mod name;
mod named_type;
mod node;
mod operation_type;
mod source;
mod together;
mod token;
mod type_parts;
mod type_ref;
mod value;

pub use boxed::Boxed;
pub use convert::{Convert, first, gather};
pub use copying::Copying;
pub use directive::{Argument, Directive, arguments, directives};
pub use gql_cst::{SyntaxKind, Tree};
pub use jb_text::Memory;
pub use literal::{description, opens_number, opens_string, string_text};
pub use literal_value::literal_kind;
pub use name::{Name, NameFault};
pub use named_type::{named_type_in, named_types};
pub use node::{child, inside, is_of, location};
pub use operation_type::{OperationType, operation_type_in, operation_word};
pub use source::Source;
pub use together::{all_four, all_three, both};
pub use token::{after_word, is_word, nth_name, nth_text, piece, word};
pub use type_ref::{TypeRef, list_of, non_null};
pub use value::{Value, ValueKind, default_value, truth};
