//! Schemas as data: their types and directives in tables, and the look-ups of fields, objects and implementers.
//!
//! A [`Table`] is a list of things with names of their own ([`Named`]), no two of one name, which contracts see as that
//! list. A [`Schema`] is plain data over such tables; [`Schema::type_field`] finds fields, those that the standard gives
//! to each type ([`MetaFields`]) too, and [`Schema::implementers_map`] says which types implement an interface.
#![tactic(auto)]

mod called;
mod implementers;
mod meta_fields;
mod named;
mod schema;
mod shared;
mod table;
mod types;
mod valid;

pub use called::{argument_called, directive_called, is_among};
pub use implementers::{Implementers, ImplementersMap};
pub use jb_text::Memory;
pub use meta_fields::MetaFields;
pub use named::Named;
pub use schema::{Schema, SchemaDefinition};
pub use shared::Shared;
pub use table::Table;
pub use types::{
    EnumType, ExtendedType, InputObjectType, InterfaceType, ObjectType, ScalarType, UnionType,
};
pub use valid::Valid;
