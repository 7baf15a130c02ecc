//! The data: a library with one book.

use gql_engine::{
    ByteString, Number, ObjectValue, ResolveError, ResolveInfo, ResolvedValue, Value,
};
use std::alloc::Global;

/// The objects that a query can reach.
#[derive(Clone, Copy)]
pub enum Library {
    Root,
    Emma,
}

impl ObjectValue for Library {
    ghost use Rattle.example_resolver.specs.Library.{type_of, field_of};
    ghost use Rattle.example_resolver.specs.declared.library.Library.{Library};
    ghost use Rattle.gql_engine.specs.Resolving.{itself};

    ghost Seen = { Library };

    ghost seen = { itself };

    // What the two functions below are proved to give.
    ghost type_of = { type_of };

    ghost resolves = { λ _ _ object name _. field_of object name };

    fn type_name(&self) -> &str {
        match self {
            Library::Root => "Query",
            Library::Emma => "Book",
        }
    }

    fn resolve_field(
        &self,
        alloc: Global,
        info: &ResolveInfo<'_>,
    ) -> Result<ResolvedValue<Self>, ResolveError> {
        let value = match (self, info.field_name()) {
            (Library::Root, "book") => return Ok(ResolvedValue::Object(Library::Emma)),
            (Library::Emma, "title") => Value::String(ByteString::from_text(alloc, "Emma")?),
            (Library::Emma, "year") => Value::Number(Number::from_u64(1815)),
            _ => Value::Null,
        };
        Ok(ResolvedValue::Leaf(value))
    }
}
