//! What resolvers give.

ghost use Rattle.std.specs.Prelude.{◌≡◌, IfOk, Ok, map};
ghost use Rattle.std.specs.Option.{option_map_or};
ghost use Rattle.jb_tree.specs.declared.value.Value.TheVariants as json;
ghost use Rattle.gql_resolvers.specs.declared.resolved_value.ResolvedValue.TheVariants as value;

use crate::resolve_error::FieldError;
use jb_text::{Listed, Memory};
use jb_tree::Value;
use std::alloc::Global;

/// What a resolver gives for a field (GraphQL October 2021, section 6.4.2).
#[derive(Drop)]
pub enum ResolvedValue<O> {
    /// A JSON value as it stands, null among them, which is completed by the field's type (section 6.4.3).
    Leaf(Value),
    /// An object, whose fields are resolved in turn.
    Object(O),
    /// A list, of which an item may have failed.
    List(Listed<Result<ResolvedValue<O>, FieldError>>),
    /// The field or item is left out of the response.
    SkipForPartialExecution,
}

impl<O> ResolvedValue<O> {
    /// Null.
    #[must_use]
    pub fn null() -> ResolvedValue<O>
        ensures { result ≡ value.Leaf json.Null }
    {
        ResolvedValue::Leaf(Value::Null)
    }

    /// A JSON value as it stands.
    #[must_use]
    pub fn leaf(json: Value) -> ResolvedValue<O>
        ensures { result ≡ value.Leaf json }
    {
        ResolvedValue::Leaf(json)
    }

    /// An object.
    #[must_use]
    pub fn object(object: O) -> ResolvedValue<O>
        ensures { result ≡ value.Object object }
    {
        ResolvedValue::Object(object)
    }

    /// An object, or null where there is none.
    #[must_use]
    pub fn nullable_object(object: Option<O>) -> ResolvedValue<O>
        ensures { result ≡ option_map_or (λ it. value.Object it) object (value.Leaf json.Null) }
    {
        match object {
            Some(object) => ResolvedValue::Object(object),
            None => ResolvedValue::Leaf(Value::Null),
        }
    }
}

impl<O: Drop> ResolvedValue<O> {
    /// A list of these values, none of which failed. `Err` only when out of memory.
    pub fn list(alloc: Global, items: Listed<ResolvedValue<O>>) -> Result<ResolvedValue<O>, Memory>
        ensures { IfOk result (λ made. made ≡ value.List (map Ok items)) }
    {
        let mut made = Listed::new(alloc);
        for item in items {
            made.push(Ok(item))?;
        }
        Ok(ResolvedValue::List(made))
    }
}
