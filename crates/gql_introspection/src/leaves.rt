//! Leaves.

ghost use Rattle.std.specs.Prelude.{◌≡◌, IfOk};
ghost use Rattle.std.specs.Option.{option_copied};
ghost use Rattle.gql_resolvers.specs.Meaning.{meaning_by};
ghost use Rattle.gql_introspection.specs.Answers as spec;
ghost use Rattle.gql_introspection.specs.Seen.{stands_for};
ghost use Rattle.gql_introspection.specs.bridge.Seen.{Gives};

use crate::meta_object::MetaObject;
use bytes::Bytes;
use gql_ast_base::Name;
use gql_resolvers::ResolvedValue;
use jb_text::{ByteString, Memory, Text};
use jb_tree::Value;
use std::alloc::Global;

/// A text.
pub(crate) fn text_leaf<'a>(
    alloc: Global,
    text: &str,
) -> Result<ResolvedValue<MetaObject<'a>>, Memory>
    ensures { Gives result (spec.text_leaf text.now) }
{
    Ok(ResolvedValue::Leaf(Value::from_text(alloc, text)?))
}

/// A constant text, which is shared and not copied.
pub(crate) fn constant_leaf<'a>(
    alloc: Global,
    text: &'static str,
) -> Result<ResolvedValue<MetaObject<'a>>, Memory>
    ensures { Gives result (spec.text_leaf text.now) }
{
    Ok(ResolvedValue::Leaf(Value::String(constant(alloc, text)?)))
}

/// A constant text, or null where there is none.
pub(crate) fn constant_or_null<'a>(
    alloc: Global,
    text: Option<&'static str>,
) -> Result<ResolvedValue<MetaObject<'a>>, Memory>
    ensures { Gives result (spec.text_or_null (option_copied text.entry)) }
{
    match text {
        Some(text) => constant_leaf(alloc, text),
        None => Ok(null_leaf()),
    }
}

/// A constant as a text of the response: its bytes stay where they are.
fn constant(alloc: Global, text: &'static str) -> Result<ByteString, Memory>
    ensures { IfOk result (λ made. made ≡ text.now) }
{
    let bytes = Bytes::from_static(text.as_bytes());
    ByteString::shared(alloc, &bytes, 0..bytes.len())
}

/// The text of a name, which is shared and not copied.
pub(crate) fn name_leaf<'a>(
    alloc: Global,
    name: &Name,
) -> Result<ResolvedValue<MetaObject<'a>>, Memory>
    ensures { Gives result (spec.text_leaf name.now.text) }
{
    Ok(ResolvedValue::Leaf(Value::String(name.text().copy(alloc)?)))
}

/// A text, or null where there is none.
pub(crate) fn text_or_null<'a>(
    alloc: Global,
    text: Option<&str>,
) -> Result<ResolvedValue<MetaObject<'a>>, Memory>
    ensures { Gives result (spec.text_or_null (option_copied text.entry)) }
{
    match text {
        Some(text) => text_leaf(alloc, text),
        None => Ok(ResolvedValue::Leaf(Value::Null)),
    }
}

/// A description, or null where there is none.
pub(crate) fn description_or_null<'a>(
    alloc: Global,
    description: Option<&Text>,
) -> Result<ResolvedValue<MetaObject<'a>>, Memory>
    ensures { Gives result (spec.text_or_null (option_copied description.entry)) }
{
    match description {
        Some(text) => text_leaf(alloc, text.as_str()),
        None => Ok(ResolvedValue::Leaf(Value::Null)),
    }
}

/// A truth value.
pub(crate) fn truth_leaf<'a>(truth: bool) -> ResolvedValue<MetaObject<'a>>
    ensures { meaning_by stands_for result ≡ spec.truth_leaf truth }
{
    ResolvedValue::Leaf(Value::Bool(truth))
}

/// Null.
pub(crate) fn null_leaf<'a>() -> ResolvedValue<MetaObject<'a>>
    ensures { meaning_by stands_for result ≡ spec.null_leaf }
{
    ResolvedValue::Leaf(Value::Null)
}
