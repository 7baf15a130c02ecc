//! Values, of what their rows keep.

ghost use Rattle.std.specs.Prelude.{◌≡◌, Some, IfOk};
ghost use Rattle.gql_ast_base.specs.declared.value.ValueKind.{List as ListKind, Object as ObjectKind};
ghost use Rattle.gql_ast_reader.specs.bridge.Making as spec;

use crate::place::{name_there, text_there};
use crate::row::Row;
use gql_ast_base::{Name, Source, Value, ValueKind, truth};
use gql_source::SourceSpan;
use jb_text::Memory;
use std::alloc::Global;

/// A value, of its content.
pub(crate) fn make_value(row: &mut Row, location: Option<SourceSpan>) -> Option<Value>
    ensures { result ≡ spec.value_made row.old location }
{
    match row.own.take_content() {
        Some(kind) => Some(Value { kind, location }),
        None => None,
    }
}

/// The content of a boolean value.
pub(crate) fn make_boolean(text: &str, row: &Row) -> Option<ValueKind>
    ensures { result ≡ spec.boolean_made text.now row.now }
{
    let found = text_there(text, row.words.one)?;
    let truth = truth(found)?;
    Some(ValueKind::Boolean(truth))
}

/// The content of a list value.
pub(crate) fn make_list_value(alloc: Global, row: &mut Row) -> Option<ValueKind>
    ensures { result ≡ Some (ListKind (spec.own_values row.old.own)) }
{
    Some(ValueKind::List(row.own.take_values(alloc)))
}

/// The content of an object value.
pub(crate) fn make_object_value(alloc: Global, row: &mut Row) -> Option<ValueKind>
    ensures { result ≡ Some (ObjectKind (spec.own_pairs row.old.own)) }
{
    Some(ValueKind::Object(row.own.take_pairs(alloc)))
}

/// A pair of an object: its name and its value. `Err` only where memory runs out.
pub(crate) fn make_pair(source: &Source<'_>, row: &mut Row) -> Result<Option<(Name, Value)>, Memory>
    ensures { IfOk result (λ found. found ≡ spec.pair_made source.now.text.now source.now.file_id row.old) }
{
    let Some(name) = name_there(source, row.words.one)? else {
        return Ok(None);
    };
    match row.own.take_value() {
        Some(value) => Ok(Some((name, value))),
        None => Ok(None),
    }
}
