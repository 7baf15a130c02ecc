//! Values, in the rows around them.

ghost use Rattle.std.specs.Prelude.{◌≡◌, Some, OnOk};
ghost use Rattle.gql_ast_base.specs.declared.value.ValueKind.{List as ListKind, Object as ObjectKind};
ghost use Rattle.gql_ast_base.specs.declared.value.ValueKind.TheVariants.{Null};
ghost use Rattle.gql_ast_reader.specs.bridge.Making as spec;
ghost use Rattle.gql_ast_reader.specs.bridge.Taking as taking;
ghost use Rattle.gql_ast_reader.specs.declared.part.Item.TheVariants as item;
ghost use Rattle.gql_ast_reader.specs.declared.part.Part.TheVariants as part;

use crate::make_value::{make_boolean, make_list_value, make_object_value, make_pair, make_value};
use crate::row::Row;
use gql_ast_base::{Source, ValueKind};
use gql_source::SourceSpan;
use jb_text::Memory;

/// A value. `Err` only where memory runs out.
pub(crate) fn deliver_value(
    source: &Source<'_>,
    row: &mut Row,
    outer: &mut Row,
    location: Option<SourceSpan>,
) -> Result<(), Memory>
    ensures { OnOk result (outer.new ≡ taking.taken source.now.text.now source.now.file_id outer.old (part.Item (item.Value (spec.value_made row.old location)))) }
{
    outer
        .own
        .take_in_value(source.alloc, make_value(row, location))
}

/// A boolean value, as the content of a value.
pub(crate) fn deliver_boolean(source: &Source<'_>, row: &Row, outer: &mut Row)
    ensures { outer.new ≡ taking.taken source.now.text.now source.now.file_id outer.old (part.Item (item.Content (spec.boolean_made source.now.text.now row.now))) }
{
    outer.own.take_in_content(make_boolean(source.text, row));
}

/// A value that is null, as the content of a value.
pub(crate) fn deliver_null(source: &Source<'_>, outer: &mut Row)
    ensures { outer.new ≡ taking.taken source.now.text.now source.now.file_id outer.old (part.Item (item.Content (Some Null))) }
{
    outer.own.take_in_content(Some(ValueKind::Null));
}

/// A list, as the content of a value.
pub(crate) fn deliver_list_value(source: &Source<'_>, row: &mut Row, outer: &mut Row)
    ensures { outer.new ≡ taking.taken source.now.text.now source.now.file_id outer.old (part.Item (item.Content (Some (ListKind (spec.own_values row.old.own))))) }
{
    outer
        .own
        .take_in_content(make_list_value(source.alloc, row));
}

/// An object, as the content of a value.
pub(crate) fn deliver_object_value(source: &Source<'_>, row: &mut Row, outer: &mut Row)
    ensures { outer.new ≡ taking.taken source.now.text.now source.now.file_id outer.old (part.Item (item.Content (Some (ObjectKind (spec.own_pairs row.old.own))))) }
{
    outer
        .own
        .take_in_content(make_object_value(source.alloc, row));
}

/// A pair of an object. `Err` only where memory runs out.
pub(crate) fn deliver_pair(
    source: &Source<'_>,
    row: &mut Row,
    outer: &mut Row,
) -> Result<(), Memory>
    ensures { OnOk result (outer.new ≡ taking.taken source.now.text.now source.now.file_id outer.old (part.Item (item.Pair (spec.pair_made source.now.text.now source.now.file_id row.old)))) }
{
    let found = make_pair(source, row)?;
    outer.own.take_in_pair(source.alloc, found)
}
