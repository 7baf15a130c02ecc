//! Definitions of fields, arguments and enum values, of what their rows keep.

ghost use Rattle.std.specs.Prelude.{◌≡◌, IfOk};
ghost use Rattle.gql_ast_reader.specs.bridge.Making as spec;

use crate::found::{joined, listed};
use crate::place::name_there;
use crate::row::Row;
use gql_ast::{EnumValueDefinition, FieldDefinition, InputValueDefinition};
use gql_ast_base::Source;
use gql_source::SourceSpan;
use jb_text::Memory;

/// An argument of a field or a directive, or a field of an input object type. `Err` only where memory runs out.
pub(crate) fn make_input(
    source: &Source<'_>,
    row: &mut Row,
    location: Option<SourceSpan>,
) -> Result<Option<InputValueDefinition>, Memory>
    ensures { IfOk result (λ found. found ≡ spec.input_made source.now.text.now source.now.file_id row.old location) }
{
    let Some(name) = name_there(source, row.words.one)? else {
        return Ok(None);
    };
    let Some(ty) = row.singles.ty.take() else {
        return Ok(None);
    };
    Ok(Some(InputValueDefinition {
        description: joined(row.singles.description.take()),
        name,
        ty,
        default_value: joined(row.singles.default_value.take()),
        directives: listed(source.alloc, &mut row.groups.directives),
        location,
    }))
}

/// A field of an object type or an interface type. `Err` only where memory runs out.
pub(crate) fn make_field_definition(
    source: &Source<'_>,
    row: &mut Row,
    location: Option<SourceSpan>,
) -> Result<Option<FieldDefinition>, Memory>
    ensures { IfOk result (λ found. found ≡ spec.field_definition_made source.now.text.now source.now.file_id row.old location) }
{
    let Some(name) = name_there(source, row.words.one)? else {
        return Ok(None);
    };
    let Some(ty) = row.singles.ty.take() else {
        return Ok(None);
    };
    Ok(Some(FieldDefinition {
        description: joined(row.singles.description.take()),
        name,
        arguments: listed(source.alloc, &mut row.groups.inputs),
        ty,
        directives: listed(source.alloc, &mut row.groups.directives),
        location,
    }))
}

/// A value of an enum type. `Err` only where memory runs out.
pub(crate) fn make_enum_value(
    source: &Source<'_>,
    row: &mut Row,
    location: Option<SourceSpan>,
) -> Result<Option<EnumValueDefinition>, Memory>
    ensures { IfOk result (λ found. found ≡ spec.enum_value_made source.now.text.now source.now.file_id row.old location) }
{
    let Some(value) = name_there(source, joined(row.roles.enum_value))? else {
        return Ok(None);
    };
    Ok(Some(EnumValueDefinition {
        description: joined(row.singles.description.take()),
        value,
        directives: listed(source.alloc, &mut row.groups.directives),
        location,
    }))
}
