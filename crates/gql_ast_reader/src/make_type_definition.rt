//! Definitions of types, of what their rows keep: each has its name in the second word.

ghost use Rattle.std.specs.Prelude.{◌≡◌, IfOk};
ghost use Rattle.std.specs.Option.{option_map};
ghost use Rattle.gql_ast.specs.declared.definition.Definition.TheVariants as definition;
ghost use Rattle.gql_ast_reader.specs.bridge.Making as spec;

use crate::found::{joined, listed};
use crate::place::name_there;
use crate::row::Row;
use gql_ast::{
    Definition, EnumTypeDefinition, InputObjectTypeDefinition, InterfaceTypeDefinition,
    ObjectTypeDefinition, ScalarTypeDefinition, UnionTypeDefinition,
};
use gql_ast_base::Source;
use gql_source::SourceSpan;
use jb_text::Memory;

/// A scalar type. `Err` only where memory runs out.
pub(crate) fn make_scalar(
    source: &Source<'_>,
    row: &mut Row,
    location: Option<SourceSpan>,
) -> Result<Option<Definition>, Memory>
    ensures { IfOk result (λ found. found ≡ option_map definition.ScalarTypeDefinition (spec.scalar_made source.now.text.now source.now.file_id row.old location)) }
{
    let Some(name) = name_there(source, row.words.two)? else {
        return Ok(None);
    };
    Ok(Some(Definition::ScalarTypeDefinition(ScalarTypeDefinition {
        description: joined(row.singles.description.take()),
        name,
        directives: listed(source.alloc, &mut row.groups.directives),
        location,
    })))
}

/// An object type. `Err` only where memory runs out.
pub(crate) fn make_object(
    source: &Source<'_>,
    row: &mut Row,
    location: Option<SourceSpan>,
) -> Result<Option<Definition>, Memory>
    ensures { IfOk result (λ found. found ≡ option_map definition.ObjectTypeDefinition (spec.object_made source.now.text.now source.now.file_id row.old location)) }
{
    let Some(name) = name_there(source, row.words.two)? else {
        return Ok(None);
    };
    Ok(Some(Definition::ObjectTypeDefinition(ObjectTypeDefinition {
        description: joined(row.singles.description.take()),
        name,
        implements_interfaces: listed(source.alloc, &mut row.groups.interfaces),
        directives: listed(source.alloc, &mut row.groups.directives),
        fields: listed(source.alloc, &mut row.groups.fields),
        location,
    })))
}

/// An interface type. `Err` only where memory runs out.
pub(crate) fn make_interface(
    source: &Source<'_>,
    row: &mut Row,
    location: Option<SourceSpan>,
) -> Result<Option<Definition>, Memory>
    ensures { IfOk result (λ found. found ≡ option_map definition.InterfaceTypeDefinition (spec.interface_made source.now.text.now source.now.file_id row.old location)) }
{
    let Some(name) = name_there(source, row.words.two)? else {
        return Ok(None);
    };
    Ok(Some(Definition::InterfaceTypeDefinition(InterfaceTypeDefinition {
        description: joined(row.singles.description.take()),
        name,
        implements_interfaces: listed(source.alloc, &mut row.groups.interfaces),
        directives: listed(source.alloc, &mut row.groups.directives),
        fields: listed(source.alloc, &mut row.groups.fields),
        location,
    })))
}

/// A union type. `Err` only where memory runs out.
pub(crate) fn make_union(
    source: &Source<'_>,
    row: &mut Row,
    location: Option<SourceSpan>,
) -> Result<Option<Definition>, Memory>
    ensures { IfOk result (λ found. found ≡ option_map definition.UnionTypeDefinition (spec.union_made source.now.text.now source.now.file_id row.old location)) }
{
    let Some(name) = name_there(source, row.words.two)? else {
        return Ok(None);
    };
    Ok(Some(Definition::UnionTypeDefinition(UnionTypeDefinition {
        description: joined(row.singles.description.take()),
        name,
        directives: listed(source.alloc, &mut row.groups.directives),
        members: listed(source.alloc, &mut row.groups.members),
        location,
    })))
}

/// An enum type. `Err` only where memory runs out.
pub(crate) fn make_enum(
    source: &Source<'_>,
    row: &mut Row,
    location: Option<SourceSpan>,
) -> Result<Option<Definition>, Memory>
    ensures { IfOk result (λ found. found ≡ option_map definition.EnumTypeDefinition (spec.enum_made source.now.text.now source.now.file_id row.old location)) }
{
    let Some(name) = name_there(source, row.words.two)? else {
        return Ok(None);
    };
    Ok(Some(Definition::EnumTypeDefinition(EnumTypeDefinition {
        description: joined(row.singles.description.take()),
        name,
        directives: listed(source.alloc, &mut row.groups.directives),
        values: listed(source.alloc, &mut row.groups.enum_values),
        location,
    })))
}

/// An input object type. `Err` only where memory runs out.
pub(crate) fn make_input_object(
    source: &Source<'_>,
    row: &mut Row,
    location: Option<SourceSpan>,
) -> Result<Option<Definition>, Memory>
    ensures { IfOk result (λ found. found ≡ option_map definition.InputObjectTypeDefinition (spec.input_object_made source.now.text.now source.now.file_id row.old location)) }
{
    let Some(name) = name_there(source, row.words.two)? else {
        return Ok(None);
    };
    Ok(Some(Definition::InputObjectTypeDefinition(InputObjectTypeDefinition {
        description: joined(row.singles.description.take()),
        name,
        directives: listed(source.alloc, &mut row.groups.directives),
        fields: listed(source.alloc, &mut row.groups.input_fields),
        location,
    })))
}
