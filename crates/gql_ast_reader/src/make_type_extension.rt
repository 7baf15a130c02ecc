//! Extensions of types and of a schema, of what their rows keep: what is extended is in the second word, its name in the third.

ghost use Rattle.std.specs.Prelude.{◌≡◌, IfOk};
ghost use Rattle.std.specs.Option.{option_map};
ghost use Rattle.gql_ast.specs.declared.definition.Definition.TheVariants as definition;
ghost use Rattle.gql_ast_reader.specs.bridge.Extending as spec;

use crate::found::listed;
use crate::place::name_there;
use crate::row::Row;
use gql_ast::{
    Definition, EnumTypeExtension, InputObjectTypeExtension, InterfaceTypeExtension,
    ObjectTypeExtension, ScalarTypeExtension, SchemaExtension, UnionTypeExtension,
};
use gql_ast_base::Source;
use gql_source::SourceSpan;
use jb_text::{Listed, Memory};
use std::mem;

/// More of a schema.
pub(crate) fn make_schema_extension(
    source: &Source<'_>,
    row: &mut Row,
    location: Option<SourceSpan>,
) -> Definition
    ensures { result ≡ definition.SchemaExtension (spec.schema_extension_made source.now.text.now source.now.file_id row.old location) }
{
    Definition::SchemaExtension(SchemaExtension {
        directives: listed(source.alloc, &mut row.groups.directives),
        root_operations: mem::replace(&mut row.root_operations, Listed::new(source.alloc)),
        location,
    })
}

/// More of a scalar type. `Err` only where memory runs out.
pub(crate) fn make_scalar_extension(
    source: &Source<'_>,
    row: &mut Row,
    location: Option<SourceSpan>,
) -> Result<Option<Definition>, Memory>
    ensures { IfOk result (λ found. found ≡ option_map definition.ScalarTypeExtension (spec.scalar_extension_made source.now.text.now source.now.file_id row.old location)) }
{
    let Some(name) = name_there(source, row.words.three)? else {
        return Ok(None);
    };
    Ok(Some(Definition::ScalarTypeExtension(ScalarTypeExtension {
        name,
        directives: listed(source.alloc, &mut row.groups.directives),
        location,
    })))
}

/// More of an object type. `Err` only where memory runs out.
pub(crate) fn make_object_extension(
    source: &Source<'_>,
    row: &mut Row,
    location: Option<SourceSpan>,
) -> Result<Option<Definition>, Memory>
    ensures { IfOk result (λ found. found ≡ option_map definition.ObjectTypeExtension (spec.object_extension_made source.now.text.now source.now.file_id row.old location)) }
{
    let Some(name) = name_there(source, row.words.three)? else {
        return Ok(None);
    };
    Ok(Some(Definition::ObjectTypeExtension(ObjectTypeExtension {
        name,
        implements_interfaces: listed(source.alloc, &mut row.groups.interfaces),
        directives: listed(source.alloc, &mut row.groups.directives),
        fields: listed(source.alloc, &mut row.groups.fields),
        location,
    })))
}

/// More of an interface type. `Err` only where memory runs out.
pub(crate) fn make_interface_extension(
    source: &Source<'_>,
    row: &mut Row,
    location: Option<SourceSpan>,
) -> Result<Option<Definition>, Memory>
    ensures { IfOk result (λ found. found ≡ option_map definition.InterfaceTypeExtension (spec.interface_extension_made source.now.text.now source.now.file_id row.old location)) }
{
    let Some(name) = name_there(source, row.words.three)? else {
        return Ok(None);
    };
    Ok(Some(Definition::InterfaceTypeExtension(InterfaceTypeExtension {
        name,
        implements_interfaces: listed(source.alloc, &mut row.groups.interfaces),
        directives: listed(source.alloc, &mut row.groups.directives),
        fields: listed(source.alloc, &mut row.groups.fields),
        location,
    })))
}

/// More of a union type. `Err` only where memory runs out.
pub(crate) fn make_union_extension(
    source: &Source<'_>,
    row: &mut Row,
    location: Option<SourceSpan>,
) -> Result<Option<Definition>, Memory>
    ensures { IfOk result (λ found. found ≡ option_map definition.UnionTypeExtension (spec.union_extension_made source.now.text.now source.now.file_id row.old location)) }
{
    let Some(name) = name_there(source, row.words.three)? else {
        return Ok(None);
    };
    Ok(Some(Definition::UnionTypeExtension(UnionTypeExtension {
        name,
        directives: listed(source.alloc, &mut row.groups.directives),
        members: listed(source.alloc, &mut row.groups.members),
        location,
    })))
}

/// More of an enum type. `Err` only where memory runs out.
pub(crate) fn make_enum_extension(
    source: &Source<'_>,
    row: &mut Row,
    location: Option<SourceSpan>,
) -> Result<Option<Definition>, Memory>
    ensures { IfOk result (λ found. found ≡ option_map definition.EnumTypeExtension (spec.enum_extension_made source.now.text.now source.now.file_id row.old location)) }
{
    let Some(name) = name_there(source, row.words.three)? else {
        return Ok(None);
    };
    Ok(Some(Definition::EnumTypeExtension(EnumTypeExtension {
        name,
        directives: listed(source.alloc, &mut row.groups.directives),
        values: listed(source.alloc, &mut row.groups.enum_values),
        location,
    })))
}

/// More of an input object type. `Err` only where memory runs out.
pub(crate) fn make_input_object_extension(
    source: &Source<'_>,
    row: &mut Row,
    location: Option<SourceSpan>,
) -> Result<Option<Definition>, Memory>
    ensures { IfOk result (λ found. found ≡ option_map definition.InputObjectTypeExtension (spec.input_object_extension_made source.now.text.now source.now.file_id row.old location)) }
{
    let Some(name) = name_there(source, row.words.three)? else {
        return Ok(None);
    };
    Ok(Some(Definition::InputObjectTypeExtension(InputObjectTypeExtension {
        name,
        directives: listed(source.alloc, &mut row.groups.directives),
        fields: listed(source.alloc, &mut row.groups.input_fields),
        location,
    })))
}
