//! Definitions and extensions, in the rows around them.

ghost use Rattle.std.specs.Prelude.{◌≡◌, true, Some, OnOk};
ghost use Rattle.std.specs.Option.{option_map};
ghost use Rattle.gql_ast.specs.declared.definition.Definition.TheVariants as definition;
ghost use Rattle.gql_ast_reader.specs.bridge.Items as kinds;
ghost use Rattle.gql_ast_reader.specs.bridge.Extending as extending;
ghost use Rattle.gql_ast_reader.specs.bridge.Making as spec;
ghost use Rattle.gql_ast_reader.specs.bridge.Taking as taking;
ghost use Rattle.gql_ast_reader.specs.declared.part.Item.TheVariants as item;
ghost use Rattle.gql_ast_reader.specs.declared.part.Part.TheVariants as part;

use crate::make_extension::make_extension;
use crate::make_operation::{make_fragment, make_operation_definition};
use crate::make_schema::{make_directive_definition, make_schema};
use crate::make_type_definition::{
    make_enum, make_input_object, make_interface, make_object, make_scalar, make_union,
};
use crate::row::Row;
use gql_ast_base::{Source, SyntaxKind};
use gql_source::SourceSpan;
use jb_text::Memory;

/// What a definition is comes in the row of the definition. `Err` only where memory runs out.
pub(crate) fn deliver_defined(
    source: &Source<'_>,
    kind: SyntaxKind,
    row: &mut Row,
    outer: &mut Row,
    location: Option<SourceSpan>,
) -> Result<(), Memory>
    requires { kinds.defines kind ≡ true }
    ensures { OnOk result (outer.new ≡ taking.taken_if source.now.text.now source.now.file_id outer.old (spec.made source.now.text.now source.now.file_id kind row.old location)) }
{
    match kind {
        SyntaxKind::OperationDefinition => deliver_operation_definition(
            source, row, outer, location,
        ),
        SyntaxKind::FragmentDefinition => deliver_fragment(source, row, outer, location),
        SyntaxKind::SchemaDefinition => {
            deliver_schema(source, row, outer, location);
            Ok(())
        }
        SyntaxKind::DirectiveDefinition => deliver_directive_definition(
            source, row, outer, location,
        ),
        SyntaxKind::ScalarTypeDefinition => deliver_scalar(source, row, outer, location),
        SyntaxKind::ObjectTypeDefinition => deliver_object(source, row, outer, location),
        SyntaxKind::InterfaceTypeDefinition => deliver_interface(source, row, outer, location),
        SyntaxKind::UnionTypeDefinition => deliver_union(source, row, outer, location),
        SyntaxKind::EnumTypeDefinition => deliver_enum(source, row, outer, location),
        SyntaxKind::InputObjectTypeDefinition => deliver_input_object(source, row, outer, location),
        SyntaxKind::Extension => deliver_extension(source, row, outer, location),
        // No other kind comes here.
        _ => Ok(()),
    }
}

/// A definition of a document. `Err` only where memory runs out.
pub(crate) fn deliver_definition(
    source: &Source<'_>,
    row: &mut Row,
    outer: &mut Row,
) -> Result<(), Memory>
    ensures { OnOk result (outer.new ≡ taking.taken source.now.text.now source.now.file_id outer.old (part.Item (item.Definition (spec.own_defined row.old.own)))) }
{
    let found = row.own.take_defined();
    outer.own.take_in_definition(source.alloc, found)
}

/// An operation. `Err` only where memory runs out.
fn deliver_operation_definition(
    source: &Source<'_>,
    row: &mut Row,
    outer: &mut Row,
    location: Option<SourceSpan>,
) -> Result<(), Memory>
    ensures { OnOk result (outer.new ≡ taking.taken source.now.text.now source.now.file_id outer.old (part.Item (item.Defined (option_map definition.OperationDefinition (spec.operation_definition_made source.now.text.now source.now.file_id row.old location))))) }
{
    let found = make_operation_definition(source, row, location)?;
    outer.own.take_in_defined(found);
    Ok(())
}

/// A fragment with a name. `Err` only where memory runs out.
fn deliver_fragment(
    source: &Source<'_>,
    row: &mut Row,
    outer: &mut Row,
    location: Option<SourceSpan>,
) -> Result<(), Memory>
    ensures { OnOk result (outer.new ≡ taking.taken source.now.text.now source.now.file_id outer.old (part.Item (item.Defined (option_map definition.FragmentDefinition (spec.fragment_made source.now.text.now source.now.file_id row.old location))))) }
{
    let found = make_fragment(source, row, location)?;
    outer.own.take_in_defined(found);
    Ok(())
}

/// The root operation types of a schema.
fn deliver_schema(source: &Source<'_>, row: &mut Row, outer: &mut Row, location: Option<SourceSpan>)
    ensures { outer.new ≡ taking.taken source.now.text.now source.now.file_id outer.old (part.Item (item.Defined (Some (definition.SchemaDefinition (spec.schema_made source.now.text.now source.now.file_id row.old location))))) }
{
    let found = make_schema(source, row, location);
    outer.own.take_in_defined(Some(found));
}

/// A directive that may be used. `Err` only where memory runs out.
fn deliver_directive_definition(
    source: &Source<'_>,
    row: &mut Row,
    outer: &mut Row,
    location: Option<SourceSpan>,
) -> Result<(), Memory>
    ensures { OnOk result (outer.new ≡ taking.taken source.now.text.now source.now.file_id outer.old (part.Item (item.Defined (option_map definition.DirectiveDefinition (spec.directive_definition_made source.now.text.now source.now.file_id row.old location))))) }
{
    let found = make_directive_definition(source, row, location)?;
    outer.own.take_in_defined(found);
    Ok(())
}

/// A scalar type. `Err` only where memory runs out.
fn deliver_scalar(
    source: &Source<'_>,
    row: &mut Row,
    outer: &mut Row,
    location: Option<SourceSpan>,
) -> Result<(), Memory>
    ensures { OnOk result (outer.new ≡ taking.taken source.now.text.now source.now.file_id outer.old (part.Item (item.Defined (option_map definition.ScalarTypeDefinition (spec.scalar_made source.now.text.now source.now.file_id row.old location))))) }
{
    let found = make_scalar(source, row, location)?;
    outer.own.take_in_defined(found);
    Ok(())
}

/// An object type. `Err` only where memory runs out.
fn deliver_object(
    source: &Source<'_>,
    row: &mut Row,
    outer: &mut Row,
    location: Option<SourceSpan>,
) -> Result<(), Memory>
    ensures { OnOk result (outer.new ≡ taking.taken source.now.text.now source.now.file_id outer.old (part.Item (item.Defined (option_map definition.ObjectTypeDefinition (spec.object_made source.now.text.now source.now.file_id row.old location))))) }
{
    let found = make_object(source, row, location)?;
    outer.own.take_in_defined(found);
    Ok(())
}

/// An interface type. `Err` only where memory runs out.
fn deliver_interface(
    source: &Source<'_>,
    row: &mut Row,
    outer: &mut Row,
    location: Option<SourceSpan>,
) -> Result<(), Memory>
    ensures { OnOk result (outer.new ≡ taking.taken source.now.text.now source.now.file_id outer.old (part.Item (item.Defined (option_map definition.InterfaceTypeDefinition (spec.interface_made source.now.text.now source.now.file_id row.old location))))) }
{
    let found = make_interface(source, row, location)?;
    outer.own.take_in_defined(found);
    Ok(())
}

/// A union type. `Err` only where memory runs out.
fn deliver_union(
    source: &Source<'_>,
    row: &mut Row,
    outer: &mut Row,
    location: Option<SourceSpan>,
) -> Result<(), Memory>
    ensures { OnOk result (outer.new ≡ taking.taken source.now.text.now source.now.file_id outer.old (part.Item (item.Defined (option_map definition.UnionTypeDefinition (spec.union_made source.now.text.now source.now.file_id row.old location))))) }
{
    let found = make_union(source, row, location)?;
    outer.own.take_in_defined(found);
    Ok(())
}

/// An enum type. `Err` only where memory runs out.
fn deliver_enum(
    source: &Source<'_>,
    row: &mut Row,
    outer: &mut Row,
    location: Option<SourceSpan>,
) -> Result<(), Memory>
    ensures { OnOk result (outer.new ≡ taking.taken source.now.text.now source.now.file_id outer.old (part.Item (item.Defined (option_map definition.EnumTypeDefinition (spec.enum_made source.now.text.now source.now.file_id row.old location))))) }
{
    let found = make_enum(source, row, location)?;
    outer.own.take_in_defined(found);
    Ok(())
}

/// An input object type. `Err` only where memory runs out.
fn deliver_input_object(
    source: &Source<'_>,
    row: &mut Row,
    outer: &mut Row,
    location: Option<SourceSpan>,
) -> Result<(), Memory>
    ensures { OnOk result (outer.new ≡ taking.taken source.now.text.now source.now.file_id outer.old (part.Item (item.Defined (option_map definition.InputObjectTypeDefinition (spec.input_object_made source.now.text.now source.now.file_id row.old location))))) }
{
    let found = make_input_object(source, row, location)?;
    outer.own.take_in_defined(found);
    Ok(())
}

/// An extension. `Err` only where memory runs out.
fn deliver_extension(
    source: &Source<'_>,
    row: &mut Row,
    outer: &mut Row,
    location: Option<SourceSpan>,
) -> Result<(), Memory>
    ensures { OnOk result (outer.new ≡ taking.taken source.now.text.now source.now.file_id outer.old (part.Item (item.Defined (extending.extension_made source.now.text.now source.now.file_id row.old location)))) }
{
    let found = make_extension(source, row, location)?;
    outer.own.take_in_defined(found);
    Ok(())
}
