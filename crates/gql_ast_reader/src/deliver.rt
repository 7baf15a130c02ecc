//! What an ended node comes to in the row around it, by its kind.
//!
//! Each kind has a function, in which what is made of its row is a local: what a table over the kinds held would be made room for at each node.

ghost use Rattle.std.specs.Prelude.{◌≡◌, true, None, OnOk};
ghost use Rattle.gql_ast_reader.specs.bridge.Items as kinds;
ghost use Rattle.gql_ast_reader.specs.bridge.Making as spec;
ghost use Rattle.gql_ast_reader.specs.bridge.Taking as taking;

use crate::found::joined;
use crate::part::Role;
use crate::row::Row;
use gql_ast_base::{Source, SyntaxKind};
use gql_source::SourceSpan;
use jb_text::Memory;

mod definitions;
mod fields;
mod lists;
mod selections;
mod singles;
mod values;

use crate::deliver::definitions::{deliver_defined, deliver_definition};
use crate::deliver::fields::{
    deliver_enum_value, deliver_field_definition, deliver_input, deliver_variable,
};
use crate::deliver::lists::deliver_list;
use crate::deliver::selections::{
    deliver_argument, deliver_directive, deliver_field, deliver_inline, deliver_selection,
    deliver_spread,
};
use crate::deliver::singles::{
    deliver_default_value, deliver_description, deliver_list_type, deliver_non_null_type,
    deliver_operation, deliver_root_operation, deliver_type,
};
use crate::deliver::values::{
    deliver_boolean, deliver_list_value, deliver_null, deliver_object_value, deliver_pair,
    deliver_value,
};

/// What an ended node of the kind is, of what its own row kept and of its place in the file, comes in the row around it. What is
/// left in its own row does not matter. `Err` only where memory runs out.
pub(crate) fn deliver(
    source: &Source<'_>,
    kind: SyntaxKind,
    row: &mut Row,
    outer: &mut Row,
    location: Option<SourceSpan>,
) -> Result<(), Memory>
    ensures { OnOk result (outer.new ≡ taking.taken_if source.now.text.now source.now.file_id outer.old (spec.made source.now.text.now source.now.file_id kind row.old location)) }
{
    match kind {
        SyntaxKind::Token | SyntaxKind::Ignored | SyntaxKind::Document | SyntaxKind::FieldSet => {
            Ok(())
        }
        SyntaxKind::Alias
        | SyntaxKind::FragmentName
        | SyntaxKind::TypeCondition
        | SyntaxKind::EnumValue
        | SyntaxKind::Variable
        | SyntaxKind::NamedType => deliver_named(source, kind, row, outer),
        SyntaxKind::OperationType
        | SyntaxKind::RootOperationTypeDefinition
        | SyntaxKind::TypeReference
        | SyntaxKind::ListType
        | SyntaxKind::NonNullType
        | SyntaxKind::DefaultValue
        | SyntaxKind::Description => deliver_single(source, kind, row, outer),
        SyntaxKind::Arguments
        | SyntaxKind::Directives
        | SyntaxKind::SelectionSet
        | SyntaxKind::VariableDefinitions
        | SyntaxKind::ArgumentsDefinition
        | SyntaxKind::InputFieldsDefinition
        | SyntaxKind::FieldsDefinition
        | SyntaxKind::EnumValuesDefinition
        | SyntaxKind::ImplementsInterfaces
        | SyntaxKind::UnionMemberTypes => {
            deliver_list(source, kind, row, outer);
            Ok(())
        }
        _ => deliver_item(source, kind, row, outer, location),
    }
}

/// The same of a node with one name in it. `Err` only where memory runs out.
fn deliver_named(
    source: &Source<'_>,
    kind: SyntaxKind,
    row: &Row,
    outer: &mut Row,
) -> Result<(), Memory>
    requires { kinds.is_named kind ≡ true }
    ensures { OnOk result (outer.new ≡ taking.taken_if source.now.text.now source.now.file_id outer.old (spec.made source.now.text.now source.now.file_id kind row.now None)) }
{
    match kind {
        SyntaxKind::Alias => outer.take_named(source, Role::Alias, row.words.one),
        SyntaxKind::FragmentName => outer.take_named(source, Role::FragmentName, row.words.one),
        SyntaxKind::TypeCondition => outer.take_named(
            source,
            Role::TypeCondition,
            joined(row.roles.named_type),
        ),
        SyntaxKind::EnumValue => outer.take_named(source, Role::EnumValue, row.words.one),
        SyntaxKind::Variable => outer.take_named(source, Role::Variable, row.words.one),
        SyntaxKind::NamedType => outer.take_named(source, Role::NamedType, row.words.one),
        // No other kind comes here.
        _ => Ok(()),
    }
}

/// The same of a node of which a row keeps the first of its sort, and that is no list. `Err` only where memory runs out.
fn deliver_single(
    source: &Source<'_>,
    kind: SyntaxKind,
    row: &mut Row,
    outer: &mut Row,
) -> Result<(), Memory>
    requires { kinds.is_single kind ≡ true }
    ensures { OnOk result (outer.new ≡ taking.taken_if source.now.text.now source.now.file_id outer.old (spec.made source.now.text.now source.now.file_id kind row.old None)) }
{
    match kind {
        SyntaxKind::RootOperationTypeDefinition => {
            return deliver_root_operation(source, row, outer);
        }
        SyntaxKind::ListType => return deliver_list_type(source, row, outer),
        SyntaxKind::OperationType => deliver_operation(source, row, outer),
        SyntaxKind::TypeReference => deliver_type(source, row, outer),
        SyntaxKind::NonNullType => deliver_non_null_type(source, row, outer),
        SyntaxKind::DefaultValue => deliver_default_value(source, row, outer),
        SyntaxKind::Description => deliver_description(source, row, outer),
        // No other kind comes here.
        _ => {}
    }
    Ok(())
}

/// The same of a node that is one of many of its sort, or what the node around it is. `Err` only where memory runs out.
fn deliver_item(
    source: &Source<'_>,
    kind: SyntaxKind,
    row: &mut Row,
    outer: &mut Row,
    location: Option<SourceSpan>,
) -> Result<(), Memory>
    requires { kinds.is_item kind ≡ true }
    ensures { OnOk result (outer.new ≡ taking.taken_if source.now.text.now source.now.file_id outer.old (spec.made source.now.text.now source.now.file_id kind row.old location)) }
{
    match kind {
        SyntaxKind::Value => deliver_value(source, row, outer, location),
        SyntaxKind::BooleanValue => {
            deliver_boolean(source, row, outer);
            Ok(())
        }
        SyntaxKind::NullValue => {
            deliver_null(source, outer);
            Ok(())
        }
        SyntaxKind::ListValue => {
            deliver_list_value(source, row, outer);
            Ok(())
        }
        SyntaxKind::ObjectValue => {
            deliver_object_value(source, row, outer);
            Ok(())
        }
        SyntaxKind::ObjectField => deliver_pair(source, row, outer),
        SyntaxKind::Argument => deliver_argument(source, row, outer, location),
        SyntaxKind::Directive => deliver_directive(source, row, outer, location),
        SyntaxKind::Field => deliver_field(source, row, outer, location),
        SyntaxKind::FragmentSpread => deliver_spread(source, row, outer, location),
        SyntaxKind::InlineFragment => deliver_inline(source, row, outer, location),
        SyntaxKind::Selection => deliver_selection(source, row, outer),
        SyntaxKind::VariableDefinition => deliver_variable(source, row, outer, location),
        SyntaxKind::InputValueDefinition => deliver_input(source, row, outer, location),
        SyntaxKind::FieldDefinition => deliver_field_definition(source, row, outer, location),
        SyntaxKind::EnumValueDefinition => deliver_enum_value(source, row, outer, location),
        SyntaxKind::Definition => deliver_definition(source, row, outer),
        _ => deliver_defined(source, kind, row, outer, location),
    }
}
