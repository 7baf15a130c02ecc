//! Nodes that are lists, in the rows around them.

ghost use Rattle.std.specs.Prelude.{◌≡◌, true, None};
ghost use Rattle.gql_ast_reader.specs.bridge.Items as kinds;
ghost use Rattle.gql_ast_reader.specs.bridge.Making as spec;
ghost use Rattle.gql_ast_reader.specs.bridge.Taking as taking;
ghost use Rattle.gql_ast_reader.specs.declared.part.Group.TheVariants as group;
ghost use Rattle.gql_ast_reader.specs.declared.part.Part.TheVariants as part;

use crate::row::Row;
use crate::row::keeping::keep_some;
use gql_ast_base::{Source, SyntaxKind};

/// A node that is a list comes in the row around it, which keeps the first of its sort.
pub(crate) fn deliver_list(source: &Source<'_>, kind: SyntaxKind, row: &mut Row, outer: &mut Row)
    requires { kinds.is_list kind ≡ true }
    ensures { outer.new ≡ taking.taken_if source.now.text.now source.now.file_id outer.old (spec.made source.now.text.now source.now.file_id kind row.old None) }
{
    match kind {
        SyntaxKind::Arguments => deliver_arguments(source, row, outer),
        SyntaxKind::Directives => deliver_directives(source, row, outer),
        SyntaxKind::SelectionSet => deliver_selections(source, row, outer),
        SyntaxKind::VariableDefinitions => deliver_variables(source, row, outer),
        SyntaxKind::ArgumentsDefinition => deliver_inputs(source, row, outer),
        SyntaxKind::InputFieldsDefinition => deliver_input_fields(source, row, outer),
        SyntaxKind::FieldsDefinition => deliver_fields(source, row, outer),
        SyntaxKind::EnumValuesDefinition => deliver_enum_values(source, row, outer),
        SyntaxKind::ImplementsInterfaces => deliver_interfaces(source, row, outer),
        SyntaxKind::UnionMemberTypes => deliver_members(source, row, outer),
        // No other kind comes here.
        _ => {}
    }
}

/// The arguments of a field or a directive.
fn deliver_arguments(source: &Source<'_>, row: &mut Row, outer: &mut Row)
    ensures { outer.new ≡ taking.taken source.now.text.now source.now.file_id outer.old (part.Group (group.Arguments (spec.own_arguments row.old.own))) }
{
    keep_some(
        &mut outer.groups.arguments,
        row.own.take_arguments(source.alloc),
    );
}

/// The directives of a node.
fn deliver_directives(source: &Source<'_>, row: &mut Row, outer: &mut Row)
    ensures { outer.new ≡ taking.taken source.now.text.now source.now.file_id outer.old (part.Group (group.Directives (spec.own_directives row.old.own))) }
{
    keep_some(
        &mut outer.groups.directives,
        row.own.take_directives(source.alloc),
    );
}

/// What is selected of a field, an operation or a fragment.
fn deliver_selections(source: &Source<'_>, row: &mut Row, outer: &mut Row)
    ensures { outer.new ≡ taking.taken source.now.text.now source.now.file_id outer.old (part.Group (group.Selections (spec.own_selections row.old.own))) }
{
    keep_some(
        &mut outer.groups.selections,
        row.own.take_selections(source.alloc),
    );
}

/// The variables of an operation.
fn deliver_variables(source: &Source<'_>, row: &mut Row, outer: &mut Row)
    ensures { outer.new ≡ taking.taken source.now.text.now source.now.file_id outer.old (part.Group (group.Variables (spec.own_variables row.old.own))) }
{
    keep_some(
        &mut outer.groups.variables,
        row.own.take_variables(source.alloc),
    );
}

/// The arguments that a field or a directive takes.
fn deliver_inputs(source: &Source<'_>, row: &mut Row, outer: &mut Row)
    ensures { outer.new ≡ taking.taken source.now.text.now source.now.file_id outer.old (part.Group (group.Inputs (spec.own_inputs row.old.own))) }
{
    keep_some(&mut outer.groups.inputs, row.own.take_inputs(source.alloc));
}

/// The fields of an input object type.
fn deliver_input_fields(source: &Source<'_>, row: &mut Row, outer: &mut Row)
    ensures { outer.new ≡ taking.taken source.now.text.now source.now.file_id outer.old (part.Group (group.InputFields (spec.own_inputs row.old.own))) }
{
    keep_some(
        &mut outer.groups.input_fields,
        row.own.take_inputs(source.alloc),
    );
}

/// The fields of an object type or an interface type.
fn deliver_fields(source: &Source<'_>, row: &mut Row, outer: &mut Row)
    ensures { outer.new ≡ taking.taken source.now.text.now source.now.file_id outer.old (part.Group (group.Fields (spec.own_fields row.old.own))) }
{
    keep_some(&mut outer.groups.fields, row.own.take_fields(source.alloc));
}

/// The values of an enum type.
fn deliver_enum_values(source: &Source<'_>, row: &mut Row, outer: &mut Row)
    ensures { outer.new ≡ taking.taken source.now.text.now source.now.file_id outer.old (part.Group (group.EnumValues (spec.own_enum_values row.old.own))) }
{
    keep_some(
        &mut outer.groups.enum_values,
        row.own.take_enum_values(source.alloc),
    );
}

/// The interfaces that a type implements.
fn deliver_interfaces(source: &Source<'_>, row: &mut Row, outer: &mut Row)
    ensures { outer.new ≡ taking.taken source.now.text.now source.now.file_id outer.old (part.Group (group.Interfaces (spec.own_names row.old.own))) }
{
    keep_some(
        &mut outer.groups.interfaces,
        row.own.take_names(source.alloc),
    );
}

/// The members of a union type.
fn deliver_members(source: &Source<'_>, row: &mut Row, outer: &mut Row)
    ensures { outer.new ≡ taking.taken source.now.text.now source.now.file_id outer.old (part.Group (group.Members (spec.own_names row.old.own))) }
{
    keep_some(&mut outer.groups.members, row.own.take_names(source.alloc));
}
