//! Operations, fragments and selections.

use crate::trees::description::Description;
use crate::trees::values::{arguments, default_value, directives, type_line};
use gql_ast::{
    Field, FragmentDefinition, FragmentSpread, InlineFragment, OperationDefinition, OperationType,
    Selection, VariableDefinition,
};
use jb_text::Listed;

pub(crate) fn operation_definition(out: &mut Description<'_>, operation: &OperationDefinition) {
    out.open("OperationDefinition", operation.location);
    out.line("operation_type", operation_word(operation.operation_type));
    out.name_opt("name", &operation.name);
    variables(out, &operation.variables);
    directives(out, &operation.directives);
    selections(out, &operation.selection_set);
    out.close();
}

pub(crate) fn operation_word(operation_type: OperationType) -> &'static str {
    match operation_type {
        OperationType::Query => "Query",
        OperationType::Mutation => "Mutation",
        OperationType::Subscription => "Subscription",
    }
}

fn variables(out: &mut Description<'_>, variables: &Listed<VariableDefinition>) {
    for variable in variables.as_slice() {
        out.open("variable", variable.location);
        out.name("name", &variable.name);
        type_line(out, &variable.ty);
        default_value(out, &variable.default_value);
        directives(out, &variable.directives);
        out.close();
    }
}

pub(crate) fn fragment_definition(out: &mut Description<'_>, fragment: &FragmentDefinition) {
    out.open("FragmentDefinition", fragment.location);
    out.name("name", &fragment.name);
    out.name("type_condition", &fragment.type_condition);
    directives(out, &fragment.directives);
    selections(out, &fragment.selection_set);
    out.close();
}

#[cycle(selection)]
fn selections(out: &mut Description<'_>, selections: &Listed<Selection>) {
    for selection in selections.as_slice() {
        match selection {
            Selection::Field(it) => field(out, it),
            Selection::FragmentSpread(it) => fragment_spread(out, it),
            Selection::InlineFragment(it) => inline_fragment(out, it),
        }
    }
}

#[cycle(selection)]
fn field(out: &mut Description<'_>, field: &Field) {
    out.open("Field", field.location);
    out.name_opt("alias", &field.alias);
    out.name("name", &field.name);
    arguments(out, &field.arguments);
    directives(out, &field.directives);
    selections(out, &field.selection_set);
    out.close();
}

fn fragment_spread(out: &mut Description<'_>, spread: &FragmentSpread) {
    out.open("FragmentSpread", spread.location);
    out.name("fragment_name", &spread.fragment_name);
    directives(out, &spread.directives);
    out.close();
}

#[cycle(selection)]
fn inline_fragment(out: &mut Description<'_>, fragment: &InlineFragment) {
    out.open("InlineFragment", fragment.location);
    out.name_opt("type_condition", &fragment.type_condition);
    directives(out, &fragment.directives);
    selections(out, &fragment.selection_set);
    out.close();
}
