//! Definitions of schemas and directives, and extensions of schemas.

use crate::trees::description::Description;
use crate::trees::members::input_values;
use crate::trees::operations::operation_word;
use crate::trees::values::directives;
use gql_ast::{
    DirectiveDefinition, DirectiveLocation, Name, OperationType, SchemaDefinition, SchemaExtension,
};
use jb_text::Listed;

pub(crate) fn schema_definition(out: &mut Description<'_>, schema: &SchemaDefinition) {
    out.open("SchemaDefinition", schema.location);
    out.description(&schema.description);
    directives(out, &schema.directives);
    root_operations(out, &schema.root_operations);
    out.close();
}

pub(crate) fn schema_extension(out: &mut Description<'_>, schema: &SchemaExtension) {
    out.open("SchemaExtension", schema.location);
    directives(out, &schema.directives);
    root_operations(out, &schema.root_operations);
    out.close();
}

fn root_operations(out: &mut Description<'_>, roots: &Listed<(OperationType, Name)>) {
    for root in roots.as_slice() {
        out.name(operation_word(root.0), &root.1);
    }
}

pub(crate) fn directive_definition(out: &mut Description<'_>, directive: &DirectiveDefinition) {
    out.open("DirectiveDefinition", directive.location);
    out.description(&directive.description);
    out.name("name", &directive.name);
    input_values(out, "argument", &directive.arguments);
    if directive.repeatable {
        out.line("repeatable", "true");
    }
    for location in directive.locations.as_slice() {
        out.line("location", location_word(*location));
    }
    out.close();
}

fn location_word(location: DirectiveLocation) -> &'static str {
    match location {
        DirectiveLocation::Query => "Query",
        DirectiveLocation::Mutation => "Mutation",
        DirectiveLocation::Subscription => "Subscription",
        DirectiveLocation::Field => "Field",
        DirectiveLocation::FragmentDefinition => "FragmentDefinition",
        DirectiveLocation::FragmentSpread => "FragmentSpread",
        DirectiveLocation::InlineFragment => "InlineFragment",
        DirectiveLocation::VariableDefinition => "VariableDefinition",
        DirectiveLocation::Schema => "Schema",
        DirectiveLocation::Scalar => "Scalar",
        DirectiveLocation::Object => "Object",
        DirectiveLocation::FieldDefinition => "FieldDefinition",
        DirectiveLocation::ArgumentDefinition => "ArgumentDefinition",
        DirectiveLocation::Interface => "Interface",
        DirectiveLocation::Union => "Union",
        DirectiveLocation::Enum => "Enum",
        DirectiveLocation::EnumValue => "EnumValue",
        DirectiveLocation::InputObject => "InputObject",
        DirectiveLocation::InputFieldDefinition => "InputFieldDefinition",
    }
}
