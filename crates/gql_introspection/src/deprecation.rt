//! `@deprecated`, `@specifiedBy` and the arguments of directives.

ghost use Rattle.std.specs.Prelude.{◌≡◌};
ghost use Rattle.std.specs.Option.{option_copied};
ghost use Rattle.gql_schema_types.specs.Entries.{entry};
ghost use Rattle.gql_introspection.specs.Deprecation as spec;

use gql_ast::{DirectiveDefinition, InputValueDefinition};
use gql_ast_base::{Directive, Value, ValueKind};
use gql_schema_types::{Schema, argument_called, directive_called};

/// Whether `@deprecated` is among the directives (GraphQL October 2021, section 3.13.3).
pub(crate) fn is_deprecated(directives: &[Directive]) -> bool
    ensures { result ≡ spec.is_deprecated directives.now }
{
    directive_called("deprecated", directives).is_some()
}

/// Why something with these directives is deprecated: the `reason` that is given, or else the default of the schema,
/// where that is a text.
pub(crate) fn deprecation_reason<'s>(
    schema: &'s Schema,
    directives: &'s [Directive],
) -> Option<&'s str>
    ensures { option_copied result ≡ spec.deprecation_reason schema.now directives.now }
{
    match directive_called("deprecated", directives) {
        Some(directive) => reason_of(schema, directive),
        None => None,
    }
}

/// The `url` that a scalar type with these directives is specified by, where it is a text (section 3.13.4).
pub(crate) fn specified_by(directives: &[Directive]) -> Option<&str>
    ensures { option_copied result ≡ spec.specified_by directives.now }
{
    match directive_called("specifiedBy", directives) {
        Some(directive) => text_of(given_value("url", directive)?),
        None => None,
    }
}

/// The reason that this `@deprecated` has.
fn reason_of<'s>(schema: &'s Schema, directive: &'s Directive) -> Option<&'s str>
    ensures { option_copied result ≡ spec.reason_of schema.now directive.now }
{
    match given_value("reason", directive) {
        Some(value) => text_of(value),
        None => text_of(default_reason(schema)?),
    }
}

/// The default value of `reason`.
fn default_reason(schema: &Schema) -> Option<&Value>
    ensures { option_copied result ≡ spec.default_reason schema.now }
{
    match schema.directive_definitions.get("deprecated") {
        Some(definition) => default_in(definition),
        None => None,
    }
}

/// The default value of `reason` in a definition.
fn default_in(definition: &DirectiveDefinition) -> Option<&Value>
    ensures { option_copied result ≡ spec.default_in definition.now }
{
    match input_called("reason", definition.arguments.as_slice()) {
        Some(reason) => reason.default_value.as_ref(),
        None => None,
    }
}

/// The value that a directive gives an argument.
fn given_value<'s>(name: &str, directive: &'s Directive) -> Option<&'s Value>
    ensures { option_copied result ≡ spec.given_value name.now directive.now }
{
    match argument_called(name, directive.arguments.as_slice()) {
        Some(argument) => Some(&argument.value),
        None => None,
    }
}

/// The text of a literal, where it is a string.
fn text_of(value: &Value) -> Option<&str>
    ensures { option_copied result ≡ spec.text_of value.now }
{
    match &value.kind {
        ValueKind::String(text) => Some(text.as_str()),
        _ => None,
    }
}

/// The first of these definitions of arguments that has the name.
fn input_called<'s>(
    name: &str,
    definitions: &'s [InputValueDefinition],
) -> Option<&'s InputValueDefinition>
    ensures { option_copied result ≡ entry spec.input_name name.now definitions.now }
{
    definitions
        .iter()
        .find(|definition| name == definition.name.as_str())
}
