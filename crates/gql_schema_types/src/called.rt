//! What is looked up by name alone, where few are: names among others, directives and arguments.

ghost use Rattle.std.specs.Prelude.{◌≡◌};
ghost use Rattle.std.specs.Option.{option_copied};
ghost use Rattle.gql_schema_types.specs.Called as spec;
ghost use Rattle.gql_schema_types.specs.Entries.{entry};

use gql_ast_base::{Argument, Directive, Name};

/// Whether one of these is the name.
#[must_use]
pub fn is_among(name: &str, names: &[Name]) -> bool
    ensures { result ≡ spec.is_among name.now names.now }
{
    names.iter().any(|other| name == other.as_str())
}

/// The first of these directives that has the name.
#[must_use]
pub fn directive_called<'a>(name: &str, directives: &'a [Directive]) -> Option<&'a Directive>
    ensures { option_copied result ≡ entry spec.directive_name name.now directives.now }
{
    directives
        .iter()
        .find(|directive| name == directive.name.as_str())
}

/// The first of these arguments that has the name.
#[must_use]
pub fn argument_called<'a>(name: &str, arguments: &'a [Argument]) -> Option<&'a Argument>
    ensures { option_copied result ≡ entry spec.argument_name name.now arguments.now }
{
    arguments
        .iter()
        .find(|argument| name == argument.name.as_str())
}
