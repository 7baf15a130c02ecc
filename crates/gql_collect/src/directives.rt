//! Selections that are left out by `@skip` and `@include`.

ghost use Rattle.std.specs.Prelude.{◌≡◌};
ghost use Rattle.std.specs.Option.{option_copied};
ghost use Rattle.gql_collect.specs.Kept as spec;

use gql_ast_base::{Directive, Value as Literal, ValueKind};
use gql_schema_types::{argument_called, directive_called};
use jb_tree::{Map, Value};

/// Whether a selection with these directives is kept (GraphQL October 2021, section 6.3.2): it is not where the `if` of
/// its first `@skip` is true, or that of its first `@include` false. An `if` is a boolean or a variable that has one; any
/// other is as none.
pub(crate) fn is_kept(variables: &Map, directives: &[Directive]) -> bool
    ensures { result ≡ spec.is_kept variables.now directives.now }
{
    !condition(variables, "skip", directives).unwrap_or(false)
        && condition(variables, "include", directives).unwrap_or(true)
}

/// The `if` of the first of these directives that has the name.
fn condition(variables: &Map, name: &str, directives: &[Directive]) -> Option<bool>
    ensures { result ≡ spec.condition variables.now name.now directives.now }
{
    match directive_called(name, directives) {
        Some(directive) => if_of(variables, directive),
        None => None,
    }
}

/// The `if` of a directive.
fn if_of(variables: &Map, directive: &Directive) -> Option<bool>
    ensures { result ≡ spec.if_of variables.now directive.now }
{
    match argument_called("if", directive.arguments.as_slice()) {
        Some(argument) => truth(variables, &argument.value),
        None => None,
    }
}

/// What a value says, where it is true or false.
fn truth(variables: &Map, value: &Literal) -> Option<bool>
    ensures { result ≡ spec.truth variables.now value.now }
{
    match &value.kind {
        ValueKind::Boolean(truth) => Some(*truth),
        ValueKind::Variable(name) => told(variables.get(name.as_str())),
        _ => None,
    }
}

/// What a JSON value says, where it is true or false.
fn told(value: Option<&Value>) -> Option<bool>
    ensures { result ≡ spec.told (option_copied value.entry) }
{
    match value {
        Some(Value::Bool(truth)) => Some(*truth),
        _ => None,
    }
}
