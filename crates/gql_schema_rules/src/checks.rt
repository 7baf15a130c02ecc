//! The rules on literals, arguments and directives, by themselves.

ghost use Rattle.std.specs.Prelude.{◌≡◌, ◌++◌, false, Some, OnOk, OnErr};
ghost use Rattle.gql_diag.specs.List.{IsStableSort};
ghost use Rattle.gql_diag.specs.Order.{list_order};
ghost use Rattle.gql_rules_values.specs.declared.known.Defined.TheVariants.{Types};
ghost use Rattle.gql_rules_values.specs.Arguments.{argument_faults};
ghost use Rattle.gql_rules_values.specs.Directives.{directive_faults};
ghost use Rattle.gql_rules_values.specs.Literals.{literal_faults};
ghost use Rattle.gql_diag.specs.Taken.{HasTakenSome};

use gql_ast::{DirectiveLocation, InputValueDefinition};
use gql_ast_base::{Argument, Directive, Name, TypeRef, Value};
use gql_diag::{DiagnosticList, take_faults};
use gql_rules_values::{Call, Defined, list_arguments, list_directives, list_literal};
use gql_schema_types::Schema;
use gql_source::SourceSpan;
use jb_text::{Listed, Memory};
use std::alloc::Global;

/// Lists what is wrong with a literal at a type, and with the values inside it (GraphQL October 2021, section 5.6): one
/// diagnostic for each fault of each rule, in the order of lists. No variable is looked at, and nothing is asked of a type that the
/// schema does not have.
///
/// `Err` only when out of memory: then the list has some of the faults.
pub fn check_literal(
    alloc: Global,
    schema: &Schema,
    ty: &TypeRef,
    literal: &Value,
    errors: &mut DiagnosticList,
) -> Result<(), Memory>
    ensures items { OnOk result (IsStableSort list_order (errors.old.items ++ literal_faults Types schema.now.types (Some ty.now) literal.now) errors.new.items) }
    ensures sources { errors.new.sources ≡ errors.old.sources }
    ensures refused { OnErr result (HasTakenSome errors.old.items (literal_faults Types schema.now.types (Some ty.now) literal.now) errors.new.items) }
{
    let mut faults = Listed::new(alloc);
    list_literal(
        alloc,
        Defined::Types,
        &schema.types,
        literal,
        ty,
        &mut faults,
    )?;
    take_faults(faults, errors)
}

/// Lists what is wrong with the arguments of a field of this name at this place, which has these definitions of arguments
/// (GraphQL October 2021, section 5.4), the values inside them included: one diagnostic for each fault of each rule, in the order
/// of lists. No variable is looked at, and nothing is asked of a type that the schema does not have.
///
/// `Err` only when out of memory: then the list has some of the faults.
pub fn check_arguments(
    alloc: Global,
    schema: &Schema,
    field: &Name,
    place: Option<SourceSpan>,
    definitions: &Listed<InputValueDefinition>,
    arguments: &Listed<Argument>,
    errors: &mut DiagnosticList,
) -> Result<(), Memory>
    ensures items { OnOk result (IsStableSort list_order
        (errors.old.items ++ argument_faults Types schema.now.types false field.now.text place definitions.now arguments.now) errors.new.items) }
    ensures sources { errors.new.sources ≡ errors.old.sources }
    ensures refused { OnErr result (HasTakenSome errors.old.items
        (argument_faults Types schema.now.types false field.now.text place definitions.now arguments.now) errors.new.items) }
{
    let mut faults = Listed::new(alloc);
    let call = Call {
        directive: false,
        name: field.as_str(),
        location: place,
    };
    list_arguments(
        alloc,
        Defined::Types,
        &schema.types,
        &call,
        definitions.as_slice(),
        arguments.as_slice(),
        &mut faults,
    )?;
    take_faults(faults, errors)
}

/// Lists what is wrong with the directives at one place of this kind (GraphQL October 2021, section 5.7), their arguments
/// included: one diagnostic for each fault of each rule, in the order of lists. No variable is looked at, and nothing is asked of a
/// type that the schema does not have.
///
/// `Err` only when out of memory: then the list has some of the faults.
pub fn check_directives(
    alloc: Global,
    schema: &Schema,
    directives: &Listed<Directive>,
    location: DirectiveLocation,
    errors: &mut DiagnosticList,
) -> Result<(), Memory>
    ensures items { OnOk result (IsStableSort list_order
        (errors.old.items ++ directive_faults Types schema.now.types location schema.now.directive_definitions directives.now) errors.new.items) }
    ensures sources { errors.new.sources ≡ errors.old.sources }
    ensures refused { OnErr result (HasTakenSome errors.old.items
        (directive_faults Types schema.now.types location schema.now.directive_definitions directives.now) errors.new.items) }
{
    let mut faults = Listed::new(alloc);
    list_directives(
        alloc,
        Defined::Types,
        schema,
        location,
        directives.as_slice(),
        &mut faults,
    )?;
    take_faults(faults, errors)
}
