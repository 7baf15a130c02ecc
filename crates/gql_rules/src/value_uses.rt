//! The uses of variables in values, arguments and directives.

ghost use Rattle.std.specs.Prelude.{◌≡◌, ◌++◌, map, OnOk};
ghost use Rattle.gql_rules.specs.Uses as spec;
ghost use Rattle.gql_rules.specs.bridge.Views as seen;

use crate::uses::{Place, Use, of_last};
use gql_ast::InputValueDefinition;
use gql_ast_base::{Argument, Directive, Name, Value, ValueKind};
use gql_rules_values::ByName;
use gql_schema_types::{ExtendedType, Schema, Table};
use jb_text::{Listed, Memory};
use std::alloc::Global;

/// Adds the uses in a value at a place, those inside it too.
#[cycle(uses)]
fn add_value<'d>(
    types: &'d Table<ExtendedType>,
    place: Place<'d>,
    value: &'d Value,
    uses: &mut Listed<Use<'d>>,
) -> Result<(), Memory>
    ensures { OnOk result (seen.uses_of uses.new ≡ seen.uses_of uses.old ++ spec.value_uses types.now value.now (seen.place_of place.entry)) }
{
    match &value.kind {
        ValueKind::Variable(name) => uses.push(Use {
            name,
            place,
            location: value.location,
        }),
        ValueKind::List(items) => add_items(types, &place, items, uses),
        ValueKind::Object(members) => add_members(types, &place, members, value, uses),
        ValueKind::Null => Ok(()),
        ValueKind::Int(_) => Ok(()),
        ValueKind::Float(_) => Ok(()),
        ValueKind::String(_) => Ok(()),
        ValueKind::Boolean(_) => Ok(()),
        ValueKind::Enum(_) => Ok(()),
    }
}

/// Adds the uses in the items of a list at a place.
#[cycle(uses)]
fn add_items<'d>(
    types: &'d Table<ExtendedType>,
    place: &Place<'d>,
    items: &'d Listed<Value>,
    uses: &mut Listed<Use<'d>>,
) -> Result<(), Memory>
    ensures { OnOk result (seen.uses_of uses.new
        ≡ seen.uses_of uses.old ++ spec.items_uses types.now (seen.place_of place.now) (map (spec.value_uses types.now) items.now)) }
{
    for item in items.as_slice() {
        add_value(types, place.item(), item, uses)?;
    }
    Ok(())
}

/// Adds the uses in the values of the members of an object literal at a place.
#[cycle(uses)]
fn add_members<'d>(
    types: &'d Table<ExtendedType>,
    place: &Place<'d>,
    members: &'d Listed<(Name, Value)>,
    literal: &'d Value,
    uses: &mut Listed<Use<'d>>,
) -> Result<(), Memory>
    ensures { OnOk result (seen.uses_of uses.new
        ≡ seen.uses_of uses.old ++ spec.members_uses types.now literal.now.location (seen.place_of place.now) (map (λ member. (member.0, spec.value_uses types.now member.1)) members.now)) }
{
    let one_of = place.one_of_literal(types, members.as_slice());
    let mut left = members.len();
    for member in members.as_slice() {
        left -= 1;
        let inside = place.member(types, &member.0, of_last(left, one_of), literal);
        add_value(types, inside, &member.1, uses)?;
    }
    Ok(())
}

/// Adds the uses in arguments that have these definitions.
pub(crate) fn add_arguments<'d>(
    alloc: Global,
    types: &'d Table<ExtendedType>,
    definitions: &'d [InputValueDefinition],
    arguments: &'d Listed<Argument>,
    uses: &mut Listed<Use<'d>>,
) -> Result<(), Memory>
    ensures { OnOk result (seen.uses_of uses.new ≡ seen.uses_of uses.old ++ spec.arguments_uses types.now definitions.now arguments.now) }
{
    let defined = ByName::new(alloc, definitions, arguments.len())?;
    for argument in arguments.as_slice() {
        add_argument(types, &defined, argument, uses)?;
    }
    Ok(())
}

/// Adds the uses in an argument.
fn add_argument<'d>(
    types: &'d Table<ExtendedType>,
    definitions: &ByName<'d, InputValueDefinition>,
    argument: &'d Argument,
    uses: &mut Listed<Use<'d>>,
) -> Result<(), Memory>
    ensures { OnOk result (seen.uses_of uses.new ≡ seen.uses_of uses.old ++ spec.argument_uses types.now definitions.now argument.now) }
{
    let place = Place::of_argument(definitions.get(argument.name.as_str()));
    add_value(types, place, &argument.value, uses)
}

/// Adds the uses in the arguments of directives.
pub(crate) fn add_directives<'d>(
    alloc: Global,
    schema: &'d Schema,
    directives: &'d Listed<Directive>,
    uses: &mut Listed<Use<'d>>,
) -> Result<(), Memory>
    ensures { OnOk result (seen.uses_of uses.new ≡ seen.uses_of uses.old ++ spec.directives_uses schema.now directives.now) }
{
    for used in directives.as_slice() {
        add_directive(alloc, schema, used, uses)?;
    }
    Ok(())
}

/// Adds the uses in the arguments of a directive.
fn add_directive<'d>(
    alloc: Global,
    schema: &'d Schema,
    used: &'d Directive,
    uses: &mut Listed<Use<'d>>,
) -> Result<(), Memory>
    ensures { OnOk result (seen.uses_of uses.new ≡ seen.uses_of uses.old ++ spec.directive_uses schema.now used.now) }
{
    let definitions = directive_arguments(schema, used.name.as_str());
    add_arguments(alloc, &schema.types, definitions, &used.arguments, uses)
}

/// The arguments of the directive of the name, if it is defined.
fn directive_arguments<'d>(schema: &'d Schema, name: &str) -> &'d [InputValueDefinition]
    ensures { result.now ≡ spec.directive_arguments name.now schema.now.directive_definitions }
{
    match schema.directive_definitions.get(name) {
        Some(definition) => definition.arguments.as_slice(),
        None => &[],
    }
}
