//! The root types differ from each other (GraphQL October 2021, section 3.3.1). Of two that do not, the one that stands later in
//! the text is told. Nothing is asked of a type that is not defined.

ghost use Rattle.std.specs.Prelude.{◌≡◌, ◌++◌, false, Some, OnOk};
ghost use Rattle.std.specs.Option.{option_copied, option_map_or};
ghost use Rattle.std.specs.Str.{bytes_eq};
ghost use Rattle.gql_schema_types.specs.Schemas.{root_of};
ghost use Rattle.gql_schema_rules_parts.specs.DuplicateRootOperationType as spec;

use gql_ast_base::{Name, OperationType};
use gql_diag_messages::{DiagnosticData, Rule};
use gql_rules_values::{is_known, list_fault};
use gql_schema_types::{Schema, SchemaDefinition};
use gql_source::SourceSpan;
use jb_text::{Listed, Memory};
use std::alloc::Global;

/// Lists each root type that is defined and a root type of an operation type whose name stands before it.
pub(crate) fn list_duplicate_root_operation_type(
    alloc: Global,
    schema: &Schema,
    faults: &mut Listed<DiagnosticData>,
) -> Result<(), Memory>
    ensures { OnOk result (faults.new ≡ faults.old ++ spec.duplicate_root_operation_type schema.now.types schema.now.schema_definition) }
{
    let definition = &schema.schema_definition;
    let (one, two) = ordered(definition, OperationType::Query, OperationType::Mutation);
    let (two, three) = ordered(definition, two, OperationType::Subscription);
    let (one, two) = ordered(definition, one, two);
    list_duplicates(alloc, schema, one, two, three, faults)
}

/// The two operation types in the order of their root types in the text.
fn ordered(
    definition: &SchemaDefinition,
    one: OperationType,
    two: OperationType,
) -> (OperationType, OperationType)
    ensures { result ≡ spec.ordered definition.now one two }
{
    if comes_first(definition, two, one) {
        (two, one)
    } else {
        (one, two)
    }
}

/// Whether the root type of the one stands before that of the other.
fn comes_first(definition: &SchemaDefinition, one: OperationType, other: OperationType) -> bool
    ensures { result ≡ spec.comes_first (root_of one definition.now) (root_of other definition.now) }
{
    match definition.root_operation(one) {
        None => false,
        Some(one) => match definition.root_operation(other) {
            None => true,
            Some(other) => is_before(one.location(), other.location()),
        },
    }
}

/// Whether the one place comes before the other, by file and offset. What has no place comes first.
fn is_before(one: Option<SourceSpan>, other: Option<SourceSpan>) -> bool
    ensures { result ≡ spec.is_before one other }
{
    match (one, other) {
        (None, None) => false,
        (None, Some(_)) => true,
        (Some(_), None) => false,
        (Some(one), Some(other)) => is_span_before(one, other),
    }
}

/// Whether the one span comes before the other.
fn is_span_before(one: SourceSpan, other: SourceSpan) -> bool
    ensures { result ≡ spec.is_before (Some one) (Some other) }
{
    one.file_id().number < other.file_id().number
        || (one.file_id().number == other.file_id().number && one.offset() < other.offset())
}

/// Lists the seconds among three root types, which stand in this order.
fn list_duplicates(
    alloc: Global,
    schema: &Schema,
    one: OperationType,
    two: OperationType,
    three: OperationType,
    faults: &mut Listed<DiagnosticData>,
) -> Result<(), Memory>
    ensures { OnOk result (faults.new ≡ faults.old ++ spec.duplicates schema.now.types schema.now.schema_definition one two three) }
{
    list_duplicate(alloc, schema, two, &[one], faults)?;
    list_duplicate(alloc, schema, three, &[one, two], faults)
}

/// Lists a root type that is defined and one of those of the earlier operation types.
fn list_duplicate(
    alloc: Global,
    schema: &Schema,
    operation_type: OperationType,
    earlier: &[OperationType],
    faults: &mut Listed<DiagnosticData>,
) -> Result<(), Memory>
    ensures { OnOk result (faults.new ≡ faults.old ++ spec.duplicate schema.now.types schema.now.schema_definition operation_type earlier.now) }
{
    match schema.schema_definition.root_operation(operation_type) {
        Some(name) if is_known(&schema.types, name.as_str()) => {
            list_again(alloc, &schema.schema_definition, name, earlier, faults)
        }
        _ => Ok(()),
    }
}

/// Lists a name that is one of those of the root types of the earlier operation types.
fn list_again(
    alloc: Global,
    definition: &SchemaDefinition,
    name: &Name,
    earlier: &[OperationType],
    faults: &mut Listed<DiagnosticData>,
) -> Result<(), Memory>
    ensures { OnOk result (faults.new ≡ faults.old ++ spec.second name.now (spec.first_same definition.now name.now.text earlier.now)) }
{
    match first_same(definition, name.as_str(), earlier) {
        Some(first) => list_second(alloc, name, first, faults),
        None => Ok(()),
    }
}

/// Lists a name, with the place of the first.
fn list_second(
    alloc: Global,
    name: &Name,
    first: &Name,
    faults: &mut Listed<DiagnosticData>,
) -> Result<(), Memory>
    ensures { OnOk result (faults.new ≡ faults.old ++ spec.second name.now (Some first.now)) }
{
    list_fault(
        alloc,
        Rule::DuplicateRootOperationType,
        &[name.as_str()],
        name.location(),
        first.location(),
        faults,
    )
}

/// The first of these operation types whose root type has the name: that name.
fn first_same<'s>(
    definition: &'s SchemaDefinition,
    name: &str,
    earlier: &[OperationType],
) -> Option<&'s Name>
    ensures { option_copied result ≡ spec.first_same definition.now name.now earlier.now }
{
    for operation_type in earlier {
        if has_root(definition, name, *operation_type) {
            return definition.root_operation(*operation_type);
        }
    }
    None
}

/// Whether the root type of the operation type has the name.
fn has_root(definition: &SchemaDefinition, name: &str, operation_type: OperationType) -> bool
    ensures { result ≡ option_map_or (λ root. bytes_eq name.now root.text) (root_of operation_type definition.now) false }
{
    match definition.root_operation(operation_type) {
        Some(root) => name == root.as_str(),
        None => false,
    }
}
