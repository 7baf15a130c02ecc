//! Each rule of values and of documents, and what is told of it with made names.

use gql_diag_messages::Rule;

pub(crate) const VALUES: [(Rule, &str, &str); 7] = [
    (
        Rule::UnsupportedValueType,
        "expected value of type A, found b",
        "A cannot represent value: b",
    ),
    (
        Rule::IntCoercionError,
        "int cannot represent value `A`",
        "Int cannot represent non 32-bit signed integer value: A",
    ),
    (
        Rule::UndefinedEnumValue,
        "value `A` does not exist on `b`",
        "Value \"A\" does not exist in \"b\" enum.",
    ),
    (
        Rule::UndefinedInputValue,
        "field `A` does not exist on `b`",
        "Field \"A\" is not defined by type \"b\".",
    ),
    (
        Rule::RequiredField,
        "the required field `A` is not provided",
        "Field \"A\" of required type \"b\" was not provided.",
    ),
    (
        Rule::OneOfField,
        "field `A.b` of a one-of input object must be nullable and have no default",
        "",
    ),
    (
        Rule::OneOfValue,
        "one-of input object `A` must have exactly one non-null member",
        "",
    ),
];

pub(crate) const FRAGMENTS: [(Rule, &str, &str); 5] = [
    (
        Rule::UndefinedFragment,
        "cannot find fragment `A` in this document",
        "Unknown fragment \"A\".",
    ),
    (
        Rule::RecursiveFragmentDefinition,
        "`A` fragment cannot reference itself",
        "Cannot spread fragment \"A\" within itself via b",
    ),
    (
        Rule::UnusedFragment,
        "fragment `A` must be used in an operation",
        "Fragment \"A\" is never used.",
    ),
    (
        Rule::InvalidFragmentTarget,
        "fragment cannot be applied to type `b`",
        "Fragment \"A\" cannot condition on non composite type \"b\".",
    ),
    (
        Rule::InvalidFragmentSpread,
        "fragment on `c` cannot be applied to `b`",
        "Fragment \"A\" cannot be spread here as objects of type \"b\" can never be of type \"c\".",
    ),
];

pub(crate) const VARIABLES_AND_FIELDS: [(Rule, &str, &str); 9] = [
    (
        Rule::UniqueVariable,
        "the variable `$A` is declared multiple times",
        "There can be only one variable named \"$A\".",
    ),
    (
        Rule::UnusedVariable,
        "unused variable: `$A`",
        "Variable \"$A\" is never used.",
    ),
    (
        Rule::UndefinedVariable,
        "variable `$A` is not defined",
        "Variable \"$A\" is not defined.",
    ),
    (
        Rule::VariableInputType,
        "`$A` variable must be of an input type",
        "Variable \"$A\" cannot be non-input type \"b\".",
    ),
    (
        Rule::DisallowedVariableUsage,
        "`$A` cannot be used as c",
        "Variable \"$A\" of type \"b\" used in position expecting type \"c\".",
    ),
    (
        Rule::MissingSubselection,
        "field `A` of type `b` needs selections",
        "Field \"A\" of type \"b\" must have a selection of subfields. Did you mean \"A { ... }\"?",
    ),
    (
        Rule::ConflictingFieldType,
        "`A` is selected with conflicting types",
        "Fields \"A\" conflict because they return conflicting types \"b and \"c\". Use different aliases on the fields to fetch both if this was intentional.",
    ),
    (
        Rule::ConflictingFieldName,
        "`A` is selected with conflicting names",
        "Fields \"A\" conflict because \"b\" and \"c\" are different fields. Use different aliases on the fields to fetch both if this was intentional.",
    ),
    (
        Rule::ConflictingFieldArgument,
        "`A` is selected with conflicting arguments",
        "Fields \"A\" conflict because they have differing arguments. Use different aliases on the fields to fetch both if this was intentional.",
    ),
];
