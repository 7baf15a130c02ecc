//! Each rule of schemas, and what is told of it with made names.

use gql_diag_messages::Rule;

pub(crate) const USES: [(Rule, &str, &str); 8] = [
    (
        Rule::UndefinedDefinition,
        "cannot find type `A` in this document",
        "Unknown type \"A\".",
    ),
    (
        Rule::UndefinedDirective,
        "cannot find directive `@A` in this document",
        "Unknown directive \"@A\".",
    ),
    (
        Rule::UnsupportedLocation,
        "`@A` is not supported for b location",
        "Directive \"@A\" may not be used on b.",
    ),
    (
        Rule::UniqueDirective,
        "non-repeatable directive `@A` is used more than once",
        "The directive \"@A\" can only be used once at this location.",
    ),
    (
        Rule::UniqueArgument,
        "the argument `A` is not unique",
        "There can be only one argument named \"A\".",
    ),
    (
        Rule::UndefinedArgument,
        "the argument `A` is not supported by `b`",
        "Unknown argument \"A\" on field \"b\".",
    ),
    (
        Rule::RequiredArgument,
        "the required argument `b` is not provided",
        "Field \"A\" argument \"b\" of type \"c\" is required, but it was not provided.",
    ),
    (Rule::UniqueInputValue, "the value `A` is not unique", ""),
];

pub(crate) const TYPES: [(Rule, &str, &str); 12] = [
    (Rule::OutputType, "`A` field must return an output type", ""),
    (Rule::InputType, "`A` must have an input type", ""),
    (
        Rule::QueryRootOperationType,
        "missing query root operation type",
        "",
    ),
    (
        Rule::RootOperationObjectType,
        "root operation type `A` must be an object type",
        "",
    ),
    (
        Rule::DuplicateRootOperationType,
        "root operation type `A` is used twice",
        "",
    ),
    (
        Rule::UnionMemberObjectType,
        "union member `A` must be an object type",
        "",
    ),
    (
        Rule::MissingInterfaceField,
        "type `A` lacks field `c` of interface `b`",
        "",
    ),
    (
        Rule::TransitiveImplementedInterfaces,
        "type `A` must also implement `b`",
        "",
    ),
    (
        Rule::InvalidImplementationFieldType,
        "field `A.c` does not fit interface `b`",
        "Interface field b.c expects type d but A.c of type E is not a proper subtype.",
    ),
    (
        Rule::MissingInterfaceFieldArgument,
        "field `A.c` lacks argument `d` of `b`",
        "Interface field argument b.c(d:) expected but A.c does not provide it.",
    ),
    (
        Rule::InvalidImplementationFieldArgumentType,
        "argument `d` of `A.c` does not fit `b`",
        "Interface field b.c(d:) expects type E but A.c(d:) is type F.",
    ),
    (
        Rule::ExtraRequiredImplementationFieldArgument,
        "argument `d` of `A.c` is not in `b`",
        "Object field A.c includes required argument d that is missing from the Interface field b.c.",
    ),
];

pub(crate) const DEFINITIONS: [(Rule, &str, &str); 8] = [
    (Rule::EmptyFieldSet, "`A` must not be empty", ""),
    (Rule::EmptyValueSet, "`A` must not be empty", ""),
    (Rule::EmptyMemberSet, "`A` must not be empty", ""),
    (Rule::EmptyInputValueSet, "`A` must not be empty", ""),
    (Rule::ReservedName, "`A` begins with two underscores", ""),
    (
        Rule::RecursiveInterfaceDefinition,
        "`A` interface cannot implement itself",
        "",
    ),
    (
        Rule::RecursiveInputObjectDefinition,
        "`A` input object cannot reference itself",
        "",
    ),
    (
        Rule::RecursiveDirectiveDefinition,
        "`A` directive definition cannot reference itself",
        "",
    ),
];
