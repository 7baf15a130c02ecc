//! Each rule of building schemas and documents, and what is told of it with made names.

use gql_diag_messages::Rule;

pub(crate) const SCHEMAS: [(Rule, &str, &str); 16] = [
    (
        Rule::ExecutableDefinition,
        "a schema must not contain A",
        "",
    ),
    (
        Rule::SchemaDefinitionCollision,
        "must not have multiple `schema` definitions",
        "",
    ),
    (
        Rule::DirectiveDefinitionCollision,
        "the directive `@A` is defined multiple times in the schema",
        "",
    ),
    (
        Rule::TypeDefinitionCollision,
        "the type `A` is defined multiple times in the schema",
        "",
    ),
    (
        Rule::BuiltInScalarTypeRedefinition,
        "built-in scalar definitions must be omitted",
        "",
    ),
    (
        Rule::OrphanSchemaExtension,
        "schema extension without a schema definition",
        "",
    ),
    (
        Rule::OrphanTypeExtension,
        "type extension for undefined type `A`",
        "",
    ),
    (
        Rule::TypeExtensionKindMismatch,
        "type extension of another kind for `A`",
        "",
    ),
    (
        Rule::DuplicateRootOperation,
        "duplicate definitions for the `A` root operation type",
        "",
    ),
    (
        Rule::DuplicateImplementsInterfaceInObject,
        "`A` implements interface `b` more than once",
        "",
    ),
    (
        Rule::DuplicateImplementsInterfaceInInterface,
        "`A` implements interface `b` more than once",
        "",
    ),
    (
        Rule::ObjectFieldNameCollision,
        "duplicate definitions for the `b` field of `A`",
        "",
    ),
    (
        Rule::InterfaceFieldNameCollision,
        "duplicate definitions for the `b` field of `A`",
        "",
    ),
    (
        Rule::InputFieldNameCollision,
        "duplicate definitions for the `b` field of `A`",
        "",
    ),
    (
        Rule::EnumValueNameCollision,
        "duplicate definitions for the `b` value of enum `A`",
        "",
    ),
    (
        Rule::UnionMemberNameCollision,
        "duplicate definitions for the `b` member of union `A`",
        "",
    ),
];

pub(crate) const DOCUMENTS: [(Rule, &str, &str); 13] = [
    (
        Rule::TypeSystemDefinition,
        "an executable document must not contain A",
        "The \"b\" definition is not executable.",
    ),
    (
        Rule::AmbiguousAnonymousOperation,
        "anonymous operation cannot be selected when the document contains other operations",
        "This anonymous operation must be the only defined operation.",
    ),
    (
        Rule::OperationNameCollision,
        "the operation `A` is defined multiple times in the document",
        "There can be only one operation named \"A\".",
    ),
    (
        Rule::FragmentNameCollision,
        "the fragment `A` is defined multiple times in the document",
        "There can be only one fragment named \"A\".",
    ),
    (
        Rule::UndefinedRootOperation,
        "`A` root operation type is not defined",
        "The schema has no \"A\" root type defined",
    ),
    (
        Rule::UndefinedField,
        "type `A` does not have a field `b`",
        "Cannot query field \"b\" on type \"A\".",
    ),
    (
        Rule::UndefinedTypeInNamedFragmentTypeCondition,
        "type condition `A` is not a type defined in the schema",
        "Unknown type \"A\".",
    ),
    (
        Rule::UndefinedTypeInInlineFragmentTypeCondition,
        "type condition `A` is not a type defined in the schema",
        "Unknown type \"A\".",
    ),
    (
        Rule::SubselectionOnScalarType,
        "field `b` of type `A` cannot have selections",
        "Field \"b\" must not have a selection since type \"A\" has no subfields",
    ),
    (
        Rule::SubselectionOnEnumType,
        "field `b` of type `A` cannot have selections",
        "Field \"b\" must not have a selection since type \"A\" has no subfields",
    ),
    (
        Rule::SubscriptionUsesMultipleFields,
        "subscription can only have one root field",
        "Subscription \"A\" must select only one top level field.",
    ),
    (
        Rule::SubscriptionUsesIntrospection,
        "subscription must not use an introspection root field",
        "Subscription \"A\" must not select an introspection top level field.",
    ),
    (
        Rule::SubscriptionUsesConditionalSelection,
        "subscription must not use @skip or @include at its root",
        "Subscription \"A\" can not specify @skip or @include on root fields.",
    ),
];
