//! The rules of schemas and documents, by name.

/// A rule that a schema or a document can break, each with what is listed for it (GraphQL October 2021, sections 3
/// and 5; those on one-of input objects GraphQL September 2025, section 3.10.1).
#[derive(Clone, Copy, Debug, PartialEq, Eq)]
pub enum Rule {
    // Faults of building a schema.
    /// An operation or a fragment in a schema.
    ExecutableDefinition,
    /// A second `schema`.
    SchemaDefinitionCollision,
    /// A second definition of a directive.
    DirectiveDefinitionCollision,
    /// A second definition of a type, those of introspection included.
    TypeDefinitionCollision,
    /// A definition of a built-in scalar.
    BuiltInScalarTypeRedefinition,
    /// An extension of a schema that has neither a definition nor a default root type.
    OrphanSchemaExtension,
    /// An extension of a type that is not defined.
    OrphanTypeExtension,
    /// An extension of another kind than its type.
    TypeExtensionKindMismatch,
    /// A second root of an operation type.
    DuplicateRootOperation,
    /// An interface that an object type lists again.
    DuplicateImplementsInterfaceInObject,
    /// An interface that an interface lists again.
    DuplicateImplementsInterfaceInInterface,
    /// A second field of a name in an object type.
    ObjectFieldNameCollision,
    /// A second field of a name in an interface.
    InterfaceFieldNameCollision,
    /// A second field of a name in an input object type.
    InputFieldNameCollision,
    /// A second value of a name in an enum.
    EnumValueNameCollision,
    /// A second member of a name in a union.
    UnionMemberNameCollision,

    // Faults of building an executable document.
    /// A type system definition or extension in an executable document.
    TypeSystemDefinition,
    /// An unnamed operation among several.
    AmbiguousAnonymousOperation,
    /// A second operation of a name.
    OperationNameCollision,
    /// A second fragment of a name.
    FragmentNameCollision,
    /// An operation of a type that has no root.
    UndefinedRootOperation,
    /// A field that its type does not have.
    UndefinedField,
    /// A fragment's condition that names no type.
    UndefinedTypeInNamedFragmentTypeCondition,
    /// An inline fragment's condition that names no type.
    UndefinedTypeInInlineFragmentTypeCondition,
    /// A selection set on a field of a scalar type.
    SubselectionOnScalarType,
    /// A selection set on a field of an enum.
    SubselectionOnEnumType,
    /// A subscription of more than one root field.
    SubscriptionUsesMultipleFields,
    /// A root field of a subscription that begins with two underscores.
    SubscriptionUsesIntrospection,
    /// `@skip` or `@include` on a root selection of a subscription.
    SubscriptionUsesConditionalSelection,

    // Rules of schemas and documents.
    /// The name of a type that is not defined.
    UndefinedDefinition,
    /// A use of a directive that is not defined.
    UndefinedDirective,
    /// A use of a directive at a place that it is not for.
    UnsupportedLocation,
    /// A second use of a directive that may not be repeated.
    UniqueDirective,
    /// A second argument of a name.
    UniqueArgument,
    /// An argument that is not defined.
    UndefinedArgument,
    /// An argument that has to be given and is not.
    RequiredArgument,
    /// A second input value of a name.
    UniqueInputValue,
    /// A field of an input type where an output type is wanted.
    OutputType,
    /// An argument or input field of a type that is no input type.
    InputType,
    /// A schema without a query root.
    QueryRootOperationType,
    /// A root that is no object type.
    RootOperationObjectType,
    /// A root type of two operation types.
    DuplicateRootOperationType,
    /// A member of a union that is no object type.
    UnionMemberObjectType,
    /// A field of a listed interface that the type lacks.
    MissingInterfaceField,
    /// An interface of a listed interface that is not listed.
    TransitiveImplementedInterfaces,
    /// A field whose type is no subtype of the interface's.
    InvalidImplementationFieldType,
    /// An argument of the interface's field that is missing.
    MissingInterfaceFieldArgument,
    /// An argument of another type than the interface's.
    InvalidImplementationFieldArgumentType,
    /// A further argument that has to be given.
    ExtraRequiredImplementationFieldArgument,
    /// An object type or interface without fields.
    EmptyFieldSet,
    /// An enum without values.
    EmptyValueSet,
    /// A union without members.
    EmptyMemberSet,
    /// An input object type without fields.
    EmptyInputValueSet,
    /// A name that begins with two underscores.
    ReservedName,
    /// An interface that implements itself.
    RecursiveInterfaceDefinition,
    /// An input object type that needs itself.
    RecursiveInputObjectDefinition,
    /// A directive that is used in its own definition.
    RecursiveDirectiveDefinition,
    /// A literal of another kind than its type.
    UnsupportedValueType,
    /// A whole number beyond 32 bits at `Int`.
    IntCoercionError,
    /// A name that is no value of the enum.
    UndefinedEnumValue,
    /// A key that is no field of the input object type.
    UndefinedInputValue,
    /// An input field that has to be given and is not.
    RequiredField,
    /// A field of a one-of input object type that is not null or has a default.
    OneOfField,
    /// A literal at a one-of input object type that does not have exactly one member, or whose member is or may be null.
    OneOfValue,
    /// A spread of a fragment that is not defined.
    UndefinedFragment,
    /// A fragment that reaches itself.
    RecursiveFragmentDefinition,
    /// A fragment that no operation reaches.
    UnusedFragment,
    /// A fragment on a type that is not composite.
    InvalidFragmentTarget,
    /// A fragment on a type that can't come there.
    InvalidFragmentSpread,
    /// A second variable of a name.
    UniqueVariable,
    /// A variable that its operation never uses.
    UnusedVariable,
    /// A use of a variable that is not defined.
    UndefinedVariable,
    /// A variable of a type that is no input type.
    VariableInputType,
    /// A use of a variable where its type does not fit.
    DisallowedVariableUsage,
    /// A field of a composite type without a selection set.
    MissingSubselection,
    /// Two fields of one response key whose types conflict.
    ConflictingFieldType,
    /// Two fields of one response key with different names.
    ConflictingFieldName,
    /// Two fields of one response key with different arguments.
    ConflictingFieldArgument,
}
