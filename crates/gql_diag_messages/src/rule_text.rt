//! What is said of each rule, in the order of the rows.

ghost use Rattle.std.specs.Prelude.{◌≡◌};
ghost use Rattle.std.specs.Option.{option_copied};
ghost use Rattle.gql_diag_messages.specs.RuleText.{chosen_words, compat_pattern, message_pattern, row, rule_name, rule_text};
ghost use Rattle.gql_diag_messages.specs.bridge.RuleText.{compat_shown, shown};

use crate::filled::{is_directive, is_lacking};
use crate::rule::Rule;
use crate::rule_text::Compat::{Lacking, NoWords, OfArgument, Words};
use jb_text::Text;

/// What is said of a rule. In its texts `{0}`, `{1}` and so on stand for the names of what broke it.
#[derive(Clone, Copy)]
struct RuleText {
    row: usize,
    name: &'static str,
    message: &'static str,
    compat: Compat,
}

/// The words of the reference implementation of GraphQL.
#[derive(Clone, Copy)]
enum Compat {
    /// It has none.
    NoWords,
    Words(&'static str),
    /// Those for where the name of this number is lacking, and for where it is there.
    Lacking {
        number: usize,
        unnamed: &'static str,
        named: &'static str,
    },
    /// Those for an argument of a directive, and for one of a field.
    OfArgument {
        directive: &'static str,
        field: &'static str,
    },
}

/// A `match` of a rule to what is said of it: its name, its row, its message, and the words of the reference
/// implementation.
macro_rules! rule_texts {
    ($rule:expr; $($name:ident, $row:literal, $message:literal, $compat:expr;)*) => {
        match $rule {
            $(Rule::$name => RuleText {
                row: $row,
                name: stringify!($name),
                message: $message,
                compat: $compat,
            },)*
        }
    };
}

impl Rule {
    /// The rule's name, as that of its variant.
    #[must_use]
    pub fn name(self) -> &'static str
        ensures { result.now ≡ rule_name self }
    {
        text_of(self).name
    }

    /// The number of the rule's row, from 1 on, in the order in which rules that are broken at one place are listed.
    #[must_use]
    pub fn row(self) -> usize
        ensures { result ≡ row self }
    {
        text_of(self).row
    }

    /// The rule's message, with `{0}`, `{1}` and so on for the names of what broke it.
    #[must_use]
    pub fn message_pattern(self) -> &'static str
        ensures { result.now ≡ message_pattern self }
    {
        text_of(self).message
    }

    /// The rule's message in the words of the reference implementation, where it has one, with `{0}`, `{1}` and so on
    /// for the names of what broke it. Which message that is depends on whether the definition has a name, and
    /// whether an argument is a directive's.
    #[must_use]
    pub fn compat_pattern(self, names: &[Text]) -> Option<&'static str>
        ensures { option_copied result ≡ compat_pattern self names.now }
    {
        text_of(self).compat.for_names(names)
    }
}

impl Compat {
    /// The words for these names, where there are any.
    fn for_names(self, names: &[Text]) -> Option<&'static str>
        ensures { option_copied result ≡ chosen_words (compat_shown self) names.now }
    {
        match self {
            NoWords => None,
            Words(text) => Some(text),
            Lacking {
                number,
                unnamed,
                named,
            } => Some(if is_lacking(names, number) {
                unnamed
            } else {
                named
            }),
            OfArgument { directive, field } => {
                Some(if is_directive(names) {
                    directive
                } else {
                    field
                })
            }
        }
    }
}

/// What is said of a rule.
fn text_of(rule: Rule) -> RuleText
    ensures { shown result ≡ rule_text rule }
{
    rule_texts! { rule;
        ExecutableDefinition, 1, "a schema must not contain {0}",
            NoWords;
        SchemaDefinitionCollision, 2, "must not have multiple `schema` definitions",
            NoWords;
        DirectiveDefinitionCollision, 3, "the directive `@{0}` is defined multiple times in the schema",
            NoWords;
        TypeDefinitionCollision, 4, "the type `{0}` is defined multiple times in the schema",
            NoWords;
        BuiltInScalarTypeRedefinition, 5, "built-in scalar definitions must be omitted",
            NoWords;
        OrphanSchemaExtension, 6, "schema extension without a schema definition",
            NoWords;
        OrphanTypeExtension, 7, "type extension for undefined type `{0}`",
            NoWords;
        TypeExtensionKindMismatch, 8, "type extension of another kind for `{0}`",
            NoWords;
        DuplicateRootOperation, 9, "duplicate definitions for the `{0}` root operation type",
            NoWords;
        DuplicateImplementsInterfaceInObject, 10, "`{0}` implements interface `{1}` more than once",
            NoWords;
        DuplicateImplementsInterfaceInInterface, 10, "`{0}` implements interface `{1}` more than once",
            NoWords;
        ObjectFieldNameCollision, 11, "duplicate definitions for the `{1}` field of `{0}`",
            NoWords;
        InterfaceFieldNameCollision, 11, "duplicate definitions for the `{1}` field of `{0}`",
            NoWords;
        InputFieldNameCollision, 11, "duplicate definitions for the `{1}` field of `{0}`",
            NoWords;
        EnumValueNameCollision, 12, "duplicate definitions for the `{1}` value of enum `{0}`",
            NoWords;
        UnionMemberNameCollision, 13, "duplicate definitions for the `{1}` member of union `{0}`",
            NoWords;
        TypeSystemDefinition, 14, "an executable document must not contain {0}",
            Lacking {
                number: 1,
                unnamed: "The schema definition is not executable.",
                named: "The \"{1}\" definition is not executable.",
            };
        AmbiguousAnonymousOperation, 15, "anonymous operation cannot be selected when the document contains other operations",
            Words("This anonymous operation must be the only defined operation.");
        OperationNameCollision, 16, "the operation `{0}` is defined multiple times in the document",
            Words("There can be only one operation named \"{0}\".");
        FragmentNameCollision, 17, "the fragment `{0}` is defined multiple times in the document",
            Words("There can be only one fragment named \"{0}\".");
        UndefinedRootOperation, 18, "`{0}` root operation type is not defined",
            Words("The schema has no \"{0}\" root type defined");
        UndefinedField, 19, "type `{0}` does not have a field `{1}`",
            Words("Cannot query field \"{1}\" on type \"{0}\".");
        UndefinedTypeInNamedFragmentTypeCondition, 20, "type condition `{0}` is not a type defined in the schema",
            Words("Unknown type \"{0}\".");
        UndefinedTypeInInlineFragmentTypeCondition, 20, "type condition `{0}` is not a type defined in the schema",
            Words("Unknown type \"{0}\".");
        SubselectionOnScalarType, 21, "field `{1}` of type `{0}` cannot have selections",
            Words("Field \"{1}\" must not have a selection since type \"{0}\" has no subfields");
        SubselectionOnEnumType, 21, "field `{1}` of type `{0}` cannot have selections",
            Words("Field \"{1}\" must not have a selection since type \"{0}\" has no subfields");
        SubscriptionUsesMultipleFields, 22, "subscription can only have one root field",
            Lacking {
                number: 0,
                unnamed: "Anonymous Subscription must select only one top level field.",
                named: "Subscription \"{0}\" must select only one top level field.",
            };
        SubscriptionUsesIntrospection, 23, "subscription must not use an introspection root field",
            Lacking {
                number: 0,
                unnamed: "Anonymous Subscription must not select an introspection top level field.",
                named: "Subscription \"{0}\" must not select an introspection top level field.",
            };
        SubscriptionUsesConditionalSelection, 24, "subscription must not use @skip or @include at its root",
            Lacking {
                number: 0,
                unnamed: "Anonymous Subscription can not specify @skip or @include on root fields.",
                named: "Subscription \"{0}\" can not specify @skip or @include on root fields.",
            };
        UndefinedDefinition, 25, "cannot find type `{0}` in this document",
            Words("Unknown type \"{0}\".");
        UndefinedDirective, 26, "cannot find directive `@{0}` in this document",
            Words("Unknown directive \"@{0}\".");
        UnsupportedLocation, 27, "`@{0}` is not supported for {1} location",
            Words("Directive \"@{0}\" may not be used on {1}.");
        UniqueDirective, 28, "non-repeatable directive `@{0}` is used more than once",
            Words("The directive \"@{0}\" can only be used once at this location.");
        UniqueArgument, 29, "the argument `{0}` is not unique",
            Words("There can be only one argument named \"{0}\".");
        UndefinedArgument, 30, "the argument `{0}` is not supported by `{1}`",
            Words("Unknown argument \"{0}\" on field \"{1}\".");
        RequiredArgument, 31, "the required argument `{1}` is not provided",
            OfArgument {
                directive: "Directive \"{0}\" argument \"{1}\" of type \"{2}\" is required, but it was not provided.",
                field: "Field \"{0}\" argument \"{1}\" of type \"{2}\" is required, but it was not provided.",
            };
        UniqueInputValue, 32, "the value `{0}` is not unique",
            NoWords;
        OutputType, 33, "`{0}` field must return an output type",
            NoWords;
        InputType, 34, "`{0}` must have an input type",
            NoWords;
        QueryRootOperationType, 35, "missing query root operation type",
            NoWords;
        RootOperationObjectType, 36, "root operation type `{0}` must be an object type",
            NoWords;
        DuplicateRootOperationType, 37, "root operation type `{0}` is used twice",
            NoWords;
        UnionMemberObjectType, 38, "union member `{0}` must be an object type",
            NoWords;
        MissingInterfaceField, 39, "type `{0}` lacks field `{2}` of interface `{1}`",
            NoWords;
        TransitiveImplementedInterfaces, 40, "type `{0}` must also implement `{1}`",
            NoWords;
        InvalidImplementationFieldType, 41, "field `{0}.{2}` does not fit interface `{1}`",
            Words("Interface field {1}.{2} expects type {3} but {0}.{2} of type {4} is not a proper subtype.");
        MissingInterfaceFieldArgument, 42, "field `{0}.{2}` lacks argument `{3}` of `{1}`",
            Words("Interface field argument {1}.{2}({3}:) expected but {0}.{2} does not provide it.");
        InvalidImplementationFieldArgumentType, 43, "argument `{3}` of `{0}.{2}` does not fit `{1}`",
            Words("Interface field {1}.{2}({3}:) expects type {4} but {0}.{2}({3}:) is type {5}.");
        ExtraRequiredImplementationFieldArgument, 44, "argument `{3}` of `{0}.{2}` is not in `{1}`",
            Words("Object field {0}.{2} includes required argument {3} that is missing from the Interface field {1}.{2}.");
        EmptyFieldSet, 45, "`{0}` must not be empty",
            NoWords;
        EmptyValueSet, 45, "`{0}` must not be empty",
            NoWords;
        EmptyMemberSet, 45, "`{0}` must not be empty",
            NoWords;
        EmptyInputValueSet, 45, "`{0}` must not be empty",
            NoWords;
        ReservedName, 46, "`{0}` begins with two underscores",
            NoWords;
        RecursiveInterfaceDefinition, 47, "`{0}` interface cannot implement itself",
            NoWords;
        RecursiveInputObjectDefinition, 48, "`{0}` input object cannot reference itself",
            NoWords;
        RecursiveDirectiveDefinition, 49, "`{0}` directive definition cannot reference itself",
            NoWords;
        UnsupportedValueType, 50, "expected value of type {0}, found {1}",
            Words("{0} cannot represent value: {1}");
        IntCoercionError, 51, "int cannot represent value `{0}`",
            Words("Int cannot represent non 32-bit signed integer value: {0}");
        UndefinedEnumValue, 52, "value `{0}` does not exist on `{1}`",
            Words("Value \"{0}\" does not exist in \"{1}\" enum.");
        UndefinedInputValue, 53, "field `{0}` does not exist on `{1}`",
            Words("Field \"{0}\" is not defined by type \"{1}\".");
        RequiredField, 54, "the required field `{0}` is not provided",
            Words("Field \"{0}\" of required type \"{1}\" was not provided.");
        OneOfField, 55, "field `{0}.{1}` of a one-of input object must be nullable and have no default",
            NoWords;
        OneOfValue, 56, "one-of input object `{0}` must have exactly one non-null member",
            NoWords;
        UndefinedFragment, 57, "cannot find fragment `{0}` in this document",
            Words("Unknown fragment \"{0}\".");
        RecursiveFragmentDefinition, 58, "`{0}` fragment cannot reference itself",
            Words("Cannot spread fragment \"{0}\" within itself via {1}");
        UnusedFragment, 59, "fragment `{0}` must be used in an operation",
            Words("Fragment \"{0}\" is never used.");
        InvalidFragmentTarget, 60, "fragment cannot be applied to type `{1}`",
            Lacking {
                number: 0,
                unnamed: "Fragment cannot condition on non composite type \"{1}\".",
                named: "Fragment \"{0}\" cannot condition on non composite type \"{1}\".",
            };
        InvalidFragmentSpread, 61, "fragment on `{2}` cannot be applied to `{1}`",
            Lacking {
                number: 0,
                unnamed: "Fragment cannot be spread here as objects of type \"{1}\" can never be of type \"{2}\".",
                named: "Fragment \"{0}\" cannot be spread here as objects of type \"{1}\" can never be of type \"{2}\".",
            };
        UniqueVariable, 62, "the variable `${0}` is declared multiple times",
            Words("There can be only one variable named \"${0}\".");
        UnusedVariable, 63, "unused variable: `${0}`",
            Words("Variable \"${0}\" is never used.");
        UndefinedVariable, 64, "variable `${0}` is not defined",
            Words("Variable \"${0}\" is not defined.");
        VariableInputType, 65, "`${0}` variable must be of an input type",
            Words("Variable \"${0}\" cannot be non-input type \"{1}\".");
        DisallowedVariableUsage, 66, "`${0}` cannot be used as {2}",
            Words("Variable \"${0}\" of type \"{1}\" used in position expecting type \"{2}\".");
        MissingSubselection, 67, "field `{0}` of type `{1}` needs selections",
            Words("Field \"{0}\" of type \"{1}\" must have a selection of subfields. Did you mean \"{0} { ... }\"?");
        ConflictingFieldType, 68, "`{0}` is selected with conflicting types",
            Words("Fields \"{0}\" conflict because they return conflicting types \"{1} and \"{2}\". Use different aliases on the fields to fetch both if this was intentional.");
        ConflictingFieldName, 68, "`{0}` is selected with conflicting names",
            Words("Fields \"{0}\" conflict because \"{1}\" and \"{2}\" are different fields. Use different aliases on the fields to fetch both if this was intentional.");
        ConflictingFieldArgument, 68, "`{0}` is selected with conflicting arguments",
            Words("Fields \"{0}\" conflict because they have differing arguments. Use different aliases on the fields to fetch both if this was intentional.");
    }
}
