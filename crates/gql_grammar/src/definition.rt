//! The ways to write the definitions of schemas, types and directives.

ghost use Rattle.std.specs.Prelude.{◌≡◌};
ghost use Rattle.gql_grammar.specs.Starts as spec;

use crate::Rule::*;
use crate::Symbol::{Eager, One, Optional, Repeated, Token, Wrap};
use crate::Terminal::{AnyName, Exactly};
use crate::Word::*;
use crate::{Rule, Symbol, SyntaxKind, Word};

pub(crate) const SCHEMA_DEFINITION: &[Symbol] = &[
    Optional(Description),
    Token(Exactly(SchemaWord)),
    Optional(ConstDirectives),
    One(RootOperations),
];

pub(crate) const ROOT_OPERATION_TYPE_DEFINITION: &[Symbol] = &[
    One(OperationType),
    Token(Exactly(Colon)),
    One(NamedType),
];

pub(crate) const SCALAR_TYPE_DEFINITION: &[Symbol] = &[
    Optional(Description),
    Token(Exactly(ScalarWord)),
    Token(AnyName),
    Optional(ConstDirectives),
];

pub(crate) const OBJECT_TYPE_DEFINITION: &[Symbol] = &[
    Optional(Description),
    Token(Exactly(TypeWord)),
    Token(AnyName),
    Optional(ImplementsInterfaces),
    Optional(ConstDirectives),
    Eager(FieldsDefinition),
];

pub(crate) const INTERFACE_TYPE_DEFINITION: &[Symbol] = &[
    Optional(Description),
    Token(Exactly(InterfaceWord)),
    Token(AnyName),
    Optional(ImplementsInterfaces),
    Optional(ConstDirectives),
    Eager(FieldsDefinition),
];

pub(crate) const IMPLEMENTS_INTERFACES: &[Symbol] = &[
    Token(Exactly(ImplementsWord)),
    Optional(AmpersandSign),
    One(NamedType),
    Repeated(AmpersandType),
];

pub(crate) const FIELDS_DEFINITION: &[Symbol] = &[
    Token(Exactly(BraceOpen)),
    One(FieldDefinition),
    Repeated(FieldDefinition),
    Token(Exactly(BraceClose)),
];

pub(crate) const FIELD_DEFINITION: &[Symbol] = &[
    Optional(Description),
    Token(AnyName),
    Optional(ArgumentsDefinition),
    Token(Exactly(Colon)),
    One(TypeReference),
    Optional(ConstDirectives),
];

pub(crate) const ARGUMENTS_DEFINITION: &[Symbol] = &[
    Token(Exactly(ParenOpen)),
    One(InputValueDefinition),
    Repeated(InputValueDefinition),
    Token(Exactly(ParenClose)),
];

pub(crate) const INPUT_VALUE_DEFINITION: &[Symbol] = &[
    Optional(Description),
    Token(AnyName),
    Token(Exactly(Colon)),
    One(TypeReference),
    Optional(DefaultValue),
    Optional(ConstDirectives),
];

pub(crate) const UNION_TYPE_DEFINITION: &[Symbol] = &[
    Optional(Description),
    Token(Exactly(UnionWord)),
    Token(AnyName),
    Optional(ConstDirectives),
    Optional(UnionMemberTypes),
];

pub(crate) const UNION_MEMBER_TYPES: &[Symbol] = &[
    Token(Exactly(Equals)),
    Optional(BarSign),
    One(NamedType),
    Repeated(BarType),
];

pub(crate) const ENUM_TYPE_DEFINITION: &[Symbol] = &[
    Optional(Description),
    Token(Exactly(EnumWord)),
    Token(AnyName),
    Optional(ConstDirectives),
    Eager(EnumValuesDefinition),
];

pub(crate) const ENUM_VALUES_DEFINITION: &[Symbol] = &[
    Token(Exactly(BraceOpen)),
    One(EnumValueDefinition),
    Repeated(EnumValueDefinition),
    Token(Exactly(BraceClose)),
];

pub(crate) const ENUM_VALUE_DEFINITION: &[Symbol] = &[
    Optional(Description),
    One(EnumValue),
    Optional(ConstDirectives),
];

pub(crate) const INPUT_OBJECT_TYPE_DEFINITION: &[Symbol] = &[
    Optional(Description),
    Token(Exactly(InputWord)),
    Token(AnyName),
    Optional(ConstDirectives),
    Eager(InputFieldsDefinition),
];

pub(crate) const INPUT_FIELDS_DEFINITION: &[Symbol] = &[
    Token(Exactly(BraceOpen)),
    One(InputValueDefinition),
    Repeated(InputValueDefinition),
    Token(Exactly(BraceClose)),
];

pub(crate) const DIRECTIVE_DEFINITION: &[Symbol] = &[
    Optional(Description),
    Token(Exactly(DirectiveWord)),
    Token(Exactly(At)),
    Token(AnyName),
    Optional(ArgumentsDefinition),
    Optional(RepeatableSign),
    Token(Exactly(OnWord)),
    Optional(BarSign),
    Token(Exactly(LocationWord)),
    Repeated(BarLocation),
];

pub(crate) const ROOT_OPERATIONS: &[Symbol] = &[
    Token(Exactly(BraceOpen)),
    One(RootOperationTypeDefinition),
    Repeated(RootOperationTypeDefinition),
    Token(Exactly(BraceClose)),
];

pub(crate) const AMPERSAND_SIGN: &[Symbol] = &[Token(Exactly(Ampersand))];

pub(crate) const AMPERSAND_TYPE: &[Symbol] = &[Token(Exactly(Ampersand)), One(NamedType)];

pub(crate) const BAR_SIGN: &[Symbol] = &[Token(Exactly(Bar))];

pub(crate) const BAR_TYPE: &[Symbol] = &[Token(Exactly(Bar)), One(NamedType)];

pub(crate) const BAR_LOCATION: &[Symbol] = &[Token(Exactly(Bar)), Token(Exactly(LocationWord))];

pub(crate) const REPEATABLE_SIGN: &[Symbol] = &[Token(Exactly(RepeatableWord))];

pub(crate) fn described_definition(word: Word) -> &'static [Symbol]
    ensures { result.now ≡ spec.chosen_way Rule.DescribedDefinition word }
{
    if Word::SchemaWord.is(word) {
        &[
            Token(Exactly(SchemaWord)),
            Optional(ConstDirectives),
            One(RootOperations),
            Wrap(SyntaxKind::SchemaDefinition),
        ]
    } else if Word::ScalarWord.is(word) {
        &[
            Token(Exactly(ScalarWord)),
            Token(AnyName),
            Optional(ConstDirectives),
            Wrap(SyntaxKind::ScalarTypeDefinition),
        ]
    } else if Word::TypeWord.is(word) {
        &[
            Token(Exactly(TypeWord)),
            Token(AnyName),
            Optional(ImplementsInterfaces),
            Optional(ConstDirectives),
            Eager(FieldsDefinition),
            Wrap(SyntaxKind::ObjectTypeDefinition),
        ]
    } else if Word::InterfaceWord.is(word) {
        &[
            Token(Exactly(InterfaceWord)),
            Token(AnyName),
            Optional(ImplementsInterfaces),
            Optional(ConstDirectives),
            Eager(FieldsDefinition),
            Wrap(SyntaxKind::InterfaceTypeDefinition),
        ]
    } else if Word::UnionWord.is(word) {
        &[
            Token(Exactly(UnionWord)),
            Token(AnyName),
            Optional(ConstDirectives),
            Optional(UnionMemberTypes),
            Wrap(SyntaxKind::UnionTypeDefinition),
        ]
    } else if Word::EnumWord.is(word) {
        &[
            Token(Exactly(EnumWord)),
            Token(AnyName),
            Optional(ConstDirectives),
            Eager(EnumValuesDefinition),
            Wrap(SyntaxKind::EnumTypeDefinition),
        ]
    } else if Word::InputWord.is(word) {
        &[
            Token(Exactly(InputWord)),
            Token(AnyName),
            Optional(ConstDirectives),
            Eager(InputFieldsDefinition),
            Wrap(SyntaxKind::InputObjectTypeDefinition),
        ]
    } else {
        &[
            Token(Exactly(DirectiveWord)),
            Token(Exactly(At)),
            Token(AnyName),
            Optional(ArgumentsDefinition),
            Optional(RepeatableSign),
            Token(Exactly(OnWord)),
            Optional(BarSign),
            Token(Exactly(LocationWord)),
            Repeated(BarLocation),
            Wrap(SyntaxKind::DirectiveDefinition),
        ]
    }
}
