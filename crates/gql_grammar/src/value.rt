//! The ways to write values, variables, types and directives.

ghost use Rattle.std.specs.Prelude.{◌≡◌};
ghost use Rattle.gql_grammar.specs.Starts as spec;

use crate::Rule::*;
use crate::Symbol::{One, Optional, Repeated, Token, Wrap};
use crate::Terminal::{AnyName, Exactly, NameButLiteral};
use crate::Word::*;
use crate::{Rule, Symbol, SyntaxKind, Word};

pub(crate) const BOOLEAN_VALUE: &[Symbol] = &[Token(Exactly(BooleanWord))];

pub(crate) const NULL_VALUE: &[Symbol] = &[Token(Exactly(NullWord))];

pub(crate) const ENUM_VALUE: &[Symbol] = &[Token(NameButLiteral)];

pub(crate) const VARIABLE: &[Symbol] = &[Token(Exactly(Dollar)), Token(AnyName)];

pub(crate) const LIST_VALUE: &[Symbol] = &[
    Token(Exactly(BracketOpen)),
    Repeated(Value),
    Token(Exactly(BracketClose)),
];

pub(crate) const CONST_LIST_VALUE: &[Symbol] = &[
    Token(Exactly(BracketOpen)),
    Repeated(ConstValue),
    Token(Exactly(BracketClose)),
];

pub(crate) const OBJECT_VALUE: &[Symbol] = &[
    Token(Exactly(BraceOpen)),
    Repeated(ObjectField),
    Token(Exactly(BraceClose)),
];

pub(crate) const CONST_OBJECT_VALUE: &[Symbol] = &[
    Token(Exactly(BraceOpen)),
    Repeated(ConstObjectField),
    Token(Exactly(BraceClose)),
];

pub(crate) const OBJECT_FIELD: &[Symbol] = &[Token(AnyName), Token(Exactly(Colon)), One(Value)];

pub(crate) const CONST_OBJECT_FIELD: &[Symbol] = &[
    Token(AnyName),
    Token(Exactly(Colon)),
    One(ConstValue),
];

pub(crate) const VARIABLE_DEFINITIONS: &[Symbol] = &[
    Token(Exactly(ParenOpen)),
    One(VariableDefinition),
    Repeated(VariableDefinition),
    Token(Exactly(ParenClose)),
];

pub(crate) const VARIABLE_DEFINITION: &[Symbol] = &[
    One(Variable),
    Token(Exactly(Colon)),
    One(TypeReference),
    Optional(DefaultValue),
    Optional(ConstDirectives),
];

pub(crate) const DEFAULT_VALUE: &[Symbol] = &[Token(Exactly(Equals)), One(ConstValue)];

pub(crate) const TYPE_REFERENCE: &[Symbol] = &[One(TypeCore), Optional(BangTail)];

pub(crate) const NAMED_TYPE: &[Symbol] = &[Token(AnyName)];

pub(crate) const LIST_TYPE: &[Symbol] = &[
    Token(Exactly(BracketOpen)),
    One(TypeReference),
    Token(Exactly(BracketClose)),
];

pub(crate) const NON_NULL_TYPE: &[Symbol] = &[One(TypeCore), Token(Exactly(Bang))];

pub(crate) const DIRECTIVES: &[Symbol] = &[One(Directive), Repeated(Directive)];

pub(crate) const CONST_DIRECTIVES: &[Symbol] = &[One(ConstDirective), Repeated(ConstDirective)];

pub(crate) const DIRECTIVE: &[Symbol] = &[Token(Exactly(At)), Token(AnyName), Optional(Arguments)];

pub(crate) const CONST_DIRECTIVE: &[Symbol] = &[
    Token(Exactly(At)),
    Token(AnyName),
    Optional(ConstArguments),
];

pub(crate) const CONST_ARGUMENTS: &[Symbol] = &[
    Token(Exactly(ParenOpen)),
    One(ConstArgument),
    Repeated(ConstArgument),
    Token(Exactly(ParenClose)),
];

pub(crate) const CONST_ARGUMENT: &[Symbol] = &[
    Token(AnyName),
    Token(Exactly(Colon)),
    One(ConstValue),
];

pub(crate) const DESCRIPTION: &[Symbol] = &[Token(Exactly(StringLiteral))];

pub(crate) const BANG_TAIL: &[Symbol] = &[Token(Exactly(Bang)), Wrap(SyntaxKind::NonNullType)];

pub(crate) fn value(word: Word) -> &'static [Symbol]
    ensures { result.now ≡ spec.chosen_way Rule.Value word }
{
    if Rule::Variable.starts(word) {
        &[One(Variable)]
    } else if Word::IntLiteral.is(word) {
        &[Token(Exactly(IntLiteral))]
    } else if Word::FloatLiteral.is(word) {
        &[Token(Exactly(FloatLiteral))]
    } else if Word::StringLiteral.is(word) {
        &[Token(Exactly(StringLiteral))]
    } else if Rule::BooleanValue.starts(word) {
        &[One(BooleanValue)]
    } else if Rule::NullValue.starts(word) {
        &[One(NullValue)]
    } else if Rule::EnumValue.starts(word) {
        &[One(EnumValue)]
    } else if Rule::ListValue.starts(word) {
        &[One(ListValue)]
    } else {
        &[One(ObjectValue)]
    }
}

pub(crate) fn const_value(word: Word) -> &'static [Symbol]
    ensures { result.now ≡ spec.chosen_way Rule.ConstValue word }
{
    if Word::IntLiteral.is(word) {
        &[Token(Exactly(IntLiteral))]
    } else if Word::FloatLiteral.is(word) {
        &[Token(Exactly(FloatLiteral))]
    } else if Word::StringLiteral.is(word) {
        &[Token(Exactly(StringLiteral))]
    } else if Rule::BooleanValue.starts(word) {
        &[One(BooleanValue)]
    } else if Rule::NullValue.starts(word) {
        &[One(NullValue)]
    } else if Rule::EnumValue.starts(word) {
        &[One(EnumValue)]
    } else if Rule::ConstListValue.starts(word) {
        &[One(ConstListValue)]
    } else {
        &[One(ConstObjectValue)]
    }
}

pub(crate) fn type_core(word: Word) -> &'static [Symbol]
    ensures { result.now ≡ spec.chosen_way Rule.TypeCore word }
{
    if Rule::NamedType.starts(word) {
        &[One(NamedType)]
    } else {
        &[One(ListType)]
    }
}
