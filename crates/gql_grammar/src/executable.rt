//! The ways to write documents, operations, selections and fragments.

ghost use Rattle.std.specs.Prelude.{◌≡◌};
ghost use Rattle.gql_grammar.specs.Starts as spec;

use crate::Rule::*;
use crate::Symbol::{One, Optional, Repeated, Token, Wrap};
use crate::Terminal::{AnyName, Exactly, NameButOn};
use crate::Word::*;
use crate::{Rule, Symbol, SyntaxKind, Word};

pub(crate) const DOCUMENT: &[Symbol] = &[One(Definition), Repeated(Definition)];

pub(crate) const OPERATION_TYPE: &[Symbol] = &[Token(Exactly(OperationWord))];

pub(crate) const SELECTION_SET: &[Symbol] = &[
    Token(Exactly(BraceOpen)),
    One(Selection),
    Repeated(Selection),
    Token(Exactly(BraceClose)),
];

pub(crate) const FIELD: &[Symbol] = &[
    Token(AnyName),
    Optional(AliasTail),
    Optional(Arguments),
    Optional(Directives),
    Optional(SelectionSet),
];

pub(crate) const ALIAS: &[Symbol] = &[Token(AnyName), Token(Exactly(Colon))];

pub(crate) const ARGUMENTS: &[Symbol] = &[
    Token(Exactly(ParenOpen)),
    One(Argument),
    Repeated(Argument),
    Token(Exactly(ParenClose)),
];

pub(crate) const ARGUMENT: &[Symbol] = &[Token(AnyName), Token(Exactly(Colon)), One(Value)];

pub(crate) const FRAGMENT_SPREAD: &[Symbol] = &[
    Token(Exactly(Spread)),
    One(FragmentName),
    Optional(Directives),
];

pub(crate) const INLINE_FRAGMENT: &[Symbol] = &[
    Token(Exactly(Spread)),
    Optional(TypeCondition),
    Optional(Directives),
    One(SelectionSet),
];

pub(crate) const FRAGMENT_DEFINITION: &[Symbol] = &[
    Token(Exactly(FragmentWord)),
    One(FragmentName),
    One(TypeCondition),
    Optional(Directives),
    One(SelectionSet),
];

pub(crate) const FRAGMENT_NAME: &[Symbol] = &[Token(NameButOn)];

pub(crate) const TYPE_CONDITION: &[Symbol] = &[Token(Exactly(OnWord)), One(NamedType)];

pub(crate) const OPERATION_NAME: &[Symbol] = &[Token(AnyName)];

pub(crate) const ALIAS_TAIL: &[Symbol] = &[
    Token(Exactly(Colon)),
    Wrap(SyntaxKind::Alias),
    Token(AnyName),
];

pub(crate) fn definition(word: Word) -> &'static [Symbol]
    ensures { result.now ≡ spec.chosen_way Rule.Definition word }
{
    if Rule::OperationDefinition.starts(word) {
        &[One(OperationDefinition)]
    } else if Rule::FragmentDefinition.starts(word) {
        &[One(FragmentDefinition)]
    } else if Rule::Extension.starts(word) {
        &[One(Extension)]
    } else {
        &[Optional(Description), One(DescribedDefinition)]
    }
}

pub(crate) fn operation_definition(word: Word) -> &'static [Symbol]
    ensures { result.now ≡ spec.chosen_way Rule.OperationDefinition word }
{
    if Rule::SelectionSet.starts(word) {
        &[One(SelectionSet)]
    } else {
        &[
            One(OperationType),
            Optional(OperationName),
            Optional(VariableDefinitions),
            Optional(Directives),
            One(SelectionSet),
        ]
    }
}

pub(crate) fn selection(word: Word) -> &'static [Symbol]
    ensures { result.now ≡ spec.chosen_way Rule.Selection word }
{
    if Rule::Field.starts(word) {
        &[One(Field)]
    } else {
        &[Token(Exactly(Spread)), One(AfterSpread)]
    }
}

pub(crate) fn field_set(word: Word) -> &'static [Symbol]
    ensures { result.now ≡ spec.chosen_way Rule.FieldSet word }
{
    if Rule::SelectionSet.starts(word) {
        &[One(SelectionSet)]
    } else {
        &[One(Selection), Repeated(Selection)]
    }
}

pub(crate) fn after_spread(word: Word) -> &'static [Symbol]
    ensures { result.now ≡ spec.chosen_way Rule.AfterSpread word }
{
    if Rule::FragmentName.starts(word) {
        &[
            One(FragmentName),
            Optional(Directives),
            Wrap(SyntaxKind::FragmentSpread),
        ]
    } else {
        &[
            Optional(TypeCondition),
            Optional(Directives),
            One(SelectionSet),
            Wrap(SyntaxKind::InlineFragment),
        ]
    }
}
