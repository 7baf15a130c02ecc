//! The ways to write extensions.

ghost use Rattle.std.specs.Prelude.{◌≡◌};
ghost use Rattle.gql_grammar.specs.Starts as spec;

use crate::Rule::*;
use crate::Symbol::{Eager, One, Optional, Token};
use crate::Terminal::{AnyName, Exactly};
use crate::Word::*;
use crate::{Rule, Symbol, Word};

pub(crate) const EXTENSION: &[Symbol] = &[Token(Exactly(ExtendWord)), One(ExtendedDefinition)];

pub(crate) fn extended_definition(word: Word) -> &'static [Symbol]
    ensures { result.now ≡ spec.chosen_way Rule.ExtendedDefinition word }
{
    if Word::SchemaWord.is(word) {
        &[Token(Exactly(SchemaWord)), One(SchemaParts)]
    } else if Word::ScalarWord.is(word) {
        &[
            Token(Exactly(ScalarWord)),
            Token(AnyName),
            One(ConstDirectives),
        ]
    } else if Word::TypeWord.is(word) {
        &[Token(Exactly(TypeWord)), Token(AnyName), One(ObjectParts)]
    } else if Word::InterfaceWord.is(word) {
        &[
            Token(Exactly(InterfaceWord)),
            Token(AnyName),
            One(ObjectParts),
        ]
    } else if Word::UnionWord.is(word) {
        &[Token(Exactly(UnionWord)), Token(AnyName), One(UnionParts)]
    } else if Word::EnumWord.is(word) {
        &[Token(Exactly(EnumWord)), Token(AnyName), One(EnumParts)]
    } else {
        &[Token(Exactly(InputWord)), Token(AnyName), One(InputParts)]
    }
}

pub(crate) fn schema_parts(word: Word) -> &'static [Symbol]
    ensures { result.now ≡ spec.chosen_way Rule.SchemaParts word }
{
    if Rule::ConstDirectives.starts(word) {
        &[One(ConstDirectives), Eager(RootOperations)]
    } else {
        &[One(RootOperations)]
    }
}

pub(crate) fn object_parts(word: Word) -> &'static [Symbol]
    ensures { result.now ≡ spec.chosen_way Rule.ObjectParts word }
{
    if Rule::ImplementsInterfaces.starts(word) {
        &[
            One(ImplementsInterfaces),
            Optional(ConstDirectives),
            Eager(FieldsDefinition),
        ]
    } else if Rule::ConstDirectives.starts(word) {
        &[One(ConstDirectives), Eager(FieldsDefinition)]
    } else {
        &[One(FieldsDefinition)]
    }
}

pub(crate) fn union_parts(word: Word) -> &'static [Symbol]
    ensures { result.now ≡ spec.chosen_way Rule.UnionParts word }
{
    if Rule::ConstDirectives.starts(word) {
        &[One(ConstDirectives), Optional(UnionMemberTypes)]
    } else {
        &[One(UnionMemberTypes)]
    }
}

pub(crate) fn enum_parts(word: Word) -> &'static [Symbol]
    ensures { result.now ≡ spec.chosen_way Rule.EnumParts word }
{
    if Rule::ConstDirectives.starts(word) {
        &[One(ConstDirectives), Eager(EnumValuesDefinition)]
    } else {
        &[One(EnumValuesDefinition)]
    }
}

pub(crate) fn input_parts(word: Word) -> &'static [Symbol]
    ensures { result.now ≡ spec.chosen_way Rule.InputParts word }
{
    if Rule::ConstDirectives.starts(word) {
        &[One(ConstDirectives), Eager(InputFieldsDefinition)]
    } else {
        &[One(InputFieldsDefinition)]
    }
}
