//! What the trees of a row stand for. Contracts speak of it; no program holds more of it than a role, since a part is as large as the
//! largest of them, and would be moved at each node.

use crate::place::Place;
use gql_ast::{
    Definition, EnumValueDefinition, FieldDefinition, InputValueDefinition, Selection,
    VariableDefinition,
};
use gql_ast_base::{Argument, Directive, Name, OperationType, TypeRef, Value, ValueKind};
use jb_text::{Listed, Text};

/// What a node with one name in it says by that name.
#[derive(Clone, Copy, Debug, PartialEq, Eq)]
pub(crate) enum Role {
    Alias,
    FragmentName,
    TypeCondition,
    EnumValue,
    Variable,
    NamedType,
}

/// A list that a node is, in the node around it.
#[derive(Drop)]
pub(crate) enum Group {
    Arguments(Listed<Argument>),
    Directives(Listed<Directive>),
    Selections(Listed<Selection>),
    Variables(Listed<VariableDefinition>),
    Inputs(Listed<InputValueDefinition>),
    InputFields(Listed<InputValueDefinition>),
    Fields(Listed<FieldDefinition>),
    EnumValues(Listed<EnumValueDefinition>),
    Interfaces(Listed<Name>),
    Members(Listed<Name>),
}

/// What a node is that is one of many of its sort, or that the node around it is; nothing where it lacks a required part.
#[derive(Drop)]
pub(crate) enum Item {
    Content(Option<ValueKind>),
    Value(Option<Value>),
    Pair(Option<(Name, Value)>),
    Argument(Option<Argument>),
    Directive(Option<Directive>),
    Choice(Option<Selection>),
    Selection(Option<Selection>),
    Variable(Option<VariableDefinition>),
    Input(Option<InputValueDefinition>),
    Field(Option<FieldDefinition>),
    EnumValue(Option<EnumValueDefinition>),
    Defined(Option<Definition>),
    Definition(Option<Definition>),
}

/// What a tree stands for in the row that it is a part of.
#[derive(Drop)]
pub(crate) enum Part {
    /// A token that is a name.
    Word(Place),
    /// A token that is a number or a string.
    Literal(Place),
    /// A node with a name in it, if it has one.
    Named(Role, Option<Place>),
    Operation(Option<OperationType>),
    RootOperation(Option<(OperationType, Name)>),
    /// One way to refer to a type.
    Form(Option<TypeRef>),
    Type(Option<TypeRef>),
    DefaultValue(Option<Value>),
    Description(Option<Text>),
    Group(Group),
    Item(Item),
}
