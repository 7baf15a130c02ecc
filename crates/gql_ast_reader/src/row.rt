//! What an open node keeps of the trees in it.

use crate::place::Place;
use gql_ast::{
    Definition, DirectiveLocation, EnumValueDefinition, FieldDefinition, InputValueDefinition,
    Selection, VariableDefinition,
};
use gql_ast_base::{Argument, Directive, Name, OperationType, TypeRef, Value, ValueKind};
use jb_text::{Listed, Text};

mod contents;
mod group_slots;
pub(crate) mod keeping;
mod own_items;
mod own_slots;
mod role_slots;
mod single_slots;
mod taking;
mod word_slots;

/// The names among the tokens of a row.
#[derive(Drop)]
pub(crate) struct Words {
    pub(crate) one: Option<Place>,
    pub(crate) two: Option<Place>,
    pub(crate) three: Option<Place>,
    /// What those behind the second say of where a directive may stand.
    pub(crate) locations: Listed<DirectiveLocation>,
}

/// For each role the first node of it, and in it its name.
#[derive(Clone, Copy)]
pub(crate) struct Roles {
    pub(crate) alias: Option<Option<Place>>,
    pub(crate) fragment_name: Option<Option<Place>>,
    pub(crate) type_condition: Option<Option<Place>>,
    pub(crate) enum_value: Option<Option<Place>>,
    pub(crate) variable: Option<Option<Place>>,
    pub(crate) named_type: Option<Option<Place>>,
}

/// The first of each sort of which a row has one.
#[derive(Drop)]
pub(crate) struct Singles {
    pub(crate) operation: Option<OperationType>,
    pub(crate) form: Option<TypeRef>,
    pub(crate) ty: Option<TypeRef>,
    pub(crate) default_value: Option<Option<Value>>,
    pub(crate) description: Option<Option<Text>>,
}

/// The first of each sort of list; the root operations one by one.
#[derive(Drop)]
pub(crate) struct Groups {
    pub(crate) arguments: Option<Listed<Argument>>,
    pub(crate) directives: Option<Listed<Directive>>,
    pub(crate) selections: Option<Listed<Selection>>,
    pub(crate) variables: Option<Listed<VariableDefinition>>,
    pub(crate) inputs: Option<Listed<InputValueDefinition>>,
    pub(crate) input_fields: Option<Listed<InputValueDefinition>>,
    pub(crate) fields: Option<Listed<FieldDefinition>>,
    pub(crate) enum_values: Option<Listed<EnumValueDefinition>>,
    pub(crate) interfaces: Option<Listed<Name>>,
    pub(crate) members: Option<Listed<Name>>,
}

/// What only rows of one sort of node keep.
#[derive(Drop)]
pub(crate) enum Own {
    Nothing,
    /// The first that stands for one, or none yet.
    Content(Option<ValueKind>),
    Text(Option<Text>),
    Value(Option<Value>),
    Choice(Option<Selection>),
    Defined(Option<Definition>),
    /// All that stand for one.
    Arguments(Listed<Argument>),
    Directives(Listed<Directive>),
    Selections(Listed<Selection>),
    Values(Listed<Value>),
    Pairs(Listed<(Name, Value)>),
    Variables(Listed<VariableDefinition>),
    Inputs(Listed<InputValueDefinition>),
    Fields(Listed<FieldDefinition>),
    EnumValues(Listed<EnumValueDefinition>),
    Names(Listed<Name>),
    Definitions(Listed<Definition>),
}

/// What an open node keeps of the trees in it: all that its kind looks for.
#[derive(Drop)]
pub(crate) struct Row {
    pub(crate) words: Words,
    pub(crate) roles: Roles,
    pub(crate) singles: Singles,
    pub(crate) groups: Groups,
    pub(crate) root_operations: Listed<(OperationType, Name)>,
    pub(crate) own: Own,
}
