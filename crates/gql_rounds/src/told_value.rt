//! Values that were told, by the types of their fields.

ghost use Rattle.std.specs.Prelude.{◌≡◌, IfOk, codes};
ghost use Rattle.std.specs.Option.{option_copied};
ghost use Rattle.jb_tree.specs.Value.{array_items, object_members};
ghost use Rattle.gql_rounds.specs.Known.{beside, entity_of};
ghost use Rattle.gql_rounds.specs.ToldMeaning as spec;
ghost use Rattle.gql_rounds.specs.bridge.ToldMeaning as spec_bridge;
ghost use Rattle.gql_exec.specs.Mapped.{all_mapped, mapped};
ghost use Rattle.gql_resolvers.specs.DataMeaning.{failure_text as text_of_failure, text_member as member_text};
ghost use Rattle.gql_resolvers.specs.Meaning.{Answers as Gives, item_by};
ghost use Rattle.gql_resolvers.specs.bridge.Meaning.{IsFailure};
ghost use Rattle.gql_resolvers.specs.Resolved.{gives_leaf, gives_list};

use crate::answers::Answers;
use crate::told::Told;
use gql_ast_base::TypeRef;
use gql_resolvers::{FieldError, ResolveError, ResolvedValue};
use jb_text::{Listed, Memory, Text};
use jb_tree::{Map, Value};
use std::alloc::{AllocError, Global};

/// The member that makes a value a failure with its text.
const ERROR_MEMBER: &str = "__error";

/// The member with the number of an object.
const OBJECT_MEMBER: &str = "object";

/// The member with the name of an object's type.
const TYPE_MEMBER: &str = "type";

/// What stays the same while a value is read: the table, and whether objects of the caller's can stand in it.
#[derive(Clone, Copy)]
pub(crate) struct ToldValue<'t> {
    pub(crate) alloc: Global,
    pub(crate) answers: &'t Answers,
    pub(crate) composite: bool,
}

impl<'t> ToldValue<'t> {
    /// A value at a type.
    #[cycle(told)]
    pub(crate) fn value(
        &self,
        ty: &TypeRef,
        value: &'t Value,
    ) -> Result<ResolvedValue<Told<'t>>, ResolveError>
        ensures { Gives entity_of result (mapped (beside self.now.answers.now) (spec.told_value self.now.composite ty.now value.now)) }
    {
        match failure_text(value) {
            Some(text) => Err(failure(self.alloc, text)),
            None => self.unfailed(ty, value),
        }
    }

    /// A value that is no failure at a type.
    #[cycle(told)]
    fn unfailed(
        &self,
        ty: &TypeRef,
        value: &'t Value,
    ) -> Result<ResolvedValue<Told<'t>>, ResolveError>
        ensures { Gives entity_of result (mapped (beside self.now.answers.now) (spec_bridge.unfailed self.now.composite ty.now value.now)) }
    {
        match ty.item_type() {
            Some(item) => self.list_or_leaf(item, value),
            None => self.object_or_leaf(value),
        }
    }

    /// A value at the type of a list of such items.
    #[cycle(told)]
    fn list_or_leaf(
        &self,
        item: &TypeRef,
        value: &'t Value,
    ) -> Result<ResolvedValue<Told<'t>>, ResolveError>
        ensures { Gives entity_of result (mapped (beside self.now.answers.now)
            (spec.list_or_leaf (spec.told_value self.now.composite item.now) value.now (array_items value.now))) }
    {
        match value {
            Value::Array(values) => self.list(item, values),
            _ => leaf(self.alloc, value),
        }
    }

    /// A list of these values at such a type each.
    #[cycle(told)]
    fn list(
        &self,
        item: &TypeRef,
        values: &'t Listed<Value>,
    ) -> Result<ResolvedValue<Told<'t>>, ResolveError>
        ensures { Gives entity_of result (gives_list (all_mapped (beside self.now.answers.now)
            (spec.told_items (spec.told_value self.now.composite item.now) values.now))) }
    {
        let mut items = Listed::with_capacity(self.alloc, values.len())?;
        for value in values.as_slice() {
            items.push(self.item(item, value)?)?;
        }
        Ok(ResolvedValue::List(items))
    }

    /// An item of a list, which may have failed.
    #[cycle(told)]
    fn item(
        &self,
        ty: &TypeRef,
        value: &'t Value,
    ) -> Result<Result<ResolvedValue<Told<'t>>, FieldError>, Memory>
        ensures { IfOk result (λ made. item_by entity_of made ≡ mapped (beside self.now.answers.now) (spec.told_value self.now.composite ty.now value.now)) }
    {
        match self.value(ty, value) {
            Ok(made) => Ok(Ok(made)),
            Err(ResolveError::Field(error)) => Ok(Err(error)),
            Err(ResolveError::Memory) => Err(AllocError),
        }
    }

    /// A value at a type that is no list's.
    fn object_or_leaf(&self, value: &'t Value) -> Result<ResolvedValue<Told<'t>>, ResolveError>
        ensures { Gives entity_of result (mapped (beside self.now.answers.now)
            (spec.object_or_leaf self.now.composite value.now (object_members value.now))) }
    {
        match (self.composite, value) {
            (true, Value::Object(members)) => self.known_or_leaf(value, members),
            _ => leaf(self.alloc, value),
        }
    }

    /// The object of these members, where they tell one.
    fn known_or_leaf(
        &self,
        value: &'t Value,
        members: &'t Map,
    ) -> Result<ResolvedValue<Told<'t>>, ResolveError>
        ensures { Gives entity_of result (mapped (beside self.now.answers.now)
            (spec.known_or_leaf value.now (spec.number_member (codes "object") members.now) (member_text (codes "type") members.now))) }
    {
        match (number_member(members), text_member(members, TYPE_MEMBER)) {
            (Some(number), Some(type_name)) => Ok(ResolvedValue::Object(Told {
                answers: self.answers,
                number,
                type_name,
            })),
            _ => leaf(self.alloc, value),
        }
    }
}

/// A value as it stands.
fn leaf<'t>(alloc: Global, value: &Value) -> Result<ResolvedValue<Told<'t>>, ResolveError>
    ensures { Gives entity_of result (gives_leaf value.now) }
{
    Ok(ResolvedValue::Leaf(value.copy(alloc)?))
}

/// The number of an object that these members tell.
fn number_member(members: &Map) -> Option<u64>
    ensures { result ≡ spec.number_member (codes "object") members.now }
{
    members.get(OBJECT_MEMBER)?.as_u64()
}

/// The text of a value that stands for a failure.
fn failure_text(value: &Value) -> Option<&str>
    ensures { option_copied result ≡ text_of_failure value.now }
{
    text_member(value.as_object()?, ERROR_MEMBER)
}

/// The text of a member, where it is one.
fn text_member<'t>(members: &'t Map, name: &str) -> Option<&'t str>
    ensures { option_copied result ≡ member_text name.now members.now }
{
    members.get(name)?.as_str()
}

/// A resolver's failure with this text.
fn failure(alloc: Global, text: &str) -> ResolveError
    ensures { IsFailure result text.now }
{
    match Text::from_str(alloc, text) {
        Ok(message) => ResolveError::Field(FieldError { message }),
        Err(_) => ResolveError::Memory,
    }
}
