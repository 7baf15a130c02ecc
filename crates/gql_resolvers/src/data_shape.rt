//! Values of plain JSON data, shaped by types.

ghost use Rattle.std.specs.Prelude.{◌≡◌, IfOk};
ghost use Rattle.std.specs.Option.{option_copied};
ghost use Rattle.jb_tree.specs.Value.{array_items, object_members};
ghost use Rattle.gql_resolvers.specs.Resolved.{gives_leaf, gives_list};
ghost use Rattle.gql_resolvers.specs.Meaning.{Answers, item_by, itself};
ghost use Rattle.gql_resolvers.specs.bridge.Meaning.{IsFailure};
ghost use Rattle.gql_resolvers.specs.DataMeaning as spec;
ghost use Rattle.gql_resolvers.specs.bridge.DataMeaning as spec_bridge;
ghost use Rattle.gql_resolvers.specs.bridge.DataShape.{composite_of};
ghost use Rattle.gql_resolvers.specs.DataName.{name_of};

use crate::data_object::{DataObject, ObjectName};
use crate::resolve_error::{FieldError, ResolveError};
use crate::resolved_value::ResolvedValue;
use gql_ast_base::{Name, TypeRef};
use jb_text::{Listed, Memory, Text};
use jb_tree::{Map, Value};
use std::alloc::{AllocError, Global};

/// The member that makes an object of the data a failure with its text.
const ERROR_MEMBER: &str = "__error";

/// The member that names the type of an object of the data.
const TYPE_NAME_MEMBER: &str = "__typename";

/// What stays the same while a value is shaped: the name within all lists of its type, where that is an object, an
/// interface or a union type.
#[derive(Clone, Copy)]
pub(crate) struct DataShape<'t> {
    pub(crate) alloc: Global,
    pub(crate) composite: Option<&'t Name>,
}

impl<'t> DataShape<'t> {
    /// A value at a type.
    #[cycle(shape)]
    pub(crate) fn shaped<'d>(
        &self,
        ty: &TypeRef,
        value: &'d Value,
    ) -> Result<ResolvedValue<DataObject<'d>>, ResolveError>
        ensures { Answers itself result (spec.shaped (composite_of self.now) ty.now value.now) }
    {
        match failure_text(value) {
            Some(text) => Err(failure(self.alloc, text)),
            None => self.unfailed(ty, value),
        }
    }

    /// A value that is no failure at a type.
    #[cycle(shape)]
    fn unfailed<'d>(
        &self,
        ty: &TypeRef,
        value: &'d Value,
    ) -> Result<ResolvedValue<DataObject<'d>>, ResolveError>
        ensures { Answers itself result (spec_bridge.unfailed (composite_of self.now) ty.now value.now) }
    {
        match ty.item_type() {
            Some(item) => self.list_or_leaf(item, value),
            None => self.object_or_leaf(value),
        }
    }

    /// A value at the type of a list of such items.
    #[cycle(shape)]
    fn list_or_leaf<'d>(
        &self,
        item: &TypeRef,
        value: &'d Value,
    ) -> Result<ResolvedValue<DataObject<'d>>, ResolveError>
        ensures { Answers itself result (spec.list_or_leaf (spec.shaped (composite_of self.now) item.now) value.now (array_items value.now)) }
    {
        match value {
            Value::Array(values) => self.list(item, values),
            _ => leaf(self.alloc, value),
        }
    }

    /// A list of these values at such a type each.
    #[cycle(shape)]
    fn list<'d>(
        &self,
        item: &TypeRef,
        values: &'d Listed<Value>,
    ) -> Result<ResolvedValue<DataObject<'d>>, ResolveError>
        ensures { Answers itself result (gives_list (spec.shaped_items (spec.shaped (composite_of self.now) item.now) values.now)) }
    {
        let mut items = Listed::with_capacity(self.alloc, values.len())?;
        for value in values.as_slice() {
            items.push(self.item(item, value)?)?;
        }
        Ok(ResolvedValue::List(items))
    }

    /// An item of a list, which may have failed.
    #[cycle(shape)]
    fn item<'d>(
        &self,
        ty: &TypeRef,
        value: &'d Value,
    ) -> Result<Result<ResolvedValue<DataObject<'d>>, FieldError>, Memory>
        ensures { IfOk result (λ made. item_by itself made ≡ spec.shaped (composite_of self.now) ty.now value.now) }
    {
        match self.shaped(ty, value) {
            Ok(made) => Ok(Ok(made)),
            Err(ResolveError::Field(error)) => Ok(Err(error)),
            Err(ResolveError::Memory) => Err(AllocError),
        }
    }

    /// A value at a type that is no list's.
    fn object_or_leaf<'d>(
        &self,
        value: &'d Value,
    ) -> Result<ResolvedValue<DataObject<'d>>, ResolveError>
        ensures { Answers itself result (spec.object_or_leaf (composite_of self.now) value.now (object_members value.now)) }
    {
        match (self.composite, value) {
            (Some(name), Value::Object(members)) => {
                let type_name = object_name(self.alloc, name, members)?;
                Ok(ResolvedValue::Object(DataObject::named(type_name, members)))
            }
            _ => leaf(self.alloc, value),
        }
    }

    /// A value at no type.
    pub(crate) fn untyped<'d>(
        &self,
        value: &'d Value,
    ) -> Result<ResolvedValue<DataObject<'d>>, ResolveError>
        ensures { Answers itself result (spec.untyped value.now) }
    {
        match failure_text(value) {
            Some(text) => Err(failure(self.alloc, text)),
            None => leaf(self.alloc, value),
        }
    }
}

/// A value of the data as it stands.
#[inline(always)]
pub(crate) fn leaf<'d>(
    alloc: Global,
    value: &Value,
) -> Result<ResolvedValue<DataObject<'d>>, ResolveError>
    ensures { Answers itself result (gives_leaf value.now) }
{
    Ok(ResolvedValue::Leaf(value.copy(alloc)?))
}

/// The name of the type of an object with these members, which is this one unless they tell another.
#[inline(always)]
fn object_name<'d>(alloc: Global, name: &Name, members: &'d Map) -> Result<ObjectName<'d>, Memory>
    ensures { IfOk result (λ made. name_of made ≡ spec.told_name name.now.text members.now) }
{
    match text_member(members, TYPE_NAME_MEMBER) {
        Some(told) => Ok(ObjectName::Told(told)),
        None => Ok(ObjectName::Taken(name.text().copy(alloc)?)),
    }
}

/// The text of a value that stands for a failure.
#[inline(always)]
fn failure_text(value: &Value) -> Option<&str>
    ensures { option_copied result ≡ spec.failure_text value.now }
{
    text_member(value.as_object()?, ERROR_MEMBER)
}

/// The text of a member, where it is one.
#[inline(always)]
fn text_member<'d>(members: &'d Map, name: &str) -> Option<&'d str>
    ensures { option_copied result ≡ spec.text_member name.now members.now }
{
    members.get(name)?.as_str()
}

/// A resolver's failure with this text.
fn failure(alloc: Global, text: &str) -> ResolveError
    ensures { IsFailure result text.now }
{
    match Text::from_str(alloc, text) {
        Ok(message) => ResolveError::Field(FieldError { message }),
        Err(_) => ResolveError::Memory,
    }
}
