//! JSON values as input values of a type (GraphQL October 2021, section 3.10).

ghost use Rattle.std.specs.Prelude.{◌≡◌, Some, None, IfOk, Ok, Err, if◌then◌else◌};
ghost use Rattle.gql_coerce.specs.Faults.{fault};
ghost use Rattle.gql_coerce.specs.Messages.{null_value as null_text};
ghost use Rattle.std.specs.Option.{option_copied};
ghost use Rattle.std.specs.Map.{keys_of};
ghost use Rattle.jb_tree.specs.declared.value.Value.{Value as JsonValue, Null, Object};
ghost use Rattle.gql_coerce.specs.Outcome.{Outcome, Answers, mapped};
ghost use Rattle.gql_coerce.specs.bridge.Subject.{subject_text};
ghost use Rattle.gql_coerce.specs.bridge.Missing.{missing_fault};
ghost use Rattle.gql_ast_base.specs.TypeParts.{named_type, is_non_null};
ghost use Rattle.gql_coerce.specs.Wrapped.{wrap};
ghost use Rattle.gql_coerce.specs.Filled.{filled, absent, not_given};
ghost use Rattle.gql_coerce.specs.InputValue as spec;
ghost use Rattle.gql_coerce.specs.InputTypes.{field_name};
ghost use Rattle.gql_coerce.specs.bridge.Wanted.{IsFound};
ghost use Rattle.gql_coerce.specs.InputValue.{coerced, leaf, object, first_unknown, misfit, input_object, field_value, places, taken, each_at};

use crate::fault::{CoercionFault, refuse, suspect};
use crate::input_types::is_field;
use crate::messages::{could_not_coerce, non_input_type, null_value, undefined_type, unknown_key};
use crate::missing::Missing;
use crate::one_of::one_of_misfit;
use crate::outcome::{given_value, places, put};
use crate::scalar::{enum_takes, scalar_takes};
use crate::subject::Subject;
use crate::translation::translate;
use crate::wanted::Wanted;
use crate::wrapped::wrap;
use gql_ast::InputValueDefinition;
use gql_ast_base::{Name, TypeRef, Value as Literal};
use gql_schema_types::{ExtendedType, InputObjectType, Table};
use jb_text::{ByteString, Listed, Memory, Refused, Text};
use jb_tree::{Map, Value};
use std::alloc::Global;

/// What stays the same while values are coerced.
#[derive(Clone, Copy)]
pub(crate) struct Coercion<'s> {
    pub(crate) alloc: Global,
    pub(crate) types: &'s Table<ExtendedType>,
}

impl<'s> Coercion<'s> {
    /// The value as an input of the type.
    #[cycle(coerce)]
    pub(crate) fn coerce_value(
        &self,
        value: &Value,
        subject: &Subject<'_>,
        wanted: &Wanted<'_>,
    ) -> Result<Value, Refused<CoercionFault>>
        requires { IsFound self.now.types.now wanted.now }
        ensures { Answers (coerced self.now.types.now value.now (subject_text subject.now) wanted.now.ty.now) result }
    {
        match value {
            Value::Null => self.coerce_null(subject, wanted.ty),
            Value::Array(items) => match wanted.items() {
                Some(item) => self.coerce_items(items, subject, &item),
                None => self.coerce_leaf(value, subject, wanted),
            },
            Value::Object(members) => {
                let made = self.coerce_object(members, value, subject, wanted);
                self.wrapped(wanted.ty, made)
            }
            Value::Bool(_) => self.coerce_single(value, subject, wanted),
            Value::Number(_) => self.coerce_single(value, subject, wanted),
            Value::String(_) => self.coerce_single(value, subject, wanted),
        }
    }

    /// Null as an input of the type.
    fn coerce_null(
        &self,
        subject: &Subject<'_>,
        ty: &TypeRef,
    ) -> Result<Value, Refused<CoercionFault>>
        ensures { Answers (if is_non_null ty.now then Err (fault (null_text (subject_text subject.now) ty.now)) else Ok Null) result }
    {
        if ty.is_non_null() {
            return refuse(null_value(self.alloc, subject, ty), None);
        }
        Ok(Value::Null)
    }

    /// A truth value, a number or a text as an input of the type.
    fn coerce_single(
        &self,
        value: &Value,
        subject: &Subject<'_>,
        wanted: &Wanted<'_>,
    ) -> Result<Value, Refused<CoercionFault>>
        requires { IsFound self.now.types.now wanted.now }
        ensures { Answers (mapped (wrap wanted.now.ty.now) (leaf self.now.types.now (subject_text subject.now) (named_type wanted.now.ty.now) value.now)) result }
    {
        let made = self.coerce_leaf(value, subject, wanted);
        self.wrapped(wanted.ty, made)
    }

    /// The value in a list of its own for each list of the type.
    pub(crate) fn wrapped(
        &self,
        ty: &TypeRef,
        made: Result<Value, Refused<CoercionFault>>,
    ) -> Result<Value, Refused<CoercionFault>>
        ensures { (wanted : Outcome JsonValue) → Answers wanted made → Answers (mapped (wrap ty.now) wanted) result }
    {
        match made {
            Ok(value) => Ok(wrap(self.alloc, ty, value)?),
            Err(refused) => Err(refused),
        }
    }

    /// Each item as an input of the type.
    #[cycle(coerce)]
    fn coerce_items(
        &self,
        items: &Listed<Value>,
        subject: &Subject<'_>,
        item: &Wanted<'_>,
    ) -> Result<Value, Refused<CoercionFault>>
        requires { IsFound self.now.types.now item.now }
        ensures { Answers (each_at (coerced self.now.types.now) (subject_text subject.now) item.now.ty.now items.now) result }
    {
        let mut made = Listed::new(self.alloc);
        for value in items.as_slice() {
            match self.coerce_value(value, subject, item) {
                Ok(coerced) => made.push(coerced)?,
                Err(refused) => return Err(refused),
            }
        }
        Ok(Value::Array(made))
    }

    /// A value without members as an input of the type within all lists.
    fn coerce_leaf(
        &self,
        value: &Value,
        subject: &Subject<'_>,
        wanted: &Wanted<'_>,
    ) -> Result<Value, Refused<CoercionFault>>
        requires { IsFound self.now.types.now wanted.now }
        ensures { Answers (leaf self.now.types.now (subject_text subject.now) (named_type wanted.now.ty.now) value.now) result }
    {
        let name = wanted.ty.inner_named_type();
        match wanted.found {
            None => self.undefined(subject, name),
            Some(ExtendedType::Scalar(_)) => {
                let takes = scalar_takes(name.as_str(), value);
                self.take(takes, value, subject, name.as_str())
            }
            Some(ExtendedType::Enum(it)) => {
                let takes = enum_takes(&it.values, value);
                self.take(takes, value, subject, name.as_str())
            }
            Some(ExtendedType::InputObject(_)) => self.take(false, value, subject, name.as_str()),
            Some(ExtendedType::Object(_)) => self.non_input(subject, name),
            Some(ExtendedType::Interface(_)) => self.non_input(subject, name),
            Some(ExtendedType::Union(_)) => self.non_input(subject, name),
        }
    }

    /// A value with these members as an input of the type within all lists.
    #[cycle(coerce)]
    fn coerce_object(
        &self,
        members: &Map,
        value: &Value,
        subject: &Subject<'_>,
        wanted: &Wanted<'_>,
    ) -> Result<Value, Refused<CoercionFault>>
        requires { IsFound self.now.types.now wanted.now }
        ensures { Answers (object self.now.types.now (coerced self.now.types.now) members.now (subject_text subject.now) (named_type wanted.now.ty.now) value.now) result }
    {
        match wanted.input_object() {
            Some(it) => self.coerce_members(members, wanted.ty.inner_named_type().as_str(), it),
            None => self.coerce_leaf(value, subject, wanted),
        }
    }

    fn undefined(&self, subject: &Subject<'_>, name: &Name) -> Result<Value, Refused<CoercionFault>>
        ensures { Answers (spec.undefined (subject_text subject.now) name.now) result }
    {
        let text = undefined_type(self.alloc, name.as_str(), subject);
        suspect(text, name.location())
    }

    fn non_input(&self, subject: &Subject<'_>, name: &Name) -> Result<Value, Refused<CoercionFault>>
        ensures { Answers (spec.non_input (subject_text subject.now) name.now) result }
    {
        let text = non_input_type(self.alloc, name.as_str(), subject);
        suspect(text, name.location())
    }

    /// The value itself where its type takes it.
    fn take(
        &self,
        takes: bool,
        value: &Value,
        subject: &Subject<'_>,
        name: &str,
    ) -> Result<Value, Refused<CoercionFault>>
        ensures { Answers (taken takes (subject_text subject.now) value.now name.now) result }
    {
        if takes {
            return Ok(value.copy(self.alloc)?);
        }
        refuse(could_not_coerce(self.alloc, subject, value, name), None)
    }

    /// The members as an input object of this type.
    #[cycle(coerce)]
    fn coerce_members(
        &self,
        members: &Map,
        name: &str,
        it: &InputObjectType,
    ) -> Result<Value, Refused<CoercionFault>>
        ensures { Answers (input_object (coerced self.now.types.now) name.now it.now members.now) result }
    {
        match misfit(self.alloc, name, it, members) {
            Ok(None) => self.coerce_fields(members, name, &it.fields),
            Ok(Some(text)) => refuse(Ok(text), None),
            Err(_) => Err(Refused::Memory),
        }
    }

    /// The fields' values, in the order of the given keys.
    #[cycle(coerce)]
    fn coerce_fields(
        &self,
        members: &Map,
        name: &str,
        fields: &Table<InputValueDefinition>,
    ) -> Result<Value, Refused<CoercionFault>>
        ensures { Answers (mapped Object (filled (field_value (coerced self.now.types.now) members.now name.now) field_name (places (keys_of members.now)) fields.now)) result }
    {
        let mut made = places(self.alloc, members)?;
        for field in fields.as_slice() {
            match self.coerce_field(members, name, field) {
                Ok(found) => put(self.alloc, &mut made, field.name.as_str(), found)?,
                Err(refused) => return Err(refused),
            }
        }
        Ok(Value::Object(made))
    }

    /// The value of a field.
    #[cycle(coerce)]
    fn coerce_field(
        &self,
        members: &Map,
        name: &str,
        field: &InputValueDefinition,
    ) -> Result<Option<Value>, Refused<CoercionFault>>
        ensures { Answers (field_value (coerced self.now.types.now) members.now name.now field.now) result }
    {
        let field_name = field.name.as_str();
        let subject = Subject::InputField(name, field_name);
        match members.get(field_name) {
            Some(value) => given_value(self.coerce_value(
                value,
                &subject,
                &Wanted::new(&*self.types, &field.ty),
            )),
            None => self.not_given(
                &subject,
                &field.ty,
                &field.default_value,
                &Missing::Field(name, field_name),
            ),
        }
    }

    /// What a definition has where no value is given.
    pub(crate) fn not_given(
        &self,
        subject: &Subject<'_>,
        ty: &TypeRef,
        default: &Option<Literal>,
        missing: &Missing<'_>,
    ) -> Result<Option<Value>, Refused<CoercionFault>>
        ensures { Answers (not_given (subject_text subject.now) ty.now default.now (missing_fault missing.now)) result }
    {
        match default {
            Some(literal) => given_value(translate(self.alloc, literal, subject)),
            None => absent(self.alloc, ty, missing),
        }
    }
}

/// Nothing, where the type may be without a value.
fn absent(
    alloc: Global,
    ty: &TypeRef,
    missing: &Missing<'_>,
) -> Result<Option<Value>, Refused<CoercionFault>>
    ensures { Answers (absent ty.now (missing_fault missing.now)) result }
{
    if ty.is_non_null() {
        return missing.refuse(alloc);
    }
    Ok(None)
}

/// Why the members as a whole are no value of the input object type, before a field is looked at: the first key that is no
/// field, else what a one-of type asks of them.
fn misfit(
    alloc: Global,
    name: &str,
    it: &InputObjectType,
    members: &Map,
) -> Result<Option<Text>, Memory>
    ensures { IfOk result (λ found. found ≡ misfit name.now it.now members.now) }
{
    match first_unknown(&it.fields, members) {
        Some(key) => Ok(Some(unknown_key(alloc, key.as_str(), name)?)),
        None if it.is_one_of() => one_of_misfit(alloc, name, members),
        None => Ok(None),
    }
}

/// The first key that is no field.
fn first_unknown<'m>(
    fields: &Table<InputValueDefinition>,
    members: &'m Map,
) -> Option<&'m ByteString>
    ensures { option_copied result ≡ first_unknown fields.now (keys_of members.now) }
{
    for index in 0..members.len() {
        let key = members.key_at(index);
        if !is_field(fields, key.as_str()) {
            return Some(key);
        }
    }
    None
}
