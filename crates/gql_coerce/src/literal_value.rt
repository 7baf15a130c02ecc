//! Literals as input values of a type (GraphQL October 2021, section 3.10).

ghost use Rattle.std.specs.Prelude.{◌≡◌, [], IfOk, map};
ghost use Rattle.std.specs.Option.{option_map};
ghost use Rattle.std.specs.Str.{bytes_eq};
ghost use Rattle.std.specs.Map.{lookup};
ghost use Rattle.jb_tree.specs.declared.value.Value.{Object};
ghost use Rattle.gql_coerce.specs.Outcome.{Answers, mapped};
ghost use Rattle.gql_coerce.specs.bridge.Subject.{subject_text};
ghost use Rattle.gql_coerce.specs.Filled.{filled};
ghost use Rattle.gql_ast_base.specs.TypeParts.{named_type};
ghost use Rattle.gql_coerce.specs.Wrapped.{wrap};
ghost use Rattle.gql_coerce.specs.bridge.ByName.{FindsLast};
ghost use Rattle.gql_coerce.specs.InputTypes.{field_name};
ghost use Rattle.gql_coerce.specs.InputValue.{first_unknown};
ghost use Rattle.gql_coerce.specs.LiteralValue.{coerced_literal, null_at, each_literal_at, variable_at, literal_leaf, literal_members, literal_object, literal_misfit, literal_field, member_name};

use crate::fault::{CoercionFault, refuse, suspect};
use crate::input_types::{as_input_object, input_object_called, is_field};
use crate::input_value::Coercion;
use crate::literal_members::LiteralMembers;
use crate::messages::{
    absent_variable, could_not_coerce_literal, null_literal, null_variable, undefined_type,
    unknown_literal_key,
};
use crate::missing::Missing;
use crate::one_of::one_of_literal_misfit;
use crate::outcome::{given_value, put};
use crate::subject::Subject;
use crate::translation::translate;
use gql_ast::InputValueDefinition;
use gql_ast_base::{Name, TypeRef, Value as Literal, ValueKind};
use gql_schema_types::{InputObjectType, Table};
use gql_source::SourceSpan;
use jb_text::{Listed, Memory, Refused, Text};
use jb_tree::{Map, Value};
use std::alloc::Global;

/// What stays the same while the literals of a field are coerced.
#[derive(Clone, Copy)]
pub(crate) struct LiteralCoercion<'s> {
    pub(crate) coercion: Coercion<'s>,
    pub(crate) env: &'s Map,
}

impl<'s> LiteralCoercion<'s> {
    /// The literal as an input of the type.
    #[cycle(literal)]
    pub(crate) fn coerce_literal(
        &self,
        literal: &Literal,
        subject: &Subject<'_>,
        ty: &TypeRef,
    ) -> Result<Value, Refused<CoercionFault>>
        ensures { Answers (coerced_literal self.now.coercion.types.now self.now.env.now literal.now (subject_text subject.now) ty.now) result }
    {
        match &literal.kind {
            ValueKind::Null => self.null(literal.location, subject, ty),
            ValueKind::Variable(name) => self.variable(
                literal.location,
                subject,
                ty,
                name.as_str(),
            ),
            ValueKind::List(items) => match ty.item_type() {
                Some(item) => self.coerce_items(items, subject, item),
                None => self.leaf(literal, subject, ty.inner_named_type()),
            },
            ValueKind::Object(members) => {
                let made = self.coerce_object(members, literal, subject, ty.inner_named_type());
                self.coercion.wrapped(ty, made)
            }
            ValueKind::Int(_) => self.single(literal, subject, ty),
            ValueKind::Float(_) => self.single(literal, subject, ty),
            ValueKind::String(_) => self.single(literal, subject, ty),
            ValueKind::Boolean(_) => self.single(literal, subject, ty),
            ValueKind::Enum(_) => self.single(literal, subject, ty),
        }
    }
}

impl<'s> LiteralCoercion<'s> {
    fn null(
        &self,
        place: Option<SourceSpan>,
        subject: &Subject<'_>,
        ty: &TypeRef,
    ) -> Result<Value, Refused<CoercionFault>>
        ensures { Answers (null_at place (subject_text subject.now) ty.now) result }
    {
        if ty.is_non_null() {
            return refuse(null_literal(self.coercion.alloc, subject), place);
        }
        Ok(Value::Null)
    }

    /// A literal that is written without parts as an input of the type.
    fn single(
        &self,
        literal: &Literal,
        subject: &Subject<'_>,
        ty: &TypeRef,
    ) -> Result<Value, Refused<CoercionFault>>
        ensures { Answers (mapped (wrap ty.now) (literal_leaf self.now.coercion.types.now (subject_text subject.now) (named_type ty.now) literal.now)) result }
    {
        let made = self.leaf(literal, subject, ty.inner_named_type());
        self.coercion.wrapped(ty, made)
    }

    /// A variable inside a literal.
    fn variable(
        &self,
        place: Option<SourceSpan>,
        subject: &Subject<'_>,
        ty: &TypeRef,
        name: &str,
    ) -> Result<Value, Refused<CoercionFault>>
        ensures { Answers (variable_at place (subject_text subject.now) ty.now (lookup (bytes_eq name.now) self.now.env.now)) result }
    {
        match self.env.get(name) {
            Some(Value::Null) if ty.is_non_null() => {
                refuse(null_variable(self.coercion.alloc, subject), place)
            }
            Some(value) => Ok(value.copy(self.coercion.alloc)?),
            None if ty.is_non_null() => {
                refuse(absent_variable(self.coercion.alloc, subject), place)
            }
            None => Ok(Value::Null),
        }
    }

    #[cycle(literal)]
    fn coerce_items(
        &self,
        items: &Listed<Literal>,
        subject: &Subject<'_>,
        item: &TypeRef,
    ) -> Result<Value, Refused<CoercionFault>>
        ensures { Answers (each_literal_at (coerced_literal self.now.coercion.types.now self.now.env.now) (subject_text subject.now) item.now items.now) result }
    {
        let mut made = Listed::new(self.coercion.alloc);
        for literal in items.as_slice() {
            match self.coerce_literal(literal, subject, item) {
                Ok(coerced) => made.push(coerced)?,
                Err(refused) => return Err(refused),
            }
        }
        Ok(Value::Array(made))
    }

    /// A literal without members as an input of the type of this name.
    fn leaf(
        &self,
        literal: &Literal,
        subject: &Subject<'_>,
        name: &Name,
    ) -> Result<Value, Refused<CoercionFault>>
        ensures { Answers (literal_leaf self.now.coercion.types.now (subject_text subject.now) name.now literal.now) result }
    {
        match self.coercion.types.get(name.as_str()) {
            None => {
                let text = undefined_type(self.coercion.alloc, name.as_str(), subject);
                suspect(text, literal.location)
            }
            Some(ty) if as_input_object(ty).is_some() => {
                let text = could_not_coerce_literal(
                    self.coercion.alloc,
                    subject,
                    literal,
                    name.as_str(),
                );
                refuse(text, literal.location)
            }
            Some(_) => translate(self.coercion.alloc, literal, subject),
        }
    }

    /// A literal with these members as an input of the type of this name.
    #[cycle(literal)]
    fn coerce_object(
        &self,
        members: &Listed<(Name, Literal)>,
        literal: &Literal,
        subject: &Subject<'_>,
        name: &Name,
    ) -> Result<Value, Refused<CoercionFault>>
        ensures { Answers (literal_members self.now.coercion.types.now self.now.env.now (coerced_literal self.now.coercion.types.now self.now.env.now) members.now (subject_text subject.now) name.now literal.now) result }
    {
        match input_object_called(self.coercion.types, name.as_str()) {
            Some(it) => self.coerce_members(members, literal, name.as_str(), it),
            None => self.leaf(literal, subject, name),
        }
    }

    /// The members of the literal as an input object of this type.
    #[cycle(literal)]
    fn coerce_members(
        &self,
        members: &Listed<(Name, Literal)>,
        literal: &Literal,
        name: &str,
        it: &InputObjectType,
    ) -> Result<Value, Refused<CoercionFault>>
        ensures { Answers (literal_object (coerced_literal self.now.coercion.types.now self.now.env.now) self.now.env.now literal.now.location name.now it.now members.now) result }
    {
        match misfit(self.coercion.alloc, name, it, members.as_slice(), self.env) {
            Ok(None) => self.coerce_fields(members, literal, name, &it.fields),
            Ok(Some(text)) => refuse(Ok(text), literal.location),
            Err(_) => Err(Refused::Memory),
        }
    }

    /// The fields' values, in the order of their definitions.
    #[cycle(literal)]
    fn coerce_fields(
        &self,
        members: &Listed<(Name, Literal)>,
        literal: &Literal,
        name: &str,
        fields: &Table<InputValueDefinition>,
    ) -> Result<Value, Refused<CoercionFault>>
        ensures { Answers (mapped Object (filled (literal_field (coerced_literal self.now.coercion.types.now self.now.env.now) literal.now.location members.now name.now) field_name [] fields.now)) result }
    {
        match LiteralMembers::of(self.coercion.alloc, members.as_slice()) {
            Ok(by_name) => self.fields_by_name(members, &by_name, literal, name, fields),
            Err(_) => Err(Refused::Memory),
        }
    }

    /// The same, where `by_name` finds the members.
    #[cycle(literal)]
    fn fields_by_name(
        &self,
        members: &Listed<(Name, Literal)>,
        by_name: &LiteralMembers<'_>,
        literal: &Literal,
        name: &str,
        fields: &Table<InputValueDefinition>,
    ) -> Result<Value, Refused<CoercionFault>>
        requires { FindsLast by_name.now members.now }
        ensures { Answers (mapped Object (filled (literal_field (coerced_literal self.now.coercion.types.now self.now.env.now) literal.now.location members.now name.now) field_name [] fields.now)) result }
    {
        let mut made = Map::new(self.coercion.alloc);
        for field in fields.as_slice() {
            match self.coerce_field(members, by_name, literal, name, field) {
                Ok(found) => put(self.coercion.alloc, &mut made, field.name.as_str(), found)?,
                Err(refused) => return Err(refused),
            }
        }
        Ok(Value::Object(made))
    }

    /// The value of a field, where `by_name` finds the members.
    #[cycle(literal)]
    fn coerce_field(
        &self,
        members: &Listed<(Name, Literal)>,
        by_name: &LiteralMembers<'_>,
        literal: &Literal,
        name: &str,
        field: &InputValueDefinition,
    ) -> Result<Option<Value>, Refused<CoercionFault>>
        requires { FindsLast by_name.now members.now }
        ensures { Answers (literal_field (coerced_literal self.now.coercion.types.now self.now.env.now) literal.now.location members.now name.now field.now) result }
    {
        let field_name = field.name.as_str();
        let subject = Subject::InputField(name, field_name);
        match by_name.last(field_name) {
            Some(value) => given_value(self.coerce_literal(value, &subject, &field.ty)),
            None => self.coercion.not_given(
                &subject,
                &field.ty,
                &field.default_value,
                &Missing::FieldAt(name, field_name, literal.location),
            ),
        }
    }
}

/// Why the members as a whole are no value of the input object type, before a field is looked at: the first key that is no
/// field, else what a one-of type asks of them where variables have these values.
fn misfit(
    alloc: Global,
    name: &str,
    it: &InputObjectType,
    members: &[(Name, Literal)],
    env: &Map,
) -> Result<Option<Text>, Memory>
    ensures { IfOk result (λ found. found ≡ literal_misfit env.now name.now it.now members.now) }
{
    match first_unknown(&it.fields, members) {
        Some(key) => Ok(Some(unknown_literal_key(alloc, key.as_str(), name)?)),
        None if it.is_one_of() => one_of_literal_misfit(alloc, name, members, env),
        None => Ok(None),
    }
}

/// The first name that is no field.
fn first_unknown<'m>(
    fields: &Table<InputValueDefinition>,
    members: &'m [(Name, Literal)],
) -> Option<&'m Name>
    ensures { option_map (λ name. name.now.text) result ≡ first_unknown fields.now (map member_name members.now) }
{
    for member in members {
        if !is_field(fields, member.0.as_str()) {
            return Some(&member.0);
        }
    }
    None
}
