//! What the rows of arguments, fields and enum values stand for.

ghost use Rattle.std.specs.Prelude.{◌≡◌, IfOk};
ghost use Rattle.gql_schema.specs.Rows as spec;

use crate::built_in_making::{FromRow, all_of, maybe_of, name_at, piece, span};
use crate::built_in_row::{ArgumentRow, FieldRow, Place, TypeForm, TypeRow, ValueForm, ValueRow};
use crate::built_in_table::arguments_at;
use gql_ast::{EnumValueDefinition, FieldDefinition, InputValueDefinition};
use gql_ast_base::{Boxed, Name, Source, TypeRef, Value, ValueKind, all_three, both};
use jb_text::{Listed, Memory, Text};
use std::alloc::{AllocError, Global};

/// A reference to the type with the name.
#[tactic(auto, using(crate::proofs::Types::required, crate::proofs::Types::list, crate::proofs::Types::required_list))]
fn formed(alloc: Global, form: TypeForm, name: Name) -> Result<TypeRef, Memory>
    ensures { IfOk result (λ made. made ≡ spec.formed form name) }
{
    match form {
        TypeForm::Plain => Ok(TypeRef::Named(name)),
        TypeForm::Required => Ok(TypeRef::NonNullNamed(name)),
        TypeForm::List => Ok(TypeRef::List(Boxed::new(alloc, TypeRef::NonNullNamed(name))?)),
        TypeForm::RequiredList => Ok(TypeRef::NonNullList(Boxed::new(
            alloc,
            TypeRef::NonNullNamed(name),
        )?)),
    }
}

impl FromRow<TypeRow> for TypeRef {
    ghost meaning = { spec.type_of };

    fn of(source: &Source<'_>, row: &TypeRow) -> Result<TypeRef, Memory> {
        let name = name_at(source, row.1)?;
        let made = formed(source.alloc, row.0, name)?;
        Ok(made)
    }
}

/// The value at the place.
fn content(source: &Source<'_>, form: ValueForm, place: Place) -> Result<ValueKind, Memory>
    ensures { IfOk result (λ made. made ≡ spec.content_of source.now.text.now source.now.file_id form place) }
{
    match form {
        ValueForm::False => Ok(ValueKind::Boolean(false)),
        ValueForm::Quoted => {
            let Some(start) = place.0.checked_add(1) else {
                return Err(AllocError);
            };
            let found = piece(source.text, start, place.1.saturating_sub(1))?;
            let text = Text::from_str(source.alloc, found)?;
            Ok(ValueKind::String(text))
        }
    }
}

impl FromRow<ValueRow> for Value {
    ghost meaning = { spec.value_of };

    fn of(source: &Source<'_>, row: &ValueRow) -> Result<Value, Memory> {
        let location = span(source.file_id, row.1)?;
        let kind = content(source, row.0, row.1)?;
        Ok(Value {
            kind,
            location: Some(location),
        })
    }
}

impl FromRow<ArgumentRow> for InputValueDefinition {
    ghost meaning = { spec.argument_of };

    #[tactic(auto, unfolding(crate::specs::Rows::argument_of))]
    fn of(source: &Source<'_>, row: &ArgumentRow) -> Result<InputValueDefinition, Memory> {
        let location = span(source.file_id, row.place)?;
        let (name, ty, default_value) = all_three(
            name_at(source, row.name),
            TypeRef::of(source, &row.ty),
            maybe_of(source, &row.default_value),
        )?;
        Ok(InputValueDefinition {
            description: None,
            name,
            ty,
            default_value,
            directives: Listed::new(source.alloc),
            location: Some(location),
        })
    }
}

impl FromRow<FieldRow> for FieldDefinition {
    ghost meaning = { spec.field_of };

    #[tactic(auto, unfolding(crate::specs::Rows::field_of))]
    fn of(source: &Source<'_>, row: &FieldRow) -> Result<FieldDefinition, Memory> {
        let location = span(source.file_id, row.place)?;
        let rows = arguments_at(row.arguments)?;
        let (name, arguments, ty) = all_three(
            name_at(source, row.name),
            all_of(source, rows),
            TypeRef::of(source, &row.ty),
        )?;
        Ok(FieldDefinition {
            description: None,
            name,
            arguments,
            ty,
            directives: Listed::new(source.alloc),
            location: Some(location),
        })
    }
}

impl FromRow<Place> for EnumValueDefinition {
    ghost meaning = { spec.enum_value_of };

    #[tactic(auto, unfolding(crate::specs::Rows::enum_value_of))]
    fn of(source: &Source<'_>, row: &Place) -> Result<EnumValueDefinition, Memory> {
        let (value, location) = both(name_at(source, *row), span(source.file_id, *row))?;
        Ok(EnumValueDefinition {
            description: None,
            value,
            directives: Listed::new(source.alloc),
            location: Some(location),
        })
    }
}
