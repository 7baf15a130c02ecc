//! Literals and names as contents of values, texts of descriptions and names of a list.

ghost use Rattle.std.specs.Prelude.{◌≡◌, IfOk, OnOk};
ghost use Rattle.gql_ast_reader.specs.bridge.Taking as taking;

use crate::part::Role;
use crate::place::{Place, name_there, text_at};
use crate::row::keeping::add;
use gql_ast_base::{Name, Source, ValueKind, literal_kind, opens_string, string_text};
use jb_text::{Listed, Memory, Text};

/// The number or the string at a place.
fn literal_at(source: &Source<'_>, place: Place) -> Result<Option<ValueKind>, Memory>
    ensures { IfOk result (λ made. made ≡ taking.literal_at source.now.text.now place) }
{
    let Some(token) = text_at(source.text, place) else {
        return Ok(None);
    };
    let made = literal_kind(source.alloc, token)?;
    Ok(made)
}

/// The characters of the string at a place.
fn string_at(source: &Source<'_>, place: Place) -> Result<Option<Text>, Memory>
    ensures { IfOk result (λ made. made ≡ taking.string_at source.now.text.now place) }
{
    match text_at(source.text, place) {
        Some(token) if opens_string(token) => Ok(Some(string_text(source.alloc, token)?)),
        _ => Ok(None),
    }
}

/// A variable or an enum value as the content of a value.
fn content_named(
    source: &Source<'_>,
    role: Role,
    place: Option<Place>,
) -> Result<Option<ValueKind>, Memory>
    ensures { IfOk result (λ made. made ≡ taking.content_named source.now.text.now source.now.file_id role place) }
{
    match role {
        Role::Variable => Ok(name_there(source, place)?.map(ValueKind::Variable)),
        Role::EnumValue => Ok(name_there(source, place)?.map(ValueKind::Enum)),
        _ => Ok(None),
    }
}

/// A named type in a list of names.
fn name_named(source: &Source<'_>, role: Role, place: Option<Place>) -> Result<Option<Name>, Memory>
    ensures { IfOk result (λ made. made ≡ taking.name_named source.now.text.now source.now.file_id role place) }
{
    match role {
        Role::NamedType => name_there(source, place),
        _ => Ok(None),
    }
}

/// Keeps the number or the string at a place, where there is no content yet. `Err` only where memory runs out.
pub(crate) fn keep_literal(
    slot: &mut Option<ValueKind>,
    source: &Source<'_>,
    place: Place,
) -> Result<(), Memory>
    ensures { OnOk result (slot.new ≡ taking.kept slot.old (taking.literal_at source.now.text.now place)) }
{
    if slot.is_none() {
        *slot = literal_at(source, place)?;
    }
    Ok(())
}

/// Keeps the characters of the string at a place, where there are none yet. `Err` only where memory runs out.
pub(crate) fn keep_text(
    slot: &mut Option<Text>,
    source: &Source<'_>,
    place: Place,
) -> Result<(), Memory>
    ensures { OnOk result (slot.new ≡ taking.kept slot.old (taking.string_at source.now.text.now place)) }
{
    if slot.is_none() {
        *slot = string_at(source, place)?;
    }
    Ok(())
}

/// Keeps a variable or an enum value, where there is no content yet. `Err` only where memory runs out.
pub(crate) fn keep_content(
    slot: &mut Option<ValueKind>,
    source: &Source<'_>,
    role: Role,
    place: Option<Place>,
) -> Result<(), Memory>
    ensures { OnOk result (slot.new ≡ taking.kept slot.old (taking.content_named source.now.text.now source.now.file_id role place)) }
{
    if slot.is_none() {
        *slot = content_named(source, role, place)?;
    }
    Ok(())
}

/// Adds the name of a named type to a list of names. `Err` only where memory runs out.
pub(crate) fn add_name(
    list: &mut Listed<Name>,
    source: &Source<'_>,
    role: Role,
    place: Option<Place>,
) -> Result<(), Memory>
    ensures { OnOk result (list.new ≡ taking.added list.old (taking.name_named source.now.text.now source.now.file_id role place)) }
{
    let found = name_named(source, role, place)?;
    add(list, source.alloc, found)
}
