//! Places of fields: a response key, and in a family of which all stand in sets on object types such a type too.

ghost use Rattle.std.specs.Prelude.{◌≡◌, IfOk, OnOk};
ghost use Rattle.gql_rules_merging.specs.bridge.Gathering.{fields_of, selected_of};
ghost use Rattle.gql_rules_merging.specs.bridge.Places as spec;

use crate::classes::class_of;
use crate::numbering::Selected;
use gql_schema_types::{ExtendedType, Table};
use indexmap::IndexSet;
use jb_text::Memory;
use std::alloc::Global;

/// The response key of a field by its number, and whether the field is of a mixed family, or else the number of the type that it
/// stands on.
#[derive(Clone, Copy, Debug, PartialEq, Eq, Hash)]
struct Place {
    key: usize,
    parent: usize,
    is_mixed: bool,
}

/// The place of each field by its number, and how many places there are.
#[derive(Drop)]
pub(crate) struct Places {
    pub(crate) keys: Vec<usize>,
    pub(crate) count: usize,
}

/// The places of these fields. `Err` only when out of memory. Places are found by hash.
pub(crate) fn places_of(
    alloc: Global,
    types: &Table<ExtendedType>,
    fields: &[Selected<'_>],
    keys: &[usize],
    families: &[usize],
    mixed: &[bool],
) -> Result<Places, Memory>
    ensures { IfOk result (λ made. spec.ArePlaces types.now (fields_of fields.now) keys.now families.now mixed.now made.keys.items made.count) }
{
    let mut places = IndexSet::new(alloc);
    let mut numbers = Vec::new(alloc);
    for number in 0..fields.len() {
        let place = place_of(types, fields, keys, families, mixed, number);
        let found = number_of(&mut places, place)?;
        numbers.push(found)?;
    }
    let count = places.len();
    Ok(Places {
        keys: numbers,
        count,
    })
}

/// The place of the field of a number.
fn place_of(
    types: &Table<ExtendedType>,
    fields: &[Selected<'_>],
    keys: &[usize],
    families: &[usize],
    mixed: &[bool],
    number: usize,
) -> Place
    ensures { result ≡ spec.place_of types.now (fields_of fields.now) keys.now families.now mixed.now number }
{
    let is_mixed = is_mixed(mixed, class_of(families, number));
    place_in(types, fields, keys, is_mixed, number)
}

/// The number of a place, which is added if it is new.
fn number_of(places: &mut IndexSet<Place>, place: Place) -> Result<usize, Memory>
    ensures grown { OnOk result (places.new.keys ≡ spec.inserted places.old.keys place) }
    ensures found { IfOk result (λ number. spec.IsNumberOf places.new.keys place number) }
{
    let found = places.insert_full(place)?;
    Ok(found.0)
}

/// The place of the field of a number, in a family that is mixed, or is not.
fn place_in(
    types: &Table<ExtendedType>,
    fields: &[Selected<'_>],
    keys: &[usize],
    is_mixed: bool,
    number: usize,
) -> Place
    ensures { result ≡ spec.place_in types.now (fields_of fields.now) keys.now is_mixed number }
{
    let key = class_of(keys, number);
    if is_mixed {
        Place {
            key,
            parent: 0,
            is_mixed: true,
        }
    } else {
        Place {
            key,
            parent: parent_number(types, fields, number),
            is_mixed: false,
        }
    }
}

/// The number of the type that the field of a number stands on.
fn parent_number(types: &Table<ExtendedType>, fields: &[Selected<'_>], number: usize) -> usize
    ensures { result ≡ spec.parent_number types.now (fields_of fields.now) number }
{
    match fields.get(number) {
        Some(field) => type_number(types, field),
        None => 0,
    }
}

/// The number of the type that a field stands on.
fn type_number(types: &Table<ExtendedType>, field: &Selected<'_>) -> usize
    ensures { result ≡ spec.type_number types.now (selected_of field.now) }
{
    match types.find(field.parent.as_str()) {
        Some(number) => number,
        None => 0,
    }
}

/// Whether a family is mixed.
pub(crate) fn is_mixed(mixed: &[bool], family: usize) -> bool
    ensures { result ≡ spec.is_mixed mixed.now family }
{
    match mixed.get(family) {
        Some(is) => *is,
        None => true,
    }
}
