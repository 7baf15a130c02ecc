//! Families of fields of which some are never of one object. All of such a family have one shape; where they all stand in sets on
//! object types, those on one type alone are the same field with the same arguments.

ghost use Rattle.std.specs.Prelude.{◌≡◌, ◌||◌, true, IfOk};
ghost use Rattle.gql_graph.specs.bridge.Explored.{AreKeys, class_of as family_of};
ghost use Rattle.gql_rules_merging.specs.bridge.Families as spec;
ghost use Rattle.gql_rules_merging.specs.bridge.Gathering.{fields_of, numbered_of, selected_of};
ghost use Rattle.gql_rules_merging.specs.bridge.Places as place;
ghost use Rattle.gql_rules_merging.specs.bridge.Telling as telling;

use crate::classes::class_of;
use crate::comparison::is_object;
use crate::conflicting_field_type::same_shape;
use crate::families::{all_agree, is_unmet};
use crate::family_growth::grown_families;
use crate::family_sets::gathered;
use crate::numbering::{Numbered, Selected};
use crate::places::{Places, is_mixed, places_of};
use gql_schema_types::{ExtendedType, Table};
use jb_text::Memory;
use std::alloc::Global;

/// Whether no pair of fields breaks the rule, as these families tell by their shapes, and groups of fields that one object can have by
/// the rest. It may be false where no pair does. `Err` only when out of memory. The time is linear in what is entered from all sets.
pub(crate) fn is_sound_by_objects(
    alloc: Global,
    types: &Table<ExtendedType>,
    numbered: &Numbered<'_>,
    keys: &[usize],
    families: &[usize],
) -> Result<bool, Memory>
    requires { keys.now ≡ telling.key_numbers (fields_of numbered.now.fields) }
    ensures { IfOk result (λ sound. sound ≡ true → telling.NoneBreaks types.now (numbered_of numbered.now)) }
{
    if !have_one_shape(alloc, types, numbered, keys, families)? {
        return Ok(false);
    }
    let mixed = mixed_families(alloc, types, numbered.fields.as_slice(), families)?;
    let sound = agree_by_objects(alloc, types, numbered, keys, families, mixed.as_slice())?;
    Ok(sound)
}

/// Whether all fields that are compared with each other are of one family, and all of a family have one shape.
fn have_one_shape(
    alloc: Global,
    types: &Table<ExtendedType>,
    numbered: &Numbered<'_>,
    keys: &[usize],
    families: &[usize],
) -> Result<bool, Memory>
    requires { keys.now ≡ telling.key_numbers (fields_of numbered.now.fields) }
    ensures { IfOk result (λ have. have ≡ true → spec.AreShapeFamilies types.now (numbered_of numbered.now) families.now) }
{
    if !all_shaped(types, numbered.fields.as_slice(), families) {
        return Ok(false);
    }
    let rows = gathered(alloc, numbered, families)?;
    let none_meet = is_unmet(alloc, types, numbered, keys, keys.len(), families, &rows)?;
    Ok(none_meet)
}

/// Whether each field has the shape of the one that its family is called after.
fn all_shaped(types: &Table<ExtendedType>, fields: &[Selected<'_>], families: &[usize]) -> bool
    ensures { result ≡ true → spec.AreShaped types.now (fields_of fields.now) families.now }
{
    for number in 0..fields.len() {
        if !is_shaped_at(types, fields, families, number) {
            return false;
        }
    }
    true
}

/// Whether the field of a number has the shape of the one that its family is called after.
fn is_shaped_at(
    types: &Table<ExtendedType>,
    fields: &[Selected<'_>],
    families: &[usize],
    number: usize,
) -> bool
    ensures { result ≡ spec.is_shaped_at types.now (fields_of fields.now) families.now number }
{
    match fields.get(number) {
        Some(field) => is_shaped_with(types, fields, class_of(families, number), field),
        None => true,
    }
}

/// Whether a field has the shape of the one of a number.
fn is_shaped_with(
    types: &Table<ExtendedType>,
    fields: &[Selected<'_>],
    number: usize,
    field: &Selected<'_>,
) -> bool
    ensures { result ≡ spec.is_shaped_with types.now (fields_of fields.now) number (selected_of field.now) }
{
    match fields.get(number) {
        Some(other) => same_shape(
            types,
            &field.field.definition.ty,
            &other.field.definition.ty,
        ),
        None => false,
    }
}

/// At each family whether a field of it stands in a set on a type that is not an object. No contract says so: what is made here is
/// looked at where it is used.
fn mixed_families(
    alloc: Global,
    types: &Table<ExtendedType>,
    fields: &[Selected<'_>],
    families: &[usize],
) -> Result<Vec<bool>, Memory> {
    let mut mixed = vec![in alloc; false; fields.len()]?;
    for number in 0..fields.len() {
        let family = class_of(families, number);
        if family < mixed.len() && !is_on_object(types, fields, number) {
            mixed[family] = true;
        }
    }
    Ok(mixed)
}

/// Whether the field of a number stands in a set on an object type.
fn is_on_object(types: &Table<ExtendedType>, fields: &[Selected<'_>], number: usize) -> bool
    ensures { result ≡ place.is_on_object_at types.now (fields_of fields.now) number }
{
    match fields.get(number) {
        Some(field) => is_object(types, field.parent.as_str()),
        None => true,
    }
}

/// Whether no pair of fields breaks the rule: those of a place that meet are to be of one group, and all of a group are to agree.
fn agree_by_objects(
    alloc: Global,
    types: &Table<ExtendedType>,
    numbered: &Numbered<'_>,
    keys: &[usize],
    families: &[usize],
    mixed: &[bool],
) -> Result<bool, Memory>
    requires keys { keys.now ≡ telling.key_numbers (fields_of numbered.now.fields) }
    requires families { spec.AreShapeFamilies types.now (numbered_of numbered.now) families.now }
    ensures { IfOk result (λ sound. sound ≡ true → telling.NoneBreaks types.now (numbered_of numbered.now)) }
{
    if !are_on_objects(types, numbered.fields.as_slice(), families, mixed) {
        return Ok(false);
    }
    let places = places_of(
        alloc,
        types,
        numbered.fields.as_slice(),
        keys,
        families,
        mixed,
    )?;
    let groups = grown_families(alloc, numbered, places.keys.as_slice())?;
    let sound = agree_in_groups(alloc, types, numbered, &places, groups.as_slice())?;
    Ok(sound)
}

/// Whether each field of a family that is not mixed stands in a set on an object type.
fn are_on_objects(
    types: &Table<ExtendedType>,
    fields: &[Selected<'_>],
    families: &[usize],
    mixed: &[bool],
) -> bool
    ensures { result ≡ true → place.AreOnObjects types.now (fields_of fields.now) families.now mixed.now }
{
    for number in 0..fields.len() {
        if !is_mixed_or_on_object(types, fields, families, mixed, number) {
            return false;
        }
    }
    true
}

/// Whether a field is of a mixed family, or stands in a set on an object type.
fn is_mixed_or_on_object(
    types: &Table<ExtendedType>,
    fields: &[Selected<'_>],
    families: &[usize],
    mixed: &[bool],
    number: usize,
) -> bool
    ensures { result ≡ (place.is_mixed mixed.now (family_of families.now number) || place.is_on_object_at types.now (fields_of fields.now) number) }
{
    is_mixed(mixed, class_of(families, number)) || is_on_object(types, fields, number)
}

/// Whether fields of one place that meet are of one group, and all of a group agree.
fn agree_in_groups(
    alloc: Global,
    types: &Table<ExtendedType>,
    numbered: &Numbered<'_>,
    places: &Places,
    groups: &[usize],
) -> Result<bool, Memory>
    requires { AreKeys places.now.keys.items places.now.count }
    ensures { IfOk result (λ agree. agree ≡ true → spec.AreGroups types.now (numbered_of numbered.now) places.now.keys.items groups.now) }
{
    if !all_agree(types, numbered.fields.as_slice(), groups) {
        return Ok(false);
    }
    let rows = gathered(alloc, numbered, groups)?;
    let none_meet = is_unmet(
        alloc,
        types,
        numbered,
        places.keys.as_slice(),
        places.count,
        groups,
        &rows,
    )?;
    Ok(none_meet)
}
