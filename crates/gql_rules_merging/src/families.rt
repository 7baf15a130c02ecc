//! Families of fields: a field is compared with those of its family alone. Where all of a family are the same field with the same
//! arguments and of one shape, none of its pairs breaks the rule.

ghost use Rattle.std.specs.Prelude.{◌≡◌, true, [], IfOk};
ghost use Rattle.gql_rules_merging.specs.bridge.Families as spec;
ghost use Rattle.gql_rules_merging.specs.bridge.Gathering.{fields_of, selected_of, numbered_of};
ghost use Rattle.gql_rules_merging.specs.bridge.Telling as telling;
ghost use Rattle.gql_graph.specs.bridge.Explored.{AreKeys, IsExplored};

use crate::classes::class_of;
use crate::comparison::{Comparison, differ};
use crate::conflicting_field_type::same_shape;
use crate::family_growth::grown_families;
use crate::family_sets::gathered;
use crate::numbering::{Numbered, Selected};
use crate::object_families::is_sound_by_objects;
use gql_graph::{DocumentSets, Graph, explore};
use gql_schema_types::{ExtendedType, Table};
use jb_text::Memory;
use std::alloc::Global;

/// Whether no pair of fields breaks the rule, as their families tell. It may be false where no pair does: where fields of one
/// response key differ that no object has both, or that are not compared with each other but with a third. `Err` only when out
/// of memory. The time is linear in what is entered from all sets.
pub(crate) fn is_sound_by_families(
    alloc: Global,
    types: &Table<ExtendedType>,
    numbered: &Numbered<'_>,
    keys: &[usize],
) -> Result<bool, Memory>
    requires { keys.now ≡ telling.key_numbers (fields_of numbered.now.fields) }
    ensures { IfOk result (λ sound. sound ≡ true → telling.NoneBreaks types.now (numbered_of numbered.now)) }
{
    let families = grown_families(alloc, numbered, keys)?;
    if all_agree(types, numbered.fields.as_slice(), families.as_slice()) {
        are_closed(alloc, types, numbered, keys, families.as_slice())
    } else {
        is_sound_by_objects(alloc, types, numbered, keys, families.as_slice())
    }
}

/// Whether each field agrees with the one that its family is called after.
pub(crate) fn all_agree(
    types: &Table<ExtendedType>,
    fields: &[Selected<'_>],
    families: &[usize],
) -> bool
    ensures { result ≡ true → spec.AreAgreed types.now (fields_of fields.now) families.now }
{
    for number in 0..fields.len() {
        if !is_agreed_at(types, fields, families, number) {
            return false;
        }
    }
    true
}

/// Whether the field of a number agrees with the one that its family is called after.
fn is_agreed_at(
    types: &Table<ExtendedType>,
    fields: &[Selected<'_>],
    families: &[usize],
    number: usize,
) -> bool
    ensures { result ≡ spec.is_agreed_at types.now (fields_of fields.now) families.now number }
{
    match fields.get(number) {
        Some(field) => is_agreed(types, fields, class_of(families, number), number, field),
        None => true,
    }
}

/// Whether a field is the one that its family is called after, or agrees with that one.
fn is_agreed(
    types: &Table<ExtendedType>,
    fields: &[Selected<'_>],
    family: usize,
    number: usize,
    field: &Selected<'_>,
) -> bool
    ensures { result ≡ spec.is_agreed types.now (fields_of fields.now) family number (selected_of field.now) }
{
    number == family || agrees_with(types, fields, family, field)
}

/// Whether a field agrees with the one of a number.
fn agrees_with(
    types: &Table<ExtendedType>,
    fields: &[Selected<'_>],
    number: usize,
    field: &Selected<'_>,
) -> bool
    ensures { result ≡ spec.agrees_with types.now (fields_of fields.now) number (selected_of field.now) }
{
    match fields.get(number) {
        Some(other) => agree(types, field, other),
        None => false,
    }
}

/// Whether two fields have one shape, one name and the same arguments, whichever comes first.
fn agree(types: &Table<ExtendedType>, one: &Selected<'_>, other: &Selected<'_>) -> bool
    ensures { result ≡ spec.agree types.now (selected_of one.now) (selected_of other.now) }
{
    same_shape(types, &one.field.definition.ty, &other.field.definition.ty)
        && (!differ(one, other) && !differ(other, one))
}

/// Whether all fields that have one response key, in one set or in the sets of one family taken together, are of one family.
fn are_closed(
    alloc: Global,
    types: &Table<ExtendedType>,
    numbered: &Numbered<'_>,
    keys: &[usize],
    families: &[usize],
) -> Result<bool, Memory>
    requires keys { keys.now ≡ telling.key_numbers (fields_of numbered.now.fields) }
    requires agreed { spec.AreAgreed types.now (fields_of numbered.now.fields) families.now }
    ensures { IfOk result (λ closed. closed ≡ true → telling.NoneBreaks types.now (numbered_of numbered.now)) }
{
    let rows = gathered(alloc, numbered, families)?;
    let none_meet = is_unmet(alloc, types, numbered, keys, keys.len(), families, &rows)?;
    Ok(none_meet)
}

/// Whether no two fields of different families have one number of these keys, in the document's sets or in one that selects a row of
/// these.
pub(crate) fn is_unmet(
    alloc: Global,
    types: &Table<ExtendedType>,
    numbered: &Numbered<'_>,
    keys: &[usize],
    key_count: usize,
    families: &[usize],
    rows: &Graph,
) -> Result<bool, Memory>
    requires { AreKeys keys.now key_count }
    ensures { IfOk result (λ unmet. unmet ≡ true → IsExplored (spec.sets_over types.now (numbered_of numbered.now) rows.now keys.now) families.now []) }
{
    let comparison = Comparison {
        types,
        fields: numbered.fields.as_slice(),
    };
    let sets = DocumentSets {
        fragments: &numbered.fragments,
        operations: rows,
        keys,
        key_count,
        classes: families,
    };
    let seen = explore(alloc, &comparison, &sets)?;
    Ok(seen.as_slice().is_empty())
}
