//! What two fields of one response key are compared by.

ghost use Rattle.std.specs.Prelude.{◌≡◌, ◌++◌, [], ◌∷◌, Option, OnOk};
ghost use Rattle.gql_rules_merging.specs.FieldSelectionMerging as spec;
ghost use Rattle.gql_rules_merging.specs.bridge.Gathering.{fields_of, selected_of};

use crate::conflicting_field_argument::{have_same_arguments, list_conflicting_arguments};
use crate::conflicting_field_name::{list_conflicting_names, names_conflict};
use crate::conflicting_field_type::{list_conflicting_types, types_conflict};
use crate::numbering::Selected;
use gql_diag_messages::DiagnosticData;
use gql_graph::{Compares, Pair};
use gql_schema_types::{ExtendedType, Table};
use gql_source::SourceSpan;
use jb_text::{Listed, Memory};
use std::alloc::Global;

/// The fields of a document, and the types of the schema.
#[derive(Clone, Copy)]
pub(crate) struct Comparison<'a, 'd> {
    pub(crate) types: &'a Table<ExtendedType>,
    pub(crate) fields: &'a [Selected<'d>],
}

impl Compares for Comparison<'_, '_> {
    ghost use Rattle.gql_rules_merging.specs.FieldSelectionMerging.{items as items_of, below as below_of};
    ghost use Rattle.gql_rules_merging.specs.bridge.Gathering.{fields_of};

    ghost items = { λ it. items_of (fields_of it.fields.now) };

    ghost below = { λ it. below_of it.types.now (fields_of it.fields.now) };

    fn items(&self, field: usize) -> &[usize] {
        match self.fields.get(field) {
            Some(field) => field.items.as_slice(),
            None => &[],
        }
    }

    fn below(&self, pair: Pair) -> Option<bool> {
        match self.fields.get(pair.first) {
            Some(one) => match self.fields.get(pair.second) {
                Some(other) => below(self.types, pair.in_full, one, other),
                None => None,
            },
            None => None,
        }
    }
}

/// Whether what is below two fields is compared in full. `None` where they break the rule.
fn below(
    types: &Table<ExtendedType>,
    in_full: bool,
    one: &Selected<'_>,
    other: &Selected<'_>,
) -> Option<bool>
    ensures { result ≡ spec.below_fields types.now in_full (selected_of one.now) (selected_of other.now) }
{
    let in_full = in_full && !are_apart(types, one, other);
    if types_conflict(types, one, other) || (in_full && differ(one, other)) {
        None
    } else {
        Some(in_full)
    }
}

/// Whether two fields have different names or different arguments.
pub(crate) fn differ(one: &Selected<'_>, other: &Selected<'_>) -> bool
    ensures { result ≡ spec.differ (selected_of one.now) (selected_of other.now) }
{
    names_conflict(one, other) || !have_same_arguments(one, other)
}

/// Whether these are fields of two different object types.
fn are_apart(types: &Table<ExtendedType>, one: &Selected<'_>, other: &Selected<'_>) -> bool
    ensures { result ≡ spec.are_apart types.now (selected_of one.now) (selected_of other.now) }
{
    one.parent.as_str() != other.parent.as_str()
        && (is_object(types, one.parent.as_str()) && is_object(types, other.parent.as_str()))
}

/// Whether this is the name of an object type.
pub(crate) fn is_object(types: &Table<ExtendedType>, name: &str) -> bool
    ensures { result ≡ spec.is_object_name types.now name.now }
{
    matches!(types.get(name), Some(ExtendedType::Object(_)))
}

impl Comparison<'_, '_> {
    /// Lists what conflicts in a pair of fields.
    pub(crate) fn list_conflict(
        &self,
        alloc: Global,
        pair: Pair,
        faults: &mut Listed<DiagnosticData>,
    ) -> Result<(), Memory>
        ensures { OnOk result (faults.new ≡ faults.old ++ spec.conflict_of self.now.types.now (fields_of self.now.fields.now) pair) }
    {
        match self.fields.get(pair.first) {
            Some(one) => match self.fields.get(pair.second) {
                Some(other) => list_conflict(alloc, self.types, one, other, faults),
                None => Ok(()),
            },
            None => Ok(()),
        }
    }
}

/// Lists what conflicts in two fields, the later one in the text with the earlier one's place.
fn list_conflict(
    alloc: Global,
    types: &Table<ExtendedType>,
    one: &Selected<'_>,
    other: &Selected<'_>,
    faults: &mut Listed<DiagnosticData>,
) -> Result<(), Memory>
    ensures { OnOk result (faults.new ≡ faults.old ++ spec.conflict types.now (selected_of one.now) (selected_of other.now) ∷ []) }
{
    let conflict = Conflict {
        types: types_conflict(types, one, other),
        names: names_conflict(one, other),
    };
    if is_before(other.field.location, one.field.location) {
        list_in_order(alloc, conflict, other, one, faults)
    } else {
        list_in_order(alloc, conflict, one, other, faults)
    }
}

/// What conflicts: types, or else names, or else arguments.
#[derive(Clone, Copy)]
struct Conflict {
    types: bool,
    names: bool,
}

/// Lists what conflicts in two fields, which are in the order of the text.
fn list_in_order(
    alloc: Global,
    conflict: Conflict,
    earlier: &Selected<'_>,
    later: &Selected<'_>,
    faults: &mut Listed<DiagnosticData>,
) -> Result<(), Memory>
    ensures { OnOk result (faults.new ≡ faults.old ++ spec.first_conflict conflict.types conflict.names (selected_of earlier.now) (selected_of later.now) ∷ []) }
{
    if conflict.types {
        list_conflicting_types(alloc, earlier, later, faults)
    } else if conflict.names {
        list_conflicting_names(alloc, earlier, later, faults)
    } else {
        list_conflicting_arguments(alloc, earlier, later, faults)
    }
}

/// Whether a place comes before another: by the file and then by the offset, none before all.
fn is_before(one: Option<SourceSpan>, other: Option<SourceSpan>) -> bool
    ensures { result ≡ spec.is_before one other }
{
    match (one, other) {
        (_, None) => false,
        (None, Some(_)) => true,
        (Some(one), Some(other)) => {
            one.file_id().number < other.file_id().number
                || (one.file_id().number == other.file_id().number && one.offset() < other.offset())
        }
    }
}
