//! Field Selection Merging (GraphQL October 2021, section 5.3.2).

ghost use Rattle.std.specs.Prelude.{◌≡◌, ◌++◌, List, true, length, IfOk, OnOk};
ghost use Rattle.std.specs.List.{flat_map, list_all};
ghost use Rattle.gql_diag_messages.specs.declared.diagnostic_data.DiagnosticData.{DiagnosticData};
ghost use Rattle.gql_rules_merging.specs.bridge.Classes.{AreClasses, is_sound as is_sound_pair};
ghost use Rattle.gql_rules_merging.specs.FieldSelectionMerging as spec;
ghost use Rattle.gql_rules_merging.specs.bridge.Gathering.{fields_of, numbered_of};
ghost use Rattle.gql_rules_merging.specs.bridge.Telling as telling;

use crate::classes::classes_of;
use crate::comparison::Comparison;
use crate::families::is_sound_by_families;
use crate::numbering::{Numbered, number_fields};
use crate::response_keys::key_numbers;
use gql_diag_messages::DiagnosticData;
use gql_document_types::ExecutableDocument;
use gql_graph::{Compares, DocumentSets, Pair, Seen, explore};
use gql_schema_types::{ExtendedType, Schema, Table};
use jb_text::{Listed, Memory};
use std::alloc::Global;

/// Lists the fields of one response key that cannot be merged (GraphQL October 2021, section 5.3.2): one diagnostic for each
/// pair of fields that breaks the rule itself, at the one that comes later in the text. Each pair is compared at most once in
/// full and once by type alone. `Err` only when out of memory: then the list has some of the faults.
pub fn list_conflicting_fields(
    alloc: Global,
    schema: &Schema,
    document: &ExecutableDocument,
    faults: &mut Listed<DiagnosticData>,
) -> Result<(), Memory>
    ensures { OnOk result ((told : List DiagnosticData) × spec.AreConflicts schema.now.types document.now told × (faults.new ≡ faults.old ++ told)) }
{
    let numbered = number_fields(alloc, document)?;
    let keys = key_numbers(alloc, numbered.fields.as_slice())?;
    list_numbered(alloc, &schema.types, &numbered, keys.as_slice(), faults)?;
    Ok(())
}

/// The same of a document whose fields are numbered. Pairs are looked at one by one only where no faster way tells that none breaks
/// the rule.
fn list_numbered(
    alloc: Global,
    types: &Table<ExtendedType>,
    numbered: &Numbered<'_>,
    keys: &[usize],
    faults: &mut Listed<DiagnosticData>,
) -> Result<(), Memory>
    requires { keys.now ≡ telling.key_numbers (fields_of numbered.now.fields) }
    ensures { OnOk result ((told : List DiagnosticData) × telling.AreConflictsOf types.now (numbered_of numbered.now) told × (faults.new ≡ faults.old ++ told)) }
{
    if none_breaks(alloc, types, numbered, keys)? {
        return Ok(());
    }
    list_each(alloc, types, numbered, keys, faults)?;
    Ok(())
}

/// Whether no pair of fields breaks the rule, as their families tell, or else one field of each class. It may be false where no pair
/// does.
fn none_breaks(
    alloc: Global,
    types: &Table<ExtendedType>,
    numbered: &Numbered<'_>,
    keys: &[usize],
) -> Result<bool, Memory>
    requires { keys.now ≡ telling.key_numbers (fields_of numbered.now.fields) }
    ensures { IfOk result (λ none. none ≡ true → telling.NoneBreaks types.now (numbered_of numbered.now)) }
{
    if is_sound_by_families(alloc, types, numbered, keys)? {
        return Ok(true);
    }
    let classes = classes_of(alloc, numbered.fragments.len(), numbered.fields.as_slice())?;
    is_sound_by_classes(alloc, types, numbered, keys, classes.as_slice())
}

/// Whether no pair of fields breaks the rule, as the pairs of their classes tell. It may be false where no pair does.
fn is_sound_by_classes(
    alloc: Global,
    types: &Table<ExtendedType>,
    numbered: &Numbered<'_>,
    keys: &[usize],
    classes: &[usize],
) -> Result<bool, Memory>
    requires keys { keys.now ≡ telling.key_numbers (fields_of numbered.now.fields) }
    requires classes { AreClasses (length numbered.now.fragments) (fields_of numbered.now.fields) classes.now }
    ensures { IfOk result (λ sound. sound ≡ true → telling.NoneBreaks types.now (numbered_of numbered.now)) }
{
    let comparison = Comparison {
        types,
        fields: numbered.fields.as_slice(),
    };
    let sets = DocumentSets {
        fragments: &numbered.fragments,
        operations: &numbered.operations,
        keys,
        key_count: keys.len(),
        classes,
    };
    let seen = explore(alloc, &comparison, &sets)?;
    Ok(are_sound(&comparison, seen.as_slice()))
}

/// Whether each of these pairs breaks nothing, whichever field comes first.
fn are_sound(comparison: &Comparison<'_, '_>, pairs: &[Pair]) -> bool
    ensures { result ≡ list_all (is_sound_pair comparison.now.types.now (fields_of comparison.now.fields.now)) pairs.now }
{
    pairs.iter().all(|pair| is_sound(comparison, *pair))
}

fn is_sound(comparison: &Comparison<'_, '_>, pair: Pair) -> bool
    ensures { result ≡ is_sound_pair comparison.now.types.now (fields_of comparison.now.fields.now) pair }
{
    let turned = Pair {
        first: pair.second,
        second: pair.first,
        in_full: pair.in_full,
    };
    comparison.below(pair).is_some() && comparison.below(turned).is_some()
}

/// Lists what conflicts in each pair of fields that breaks the rule.
fn list_each(
    alloc: Global,
    types: &Table<ExtendedType>,
    numbered: &Numbered<'_>,
    keys: &[usize],
    faults: &mut Listed<DiagnosticData>,
) -> Result<(), Memory>
    requires { keys.now ≡ telling.key_numbers (fields_of numbered.now.fields) }
    ensures { OnOk result ((told : List DiagnosticData) × telling.AreConflictsOf types.now (numbered_of numbered.now) told × (faults.new ≡ faults.old ++ told)) }
{
    let comparison = Comparison {
        types,
        fields: numbered.fields.as_slice(),
    };
    let sets = DocumentSets {
        fragments: &numbered.fragments,
        operations: &numbered.operations,
        keys,
        key_count: keys.len(),
        classes: &[],
    };
    let seen = explore(alloc, &comparison, &sets)?;
    list_broken(alloc, &comparison, &seen, seen.as_slice(), faults)?;
    Ok(())
}

/// Lists those of these pairs that break the rule, each pair of fields once.
fn list_broken(
    alloc: Global,
    comparison: &Comparison<'_, '_>,
    seen: &Seen,
    pairs: &[Pair],
    faults: &mut Listed<DiagnosticData>,
) -> Result<(), Memory>
    ensures { OnOk result (faults.new ≡ faults.old
        ++ flat_map (telling.told_of comparison.now.types.now (fields_of comparison.now.fields.now) seen.now) pairs.now) }
{
    for pair in pairs {
        if is_told(comparison, seen, *pair) {
            comparison.list_conflict(alloc, *pair, faults)?;
        }
    }
    Ok(())
}

/// Whether a pair breaks the rule, and is not told as it is compared in full too.
fn is_told(comparison: &Comparison<'_, '_>, seen: &Seen, pair: Pair) -> bool
    ensures { result ≡ telling.is_told comparison.now.types.now (fields_of comparison.now.fields.now) seen.now pair }
{
    comparison.below(pair).is_none() && (pair.in_full || !seen.contains(in_full(pair)))
}

/// The same fields, compared in full.
fn in_full(pair: Pair) -> Pair
    ensures { result ≡ telling.in_full pair }
{
    Pair {
        first: pair.first,
        second: pair.second,
        in_full: true,
    }
}
