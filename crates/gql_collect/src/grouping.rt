//! Fields that are put into groups by their response keys.

ghost use Rattle.std.specs.Prelude.{◌≡◌, ◌≤◌, ◌+◌, ◌∷◌, [], ◌++◌, None, IfOk, OnOk};
ghost use Rattle.std.specs.List.{filter};
ghost use Rattle.gql_schema_types.specs.Entries.{entry};
ghost use Rattle.gql_collect.specs.Collected.{setting, sets_of};
ghost use Rattle.gql_collect.specs.Grouping as step;
ghost use Rattle.gql_collect.specs.bridge.Grouping as step_bridge;
ghost use Rattle.gql_collect.specs.Groups as spec;
ghost use Rattle.gql_document_types.specs.Spreads.{AreAcyclic};
ghost use Rattle.gql_collect.specs.Sizes.{fragments_size, outer_size, sets_size};
ghost use Rattle.gql_collect.specs.Standing.{NoneMoreOften, fields_in_all, fields_in_fragments};
ghost use Rattle.gql_collect.specs.Walk.{fields_of};

use crate::collecting::selected_fields;
use crate::group::{Group, Key, response_name};
use crate::grouped::Grouped;
use crate::pieces::Pieces;
use crate::steps::Steps;
use gql_document_types::{ExecutableDocument, Field};
use gql_graph::laws as graph_laws;
use gql_schema_types::{ObjectType, Schema, Table};
use jb_text::{Listed, Memory};
use jb_tree::Map;
use std::alloc::{AllocError, Global};
use std::sync::ledger::Ledger;

/// The groups of fields that selection sets ask of an object type, in the order in which their keys first occur (GraphQL
/// October 2021, section 6.3.2, CollectFields). A group whose first field is not defined on the type is left out.
///
/// Each fragment is entered once. So a group has the key and the first field that it has where each fragment is written out
/// at each of its spreads, and the same fields, repeats aside; and each field of the sets and of the fragments stands in the
/// groups at most once. Keys are found by hash.
///
/// Each selection that is looked at counts one step: at least those of the sets themselves, and at most those of the sets
/// and of all fragments, with what is inside inline fragments and without what is inside fields.
///
/// # Errors
///
/// `Err` only when out of memory.
pub fn collect_fields<'d, L: Ledger>(
    alloc: Global,
    schema: &Schema,
    document: &'d ExecutableDocument,
    object_type: &ObjectType,
    pieces: &Pieces<'d>,
    variables: &Map,
    steps: &mut Steps<L>,
) -> Result<Grouped<'d>, Memory>
    requires { AreAcyclic document.now.fragments }
    ensures groups { IfOk result (λ grouped. spec.SameGroups (step.groups_seen grouped)
        (spec.applying (setting document.now.fragments schema.now object_type.now variables.now) (sets_of pieces.now))) }
    ensures once { IfOk result (λ grouped. NoneMoreOften (step.fields_in_groups (step.groups_seen grouped))
        (fields_in_all (sets_of pieces.now) ++ fields_in_fragments document.now.fragments)) }
    ensures looks { steps.new ≤ steps.old + (sets_size (sets_of pieces.now) + fragments_size document.now.fragments) }
    ensures rises { steps.old ≤ steps.new }
    ensures counted { OnOk result (steps.old + outer_size (sets_of pieces.now) ≤ steps.new) }
{
    graph_laws::acyclic_graphs_have_ranks();
    let fields = selected_fields(
        alloc,
        schema,
        document,
        object_type,
        pieces,
        variables,
        steps,
    )?;
    let groups = in_groups(alloc, &fields)?;
    let kept = defined(alloc, schema, object_type, groups)?;
    Ok(Grouped::of(kept))
}

/// The fields in groups.
fn in_groups<'d>(alloc: Global, fields: &Listed<&'d Field>) -> Result<Listed<Group<'d>>, Memory>
    ensures { IfOk result (λ groups. step.groups_seen groups ≡ spec.groups_of (fields_of fields.now)) }
{
    let mut keys = Table::new(alloc);
    let mut groups = Listed::new(alloc);
    for field in fields.as_slice() {
        put(alloc, *field, &mut keys, &mut groups)?;
    }
    Ok(groups)
}

/// Puts a field into the group of its key, or begins one.
fn put<'d>(
    alloc: Global,
    field: &'d Field,
    keys: &mut Table<Key<'d>>,
    groups: &mut Listed<Group<'d>>,
) -> Result<(), Memory>
    requires { step_bridge.key_texts keys.old ≡ step_bridge.group_keys (step.groups_seen groups.old) }
    ensures groups { OnOk result (step.groups_seen groups.new ≡ step_bridge.added (step.groups_seen groups.old) field.now) }
    ensures keys { OnOk result (step_bridge.key_texts keys.new ≡ step_bridge.group_keys (step.groups_seen groups.new)) }
{
    match keys.find(response_name(field).as_str()) {
        Some(number) => extend(field, number, groups),
        None => begin(alloc, field, keys, groups),
    }
}

/// Puts a field last into the group of the number.
fn extend<'d>(field: &'d Field, number: usize, groups: &mut Listed<Group<'d>>) -> Result<(), Memory>
    ensures { OnOk result (groups.new ≡ step_bridge.extended groups.old number field.entry) }
{
    match groups.get_mut(number) {
        Some(group) => group.fields.push(field),
        None => Ok(()),
    }
}

/// Begins a group with a field.
fn begin<'d>(
    alloc: Global,
    field: &'d Field,
    keys: &mut Table<Key<'d>>,
    groups: &mut Listed<Group<'d>>,
) -> Result<(), Memory>
    requires { entry step_bridge.key_name (spec.response_key field.now) keys.old ≡ None }
    ensures groups { OnOk result (step.groups_seen groups.new ≡ step.groups_seen groups.old ++ step_bridge.begun field.now ∷ []) }
    ensures keys { OnOk result (step_bridge.key_texts keys.new ≡ step_bridge.key_texts keys.old ++ spec.response_key field.now ∷ []) }
{
    note_key(keys, Key { field })?;
    let mut fields = Listed::new(alloc);
    fields.push(field)?;
    groups.push(Group {
        first: field,
        fields,
    })
}

/// Adds a key that is not there.
fn note_key<'d>(keys: &mut Table<Key<'d>>, key: Key<'d>) -> Result<(), Memory>
    requires { entry step_bridge.key_name (step_bridge.key_name key).text keys.old ≡ None }
    ensures { OnOk result (keys.new ≡ keys.old ++ key.entry ∷ []) }
{
    match keys.insert_new(key) {
        Ok(()) => Ok(()),
        Err(_) => Err(AllocError),
    }
}

/// The groups whose first field is defined on the object type.
fn defined<'d>(
    alloc: Global,
    schema: &Schema,
    object_type: &ObjectType,
    groups: Listed<Group<'d>>,
) -> Result<Listed<Group<'d>>, Memory>
    ensures { IfOk result (λ kept. step.groups_seen kept ≡ filter (spec.is_defined schema.now object_type.now) (step.groups_seen groups.entry)) }
{
    let mut kept = Listed::new(alloc);
    for group in groups {
        if is_defined(schema, object_type, group.first) {
            kept.push(group)?;
        }
    }
    Ok(kept)
}

/// Whether the object type has the field.
fn is_defined(schema: &Schema, object_type: &ObjectType, field: &Field) -> bool
    ensures { result ≡ spec.has_field schema.now object_type.now field.now }
{
    schema
        .type_field(object_type.name.as_str(), field.name.as_str())
        .is_some()
}
