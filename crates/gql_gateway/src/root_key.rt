//! The response keys of a root, and at which of two places each is answered.

ghost use Rattle.std.specs.Prelude.{◌≡◌, Some, IfOk};
ghost use Rattle.gql_collect.specs.Collected.{setting};
ghost use Rattle.gql_document_types.specs.Spreads.{AreAcyclic};
ghost use Rattle.gql_gateway.specs.Joined.{AreApart, keys_on};
ghost use Rattle.gql_gateway.specs.bridge.KeysSeen.{keys_seen};
ghost use Rattle.gql_schema_types.specs.Schemas.{object_of};
ghost use Rattle.gql_schema_types.specs.declared.types.ObjectType.{ObjectType as ObjectTypeOf};

use crate::meta_name::is_meta_name;
use gql_ast_base::{Copying, Name};
use gql_collect::{Grouped, Pieces, Steps, collect_fields};
use gql_document_types::{ExecutableDocument, Operation};
use gql_schema_types::{ObjectType, Schema};
use jb_text::{Listed, Memory};
use jb_tree::Map;
use std::alloc::Global;
use std::sync::ledger::Ledger;

/// A response key of a root, and whether it is answered here: whether the first field of that key is named `__typename`, `__schema` or
/// `__type`.
#[derive(Drop)]
pub struct RootKey {
    pub name: Name,
    pub here: bool,
}

/// The response keys of an operation on its root type, in the order in which they first occur (GraphQL October 2021, section 6.3.2).
/// There are none where the root type is no object type of the schema. No fragment may lead back to itself. `Err` only when out of
/// memory.
pub fn root_keys<L: Ledger>(
    alloc: Global,
    schema: &Schema,
    document: &ExecutableDocument,
    operation: &Operation,
    variables: &Map,
    steps: &mut Steps<L>,
) -> Result<Listed<RootKey>, Memory>
    requires { AreAcyclic document.now.fragments }
    ensures keys { IfOk result (λ keys. (U : ObjectTypeOf) → object_of schema.now operation.now.selection_set.ty.text ≡ Some U
        → keys ≡ keys_on (setting document.now.fragments schema.now U variables.now) operation.now.selection_set.selections) }
    ensures apart { IfOk result AreApart }
{
    match schema.get_object(operation.object_type().as_str()) {
        Some(object) => keys_on(alloc, schema, document, object, operation, variables, steps),
        None => Ok(Listed::new(alloc)),
    }
}

/// The response keys on an object type.
fn keys_on<L: Ledger>(
    alloc: Global,
    schema: &Schema,
    document: &ExecutableDocument,
    object: &ObjectType,
    operation: &Operation,
    variables: &Map,
    steps: &mut Steps<L>,
) -> Result<Listed<RootKey>, Memory>
    requires { AreAcyclic document.now.fragments }
    ensures keys { IfOk result (λ keys. keys ≡ keys_on (setting document.now.fragments schema.now object.now variables.now)
        operation.now.selection_set.selections) }
    ensures apart { IfOk result AreApart }
{
    let mut pieces = Pieces::new(alloc);
    pieces.add(&operation.selection_set)?;
    let grouped = collect_fields(alloc, schema, document, object, &pieces, variables, steps)?;
    keys_of(alloc, &grouped)
}

/// The response keys of groups.
fn keys_of(alloc: Global, grouped: &Grouped<'_>) -> Result<Listed<RootKey>, Memory>
    ensures { IfOk result (λ keys. keys ≡ keys_seen grouped.now) }
{
    let mut keys = Listed::new(alloc);
    for group in grouped.groups().as_slice() {
        keys.push(RootKey {
            name: group.key().copy(alloc)?,
            here: is_meta_name(group.first.name.as_str()),
        })?;
    }
    Ok(keys)
}
