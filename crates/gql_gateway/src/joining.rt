//! Two responses joined.

ghost use Rattle.std.specs.Prelude.{◌≡◌, ◌++◌, ◌∷◌, [], List, None, IfOk, OnOk, Some};
ghost use Rattle.std.specs.Map.{lookup};
ghost use Rattle.std.specs.Str.{bytes_eq};
ghost use Rattle.gql_gateway.specs.Joined.{AreApart, Gives, joined, joined_roots};
ghost use Rattle.gql_gateway.specs.bridge.Joining.{GivesMembers, IsAdded, IsAddedOf, added_member, without_data};
ghost use Rattle.gql_gateway.specs.bridge.Sides.{IsSideOf};
ghost use Rattle.gql_resolvers.specs.Execute.{Member};
ghost use Rattle.gql_response.specs.declared.graphql_error.GraphQLError.{GraphQLError as ErrorOf};

use crate::root_key::RootKey;
use crate::side::Side;
use gql_ast_base::Name;
use gql_response::{ExecutionResponse, GraphQLError};
use jb_text::{Listed, Memory, Refused};
use jb_tree::{Map, Value};
use std::alloc::Global;
use std::mem;

/// Two responses joined, of which the first answers the keys that are answered here, and the second the others. For each key in order the
/// data has the value that its response has there, and the errors are those of its response whose paths begin with the key; any other
/// error is left out, and so is a key that is answered here and that the first response lacks. Where the data of either are null, so are
/// those of both, with all errors of the first and then all of the second. No key may be there twice.
///
/// The errors are put into lists by key first, so the work grows with the keys and the errors, and not with their product.
///
/// # Errors
///
/// The first key that is not answered here and that the second response lacks, exactly where both have data and there is one. Otherwise
/// only when out of memory.
pub fn join(
    alloc: Global,
    keys: Listed<RootKey>,
    here: ExecutionResponse,
    there: ExecutionResponse,
) -> Result<ExecutionResponse, Refused<Name>>
    requires { AreApart keys }
    ensures { Gives (joined keys here there) result }
{
    let here = parts_of(alloc, here);
    let there = parts_of(alloc, there);
    match (here.root, there.root) {
        (Some(members), Some(others)) => {
            let here = Side::new(alloc, members, here.errors)?;
            let there = Side::new(alloc, others, there.errors)?;
            with_data(alloc, keys, here, there)
        }
        _ => Ok(without_data(here.errors, there.errors)?),
    }
}

/// The errors and the data of a response.
#[derive(Drop)]
struct Parts {
    errors: Listed<GraphQLError>,
    root: Option<Map>,
}

/// A response taken apart.
fn parts_of(alloc: Global, mut response: ExecutionResponse) -> Parts
    ensures errors { result.errors ≡ response.errors }
    ensures root { result.root ≡ response.root }
{
    Parts {
        errors: mem::replace(&mut response.errors, Listed::new(alloc)),
        root: response.root.take(),
    }
}

/// The response without data, with all errors of both.
fn without_data(
    mut errors: Listed<GraphQLError>,
    others: Listed<GraphQLError>,
) -> Result<ExecutionResponse, Memory>
    ensures { IfOk result (λ response. response ≡ without_data errors others) }
{
    append(others, &mut errors)?;
    Ok(ExecutionResponse { errors, root: None })
}

/// What is joined so far.
#[derive(Drop)]
struct Joined {
    members: Map,
    errors: Listed<GraphQLError>,
}

/// The response with the data and the errors that two sides have under the keys.
fn with_data(
    alloc: Global,
    keys: Listed<RootKey>,
    mut here: Side,
    mut there: Side,
) -> Result<ExecutionResponse, Refused<Name>>
    requires { AreApart keys }
    ensures { (ms ns : List Member) (es fs : List ErrorOf) → IsSideOf ms es here → IsSideOf ns fs there
        → Gives (joined_roots keys es fs (Some ms) (Some ns)) result }
{
    let mut joined = Joined {
        members: Map::new(alloc),
        errors: Listed::new(alloc),
    };
    for key in keys {
        add_key(alloc, key, &mut here, &mut there, &mut joined)?;
    }
    let Joined { members, errors } = joined;
    Ok(ExecutionResponse {
        errors,
        root: Some(members),
    })
}

/// Adds what the side of a key has there.
fn add_key(
    alloc: Global,
    key: RootKey,
    here: &mut Side,
    there: &mut Side,
    joined: &mut Joined,
) -> Result<(), Refused<Name>>
    requires { lookup (bytes_eq key.name.text) joined.old.members ≡ None }
    ensures { IsAddedOf key here.old here.new there.old there.new joined.old joined.new result }
{
    if key.here {
        add_from(alloc, key, here, joined)
    } else {
        add_from(alloc, key, there, joined)
    }
}

/// Adds what a side has under a key.
fn add_from(
    alloc: Global,
    key: RootKey,
    side: &mut Side,
    joined: &mut Joined,
) -> Result<(), Refused<Name>>
    requires { lookup (bytes_eq key.name.text) joined.old.members ≡ None }
    ensures { IsAdded key side.old side.new joined.old joined.new result }
{
    let value = side.take_value(key.name.as_str());
    let errors = side.take_errors(alloc, key.name.as_str());
    add_member(alloc, key, value, &mut joined.members)?;
    append(errors, &mut joined.errors)?;
    Ok(())
}

/// Adds the member of a key, or says that the key is lacking. One that is answered here may be left out.
fn add_member(
    alloc: Global,
    key: RootKey,
    value: Option<Value>,
    members: &mut Map,
) -> Result<(), Refused<Name>>
    requires { lookup (bytes_eq key.name.text) members.old ≡ None }
    ensures { GivesMembers (added_member key value members.old) members.new result }
{
    let RootKey { name, here } = key;
    match value {
        Some(value) => Ok(put(alloc, &name, value, members)?),
        None => {
            if here {
                Ok(())
            } else {
                Err(Refused::Fault(name))
            }
        }
    }
}

/// Adds a member that is not there.
fn put(alloc: Global, name: &Name, value: Value, members: &mut Map) -> Result<(), Memory>
    requires { lookup (bytes_eq name.now.text) members.old ≡ None }
    ensures { OnOk result (members.new ≡ members.old ++ (name.now.text, value) ∷ []) }
{
    let key = name.text().copy(alloc)?;
    members.insert_new(key, value)
}

/// Adds errors at the end, in order.
fn append(errors: Listed<GraphQLError>, all: &mut Listed<GraphQLError>) -> Result<(), Memory>
    ensures { OnOk result (all.new ≡ all.old ++ errors) }
{
    for error in errors {
        all.push(error)?;
    }
    Ok(())
}
