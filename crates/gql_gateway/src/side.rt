//! What a response has under each response key, to be taken out.

ghost use Rattle.std.specs.Prelude.{◌≡◌, ◌++◌, ◌∷◌, [], None, IfOk, OnOk};
ghost use Rattle.std.specs.Map.{lookup};
ghost use Rattle.std.specs.Option.{option_copied};
ghost use Rattle.std.specs.Str.{bytes_eq};
ghost use Rattle.gql_gateway.specs.bridge.Joined.{first_key};
ghost use Rattle.gql_gateway.specs.bridge.Sides.{AreUnder, IsSideOf, listed_at, with_error, with_filed, without_list, without_value};

use gql_ast_base::Name;
use gql_response::{GraphQLError, ResponseDataPathSegment};
use jb_map::Pairs;
use jb_text::{ByteString, Listed, Memory};
use jb_tree::{Map, Value};
use std::alloc::Global;
use std::mem;

/// The members of a response's data, and its errors in lists by the response key that their paths begin with, as far as they were not
/// taken out.
#[derive(Drop)]
pub(crate) struct Side {
    pub(crate) members: Map,
    pub(crate) errors: Pairs<Listed<GraphQLError>>,
}

impl Side {
    /// What a response with these members and these errors has under each key. An error whose path begins with no key is under none.
    /// `Err` only when out of memory.
    pub(crate) fn new(
        alloc: Global,
        members: Map,
        errors: Listed<GraphQLError>,
    ) -> Result<Side, Memory>
        ensures { IfOk result (λ side. IsSideOf members errors side) }
    {
        Ok(Side {
            members,
            errors: under_keys(alloc, errors)?,
        })
    }

    /// Takes the value under a key out, which leaves null there.
    pub(crate) fn take_value(&mut self, key: &str) -> Option<Value>
        ensures value { result ≡ lookup (bytes_eq key.now) self.old.members }
        ensures left { self.new.members ≡ without_value key.now self.old.members }
        ensures errors { self.new.errors ≡ self.old.errors }
    {
        match self.members.get_mut(key) {
            Some(value) => Some(value.take()),
            None => None,
        }
    }

    /// Takes the errors under a key out.
    pub(crate) fn take_errors(&mut self, alloc: Global, key: &str) -> Listed<GraphQLError>
        ensures errors { result ≡ listed_at self.old.errors key.now }
        ensures left { self.new.errors ≡ without_list key.now self.old.errors }
        ensures members { self.new.members ≡ self.old.members }
    {
        match self.errors.get_mut(key) {
            Some(list) => mem::replace(list, Listed::new(alloc)),
            None => Listed::new(alloc),
        }
    }
}

/// Errors in lists by the response key that their paths begin with.
fn under_keys(
    alloc: Global,
    errors: Listed<GraphQLError>,
) -> Result<Pairs<Listed<GraphQLError>>, Memory>
    ensures { IfOk result (λ under. AreUnder under errors) }
{
    let mut under = Pairs::new(alloc);
    for error in errors {
        file(alloc, error, &mut under)?;
    }
    Ok(under)
}

/// Puts an error into the list of its key, if its path begins with one.
fn file(
    alloc: Global,
    error: GraphQLError,
    under: &mut Pairs<Listed<GraphQLError>>,
) -> Result<(), Memory>
    ensures { OnOk result (under.new ≡ with_filed error under.old) }
{
    match first_key(&error) {
        Some(name) => {
            let key = name.text().copy(alloc)?;
            file_under(alloc, key, error, under)
        }
        None => Ok(()),
    }
}

/// The response key that the path of an error begins with, if it does.
fn first_key(error: &GraphQLError) -> Option<&Name>
    ensures { option_copied result ≡ first_key error.now.path }
{
    match error.path.as_slice().first() {
        Some(ResponseDataPathSegment::Field(name)) => Some(name),
        _ => None,
    }
}

/// Puts an error last into the list of a key, or begins one.
fn file_under(
    alloc: Global,
    key: ByteString,
    error: GraphQLError,
    under: &mut Pairs<Listed<GraphQLError>>,
) -> Result<(), Memory>
    ensures { OnOk result (under.new ≡ with_error key error under.old) }
{
    match under.get_mut(key.as_str()) {
        Some(list) => list.push(error),
        None => begin(alloc, key, error, under),
    }
}

/// Begins the list of a key with an error.
fn begin(
    alloc: Global,
    key: ByteString,
    error: GraphQLError,
    under: &mut Pairs<Listed<GraphQLError>>,
) -> Result<(), Memory>
    requires { lookup (bytes_eq key) under.old ≡ None }
    ensures { OnOk result (under.new ≡ under.old ++ (key, error ∷ []) ∷ []) }
{
    let mut list = Listed::new(alloc);
    list.push(error)?;
    under.insert_new(key, list)
}
