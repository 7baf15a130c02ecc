//! References to types.

ghost use Rattle.std.specs.Prelude.{◌≡◌, ◌-◌, ◌<◌, IfOk};
ghost use Rattle.std.specs.Option.{option_copied};
ghost use Rattle.gql_client_schema.specs.Reading.{Answers, gives};
ghost use Rattle.gql_client_schema.specs.References as spec;
ghost use Rattle.gql_client_schema.specs.bridge.References as spec_bridge;

use crate::kind::{Head, head_of};
use crate::path::{Unread, in_member, misfit};
use crate::reading::{Read, both};
use gql_ast_base::{Boxed, TypeRef};
use jb_text::{Memory, Refused};
use jb_tree::{Map, Value};
use std::alloc::Global;

/// How many wrappers the full query asks for.
const LEVELS: u32 = 8;

impl Read for TypeRef {
    ghost reading = { spec.read_reference };

    fn read(alloc: Global, value: &Value) -> Result<TypeRef, Unread> {
        match value.as_object() {
            Some(members) => reference_of(alloc, members),
            None => Err(misfit(alloc)),
        }
    }
}

/// The type that the levels refer to (GraphQL October 2021, section 4.2.2).
fn reference_of(alloc: Global, members: &Map) -> Result<TypeRef, Unread>
    ensures { Answers (spec.reference_of members.now) result }
{
    match linked(alloc, LEVELS, members) {
        Ok(Some(ty)) => Ok(ty),
        Ok(None) => Err(misfit(alloc)),
        Err(unread) => Err(unread),
    }
}

/// What one level refers to, of which so many more are looked at.
#[cycle(levels)]
fn linked(alloc: Global, left: u32, members: &Map) -> Result<Option<TypeRef>, Unread>
    ensures { Answers (spec.linked left members.now) result }
{
    let head = head_of(alloc, members);
    match both(head, inner(alloc, left, members)) {
        Ok(parts) => joined_head(alloc, parts),
        Err(unread) => Err(unread),
    }
}

/// What the level inside refers to.
#[cycle(levels)]
#[tactic(auto, unfolding(crate::specs::References::inner))]
fn inner(alloc: Global, left: u32, members: &Map) -> Result<Option<TypeRef>, Unread>
    ensures { Answers (spec.inner left members.now) result }
{
    if left == 0 {
        return Ok(None);
    }
    in_member(alloc, "ofType", inside(alloc, left, members.get("ofType")))
}

/// The level inside, which has to be there.
#[cycle(levels)]
fn inside(alloc: Global, left: u32, value: Option<&Value>) -> Result<Option<TypeRef>, Unread>
    requires { 0 < left }
    ensures { Answers (spec_bridge.inside (left - 1) (option_copied value.entry)) result }
{
    match value {
        Some(value) => nested(alloc, left, value),
        None => Err(misfit(alloc)),
    }
}

/// The level inside, if it is not null.
#[cycle(levels)]
fn nested(alloc: Global, left: u32, value: &Value) -> Result<Option<TypeRef>, Unread>
    requires { 0 < left }
    ensures { Answers (spec.nested (spec.linked (left - 1)) value.now) result }
{
    if value.is_null() {
        return Ok(None);
    }
    match value.as_object() {
        Some(below) => linked(alloc, left - 1, below),
        None => Err(misfit(alloc)),
    }
}

fn joined_head(alloc: Global, parts: (Head, Option<TypeRef>)) -> Result<Option<TypeRef>, Unread>
    ensures { Answers (gives (spec.joined_head parts)) result }
{
    let (head, inner) = parts;
    match with_head(alloc, head, inner) {
        Ok(made) => Ok(made),
        Err(_) => Err(Refused::Memory),
    }
}

/// The named type, or what the wrapper makes of the type inside.
fn with_head(alloc: Global, head: Head, inner: Option<TypeRef>) -> Result<Option<TypeRef>, Memory>
    ensures { IfOk result (λ made. made ≡ spec.with_head head inner) }
{
    match head {
        Head::Named(_, name) => Ok(Some(TypeRef::Named(name))),
        Head::List => list_of(alloc, inner),
        Head::NonNull => Ok(inner.and_then(non_null)),
    }
}

fn list_of(alloc: Global, inner: Option<TypeRef>) -> Result<Option<TypeRef>, Memory>
    ensures { IfOk result (λ made. made ≡ spec.list_of inner) }
{
    match inner {
        Some(ty) => Ok(Some(TypeRef::List(Boxed::new(alloc, ty)?))),
        None => Ok(None),
    }
}

fn non_null(ty: TypeRef) -> Option<TypeRef>
    ensures { result ≡ spec.non_null ty }
{
    match ty {
        TypeRef::Named(name) => Some(TypeRef::NonNullNamed(name)),
        TypeRef::List(item) => Some(TypeRef::NonNullList(item)),
        _ => None,
    }
}
