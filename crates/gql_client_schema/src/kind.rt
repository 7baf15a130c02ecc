//! Kinds of types, with their names.

ghost use Rattle.std.specs.Prelude.{◌≡◌};
ghost use Rattle.gql_client_schema.specs.Reading.{Answers};
ghost use Rattle.gql_client_schema.specs.References as spec;

use crate::path::{Unread, misfit};
use crate::reading::{Read, required};
use gql_ast_base::Name;
use gql_sdl::TypeKind;
use jb_text::{ByteString, Refused};
use jb_tree::{Map, Value};
use std::alloc::Global;

/// A kind of `__TypeKind` (GraphQL October 2021, section 4.2.2).
#[derive(Clone, Copy, Debug, PartialEq, Eq)]
pub(crate) enum Kind {
    Named(TypeKind),
    List,
    NonNull,
}

/// A kind, and the name of what has one.
#[derive(Drop)]
pub(crate) enum Head {
    Named(TypeKind, Name),
    List,
    NonNull,
}

impl Read for Kind {
    ghost reading = { spec.read_kind };

    fn read(alloc: Global, value: &Value) -> Result<Kind, Unread> {
        match value.as_str() {
            Some(text) => kind_of(alloc, text),
            None => Err(misfit(alloc)),
        }
    }
}

fn kind_of(alloc: Global, text: &str) -> Result<Kind, Unread>
    ensures { Answers (spec.kind_of text.now) result }
{
    match kind_named(text) {
        Some(kind) => Ok(kind),
        None => Err(misfit(alloc)),
    }
}

fn kind_named(text: &str) -> Option<Kind>
    ensures { result ≡ spec.kind_named text.now }
{
    match text {
        "SCALAR" => Some(Kind::Named(TypeKind::Scalar)),
        "OBJECT" => Some(Kind::Named(TypeKind::Object)),
        "INTERFACE" => Some(Kind::Named(TypeKind::Interface)),
        "UNION" => Some(Kind::Named(TypeKind::Union)),
        "ENUM" => Some(Kind::Named(TypeKind::Enum)),
        "INPUT_OBJECT" => Some(Kind::Named(TypeKind::InputObject)),
        "LIST" => Some(Kind::List),
        "NON_NULL" => Some(Kind::NonNull),
        _ => None,
    }
}

/// The kind and the name of a type.
pub(crate) fn head_of(alloc: Global, members: &Map) -> Result<Head, Unread>
    ensures { Answers (spec.head_of members.now) result }
{
    match required(alloc, "kind", members) {
        Ok(kind) => head_by(alloc, kind, members),
        Err(unread) => Err(unread),
    }
}

fn head_by(alloc: Global, kind: Kind, members: &Map) -> Result<Head, Unread>
    ensures { Answers (spec.head_by kind members.now) result }
{
    match kind {
        Kind::Named(kind) => named(alloc, kind, members),
        Kind::List => wrapper(alloc, Head::List, members),
        Kind::NonNull => wrapper(alloc, Head::NonNull, members),
    }
}

fn named(alloc: Global, kind: TypeKind, members: &Map) -> Result<Head, Unread>
    ensures { Answers (spec.named_head kind members.now) result }
{
    match required(alloc, "name", members) {
        Ok(name) => Ok(Head::Named(kind, name)),
        Err(unread) => Err(unread),
    }
}

/// The name of a wrapper is looked at for its kind alone.
fn wrapper(alloc: Global, head: Head, members: &Map) -> Result<Head, Unread>
    ensures { Answers (spec.wrapper_head head members.now) result }
{
    let name: Result<Option<ByteString>, Unread> = required(alloc, "name", members);
    match name {
        Ok(_) => Ok(head),
        Err(unread) => Err(unread),
    }
}
