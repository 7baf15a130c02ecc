//! One-of input objects: a value of one has exactly one member, and that one is not null (GraphQL September 2025, section 3.10.1).

ghost use Rattle.std.specs.Prelude.{◌≡◌, IfOk};
ghost use Rattle.std.specs.List.{list_all};
ghost use Rattle.std.specs.Option.{option_copied, option_map};
ghost use Rattle.std.specs.Str.{bytes_eq};
ghost use Rattle.gql_ast_base.specs.declared.value.ValueKind.{out-ValueKind};
ghost use Rattle.gql_coerce.specs.OneOf as spec;

use crate::messages::{null_member, one_member};
use gql_ast_base::{Name, Value as Literal, ValueKind};
use jb_text::{ByteString, Memory, Text};
use jb_tree::{Map, Value};
use std::alloc::Global;

/// Why an object with these members is no value of the one-of input object type of this name.
pub(crate) fn one_of_misfit(alloc: Global, ty: &str, members: &Map) -> Result<Option<Text>, Memory>
    ensures { IfOk result (λ found. found ≡ spec.one_of_misfit ty.now members.now) }
{
    match only(members) {
        None => Ok(Some(one_member(alloc, ty)?)),
        Some((key, value)) if value.is_null() => Ok(Some(null_member(alloc, ty, key.as_str())?)),
        Some(_) => Ok(None),
    }
}

/// The only one of these members.
fn only(members: &Map) -> Option<(&ByteString, &Value)>
    ensures { option_map (λ (member : _). (member.0.now, member.1.now)) result ≡ spec.only members.now }
{
    if members.len() != 1 {
        return None;
    }
    Some((members.key_at(0), members.value_at(0)))
}

/// Why an object literal with these members is no value of the one-of input object type of this name, where variables have
/// these values.
pub(crate) fn one_of_literal_misfit(
    alloc: Global,
    ty: &str,
    members: &[(Name, Literal)],
    env: &Map,
) -> Result<Option<Text>, Memory>
    ensures { IfOk result (λ found. found ≡ spec.one_of_literal_misfit env.now ty.now members.now) }
{
    match only_named(members) {
        None => Ok(Some(one_member(alloc, ty)?)),
        Some(member) if gives_null(&member.1, env) => {
            Ok(Some(null_member(alloc, ty, member.0.as_str())?))
        }
        Some(_) => Ok(None),
    }
}

/// The only one of these members: a repeated name counts once, with its last value.
fn only_named(members: &[(Name, Literal)]) -> Option<&(Name, Literal)>
    ensures { option_copied result ≡ spec.only_named members.now }
{
    match members.last() {
        Some(last) => if_only(members, last),
        None => None,
    }
}

/// This member, where all have its name.
fn if_only<'m>(members: &[(Name, Literal)], one: &'m (Name, Literal)) -> Option<&'m (Name, Literal)>
    ensures { option_copied result ≡ spec.if_only members.now one.now }
{
    if are_called(members, one.0.as_str()) {
        return Some(one);
    }
    None
}

/// Whether all of these members have the name.
fn are_called(members: &[(Name, Literal)], name: &str) -> bool
    ensures { result ≡ list_all (λ (member : spec.Member). bytes_eq name.now member.0.text) members.now }
{
    members.iter().all(|member| name == member.0.as_str())
}

/// Whether the literal is null, a variable that is null, or one that has no value.
fn gives_null(literal: &Literal, env: &Map) -> bool
    ensures { result ≡ spec.gives_null env.now (out-ValueKind literal.now.kind) }
{
    match &literal.kind {
        ValueKind::Null => true,
        ValueKind::Variable(name) => match env.get(name.as_str()) {
            Some(value) => value.is_null(),
            None => true,
        },
        ValueKind::Int(_) => false,
        ValueKind::Float(_) => false,
        ValueKind::String(_) => false,
        ValueKind::Boolean(_) => false,
        ValueKind::Enum(_) => false,
        ValueKind::List(_) => false,
        ValueKind::Object(_) => false,
    }
}
