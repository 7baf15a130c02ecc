//! Whether an object or a list fits a type.

ghost use Rattle.std.specs.Prelude.{◌≡◌, IfOk};
ghost use Rattle.std.specs.Option.{option_copied};
ghost use Rattle.gql_schema_types.specs.Schemas.{type_named};
ghost use Rattle.gql_resolvers.specs.Fit as spec;
ghost use Rattle.gql_resolvers.specs.bridge.Seen.{misfit_seen, IsFitOfObject, IsFitAt, IsFitOf};

use crate::messages::{
    input_object_type, list_at_other, no_implementer, no_member, object_at_leaf,
    object_not_defined, other_at_list, other_object, undefined_type,
};
use crate::misfit::{Misfit, refuse, suspect, wrong};
use gql_ast_base::{Name, TypeRef};
use gql_schema_types::{ExtendedType, ObjectType, Schema, is_among};
use jb_text::{Listed, Memory, Refused};
use std::alloc::Global;

/// What is wrong with a list at a type, its items aside: `None` exactly where the type is a list's (GraphQL October 2021,
/// section 6.4.3). `Err` only when out of memory.
#[inline(always)]
pub fn list_misfit(alloc: Global, ty: &TypeRef) -> Result<Option<Misfit>, Memory>
    ensures { IfOk result (λ found. misfit_seen found ≡ spec.list_misfit ty.now) }
{
    match ty.item_type() {
        Some(_) => Ok(None),
        None => wrong(list_at_other(alloc, ty)),
    }
}

/// The object type of an object by the name of its type, where the object fits the type that is wanted, whose name is that of
/// this type of the schema if it is one's (section 6.4.3):
/// that object type itself, an interface that it lists, or a union that has it. `Fault` with what is wrong exactly where it
/// does not fit, `Memory` only when out of memory.
#[inline(always)]
pub fn fitting_object<'s>(
    alloc: Global,
    schema: &'s Schema,
    named: Option<&'s ExtendedType>,
    ty: &TypeRef,
    found: &str,
) -> Result<&'s ObjectType, Refused<Misfit>>
    requires { option_copied named ≡ type_named schema.now ty.now }
    ensures { IsFitOfObject schema.now ty.now found.now result }
{
    if ty.item_type().is_some() {
        return refuse(other_at_list(alloc, ty));
    }
    let name = ty.inner_named_type().as_str();
    match named {
        None => suspect(undefined_type(alloc, name)),
        Some(wanted) => object_at(alloc, schema, wanted, name, found),
    }
}

/// The same at a type that is no list's, where this is the type of its name.
#[inline(always)]
fn object_at<'s>(
    alloc: Global,
    schema: &'s Schema,
    wanted: &'s ExtendedType,
    name: &str,
    found: &str,
) -> Result<&'s ObjectType, Refused<Misfit>>
    ensures { IsFitAt schema.now wanted.now name.now found.now result }
{
    match wanted {
        ExtendedType::Object(it) if found == name => Ok(it),
        ExtendedType::Object(_) => refuse(other_object(alloc, found, name)),
        ExtendedType::Interface(_) => implementing(alloc, schema.get_object(found), name, found),
        ExtendedType::Union(it) => {
            member(alloc, schema.get_object(found), &it.members, name, found)
        }
        ExtendedType::InputObject(_) => suspect(input_object_type(alloc, name)),
        _ => refuse(object_at_leaf(alloc, found, name)),
    }
}

/// The object type that is found, where it lists the interface of this name.
fn implementing<'s>(
    alloc: Global,
    object: Option<&'s ObjectType>,
    name: &str,
    found: &str,
) -> Result<&'s ObjectType, Refused<Misfit>>
    ensures { IsFitOf (option_copied object.entry) (spec.implementing_misfit (option_copied object.entry) name.now found.now) result }
{
    match object {
        None => refuse(object_not_defined(alloc, found)),
        Some(it) if is_among(name, it.implements_interfaces.as_slice()) => Ok(it),
        Some(_) => refuse(no_implementer(alloc, found, name)),
    }
}

/// The object type that is found, where the union of this name has it.
fn member<'s>(
    alloc: Global,
    object: Option<&'s ObjectType>,
    members: &Listed<Name>,
    name: &str,
    found: &str,
) -> Result<&'s ObjectType, Refused<Misfit>>
    ensures { IsFitOf (option_copied object.entry) (spec.member_misfit (option_copied object.entry) members.now name.now found.now) result }
{
    match object {
        None => refuse(object_not_defined(alloc, found)),
        Some(it) if is_among(found, members.as_slice()) => Ok(it),
        Some(_) => refuse(no_member(alloc, found, name)),
    }
}
