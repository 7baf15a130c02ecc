//! Whether a leaf fits a type.

ghost use Rattle.std.specs.Prelude.{◌≡◌, IfOk};
ghost use Rattle.std.specs.Option.{option_copied};
ghost use Rattle.gql_resolvers.specs.Fit as spec;
ghost use Rattle.gql_resolvers.specs.bridge.Seen.{misfit_seen};

use crate::messages::{
    input_object_type, leaf_at_composite, null_at_non_null, other_at_list, undefined_type,
};
use crate::misfit::{Misfit, bug, wrong};
use crate::scalar::{enum_misfit, scalar_misfit};
use gql_ast_base::TypeRef;
use gql_schema_types::ExtendedType;
use jb_text::Memory;
use jb_tree::Value;
use std::alloc::Global;

/// What is wrong with a leaf at a type, `None` exactly where it fits (GraphQL October 2021, section 6.4.3): null at a type that
/// rules it out, another leaf at a list's, an object's, an interface's or a union's type, or one that the scalar or enum type does
/// not take. `named` is the type of the schema that the type names, if there is one. `Err` only when out of memory.
#[inline(always)]
pub fn leaf_misfit(
    alloc: Global,
    named: Option<&ExtendedType>,
    ty: &TypeRef,
    value: &Value,
) -> Result<Option<Misfit>, Memory>
    ensures { IfOk result (λ found. misfit_seen found ≡ spec.leaf_misfit_at (option_copied named.entry) ty.now value.now) }
{
    if value.is_null() {
        return null_misfit(alloc, ty);
    }
    if ty.item_type().is_some() {
        return wrong(other_at_list(alloc, ty));
    }
    let name = ty.inner_named_type().as_str();
    leaf_at(alloc, named, name, value)
}

/// What is wrong with null at a type.
fn null_misfit(alloc: Global, ty: &TypeRef) -> Result<Option<Misfit>, Memory>
    ensures { IfOk result (λ found. misfit_seen found ≡ spec.null_misfit ty.now) }
{
    if ty.is_non_null() {
        return wrong(null_at_non_null(alloc, ty));
    }
    Ok(None)
}

/// What is wrong with a leaf that is not null at the type of this name, if there is one.
#[inline(always)]
fn leaf_at(
    alloc: Global,
    ty: Option<&ExtendedType>,
    name: &str,
    value: &Value,
) -> Result<Option<Misfit>, Memory>
    ensures { IfOk result (λ found. misfit_seen found ≡ spec.leaf_at (option_copied ty.entry) name.now value.now) }
{
    match ty {
        None => bug(undefined_type(alloc, name)),
        Some(ExtendedType::Scalar(_)) => scalar_misfit(alloc, name, value),
        Some(ExtendedType::Enum(it)) => enum_misfit(alloc, name, &it.values, value),
        Some(ExtendedType::InputObject(_)) => bug(input_object_type(alloc, name)),
        Some(_) => wrong(leaf_at_composite(alloc, name)),
    }
}
