//! The messages of completing.

ghost use Rattle.std.specs.Prelude.{◌≡◌, IfOk};
ghost use Rattle.gql_resolvers.specs.Messages as spec;

use gql_ast::print_type;
use gql_ast_base::TypeRef;
use jb_print::to_text;
use jb_text::{Memory, Text};
use jb_tree::Value;
use std::alloc::Global;

/// The message of a resolver's failure with this text. `Err` only when out of memory.
pub fn resolver_error(alloc: Global, text: &str) -> Result<Text, Memory>
    ensures { IfOk result (λ message. message ≡ spec.resolver_error text.now) }
{
    Ok(Text::from_string(format!(in alloc; "resolver error: {text}")?))
}

pub(crate) fn null_at_non_null(alloc: Global, ty: &TypeRef) -> Result<Text, Memory>
    ensures { IfOk result (λ message. message ≡ spec.null_at_non_null ty.now) }
{
    let ty = print_type(alloc, ty)?;
    let ty = ty.as_str();
    Ok(Text::from_string(format!(in alloc; "non-null type {ty} resolved to null")?))
}

pub(crate) fn list_at_other(alloc: Global, ty: &TypeRef) -> Result<Text, Memory>
    ensures { IfOk result (λ message. message ≡ spec.list_at_other ty.now) }
{
    let ty = print_type(alloc, ty)?;
    let ty = ty.as_str();
    Ok(Text::from_string(format!(in alloc; "Non-list type {ty} resolved to a list")?))
}

pub(crate) fn other_at_list(alloc: Global, ty: &TypeRef) -> Result<Text, Memory>
    ensures { IfOk result (λ message. message ≡ spec.other_at_list ty.now) }
{
    let ty = print_type(alloc, ty)?;
    let ty = ty.as_str();
    Ok(Text::from_string(format!(in alloc; "list type {ty} resolved to an object")?))
}

pub(crate) fn undefined_type(alloc: Global, name: &str) -> Result<Text, Memory>
    ensures { IfOk result (λ message. message ≡ spec.undefined_type name.now) }
{
    Ok(Text::from_string(format!(in alloc; "undefined type {name}")?))
}

pub(crate) fn input_object_type(alloc: Global, name: &str) -> Result<Text, Memory>
    ensures { IfOk result (λ message. message ≡ spec.input_object_type name.now) }
{
    Ok(Text::from_string(format!(in alloc; "field with input object type {name}")?))
}

pub(crate) fn leaf_at_composite(alloc: Global, name: &str) -> Result<Text, Memory>
    ensures { IfOk result (λ message. message ≡ spec.leaf_at_composite name.now) }
{
    Ok(Text::from_string(format!(in alloc;
        "resolver returned a leaf value but expected an object for type {name}"
    )?))
}

pub(crate) fn other_enum(alloc: Global, value: &Value, name: &str) -> Result<Text, Memory>
    ensures { IfOk result (λ message. message ≡ spec.other_enum value.now name.now) }
{
    let value = to_text(alloc, value)?;
    let value = value.as_str();
    Ok(Text::from_string(format!(in alloc; "resolver returned {value}, expected enum {name}")?))
}

pub(crate) fn other_leaf(alloc: Global, value: &Value, name: &str) -> Result<Text, Memory>
    ensures { IfOk result (λ message. message ≡ spec.other_leaf value.now name.now) }
{
    let value = to_text(alloc, value)?;
    let value = value.as_str();
    Ok(Text::from_string(format!(in alloc; "resolver returned {value}, expected {name}")?))
}

pub(crate) fn overflowing_leaf(alloc: Global, value: &Value) -> Result<Text, Memory>
    ensures { IfOk result (λ message. message ≡ spec.overflowing_leaf value.now) }
{
    let value = to_text(alloc, value)?;
    let value = value.as_str();
    Ok(Text::from_string(format!(in alloc; "resolver returned {value} which overflows Int")?))
}

pub(crate) fn object_at_leaf(alloc: Global, found: &str, name: &str) -> Result<Text, Memory>
    ensures { IfOk result (λ message. message ≡ spec.object_at_leaf found.now name.now) }
{
    Ok(Text::from_string(format!(in alloc;
        "resolver returned a an object of type {found}, expected {name}"
    )?))
}

pub(crate) fn object_not_defined(alloc: Global, found: &str) -> Result<Text, Memory>
    ensures { IfOk result (λ message. message ≡ spec.object_not_defined found.now) }
{
    Ok(Text::from_string(format!(in alloc;
        "resolver returned an object of type {found} not defined in the schema"
    )?))
}

pub(crate) fn no_member(alloc: Global, found: &str, name: &str) -> Result<Text, Memory>
    ensures { IfOk result (λ message. message ≡ spec.no_member found.now name.now) }
{
    Ok(Text::from_string(format!(in alloc;
        "resolver returned an object of type {found}, expected a member of union type {name}"
    )?))
}

pub(crate) fn no_implementer(alloc: Global, found: &str, name: &str) -> Result<Text, Memory>
    ensures { IfOk result (λ message. message ≡ spec.no_implementer found.now name.now) }
{
    Ok(Text::from_string(format!(in alloc;
        "resolver returned an object of type {found} which does not implement interface {name}"
    )?))
}

pub(crate) fn other_object(alloc: Global, found: &str, name: &str) -> Result<Text, Memory>
    ensures { IfOk result (λ message. message ≡ spec.other_object found.now name.now) }
{
    Ok(Text::from_string(format!(in alloc;
        "resolver returned an object of type {found}, expected {name}"
    )?))
}
