//! What is wrong with leaves at scalar types and enum types.

ghost use Rattle.std.specs.Prelude.{◌≡◌, IfOk};
ghost use Rattle.gql_coerce.specs.Scalars as spec;
ghost use Rattle.gql_resolvers.specs.Fit.{scalar_misfit, enum_misfit};
ghost use Rattle.gql_resolvers.specs.bridge.Seen.{misfit_seen};

use crate::messages::{other_enum, other_leaf, overflowing_leaf};
use crate::misfit::{Misfit, wrong};
use gql_ast::EnumValueDefinition;
use gql_coerce::{enum_takes, scalar_takes};
use gql_schema_types::Table;
use jb_text::Memory;
use jb_tree::Value;
use std::alloc::Global;

/// What is wrong with a leaf at the scalar type of this name (GraphQL October 2021, section 3.5): a number at `Int` that 64 bits
/// with a sign hold overflows it.
#[inline(always)]
pub(crate) fn scalar_misfit(
    alloc: Global,
    name: &str,
    value: &Value,
) -> Result<Option<Misfit>, Memory>
    ensures { IfOk result (λ found. misfit_seen found ≡ scalar_misfit name.now value.now) }
{
    if scalar_takes(name, value) {
        return Ok(None);
    }
    if name == "Int" && is_signed(value) {
        return wrong(overflowing_leaf(alloc, value));
    }
    wrong(other_leaf(alloc, value, name))
}

/// Whether the leaf is a number that 64 bits with a sign hold.
fn is_signed(value: &Value) -> bool
    ensures { result ≡ spec.number_is spec.is_signed value.now }
{
    match value {
        Value::Number(number) => number.as_i64().is_some(),
        _ => false,
    }
}

/// What is wrong with a leaf at the enum type of this name with these values (section 3.9).
pub(crate) fn enum_misfit(
    alloc: Global,
    name: &str,
    values: &Table<EnumValueDefinition>,
    value: &Value,
) -> Result<Option<Misfit>, Memory>
    ensures { IfOk result (λ found. misfit_seen found ≡ enum_misfit name.now values.now value.now) }
{
    if enum_takes(values, value) {
        return Ok(None);
    }
    wrong(other_enum(alloc, value, name))
}
