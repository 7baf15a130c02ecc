//! Which values a scalar type and an enum type take (GraphQL October 2021, sections 3.5 and 3.9).

ghost use Rattle.std.specs.Prelude.{◌≡◌};
ghost use Rattle.gql_coerce.specs.Scalars.{number_is, is_int, is_float, is_signed, scalar_takes, enum_takes};

use crate::input_types::is_enum_value;
use gql_ast::EnumValueDefinition;
use gql_schema_types::Table;
use jb_tree::Value;

/// The least number above those that `Float` takes.
const FLOAT_END: i64 = (1 << 53) - 1;

/// Whether the scalar type of this name takes the value, as an input and as a result alike (GraphQL October 2021, section 3.5).
/// `Int` takes a whole number of 32 bits with a sign, `Float` one of a magnitude below 2^53 - 1, `String` a text, `Boolean` a truth
/// value, `ID` a text or a whole number of 64 bits with a sign, and any other type any value. It takes no memory.
#[must_use]
#[inline(always)]
pub fn scalar_takes(name: &str, value: &Value) -> bool
    ensures { result ≡ scalar_takes name.now value.now }
{
    if name == "Int" {
        return is_int(value);
    }
    if name == "Float" {
        return is_float(value);
    }
    if name == "String" {
        return value.as_str().is_some();
    }
    if name == "Boolean" {
        return value.as_bool().is_some();
    }
    if name == "ID" {
        return value.as_str().is_some() || is_id(value);
    }
    true
}

fn is_int(value: &Value) -> bool
    ensures { result ≡ number_is is_int value.now }
{
    match value {
        Value::Number(number) => match number.as_i64() {
            Some(whole) => whole >= i64::from(i32::MIN) && whole <= i64::from(i32::MAX),
            None => false,
        },
        _ => false,
    }
}

fn is_float(value: &Value) -> bool
    ensures { result ≡ number_is is_float value.now }
{
    match value {
        Value::Number(number) => match number.as_i64() {
            Some(whole) => whole > -FLOAT_END && whole < FLOAT_END,
            None => false,
        },
        _ => false,
    }
}

fn is_id(value: &Value) -> bool
    ensures { result ≡ number_is is_signed value.now }
{
    match value {
        Value::Number(number) => number.as_i64().is_some(),
        _ => false,
    }
}

/// Whether an enum type with these values takes the value, as an input and as a result alike: whether it is the text of one of
/// them (section 3.9). It takes no memory.
#[must_use]
pub fn enum_takes(values: &Table<EnumValueDefinition>, value: &Value) -> bool
    ensures { result ≡ enum_takes values.now value.now }
{
    match value {
        Value::String(name) => is_enum_value(values, name.as_str()),
        _ => false,
    }
}
