//! Variants and members read by their names.
ghost use Rattle.std.specs.Prelude.{◌≡◌, position};
ghost use Rattle.std.specs.Map.{keys_of, lookup};
ghost use Rattle.std.specs.List.{list_any};
ghost use Rattle.std.specs.Str.{bytes_eq};
ghost use Rattle.jb_shape.specs.Variants.{all_known, one_member, variant_of, variant_among, members_among, present, pointed, variant_pointed};

use crate::shape_error::ShapeError;
use jb_tree::{Listed, Map, Text, Value};

/// The variant that `value` is: the place of its name among `names`, and its content where it has one. A text is
/// a name alone, an object with one member a name with its content.
///
/// # Errors
///
/// - `WrongKind` where `value` is neither a text nor an object.
/// - `WrongLength` where it is an object without exactly one member.
/// - `UnknownVariant` where the name is not among `names`.
pub fn read_variant<'v>(
    value: &'v Value,
    names: &Listed<Text>,
) -> Result<(usize, Option<&'v Value>), ShapeError>
    ensures { variant_pointed (λ place. place) result ≡ variant_among names.now value.now }
{
    let (name, content) = variant_of(value)?;
    match place_of(name, names) {
        Some(place) => Ok((place, content)),
        None => Err(ShapeError::UnknownVariant),
    }
}

fn variant_of(value: &Value) -> Result<(&str, Option<&Value>), ShapeError>
    ensures { variant_pointed (λ name. name.now) result ≡ variant_of value.now }
{
    match value {
        Value::String(name) => Ok((name.as_str(), None)),
        Value::Object(members) => one_member(members),
        _ => Err(ShapeError::WrongKind),
    }
}

fn one_member(members: &Map) -> Result<(&str, Option<&Value>), ShapeError>
    ensures { variant_pointed (λ name. name.now) result ≡ one_member members.now }
{
    if members.len() != 1 {
        return Err(ShapeError::WrongLength);
    }
    Ok((members.key_at(0).as_str(), Some(members.value_at(0))))
}

fn place_of(name: &str, names: &Listed<Text>) -> Option<usize>
    ensures { result ≡ position (bytes_eq name.now) names.now }
{
    names
        .as_slice()
        .iter()
        .position(|known| name == known.as_str())
}

/// The members of `value`, all of whose names are among `known`.
///
/// # Errors
///
/// - `WrongKind` where `value` is no object.
/// - `UnknownField` where the name of some member is not among `known`.
pub fn read_members<'v>(value: &'v Value, known: &Listed<Text>) -> Result<&'v Map, ShapeError>
    ensures { pointed result ≡ members_among known.now value.now }
{
    let Some(members) = value.as_object() else {
        return Err(ShapeError::WrongKind);
    };
    if all_known(members, known) {
        Ok(members)
    } else {
        Err(ShapeError::UnknownField)
    }
}

fn all_known(members: &Map, known: &Listed<Text>) -> bool
    ensures { result ≡ all_known known.now (keys_of members.now) }
{
    for index in 0..members.len() {
        if !is_known(members.key_at(index).as_str(), known) {
            return false;
        }
    }
    true
}

fn is_known(name: &str, known: &Listed<Text>) -> bool
    ensures { result ≡ list_any (bytes_eq name.now) known.now }
{
    known.as_slice().iter().any(|other| name == other.as_str())
}

/// The value at `name`.
///
/// # Errors
///
/// `MissingField` where there is none.
pub fn member<'v>(map: &'v Map, name: &str) -> Result<&'v Value, ShapeError>
    ensures { pointed result ≡ present (lookup (bytes_eq name.now) map.now) }
{
    match map.get(name) {
        Some(value) => Ok(value),
        None => Err(ShapeError::MissingField),
    }
}
