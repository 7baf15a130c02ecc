//! Lists of pairs that stand as objects.
ghost use Rattle.std.specs.Prelude.{◌≡◌, OnOk};
ghost use Rattle.std.specs.Str.{bytes_eq};
ghost use Rattle.indexmap.specs.IndexMap.{insert_entry};
ghost use Rattle.jb_shape.specs.Outcome.{Answers};
ghost use Rattle.jb_shape.specs.Lists.{member_value, members_value, read_member, read_members_of};
ghost use Rattle.jb_shape.specs.Members.{reading_of_members};

use crate::shape_error::ShapeError;
use crate::shapes::{FromValue, MapKey, ToValue};
use jb_tree::{ByteString, Listed, Map, Memory, Refused, Value};
use std::alloc::{AllocError, Global};

/// The members of an object as pairs of one's own types. Of pairs with one key the object has the place of the
/// first and the value of the last.
#[derive(Drop)]
pub struct Members<K, V> {
    pub pairs: Listed<(K, V)>,
}

impl<K: MapKey, V: ToValue> ToValue for Members<K, V> {
    ghost shape = { λ members. members_value K.key_text V.shape members.pairs };

    fn to_value(&self, alloc: Global) -> Result<Value, Refused<ShapeError>> {
        let mut members = Map::new(alloc);
        for pair in self.pairs.as_slice() {
            let (key, value) = member_value(alloc, &pair.0, &pair.1)?;
            put(&mut members, key, value)?;
        }
        Ok(Value::Object(members))
    }
}

impl<K: MapKey, V: FromValue> FromValue for Members<K, V> {
    ghost reading = { reading_of_members K.key_reading V.reading };

    fn from_value(alloc: Global, value: &Value) -> Result<Members<K, V>, Refused<ShapeError>> {
        let pairs = read_pairs(alloc, value)?;
        Ok(Members { pairs })
    }
}

fn member_value<K: MapKey, V: ToValue>(
    alloc: Global,
    key: &K,
    value: &V,
) -> Result<(ByteString, Value), Refused<ShapeError>>
    ensures { Answers (member_value K.key_text V.shape (key.now, value.now)) result }
{
    Ok((key.to_key(alloc)?, value.to_value(alloc)?))
}

fn put(members: &mut Map, key: ByteString, value: Value) -> Result<(), Memory>
    ensures { OnOk result (members.new ≡ insert_entry bytes_eq members.old key value) }
{
    match members.insert(key, value) {
        Ok(_) => Ok(()),
        Err(_) => Err(AllocError),
    }
}

fn read_pairs<K: MapKey, V: FromValue>(
    alloc: Global,
    value: &Value,
) -> Result<Listed<(K, V)>, Refused<ShapeError>>
    ensures { Answers (read_members_of K.key_reading V.reading value.now) result }
{
    let Some(members) = value.as_object() else {
        return Err(Refused::Fault(ShapeError::WrongKind));
    };
    let mut pairs = Listed::new(alloc);
    for index in 0..members.len() {
        pairs.push(read_member(alloc, members.key_at(index), members.value_at(index))?)?;
    }
    Ok(pairs)
}

fn read_member<K: MapKey, V: FromValue>(
    alloc: Global,
    key: &ByteString,
    value: &Value,
) -> Result<(K, V), Refused<ShapeError>>
    ensures { Answers (read_member K.key_reading V.reading (key.now, value.now)) result }
{
    Ok((
        K::from_key(alloc, key.as_str())?,
        V::from_value(alloc, value)?,
    ))
}
