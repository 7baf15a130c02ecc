//! Texts and truth values as keys of members.
ghost use Rattle.std.specs.Prelude.{Ok};
ghost use Rattle.jb_shape.specs.Keys.{no_key_text, no_key};

use crate::shape_error::ShapeError;
use crate::shapes::MapKey;
use jb_tree::{ByteString, Refused, Text};
use std::alloc::Global;

impl MapKey for Text {
    ghost key_text = { Ok };

    ghost key_reading = { Ok };

    fn to_key(&self, alloc: Global) -> Result<ByteString, Refused<ShapeError>> {
        Ok(ByteString::from_text(alloc, self.as_str())?)
    }

    fn from_key(alloc: Global, key: &str) -> Result<Text, Refused<ShapeError>> {
        Ok(Text::from_str(alloc, key)?)
    }
}

impl MapKey for bool {
    ghost key_text = { no_key_text };

    ghost key_reading = { no_key };

    fn to_key(&self, _alloc: Global) -> Result<ByteString, Refused<ShapeError>> {
        Err(Refused::Fault(ShapeError::KeyNotText))
    }

    fn from_key(_alloc: Global, _key: &str) -> Result<bool, Refused<ShapeError>> {
        Err(Refused::Fault(ShapeError::KeyNotText))
    }
}
