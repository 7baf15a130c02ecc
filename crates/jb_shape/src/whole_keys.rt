//! Integers as keys of members.
ghost use Rattle.std.specs.Prelude.{◌^◌, ◌-◌};
ghost use Rattle.jb_shape.specs.Keys.{unsigned_text, unsigned_key, signed_text, signed_key};

use crate::numeral::{signed_key, unsigned_key};
use crate::shape_error::ShapeError;
use crate::shapes::MapKey;
use itoa::Buffer;
use jb_tree::{ByteString, Refused};
use std::alloc::Global;

impl MapKey for u8 {
    ghost key_text = { unsigned_text };

    ghost key_reading = { unsigned_key (2 ^ 8 - 1) };

    fn to_key(&self, alloc: Global) -> Result<ByteString, Refused<ShapeError>> {
        Ok(ByteString::from_text(alloc, Buffer::new().format(*self))?)
    }

    fn from_key(_alloc: Global, key: &str) -> Result<u8, Refused<ShapeError>> {
        Ok(unsigned_key(key, u8::MAX as u64)? as u8)
    }
}

impl MapKey for u16 {
    ghost key_text = { unsigned_text };

    ghost key_reading = { unsigned_key (2 ^ 16 - 1) };

    fn to_key(&self, alloc: Global) -> Result<ByteString, Refused<ShapeError>> {
        Ok(ByteString::from_text(alloc, Buffer::new().format(*self))?)
    }

    fn from_key(_alloc: Global, key: &str) -> Result<u16, Refused<ShapeError>> {
        Ok(unsigned_key(key, u16::MAX as u64)? as u16)
    }
}

impl MapKey for u32 {
    ghost key_text = { unsigned_text };

    ghost key_reading = { unsigned_key (2 ^ 32 - 1) };

    fn to_key(&self, alloc: Global) -> Result<ByteString, Refused<ShapeError>> {
        Ok(ByteString::from_text(alloc, Buffer::new().format(*self))?)
    }

    fn from_key(_alloc: Global, key: &str) -> Result<u32, Refused<ShapeError>> {
        Ok(unsigned_key(key, u32::MAX as u64)? as u32)
    }
}

impl MapKey for u64 {
    ghost key_text = { unsigned_text };

    ghost key_reading = { unsigned_key (2 ^ 64 - 1) };

    fn to_key(&self, alloc: Global) -> Result<ByteString, Refused<ShapeError>> {
        Ok(ByteString::from_text(alloc, Buffer::new().format(*self))?)
    }

    fn from_key(_alloc: Global, key: &str) -> Result<u64, Refused<ShapeError>> {
        Ok(unsigned_key(key, u64::MAX)?)
    }
}

impl MapKey for usize {
    ghost key_text = { unsigned_text };

    ghost key_reading = { unsigned_key (2 ^ 64 - 1) };

    fn to_key(&self, alloc: Global) -> Result<ByteString, Refused<ShapeError>> {
        Ok(ByteString::from_text(alloc, Buffer::new().format(*self))?)
    }

    fn from_key(_alloc: Global, key: &str) -> Result<usize, Refused<ShapeError>> {
        Ok(unsigned_key(key, usize::MAX as u64)? as usize)
    }
}

impl MapKey for i8 {
    ghost key_text = { signed_text };

    ghost key_reading = { signed_key (2 ^ 7 - 1) };

    fn to_key(&self, alloc: Global) -> Result<ByteString, Refused<ShapeError>> {
        Ok(ByteString::from_text(alloc, Buffer::new().format(*self))?)
    }

    fn from_key(_alloc: Global, key: &str) -> Result<i8, Refused<ShapeError>> {
        Ok(signed_key(key, i8::MAX as u64)? as i8)
    }
}

impl MapKey for i16 {
    ghost key_text = { signed_text };

    ghost key_reading = { signed_key (2 ^ 15 - 1) };

    fn to_key(&self, alloc: Global) -> Result<ByteString, Refused<ShapeError>> {
        Ok(ByteString::from_text(alloc, Buffer::new().format(*self))?)
    }

    fn from_key(_alloc: Global, key: &str) -> Result<i16, Refused<ShapeError>> {
        Ok(signed_key(key, i16::MAX as u64)? as i16)
    }
}

impl MapKey for i32 {
    ghost key_text = { signed_text };

    ghost key_reading = { signed_key (2 ^ 31 - 1) };

    fn to_key(&self, alloc: Global) -> Result<ByteString, Refused<ShapeError>> {
        Ok(ByteString::from_text(alloc, Buffer::new().format(*self))?)
    }

    fn from_key(_alloc: Global, key: &str) -> Result<i32, Refused<ShapeError>> {
        Ok(signed_key(key, i32::MAX as u64)? as i32)
    }
}

impl MapKey for i64 {
    ghost key_text = { signed_text };

    ghost key_reading = { signed_key (2 ^ 63 - 1) };

    fn to_key(&self, alloc: Global) -> Result<ByteString, Refused<ShapeError>> {
        Ok(ByteString::from_text(alloc, Buffer::new().format(*self))?)
    }

    fn from_key(_alloc: Global, key: &str) -> Result<i64, Refused<ShapeError>> {
        Ok(signed_key(key, i64::MAX as u64)?)
    }
}

impl MapKey for isize {
    ghost key_text = { signed_text };

    ghost key_reading = { signed_key (2 ^ 63 - 1) };

    fn to_key(&self, alloc: Global) -> Result<ByteString, Refused<ShapeError>> {
        Ok(ByteString::from_text(alloc, Buffer::new().format(*self))?)
    }

    fn from_key(_alloc: Global, key: &str) -> Result<isize, Refused<ShapeError>> {
        Ok(signed_key(key, isize::MAX as u64)? as isize)
    }
}
