//! What is left of a text while it is read.

ghost use Rattle.std.specs.Prelude.{◌≡◌, ◌≤◌, ℕ, length, take, drop, slice_get, IfOk};
ghost use Rattle.std.specs.Str.{IsUtf8};
ghost use Rattle.jb_read.specs.bridge.Bytes.{first};
ghost use Rattle.jb_read.specs.Reading.{broken};

use crate::fault::{Broken, FaultKind};
use bytes::Bytes;
use jb_tree::{ByteString, Memory};
use std::alloc::Global;
use std::marker::Model;

/// What is left of a text. Contracts see the bytes that are left.
#[derive(Drop)]
pub struct Cursor<'a> {
    text: &'a Bytes,
    rest: &'a [u8],
}

impl<'a> Model for Cursor<'a> {
    ghost use Rattle.std.specs.Prelude.{List, ℕ};
    ghost use Rattle.jb_read.specs.bridge.Bytes.{IsEnd};

    ghost Value = { List ℕ };

    ghost view = { λ c. c.rest.now };

    ghost invariant = { λ c. IsEnd c.rest.now c.text.now };
}

impl<'a> Cursor<'a> {
    /// A cursor at the first byte of `text`.
    pub fn new(text: &'a Bytes) -> Cursor<'a>
        ensures { result ≡ text.now }
    {
        Cursor {
            text,
            rest: text.as_slice(),
        }
    }

    /// How many bytes are left.
    pub fn left(&self) -> usize
        ensures { result ≡ length self.now }
    {
        self.rest.len()
    }

    /// The bytes that have not been passed.
    pub fn rest(&self) -> &'a [u8]
        ensures { result.now ≡ self.now }
    {
        self.rest
    }

    /// The next byte, which stays; `None` at the end.
    pub fn peek(&self) -> Option<u8>
        ensures { result ≡ first self.now }
    {
        self.rest.first().copied()
    }

    /// The byte behind the next `count`.
    pub fn peek_behind(&self, count: usize) -> Option<u8>
        ensures { result ≡ slice_get self.now count }
    {
        self.rest.get(count).copied()
    }

    /// Passes `count` bytes.
    pub fn skip(&mut self, count: usize)
        requires { count ≤ length self.old }
        ensures { self.new ≡ drop count self.old }
    {
        self.rest = &self.rest[count..];
    }

    /// The next `count` bytes, which are UTF-8, as a slice of the text. `Err` only when out of memory.
    #[inline(always)]
    pub fn cut(&self, alloc: Global, count: usize) -> Result<ByteString, Memory>
        requires within { count ≤ length self.now }
        requires text { IsUtf8 (take count self.now) }
        ensures { IfOk result (λ text. text ≡ take count self.now) }
    {
        let start = self.text.len() - self.rest.len();
        ByteString::shared(alloc, self.text, start..start + count)
    }

    /// A fault that stands here.
    pub fn fault(&self, kind: FaultKind) -> Broken
        ensures { result ≡ broken kind self.now }
    {
        Broken {
            kind,
            left: self.rest.len(),
        }
    }
}
