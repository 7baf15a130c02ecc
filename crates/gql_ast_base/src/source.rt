//! What concrete trees are read by.

ghost use Rattle.std.specs.Prelude.{◌≡◌, ◌≤◌, IfOk, length, slice_range, unwrap_or};
ghost use Rattle.std.specs.Option.{option_map};
ghost use Rattle.gql_ast_base.specs.bridge.Parts as parts;

use crate::name::Name;
use crate::token::piece;
use gql_source::{FileId, SourceSpan};
use jb_text::{ByteString, Memory};
use std::alloc::Global;
use std::ops::Range;

/// The text that concrete trees are of, the number of its file, and where memory comes from.
///
/// Where the text is also given as a buffer that can be shared, names are cut from it and not copied.
#[derive(Clone, Copy)]
pub struct Source<'t> {
    pub alloc: Global,
    pub text: &'t str,
    pub shared: Option<&'t ByteString>,
    pub file_id: FileId,
    ghost same: { unwrap_or (option_map (λ (s : _). s.now) shared) text.now ≡ text.now },
}

impl<'t> Source<'t> {
    /// A text whose names are copied.
    #[must_use]
    pub fn new(alloc: Global, text: &'t str, file_id: FileId) -> Source<'t>
        ensures text { result.text.now ≡ text.now }
        ensures file_id { result.file_id ≡ file_id }
    {
        Source {
            alloc,
            text,
            shared: None,
            file_id,
        }
    }

    /// A text whose names are cut from its buffer.
    #[must_use]
    pub fn sharing(alloc: Global, text: &'t ByteString, file_id: FileId) -> Source<'t>
        ensures text { result.text.now ≡ text.now }
        ensures file_id { result.file_id ≡ file_id }
    {
        Source {
            alloc,
            text: text.as_str(),
            shared: Some(text),
            file_id,
        }
    }

    /// The name that stands in this range of the text, which is also its place. `None` where the range does not lie between
    /// characters of the text, or what stands there is no name; `Err` only where memory runs out.
    #[tactic(auto, unfolding(crate::specs::bridge::Parts::name_in))]
    pub fn name_in(&self, range: Range<usize>) -> Result<Option<Name>, Memory>
        ensures { IfOk result (λ made. made ≡ parts.name_in self.now.text.now self.now.file_id range.start range.end) }
    {
        let (start, end) = (range.start, range.end);
        let Some(found) = piece(self.text, start, end) else {
            return Ok(None);
        };
        if !Name::is_valid_syntax(found) {
            return Ok(None);
        }
        let text = self.cut(range, found)?;
        let place = SourceSpan::new(self.file_id, start, end);
        Ok(Some(Name::at(text, Some(place))))
    }

    /// A piece of the text, which lies in this range. `Err` only where memory runs out.
    pub(crate) fn cut(&self, range: Range<usize>, found: &str) -> Result<ByteString, Memory>
        requires in_order { range.start ≤ range.end }
        requires within { range.end ≤ length self.now.text.now }
        requires found { found.now ≡ slice_range self.now.text.now range.start range.end }
        ensures { IfOk result (λ piece. piece ≡ found.now) }
    {
        let Some(shared) = self.shared else {
            return ByteString::from_text(self.alloc, found);
        };
        ByteString::shared(self.alloc, shared.inner(), range)
    }
}
