//! What a program's words ask for, and what it replies.

ghost use Rattle.std.specs.Prelude.{◌≡◌, IfOk};
ghost use Rattle.jb_io.specs.Reply.{line as line_of};
ghost use Rattle.jb_io.specs.bridge.Reply.{text_of};

use bytes::{Bytes, BytesMut};
use jb_tree::Memory;
use std::alloc::Global;

/// What a command makes of its input: the text that is written, without its line feed.
#[derive(Drop)]
pub enum Reply {
    /// The text that was asked for.
    Answer(Bytes),
    /// Why there is none.
    Refusal(Bytes),
}

impl Reply {
    /// The text with one LF, as it is written. The LF goes into the text's own buffer, where nothing else shares that.
    pub(crate) fn into_line(self, alloc: Global) -> Result<BytesMut, Memory>
        ensures { IfOk result (λ line. line.items ≡ line_of (text_of self)) }
    {
        let (Reply::Answer(text) | Reply::Refusal(text)) = self;
        let mut line = match text.try_into_mut() {
            Ok(own) => own,
            Err(shared) => BytesMut::copy_from_slice(alloc, shared.as_slice())?,
        };
        line.extend_from_slice(b"\n")?;
        Ok(line)
    }
}

/// What the words of a program ask for.
pub trait Command {
    ghost use Rattle.std.specs.Prelude.{List, ℕ, IfOk};
    ghost use Rattle.jb_io.specs.Reply.{IsReply};

    // Between the bytes of an input and the text that was asked for.
    ghost answers: { Self → List ℕ → List ℕ → Type 0 };

    // Between the bytes of an input and the text that says why there is none.
    ghost refuses: { Self → List ℕ → List ℕ → Type 0 };

    /// The reply to the bytes of an input.
    ///
    /// # Errors
    ///
    /// Only when out of memory.
    fn reply(&self, alloc: Global, bytes: &Bytes) -> Result<Reply, Memory>
        ensures { IfOk result (IsReply (answers self.now) (refuses self.now) bytes.now) };
}
