//! Makes nothing.

use crate::begun::Begun;
use crate::output::Output;
use crate::{Memory, SyntaxKind};
use gql_grammar::Word;
use std::ops::Range;

/// An output that makes nothing: the text is judged, and its tokens are counted.
#[derive(Drop)]
pub(crate) struct Nothing {}

impl Output for Nothing {
    ghost stands = { λ _ _ _ _. Unit {0} };

    fn begin(&mut self, _kind: SyntaxKind, _place: usize) -> Result<usize, Memory> {
        Ok(0)
    }

    fn ignored(&mut self, _range: Range<usize>) -> Result<(), Memory> {
        Ok(())
    }

    fn token(&mut self, _word: Word, _range: Range<usize>) -> Result<(), Memory> {
        Ok(())
    }

    fn wrap(&mut self, _kind: SyntaxKind, _begun: Begun) -> Result<(), Memory> {
        Ok(())
    }

    fn end(&mut self, _kind: SyntaxKind, _begun: Begun) -> Result<(), Memory> {
        Ok(())
    }
}
