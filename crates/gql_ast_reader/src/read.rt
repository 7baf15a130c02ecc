//! Reads the definitions of a text.

ghost use Rattle.std.specs.Prelude.{◌≡◌, IfOk};
ghost use Rattle.gql_ast_reader.specs.bridge.IsRead.{IsRead};

use crate::maker::Maker;
use crate::told::Told;
use gql_ast::Definition;
use gql_ast_base::{Memory, Source};
use gql_cst::{CstError, Limits, Made, read_document};
use jb_text::Listed;
use std::marker::Brand;

/// What the definitions of a text were read to.
#[derive(Drop)]
pub struct Read {
    /// The definitions before the error, or of the whole text. The last of them may have ended early.
    pub definitions: Listed<Definition>,
    /// What ended the reading before the text's end, or there.
    pub error: Option<CstError>,
    /// The greatest level that was reached, one that passes the limit included.
    pub recursion_reached: usize,
    /// How many tokens were read, one that was refused included.
    pub tokens_reached: usize,
}

/// The definitions of a document (Document, GraphQL October 2021, section 2.2), read with no concrete tree in between: those of
/// the tree that [`parse_document`](gql_cst::parse_document) gives of the text, as [`Document::from_cst`](gql_ast::Document::from_cst)
/// has them. What it tells besides is what `parse_document` tells.
///
/// Where there is no error, the definitions are those of the whole text. Else they are those of the tokens before the error, as if
/// all nodes that were open had ended there, and those that lack a required part are left out.
///
/// `Err` only where memory runs out.
pub fn read_definitions(source: Source<'_>, limits: &Limits) -> Result<Read, Memory>
    ensures { IfOk result (IsRead source.entry.text.now source.entry.file_id limits.now) }
{
    read_told::<Brand>(source, limits)
}

/// The same, of the text that is told.
fn read_told<K: Told>(source: Source<'_>, limits: &Limits) -> Result<Read, Memory>
    requires text { source.text.now ≡ K.text }
    requires file { source.file_id ≡ K.file }
    ensures { IfOk result (IsRead K.text K.file limits.now) }
{
    let maker = Maker::<K>::new(source)?;
    let Made {
        out,
        error,
        recursion_reached,
        tokens_reached,
    } = read_document(source.alloc, source.text, limits, maker)?;
    Ok(Read {
        definitions: out.into_definitions(),
        error,
        recursion_reached,
        tokens_reached,
    })
}
