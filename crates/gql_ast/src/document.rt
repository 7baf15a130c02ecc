//! Documents.

ghost use Rattle.std.specs.Prelude.{◌≡◌, IfOk, IsSome};
ghost use Rattle.std.specs.Map.{lookup};
ghost use Rattle.gql_source.specs.File.{is_file};
ghost use Rattle.gql_cst.specs.Forest.{plain};
ghost use Rattle.gql_ast.specs.Documents as spec;

use crate::definition::Definition;
use gql_ast_base::{Source, gather};
use gql_cst::Tree;
use gql_source::{FileId, SourceMap};
use jb_text::{Listed, Memory};
use std::alloc::Global;

/// A document: its definitions, and the files that their locations speak of.
pub struct Document {
    pub sources: SourceMap,
    pub definitions: Listed<Definition>,
}

impl Drop for Document {
    fn drop(self) {
        let Document {
            sources: _,
            definitions: _,
        } = self;
    }
}

impl Document {
    /// The document of a concrete tree, which is one of the text of the file `file_id` of `sources`.
    ///
    /// Definitions that lack a required part are left out. `Err` only where memory runs out.
    pub fn from_cst(
        alloc: Global,
        tree: &Tree,
        file_id: FileId,
        sources: SourceMap,
    ) -> Result<Document, Memory>
        requires { IsSome (lookup (is_file file_id) sources) }
        ensures sources { IfOk result (λ document. document.sources ≡ sources) }
        ensures definitions { IfOk result (λ document. document.definitions ≡ spec.definitions (spec.text_of file_id sources) file_id (plain tree.now)) }
    {
        let definitions = definitions(alloc, tree, file_id, &sources)?;
        Ok(Document {
            sources,
            definitions,
        })
    }

    /// The files and the definitions themselves. It takes no memory.
    #[must_use]
    pub fn into_parts(self) -> (SourceMap, Listed<Definition>)
        ensures sources { result.0 ≡ self.sources }
        ensures definitions { result.1 ≡ self.definitions }
    {
        let Document {
            sources,
            definitions,
        } = self;
        (sources, definitions)
    }
}

/// The definitions of a concrete tree of the text of the file.
fn definitions(
    alloc: Global,
    tree: &Tree,
    file_id: FileId,
    sources: &SourceMap,
) -> Result<Listed<Definition>, Memory>
    requires { IsSome (lookup (is_file file_id) sources.now) }
    ensures { IfOk result (λ made. made ≡ spec.definitions (spec.text_of file_id sources.now) file_id (plain tree.now)) }
{
    let file = sources.get(file_id).unwrap();
    let list = gather(
        &Source::sharing(alloc, file.shared_text(), file_id),
        tree.children().as_slice(),
    )?;
    Ok(list)
}
