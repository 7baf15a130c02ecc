//! What builders take of files.

ghost use Rattle.std.specs.Prelude.{◌≡◌, IfOk};
ghost use Rattle.gql_grammar.specs.declared.rule.Rule.TheVariants as rule;
ghost use Rattle.gql_parser.specs.Parsers.{given};
ghost use Rattle.gql_parser.specs.Readings.{IsLeft};
ghost use Rattle.gql_parser.specs.bridge.Diagnosed.{IsOrdered};
ghost use Rattle.gql_parser.specs.FileRead.{IsFileRead, no_document as document_without, no_faults as no_faults_of};
ghost use Rattle.gql_parser.specs.bridge.FileRead.{IsFileOf};

use crate::parser::{DocumentRead, Parser};
use crate::stopped::list_of;
use gql_ast::Document;
use gql_ast_laws::laws;
use gql_diag::DiagnosticList;
use gql_source::{FileId, SourceMap};
use jb_text::{Listed, Memory};
use std::alloc::Global;

/// A document, and what is told beside it.
#[derive(Drop)]
pub(crate) struct FileRead {
    pub(crate) document: Document,
    pub(crate) errors: DiagnosticList,
}

impl Parser {
    /// Reads a file for a builder: its document, or else no definition and what stopped the reading.
    pub(crate) fn read_file(
        &mut self,
        alloc: Global,
        source_text: &str,
        path: &str,
        file_id: FileId,
    ) -> Result<FileRead, Memory>
        ensures left { IsLeft self.old self.new rule.Document source_text.now }
        ensures read { IfOk result (λ read. IsFileRead self.new (given file_id path.now source_text.now) read.document read.errors) }
    {
        laws::parses_mean_their_text();
        let read = self.read_document(alloc, file_id, path, source_text)?;
        file_of(alloc, file_id, path, source_text, read)
    }
}

/// The document, if its text was read to the end, and else what stopped the reading.
fn file_of(
    alloc: Global,
    file_id: FileId,
    path: &str,
    text: &str,
    read: DocumentRead,
) -> Result<FileRead, Memory>
    requires { IsOrdered read.error }
    ensures { IfOk result (λ file. IsFileOf (given file_id path.now text.now) read.document read.error file.document file.errors) }
{
    let DocumentRead { document, error } = read;
    match error {
        None => Ok(FileRead {
            document,
            errors: no_faults(alloc),
        }),
        Some(error) => Ok(FileRead {
            document: no_document(alloc),
            errors: list_of(alloc, file_id, path, text, &error)?,
        }),
    }
}

/// A list that tells nothing.
pub(crate) fn no_faults(alloc: Global) -> DiagnosticList
    ensures { result ≡ no_faults_of }
{
    DiagnosticList::new(alloc, SourceMap::new(alloc))
}

/// A document without definitions.
fn no_document(alloc: Global) -> Document
    ensures { result ≡ document_without }
{
    Document {
        sources: SourceMap::new(alloc),
        definitions: Listed::new(alloc),
    }
}
