//! Texts as documents.

ghost use Rattle.std.specs.Prelude.{◌≡◌, ◌+◌, ◌<◌, ◌^◌, IfOk};
ghost use Rattle.gql_grammar.specs.declared.rule.Rule.TheVariants as rule;
ghost use Rattle.gql_parser.specs.Parsers.{given, given_next};
ghost use Rattle.gql_parser.specs.Readings.{IsLeft};
ghost use Rattle.gql_parser.specs.bridge.Diagnosed.{IsOrdered};
ghost use Rattle.gql_parser.specs.DocumentsRead.{IsDocumentAnswer};
ghost use Rattle.gql_parser.specs.bridge.DocumentsRead.{IsAnswerOf};

use crate::file::next_file;
use crate::parser::{DocumentRead, Parser};
use crate::stopped::list_of;
use gql_ast::Document;
use gql_ast_laws::laws;
use gql_diag::WithErrors;
use gql_source::{FileId, FileIds};
use jb_text::Refused;
use std::alloc::Global;

impl Parser {
    /// The document that a text is (GraphQL October 2021, section 2.2). It has the one file, under the next of the numbers.
    ///
    /// The numbers stand one further afterwards, in any case. There must be one left.
    ///
    /// # Errors
    ///
    /// One diagnostic, at the first fault of the syntax or the first limit that is passed, exactly where the text is no
    /// document within the limits. Beside it stands the document of the tree that was closed there, whose last definitions
    /// may lack parts; a definition that lacks a required one is left out. Otherwise only when out of memory.
    pub fn parse_ast(
        &mut self,
        alloc: Global,
        source_text: &str,
        path: &str,
        ids: &mut FileIds,
    ) -> Result<Document, Refused<WithErrors<Document>>>
        requires { ids.old < 2 ^ 63 }
        ensures ids { ids.new ≡ ids.old + 1 }
        ensures left { IsLeft self.old self.new rule.Document source_text.now }
        ensures answer { IsDocumentAnswer self.new (given_next ids.old path.now source_text.now) result }
    {
        laws::parses_mean_their_text();
        let file_id = next_file(ids);
        let read = self.read_document(alloc, file_id, path, source_text)?;
        answer_of(alloc, file_id, path, source_text, read)
    }
}

/// The document, if its text was read to the end, and else that document beside what stopped the reading.
fn answer_of(
    alloc: Global,
    file_id: FileId,
    path: &str,
    text: &str,
    read: DocumentRead,
) -> Result<Document, Refused<WithErrors<Document>>>
    requires { IsOrdered read.error }
    ensures { IsAnswerOf (given file_id path.now text.now) read.document read.error result }
{
    let DocumentRead { document, error } = read;
    match error {
        None => Ok(document),
        Some(error) => Err(Refused::Fault(WithErrors {
            partial: document,
            errors: list_of(alloc, file_id, path, text, &error)?,
        })),
    }
}
