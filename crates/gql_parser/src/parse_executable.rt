//! Texts as executable documents, and as parts of them.

ghost use Rattle.std.specs.Prelude.{◌≡◌, ◌⊎◌, ◌+◌, ◌<◌, ◌^◌, true, false, OnOk, OnErr};
ghost use Rattle.gql_grammar.specs.declared.rule.Rule.TheVariants as rule;
ghost use Rattle.gql_document.specs.Builders.{taken as taken_by};
ghost use Rattle.gql_parser.specs.Parsers.{given, given_next};
ghost use Rattle.gql_parser.specs.Readings.{IsLeft};
ghost use Rattle.gql_parser.specs.ExecutablesRead.{IsExecutableAnswer, Takes};

use crate::file::next_file;
use crate::file_read::FileRead;
use crate::parser::Parser;
use gql_diag::WithErrors;
use gql_document::ExecutableDocumentBuilder;
use gql_document_types::ExecutableDocument;
use gql_schema::Schema;
use gql_schema_types::Valid;
use gql_source::{FileId, FileIds};
use jb_text::{Memory, Refused};
use std::alloc::Global;

impl Parser {
    /// The operations and fragments of a text against a schema (GraphQL October 2021, section 2.2). The document has the one
    /// file, under the next of the numbers. The rules of documents are not checked.
    ///
    /// The numbers stand one further afterwards, in any case. There must be one left.
    ///
    /// # Errors
    ///
    /// Where the text is no document within the limits, one diagnostic at the first fault of the syntax or the first limit
    /// that is passed, beside a document without operations and fragments. Else, exactly where there are faults of the build,
    /// these in the order of lists, beside the document without what they list, but with each subscription whatever it
    /// selects at its root. A definition of a type system is a fault. Otherwise only when out of memory.
    pub fn parse_executable(
        &mut self,
        alloc: Global,
        schema: &Valid<Schema>,
        source_text: &str,
        path: &str,
        ids: &mut FileIds,
    ) -> Result<ExecutableDocument, Refused<WithErrors<ExecutableDocument>>>
        requires { ids.old < 2 ^ 63 }
        ensures ids { ids.new ≡ ids.old + 1 }
        ensures left { IsLeft self.old self.new rule.Document source_text.now }
        ensures answer { IsExecutableAnswer self.new (given_next ids.old path.now source_text.now) schema.now result }
    {
        let file_id = next_file(ids);
        let mut builder = ExecutableDocumentBuilder::new(alloc, schema.as_ref());
        self.read_into_executable(alloc, source_text, path, file_id, &mut builder)?;
        builder.build()
    }

    /// Adds the operations and fragments of a text to a builder, and the file, which takes the next of the numbers. Where the
    /// text is no document within the limits, the builder takes one diagnostic in place of the definitions, at the first
    /// fault of the syntax or the first limit that is passed. A definition of a type system is a fault.
    ///
    /// The numbers stand one further afterwards, in any case. There must be one left.
    ///
    /// `Err` only when out of memory, and always where the builder was refused for it before. The builder then is as it
    /// was, or refuses each further call.
    pub fn parse_into_executable_builder(
        &mut self,
        alloc: Global,
        source_text: &str,
        path: &str,
        ids: &mut FileIds,
        builder: &mut ExecutableDocumentBuilder<'_>,
    ) -> Result<(), Memory>
        requires { ids.old < 2 ^ 63 }
        ensures ids { ids.new ≡ ids.old + 1 }
        ensures left { IsLeft self.old self.new rule.Document source_text.now }
        ensures taken { OnOk result (Takes self.new (given_next ids.old path.now source_text.now) (taken_by builder.old) (taken_by builder.new)) }
        ensures open { OnOk result ((taken_by builder.old).refused ≡ false) }
        ensures refused { OnErr result ((builder.new ≡ builder.old) ⊎ ((taken_by builder.new).refused ≡ true)) }
    {
        let file_id = next_file(ids);
        self.read_into_executable(alloc, source_text, path, file_id, builder)
    }

    /// Adds the operations and fragments of the file's text to a builder, or why there are none.
    fn read_into_executable(
        &mut self,
        alloc: Global,
        source_text: &str,
        path: &str,
        file_id: FileId,
        builder: &mut ExecutableDocumentBuilder<'_>,
    ) -> Result<(), Memory>
        ensures left { IsLeft self.old self.new rule.Document source_text.now }
        ensures taken { OnOk result (Takes self.new (given file_id path.now source_text.now) (taken_by builder.old) (taken_by builder.new)) }
        ensures open { OnOk result ((taken_by builder.old).refused ≡ false) }
        ensures refused { OnErr result ((builder.new ≡ builder.old) ⊎ ((taken_by builder.new).refused ≡ true)) }
    {
        let FileRead { document, errors } = self.read_file(alloc, source_text, path, file_id)?;
        builder.take_ast(document, errors, true)
    }
}
