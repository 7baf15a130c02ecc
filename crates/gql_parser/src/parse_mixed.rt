//! Texts as schemas and executable documents in one.

ghost use Rattle.std.specs.Prelude.{◌≡◌, ◌+◌, ◌<◌, ◌^◌};
ghost use Rattle.gql_grammar.specs.declared.rule.Rule.TheVariants as rule;
ghost use Rattle.gql_parser.specs.Parsers.{given_next};
ghost use Rattle.gql_parser.specs.Readings.{IsLeft};
ghost use Rattle.gql_parser.specs.MixedRead.{IsMixedAnswer};

use crate::file::next_file;
use crate::mixed_both::both;
use crate::parser::Parser;
use gql_diag::DiagnosticList;
use gql_document_types::ExecutableDocument;
use gql_schema_types::{Schema, Valid};
use gql_source::FileIds;
use jb_text::Refused;
use std::alloc::Global;

impl Parser {
    /// The schema and the executable document that one text means together: its definitions of a type system with the built-in
    /// ones, and its operations and fragments against these (GraphQL October 2021, sections 2, 3 and 5). The schema's files are the
    /// built-in one and the text's, which takes the next of the numbers; the document has the text's alone. Built-in scalars
    /// are as [`validate_schema`](gql_schema_rules::validate_schema) leaves them.
    ///
    /// The numbers stand one further afterwards, in any case. There must be one left.
    ///
    /// # Errors
    ///
    /// The diagnostics of the first phase that finds something, exactly where one does, in the order of lists and with the
    /// schema's files: the first fault of the syntax or the first limit that is passed; or the faults of both builds; or those of
    /// the rules on schemas; or those of the rules on documents. Otherwise only when out of memory.
    pub fn parse_mixed_validate(
        &mut self,
        alloc: Global,
        source_text: &str,
        path: &str,
        ids: &mut FileIds,
    ) -> Result<(Valid<Schema>, Valid<ExecutableDocument>), Refused<DiagnosticList>>
        requires { ids.old < 2 ^ 63 }
        ensures ids { ids.new ≡ ids.old + 1 }
        ensures left { IsLeft self.old self.new rule.Document source_text.now }
        ensures answer { IsMixedAnswer self.new (given_next ids.old path.now source_text.now) result }
    {
        let file_id = next_file(ids);
        let file = self.read_file(alloc, source_text, path, file_id)?;
        both(alloc, file)
    }
}
