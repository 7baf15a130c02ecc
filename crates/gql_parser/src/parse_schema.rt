//! Texts as schemas, and as parts of schemas.

ghost use Rattle.std.specs.Prelude.{◌≡◌, ◌⊎◌, ◌+◌, ◌<◌, ◌^◌, true, false, OnOk, OnErr};
ghost use Rattle.gql_grammar.specs.declared.rule.Rule.TheVariants as rule;
ghost use Rattle.gql_schema.specs.Builders.{taken as taken_by};
ghost use Rattle.gql_parser.specs.Parsers.{given, given_next};
ghost use Rattle.gql_parser.specs.Readings.{IsLeft};
ghost use Rattle.gql_parser.specs.SchemasRead.{IsSchemaAnswer, Takes};

use crate::file::next_file;
use crate::file_read::FileRead;
use crate::parser::Parser;
use gql_diag::WithErrors;
use gql_schema::{Schema, SchemaBuilder};
use gql_source::{FileId, FileIds};
use jb_text::{Memory, Refused};
use std::alloc::Global;

impl Parser {
    /// The schema of a text and of the built-in definitions (GraphQL October 2021, section 3). Its files are the built-in
    /// one and the text's, which takes the next of the numbers.
    ///
    /// The numbers stand one further afterwards, in any case. There must be one left.
    ///
    /// # Errors
    ///
    /// Where the text is no document within the limits, one diagnostic at the first fault of the syntax or the first limit
    /// that is passed, beside a schema with the built-in definitions alone. Else, exactly where there are faults of the
    /// build, these in the order of lists, beside the schema without what they list. An operation or a fragment is a fault.
    /// Otherwise only when out of memory.
    pub fn parse_schema(
        &mut self,
        alloc: Global,
        source_text: &str,
        path: &str,
        ids: &mut FileIds,
    ) -> Result<Schema, Refused<WithErrors<Schema>>>
        requires { ids.old < 2 ^ 63 }
        ensures ids { ids.new ≡ ids.old + 1 }
        ensures left { IsLeft self.old self.new rule.Document source_text.now }
        ensures answer { IsSchemaAnswer self.new (given_next ids.old path.now source_text.now) result }
    {
        let file_id = next_file(ids);
        let mut builder = SchemaBuilder::new(alloc)?;
        self.read_into_schema(alloc, source_text, path, file_id, &mut builder)?;
        builder.build()
    }

    /// Adds the definitions of a text to a builder, and the file, which takes the next of the numbers. Where the text is no
    /// document within the limits, the builder takes one diagnostic in place of the definitions, at the first fault of the
    /// syntax or the first limit that is passed. An operation or a fragment is a fault.
    ///
    /// The numbers stand one further afterwards, in any case. There must be one left.
    ///
    /// `Err` only when out of memory, and always where the builder was refused for it before. The builder then is as it
    /// was, or refuses each further call.
    pub fn parse_into_schema_builder(
        &mut self,
        alloc: Global,
        source_text: &str,
        path: &str,
        ids: &mut FileIds,
        builder: &mut SchemaBuilder,
    ) -> Result<(), Memory>
        requires { ids.old < 2 ^ 63 }
        ensures ids { ids.new ≡ ids.old + 1 }
        ensures left { IsLeft self.old self.new rule.Document source_text.now }
        ensures taken { OnOk result (Takes self.new (given_next ids.old path.now source_text.now) (taken_by builder.old) (taken_by builder.new)) }
        ensures open { OnOk result ((taken_by builder.old).refused ≡ false) }
        ensures refused { OnErr result ((builder.new ≡ builder.old) ⊎ ((taken_by builder.new).refused ≡ true)) }
    {
        let file_id = next_file(ids);
        self.read_into_schema(alloc, source_text, path, file_id, builder)
    }

    /// Adds the definitions of the file's text to a builder, or why there are none.
    fn read_into_schema(
        &mut self,
        alloc: Global,
        source_text: &str,
        path: &str,
        file_id: FileId,
        builder: &mut SchemaBuilder,
    ) -> Result<(), Memory>
        ensures left { IsLeft self.old self.new rule.Document source_text.now }
        ensures taken { OnOk result (Takes self.new (given file_id path.now source_text.now) (taken_by builder.old) (taken_by builder.new)) }
        ensures open { OnOk result ((taken_by builder.old).refused ≡ false) }
        ensures refused { OnErr result ((builder.new ≡ builder.old) ⊎ ((taken_by builder.new).refused ≡ true)) }
    {
        let FileRead { document, errors } = self.read_file(alloc, source_text, path, file_id)?;
        builder.take_ast(document, errors, true)
    }
}
