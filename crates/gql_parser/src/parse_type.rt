//! Texts as references to types.

ghost use Rattle.std.specs.Prelude.{◌≡◌, ◌+◌, ◌<◌, ◌^◌, Some};
ghost use Rattle.gql_grammar.specs.declared.rule.Rule.TheVariants as rule;
ghost use Rattle.gql_parser.specs.Parsers.{given, given_next};
ghost use Rattle.gql_parser.specs.Readings.{IsLeft};
ghost use Rattle.gql_parser.specs.bridge.Diagnosed.{IsOrdered};
ghost use Rattle.gql_parser.specs.TypesRead.{IsTypeAnswer};
ghost use Rattle.gql_parser.specs.bridge.TypesRead.{IsComplete, IsTypeOfParse};

use crate::file::next_file;
use crate::parser::Parser;
use crate::stopped::list_of;
use gql_ast::{Convert, TypeRef};
use gql_ast_laws::laws;
use gql_cst::Parsed;
use gql_diag::DiagnosticList;
use gql_source::{FileId, FileIds};
use jb_text::Refused;
use std::alloc::Global;

impl Parser {
    /// The type that a text refers to, as `[Int!]` (GraphQL October 2021, section 2.11).
    ///
    /// The file takes the next of the numbers, so that these stand one further afterwards, in any case. There must be one
    /// left.
    ///
    /// # Errors
    ///
    /// One diagnostic, at the first fault of the syntax or the first limit that is passed, exactly where the text is no
    /// reference to a type within the limits. Otherwise only when out of memory.
    pub fn parse_type(
        &mut self,
        alloc: Global,
        source_text: &str,
        path: &str,
        ids: &mut FileIds,
    ) -> Result<TypeRef, Refused<DiagnosticList>>
        requires { ids.old < 2 ^ 63 }
        ensures ids { ids.new ≡ ids.old + 1 }
        ensures left { IsLeft self.old self.new rule.TypeReference source_text.now }
        ensures answer { IsTypeAnswer self.new (given_next ids.old path.now source_text.now) result }
    {
        laws::parses_mean_their_text();
        laws::sentences_are_complete();
        let file_id = next_file(ids);
        let parsed = self.read_type(alloc, source_text)?;
        type_of_parse(alloc, file_id, path, source_text, &parsed)
    }
}

/// The type of what was read, if it was read to its end, and else what stopped the reading.
fn type_of_parse(
    alloc: Global,
    file_id: FileId,
    path: &str,
    text: &str,
    parsed: &Parsed,
) -> Result<TypeRef, Refused<DiagnosticList>>
    requires ordered { IsOrdered parsed.now.error }
    requires complete { IsComplete (given file_id path.now text.now) parsed.now }
    ensures { IsTypeOfParse (given file_id path.now text.now) parsed.now result }
{
    if let Some(error) = &parsed.error {
        return Err(Refused::Fault(list_of(alloc, file_id, path, text, error)?));
    }
    match TypeRef::convert(alloc, &parsed.tree, text, file_id)? {
        Some(ty) => Ok(ty),
        None => unreachable!(),
    }
}
