//! Texts as selections on a type.

ghost use Rattle.std.specs.Prelude.{◌≡◌, ◌++◌, ◌+◌, ◌<◌, ◌^◌, IfOk, OnOk};
ghost use Rattle.gql_grammar.specs.declared.rule.Rule.TheVariants as rule;
ghost use Rattle.gql_parser.specs.Parsers.{given, given_next};
ghost use Rattle.gql_parser.specs.Readings.{IsLeft};
ghost use Rattle.gql_parser.specs.bridge.Diagnosed.{IsOrdered};
ghost use Rattle.gql_parser.specs.FieldSetsRead.{AreSelectionsRead, IsFieldSetAnswer, nothing_told as told_nothing};
ghost use Rattle.gql_parser.specs.bridge.FieldSetsRead.{AreSelectionsOfParse, selections_in};

use crate::file::{next_file, only_file};
use crate::parser::Parser;
use crate::stopped::list_of;
use gql_ast::{Name, Selection, Source};
use gql_ast_base::{gather, inside};
use gql_ast_laws::laws;
use gql_cst::{Parsed, SyntaxKind, Tree};
use gql_diag::{DiagnosticList, WithErrors};
use gql_document::build_field_set;
use gql_document_types::FieldSet;
use gql_schema::Schema;
use gql_schema_types::Valid;
use gql_source::{FileId, FileIds};
use jb_text::{ByteString, Listed, Memory, Refused};
use std::alloc::Global;

/// Selections, and what is told beside them.
#[derive(Drop)]
struct SelectionsRead {
    selections: Listed<Selection>,
    errors: DiagnosticList,
}

impl Parser {
    /// The set that a text selects on the type of this name (GraphQL October 2021, section 2.4), with braces around the
    /// selections or without. It has the one file, under the next of the numbers. The rules of documents are not checked, and
    /// spreads are not looked up.
    ///
    /// The numbers stand one further afterwards, in any case. There must be one left.
    ///
    /// # Errors
    ///
    /// Where the text is no set of selections within the limits, one diagnostic at the first fault of the syntax or the first
    /// limit that is passed, beside a set without selections. Else, exactly where there are faults of the build, these in the
    /// order of lists, beside the set without what they list. Otherwise only when out of memory.
    pub fn parse_field_set(
        &mut self,
        alloc: Global,
        schema: &Valid<Schema>,
        type_name: &Name,
        source_text: &str,
        path: &str,
        ids: &mut FileIds,
    ) -> Result<FieldSet, Refused<WithErrors<FieldSet>>>
        requires { ids.old < 2 ^ 63 }
        ensures ids { ids.new ≡ ids.old + 1 }
        ensures left { IsLeft self.old self.new rule.FieldSet source_text.now }
        ensures answer { IsFieldSetAnswer self.new (given_next ids.old path.now source_text.now) schema.now type_name.now result }
    {
        let file_id = next_file(ids);
        let SelectionsRead { selections, errors } = self.read_selections(
            alloc,
            source_text,
            path,
            file_id,
        )?;
        build_field_set(alloc, schema.as_ref(), type_name, &selections, errors)
    }

    /// Reads a file as selections: these, or else none and what stopped the reading.
    fn read_selections(
        &mut self,
        alloc: Global,
        source_text: &str,
        path: &str,
        file_id: FileId,
    ) -> Result<SelectionsRead, Memory>
        ensures left { IsLeft self.old self.new rule.FieldSet source_text.now }
        ensures read { IfOk result (λ read. AreSelectionsRead self.new (given file_id path.now source_text.now) read.selections read.errors) }
    {
        laws::parses_mean_their_text();
        let parsed = self.read_selection_set(alloc, source_text)?;
        selections_of_parse(alloc, file_id, path, source_text, parsed)
    }
}

/// The selections of what was read, if it was read to its end, and else what stopped the reading.
fn selections_of_parse(
    alloc: Global,
    file_id: FileId,
    path: &str,
    text: &str,
    parsed: Parsed,
) -> Result<SelectionsRead, Memory>
    requires { IsOrdered parsed.error }
    ensures { IfOk result (λ read. AreSelectionsOfParse (given file_id path.now text.now) parsed read.selections read.errors) }
{
    let Parsed { tree, error, .. } = parsed;
    match error {
        None => Ok(SelectionsRead {
            selections: selections(alloc, file_id, text, &tree)?,
            errors: nothing_told(alloc, file_id, path, text)?,
        }),
        Some(error) => Ok(SelectionsRead {
            selections: Listed::new(alloc),
            errors: list_of(alloc, file_id, path, text, &error)?,
        }),
    }
}

/// The list that has the file and tells nothing.
fn nothing_told(
    alloc: Global,
    file_id: FileId,
    path: &str,
    text: &str,
) -> Result<DiagnosticList, Memory>
    ensures { IfOk result (λ list. list ≡ told_nothing (given file_id path.now text.now)) }
{
    Ok(DiagnosticList::new(alloc, only_file(alloc, file_id, path, text)?))
}

/// The selections in a tree of the file's text, whether braces stand around them or not.
fn selections(
    alloc: Global,
    file_id: FileId,
    text: &str,
    tree: &Tree,
) -> Result<Listed<Selection>, Memory>
    ensures { IfOk result (λ made. made ≡ selections_in text.now file_id tree.now) }
{
    let text = ByteString::from_text(alloc, text)?;
    let source = Source::sharing(alloc, &text, file_id);
    let nodes = tree.children().as_slice();
    let mut list = gather(&source, inside(nodes, SyntaxKind::SelectionSet))?;
    push_all(&mut list, gather(&source, nodes)?)?;
    Ok(list)
}

/// Adds selections at the end of a list.
fn push_all(list: &mut Listed<Selection>, selections: Listed<Selection>) -> Result<(), Memory>
    ensures { OnOk result (list.new ≡ list.old ++ selections) }
{
    for selection in selections {
        list.push(selection)?;
    }
    Ok(())
}
