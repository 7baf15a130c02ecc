//! A parser: its limits, and how far it read the last text.

ghost use Rattle.std.specs.Prelude.{◌≡◌, Some, IfOk, IsSome, OnErr};
ghost use Rattle.std.specs.Map.{lookup};
ghost use Rattle.gql_ast.specs.Documents.{text_of};
ghost use Rattle.gql_ast_reader.specs.bridge.IsRead.{IsRead};
ghost use Rattle.gql_cst.specs.Report.{report_of};
ghost use Rattle.gql_grammar.specs.declared.rule.Rule.TheVariants as rule;
ghost use Rattle.gql_source.specs.File.{is_file};
ghost use Rattle.gql_parser.specs.Parsers.{fresh, given};
ghost use Rattle.gql_parser.specs.bridge.Readings.{IsJudged};
ghost use Rattle.gql_parser.specs.bridge.Diagnosed.{IsOrdered};
ghost use Rattle.gql_parser.specs.bridge.DocumentsRead.{IsReadTo};

use crate::file::only_file;
use gql_ast::{Document, Source};
use gql_ast_reader::{Read, read_definitions};
use gql_cst::{CstError, Limits, Parsed, parse_selection_set, parse_type};
use gql_source::{FileId, SourceMap};
use jb_text::Memory;
use std::alloc::Global;
use std::marker::Model;

/// Reads GraphQL texts within its limits, and tells how far it read the last one.
///
/// A contract sees a record of its `limits` and its two counters.
#[derive(Debug, Drop)]
pub struct Parser {
    limits: Limits,
    recursion_reached: usize,
    tokens_reached: usize,
}

/// A document as far as its text was read, and what ended the reading before the text's end.
#[derive(Drop)]
pub(crate) struct DocumentRead {
    pub(crate) document: Document,
    pub(crate) error: Option<CstError>,
}

impl Model for Parser {
    ghost use Rattle.gql_parser.specs.Parsers.{ParserState};

    ghost Value = { ParserState };

    ghost view = { λ parser. record {
      limits = parser.limits;
      recursion_reached = parser.recursion_reached;
      tokens_reached = parser.tokens_reached;
    } };
}

impl Parser {
    /// How deep selection sets, values and types nest at most, unless another limit is set.
    const MOST_LEVELS: usize = 500;

    /// A parser that reads texts nested at most 500 deep, of any number of tokens.
    #[must_use]
    pub fn new() -> Parser
        ensures { result ≡ fresh }
    {
        Parser {
            limits: Limits {
                recursion: Self::MOST_LEVELS,
                tokens: None,
            },
            recursion_reached: 0,
            tokens_reached: 0,
        }
    }

    /// The same parser with this limit on nested selection sets, object values, list values and list types.
    #[must_use]
    pub fn recursion_limit(self, value: usize) -> Parser
        ensures { result ≡ record self { limits = record self.limits { recursion = value } } }
    {
        let mut parser = self;
        parser.limits.recursion = value;
        parser
    }

    /// The same parser with this limit on tokens, those that the grammar ignores included.
    #[must_use]
    pub fn token_limit(self, value: usize) -> Parser
        ensures { result ≡ record self { limits = record self.limits { tokens = Some value } } }
    {
        let mut parser = self;
        parser.limits.tokens = Some(value);
        parser
    }

    /// The greatest level of nesting in the last text, a level that passes the limit included. 0 before the first text. After a
    /// text for which memory ran out it may be that of the text before.
    #[must_use]
    pub fn recursion_reached(&self) -> usize
        ensures { result ≡ self.now.recursion_reached }
    {
        self.recursion_reached
    }

    /// How many tokens of the last text were read, one that was refused included. 0 before the first text.
    /// After a text for which memory ran out it may be that of the text before.
    #[must_use]
    pub fn tokens_reached(&self) -> usize
        ensures { result ≡ self.now.tokens_reached }
    {
        self.tokens_reached
    }

    /// Reads the file's text from its beginning to its end, or to the first error, as a document. Its definitions are made as
    /// the text is read, without a concrete tree of it.
    pub(crate) fn read_document(
        &mut self,
        alloc: Global,
        file_id: FileId,
        path: &str,
        text: &str,
    ) -> Result<DocumentRead, Memory>
        ensures limits { self.new.limits ≡ self.old.limits }
        ensures read { IfOk result (λ read. IsReadTo self.new (given file_id path.now text.now) read.document read.error) }
        ensures ordered { IfOk result (λ read. IsOrdered read.error) }
        ensures unread { OnErr result (self.new ≡ self.old) }
    {
        let sources = only_file(alloc, file_id, path, text)?;
        let read = definitions(alloc, file_id, &sources, &self.limits)?;
        self.recursion_reached = read.recursion_reached;
        self.tokens_reached = read.tokens_reached;
        let Read {
            definitions,
            error,
            ..
        } = read;
        Ok(DocumentRead {
            document: Document {
                sources,
                definitions,
            },
            error,
        })
    }

    /// Reads a text as selections, with braces around them or without: to its end, or to the first error.
    pub(crate) fn read_selection_set(&mut self, alloc: Global, text: &str) -> Result<Parsed, Memory>
        ensures limits { self.new.limits ≡ self.old.limits }
        ensures judged { IfOk result (λ parsed. IsJudged self.new rule.FieldSet text.now (report_of parsed)) }
        ensures ordered { IfOk result (λ parsed. IsOrdered parsed.error) }
        ensures unread { OnErr result (self.new ≡ self.old) }
    {
        let parsed = parse_selection_set(alloc, text, &self.limits)?;
        self.recursion_reached = parsed.recursion_reached;
        self.tokens_reached = parsed.tokens_reached;
        Ok(parsed)
    }

    /// Reads a text in the same way as a reference to a type.
    pub(crate) fn read_type(&mut self, alloc: Global, text: &str) -> Result<Parsed, Memory>
        ensures limits { self.new.limits ≡ self.old.limits }
        ensures judged { IfOk result (λ parsed. IsJudged self.new rule.TypeReference text.now (report_of parsed)) }
        ensures ordered { IfOk result (λ parsed. IsOrdered parsed.error) }
        ensures unread { OnErr result (self.new ≡ self.old) }
    {
        let parsed = parse_type(alloc, text, &self.limits)?;
        self.recursion_reached = parsed.recursion_reached;
        self.tokens_reached = parsed.tokens_reached;
        Ok(parsed)
    }
}

/// The definitions of the file's text, as far as it can be read within the limits.
fn definitions(
    alloc: Global,
    file_id: FileId,
    sources: &SourceMap,
    limits: &Limits,
) -> Result<Read, Memory>
    requires { IsSome (lookup (is_file file_id) sources.now) }
    ensures { IfOk result (IsRead (text_of file_id sources.now) file_id limits.now) }
{
    let file = sources.get(file_id).unwrap();
    read_definitions(Source::sharing(alloc, file.shared_text(), file_id), limits)
}
