//! A schema that is checked once, for any number of requests.

ghost use Rattle.std.specs.Prelude.{◌≡◌, ℕ, List, IfOk};
ghost use Rattle.std.specs.Map.{lookup};
ghost use Rattle.std.specs.Str.{bytes_eq};
ghost use Rattle.gql_engine.specs.Answering.{AnswersWithin, GivesAnswer};
ghost use Rattle.gql_engine.specs.AtHand.{IsDocumentOver, schema_text_in};
ghost use Rattle.gql_engine.specs.Service.{IsPreparationOf, IsServiceOf, asked_of};
ghost use Rattle.gql_parser.specs.SchemaText.{SchemaText};
ghost use Rattle.gql_rules_nodes.specs.PossibleTable.{ArePossibleIn};
ghost use Rattle.gql_schema_types.specs.Implementers.{implementers_of};
ghost use Rattle.gql_schema_types.specs.declared.schema.Schema.{Schema as SchemaOf};

use crate::answer_error::AnswerError;
use crate::answering::answer_call;
use crate::made::Made;
use crate::meaning::Texts;
use crate::prepared::Prepared;
use crate::question::Question;
use crate::text_in::{SCHEMA_FILE, text_in};
use crate::uncounted::answer_alone;
use bytes::Bytes;
use gql_collect::Steps;
use gql_diag::DiagnosticList;
use gql_document_types::ExecutableDocument;
use gql_parser::{laws as text_laws, schema_of_text};
use gql_resolvers::ObjectValue;
use gql_rules::PossibleTypes;
use gql_schema_types::{ImplementersMap, Schema, Valid};
use jb_tree::{Memory, Refused};
use std::alloc::Global;
use std::marker::{Brand, Model};
use std::sync::ledger::{Blank, Ledger};

/// A schema that was checked, and what follows from it alone. It answers any number of requests, and none changes it.
///
/// A contract sees the text of its schema.
pub struct Service {
    schema: Valid<Schema>,
    possible: PossibleTypes,
}

impl Drop for Service {
    fn drop(self) {
        let Service {
            schema: _,
            possible: _,
        } = self;
    }
}

impl Model for Service {
    ghost use Rattle.std.specs.Prelude.{List, ℕ};
    ghost use Rattle.gql_engine.specs.AtHand.{schema_text_in};
    ghost use Rattle.gql_engine.specs.bridge.AtHand.{IsAtHand};

    ghost Value = { List ℕ };

    ghost view = { λ service. schema_text_in service.schema };

    ghost invariant = { λ service. IsAtHand (schema_text_in service.schema) service.schema service.possible };
}

impl Service {
    /// A service of the schema that a text means (GraphQL October 2021, sections 2 and 3). The text may be nested at most 500 deep.
    ///
    /// # Errors
    ///
    /// What is wrong with the text, exactly where it means no schema: the list that [`answer`](crate::answer) tells in
    /// [`AnswerError::Schema`]. Otherwise only when out of memory.
    pub fn new(alloc: Global, schema_text: &str) -> Result<Service, Refused<DiagnosticList>>
        ensures { IsServiceOf schema_text.now result }
    {
        match schema_of_text(alloc, schema_text) {
            Ok(schema) => Ok(Service::of_schema(alloc, schema)?),
            Err(Refused::Fault(list)) => Err(Refused::Fault(list)),
            Err(Refused::Memory) => Err(Refused::Memory),
        }
    }

    /// The service of a schema that the text in its file means.
    fn of_schema(alloc: Global, schema: Valid<Schema>) -> Result<Service, Memory>
        requires { SchemaText (schema_text_in schema) schema }
        ensures { IfOk result (λ service. service ≡ schema_text_in schema) }
    {
        let possible = PossibleTypes::new(alloc, schema.as_ref())?;
        Ok(Service { schema, possible })
    }

    /// The text of the schema. The schema has it in its file, so it is kept once.
    #[must_use]
    pub fn schema_text(&self) -> &str
        ensures { result.now ≡ self.now }
    {
        text_in(&self.schema.as_ref().sources, SCHEMA_FILE)
    }

    /// The schema that the text means.
    #[must_use]
    pub fn schema(&self) -> &Valid<Schema>
        ensures { SchemaText self.now result.now }
    {
        &self.schema
    }

    /// The objects that are possible for each type of the schema.
    #[must_use]
    pub fn possible_types(&self) -> &PossibleTypes
        ensures { (schema : SchemaOf) → SchemaText self.now schema → ArePossibleIn schema.types result.now }
    {
        text_laws::texts_have_one_schema();
        &self.possible
    }

    /// Which types implement each interface of the schema.
    #[must_use]
    pub fn implementers_map(&self) -> &ImplementersMap
        ensures { (schema : SchemaOf) → SchemaText self.now schema
            → (name : List ℕ) → lookup (bytes_eq name) result.now ≡ implementers_of name schema.types }
    {
        self.possible_types().implementers_map()
    }

    /// Answers a request, as [`answer`](crate::answer) does with the text of the schema: the same bytes, and the same looks on
    /// `steps`.
    ///
    /// # Errors
    ///
    /// Those of [`answer`](crate::answer), exactly where they come there; [`AnswerError::Schema`] never comes.
    pub fn answer<O: ObjectValue, L: Ledger>(
        &self,
        alloc: Global,
        question: &Question<'_>,
        root: &O,
        steps: &mut Steps<L>,
    ) -> Result<Bytes, AnswerError>
        ensures answer { GivesAnswer O.type_of O.resolves (O.seen root.now) (asked_of self.now question.now) result }
        ensures answered { IfOk result (AnswersWithin O.type_of O.resolves (O.seen root.now) (asked_of self.now question.now) steps.old steps.new) }
    {
        let made = Made::Schema {
            service: self,
            query: question.query,
        };
        answer_call(alloc, made, &question.call(), root, steps)
    }

    /// [`Service::answer`] without a counter of steps: the same response or refusal.
    ///
    /// # Errors
    ///
    /// Those of [`Service::answer`], exactly where they come there.
    pub fn answer_uncounted<O: ObjectValue>(
        &self,
        alloc: Global,
        question: &Question<'_>,
        root: &O,
    ) -> Result<Bytes, AnswerError>
        ensures { GivesAnswer O.type_of O.resolves (O.seen root.now) (asked_of self.now question.now) result }
    {
        let made = Made::Schema {
            service: self,
            query: question.query,
        };
        answer_alone::<O, Brand>(alloc, made, &question.call(), root, Blank::new(1))
    }

    /// [`Service::answer_uncounted`] with the document that the question's query means at hand: the same response or refusal.
    ///
    /// # Errors
    ///
    /// Those of [`Service::answer_uncounted`], exactly where they come there; [`AnswerError::Document`] never comes.
    pub fn answer_document<O: ObjectValue>(
        &self,
        alloc: Global,
        document: &Valid<ExecutableDocument>,
        question: &Question<'_>,
        root: &O,
    ) -> Result<Bytes, AnswerError>
        requires { IsDocumentOver self.now question.now.query.now document.now }
        ensures { GivesAnswer O.type_of O.resolves (O.seen root.now) (asked_of self.now question.now) result }
    {
        let texts = Texts {
            schema: self.schema(),
            implementers: self.implementers_map(),
            document,
        };
        let made = Made::Both(texts);
        answer_alone::<O, Brand>(alloc, made, &question.call(), root, Blank::new(1))
    }

    /// A query that is read and checked once, to be answered any number of times (GraphQL October 2021, sections 2 and 5). Its
    /// text may be nested at most 500 deep.
    ///
    /// # Errors
    ///
    /// What is wrong with the query's text, exactly where it means no document against the schema: the list that
    /// [`Service::answer`] tells in [`AnswerError::Document`]. Otherwise only when out of memory.
    pub fn prepare(
        &self,
        alloc: Global,
        query: &str,
    ) -> Result<Prepared<'_>, Refused<DiagnosticList>>
        ensures { IsPreparationOf self.now query.now result }
    {
        Prepared::of_query(alloc, self, query)
    }
}
