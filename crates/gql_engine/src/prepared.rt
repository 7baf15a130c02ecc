//! A query that is read and checked once.

ghost use Rattle.std.specs.Prelude.{◌≡◌, IfOk};
ghost use Rattle.gql_engine.specs.AnswerError.{call_of};
ghost use Rattle.gql_engine.specs.AtHand.{IsDocumentOver};
ghost use Rattle.gql_engine.specs.Answering.{AnswersWithin, GivesAnswer};
ghost use Rattle.gql_engine.specs.Meant.{AreMeant};
ghost use Rattle.gql_engine.specs.Service.{IsPreparationOf};

use crate::answer_error::AnswerError;
use crate::answering::answer_call;
use crate::call::Call;
use crate::made::Made;
use crate::meaning::Texts;
use crate::service::Service;
use crate::text_in::{QUERY_FILE, text_in};
use crate::uncounted::answer_alone;
use bytes::Bytes;
use gql_collect::Steps;
use gql_diag::DiagnosticList;
use gql_document_types::ExecutableDocument;
use gql_parser::{document_of_text_with, laws as text_laws};
use gql_resolvers::ObjectValue;
use gql_schema_types::Valid;
use jb_tree::Refused;
use std::alloc::Global;
use std::marker::{Brand, Model};
use std::sync::ledger::{Blank, Ledger};

/// A query that was checked against the schema of a service. It is answered any number of times, and none changes it.
///
/// A contract sees the texts of the schema and of the query.
pub struct Prepared<'s> {
    service: &'s Service,
    document: Valid<ExecutableDocument>,
}

impl<'s> Drop for Prepared<'s> {
    fn drop(self) {
        let Prepared {
            service: _,
            document: _,
        } = self;
    }
}

impl<'s> Model for Prepared<'s> {
    ghost use Rattle.gql_engine.specs.AtHand.{IsDocumentOver, TwoTexts, query_text_in};

    ghost Value = { TwoTexts };

    ghost view = { λ prepared. record { schema = prepared.service.now; query = query_text_in prepared.document } };

    ghost invariant = { λ prepared. IsDocumentOver prepared.service.now (query_text_in prepared.document) prepared.document };
}

impl<'s> Prepared<'s> {
    /// What a query means against the schema of a service, or what is wrong with its text.
    pub(crate) fn of_query(
        alloc: Global,
        service: &'s Service,
        query: &str,
    ) -> Result<Prepared<'s>, Refused<DiagnosticList>>
        ensures { IsPreparationOf service.now query.now result }
    {
        text_laws::texts_have_one_schema();
        let possible = service.possible_types();
        match document_of_text_with(alloc, service.schema(), possible, query) {
            Ok(document) => Ok(Prepared { service, document }),
            Err(Refused::Fault(list)) => Err(Refused::Fault(list)),
            Err(Refused::Memory) => Err(Refused::Memory),
        }
    }

    /// The text of the schema that the query was checked against.
    #[must_use]
    pub fn schema_text(&self) -> &str
        ensures { result.now ≡ self.now.schema }
    {
        self.service.schema_text()
    }

    /// The text of the query. The document has it in its file, so it is kept once.
    #[must_use]
    pub fn query_text(&self) -> &str
        ensures { result.now ≡ self.now.query }
    {
        text_in(&self.document.as_ref().sources, QUERY_FILE)
    }

    /// What the query means against the schema, by itself.
    #[must_use]
    pub fn into_document(self) -> Valid<ExecutableDocument>
        ensures { IsDocumentOver self.entry.schema self.entry.query result }
    {
        let Prepared {
            service: _,
            document,
        } = self;
        document
    }

    /// What both texts mean.
    pub(crate) fn texts(&self) -> Texts<'_>
        ensures { AreMeant self.now.schema self.now.query result.schema.now result.document.now }
    {
        Texts {
            schema: self.service.schema(),
            implementers: self.service.implementers_map(),
            document: &self.document,
        }
    }

    /// Answers an operation of the query, as [`answer`](crate::answer) does with both texts: the same bytes, and the same looks on
    /// `steps`.
    ///
    /// # Errors
    ///
    /// Those of [`answer`](crate::answer), exactly where they come there; [`AnswerError::Schema`] and [`AnswerError::Document`]
    /// never come.
    pub fn answer<O: ObjectValue, L: Ledger>(
        &self,
        alloc: Global,
        operation_name: Option<&str>,
        variables: &Bytes,
        introspection: bool,
        root: &O,
        steps: &mut Steps<L>,
    ) -> Result<Bytes, AnswerError>
        ensures answer { GivesAnswer O.type_of O.resolves (O.seen root.now)
            (call_of self.now.schema self.now.query operation_name.entry variables.now introspection) result }
        ensures answered { IfOk result (AnswersWithin O.type_of O.resolves (O.seen root.now)
            (call_of self.now.schema self.now.query operation_name.entry variables.now introspection) steps.old steps.new) }
    {
        let call = Call {
            operation_name,
            variables,
            introspection,
        };
        answer_call(alloc, Made::Both(self.texts()), &call, root, steps)
    }

    /// [`Prepared::answer`] without a counter of steps: the same response or refusal.
    ///
    /// # Errors
    ///
    /// Those of [`Prepared::answer`], exactly where they come there.
    pub fn answer_uncounted<O: ObjectValue>(
        &self,
        alloc: Global,
        operation_name: Option<&str>,
        variables: &Bytes,
        introspection: bool,
        root: &O,
    ) -> Result<Bytes, AnswerError>
        ensures { GivesAnswer O.type_of O.resolves (O.seen root.now)
            (call_of self.now.schema self.now.query operation_name.entry variables.now introspection) result }
    {
        let call = Call {
            operation_name,
            variables,
            introspection,
        };
        answer_alone::<O, Brand>(alloc, Made::Both(self.texts()), &call, root, Blank::new(1))
    }
}
