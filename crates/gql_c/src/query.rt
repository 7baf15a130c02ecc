//! A query with the schema that it was checked against.

ghost use Rattle.std.specs.Arc.{arc_value};
ghost use Rattle.gql_c.specs.Executions.{GivesOver, call_to};
ghost use Rattle.gql_c.specs.Queries.{IsTextsDocument};
ghost use Rattle.gql_document_types.specs.ChosenOperation.{text_of};
ghost use Rattle.gql_engine.specs.Service.{IsPreparationOf};
ghost use Rattle.gql_rounds.specs.Rounds.{GivesRound};

use bytes::Bytes;
use gql_engine::{
    AnswerError, DataObject, DiagnosticList, ExecutableDocument, Map, Question, Refused, Service,
    Text, Valid, document_of_text, laws,
};
use gql_rounds::{Answers, Round, step};
use std::alloc::Global;
use std::marker::Model;
use std::sync::Arc;

/// A query that was checked against a schema, and that schema, which it keeps.
///
/// A contract sees the texts of the schema and of the query.
pub struct Query {
    service: Arc<Service>,
    text: Text,
    document: Valid<ExecutableDocument>,
}

impl Drop for Query {
    fn drop(self) {
        let Query {
            service: _,
            text: _,
            document: _,
        } = self;
    }
}

impl Model for Query {
    ghost use Rattle.std.specs.Arc.{arc_value};
    ghost use Rattle.gql_engine.specs.AtHand.{IsDocumentOver, TwoTexts};

    ghost Value = { TwoTexts };

    ghost view = { λ query. record { schema = arc_value query.service; query = query.text } };

    ghost invariant = { λ query. IsDocumentOver (arc_value query.service) query.text query.document };
}

impl Query {
    /// What a text means against the schema of a service, or what is wrong with the text (GraphQL October 2021, sections 2 and 5). The
    /// text may be nested at most 500 deep.
    pub(crate) fn of_text(
        alloc: Global,
        service: &Arc<Service>,
        text: &str,
    ) -> Result<Query, Refused<DiagnosticList>>
        ensures { IsPreparationOf (arc_value service.now) text.now result }
    {
        laws::texts_have_one_schema();
        match document_of_text(alloc, service.schema(), text) {
            Ok(document) => Ok(Query {
                service: Arc::try_clone(service)?,
                text: Text::from_str(alloc, text)?,
                document,
            }),
            Err(Refused::Fault(list)) => Err(Refused::Fault(list)),
            Err(Refused::Memory) => Err(Refused::Memory),
        }
    }

    /// What the text means.
    pub(crate) fn document(&self) -> &Valid<ExecutableDocument>
        ensures { IsTextsDocument self.now result.now }
    {
        let _schema = self.service.schema();
        &self.document
    }

    /// Answers an operation of the query over data (GraphQL October 2021, sections 6 and 7).
    pub(crate) fn answer(
        &self,
        alloc: Global,
        operation_name: Option<&str>,
        variables: &Bytes,
        introspection: bool,
        members: &Map,
    ) -> Result<Bytes, AnswerError>
        ensures { GivesOver members.now (call_to self.now (text_of operation_name.entry) variables.now introspection) result }
    {
        let question = Question {
            query: self.text.as_str(),
            operation_name,
            variables,
            introspection,
        };
        self.service.answer_document(alloc, &self.document, &question, &DataObject::root(members))
    }

    /// One step of a request to the query, with these answers: what they leave to be asked, or the response.
    pub(crate) fn step(
        &self,
        alloc: Global,
        operation_name: Option<&str>,
        variables: &Bytes,
        introspection: bool,
        answers: &Answers,
    ) -> Result<Round, AnswerError>
        ensures { GivesRound answers.now (call_to self.now (text_of operation_name.entry) variables.now introspection) result }
    {
        let question = Question {
            query: self.text.as_str(),
            operation_name,
            variables,
            introspection,
        };
        step(alloc, &self.service, &self.document, &question, answers)
    }
}
