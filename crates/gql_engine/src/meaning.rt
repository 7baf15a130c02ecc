//! What two texts mean.

ghost use Rattle.std.specs.Prelude.{◌≡◌, IfErr, IfOk};
ghost use Rattle.gql_engine.specs.bridge.Meant.{AreTextsChecked};
ghost use Rattle.gql_engine.specs.Responding.{HasCauseOf};
ghost use Rattle.gql_engine.specs.Service.{IsOfText, IsOfTexts};
ghost use Rattle.gql_engine.specs.Wanted.{Wanted as WantedOf};

use crate::answer_error::AnswerError;
use crate::prepared::Prepared;
use crate::service::Service;
use gql_diag::DiagnosticList;
use gql_document_types::ExecutableDocument;
use gql_schema_types::{ImplementersMap, Schema, Valid};
use jb_text::{Memory, Refused};
use std::alloc::{AllocError, Global};

/// A schema with its implementers, and a document against it.
#[derive(Clone, Copy)]
pub(crate) struct Texts<'t> {
    pub(crate) schema: &'t Valid<Schema>,
    pub(crate) implementers: &'t ImplementersMap,
    pub(crate) document: &'t Valid<ExecutableDocument>,
}

/// A service of the schema that a text means: [`Service::new`] with the error of a call for an answer.
///
/// # Errors
///
/// [`AnswerError::Schema`] exactly where the text means no schema, and [`AnswerError::Memory`] when out of memory.
pub fn check_schema(alloc: Global, schema: &str) -> Result<Service, AnswerError>
    ensures made { IfOk result (IsOfText schema.now) }
    ensures refused { (wanted : WantedOf) → wanted.schema ≡ schema.now → IfErr result (HasCauseOf wanted) }
{
    match Service::new(alloc, schema) {
        Ok(service) => Ok(service),
        Err(Refused::Fault(list)) => Err(AnswerError::Schema(list)),
        Err(Refused::Memory) => Err(AnswerError::Memory),
    }
}

/// A query that was checked against the schema of a service: [`Service::prepare`] with the error of a call for an answer.
///
/// # Errors
///
/// [`AnswerError::Document`] exactly where the text means no document against the schema, and [`AnswerError::Memory`] when out of
/// memory.
pub fn check_query<'s>(
    alloc: Global,
    service: &'s Service,
    query: &str,
) -> Result<Prepared<'s>, AnswerError>
    ensures made { IfOk result (IsOfTexts service.now query.now) }
    ensures refused { (wanted : WantedOf) → wanted.schema ≡ service.now → wanted.query ≡ query.now → IfErr result (HasCauseOf wanted) }
{
    match service.prepare(alloc, query) {
        Ok(prepared) => Ok(prepared),
        Err(Refused::Fault(list)) => Err(AnswerError::Document(list)),
        Err(Refused::Memory) => Err(AnswerError::Memory),
    }
}

/// What is wrong with the first of both texts that means nothing, if one does (GraphQL October 2021, sections 2, 3 and 5). Each is
/// nested at most 500 deep. `Err` only when out of memory.
pub(crate) fn faults_of_texts(
    alloc: Global,
    schema: &str,
    query: &str,
) -> Result<Option<DiagnosticList>, Memory>
    ensures { IfOk result (AreTextsChecked schema.now query.now) }
{
    match Service::new(alloc, schema) {
        Ok(service) => faults_of_query(alloc, &service, query),
        Err(Refused::Fault(list)) => Ok(Some(list)),
        Err(Refused::Memory) => Err(AllocError),
    }
}

/// What is wrong with a query against the schema of a service, if it means nothing there.
fn faults_of_query(
    alloc: Global,
    service: &Service,
    query: &str,
) -> Result<Option<DiagnosticList>, Memory>
    ensures { IfOk result (AreTextsChecked service.now query.now) }
{
    match service.prepare(alloc, query) {
        Ok(prepared) => {
            drop(prepared);
            Ok(None)
        }
        Err(Refused::Fault(list)) => Ok(Some(list)),
        Err(Refused::Memory) => Err(AllocError),
    }
}
