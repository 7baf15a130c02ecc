//! What each call does, and how many bytes it answered with.

use crate::asked::Asked;
use crate::call::Call;
use gql_engine::{DataObject, Prepared, Question, Service, answer_uncounted};
use std::alloc::Global;

/// How many bytes a call, done so many times, answered with, or nothing where a step is refused. A service that is made counts for
/// the bytes of its schema's text, and a query that is prepared for those of its own.
///
/// No clause says which: the stored output shows it.
pub fn answered(alloc: Global, call: Call, asked: &Asked<'_>, count: usize) -> Option<usize> {
    match call {
        Call::Read => Some(asked.schema.len()),
        Call::New => made(alloc, asked, count),
        Call::Whole => whole(alloc, asked, count),
        Call::Answer | Call::Prepare | Call::Prepared => by_service(alloc, call, asked, count),
    }
}

/// Services that are made of the schema's text.
fn made(alloc: Global, asked: &Asked<'_>, count: usize) -> Option<usize> {
    let mut bytes = 0usize;
    for _ in 0..count {
        match Service::new(alloc, asked.schema) {
            Ok(service) => bytes = bytes.saturating_add(service.schema_text().len()),
            Err(_) => return None,
        }
    }
    Some(bytes)
}

/// Answers to the texts.
fn whole(alloc: Global, asked: &Asked<'_>, count: usize) -> Option<usize> {
    let root = DataObject::root(asked.data);
    let mut bytes = 0usize;
    for _ in 0..count {
        match answer_uncounted(
            alloc,
            asked.schema,
            asked.query,
            None,
            asked.variables,
            asked.introspection,
            &root,
        ) {
            Ok(response) => bytes = bytes.saturating_add(response.len()),
            Err(_) => return None,
        }
    }
    Some(bytes)
}

/// What a service does that is made once.
fn by_service(alloc: Global, call: Call, asked: &Asked<'_>, count: usize) -> Option<usize> {
    match Service::new(alloc, asked.schema) {
        Ok(service) => served(alloc, call, &service, asked, count),
        Err(_) => None,
    }
}

fn served(
    alloc: Global,
    call: Call,
    service: &Service,
    asked: &Asked<'_>,
    count: usize,
) -> Option<usize> {
    match call {
        Call::Answer => answers(alloc, service, asked, count),
        Call::Prepare => preparations(alloc, service, asked, count),
        _ => by_prepared(alloc, service, asked, count),
    }
}

/// Answers to questions.
fn answers(alloc: Global, service: &Service, asked: &Asked<'_>, count: usize) -> Option<usize> {
    let root = DataObject::root(asked.data);
    let question = Question {
        query: asked.query,
        operation_name: None,
        variables: asked.variables,
        introspection: asked.introspection,
    };
    let mut bytes = 0usize;
    for _ in 0..count {
        match service.answer_uncounted(alloc, &question, &root) {
            Ok(response) => bytes = bytes.saturating_add(response.len()),
            Err(_) => return None,
        }
    }
    Some(bytes)
}

/// Preparations of the query.
fn preparations(
    alloc: Global,
    service: &Service,
    asked: &Asked<'_>,
    count: usize,
) -> Option<usize> {
    let mut bytes = 0usize;
    for _ in 0..count {
        match service.prepare(alloc, asked.query) {
            Ok(prepared) => bytes = bytes.saturating_add(prepared.query_text().len()),
            Err(_) => return None,
        }
    }
    Some(bytes)
}

/// What the query does that is prepared once.
fn by_prepared(alloc: Global, service: &Service, asked: &Asked<'_>, count: usize) -> Option<usize> {
    match service.prepare(alloc, asked.query) {
        Ok(prepared) => prepared_answers(alloc, &prepared, asked, count),
        Err(_) => None,
    }
}

/// Answers of the prepared query.
fn prepared_answers(
    alloc: Global,
    prepared: &Prepared<'_>,
    asked: &Asked<'_>,
    count: usize,
) -> Option<usize> {
    let root = DataObject::root(asked.data);
    let mut bytes = 0usize;
    for _ in 0..count {
        match prepared.answer_uncounted(alloc, None, asked.variables, asked.introspection, &root) {
            Ok(response) => bytes = bytes.saturating_add(response.len()),
            Err(_) => return None,
        }
    }
    Some(bytes)
}
