//! What a handle can hold.

use crate::query::Query;
use bytes::Bytes;
use gql_engine::{Map, Service};
use gql_rounds::Answers;
use std::sync::Arc;

/// What a handle can hold. Handles that share a value count it together, and none changes it.
#[derive(Drop)]
pub enum Held {
    /// A schema that was checked.
    Schema(Arc<Service>),
    /// A query that was checked against a schema.
    Query(Arc<Query>),
    /// The members of the object that a query begins at.
    Data(Arc<Map>),
    /// Bytes for the caller.
    Reply(Bytes),
    /// Answers to what the steps of a request ask. They alone are changed, by the call that adds to them.
    Answers(Answers),
}
