//! Reading the errors of responses.

ghost use Rattle.std.specs.Prelude.{◌≡◌, None};
ghost use Rattle.jb_tree.specs.Value.{object_members};
ghost use Rattle.jb_shape.specs.Outcome.{Answers};
ghost use Rattle.jb_shape.specs.Scalars.{of_kind};
ghost use Rattle.gql_response.specs.Reading.{no_parts, put_error, read_error, whole_error};

use crate::graphql_error::GraphQLError;
use crate::location::read_locations;
use crate::parts::{Parts, read_parts};
use crate::path::ResponseDataPathSegment;
use gql_source::LineColumn;
use jb_shape::{FromValue, ShapeError};
use jb_text::{Listed, Refused, Text};
use jb_tree::{Map, Value};
use std::alloc::Global;

/// What has been read of an error.
#[derive(Drop)]
pub(crate) struct ErrorParts {
    message: Option<Text>,
    locations: Listed<LineColumn>,
    path: Listed<ResponseDataPathSegment>,
    extensions: Map,
}

impl ErrorParts {
    fn new(alloc: Global) -> ErrorParts
        ensures { result ≡ no_parts }
    {
        ErrorParts {
            message: None,
            locations: Listed::new(alloc),
            path: Listed::new(alloc),
            extensions: Map::new(alloc),
        }
    }

    /// The error, where its message is not missing.
    fn whole(self) -> Result<GraphQLError, ShapeError>
        ensures { result ≡ whole_error self }
    {
        let ErrorParts {
            message,
            locations,
            path,
            extensions,
        } = self;
        match message {
            Some(message) => Ok(GraphQLError {
                message,
                locations,
                path,
                extensions,
            }),
            None => Err(ShapeError::MissingField),
        }
    }
}

impl Parts for ErrorParts {
    ghost put_gives = { put_error };

    fn put(&mut self, alloc: Global, key: &str, value: &Value) -> Result<(), Refused<ShapeError>> {
        if key == "message" {
            self.message = Some(Text::from_value(alloc, value)?);
            return Ok(());
        }
        if key == "locations" {
            self.locations = read_locations(alloc, value)?;
            return Ok(());
        }
        if key == "path" {
            self.path = Listed::from_value(alloc, value)?;
            return Ok(());
        }
        if key == "extensions" {
            self.extensions = read_object(alloc, value)?;
            return Ok(());
        }
        Err(Refused::Fault(ShapeError::UnknownField))
    }
}

impl FromValue for GraphQLError {
    ghost reading = { read_error };

    fn from_value(alloc: Global, value: &Value) -> Result<GraphQLError, Refused<ShapeError>> {
        let parts = read_parts(alloc, ErrorParts::new(alloc), value)?;
        Ok(parts.whole()?)
    }
}

/// The members of an object in memory of their own.
pub(crate) fn read_object(alloc: Global, value: &Value) -> Result<Map, Refused<ShapeError>>
    ensures { Answers (of_kind (object_members value.now)) result }
{
    match object_of(value.copy(alloc)?) {
        Some(members) => Ok(members),
        None => Err(Refused::Fault(ShapeError::WrongKind)),
    }
}

fn object_of(value: Value) -> Option<Map>
    ensures { result ≡ object_members value }
{
    match value {
        Value::Object(members) => Some(members),
        _ => None,
    }
}
