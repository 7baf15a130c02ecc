//! Places in a document, in JSON.

ghost use Rattle.std.specs.Prelude.{◌≡◌, Ok};
ghost use Rattle.jb_shape.specs.Outcome.{Answers};
ghost use Rattle.jb_shape.specs.Lists.{read_list};
ghost use Rattle.gql_response.specs.Response.{location_value};
ghost use Rattle.gql_response.specs.Reading.{put_location, read_location, whole_location};

use crate::parts::{Parts, read_parts};
use crate::printed::{Printed, append_key, append_whole};
use gql_source::LineColumn;
use jb_shape::{FromValue, ShapeError};
use jb_text::{Listed, Memory, Refused};
use jb_tree::Value;
use std::alloc::Global;

impl Printed for LineColumn {
    ghost value_of = { location_value };

    fn append(&self, out: &mut String) -> Result<(), Memory> {
        out.push_str("{")?;
        append_key(out, false, "line")?;
        append_whole(out, self.line)?;
        append_key(out, true, "column")?;
        append_whole(out, self.column)?;
        out.push_str("}")?;
        Ok(())
    }
}

/// What has been read of a location.
#[derive(Clone, Copy)]
pub(crate) struct LocationParts {
    line: Option<usize>,
    column: Option<usize>,
}

impl Parts for LocationParts {
    ghost put_gives = { put_location };

    fn put(&mut self, alloc: Global, key: &str, value: &Value) -> Result<(), Refused<ShapeError>> {
        if key == "line" {
            self.line = Some(usize::from_value(alloc, value)?);
            return Ok(());
        }
        if key == "column" {
            self.column = Some(usize::from_value(alloc, value)?);
            return Ok(());
        }
        Err(Refused::Fault(ShapeError::UnknownField))
    }
}

impl LocationParts {
    /// The location, where no part is missing.
    fn whole(self) -> Result<LineColumn, ShapeError>
        ensures { result ≡ whole_location self }
    {
        match (self.line, self.column) {
            (Some(line), Some(column)) => Ok(LineColumn { line, column }),
            _ => Err(ShapeError::MissingField),
        }
    }
}

/// A list of locations.
pub(crate) fn read_locations(
    alloc: Global,
    value: &Value,
) -> Result<Listed<LineColumn>, Refused<ShapeError>>
    ensures { Answers (read_list read_location value.now) result }
{
    let Some(values) = value.as_array() else {
        return Err(Refused::Fault(ShapeError::WrongKind));
    };
    let mut locations = Listed::new(alloc);
    for value in values.as_slice() {
        locations.push(read_location(alloc, value)?)?;
    }
    Ok(locations)
}

fn read_location(alloc: Global, value: &Value) -> Result<LineColumn, Refused<ShapeError>>
    ensures { Answers (read_location value.now) result }
{
    let none = LocationParts {
        line: None,
        column: None,
    };
    let parts = read_parts(alloc, none, value)?;
    Ok(parts.whole()?)
}
