//! Reading objects member by member.

ghost use Rattle.std.specs.Prelude.{Result};
ghost use Rattle.jb_shape.specs.Outcome.{Answers};
ghost use Rattle.jb_shape.specs.declared.shape_error.ShapeError.{ShapeError as Cause};
ghost use Rattle.gql_response.specs.Response.{Member};
ghost use Rattle.gql_response.specs.Puts.{parts_of, Puts};

use jb_shape::ShapeError;
use jb_text::Refused;
use jb_tree::Value;
use std::alloc::Global;

/// What has been read of an object.
pub(crate) trait Parts: Sized + Drop {
    // What the parts are with one more member, or why it does not fit.
    ghost put_gives: { Self → Member → Result Self Cause };

    /// Puts a member in its place. An unknown one, and one that does not fit, is refused.
    fn put(&mut self, alloc: Global, key: &str, value: &Value) -> Result<(), Refused<ShapeError>>
        ensures { Puts (put_gives self.old (key.now, value.now)) result self.new };
}

/// The parts with each member of an object, in turn. The first that does not fit is the cause; another value is of a
/// wrong kind.
pub(crate) fn read_parts<P: Parts>(
    alloc: Global,
    mut parts: P,
    value: &Value,
) -> Result<P, Refused<ShapeError>>
    ensures { Answers (parts_of P.put_gives parts value.now) result }
{
    let Some(members) = value.as_object() else {
        return Err(Refused::Fault(ShapeError::WrongKind));
    };
    for index in 0..members.len() {
        parts.put(
            alloc,
            members.key_at(index).as_str(),
            members.value_at(index),
        )?;
    }
    Ok(parts)
}
