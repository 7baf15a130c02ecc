//! The way from the root to a place of the response, which grows on the way down and allocates nothing.

ghost use Rattle.std.specs.Prelude.{◌≡◌, IfOk};
ghost use Rattle.gql_resolvers.specs.Trail.{path_of};
ghost use Rattle.gql_exec.specs.bridge.Trails as spec;

use gql_ast_base::{Copying, Name, TypeRef};
use gql_response::ResponseDataPathSegment;
use jb_text::{Listed, Memory};
use std::alloc::Global;

/// A step down: to a response key, or to an item of a list.
#[derive(Clone, Copy)]
pub enum Step<'a> {
    Key(&'a Name),
    Item(usize),
}

impl<'a> Step<'a> {
    /// The step as errors tell it. `Err` only when out of memory.
    pub(crate) fn to_segment(&self, alloc: Global) -> Result<ResponseDataPathSegment, Memory>
        ensures { IfOk result (λ made. made ≡ spec.segment_of self.now) }
    {
        match self {
            Step::Key(name) => Ok(ResponseDataPathSegment::Field(name.copy(alloc)?)),
            Step::Item(index) => Ok(ResponseDataPathSegment::ListIndex(*index)),
        }
    }
}

/// The root of the response's data, or a place below another: the last step to it, and its type.
#[derive(Clone, Copy)]
pub enum Path<'a> {
    Root,
    Below(&'a Path<'a>, Step<'a>, &'a TypeRef),
}

impl<'a> Path<'a> {
    /// The steps from the root. `Err` only when out of memory.
    pub(crate) fn to_segments(
        &self,
        alloc: Global,
    ) -> Result<Listed<ResponseDataPathSegment>, Memory>
        ensures { IfOk result (λ segments. segments ≡ path_of (spec.trail_of self.now)) }
    {
        match self {
            Path::Root => Ok(Listed::new(alloc)),
            Path::Below(parent, step, _) => {
                let mut segments = parent.to_segments(alloc)?;
                segments.push(step.to_segment(alloc)?)?;
                Ok(segments)
            }
        }
    }
}
